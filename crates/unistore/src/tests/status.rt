//! The numbers of the exit statuses.
use crate::{LimitKind, Reason, Status};

#[test]
fn numbers(rt: HostRuntime) {
    for (status, want) in [
        (Status::Done, 0),
        (Status::Words, 2),
        (
            Status::Input {
                line: 1,
                reason: Reason::NotBuilt,
            },
            3,
        ),
        (Status::ReadFault, 4),
        (Status::WriteFault, 5),
        (Status::LinkFault, 6),
        (Status::Memory, 7),
        (
            Status::Limit {
                which: LimitKind::Text,
                line: 0,
            },
            8,
        ),
    ] {
        assert_eq!(rt; status.number(), want);
    }
}
