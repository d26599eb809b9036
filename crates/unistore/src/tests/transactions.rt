//! What transactions see.
use super::frames::{byte_by_byte, spelled};
use super::runs::{TWO, TWO_REPORT, answered, reports};
use std::test::Fail;

#[test]
fn two_transactions(rt: HostRuntime) -> Result<(), Fail> {
    assert!(rt; reports(rt.alloc(), "replay", TWO, TWO_REPORT)?);
    Ok(())
}

/// However the bytes of a session are cut, its requests are the same.
#[test]
fn a_byte_a_line(rt: HostRuntime) -> Result<(), Fail> {
    let schedule = spelled(rt.alloc(), TWO)?;
    let input = byte_by_byte(rt.alloc(), schedule.as_str())?;
    let outcome = answered(rt.alloc(), "replay", input.as_str())?;
    assert_eq!(rt; outcome.written.as_slice(), TWO_REPORT.as_bytes());
    Ok(())
}

/// The second session begins before the first writes, and reads after that.
const EARLIER_SNAPSHOT: &str = "\
---\n\
open 1 1\n\
open 1 1\n\
send 2: begin\n\
flush 1 1\n\
send 1: begin, register.write 1:61 78, commit\n\
flush 1 1\n\
send 2: register.read 1:61, commit\n\
flush 1 1\n\
";

/// The reader answers as of its beginning, where one store with one copy would give the value, and stands first.
const EARLIER_SNAPSHOT_REPORT: &str = "\
t 1.1.1 1.1.2 1 causal -\n\
o 1:61 read none\n\
t 1.1.2 1.1.1 1 causal -\n\
o 1:61 write:78 done\n\
committed 2 strong 0 aborted 0 loose 0 links 0 refused 0 waiting 0\n\
";

#[test]
fn an_earlier_snapshot(rt: HostRuntime) -> Result<(), Fail> {
    assert!(rt;
        reports(
            rt.alloc(),
            "replay",
            EARLIER_SNAPSHOT,
            EARLIER_SNAPSHOT_REPORT
        )?
    );
    Ok(())
}
