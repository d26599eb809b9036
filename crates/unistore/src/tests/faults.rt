//! Reads and writes that fail.
use super::frames::spelled;
use super::runs::{TWO, TWO_REPORT, failing, words_of};
use crate::edge::ListClock;
use crate::{Reason, Status, replay_infallible};
use std::test::Fail;
use us_edge::SureLinks;

#[test]
fn a_read_that_fails(rt: HostRuntime) -> Result<(), Fail> {
    for number in [1, 2] {
        let outcome = failing(rt.alloc(), "replay", "---\nopen 1 1\n", 4096, number, 0)?;
        assert_eq!(rt; outcome.status, Status::ReadFault, "{number}");
        assert_eq!(rt; outcome.written.len(), 0, "{number}");
    }
    Ok(())
}

#[test]
fn a_write_that_fails(rt: HostRuntime) -> Result<(), Fail> {
    for (schedule, want) in [
        (TWO, "t 1.1.1 1.1.1 1 "),
        ("---", "committed 0 stro"),
        ("", "refused line 1 N"),
    ] {
        let input = spelled(rt.alloc(), schedule)?;
        let outcome = failing(rt.alloc(), "replay", input.as_str(), 1, 0, 17)?;
        assert_eq!(rt; outcome.status, Status::WriteFault, "{want}");
        assert_eq!(rt; outcome.written.as_slice(), want.as_bytes());
    }
    Ok(())
}

#[test]
fn each_write_that_fails(rt: HostRuntime) -> Result<(), Fail> {
    let input = spelled(rt.alloc(), TWO)?;
    let mut written = 0;
    let mut number = 1;
    for _ in TWO_REPORT.bytes() {
        let outcome = failing(rt.alloc(), "replay", input.as_str(), 1, 0, number)?;
        assert_eq!(rt; outcome.status, Status::WriteFault, "{number}");
        assert_eq!(rt;
            Some(outcome.written.as_slice()),
            TWO_REPORT.as_bytes().get(..written),
            "{number}"
        );
        written = written.wrapping_add(1);
        number = number.wrapping_add(1);
    }
    Ok(())
}

#[test]
fn without_failures(rt: HostRuntime) -> Result<(), Fail> {
    let alloc = rt.alloc();
    let words = words_of(alloc, "replay")?;
    for (input, want) in [
        ("---", Status::Done),
        (
            "-",
            Status::Input {
                line: 2,
                reason: Reason::NoSeparator,
            },
        ),
    ] {
        let bytes = Vec::from_slice(alloc, input.as_bytes())?;
        let mut clock = ListClock::new(Vec::new(alloc));
        let status = replay_infallible(
            alloc,
            words.as_slice(),
            bytes,
            &mut SureLinks::new(Vec::new(alloc)),
            &mut clock,
        );
        assert_eq!(rt; status, want, "{input}");
    }
    Ok(())
}
