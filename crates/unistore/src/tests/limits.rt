//! The limits of a run: so many events, sessions and transactions.
use super::frames::push_line;
use super::runs::{NOTHING, answered};
use crate::{LimitKind, Reason, Status};
use std::alloc::Global;
use std::test::Fail;

/// A line comes so many times, and then come more lines.
fn repeated(alloc: Global, line: &str, count: usize, more: &str) -> Result<String, Fail> {
    let mut text = String::from_str(alloc, "---\n")?;
    for _ in 0..count {
        text.push_str(line)?;
    }
    text.push_str(more)?;
    Ok(text)
}

#[test]
fn sessions(rt: HostRuntime) -> Result<(), Fail> {
    let passed = Status::Limit {
        which: LimitKind::Sessions,
        line: 514,
    };
    let refused = Status::Input {
        line: 514,
        reason: Reason::BadWord,
    };
    for (count, more, status, want) in [
        (512, "", Status::Done, NOTHING),
        (513, "", passed, "refused limit sessions line 514\n"),
        (513, "sleep\n", passed, "refused limit sessions line 514\n"),
        (
            512,
            "sleep\nopen 1 1\n",
            refused,
            "refused line 514 BadWord\n",
        ),
        (512, "\n# open 1 1\ndeliver 1\n", Status::Done, NOTHING),
    ] {
        let input = repeated(rt.alloc(), "open 1 1\n", count, more)?;
        let outcome = answered(rt.alloc(), "replay", input.as_str())?;
        assert_eq!(rt; outcome.status, status, "{want}");
        assert_eq!(rt; outcome.written.as_slice(), want.as_bytes());
    }
    Ok(())
}

#[test]
fn events(rt: HostRuntime) -> Result<(), Fail> {
    let passed = Status::Limit {
        which: LimitKind::Events,
        line: 1_000_002,
    };
    for (more, status, want) in [
        ("", Status::Done, NOTHING),
        (
            "close 1 1 1\n",
            passed,
            "refused limit events line 1000002\n",
        ),
    ] {
        let input = repeated(rt.alloc(), "close 1 1 1\n", 1_000_000, more)?;
        let outcome = answered(rt.alloc(), "replay", input.as_str())?;
        assert_eq!(rt; outcome.status, status, "{want}");
        assert_eq!(rt; outcome.written.as_slice(), want.as_bytes());
    }
    Ok(())
}

/// Four lines of bytes, each of so many transactions that are begun and abandoned.
fn abandoned(alloc: Global, each: u32) -> Result<String, Fail> {
    let mut line = String::from_str(alloc, "send 1: begin, abandon")?;
    for _ in 1..each {
        line.push_str(", begin, abandon")?;
    }
    let mut text = String::from_str(alloc, "---\nopen 1 1\n")?;
    for _ in 0..4 {
        push_line(&mut text, line.as_str())?;
    }
    Ok(text)
}

#[test]
fn transactions(rt: HostRuntime) -> Result<(), Fail> {
    for (each, want) in [
        (
            5000,
            "committed 0 strong 0 aborted 0 loose 20000 links 0 refused 0 waiting 0\n",
        ),
        (5001, "refused limit transactions line 6\n"),
    ] {
        let input = abandoned(rt.alloc(), each)?;
        let outcome = answered(rt.alloc(), "replay short", input.as_str())?;
        assert_eq!(rt; outcome.written.as_slice(), want.as_bytes());
    }
    Ok(())
}
