//! Packets that come again, late or not at all.
use super::frames::{push_line, spelled};
use super::runs::{TWO, TWO_REPORT, answered, reports};
use crate::Status;
use std::alloc::Global;
use std::test::Fail;

/// The schedule of two transactions with these lines behind the first flush.
fn with_lines(alloc: Global, lines: &str) -> Result<String, Fail> {
    let mut text = String::new(alloc);
    let mut is_first = true;
    for line in TWO.lines() {
        push_line(&mut text, line)?;
        if is_first && line == "flush 1 1" {
            text.push_str(lines)?;
            is_first = false;
        }
    }
    Ok(text)
}

#[test]
fn packets_that_come_again(rt: HostRuntime) -> Result<(), Fail> {
    for lines in [
        "deliver 1\n",
        "deliver 2\n",
        "deliver 1\ndeliver 1\n",
        "deliver 2\ndeliver 1\n",
        "deliver 3\n",
        "deliver 18446744073709551615\n",
    ] {
        let input = with_lines(rt.alloc(), lines)?;
        let outcome = answered(rt.alloc(), "replay", input.as_str())?;
        assert_eq!(rt; outcome.status, Status::Done, "{lines}");
        assert_eq!(rt;
            outcome.written.as_slice(),
            TWO_REPORT.as_bytes(),
            "{lines}"
        );
    }
    Ok(())
}

/// A transaction writes once; then come these lines.
fn one_write(alloc: Global, lines: &str) -> Result<String, Fail> {
    let mut input = spelled(
        alloc,
        "---\nopen 1 1\nsend 1: begin, register.write 1:61 78",
    )?;
    input.push_str(lines)?;
    Ok(input)
}

#[test]
fn packets_one_by_one(rt: HostRuntime) -> Result<(), Fail> {
    for (lines, want) in [
        (
            "deliver 1\n",
            "l 1.1.1 1.1.1 open -\nw 1.1.1 2\n\
            committed 0 strong 0 aborted 0 loose 1 links 0 refused 0 waiting 1\n",
        ),
        (
            "deliver 2\ndeliver 1\n",
            "l 1.1.1 1.1.1 open -\nw 1.1.1 2\n\
            committed 0 strong 0 aborted 0 loose 1 links 0 refused 0 waiting 1\n",
        ),
        (
            "deliver 1\ndeliver 2\n",
            "l 1.1.1 1.1.1 open -\no 1:61 write:78 done\n\
            committed 0 strong 0 aborted 0 loose 1 links 0 refused 0 waiting 0\n",
        ),
    ] {
        let input = one_write(rt.alloc(), lines)?;
        let outcome = answered(rt.alloc(), "replay", input.as_str())?;
        assert_eq!(rt; outcome.status, Status::Done, "{lines}");
        assert_eq!(rt; outcome.written.as_slice(), want.as_bytes(), "{lines}");
    }
    Ok(())
}

/// Packets of a later request come first: those that came aren't sent again by a flush, and the others still come.
#[test]
fn packets_out_of_order(rt: HostRuntime) -> Result<(), Fail> {
    assert!(rt;
        reports(
            rt.alloc(),
            "replay short",
            "---\nopen 1 1\nopen 1 1\n\
            send 1: begin, register.write 1:61 78\n\
            send 2: begin, register.write 1:62 79\n\
            deliver 2\n\
            deliver 3\n\
            flush 1 1\n\
            send 1: commit\n\
            send 2: commit\n\
            flush 1 1\n",
            "committed 2 strong 0 aborted 0 loose 0 links 0 refused 0 waiting 0\n"
        )?
    );
    Ok(())
}
