//! Requests that are refused, and what is left of their transactions.
use super::frames::spelled;
use super::runs::{answered, reports};
use std::test::Fail;

/// An abandoned transaction, requests without one, an unknown space, another kind's operation, and a close.
const REFUSED: &str = "\
---\n\
open 1 1\n\
send 1: commit, begin, begin, register.read 9:61, counter.add 1:61 1, register.write 1:61 78\n\
flush 1 1\n\
send 1: abandon, abandon, begin\n\
close 1 1 1\n\
send 1: commit\n\
";

const REFUSED_REPORT: &str = "\
l 1.1.1 1.1.1 left -\n\
o 1:61 write:78 done\n\
l 1.1.2 1.1.1 left -\n\
x 1.1.1 1 2\n\
x 1.1.1 3 3\n\
x 1.1.1 4 4\n\
x 1.1.1 5 5\n\
x 1.1.1 8 2\n\
committed 0 strong 0 aborted 0 loose 2 links 0 refused 5 waiting 0\n\
";

#[test]
fn refused_requests(rt: HostRuntime) -> Result<(), Fail> {
    assert!(rt; reports(rt.alloc(), "replay", REFUSED, REFUSED_REPORT)?);
    Ok(())
}

/// A session sends a frame that is no request, and then whole transactions: nothing that came after the refusal is done.
const AFTER_A_REFUSAL: &str = "\
---\n\
open 1 1\n\
bytes 1 1 1 0000000201010000000201ff\n\
flush 1 1\n\
send 1: begin, register.write 1:61 78, commit\n\
flush 1 1\n\
";

const AFTER_A_REFUSAL_REPORT: &str = "\
l 1.1.1 1.1.1 left -\n\
x 1.1.1 2 1\n\
committed 0 strong 0 aborted 0 loose 1 links 0 refused 1 waiting 0\n\
";

#[test]
fn frames_after_a_refusal(rt: HostRuntime) -> Result<(), Fail> {
    assert!(rt;
        reports(
            rt.alloc(),
            "replay",
            AFTER_A_REFUSAL,
            AFTER_A_REFUSAL_REPORT
        )?
    );
    Ok(())
}

/// A request while 64 are unanswered.
#[test]
fn too_many_requests(rt: HostRuntime) -> Result<(), Fail> {
    let mut text = String::from_str(rt.alloc(), "---\nopen 1 1\nsend 1: begin")?;
    for _ in 0..65 {
        text.push_str(", register.read 1:61")?;
    }
    let input = spelled(rt.alloc(), text.as_str())?;
    let outcome = answered(rt.alloc(), "replay", input.as_str())?;
    assert_eq!(rt;
        outcome.written.as_slice(),
        "l 1.1.1 1.1.1 open -\nx 1.1.1 66 9\nw 1.1.1 2\n\
        committed 0 strong 0 aborted 0 loose 1 links 0 refused 1 waiting 1\n"
            .as_bytes()
    );
    Ok(())
}
