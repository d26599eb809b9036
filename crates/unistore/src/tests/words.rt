//! The words of a call.
use super::runs::{NOTHING, TWO, answered, reports};
use crate::Status;
use std::test::Fail;

#[test]
fn words_that_are_no_form(rt: HostRuntime) -> Result<(), Fail> {
    for words in [
        "",
        "replay long",
        "replay short short",
        "short replay",
        "replay ",
        "Replay",
    ] {
        let outcome = answered(rt.alloc(), words, "---\n")?;
        assert_eq!(rt; outcome.status, Status::Words, "{words}");
        assert_eq!(rt;
            outcome.written.as_slice(),
            b"refused words\n".as_slice(),
            "{words}"
        );
    }
    Ok(())
}

/// The words are looked at first, whatever the input is.
#[test]
fn words_before_the_input(rt: HostRuntime) -> Result<(), Fail> {
    for input in ["---\n", "", "open 1 1\n"] {
        let outcome = answered(rt.alloc(), "replay long", input)?;
        assert_eq!(rt; outcome.status, Status::Words, "{input}");
    }
    Ok(())
}

#[test]
fn short_reports(rt: HostRuntime) -> Result<(), Fail> {
    for (schedule, report) in [
        ("---", NOTHING),
        (
            TWO,
            "committed 2 strong 0 aborted 0 loose 0 links 0 refused 0 waiting 0\n",
        ),
    ] {
        assert!(rt;
            reports(rt.alloc(), "replay short", schedule, report)?,
            "{report}"
        );
    }
    Ok(())
}
