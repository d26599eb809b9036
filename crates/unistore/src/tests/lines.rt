//! Lines of a schedule: their ends, and the first one that is refused.
use super::runs::{NOTHING, answered};
use crate::{Reason, Status};
use std::test::Fail;

#[test]
fn refused_lines(rt: HostRuntime) -> Result<(), Fail> {
    for (input, line, reason, want) in [
        ("", 1, Reason::NoSeparator, "refused line 1 NoSeparator\n"),
        (
            "\n# open\n",
            3,
            Reason::NoSeparator,
            "refused line 3 NoSeparator\n",
        ),
        (
            "--- \n",
            2,
            Reason::NoSeparator,
            "refused line 2 NoSeparator\n",
        ),
        (
            "---\r",
            2,
            Reason::NoSeparator,
            "refused line 2 NoSeparator\n",
        ),
        (
            "---\nsettle 1 1\n",
            2,
            Reason::NotBuilt,
            "refused line 2 NotBuilt\n",
        ),
        (
            "---\ntick 1 1 5\nsleep 1\n",
            2,
            Reason::NotBuilt,
            "refused line 2 NotBuilt\n",
        ),
        (
            "---\nbytes 1 1 1 0g\n",
            2,
            Reason::BadHex,
            "refused line 2 BadHex\n",
        ),
        (
            "---\ndeliver 01\n",
            2,
            Reason::BadNumber,
            "refused line 2 BadNumber\n",
        ),
        (
            "---\nsleep 1\n",
            2,
            Reason::BadWord,
            "refused line 2 BadWord\n",
        ),
        (
            "---\ntick 1 2 5\n",
            2,
            Reason::OutOfRange,
            "refused line 2 OutOfRange\n",
        ),
        (
            "---\ndeliver 0\n",
            2,
            Reason::OutOfRange,
            "refused line 2 OutOfRange\n",
        ),
        (
            "#\n\n---\nopen  1 1\n",
            4,
            Reason::BadWord,
            "refused line 4 BadWord\n",
        ),
        (
            "---\n\nopen 1 1\nopen 2 1",
            4,
            Reason::OutOfRange,
            "refused line 4 OutOfRange\n",
        ),
        (
            "---\nopen 1 1\nopen 1 1\r",
            3,
            Reason::BadNumber,
            "refused line 3 BadNumber\n",
        ),
    ] {
        let outcome = answered(rt.alloc(), "replay", input)?;
        assert_eq!(rt; outcome.status, Status::Input { line, reason }, "{input}");
        assert_eq!(rt; outcome.written.as_slice(), want.as_bytes(), "{input}");
    }
    Ok(())
}

#[test]
fn ends_of_lines(rt: HostRuntime) -> Result<(), Fail> {
    for input in ["---", "---\n", "---\r\n", "# a\r\n\r\n---\n\n# b"] {
        let outcome = answered(rt.alloc(), "replay", input)?;
        assert_eq!(rt; outcome.status, Status::Done, "{input}");
        assert_eq!(rt; outcome.written.as_slice(), NOTHING.as_bytes(), "{input}");
    }
    Ok(())
}
