use super::fixtures::{THREE, outcome};
use crate::{NoSeparator, Parts, lines_of, split_text};
use std::alloc::Global;
use std::test::Fail;

/// What each line of a text says, each with a bar behind it.
fn told(alloc: Global, text: &str) -> Result<String, Fail> {
    let mut shown = String::new(alloc);
    for line in lines_of(text.as_bytes()) {
        shown.push_str(outcome(alloc, line, THREE)?.as_str())?;
        shown.push('|')?;
    }
    Ok(shown)
}

#[test]
fn carriage_returns(rt: HostRuntime) -> Result<(), Fail> {
    let text = "open 1 1\r\n\r\n# open\r\nbytes 1 1 1 ff\r\ntick 1 1 5\r\n";
    let shown = told(rt.alloc(), text)?;
    assert_eq!(rt; shown.as_str(), "open 1 1|-|-|bytes 1 1 1 ff|tick 1 1 5|");
    Ok(())
}

/// A carriage return is left out only before a line feed, and only one.
#[test]
fn other_carriage_returns(rt: HostRuntime) -> Result<(), Fail> {
    let shown = told(rt.alloc(), "open 1 1\r\r\nopen 1\r 1\n\r\r\nlead 1\r")?;
    assert_eq!(rt; shown.as_str(), "BadNumber|BadNumber|BadWord|BadNumber|");
    Ok(())
}

/// The lines of a text, each with a bar behind it.
fn barred(alloc: Global, text: &[u8]) -> Result<Vec<u8>, Fail> {
    let mut shown = Vec::new(alloc);
    for line in lines_of(text) {
        shown.extend_from_slice(line)?;
        shown.push(b'|')?;
    }
    Ok(shown)
}

#[test]
fn lines_of_texts(rt: HostRuntime) -> Result<(), Fail> {
    for (text, want) in [
        ("", ""),
        ("\n", "|"),
        ("a\r\nb\n", "a|b|"),
        ("a\r\r\n\nb\r", "a\r||b\r|"),
    ] {
        let shown = barred(rt.alloc(), text.as_bytes())?;
        assert_eq!(rt; shown.as_slice(), want.as_bytes(), "{text:?}");
    }
    Ok(())
}

#[test]
fn parts_of_texts(rt: HostRuntime) {
    for (text, before, line, behind) in [
        ("---", "", 1, ""),
        ("---\nopen 1 1", "", 1, "open 1 1"),
        (
            "a = 1\r\n\r\n---\r\nlead 1\r\n---\n",
            "a = 1\r\n\r\n",
            3,
            "lead 1\r\n---\n",
        ),
    ] {
        let parts = Parts {
            before: before.as_bytes(),
            line,
            behind: behind.as_bytes(),
        };
        assert_eq!(rt; split_text(text.as_bytes()), Ok(parts), "{text:?}");
    }
    for (text, line) in [
        ("", 1),
        ("a", 2),
        ("a\n", 2),
        ("--- \n----\n", 3),
        ("---\r", 2),
    ] {
        assert_eq!(rt;
            split_text(text.as_bytes()),
            Err(NoSeparator { line }),
            "{text:?}"
        );
    }
}
