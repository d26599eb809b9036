//! Writes and answers up to their bounds.
use super::frames::push_line;
use super::runs::answered;
use std::alloc::Global;
use std::test::Fail;

/// A request whose value has so many bytes, the last one given, and the packets that it brings about.
fn push_long(text: &mut String, operation: &str, length: u16, last: &str) -> Result<(), Fail> {
    let mut line = String::from_str(*text.allocator(), "send 1: ")?;
    line.push_str(operation)?;
    line.push_str(" 1:61 ")?;
    for _ in 1..length {
        line.push_str("61")?;
    }
    line.push_str(last)?;
    push_line(text, line.as_str())?;
    push_line(text, "flush 1 1")
}

/// Requests in one line, and the packets that they bring about.
fn push_short(text: &mut String, line: &str) -> Result<(), Fail> {
    push_line(text, line)?;
    push_line(text, "flush 1 1")
}

/// Writes of a transaction that leave 576 bytes for one value more.
fn nearly_full_writes(alloc: Global) -> Result<String, Fail> {
    let mut text = String::from_str(alloc, "---\nopen 1 1\n")?;
    push_short(&mut text, "send 1: begin")?;
    for _ in 0..63 {
        push_long(&mut text, "register.write", 1024, "61")?;
    }
    Ok(text)
}

#[test]
fn writes_up_to_their_bound(rt: HostRuntime) -> Result<(), Fail> {
    let mut input = nearly_full_writes(rt.alloc())?;
    push_long(&mut input, "register.write", 577, "61")?;
    push_long(&mut input, "register.write", 576, "61")?;
    push_long(&mut input, "register.write", 1, "61")?;
    push_short(&mut input, "send 1: commit")?;
    let outcome = answered(rt.alloc(), "replay short", input.as_str())?;
    assert_eq!(rt;
        outcome.written.as_slice(),
        b"committed 1 strong 0 aborted 0 loose 0 links 0 refused 2 waiting 0\n".as_slice()
    );
    Ok(())
}

/// The version that a refused operation got comes again while the next operation, of the same place, waits.
#[test]
fn a_late_version(rt: HostRuntime) -> Result<(), Fail> {
    let mut input = nearly_full_writes(rt.alloc())?;
    push_long(&mut input, "register.write", 577, "61")?;
    push_line(&mut input, "send 1: register.write 1:61 61")?;
    push_short(&mut input, "deliver 128")?;
    push_short(&mut input, "send 1: commit")?;
    let outcome = answered(rt.alloc(), "replay short", input.as_str())?;
    assert_eq!(rt;
        outcome.written.as_slice(),
        b"committed 1 strong 0 aborted 0 loose 0 links 0 refused 1 waiting 0\n".as_slice()
    );
    Ok(())
}

/// A set takes 63 values in one transaction, which ends with this line, and one more in the next, which asks for its members: these
/// pass the bound of an answer.
fn full_set(alloc: Global, last: &str) -> Result<String, Fail> {
    let mut text = String::from_str(
        alloc,
        "[[space]]\nnumber = 1\nkind = \"set\"\n---\nopen 1 1\n",
    )?;
    push_short(&mut text, "send 1: begin")?;
    for i in 0u8..63 {
        let number = format!(in alloc; "{i:02x}")?;
        push_long(&mut text, "set.add", 1024, number.as_str())?;
    }
    push_short(&mut text, last)?;
    push_short(&mut text, "send 1: begin")?;
    push_long(&mut text, "set.add", 1024, "3f")?;
    push_short(&mut text, "send 1: set.members 1:61, commit")?;
    Ok(text)
}

/// What a run of such a set writes, in short: with one value less the members are told.
const FULL_SET: &str = "committed 2 strong 0 aborted 0 loose 0 links 0 refused 1 waiting 0\n";

#[test]
fn answers_up_to_their_bound(rt: HostRuntime) -> Result<(), Fail> {
    let input = full_set(rt.alloc(), "send 1: set.members 1:61, commit")?;
    let outcome = answered(rt.alloc(), "replay short", input.as_str())?;
    assert_eq!(rt; outcome.written.as_slice(), FULL_SET.as_bytes());
    Ok(())
}
