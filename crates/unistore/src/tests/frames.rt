//! Schedules in words. A line `send SESSION: REQUEST, ..` stands for a line of bytes to a session of the one coordinator; the words of a
//! request are those of `examples/frames.py`. All other lines stand for themselves.
use std::alloc::Global;
use std::test::Fail;

/// The schedule that the text spells in words.
pub fn spelled(alloc: Global, text: &str) -> Result<String, Fail> {
    let mut schedule = String::new(alloc);
    for line in text.lines() {
        push_line(&mut schedule, line)?;
    }
    Ok(schedule)
}

/// The schedule line that a line of words stands for.
pub fn push_line(schedule: &mut String, line: &str) -> Result<(), Fail> {
    let mut halves = line.split(": ");
    match (halves.next(), halves.next()) {
        (Some(head), Some(requests)) => push_bytes(schedule, head, requests)?,
        _ => schedule.push_str(line)?,
    }
    schedule.push_str("\n")?;
    Ok(())
}

/// The line of bytes behind `send SESSION`, without its end.
fn push_bytes(schedule: &mut String, head: &str, requests: &str) -> Result<(), Fail> {
    let mut words = head.split(' ');
    words.next();
    schedule.push_str("bytes 1 1 ")?;
    schedule.push_str(words.next().unwrap_or(""))?;
    schedule.push_str(" ")?;
    for request in requests.split(", ") {
        push_request(schedule, request)?;
    }
    Ok(())
}

/// The frame of a request, in hex.
fn push_request(schedule: &mut String, request: &str) -> Result<(), Fail> {
    let mut words = request.split(' ');
    let name = words.next().unwrap_or("");
    match plain_tag(name) {
        Some(tag) => push_frame(schedule, tag, ""),
        None => {
            let mut fields = String::new(*schedule.allocator());
            push_item(&mut fields, words.next().unwrap_or(""))?;
            fields.push_str(operation_code(name))?;
            push_argument(&mut fields, name, words.next())?;
            push_frame(schedule, "02", fields.as_str())
        }
    }
}

/// A frame with this tag and these fields.
fn push_frame(schedule: &mut String, tag: &str, fields: &str) -> Result<(), Fail> {
    let length = fields.len() / 2 + 2;
    write!(schedule, "{length:08x}01{tag}{fields}")?;
    Ok(())
}

/// The tag of a request without fields.
fn plain_tag(name: &str) -> Option<&'static str> {
    match name {
        "begin" => Some("01"),
        "commit" => Some("03"),
        "abandon" => Some("05"),
        _ => None,
    }
}

/// The code of an operation.
fn operation_code(name: &str) -> &'static str {
    match name {
        "register.read" => "01",
        "register.write" => "02",
        "counter.read" => "03",
        "counter.add" => "04",
        "set.members" => "05",
        "set.contains" => "06",
        "set.add" => "07",
        "set.remove" => "08",
        "flag.read" => "09",
        "flag.enable" => "0a",
        "flag.disable" => "0b",
        "multi.read" => "0c",
        "multi.write" => "0d",
        _ => "ff",
    }
}

/// An item, SPACE:ID, as fields have it.
fn push_item(fields: &mut String, item: &str) -> Result<(), Fail> {
    let mut halves = item.split(':');
    let space = halves.next().unwrap_or("").parse::<u8>().unwrap_or(0);
    let id = halves.next().unwrap_or("");
    let length = id.len() / 2;
    write!(fields, "{space:02x}{length:02x}{id}")?;
    Ok(())
}

/// What stands behind an item: an amount, a value or nothing.
fn push_argument(fields: &mut String, name: &str, argument: Option<&str>) -> Result<(), Fail> {
    match argument {
        None => Ok(()),
        Some(amount) if name == "counter.add" => {
            for byte in amount.parse::<i64>().unwrap_or(0).to_be_bytes() {
                write!(fields, "{byte:02x}")?;
            }
            Ok(())
        }
        Some(value) => {
            let length = value.len() / 2;
            write!(fields, "{length:04x}{value}")?;
            Ok(())
        }
    }
}

/// The same schedule with a line for each byte.
pub fn byte_by_byte(alloc: Global, schedule: &str) -> Result<String, Fail> {
    let mut text = String::new(alloc);
    for line in schedule.lines() {
        if line.starts_with("bytes") {
            push_each_byte(&mut text, line)?;
        } else {
            text.push_str(line)?;
            text.push_str("\n")?;
        }
    }
    Ok(text)
}

/// A line for each byte of a line of bytes to session 1.
fn push_each_byte(text: &mut String, line: &str) -> Result<(), Fail> {
    let hex = line.split(' ').last().unwrap_or("");
    let mut is_first = true;
    for digit in hex.chars() {
        if is_first {
            text.push_str("bytes 1 1 1 ")?;
        }
        text.push(digit)?;
        if !is_first {
            text.push_str("\n")?;
        }
        is_first = !is_first;
    }
    Ok(())
}

#[test]
fn frames_from_words(rt: HostRuntime) -> Result<(), Fail> {
    let schedule = spelled(
        rt.alloc(),
        "open 1 1\nsend 2: begin, register.write 1:61 78, counter.add 12:6162 -60, commit",
    )?;
    assert_eq!(rt;
        schedule.as_str(),
        "open 1 1\nbytes 1 1 2 000000020101\
        00000009010201016102000178\
        0000000f01020c02616204ffffffffffffffc4\
        000000020103\n"
    );
    Ok(())
}
