use super::fixtures::{THREE, all_told, outcome};
use crate::{Line, read_line};
use std::alloc::Global;
use std::test::Fail;
use us_kind::Bytes;

/// Numbers around 2^59, the last clock, and around 2^64, the first that is none.
const EDGES_OF_NUMBERS: &str = "deliver 1|deliver 1
deliver 576460752303423489|deliver 576460752303423489
deliver 18446744073709551615|deliver 18446744073709551615
close 1 1 18446744073709551616|BadNumber
bytes 1 1 18446744073709551615 00|bytes 1 1 18446744073709551615 00
bytes 1 1 18446744073709551616 0g|BadNumber
tick 1 0 0|tick 1 0 0
tick 1 0 576460752303423489|OutOfRange
tick 1 0 18446744073709551615|OutOfRange
tick 1 0 18446744073709551616|BadNumber
settle 576460752303423488 0|settle 576460752303423488 0
settle 576460752303423489 1|OutOfRange
settle 18446744073709551615 0|OutOfRange
settle 18446744073709551616 0|BadNumber";

#[test]
fn edges_of_numbers(rt: HostRuntime) -> Result<(), Fail> {
    all_told(&rt, rt.alloc(), EDGES_OF_NUMBERS, THREE)
}

/// A `bytes` line of this many hex digits.
fn bytes_line(alloc: Global, digits: usize) -> Result<Vec<u8>, Fail> {
    let mut text = Vec::from_slice(alloc, b"bytes 1 1 1 ".as_slice())?;
    for _ in 0..digits {
        text.push(b'0')?;
    }
    Ok(text)
}

#[test]
fn most_bytes(rt: HostRuntime) -> Result<(), Fail> {
    let text = bytes_line(rt.alloc(), 2 * 65_536)?;
    let Some(Line::Bytes { bytes, .. }) = read_line(rt.alloc(), text.as_slice(), THREE)? else {
        return Err("no bytes".into());
    };
    assert_eq!(rt; bytes.len(), 65_536);
    Ok(())
}

#[test]
fn one_byte_more(rt: HostRuntime) -> Result<(), Fail> {
    let text = bytes_line(rt.alloc(), 2 * 65_537)?;
    let shown = outcome(rt.alloc(), text.as_slice(), THREE)?;
    assert_eq!(rt; shown.as_str(), "OutOfRange");
    Ok(())
}

#[test]
fn one_digit_more(rt: HostRuntime) -> Result<(), Fail> {
    let text = bytes_line(rt.alloc(), 2 * 65_536 + 1)?;
    let shown = outcome(rt.alloc(), text.as_slice(), THREE)?;
    assert_eq!(rt; shown.as_str(), "BadHex");
    Ok(())
}
