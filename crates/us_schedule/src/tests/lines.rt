use super::fixtures::{THREE, all_told};
use crate::{Line, write_line};
use std::test::Fail;
use us_kind::Bytes;

/// Lines, and behind the bar what each says to three sites of two partitions.
const LINES: &str = "|-
#|-
# open 1 1|-
open 3 2|open 3 2
bytes 1 2 9 0aFf|bytes 1 2 9 0aff
close 1 1 18446744073709551615|close 1 1 18446744073709551615
tick 3 0 576460752303423488|tick 3 0 576460752303423488
deliver 10|deliver 10
flush 2 2|flush 2 2
lead 1|lead 1
forward 1 3|forward 1 3
crash 2|crash 2
settle 0 100000|settle 0 100000";

#[test]
fn each_line(rt: HostRuntime) -> Result<(), Fail> {
    all_told(&rt, rt.alloc(), LINES, THREE)
}

#[test]
fn copies(rt: HostRuntime) -> Result<(), Fail> {
    let line = Line::Bytes {
        site: 1,
        coord: 2,
        session: 3,
        bytes: Bytes::from_slice(rt.alloc(), &[0, 171])?,
    };
    let text = write_line(rt.alloc(), &line.copy()?)?;
    assert_eq!(rt; text.as_slice(), b"bytes 1 2 3 00ab".as_slice());
    Ok(())
}
