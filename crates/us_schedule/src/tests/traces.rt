use super::fixtures::THREE;
use crate::{TraceLine, read_trace_line, write_trace_line};
use std::alloc::Global;
use std::test::Fail;
use us_kind::Bytes;

/// Lines of a trace, and behind the bar what each says to three sites of two partitions.
const TRACE_LINES: &str = "|-
# end 1|-
node 3|node 3
open 2|open 2
bytes 2 9 0aFf|bytes 2 9 0aff
close 1 18446744073709551615|close 1 18446744073709551615
tick 0 576460752303423488|tick 0 576460752303423488
take 00000001FF|take 00000001ff
take |take 
lead|lead
forward 2 1|forward 2 1
lost 2|lost 2
nopoll|nopoll
bad 1|bad 1
end 18446744073709551615|end 18446744073709551615";

const TRACE_FAULTS: &str = "lead |BadWord
nopoll 1|BadWord
deliver 1|BadWord
bytes 1 1 00 00|BadWord
end 18446744073709551616|BadNumber
open  |BadWord
open |BadNumber
bytes 1 x 0g|BadNumber
take 0|BadHex
take 0g|BadHex
bytes 9 0 0g|BadHex
node 4|OutOfRange
forward 0 1|OutOfRange
forward 3 1|OutOfRange
tick 3 1|OutOfRange
bytes 1 1 |OutOfRange";

/// The text of the trace's line as it is written again from a copy, or the fault, or `-` where the line is skipped.
fn trace_outcome(alloc: Global, text: &[u8]) -> Result<String, Fail> {
    Ok(match read_trace_line(alloc, text, THREE) {
        Ok(None) => String::from_str(alloc, "-")?,
        Ok(Some(line)) => String::from_utf8(write_trace_line(alloc, &line.copy()?)?)?,
        Err(fault) => fault.to_string(alloc)?,
    })
}

#[test]
fn lines_of_a_trace(rt: HostRuntime) -> Result<(), Fail> {
    for case in TRACE_LINES.lines().chain(TRACE_FAULTS.lines()) {
        let (line, want) = case.split_once('|').ok_or("no bar")?;
        let shown = trace_outcome(rt.alloc(), line.as_bytes())?;
        assert_eq!(rt; shown.as_str(), want, "{case:?}");
    }
    Ok(())
}

/// A frame of 65,537 bytes, one more than a schedule's line brings.
#[test]
fn a_long_frame(rt: HostRuntime) -> Result<(), Fail> {
    let frame = Bytes::of(vec![in rt.alloc(); 7u8; 65_537]?);
    let text = write_trace_line(rt.alloc(), &TraceLine::Take { frame })?;
    assert_eq!(rt; text.len(), 131_079);
    let line = read_trace_line(rt.alloc(), text.as_slice(), THREE)?.ok_or("no line")?;
    assert!(rt; matches!(&line, TraceLine::Take { frame } if frame.len() == 65_537));
    Ok(())
}
