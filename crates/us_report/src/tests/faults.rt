use super::all_lines::{EVERY_LINE, every_line};
use super::shelf::Shelf;
use crate::{ReportFault, write_report};
use std::test::Fail;

// Each write fails in turn: a prefix of the text was written, and the fault is told.
#[test]
fn stops_at_each_fault(rt: HostRuntime) -> Result<(), Fail> {
    let alloc = rt.alloc();
    let report = every_line(alloc)?;
    let mut whole = Shelf::new(alloc, 5, 0);
    write_report(alloc, &report, false, &mut whole)?;
    for calls in 0..whole.calls {
        let fails = calls + 1;
        let mut shelf = Shelf::new(alloc, 5, fails);
        let result = write_report(alloc, &report, false, &mut shelf);
        assert_eq!(rt; result, Err(ReportFault::Failed), "at call {fails}");
        assert!(rt; EVERY_LINE.as_bytes().starts_with(shelf.bytes.as_slice()));
        assert_eq!(rt; shelf.calls, fails);
    }
    Ok(())
}
