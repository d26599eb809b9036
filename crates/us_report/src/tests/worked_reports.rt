use super::all_lines::{EVERY_LINE, EVERY_LINE_SHORT, every_line};
use super::fixtures::{count, item, pair, past, read, read_ops, session, tid, wrote};
use super::shelf::Shelf;
use crate::{Report, ReportFault, write_report};
use std::alloc::Global;
use std::test::Fail;
use us_exec::{Count, Done, Entry, Execution};
use us_kind::{Items, Memory};

fn causal(seq: u64, ops: Items<Done>, past: Items<Count>) -> Entry {
    Entry {
        tid: tid(1, 1, seq),
        session: session(1, 1, 1),
        number: seq,
        strong: false,
        ops,
        past,
    }
}

fn first_ops(alloc: Global) -> Result<Items<Done>, Memory> {
    let first = wrote(alloc, item(alloc, 1, b"a")?, b"x")?;
    let second = read(alloc, item(alloc, 1, b"a")?, b"x")?;
    pair(alloc, first, second)
}

// A session writes an item, reads it in the same transaction and again in the next.
fn two_entries(alloc: Global) -> Result<Items<Entry>, Memory> {
    let first = causal(1, first_ops(alloc)?, Items::new(alloc));
    let seen = past(alloc, &[count(session(1, 1, 1), 1)])?;
    let second = causal(2, read_ops(alloc)?, seen);
    pair(alloc, first, second)
}

fn two(alloc: Global) -> Result<Report, Memory> {
    Ok(Report {
        execution: Execution {
            entries: two_entries(alloc)?,
            loose: Items::new(alloc),
            links: Items::new(alloc),
        },
        refused: Items::new(alloc),
        waiting: Items::new(alloc),
    })
}

const TWO: &str = "t 1.1.1 1.1.1 1 causal -
o 1:61 write:78 done
o 1:61 read value:78
t 1.1.2 1.1.1 2 causal 1.1.1=1
o 1:61 read value:78
committed 2 strong 0 aborted 0 loose 0 links 0 refused 0 waiting 0
";

const TWO_SHORT: &str = "committed 2 strong 0 aborted 0 loose 0 links 0 refused 0 waiting 0\n";

// What is written of a report, over a sink that takes so many bytes at once.
fn written(
    alloc: Global,
    report: &Report,
    short: bool,
    per_call: usize,
) -> Result<Vec<u8>, ReportFault> {
    let mut shelf = Shelf::new(alloc, per_call, 0);
    write_report(alloc, report, short, &mut shelf)?;
    Ok(shelf.bytes)
}

// The worked reports, whole and short, over a sink that takes all and over one that takes five bytes at once.
#[test]
fn writes_worked_reports(rt: HostRuntime) -> Result<(), Fail> {
    let alloc = rt.alloc();
    let two = two(alloc)?;
    let every_line = every_line(alloc)?;
    for (report, short, text) in [
        (&two, false, TWO),
        (&two, true, TWO_SHORT),
        (&every_line, false, EVERY_LINE),
        (&every_line, true, EVERY_LINE_SHORT),
    ] {
        for per_call in [5, 65536] {
            let bytes = written(alloc, report, short, per_call)?;
            assert_eq!(rt; bytes.as_slice(), text.as_bytes());
        }
    }
    Ok(())
}
