use crate::{Batch, batch_for, take_batch};
use std::alloc::Global;
use std::test::Fail;
use us_base::Vector;
use us_history::LogTx;
use us_kind::{Items, Memory, Tid};
use us_oplog::OpLog;

/// A transaction of site 1 that writes nothing, with this entry.
fn transaction(alloc: Global, seq: u64, entry: u64) -> LogTx {
    LogTx {
        tid: Tid {
            site: 1,
            coord: 1,
            seq,
        },
        strong: false,
        vector: Vector::zero().with_entry(1, entry),
        writes: Items::new(alloc),
    }
}

/// A log of transactions with these entries, numbered from 1.
fn log_of(alloc: Global, entries: &[u64]) -> Result<OpLog, Memory> {
    let mut log = OpLog::new(alloc);
    let mut seq: u64 = 0;
    for entry in entries {
        seq = seq.wrapping_add(1);
        log.append(transaction(alloc, seq, *entry))?;
    }
    Ok(log)
}

/// The bounds of a batch, and the numbers of its transactions.
fn told(alloc: Global, batch: &Batch) -> Result<String, Fail> {
    let mut text = String::new(alloc);
    write!(text, "{} {}:", batch.lo, batch.hi)?;
    for transaction in batch.txs.as_slice() {
        write!(text, " {}", transaction.tid.seq)?;
    }
    Ok(text)
}

#[test]
fn batches_of_a_log(rt: HostRuntime) -> Result<(), Fail> {
    let alloc = rt.alloc();
    let log = log_of(alloc, &[20, 10, 30, 40, 50, 60, 70, 80, 90, 100])?;
    for (lo, known, want) in [
        (0, 100, "0 80: 2 1 3 4 5 6 7 8"),
        (80, 100, "80 100: 9 10"),
        (20, 100, "20 100: 3 4 5 6 7 8 9 10"),
        (10, 25, "10 25: 1"),
        (100, 101, "100 101:"),
    ] {
        let Some(batch) = batch_for(&log, 1, lo, known)? else {
            assert!(rt; false, "{want}");
            continue;
        };
        let told = told(alloc, &batch)?;
        assert_eq!(rt; told.as_str(), want);
    }
    assert!(rt; batch_for(&log, 1, 100, 100)?.is_none());
    Ok(())
}

/// A gap and repeats: what a log holds of the origin after each of these.
#[test]
fn batches_that_come_late_and_again(rt: HostRuntime) -> Result<(), Fail> {
    let alloc = rt.alloc();
    let sender = log_of(alloc, &[10, 20, 30])?;
    let mut log = OpLog::new(alloc);
    let mut known = 0;
    for (lo, hi, want, count) in [
        (10, 20, 0, 0),
        (0, 10, 10, 1),
        (0, 10, 10, 1),
        (0, 30, 30, 3),
        (10, 20, 30, 3),
    ] {
        let Some(batch) = batch_for(&sender, 1, lo, hi)? else {
            assert!(rt; false, "{lo} {hi}");
            continue;
        };
        known = take_batch(&mut log, known, &batch)?.unwrap_or(known);
        assert_eq!(rt; (known, log.len()), (want, count), "{lo} {hi}");
    }
    Ok(())
}
