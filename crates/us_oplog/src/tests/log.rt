use crate::OpLog;
use std::alloc::Global;
use std::test::Fail;
use us_base::Vector;
use us_history::LogTx;
use us_kind::{Bytes, Items, Memory, Tid};
use us_value::{Answer, Effect, Item, Kind, Op, Write, answer};

fn vector(first: u64, second: u64) -> Vector {
    Vector::zero().with_entry(1, first).with_entry(2, second)
}

/// The item of space 1 with this id.
fn item(alloc: Global, id: &str) -> Result<Item, Memory> {
    Ok(Item {
        space: 1,
        id: Bytes::from_slice(alloc, id.as_bytes())?,
    })
}

/// A transaction of a site that adds an amount to the item.
fn addition(
    alloc: Global,
    site: u8,
    seq: u64,
    vector: Vector,
    id: &str,
    amount: i64,
) -> Result<LogTx, Memory> {
    let mut writes = Items::new(alloc);
    writes.push(Write {
        item: item(alloc, id)?,
        place: 1,
        effect: Effect::CounterAdd { amount },
    })?;
    Ok(LogTx {
        tid: Tid {
            site,
            coord: 1,
            seq,
        },
        strong: false,
        vector,
        writes,
    })
}

/// Three transactions of site 1, of which two have one entry, and one of site 2 between them.
fn worked_log(alloc: Global) -> Result<OpLog, Memory> {
    let mut log = OpLog::new(alloc);
    log.append(addition(alloc, 1, 1, vector(5, 0), "a", 1)?)?;
    log.append(addition(alloc, 2, 1, vector(4, 9), "a", 10)?)?;
    log.append(addition(alloc, 1, 2, vector(3, 0), "a", 100)?)?;
    log.append(addition(alloc, 1, 3, vector(5, 2), "b", 1000)?)?;
    Ok(log)
}

/// The sum of the item in a snapshot.
fn sum_at(alloc: Global, log: &OpLog, id: &str, snapshot: &Vector) -> Result<Answer, Fail> {
    let item = item(alloc, id)?;
    let state = log.read_at(&item, Kind::Counter, snapshot)?;
    Ok(answer(alloc, &state, &Op::CounterRead)?)
}

#[test]
fn what_a_snapshot_shows(rt: HostRuntime) -> Result<(), Fail> {
    let alloc = rt.alloc();
    let log = worked_log(alloc)?;
    for (id, first, second, number) in [
        ("a", 2, 9, 0),
        ("a", 3, 0, 100),
        ("a", 4, 9, 110),
        ("a", 5, 8, 101),
        ("a", 5, 9, 111),
        ("b", 5, 1, 0),
        ("b", 5, 2, 1000),
        ("c", 5, 9, 0),
    ] {
        let found = sum_at(alloc, &log, id, &vector(first, second))?;
        assert_eq!(rt; found, Answer::Number { number }, "{id} {first} {second}");
    }
    Ok(())
}

/// The numbers of the transactions in a range, as decimal digits.
fn digits(alloc: Global, found: &[LogTx]) -> Result<String, Fail> {
    let mut text = String::new(alloc);
    for transaction in found {
        write!(text, "{}", transaction.tid.seq)?;
    }
    Ok(text)
}

#[test]
fn ranges_of_an_origin(rt: HostRuntime) -> Result<(), Fail> {
    let alloc = rt.alloc();
    let log = worked_log(alloc)?;
    for (origin, lo, hi, count, want) in [
        (1, 0, 5, 8, "213"),
        (1, 0, 5, 2, "21"),
        (1, 3, 5, 8, "13"),
        (1, 0, 4, 8, "2"),
        (1, 5, 9, 8, ""),
        (2, 0, 9, 8, "1"),
        (2, 9, 9, 8, ""),
    ] {
        let found = log.range(origin, lo, hi, count)?;
        let found = digits(alloc, found.as_slice())?;
        assert_eq!(rt; found.as_str(), want, "{origin} {lo} {hi} {count}");
    }
    Ok(())
}

#[test]
fn a_floor_rises(rt: HostRuntime) -> Result<(), Fail> {
    let mut log = worked_log(rt.alloc())?;
    log.set_floor(&vector(3, 0));
    log.set_floor(&vector(2, 4));
    assert_eq!(rt; log.floor(), vector(3, 4));
    assert_eq!(rt; log.len(), 4);
    Ok(())
}
