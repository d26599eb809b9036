use super::*;
use std::alloc::Global;
use std::test::Fail;
use us_base::{Shape, Vector};
use us_conflict::Conflicts;
use us_kind::{Bytes, Items, Memory, Tid};
use us_value::{Class, Effect, Item, Write};

/// Three sites of two partitions, of which the first keeps item 1:a.
const SHAPE: Shape = Shape { f: 1, parts: 2 };

fn tid(site: u8, seq: u64) -> Tid {
    Tid {
        site,
        coord: 1,
        seq,
    }
}

fn item(alloc: Global) -> Result<Item, Memory> {
    Ok(Item {
        space: 1,
        id: Bytes::from_slice(alloc, b"a")?,
    })
}

/// A transaction that takes 3 from item 1:a, and whose snapshot holds the first so many slots.
fn take(alloc: Global, tid: Tid, strong: u64) -> Result<LogEntry, Memory> {
    let mut touches = Items::new(alloc);
    touches.push((item(alloc)?, Class::Take))?;
    let mut writes = Items::new(alloc);
    writes.push(Write {
        item: item(alloc)?,
        place: 1,
        effect: Effect::CounterAdd { amount: -3 },
    })?;
    Ok(LogEntry {
        tid,
        snapshot: Vector::zero().with_entry(0, strong),
        touches,
        writes,
    })
}

fn takes_conflict(alloc: Global) -> Result<Conflicts, Memory> {
    Conflicts::new(alloc, &[(1, Class::Take, Class::Take)])
}

/// A verdict in words.
fn add_verdict(text: &mut String, verdict: &Verdict) -> Result<(), Fail> {
    match verdict {
        Verdict::Commit => write!(text, "commit, ")?,
        Verdict::Abort { slot, named, item } => write!(
            text,
            "abort by {slot}: {}.{}.{} on {}, ",
            named.site,
            named.coord,
            named.seq,
            item.id.len()
        )?,
        Verdict::Repeat => write!(text, "repeat, ")?,
    }
    Ok(())
}

/// A page in words: the transaction, its strong entry, and how many writes it holds.
fn add_page(text: &mut String, page: &Page) -> Result<(), Fail> {
    match page {
        Page::Skip => write!(text, "skip, ")?,
        Page::Holds {
            tid,
            vector,
            writes,
        } => write!(
            text,
            "{}.{}.{} at {} with {}, ",
            tid.site,
            tid.coord,
            tid.seq,
            vector.get(0),
            writes.len()
        )?,
    }
    Ok(())
}

/// The pages for a partition from a slot on.
fn pages(alloc: Global, log: &Certified, part: u8, first: u64) -> Result<String, Fail> {
    let mut text = String::new(alloc);
    if first > 0 {
        let pages = log.page(part, first)?;
        for page in pages.as_slice() {
            add_page(&mut text, page)?;
        }
    }
    Ok(text)
}

/// The verdicts that a log keeps.
fn kept(alloc: Global, log: &Certified) -> Result<String, Fail> {
    let mut text = String::new(alloc);
    for slot in 0..log.len() {
        add_verdict(&mut text, log.verdict(slot + 1))?;
    }
    Ok(text)
}

// The second take is aborted by the first one, the third comes again, and the fourth holds the first one in its snapshot.
#[test]
fn takes_from_one_amount(rt: HostRuntime) -> Result<(), Fail> {
    let alloc = rt.alloc();
    let conflicts = takes_conflict(alloc)?;
    let mut log = Certified::new(alloc, SHAPE);
    let mut told = String::new(alloc);
    for (site, seq, strong) in [(1, 2, 0), (2, 1, 0), (1, 2, 0), (3, 1, 1)] {
        let verdict = log.push(take(alloc, tid(site, seq), strong)?, &conflicts)?;
        add_verdict(&mut told, &verdict)?;
    }
    let want = "commit, abort by 1: 1.1.2 on 1, repeat, commit, ";
    assert_eq!(rt; told.as_str(), want);
    let kept = kept(alloc, &log)?;
    assert_eq!(rt; kept.as_str(), want);
    for (part, first, want) in [
        (1, 1, "1.1.2 at 1 with 1, skip, skip, 3.1.1 at 4 with 1, "),
        (2, 4, "3.1.1 at 4 with 0, "),
        (1, 5, ""),
    ] {
        let pages = pages(alloc, &log, part, first)?;
        assert_eq!(rt; pages.as_str(), want);
    }
    assert_eq!(rt; log.outcome_of(tid(1, 2)), Some(1));
    assert_eq!(rt; log.outcome_of(tid(2, 1)), Some(2));
    assert_eq!(rt; log.outcome_of(tid(3, 2)), None);
    Ok(())
}

// Ten slots, of which eight are told at once.
#[test]
fn pages_of_a_long_log(rt: HostRuntime) -> Result<(), Fail> {
    let alloc = rt.alloc();
    let conflicts = takes_conflict(alloc)?;
    let mut log = Certified::new(alloc, SHAPE);
    for seen in 0..10 {
        log.push(take(alloc, tid(1, seen + 1), seen)?, &conflicts)?;
    }
    let want = "1.1.2 at 2 with 1, 1.1.3 at 3 with 1, 1.1.4 at 4 with 1, 1.1.5 at 5 with 1, \
                1.1.6 at 6 with 1, 1.1.7 at 7 with 1, 1.1.8 at 8 with 1, 1.1.9 at 9 with 1, ";
    let pages = pages(alloc, &log, 1, 2)?;
    assert_eq!(rt; pages.as_str(), want);
    assert_eq!(rt; log.len(), 10);
    Ok(())
}
