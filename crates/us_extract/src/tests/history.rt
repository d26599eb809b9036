use crate::History;
use std::alloc::Global;
use std::test::Fail;
use us_base::Vector;
use us_exec::{Count, Done, Entry, Loose, SessionName};
use us_kind::{Bytes, Memory, Tid};
use us_value::{Answer, Item, Op};

fn tid(site: u8, coord: u8, seq: u64) -> Tid {
    Tid { site, coord, seq }
}

/// The first session of a coordinator.
fn session(site: u8, coord: u8) -> SessionName {
    SessionName {
        site,
        coord,
        number: 1,
    }
}

fn vector(first: u64, second: u64) -> Vector {
    Vector::zero().with_entry(1, first).with_entry(2, second)
}

fn item(alloc: Global) -> Result<Item, Memory> {
    Ok(Item {
        space: 1,
        id: Bytes::from_slice(alloc, "x".as_bytes())?,
    })
}

/// The transaction writes.
fn write(alloc: Global, history: &mut History, tid: Tid) -> Result<(), Memory> {
    let value = Bytes::from_slice(alloc, "a".as_bytes())?;
    let done = Done {
        item: item(alloc)?,
        op: Op::RegisterWrite { value },
        answer: Answer::Done,
    };
    history.perform(tid, done)
}

/// The transaction reads.
fn read(alloc: Global, history: &mut History, tid: Tid) -> Result<(), Memory> {
    let done = Done {
        item: item(alloc)?,
        op: Op::RegisterRead,
        answer: Answer::Nothing,
    };
    history.perform(tid, done)
}

/// Two sessions write, and the second one commits first.
fn two_write(alloc: Global, history: &mut History) -> Result<(), Memory> {
    history.begin(tid(1, 1, 1), session(1, 1), vector(0, 0))?;
    history.begin(tid(2, 1, 1), session(2, 1), vector(0, 0))?;
    write(alloc, history, tid(1, 1, 1))?;
    write(alloc, history, tid(2, 1, 1))?;
    history.decide(&tid(2, 1, 1), false, vector(0, 5))
}

/// A third one reads and commits, and then the first one commits.
fn one_reads(alloc: Global, history: &mut History) -> Result<(), Memory> {
    history.begin(tid(1, 2, 1), session(1, 2), vector(0, 5))?;
    read(alloc, history, tid(1, 2, 1))?;
    history.decide(&tid(1, 2, 1), false, vector(0, 5))?;
    history.decide(&tid(1, 1, 1), false, vector(5, 0))
}

/// One is left, and one commits.
fn one_is_left(alloc: Global, history: &mut History) -> Result<(), Memory> {
    history.begin(tid(1, 1, 2), session(1, 1), vector(5, 5))?;
    history.begin(tid(2, 1, 2), session(2, 1), vector(0, 5))?;
    write(alloc, history, tid(2, 1, 2))?;
    history.leave(tid(2, 1, 2))?;
    history.decide(&tid(1, 1, 2), false, vector(5, 5))
}

/// The sums of the first three to commit are equal, and one of these only reads. One that is begun last is open, and one is decided
/// that was never begun.
fn worked_history(alloc: Global) -> Result<History, Memory> {
    let mut history = History::new(alloc);
    two_write(alloc, &mut history)?;
    one_reads(alloc, &mut history)?;
    one_is_left(alloc, &mut history)?;
    history.decide(&tid(9, 1, 1), false, vector(1, 1))?;
    history.refuse(session(2, 1), 4, 3)?;
    history.begin(tid(2, 1, 3), session(2, 1), vector(5, 5))?;
    Ok(history)
}

/// Adds the sessions of a past, each with its count.
fn push_past(text: &mut String, past: &[Count]) -> Result<(), Fail> {
    for count in past {
        let SessionName {
            site,
            coord,
            number,
        } = count.session;
        write!(text, " {site}.{coord}.{number}={}", count.count)?;
    }
    Ok(())
}

/// The committed transactions in order, a line each: its number in its session, and its past.
fn entries_text(alloc: Global, entries: &[Entry]) -> Result<String, Fail> {
    let mut text = String::new(alloc);
    for entry in entries {
        let Tid { site, coord, seq } = entry.tid;
        write!(&mut text, "{site}.{coord}.{seq} {}", entry.number)?;
        push_past(&mut text, entry.past.as_slice())?;
        text.push_str("\n")?;
    }
    Ok(text)
}

/// The transactions that aren't committed, a line each, with their pasts.
fn loose_text(alloc: Global, loose: &[Loose]) -> Result<String, Fail> {
    let mut text = String::new(alloc);
    for one in loose {
        let Tid { site, coord, seq } = one.tid;
        write!(&mut text, "{site}.{coord}.{seq}")?;
        push_past(&mut text, one.past.as_slice())?;
        text.push_str("\n")?;
    }
    Ok(text)
}

#[test]
fn a_history_tells_its_execution(rt: HostRuntime) -> Result<(), Fail> {
    let alloc = rt.alloc();
    let history = worked_history(alloc)?;
    assert!(rt; history.ascends());
    let execution = history.execution(alloc)?;
    assert_eq!(rt;
        entries_text(alloc, execution.entries.as_slice())?.as_str(),
        "1.1.1 1\n2.1.1 1\n1.2.1 1 2.1.1=1\n1.1.2 2 1.1.1=1 2.1.1=1\n"
    );
    assert_eq!(rt;
        loose_text(alloc, execution.loose.as_slice())?.as_str(),
        "2.1.2 2.1.1=1\n2.1.3 1.1.1=1 2.1.1=1\n"
    );
    assert_eq!(rt; history.refused().len(), 1);
    Ok(())
}

/// A session's second transaction has a vector below that of its first.
fn descending_history(alloc: Global) -> Result<History, Memory> {
    let mut history = History::new(alloc);
    history.begin(tid(1, 1, 1), session(1, 1), vector(0, 0))?;
    history.decide(&tid(1, 1, 1), false, vector(5, 0))?;
    history.begin(tid(1, 1, 2), session(1, 1), vector(0, 0))?;
    history.decide(&tid(1, 1, 2), false, vector(4, 0))?;
    Ok(history)
}

/// A transaction that updates is in its own snapshot.
fn own_history(alloc: Global) -> Result<History, Memory> {
    let mut history = History::new(alloc);
    history.begin(tid(1, 1, 1), session(1, 1), vector(5, 0))?;
    write(alloc, &mut history, tid(1, 1, 1))?;
    history.decide(&tid(1, 1, 1), false, vector(5, 0))?;
    Ok(history)
}

#[test]
fn a_history_that_descends_is_told(rt: HostRuntime) -> Result<(), Fail> {
    assert!(rt; !descending_history(rt.alloc())?.ascends());
    assert!(rt; !own_history(rt.alloc())?.ascends());
    Ok(())
}
