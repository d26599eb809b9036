use crate::{Get, Part};
use std::alloc::Global;
use std::test::Fail;
use us_base::{Shape, Vector};
use us_kind::{Bytes, Items, Memory, Tid};
use us_value::{Catalog, Effect, Item, Kind, Op, Write};

fn tid(seq: u64) -> Tid {
    Tid {
        site: 1,
        coord: 1,
        seq,
    }
}

fn item(alloc: Global) -> Result<Item, Memory> {
    Ok(Item {
        space: 1,
        id: Bytes::from_slice(alloc, "a".as_bytes())?,
    })
}

/// A question for the item in a snapshot with this entry for the own site.
fn question(alloc: Global, seq: u64, own: u64) -> Result<Get, Memory> {
    Ok(Get {
        from: 1,
        tid: tid(seq),
        place: 1,
        at: 2,
        snapshot: Vector::zero().with_entry(1, own),
        item: item(alloc)?,
        op: Op::CounterRead,
        own: Items::new(alloc),
    })
}

fn addition(alloc: Global) -> Result<Items<Write>, Memory> {
    let mut writes = Items::new(alloc);
    writes.push(Write {
        item: item(alloc)?,
        place: 1,
        effect: Effect::CounterAdd { amount: 5 },
    })?;
    Ok(writes)
}

/// The one partition of site 1, whose clock is at 70.
fn part(alloc: Global) -> Part {
    let mut part = Part::new(alloc, Shape { f: 0, parts: 1 }, 1, 1);
    part.raise(70);
    part
}

#[test]
fn a_floor_drops_and_keeps_questions(rt: HostRuntime) -> Result<(), Fail> {
    let alloc = rt.alloc();
    let mut part = part(alloc);
    assert_eq!(rt; part.get(question(alloc, 1, 3)?)?, true);
    assert_eq!(rt; part.get(question(alloc, 2, 5)?)?, true);
    part.set_floor(&Vector::zero().with_entry(1, 4));
    assert_eq!(rt; part.get(question(alloc, 3, 3)?)?, false);
    assert_eq!(rt; part.get(question(alloc, 4, 4)?)?, true);
    let catalog = Catalog::new(alloc, &[(1, Kind::Counter)])?;
    let mut packets = Items::new(alloc);
    part.ready(alloc, &catalog, &mut packets)?;
    assert_eq!(rt; packets.as_slice().len(), 2);
    part.ready(alloc, &catalog, &mut packets)?;
    assert_eq!(rt; packets.as_slice().len(), 2);
    Ok(())
}

#[test]
fn a_transaction_is_prepared_once(rt: HostRuntime) -> Result<(), Fail> {
    let alloc = rt.alloc();
    let mut part = part(alloc);
    // the least number above 70 that leaves 1 of 64
    let first = part.prepare(tid(1), Vector::zero(), addition(alloc)?)?;
    assert_eq!(rt; first, Some(129));
    let again = part.prepare(tid(1), Vector::zero(), addition(alloc)?)?;
    assert_eq!(rt; again, None);
    assert_eq!(rt; part.known().get(1), 128);
    Ok(())
}

#[test]
fn a_commit_needs_its_timestamp(rt: HostRuntime) -> Result<(), Fail> {
    let alloc = rt.alloc();
    let mut part = part(alloc);
    part.prepare(tid(1), Vector::zero(), addition(alloc)?)?;
    for (own, want) in [(128, false), (130, true), (130, false)] {
        let moved = part.commit(&tid(1), Vector::zero().with_entry(1, own))?;
        assert_eq!(rt; moved, want);
    }
    assert_eq!(rt; part.known().get(1), 130);
    assert_eq!(rt; part.log().len(), 1);
    Ok(())
}
