use std::alloc::Global;
use us_exec::{Count, Done, SessionName};
use us_kind::{Bytes, Items, Memory, Tid};
use us_value::{Answer, Item, Op};

pub(crate) fn session(site: u8, coord: u8, number: u64) -> SessionName {
    SessionName {
        site,
        coord,
        number,
    }
}

pub(crate) fn count(session: SessionName, count: u64) -> Count {
    Count { session, count }
}

pub(crate) fn tid(site: u8, coord: u8, seq: u64) -> Tid {
    Tid { site, coord, seq }
}

pub(crate) fn item(alloc: Global, space: u8, id: &[u8]) -> Result<Item, Memory> {
    let id = Bytes::from_slice(alloc, id)?;
    Ok(Item { space, id })
}

pub(crate) fn wrote(alloc: Global, item: Item, value: &[u8]) -> Result<Done, Memory> {
    let value = Bytes::from_slice(alloc, value)?;
    Ok(Done {
        item,
        op: Op::RegisterWrite { value },
        answer: Answer::Done,
    })
}

pub(crate) fn read(alloc: Global, item: Item, value: &[u8]) -> Result<Done, Memory> {
    let value = Bytes::from_slice(alloc, value)?;
    Ok(Done {
        item,
        op: Op::RegisterRead,
        answer: Answer::Value { value },
    })
}

pub(crate) fn read_none(item: Item) -> Done {
    Done {
        item,
        op: Op::RegisterRead,
        answer: Answer::Nothing,
    }
}

pub(crate) fn one<T: Drop>(alloc: Global, item: T) -> Result<Items<T>, Memory> {
    let mut items = Items::new(alloc);
    items.push(item)?;
    Ok(items)
}

pub(crate) fn pair<T: Drop>(alloc: Global, first: T, second: T) -> Result<Items<T>, Memory> {
    let mut items = Items::new(alloc);
    items.push(first)?;
    items.push(second)?;
    Ok(items)
}

pub(crate) fn past(alloc: Global, counts: &[Count]) -> Result<Items<Count>, Memory> {
    Ok(Items::of(Vec::from_slice(alloc, counts)?))
}

pub(crate) fn read_ops(alloc: Global) -> Result<Items<Done>, Memory> {
    let only = read(alloc, item(alloc, 1, b"a")?, b"x")?;
    one(alloc, only)
}
