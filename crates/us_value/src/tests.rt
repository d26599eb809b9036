use super::*;
use std::alloc::Global;
use us_kind::{Bytes, Items, Memory, Stamp, Tag, Tid};

mod calls;
mod lengths;
mod orders;
mod tables;

const KINDS: [Kind; 5] = [
    Kind::Register,
    Kind::Counter,
    Kind::Set,
    Kind::Flag,
    Kind::Multi,
];

fn stamp(sum: u128, seq: u64) -> Stamp {
    Stamp {
        sum,
        tid: Tid {
            site: 1,
            coord: 1,
            seq,
        },
        place: 1,
    }
}

fn tags(alloc: Global, numbers: &[u64]) -> Result<Items<Tag>, Memory> {
    let mut tags = Items::new(alloc);
    for seq in numbers {
        tags.push(stamp(0, *seq).tag())?;
    }
    Ok(tags)
}

// A value of one byte for each letter.
fn values(alloc: Global, letters: &[u8]) -> Result<Answer, Memory> {
    let mut values = Items::new(alloc);
    for letter in letters {
        values.push(Bytes::from_slice(alloc, &[*letter])?)?;
    }
    Ok(Answer::Values { values })
}

fn register_write(alloc: Global, value: &[u8]) -> Result<Effect, Memory> {
    Ok(Effect::RegisterWrite {
        value: Bytes::from_slice(alloc, value)?,
    })
}

fn set_add(alloc: Global, value: &[u8]) -> Result<Effect, Memory> {
    Ok(Effect::SetAdd {
        value: Bytes::from_slice(alloc, value)?,
    })
}

fn set_remove(alloc: Global, value: &[u8], met: &[u64]) -> Result<Effect, Memory> {
    Ok(Effect::SetRemove {
        value: Bytes::from_slice(alloc, value)?,
        tags: tags(alloc, met)?,
    })
}

fn disable(alloc: Global, met: &[u64]) -> Result<Effect, Memory> {
    Ok(Effect::Disable {
        tags: tags(alloc, met)?,
    })
}

fn multi_write(alloc: Global, value: &[u8], met: &[u64]) -> Result<Effect, Memory> {
    Ok(Effect::MultiWrite {
        value: Bytes::from_slice(alloc, value)?,
        tags: tags(alloc, met)?,
    })
}
