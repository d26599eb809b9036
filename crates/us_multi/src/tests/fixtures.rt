use crate::{MultiAnswer, MultiEffect, MultiOp, MultiState, MultiValue};
use std::alloc::Global;
use std::test::Fail;
use us_kind::{Bytes, Items, Memory, Replicated, Stamp, Tag, Tid};

pub(crate) fn tag(seq: u64) -> Tag {
    Tag {
        tid: Tid {
            site: 1,
            coord: 1,
            seq,
        },
        place: 1,
    }
}

pub(crate) fn stamp(seq: u64) -> Stamp {
    Stamp {
        sum: 1,
        tid: tag(seq).tid,
        place: 1,
    }
}

fn tags(alloc: Global, seqs: &[u64]) -> Result<Items<Tag>, Memory> {
    let mut tags = Items::new(alloc);
    for seq in seqs {
        tags.push(tag(*seq))?;
    }
    Ok(tags)
}

pub(crate) fn are_tags(found: &Items<Tag>, seqs: &[u64]) -> bool {
    for (found, seq) in found.as_slice().iter().zip(seqs) {
        if *found != tag(*seq) {
            return false;
        }
    }
    found.len() == seqs.len()
}

pub(crate) fn are_values(found: &Items<Bytes>, values: &[u8]) -> bool {
    for (found, value) in found.as_slice().iter().zip(values) {
        if found.as_slice() != [*value].as_slice() {
            return false;
        }
    }
    found.len() == values.len()
}

pub(crate) fn written(alloc: Global, value: u8, met: &[u64]) -> Result<MultiEffect, Memory> {
    Ok(MultiEffect::MultiWrite {
        value: Bytes::from_slice(alloc, &[value])?,
        tags: tags(alloc, met)?,
    })
}

// The effect of a write of the value at this state.
pub(crate) fn prepared(alloc: Global, state: &MultiState, value: u8) -> Result<MultiEffect, Fail> {
    let value = Bytes::from_slice(alloc, &[value])?;
    let write = MultiOp::MultiWrite { value };
    let effect = MultiValue::prepare(alloc, state, &write, tag(9))?;
    Ok(effect.ok_or("no effect")?)
}

// All that the register answers: its values, and the tags of the writes that are not overwritten.
pub(crate) fn is(
    alloc: Global,
    state: &MultiState,
    values: &[u8],
    live: &[u64],
) -> Result<bool, Memory> {
    let found = state.live(alloc)?;
    if !are_tags(&found, live) {
        return Ok(false);
    }
    match MultiValue::answer(alloc, state, &MultiOp::MultiRead)? {
        MultiAnswer::Values { values: found } => Ok(are_values(&found, values)),
        MultiAnswer::Done => Ok(false),
    }
}

pub(crate) fn state_after(
    alloc: Global,
    writes: &[(u8, &'static [u64])],
    order: &[usize],
) -> Result<MultiState, Memory> {
    let mut state = MultiValue::initial(alloc)?;
    for i in order {
        if let Some((value, met)) = writes.get(*i) {
            let effect = written(alloc, *value, met)?;
            MultiValue::apply(alloc, &mut state, &effect, stamp(*i as u64))?;
        }
    }
    Ok(state)
}
