use crate::MultiState;
use std::alloc::Global;
use us_kind::{Bytes, Items, Memory, Replicated, Stamp, Tag};

/// What a user asks of a multi-value register.
#[derive(Drop)]
pub enum MultiOp {
    MultiRead,
    MultiWrite { value: Bytes },
}

/// What a write does at each site: it carries the tags of the writes that it met.
#[derive(Drop)]
pub enum MultiEffect {
    MultiWrite { value: Bytes, tags: Items<Tag> },
}

/// What a multi-value register answers: `Values` ascend by bytes, each once.
#[derive(Drop)]
pub enum MultiAnswer {
    Done,
    Values { values: Items<Bytes> },
}

/// A multi-value register: its values are those of the writes with no write after them.
pub struct MultiValue;

impl Replicated for MultiValue {
    ghost use Rattle.us_multi.specs.Multi.{multi_initial, multi_updated, multi_answered, multi_prepared, multi_reads, multi_value};
    ghost use Rattle.us_multi.specs.MultiLaws.{multi-commutes, multi-reads, multi-counts, multi-in_order};

    type Op = MultiOp;

    type Effect = MultiEffect;

    type Answer = MultiAnswer;

    type State = MultiState;

    ghost initially = { multi_initial };

    ghost updated = { multi_updated };

    ghost answered = { multi_answered };

    ghost prepared = { multi_prepared };

    ghost is_reading = { multi_reads };

    ghost update_count = { λ _. 0 };

    ghost value = { multi_value };

    fn initial(alloc: Global) -> Result<MultiState, Memory> {
        Ok(MultiState::new(alloc))
    }

    fn answer(alloc: Global, state: &MultiState, op: &MultiOp) -> Result<MultiAnswer, Memory> {
        match op {
            MultiOp::MultiRead => Ok(MultiAnswer::Values {
                values: state.values(alloc)?,
            }),
            MultiOp::MultiWrite { .. } => Ok(MultiAnswer::Done),
        }
    }

    fn prepare(
        alloc: Global,
        state: &MultiState,
        op: &MultiOp,
        _tag: Tag,
    ) -> Result<Option<MultiEffect>, Memory> {
        match op {
            MultiOp::MultiRead => Ok(None),
            MultiOp::MultiWrite { value } => Ok(Some(MultiEffect::MultiWrite {
                value: value.copy()?,
                tags: state.live(alloc)?,
            })),
        }
    }

    fn apply(
        alloc: Global,
        state: &mut MultiState,
        effect: &MultiEffect,
        stamp: Stamp,
    ) -> Result<(), Memory> {
        let MultiEffect::MultiWrite { value, tags } = effect;
        state.write(alloc, stamp.tag(), value, tags.as_slice())
    }

    ghost commutes = { multi-commutes };

    ghost reads = { multi-reads };

    ghost counts = { multi-counts };

    ghost in_order = { multi-in_order };
}
