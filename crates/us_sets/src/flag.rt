use crate::Marks;
use std::alloc::Global;
use us_kind::{Items, Memory, Replicated, Stamp, Tag};

/// What a user asks of a flag.
#[derive(Clone, Copy, Debug, PartialEq, Eq)]
pub enum FlagOp {
    FlagRead,
    FlagEnable,
    FlagDisable,
}

/// What an update does at each site: a disabling carries the tags of the enablings that it met.
#[derive(Drop)]
pub enum FlagEffect {
    Enable,
    Disable { tags: Items<Tag> },
}

/// What a flag answers.
#[derive(Clone, Copy, Debug, PartialEq, Eq)]
pub enum FlagAnswer {
    Done,
    Bit { yes: bool },
}

/// A flag: it is on where some enabling has no disabling after it. Its state are the marks of its enablings.
pub struct EnableWinsFlag;

impl Replicated for EnableWinsFlag {
    ghost use Rattle.us_sets.specs.Flag.{flag_initial, flag_updated, flag_answered, flag_prepared, flag_reads, flag_value};
    ghost use Rattle.us_sets.specs.FlagLaws.{flag-commutes, flag-reads, flag-counts, flag-in_order};

    type Op = FlagOp;

    type Effect = FlagEffect;

    type Answer = FlagAnswer;

    type State = Marks;

    ghost initially = { flag_initial };

    ghost updated = { flag_updated };

    ghost answered = { flag_answered };

    ghost prepared = { flag_prepared };

    ghost is_reading = { flag_reads };

    ghost update_count = { λ _. 0 };

    ghost value = { flag_value };

    fn initial(alloc: Global) -> Result<Marks, Memory> {
        Ok(Marks::new(alloc))
    }

    fn answer(_alloc: Global, state: &Marks, op: &FlagOp) -> Result<FlagAnswer, Memory> {
        match op {
            FlagOp::FlagRead => Ok(FlagAnswer::Bit {
                yes: state.is_live(),
            }),
            FlagOp::FlagEnable | FlagOp::FlagDisable => Ok(FlagAnswer::Done),
        }
    }

    fn prepare(
        alloc: Global,
        state: &Marks,
        op: &FlagOp,
        _tag: Tag,
    ) -> Result<Option<FlagEffect>, Memory> {
        match op {
            FlagOp::FlagRead => Ok(None),
            FlagOp::FlagEnable => Ok(Some(FlagEffect::Enable)),
            FlagOp::FlagDisable => Ok(Some(FlagEffect::Disable {
                tags: state.live(alloc)?,
            })),
        }
    }

    fn apply(
        alloc: Global,
        state: &mut Marks,
        effect: &FlagEffect,
        stamp: Stamp,
    ) -> Result<(), Memory> {
        match effect {
            FlagEffect::Enable => state.shift(stamp.tag(), 1),
            FlagEffect::Disable { tags } => state.take(alloc, tags.as_slice()),
        }
    }

    ghost commutes = { flag-commutes };

    ghost reads = { flag-reads };

    ghost counts = { flag-counts };

    ghost in_order = { flag-in_order };
}
