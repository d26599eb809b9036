ghost use Rattle.std.specs.Prelude.{◌≡◌, IfOk};

use std::alloc::Global;
use std::cmp::Ordering;
use us_kind::{Bytes, Memory, Replicated, Stamp, Tag};

/// What a user asks of a register.
#[derive(Debug, PartialEq, Eq, Drop)]
pub enum RegisterOp {
    RegisterRead,
    RegisterWrite { value: Bytes },
}

/// What a write does at each site.
#[derive(Debug, PartialEq, Eq, Drop)]
pub enum RegisterEffect {
    RegisterWrite { value: Bytes },
}

/// What a register answers: `Nothing` to a read before any write.
#[derive(Debug, PartialEq, Eq, Drop)]
pub enum RegisterAnswer {
    Done,
    Nothing,
    Value { value: Bytes },
}

/// The write that a register keeps.
#[derive(Debug, PartialEq, Eq, Drop)]
pub struct StampedValue {
    pub stamp: Stamp,
    pub value: Bytes,
}

impl StampedValue {
    ghost use Rattle.us_plain.specs.Register.{kept_less};

    /// Whether this is the earlier write: by stamp, and of equal stamps by the bytes of the value.
    pub fn is_earlier(&self, stamp: Stamp, value: &Bytes) -> bool
        ensures { result ≡ kept_less self.now (record { stamp = stamp; value = value.now }) }
    {
        match self.stamp.cmp(&stamp) {
            Ordering::Less => true,
            Ordering::Equal => self.value < *value,
            Ordering::Greater => false,
        }
    }

    pub fn copy(&self) -> Result<StampedValue, Memory>
        ensures { IfOk result (λ copy. copy ≡ self.now) }
    {
        Ok(StampedValue {
            stamp: self.stamp,
            value: self.value.copy()?,
        })
    }
}

/// The last write so far, by its stamp.
#[derive(Debug, PartialEq, Eq, Drop)]
pub struct RegisterState {
    pub kept: Option<StampedValue>,
}

impl RegisterState {
    pub fn copy(&self) -> Result<RegisterState, Memory>
        ensures { IfOk result (λ copy. copy ≡ self.now) }
    {
        let kept = match &self.kept {
            Some(kept) => Some(kept.copy()?),
            None => None,
        };
        Ok(RegisterState { kept })
    }
}

/// A register: its last write wins.
pub struct Register;

impl Replicated for Register {
    ghost use Rattle.us_plain.specs.Register.{register_initial, register_updated, register_answered, register_prepared, register_reads, register_value};
    ghost use Rattle.us_plain.specs.RegisterLaws.{register-commutes, register-reads, register-counts, register-in_order};

    type Op = RegisterOp;

    type Effect = RegisterEffect;

    type Answer = RegisterAnswer;

    type State = RegisterState;

    ghost initially = { register_initial };

    ghost updated = { register_updated };

    ghost answered = { register_answered };

    ghost prepared = { register_prepared };

    ghost is_reading = { register_reads };

    ghost update_count = { λ _. 0 };

    ghost value = { register_value };

    fn initial(_alloc: Global) -> Result<RegisterState, Memory> {
        Ok(RegisterState { kept: None })
    }

    fn answer(
        _alloc: Global,
        state: &RegisterState,
        op: &RegisterOp,
    ) -> Result<RegisterAnswer, Memory> {
        match op {
            RegisterOp::RegisterRead => match &state.kept {
                Some(kept) => Ok(RegisterAnswer::Value {
                    value: kept.value.copy()?,
                }),
                None => Ok(RegisterAnswer::Nothing),
            },
            RegisterOp::RegisterWrite { .. } => Ok(RegisterAnswer::Done),
        }
    }

    fn prepare(
        _alloc: Global,
        _state: &RegisterState,
        op: &RegisterOp,
        _tag: Tag,
    ) -> Result<Option<RegisterEffect>, Memory> {
        match op {
            RegisterOp::RegisterRead => Ok(None),
            RegisterOp::RegisterWrite { value } => Ok(Some(RegisterEffect::RegisterWrite {
                value: value.copy()?,
            })),
        }
    }

    fn apply(
        _alloc: Global,
        state: &mut RegisterState,
        effect: &RegisterEffect,
        stamp: Stamp,
    ) -> Result<(), Memory> {
        let RegisterEffect::RegisterWrite { value } = effect;
        let wins = match &state.kept {
            Some(kept) => kept.is_earlier(stamp, value),
            None => true,
        };
        if wins {
            state.kept = Some(StampedValue {
                stamp,
                value: value.copy()?,
            });
        }
        Ok(())
    }

    ghost commutes = { register-commutes };

    ghost reads = { register-reads };

    ghost counts = { register-counts };

    ghost in_order = { register-in_order };
}
