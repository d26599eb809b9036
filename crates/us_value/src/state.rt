ghost use Rattle.std.specs.Prelude.{◌≡◌, ◌↔◌, ◌<◌, ◌^◌, false, IfOk, OnOk, OnErr, Err};
ghost use Rattle.us_value.specs.declared.fault.ValueFault.TheVariants.{WrongOperation};
ghost use Rattle.us_value.specs.Values.{initial, answered, prepared, updated, update_count, kind_of_state, op_fits, effect_fits};

use crate::shares::{
    counter_effect_of, counter_op_of, flag_effect_of, flag_op_of, multi_effect_of, multi_op_of,
    register_effect_of, register_op_of, set_effect_of, set_op_of,
};
use crate::{Answer, Effect, Kind, Op, State, ValueFault};
use std::alloc::Global;
use us_kind::{Memory, Replicated, Stamp, Tag};
use us_multi::MultiValue;
use us_plain::{Counter, Register};
use us_sets::{AddWinsSet, EnableWinsFlag};

/// The state of an item of a kind before any update.
pub fn initial(alloc: Global, kind: Kind) -> Result<State, Memory>
    ensures state { IfOk result (λ state. state ≡ initial kind) }
    ensures no_updates { IfOk result (λ state. update_count state ≡ 0) }
{
    Ok(match kind {
        Kind::Register => State::Register {
            state: Register::initial(alloc)?,
        },
        Kind::Counter => State::Counter {
            state: Counter::initial(alloc)?,
        },
        Kind::Set => State::Set {
            state: AddWinsSet::initial(alloc)?,
        },
        Kind::Flag => State::Flag {
            state: EnableWinsFlag::initial(alloc)?,
        },
        Kind::Multi => State::Multi {
            state: MultiValue::initial(alloc)?,
        },
    })
}

impl State {
    /// The state of an item of a kind before any update.
    pub fn initial(alloc: Global, kind: Kind) -> Result<State, Memory>
        ensures state { IfOk result (λ state. state ≡ initial kind) }
        ensures no_updates { IfOk result (λ state. update_count state ≡ 0) }
    {
        initial(alloc, kind)
    }

    /// The kind of which the state is.
    pub fn kind(&self) -> Kind
        ensures { result ≡ kind_of_state self.now }
    {
        match self {
            State::Register { .. } => Kind::Register,
            State::Counter { .. } => Kind::Counter,
            State::Set { .. } => Kind::Set,
            State::Flag { .. } => Kind::Flag,
            State::Multi { .. } => Kind::Multi,
        }
    }

    /// A copy of the state, which is the same state.
    pub fn copy(&self) -> Result<State, Memory>
        ensures { IfOk result (λ copy. copy ≡ self.now) }
    {
        Ok(match self {
            State::Register { state } => State::Register {
                state: state.copy()?,
            },
            State::Counter { state } => State::Counter { state: *state },
            State::Set { state } => State::Set {
                state: state.copy()?,
            },
            State::Flag { state } => State::Flag {
                state: state.copy()?,
            },
            State::Multi { state } => State::Multi {
                state: state.copy()?,
            },
        })
    }

    /// How many updates a counter counts. Other states count none.
    pub fn update_count(&self) -> u64
        ensures { result ≡ update_count self.now }
    {
        match self {
            State::Counter { state } => state.updates(),
            State::Register { .. } | State::Set { .. } | State::Flag { .. } | State::Multi { .. } =>
                0,
        }
    }
}

/// What an operation answers at a state.
pub fn answer(alloc: Global, state: &State, op: &Op) -> Result<Answer, ValueFault>
    ensures ok { IfOk result (λ answer. answer ≡ answered op.now state.now) }
    ensures wrong { (result ≡ Err WrongOperation) ↔ (op_fits (kind_of_state state.now) op.now ≡ false) }
{
    match state {
        State::Register { state } => {
            let answer = Register::answer(alloc, state, &register_op_of(op)?)?;
            Ok(Answer::from(answer))
        }
        State::Counter { state } => {
            let answer = Counter::answer(alloc, state, &counter_op_of(op)?)?;
            Ok(Answer::from(answer))
        }
        State::Set { state } => {
            let answer = AddWinsSet::answer(alloc, state, &set_op_of(op)?)?;
            Ok(Answer::from(answer))
        }
        State::Flag { state } => {
            let answer = EnableWinsFlag::answer(alloc, state, &flag_op_of(op)?)?;
            Ok(Answer::from(answer))
        }
        State::Multi { state } => {
            let answer = MultiValue::answer(alloc, state, &multi_op_of(op)?)?;
            Ok(Answer::from(answer))
        }
    }
}

/// The effect of an operation at a state, and None for an operation that only reads.
pub fn prepare(
    alloc: Global,
    state: &State,
    op: &Op,
    tag: Tag,
) -> Result<Option<Effect>, ValueFault>
    ensures ok { IfOk result (λ effect. effect ≡ prepared tag op.now state.now) }
    ensures wrong { (result ≡ Err WrongOperation) ↔ (op_fits (kind_of_state state.now) op.now ≡ false) }
{
    match state {
        State::Register { state } => {
            let effect = Register::prepare(alloc, state, &register_op_of(op)?, tag)?;
            Ok(effect.map(Effect::from))
        }
        State::Counter { state } => {
            let effect = Counter::prepare(alloc, state, &counter_op_of(op)?, tag)?;
            Ok(effect.map(Effect::from))
        }
        State::Set { state } => {
            let effect = AddWinsSet::prepare(alloc, state, &set_op_of(op)?, tag)?;
            Ok(effect.map(Effect::from))
        }
        State::Flag { state } => {
            let effect = EnableWinsFlag::prepare(alloc, state, &flag_op_of(op)?, tag)?;
            Ok(effect.map(Effect::from))
        }
        State::Multi { state } => {
            let effect = MultiValue::prepare(alloc, state, &multi_op_of(op)?, tag)?;
            Ok(effect.map(Effect::from))
        }
    }
}

/// Makes an effect part of a state, under the stamp of its update. After a fault the state is as before. A counter
/// takes fewer than 2^60 updates.
pub fn apply(
    alloc: Global,
    state: &mut State,
    effect: &Effect,
    stamp: Stamp,
) -> Result<(), ValueFault>
    requires { update_count state.old < 2 ^ 60 }
    ensures ok { OnOk result (state.new ≡ updated state.old effect.now stamp) }
    ensures wrong { (result ≡ Err WrongOperation) ↔ (effect_fits (kind_of_state state.old) effect.now ≡ false) }
    ensures err { OnErr result (state.new ≡ state.old) }
{
    match state {
        State::Register { state } => {
            Register::apply(alloc, state, &register_effect_of(effect)?, stamp)?;
        }
        State::Counter { state } => {
            Counter::apply(alloc, state, &counter_effect_of(effect)?, stamp)?;
        }
        State::Set { state } => {
            AddWinsSet::apply(alloc, state, &set_effect_of(effect)?, stamp)?;
        }
        State::Flag { state } => {
            EnableWinsFlag::apply(alloc, state, &flag_effect_of(effect)?, stamp)?;
        }
        State::Multi { state } => {
            MultiValue::apply(alloc, state, &multi_effect_of(effect)?, stamp)?;
        }
    }
    Ok(())
}
