//! An operation or an effect as that of a kind, and a kind's effect or answer as one of all.
ghost use Rattle.std.specs.Prelude.{◌≡◌, ◌↔◌, IfOk, Some, None, Err};
ghost use Rattle.us_value.specs.declared.fault.ValueFault.TheVariants.{WrongOperation};
ghost use Rattle.us_value.specs.Values.{register_op, counter_op, set_op, flag_op, multi_op, register_effect, counter_effect, set_effect, flag_effect, multi_effect, of_register_effect, of_counter_effect, of_set_effect, of_flag_effect, of_multi_effect, of_register_answer, of_counter_answer, of_set_answer, of_flag_answer, of_multi_answer};

use crate::{Answer, Effect, Op, ValueFault};
use us_multi::{MultiAnswer, MultiEffect, MultiOp};
use us_plain::{
    CounterAnswer, CounterEffect, CounterOp, RegisterAnswer, RegisterEffect, RegisterOp,
};
use us_sets::{FlagAnswer, FlagEffect, FlagOp, SetAnswer, SetEffect, SetOp};

pub fn register_op_of(op: &Op) -> Result<RegisterOp, ValueFault>
    ensures ok { IfOk result (λ share. register_op op.now ≡ Some share) }
    ensures wrong { (result ≡ Err WrongOperation) ↔ (register_op op.now ≡ None) }
{
    match op {
        Op::RegisterRead => Ok(RegisterOp::RegisterRead),
        Op::RegisterWrite { value } => Ok(RegisterOp::RegisterWrite {
            value: value.copy()?,
        }),
        _ => Err(ValueFault::WrongOperation),
    }
}

pub fn counter_op_of(op: &Op) -> Result<CounterOp, ValueFault>
    ensures ok { IfOk result (λ share. counter_op op.now ≡ Some share) }
    ensures wrong { (result ≡ Err WrongOperation) ↔ (counter_op op.now ≡ None) }
{
    match op {
        Op::CounterRead => Ok(CounterOp::CounterRead),
        Op::CounterAdd { amount } => Ok(CounterOp::CounterAdd { amount: *amount }),
        _ => Err(ValueFault::WrongOperation),
    }
}

pub fn set_op_of(op: &Op) -> Result<SetOp, ValueFault>
    ensures ok { IfOk result (λ share. set_op op.now ≡ Some share) }
    ensures wrong { (result ≡ Err WrongOperation) ↔ (set_op op.now ≡ None) }
{
    match op {
        Op::SetMembers => Ok(SetOp::SetMembers),
        Op::SetContains { value } => Ok(SetOp::SetContains {
            value: value.copy()?,
        }),
        Op::SetAdd { value } => Ok(SetOp::SetAdd {
            value: value.copy()?,
        }),
        Op::SetRemove { value } => Ok(SetOp::SetRemove {
            value: value.copy()?,
        }),
        _ => Err(ValueFault::WrongOperation),
    }
}

pub fn flag_op_of(op: &Op) -> Result<FlagOp, ValueFault>
    ensures ok { IfOk result (λ share. flag_op op.now ≡ Some share) }
    ensures wrong { (result ≡ Err WrongOperation) ↔ (flag_op op.now ≡ None) }
{
    match op {
        Op::FlagRead => Ok(FlagOp::FlagRead),
        Op::FlagEnable => Ok(FlagOp::FlagEnable),
        Op::FlagDisable => Ok(FlagOp::FlagDisable),
        _ => Err(ValueFault::WrongOperation),
    }
}

pub fn multi_op_of(op: &Op) -> Result<MultiOp, ValueFault>
    ensures ok { IfOk result (λ share. multi_op op.now ≡ Some share) }
    ensures wrong { (result ≡ Err WrongOperation) ↔ (multi_op op.now ≡ None) }
{
    match op {
        Op::MultiRead => Ok(MultiOp::MultiRead),
        Op::MultiWrite { value } => Ok(MultiOp::MultiWrite {
            value: value.copy()?,
        }),
        _ => Err(ValueFault::WrongOperation),
    }
}

pub fn register_effect_of(effect: &Effect) -> Result<RegisterEffect, ValueFault>
    ensures ok { IfOk result (λ share. register_effect effect.now ≡ Some share) }
    ensures wrong { (result ≡ Err WrongOperation) ↔ (register_effect effect.now ≡ None) }
{
    match effect {
        Effect::RegisterWrite { value } => Ok(RegisterEffect::RegisterWrite {
            value: value.copy()?,
        }),
        _ => Err(ValueFault::WrongOperation),
    }
}

pub fn counter_effect_of(effect: &Effect) -> Result<CounterEffect, ValueFault>
    ensures ok { IfOk result (λ share. counter_effect effect.now ≡ Some share) }
    ensures wrong { (result ≡ Err WrongOperation) ↔ (counter_effect effect.now ≡ None) }
{
    match effect {
        Effect::CounterAdd { amount } => Ok(CounterEffect::CounterAdd { amount: *amount }),
        _ => Err(ValueFault::WrongOperation),
    }
}

pub fn set_effect_of(effect: &Effect) -> Result<SetEffect, ValueFault>
    ensures ok { IfOk result (λ share. set_effect effect.now ≡ Some share) }
    ensures wrong { (result ≡ Err WrongOperation) ↔ (set_effect effect.now ≡ None) }
{
    match effect {
        Effect::SetAdd { value } => Ok(SetEffect::SetAdd {
            value: value.copy()?,
        }),
        Effect::SetRemove { value, tags } => Ok(SetEffect::SetRemove {
            value: value.copy()?,
            tags: tags.clone()?,
        }),
        _ => Err(ValueFault::WrongOperation),
    }
}

pub fn flag_effect_of(effect: &Effect) -> Result<FlagEffect, ValueFault>
    ensures ok { IfOk result (λ share. flag_effect effect.now ≡ Some share) }
    ensures wrong { (result ≡ Err WrongOperation) ↔ (flag_effect effect.now ≡ None) }
{
    match effect {
        Effect::Enable => Ok(FlagEffect::Enable),
        Effect::Disable { tags } => Ok(FlagEffect::Disable {
            tags: tags.clone()?,
        }),
        _ => Err(ValueFault::WrongOperation),
    }
}

pub fn multi_effect_of(effect: &Effect) -> Result<MultiEffect, ValueFault>
    ensures ok { IfOk result (λ share. multi_effect effect.now ≡ Some share) }
    ensures wrong { (result ≡ Err WrongOperation) ↔ (multi_effect effect.now ≡ None) }
{
    match effect {
        Effect::MultiWrite { value, tags } => Ok(MultiEffect::MultiWrite {
            value: value.copy()?,
            tags: tags.clone()?,
        }),
        _ => Err(ValueFault::WrongOperation),
    }
}

impl From<RegisterEffect> for Effect {
    ghost from_gives = { λ effect result. result ≡ of_register_effect effect };

    fn from(effect: RegisterEffect) -> Effect {
        match effect {
            RegisterEffect::RegisterWrite { value } => Effect::RegisterWrite { value },
        }
    }
}

impl From<CounterEffect> for Effect {
    ghost from_gives = { λ effect result. result ≡ of_counter_effect effect };

    fn from(effect: CounterEffect) -> Effect {
        match effect {
            CounterEffect::CounterAdd { amount } => Effect::CounterAdd { amount },
        }
    }
}

impl From<SetEffect> for Effect {
    ghost from_gives = { λ effect result. result ≡ of_set_effect effect };

    fn from(effect: SetEffect) -> Effect {
        match effect {
            SetEffect::SetAdd { value } => Effect::SetAdd { value },
            SetEffect::SetRemove { value, tags } => Effect::SetRemove { value, tags },
        }
    }
}

impl From<FlagEffect> for Effect {
    ghost from_gives = { λ effect result. result ≡ of_flag_effect effect };

    fn from(effect: FlagEffect) -> Effect {
        match effect {
            FlagEffect::Enable => Effect::Enable,
            FlagEffect::Disable { tags } => Effect::Disable { tags },
        }
    }
}

impl From<MultiEffect> for Effect {
    ghost from_gives = { λ effect result. result ≡ of_multi_effect effect };

    fn from(effect: MultiEffect) -> Effect {
        match effect {
            MultiEffect::MultiWrite { value, tags } => Effect::MultiWrite { value, tags },
        }
    }
}

impl From<RegisterAnswer> for Answer {
    ghost from_gives = { λ answer result. result ≡ of_register_answer answer };

    fn from(answer: RegisterAnswer) -> Answer {
        match answer {
            RegisterAnswer::Done => Answer::Done,
            RegisterAnswer::Nothing => Answer::Nothing,
            RegisterAnswer::Value { value } => Answer::Value { value },
        }
    }
}

impl From<CounterAnswer> for Answer {
    ghost from_gives = { λ answer result. result ≡ of_counter_answer answer };

    fn from(answer: CounterAnswer) -> Answer {
        match answer {
            CounterAnswer::Done => Answer::Done,
            CounterAnswer::Number { number } => Answer::Number { number },
        }
    }
}

impl From<SetAnswer> for Answer {
    ghost from_gives = { λ answer result. result ≡ of_set_answer answer };

    fn from(answer: SetAnswer) -> Answer {
        match answer {
            SetAnswer::Done => Answer::Done,
            SetAnswer::Values { values } => Answer::Values { values },
            SetAnswer::Bit { yes } => Answer::Bit { yes },
        }
    }
}

impl From<FlagAnswer> for Answer {
    ghost from_gives = { λ answer result. result ≡ of_flag_answer answer };

    fn from(answer: FlagAnswer) -> Answer {
        match answer {
            FlagAnswer::Done => Answer::Done,
            FlagAnswer::Bit { yes } => Answer::Bit { yes },
        }
    }
}

impl From<MultiAnswer> for Answer {
    ghost from_gives = { λ answer result. result ≡ of_multi_answer answer };

    fn from(answer: MultiAnswer) -> Answer {
        match answer {
            MultiAnswer::Done => Answer::Done,
            MultiAnswer::Values { values } => Answer::Values { values },
        }
    }
}
