ghost use Rattle.std.specs.Prelude.{◌≡◌};
ghost use Rattle.us_value.specs.Values.{class_of, kind_has, op_fits, effect_fits};

use crate::{Class, Effect, Kind, Op};

/// What an operation does.
pub fn class_of(op: &Op) -> Class
    ensures { result ≡ class_of op.now }
{
    match op {
        Op::RegisterRead
        | Op::CounterRead
        | Op::SetMembers
        | Op::SetContains { .. }
        | Op::FlagRead
        | Op::MultiRead => Class::Read,
        Op::RegisterWrite { .. } | Op::MultiWrite { .. } => Class::Write,
        Op::CounterAdd { amount } => {
            if *amount < 0 {
                Class::Take
            } else {
                Class::Give
            }
        }
        Op::SetAdd { .. } => Class::Add,
        Op::SetRemove { .. } => Class::Remove,
        Op::FlagEnable => Class::Enable,
        Op::FlagDisable => Class::Disable,
    }
}

/// Whether some operation of the kind has the class.
pub fn kind_has(kind: Kind, class: Class) -> bool
    ensures { result ≡ kind_has kind class }
{
    match class {
        Class::Read => true,
        Class::Write => matches!(kind, Kind::Register | Kind::Multi),
        Class::Give | Class::Take => matches!(kind, Kind::Counter),
        Class::Add | Class::Remove => matches!(kind, Kind::Set),
        Class::Enable | Class::Disable => matches!(kind, Kind::Flag),
    }
}

/// Whether the operation is one of the kind.
pub fn op_fits(kind: Kind, op: &Op) -> bool
    ensures { result ≡ op_fits kind op.now }
{
    match op {
        Op::RegisterRead | Op::RegisterWrite { .. } => matches!(kind, Kind::Register),
        Op::CounterRead | Op::CounterAdd { .. } => matches!(kind, Kind::Counter),
        Op::SetMembers | Op::SetContains { .. } | Op::SetAdd { .. } | Op::SetRemove { .. } => {
            matches!(kind, Kind::Set)
        }
        Op::FlagRead | Op::FlagEnable | Op::FlagDisable => matches!(kind, Kind::Flag),
        Op::MultiRead | Op::MultiWrite { .. } => matches!(kind, Kind::Multi),
    }
}

/// Whether the effect is one of the kind.
pub fn effect_fits(kind: Kind, effect: &Effect) -> bool
    ensures { result ≡ effect_fits kind effect.now }
{
    match effect {
        Effect::RegisterWrite { .. } => matches!(kind, Kind::Register),
        Effect::CounterAdd { .. } => matches!(kind, Kind::Counter),
        Effect::SetAdd { .. } | Effect::SetRemove { .. } => matches!(kind, Kind::Set),
        Effect::Enable | Effect::Disable { .. } => matches!(kind, Kind::Flag),
        Effect::MultiWrite { .. } => matches!(kind, Kind::Multi),
    }
}
