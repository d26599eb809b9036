ghost use Rattle.std.specs.Prelude.{◌≡◌, IfOk};
ghost use Rattle.us_value.specs.Values.{is_update};

use us_kind::{Bytes, Items, Memory, Tag};
use us_multi::MultiState;
use us_plain::{CounterState, RegisterState};
use us_sets::{Marks, SetState};

/// What the items of a space are.
#[derive(Clone, Copy, Debug, PartialEq, Eq, Hash)]
pub enum Kind {
    Register,
    Counter,
    Set,
    Flag,
    Multi,
}

/// What operations do, as conflicts between them are declared. A counter gives with an amount of 0 or more, and takes
/// with one below 0.
#[derive(Clone, Copy, Debug, PartialEq, Eq, PartialOrd, Ord, Hash)]
pub enum Class {
    Read,
    Write,
    Give,
    Take,
    Add,
    Remove,
    Enable,
    Disable,
}

/// An operation on an item. A value has at most 1,024 bytes.
#[derive(Debug, PartialEq, Eq, Drop)]
pub enum Op {
    RegisterRead,
    RegisterWrite { value: Bytes },
    CounterRead,
    CounterAdd { amount: i64 },
    SetMembers,
    SetContains { value: Bytes },
    SetAdd { value: Bytes },
    SetRemove { value: Bytes },
    FlagRead,
    FlagEnable,
    FlagDisable,
    MultiRead,
    MultiWrite { value: Bytes },
}

impl Op {
    /// Whether the operation changes its item.
    pub fn is_update(&self) -> bool
        ensures { result ≡ is_update self.now }
    {
        match self {
            Op::RegisterRead
            | Op::CounterRead
            | Op::SetMembers
            | Op::SetContains { .. }
            | Op::FlagRead
            | Op::MultiRead => false,
            Op::RegisterWrite { .. }
            | Op::CounterAdd { .. }
            | Op::SetAdd { .. }
            | Op::SetRemove { .. }
            | Op::FlagEnable
            | Op::FlagDisable
            | Op::MultiWrite { .. } => true,
        }
    }

    pub fn copy(&self) -> Result<Op, Memory>
        ensures { IfOk result (λ copy. copy ≡ self.now) }
    {
        Ok(match self {
            Op::RegisterRead => Op::RegisterRead,
            Op::RegisterWrite { value } => Op::RegisterWrite {
                value: value.copy()?,
            },
            Op::CounterRead => Op::CounterRead,
            Op::CounterAdd { amount } => Op::CounterAdd { amount: *amount },
            Op::SetMembers => Op::SetMembers,
            Op::SetContains { value } => Op::SetContains {
                value: value.copy()?,
            },
            Op::SetAdd { value } => Op::SetAdd {
                value: value.copy()?,
            },
            Op::SetRemove { value } => Op::SetRemove {
                value: value.copy()?,
            },
            Op::FlagRead => Op::FlagRead,
            Op::FlagEnable => Op::FlagEnable,
            Op::FlagDisable => Op::FlagDisable,
            Op::MultiRead => Op::MultiRead,
            Op::MultiWrite { value } => Op::MultiWrite {
                value: value.copy()?,
            },
        })
    }
}

/// What an updating operation does to the state of its item, wherever and in whatever order it is applied. `tags` are
/// those of the additions of that element, the enablings or the writes that it met, ascending, each once.
#[derive(Debug, PartialEq, Eq, Drop)]
pub enum Effect {
    RegisterWrite { value: Bytes },
    CounterAdd { amount: i64 },
    SetAdd { value: Bytes },
    SetRemove { value: Bytes, tags: Items<Tag> },
    Enable,
    Disable { tags: Items<Tag> },
    MultiWrite { value: Bytes, tags: Items<Tag> },
}

impl Effect {
    pub fn copy(&self) -> Result<Effect, Memory>
        ensures { IfOk result (λ copy. copy ≡ self.now) }
    {
        Ok(match self {
            Effect::RegisterWrite { value } => Effect::RegisterWrite {
                value: value.copy()?,
            },
            Effect::CounterAdd { amount } => Effect::CounterAdd { amount: *amount },
            Effect::SetAdd { value } => Effect::SetAdd {
                value: value.copy()?,
            },
            Effect::SetRemove { value, tags } => Effect::SetRemove {
                value: value.copy()?,
                tags: tags.clone()?,
            },
            Effect::Enable => Effect::Enable,
            Effect::Disable { tags } => Effect::Disable {
                tags: tags.clone()?,
            },
            Effect::MultiWrite { value, tags } => Effect::MultiWrite {
                value: value.copy()?,
                tags: tags.clone()?,
            },
        })
    }
}

/// What an operation answers. `Values` ascend by bytes, each once.
#[derive(Debug, PartialEq, Eq, Drop)]
pub enum Answer {
    Done,
    Nothing,
    Value { value: Bytes },
    Number { number: i128 },
    Values { values: Items<Bytes> },
    Bit { yes: bool },
}

impl Answer {
    pub fn copy(&self) -> Result<Answer, Memory>
        ensures { IfOk result (λ copy. copy ≡ self.now) }
    {
        Ok(match self {
            Answer::Done => Answer::Done,
            Answer::Nothing => Answer::Nothing,
            Answer::Value { value } => Answer::Value {
                value: value.copy()?,
            },
            Answer::Number { number } => Answer::Number { number: *number },
            Answer::Values { values } => Answer::Values {
                values: values.clone()?,
            },
            Answer::Bit { yes } => Answer::Bit { yes: *yes },
        })
    }
}

/// The state of an item, of its space's kind.
#[derive(Drop)]
pub enum State {
    Register { state: RegisterState },
    Counter { state: CounterState },
    Set { state: SetState },
    Flag { state: Marks },
    Multi { state: MultiState },
}
