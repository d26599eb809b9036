ghost use Rattle.std.specs.Prelude.{◌≡◌, IfOk};
ghost use Rattle.us_load.specs.Operations.{kind_of, space_of, item_of, value_of, amount_of, op_of_kind, op_of};
ghost use Rattle.us_fields.specs.Fields.{ItemFits, OpFits};

use std::alloc::Global;
use us_kind::{Bytes, Memory};
use us_value::{Item, Kind, Op};

/// The item that a word asks for.
pub fn item_of(alloc: Global, word: u64) -> Result<Item, Memory>
    ensures is { IfOk result (λ item. item ≡ item_of word) }
    ensures fits { IfOk result ItemFits }
{
    Ok(Item {
        space: space_of(word),
        id: Bytes::from_slice(alloc, &[97 + (word / 5 % 8) as u8])?,
    })
}

/// The operation that a word asks for.
pub fn op_of(alloc: Global, word: u64) -> Result<Op, Memory>
    ensures is { IfOk result (λ op. op ≡ op_of word) }
    ensures fits { IfOk result OpFits }
{
    match kind_of(word) {
        Kind::Register => register_op(alloc, word),
        Kind::Counter => Ok(counter_op(word)),
        Kind::Set => set_op(alloc, word),
        Kind::Flag => Ok(flag_op(word)),
        Kind::Multi => multi_op(alloc, word),
    }
}

/// The space that a word asks for, from 1 to 5.
fn space_of(word: u64) -> u8
    ensures { result ≡ space_of word }
{
    1 + (word % 5) as u8
}

/// The kind of that space.
fn kind_of(word: u64) -> Kind
    ensures { result ≡ kind_of (space_of word) }
{
    match word % 5 {
        0 => Kind::Register,
        1 => Kind::Counter,
        2 => Kind::Set,
        3 => Kind::Flag,
        _ => Kind::Multi,
    }
}

/// The value that a word brings, one byte.
fn value_of(alloc: Global, word: u64) -> Result<Bytes, Memory>
    ensures { IfOk result (λ value. value ≡ value_of word) }
{
    Bytes::from_slice(alloc, &[65 + (word / 640 % 8) as u8])
}

/// The amount that a word brings, from -100 to 100.
fn amount_of(word: u64) -> i64
    ensures { result ≡ amount_of word }
{
    (word / 640 % 201) as i64 - 100
}

fn register_op(alloc: Global, word: u64) -> Result<Op, Memory>
    ensures is { IfOk result (λ op. op ≡ op_of_kind Kind.Register word) }
    ensures fits { IfOk result OpFits }
{
    Ok(match word / 40 % 2 {
        0 => Op::RegisterRead,
        _ => Op::RegisterWrite {
            value: value_of(alloc, word)?,
        },
    })
}

fn counter_op(word: u64) -> Op
    ensures is { result ≡ op_of_kind Kind.Counter word }
    ensures fits { OpFits result }
{
    match word / 40 % 2 {
        0 => Op::CounterRead,
        _ => Op::CounterAdd {
            amount: amount_of(word),
        },
    }
}

fn set_op(alloc: Global, word: u64) -> Result<Op, Memory>
    ensures is { IfOk result (λ op. op ≡ op_of_kind Kind.Set word) }
    ensures fits { IfOk result OpFits }
{
    Ok(match word / 40 % 4 {
        0 => Op::SetMembers,
        1 => Op::SetContains {
            value: value_of(alloc, word)?,
        },
        2 => Op::SetAdd {
            value: value_of(alloc, word)?,
        },
        _ => Op::SetRemove {
            value: value_of(alloc, word)?,
        },
    })
}

fn flag_op(word: u64) -> Op
    ensures is { result ≡ op_of_kind Kind.Flag word }
    ensures fits { OpFits result }
{
    match word / 40 % 3 {
        0 => Op::FlagRead,
        1 => Op::FlagEnable,
        _ => Op::FlagDisable,
    }
}

fn multi_op(alloc: Global, word: u64) -> Result<Op, Memory>
    ensures is { IfOk result (λ op. op ≡ op_of_kind Kind.Multi word) }
    ensures fits { IfOk result OpFits }
{
    Ok(match word / 40 % 2 {
        0 => Op::MultiRead,
        _ => Op::MultiWrite {
            value: value_of(alloc, word)?,
        },
    })
}
