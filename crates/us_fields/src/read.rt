//! Items, operations and answers at a place.
ghost use Rattle.std.specs.Prelude.{◌≡◌, option_map};
ghost use Rattle.us_fields.specs.DecodeResult.{Tells};
ghost use Rattle.us_fields.specs.FieldDecoders.{id_at, item_at, op_fields_at, op_at, answer_fields_at, answer_at};

use crate::DecodeFault;
use crate::codes::{ID_LIMIT, answer_code, op_code};
use crate::values::{value_in, values_in};
use std::alloc::Global;
use us_kind::Bytes;
use us_value::{Answer, Item, Op};
use us_wire::{take_i64, take_i128, take_u8_between};

/// An id of 1 to 64 bytes behind its length, and the place behind it.
#[tactic(auto, unfolding(crate::specs::FieldDecoders::id_at))]
fn id_in(input: &[u8], at: usize) -> Option<(&[u8], usize)>
    ensures { option_map (λ read. (read.0.now, read.1)) result ≡ id_at input.now at }
{
    let (size, start) = take_u8_between(input, at, 1, ID_LIMIT)?;
    let size = usize::from(size);
    if input.len() - start < size {
        return None;
    }
    Some((&input[start..start + size], start + size))
}

/// The item that stands at the place, and the place behind it.
#[tactic(auto, unfolding(crate::specs::FieldDecoders::item_at))]
pub fn take_item(alloc: Global, input: &[u8], at: usize) -> Result<(Item, usize), DecodeFault>
    ensures { Tells result (item_at input.now at) }
{
    let Some((space, at)) = take_u8_between(input, at, 1, u8::MAX) else {
        return Err(DecodeFault::Malformed);
    };
    let Some((id, next)) = id_in(input, at) else {
        return Err(DecodeFault::Malformed);
    };
    let id = Bytes::from_slice(alloc, id)?;
    Ok((Item { space, id }, next))
}

/// The fields of the operation with this code.
#[tactic(auto, unfolding(crate::specs::FieldDecoders::op_fields_at))]
fn op_fields_in(
    alloc: Global,
    code: u8,
    input: &[u8],
    at: usize,
) -> Result<(Op, usize), DecodeFault>
    ensures { Tells result (op_fields_at code input.now at) }
{
    match code {
        op_code::REGISTER_READ => Ok((Op::RegisterRead, at)),
        op_code::REGISTER_WRITE => {
            let (value, next) = value_in(alloc, input, at)?;
            Ok((Op::RegisterWrite { value }, next))
        }
        op_code::COUNTER_READ => Ok((Op::CounterRead, at)),
        op_code::COUNTER_ADD => match take_i64(input, at) {
            Some((amount, next)) => Ok((Op::CounterAdd { amount }, next)),
            None => Err(DecodeFault::Malformed),
        },
        op_code::SET_MEMBERS => Ok((Op::SetMembers, at)),
        op_code::SET_CONTAINS => {
            let (value, next) = value_in(alloc, input, at)?;
            Ok((Op::SetContains { value }, next))
        }
        op_code::SET_ADD => {
            let (value, next) = value_in(alloc, input, at)?;
            Ok((Op::SetAdd { value }, next))
        }
        op_code::SET_REMOVE => {
            let (value, next) = value_in(alloc, input, at)?;
            Ok((Op::SetRemove { value }, next))
        }
        op_code::FLAG_READ => Ok((Op::FlagRead, at)),
        op_code::FLAG_ENABLE => Ok((Op::FlagEnable, at)),
        op_code::FLAG_DISABLE => Ok((Op::FlagDisable, at)),
        op_code::MULTI_READ => Ok((Op::MultiRead, at)),
        op_code::MULTI_WRITE => {
            let (value, next) = value_in(alloc, input, at)?;
            Ok((Op::MultiWrite { value }, next))
        }
        _ => Err(DecodeFault::Malformed),
    }
}

/// The operation that stands at the place, and the place behind it.
#[tactic(auto, unfolding(crate::specs::FieldDecoders::op_at))]
pub fn take_op(alloc: Global, input: &[u8], at: usize) -> Result<(Op, usize), DecodeFault>
    ensures { Tells result (op_at input.now at) }
{
    let Some((code, next)) = take_u8_between(input, at, 0, u8::MAX) else {
        return Err(DecodeFault::Malformed);
    };
    op_fields_in(alloc, code, input, next)
}

/// The fields of the answer with this code.
#[tactic(auto, unfolding(crate::specs::FieldDecoders::answer_fields_at))]
fn answer_fields_in(
    alloc: Global,
    code: u8,
    input: &[u8],
    at: usize,
) -> Result<(Answer, usize), DecodeFault>
    ensures { Tells result (answer_fields_at code input.now at) }
{
    match code {
        answer_code::DONE => Ok((Answer::Done, at)),
        answer_code::NOTHING => Ok((Answer::Nothing, at)),
        answer_code::VALUE => {
            let (value, next) = value_in(alloc, input, at)?;
            Ok((Answer::Value { value }, next))
        }
        answer_code::NUMBER => match take_i128(input, at) {
            Some((number, next)) => Ok((Answer::Number { number }, next)),
            None => Err(DecodeFault::Malformed),
        },
        answer_code::VALUES => {
            let (values, next) = values_in(alloc, input, at)?;
            Ok((Answer::Values { values }, next))
        }
        answer_code::BIT => match take_u8_between(input, at, 0, 1) {
            Some((bit, next)) => Ok((Answer::Bit { yes: bit == 1 }, next)),
            None => Err(DecodeFault::Malformed),
        },
        _ => Err(DecodeFault::Malformed),
    }
}

/// The answer that stands at the place, and the place behind it.
#[tactic(auto, unfolding(crate::specs::FieldDecoders::answer_at))]
pub fn take_answer(alloc: Global, input: &[u8], at: usize) -> Result<(Answer, usize), DecodeFault>
    ensures { Tells result (answer_at input.now at) }
{
    let Some((code, next)) = take_u8_between(input, at, 0, u8::MAX) else {
        return Err(DecodeFault::Malformed);
    };
    answer_fields_in(alloc, code, input, next)
}
