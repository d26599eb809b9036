//! Writers of fields. Each takes the bytes and gives them back with the field's encoding behind them; where memory runs out they
//! are gone.
ghost use Rattle.std.specs.Prelude.{◌≡◌, ◌+◌, ◌<◌, ◌≤◌, ◌^◌, ◌++◌, IfOk, length};
ghost use Rattle.std.specs.List.{AllByRecursion};
ghost use Rattle.us_wire.specs.Fields.{value, longest_value};
ghost use Rattle.us_wire.specs.Decoders.{many_encoding};
ghost use Rattle.us_wire.specs.Whole.{frame_encoding};
ghost use Rattle.us_fields.specs.Fields.{item_encoding, op_code, op_fields, op_encoding, answer_code, answer_fields, answer_encoding};
ghost use Rattle.us_fields.specs.Fields.{ItemFits, OpFits, AnswerFits};

use crate::codes::{VERSION, answer_code, op_code};
use std::alloc::Global;
use us_kind::{Bytes, Memory};
use us_value::{Answer, Item, Op};
use us_wire::{put_i64, put_i128, put_u8, put_u32, put_value};

/// The bytes, and an item behind them.
pub fn put_item(mut out: Vec<u8>, item: &Item) -> Result<Vec<u8>, Memory>
    requires { ItemFits item.now }
    ensures { IfOk result (λ new. new.items ≡ out.items ++ item_encoding item.now) }
{
    put_u8(&mut out, item.space)?;
    put_u8(&mut out, item.id.len() as u8)?;
    out.extend_from_slice(item.id.as_slice())?;
    Ok(out)
}

/// The code of an operation.
fn code_of_op(op: &Op) -> u8
    ensures { result ≡ op_code op.now }
{
    match op {
        Op::RegisterRead => op_code::REGISTER_READ,
        Op::RegisterWrite { .. } => op_code::REGISTER_WRITE,
        Op::CounterRead => op_code::COUNTER_READ,
        Op::CounterAdd { .. } => op_code::COUNTER_ADD,
        Op::SetMembers => op_code::SET_MEMBERS,
        Op::SetContains { .. } => op_code::SET_CONTAINS,
        Op::SetAdd { .. } => op_code::SET_ADD,
        Op::SetRemove { .. } => op_code::SET_REMOVE,
        Op::FlagRead => op_code::FLAG_READ,
        Op::FlagEnable => op_code::FLAG_ENABLE,
        Op::FlagDisable => op_code::FLAG_DISABLE,
        Op::MultiRead => op_code::MULTI_READ,
        Op::MultiWrite { .. } => op_code::MULTI_WRITE,
    }
}

fn put_op_fields(mut out: Vec<u8>, op: &Op) -> Result<Vec<u8>, Memory>
    requires { OpFits op.now }
    ensures { IfOk result (λ new. new.items ≡ out.items ++ op_fields op.now) }
{
    match op {
        Op::RegisterWrite { value }
        | Op::SetContains { value }
        | Op::SetAdd { value }
        | Op::SetRemove { value }
        | Op::MultiWrite { value } => {
            put_value(&mut out, value.as_slice())?;
            Ok(out)
        }
        Op::CounterAdd { amount } => {
            put_i64(&mut out, *amount)?;
            Ok(out)
        }
        Op::RegisterRead
        | Op::CounterRead
        | Op::SetMembers
        | Op::FlagRead
        | Op::FlagEnable
        | Op::FlagDisable
        | Op::MultiRead => Ok(out),
    }
}

/// The bytes, and an operation behind them.
pub fn put_op(mut out: Vec<u8>, op: &Op) -> Result<Vec<u8>, Memory>
    requires { OpFits op.now }
    ensures { IfOk result (λ new. new.items ≡ out.items ++ op_encoding op.now) }
{
    put_u8(&mut out, code_of_op(op))?;
    put_op_fields(out, op)
}

fn put_values(mut out: Vec<u8>, values: &[Bytes]) -> Result<Vec<u8>, Memory>
    requires { AllByRecursion (λ bytes. length bytes ≤ longest_value) values.now }
    ensures { IfOk result (λ new. new.items ≡ out.items ++ many_encoding value values.now) }
{
    for value in values {
        put_value(&mut out, value.as_slice())?;
    }
    Ok(out)
}

/// The code of an answer.
fn code_of_answer(answer: &Answer) -> u8
    ensures { result ≡ answer_code answer.now }
{
    match answer {
        Answer::Done => answer_code::DONE,
        Answer::Nothing => answer_code::NOTHING,
        Answer::Value { .. } => answer_code::VALUE,
        Answer::Number { .. } => answer_code::NUMBER,
        Answer::Values { .. } => answer_code::VALUES,
        Answer::Bit { .. } => answer_code::BIT,
    }
}

fn put_answer_fields(mut out: Vec<u8>, answer: &Answer) -> Result<Vec<u8>, Memory>
    requires { AnswerFits answer.now }
    ensures { IfOk result (λ new. new.items ≡ out.items ++ answer_fields answer.now) }
{
    match answer {
        Answer::Done | Answer::Nothing => Ok(out),
        Answer::Value { value } => {
            put_value(&mut out, value.as_slice())?;
            Ok(out)
        }
        Answer::Number { number } => {
            put_i128(&mut out, *number)?;
            Ok(out)
        }
        Answer::Values { values } => {
            put_u32(&mut out, values.len() as u32)?;
            put_values(out, values.as_slice())
        }
        Answer::Bit { yes } => {
            put_u8(&mut out, u8::from(*yes))?;
            Ok(out)
        }
    }
}

/// The bytes, and an answer behind them.
pub fn put_answer(mut out: Vec<u8>, answer: &Answer) -> Result<Vec<u8>, Memory>
    requires { AnswerFits answer.now }
    ensures { IfOk result (λ new. new.items ≡ out.items ++ answer_encoding answer.now) }
{
    put_u8(&mut out, code_of_answer(answer))?;
    put_answer_fields(out, answer)
}

/// The whole frame with this tag and these fields.
pub fn frame_of(alloc: Global, tag: u8, fields: &[u8]) -> Result<Vec<u8>, Memory>
    requires { length fields.now + 2 < 2 ^ 32 }
    ensures { IfOk result (λ frame. frame.items ≡ frame_encoding tag fields.now) }
{
    let length = (fields.len() + 2) as u32;
    let mut frame = Vec::with_capacity(alloc, 6 + fields.len())?;
    put_u32(&mut frame, length)?;
    put_u8(&mut frame, VERSION)?;
    put_u8(&mut frame, tag)?;
    frame.extend_from_slice(fields)?;
    Ok(frame)
}
