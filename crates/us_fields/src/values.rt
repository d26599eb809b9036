//! The values that an operation answers.
ghost use Rattle.std.specs.Prelude.{◌≡◌};
ghost use Rattle.us_wire.specs.Fields.{value_at};
ghost use Rattle.us_wire.specs.Decoders.{many_at};
ghost use Rattle.us_fields.specs.DecodeResult.{Tells};
ghost use Rattle.us_fields.specs.FieldDecoders.{is_ascending, values_at};

use crate::DecodeFault;
use std::alloc::Global;
use us_kind::{Bytes, Items};
use us_wire::{take_u32, take_value};

/// A value, and the place behind it.
pub(crate) fn value_in(
    alloc: Global,
    input: &[u8],
    at: usize,
) -> Result<(Bytes, usize), DecodeFault>
    ensures { Tells result (value_at input.now at) }
{
    let Some((value, next)) = take_value(input, at) else {
        return Err(DecodeFault::Malformed);
    };
    Ok((Bytes::from_slice(alloc, value)?, next))
}

/// So many values. They take at least two bytes each, so that no more are read than the input has.
fn many_values_in(
    alloc: Global,
    input: &[u8],
    at: usize,
    count: u32,
) -> Result<(Items<Bytes>, usize), DecodeFault>
    ensures { Tells result (many_at value_at count input.now at) }
{
    let mut values = Items::new(alloc);
    let mut next = at;
    for i in 0..count {
        let (value, behind) = match value_in(alloc, input, next) {
            Ok(read) => read,
            Err(fault) => return Err(fault),
        };
        values.push(value)?;
        next = behind;
    }
    Ok((values, next))
}

/// Whether each value stands before the next by its bytes.
pub(crate) fn ascend(values: &[Bytes]) -> bool
    ensures { result ≡ is_ascending values.now }
{
    for i in 1..values.len() {
        if values[i - 1] >= values[i] {
            return false;
        }
    }
    true
}

/// Values behind their count of four bytes, ascending, each once.
#[tactic(auto, unfolding(crate::specs::FieldDecoders::values_at))]
pub(crate) fn values_in(
    alloc: Global,
    input: &[u8],
    at: usize,
) -> Result<(Items<Bytes>, usize), DecodeFault>
    ensures { Tells result (values_at input.now at) }
{
    let Some((count, start)) = take_u32(input, at) else {
        return Err(DecodeFault::Malformed);
    };
    let (values, next) = many_values_in(alloc, input, start, count)?;
    if !ascend(values.as_slice()) {
        return Err(DecodeFault::Malformed);
    }
    Ok((values, next))
}
