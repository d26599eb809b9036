ghost use Rattle.std.specs.Prelude.{◌≡◌, option_map};
ghost use Rattle.std.specs.Int.{w8, w16, w32, w64, w128};
ghost use Rattle.us_wire.specs.Fields.{number_at, integer_at, value_at};
ghost use Rattle.us_wire.specs.Decoders.{number_between_at, largest_number};

use crate::{LARGEST_NUMBER, LONGEST_VALUE};

/// A byte, and the place behind it.
pub fn take_u8(input: &[u8], at: usize) -> Option<(u8, usize)>
    ensures { result ≡ number_at w8 input.now at }
{
    let byte = input.get(at)?;
    Some((*byte, at + 1))
}

/// A number of two bytes, the highest first, and the place behind it.
pub fn take_u16(input: &[u8], at: usize) -> Option<(u16, usize)>
    ensures { result ≡ number_at w16 input.now at }
{
    let field = input.get(at..)?.first_chunk::<2>()?;
    Some((u16::from_be_bytes(*field), at + 2))
}

/// A number of four bytes, the highest first, and the place behind it.
pub fn take_u32(input: &[u8], at: usize) -> Option<(u32, usize)>
    ensures { result ≡ number_at w32 input.now at }
{
    let field = input.get(at..)?.first_chunk::<4>()?;
    Some((u32::from_be_bytes(*field), at + 4))
}

/// A number of eight bytes, the highest first, and the place behind it.
pub fn take_u64(input: &[u8], at: usize) -> Option<(u64, usize)>
    ensures { result ≡ number_at w64 input.now at }
{
    let field = input.get(at..)?.first_chunk::<8>()?;
    Some((u64::from_be_bytes(*field), at + 8))
}

/// A number of eight bytes in two's complement, the highest first, and the place behind it.
pub fn take_i64(input: &[u8], at: usize) -> Option<(i64, usize)>
    ensures { result ≡ integer_at w64 input.now at }
{
    let field = input.get(at..)?.first_chunk::<8>()?;
    Some((i64::from_be_bytes(*field), at + 8))
}

/// A number of sixteen bytes in two's complement, the highest first, and the place behind it.
pub fn take_i128(input: &[u8], at: usize) -> Option<(i128, usize)>
    ensures { result ≡ integer_at w128 input.now at }
{
    let field = input.get(at..)?.first_chunk::<16>()?;
    Some((i128::from_be_bytes(*field), at + 16))
}

/// A value of at most 1,024 bytes behind its length of two bytes, and the place behind it.
pub fn take_value(input: &[u8], at: usize) -> Option<(&[u8], usize)>
    ensures { option_map (λ read. (read.0.now, read.1)) result ≡ value_at input.now at }
{
    let (len, start) = take_u16(input, at)?;
    let len = usize::from(len);
    if LONGEST_VALUE < len || input.len() - start < len {
        return None;
    }
    Some((&input[start..start + len], start + len))
}

/// A byte from `least` to `most`, and the place behind it.
#[tactic(auto, unfolding(crate::specs::Decoders::number_between_at))]
pub fn take_u8_between(input: &[u8], at: usize, least: u8, most: u8) -> Option<(u8, usize)>
    ensures { result ≡ number_between_at w8 least most input.now at }
{
    let (byte, next) = take_u8(input, at)?;
    if byte < least || most < byte {
        return None;
    }
    Some((byte, next))
}

/// A number of eight bytes, at least `least` and at most 2^62, and the place behind it.
#[tactic(auto, unfolding(crate::specs::Decoders::number_between_at))]
pub fn take_number(input: &[u8], at: usize, least: u64) -> Option<(u64, usize)>
    ensures { result ≡ number_between_at w64 least largest_number input.now at }
{
    let (number, next) = take_u64(input, at)?;
    if number < least || LARGEST_NUMBER < number {
        return None;
    }
    Some((number, next))
}
