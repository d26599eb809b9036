//! Lists behind a count of two bytes.
ghost use Rattle.std.specs.Prelude.{◌≡◌, ◌≤◌, ◌++◌, IfOk, length};
ghost use Rattle.std.specs.Int.{w16};
ghost use Rattle.std.specs.List.{AllByRecursion};
ghost use Rattle.us_base.specs.Shape.{IsShape};
ghost use Rattle.us_value.specs.Lengths.{capped};
ghost use Rattle.us_wire.specs.Decoders.{number_between_at, many_at, many_encoding};
ghost use Rattle.us_fields.specs.DecodeResult.{Tells};
ghost use Rattle.us_fields.specs.Lists.{list_at, list_encoding, longest_list};
ghost use Rattle.us_fields.specs.Lengths.{sum_of_sizes, list_length};

use crate::{DecodeFault, Field};
use std::alloc::Global;
use us_base::Shape;
use us_kind::{Items, Memory};
use us_wire::{put_u16, take_u16};

/// A number of two bytes within bounds, and the place behind it.
#[tactic(auto, unfolding(us_wire::specs::Decoders::number_between_at))]
fn count_in(input: &[u8], at: usize, least: u16, most: u16) -> Option<(u16, usize)>
    ensures { result ≡ number_between_at w16 least most input.now at }
{
    let (count, next) = take_u16(input, at)?;
    if count < least || most < count {
        return None;
    }
    Some((count, next))
}

/// So many items.
fn many_in<T: Field>(
    alloc: Global,
    input: &[u8],
    at: usize,
    count: u16,
    shape: Shape,
) -> Result<(Items<T>, usize), DecodeFault>
    requires { IsShape shape }
    ensures { Tells result (many_at (T.decoder shape) count input.now at) }
{
    let mut items = Items::new(alloc);
    let mut next = at;
    for i in 0..count {
        let (item, behind) = match T::take(alloc, input, next, shape) {
            Ok(read) => read,
            Err(fault) => return Err(fault),
        };
        items.push(item)?;
        next = behind;
    }
    Ok((items, next))
}

/// From `least` to `most` items behind their count, and the place behind them. An item takes at least one byte, so that no more
/// are read than the input has.
#[tactic(auto, unfolding(crate::specs::Lists::list_at))]
pub fn take_list<T: Field>(
    alloc: Global,
    input: &[u8],
    at: usize,
    least: u16,
    most: u16,
    shape: Shape,
) -> Result<(Items<T>, usize), DecodeFault>
    requires { IsShape shape }
    ensures { Tells result (list_at least most (T.decoder shape) input.now at) }
{
    let Some((count, at)) = count_in(input, at, least, most) else {
        return Err(DecodeFault::Malformed);
    };
    many_in(alloc, input, at, count, shape)
}

fn put_many<T: Field>(out: Vec<u8>, items: &[T], shape: Shape) -> Result<Vec<u8>, Memory>
    requires shape { IsShape shape }
    requires fits { AllByRecursion (T.fits shape) items.now }
    ensures { IfOk result (λ new. new.items ≡ out.items ++ many_encoding (T.encoding shape) items.now) }
{
    let mut out = out;
    for item in items {
        out = item.put(out, shape)?;
    }
    Ok(out)
}

/// The bytes, and the items behind their count.
pub fn put_list<T: Field>(out: Vec<u8>, items: &[T], shape: Shape) -> Result<Vec<u8>, Memory>
    requires shape { IsShape shape }
    requires count { length items.now ≤ longest_list }
    requires fits { AllByRecursion (T.fits shape) items.now }
    ensures { IfOk result (λ new. new.items ≡ out.items ++ list_encoding (T.encoding shape) items.now) }
{
    let mut out = out;
    put_u16(&mut out, items.len() as u16)?;
    put_many(out, items, shape)
}

/// How many bytes encode the items, their count among them.
pub fn list_len<T: Field>(items: &[T], shape: Shape) -> usize
    requires { IsShape shape }
    ensures { result ≡ capped (list_length (T.size shape) items.now) }
{
    let mut total: usize = 0;
    for item in items {
        total = total.saturating_add(item.encoded_len(shape));
    }
    total.saturating_add(2)
}

/// A copy of the list, whose memory is the same allocator's.
pub fn copies_of<T: Field>(items: &Items<T>) -> Result<Items<T>, Memory>
    ensures { IfOk result (λ copies. copies ≡ items.now) }
{
    let mut copies = Items::new(items.allocator());
    for item in items.as_slice() {
        copies.push(item.copied()?)?;
    }
    Ok(copies)
}
