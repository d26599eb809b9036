//! Pairs and triples of which packets hold lists.
ghost use Rattle.std.specs.Prelude.{◌≡◌, ℕ, List};
ghost use Rattle.us_base.specs.Shape.{IsShape};
ghost use Rattle.us_fields.specs.DecodeResult.{Tells};
ghost use Rattle.us_fields.specs.Lengths.{vector_length};
ghost use Rattle.us_fields.specs.Tuples.{class_code, class_fields_at, class_at};

use crate::codes::class_code;
use crate::{
    DecodeFault, Field, copies_of, list_len, put_item, put_writes, take_item, take_writes,
};
use std::alloc::Global;
use us_base::{Shape, Vector};
use us_kind::{Items, Memory, Tid};
use us_migrate::{put_tid, put_vector, take_tid, take_vector};
use us_value::{Class, Effect, Item, Write};
use us_wire::{put_u8, take_u8};

/// The bytes of a transaction.
pub const TID_LEN: usize = 10;

/// What was read, unless nothing could be.
pub fn found<T: Drop>(read: Option<T>) -> Result<T, DecodeFault>
    ensures { Tells result read }
{
    match read {
        Some(read) => Ok(read),
        None => Err(DecodeFault::Malformed),
    }
}

/// The bytes of a vector.
pub fn vector_len(shape: Shape) -> usize
    requires { IsShape shape }
    ensures { result ≡ vector_length shape }
{
    8 * (usize::from(shape.sites()) + 1)
}

/// A transaction's own effect, with its place.
impl Field for (u8, Effect) {
    ghost use Rattle.us_fields.specs.Tuples.{own_encoding, OwnFits, own_at};
    ghost use Rattle.us_fields.specs.Lengths.{own_length};

    ghost fits = { OwnFits };

    ghost encoding = { λ shape. own_encoding };

    ghost decoder = { own_at };

    ghost size = { λ shape. own_length };

    #[tactic(auto, unfolding(crate::specs::Tuples::own_at))]
    fn take(
        alloc: Global,
        input: &[u8],
        at: usize,
        shape: Shape,
    ) -> Result<((u8, Effect), usize), DecodeFault> {
        let (place, at) = found(take_u8(input, at))?;
        let (effect, next) = Effect::take(alloc, input, at, shape)?;
        Ok(((place, effect), next))
    }

    fn put(&self, mut out: Vec<u8>, shape: Shape) -> Result<Vec<u8>, Memory> {
        put_u8(&mut out, self.0)?;
        self.1.put(out, shape)
    }

    fn encoded_len(&self, shape: Shape) -> usize {
        self.1.encoded_len(shape).saturating_add(1)
    }

    fn copied(&self) -> Result<(u8, Effect), Memory> {
        Ok((self.0, self.1.copy()?))
    }
}

/// The class with this code.
#[tactic(auto, unfolding(crate::specs::Tuples::class_fields_at))]
fn class_of_code(code: u8, at: usize) -> Option<(Class, usize)>
    ensures { (input : List ℕ) → result ≡ class_fields_at code input at }
{
    match code {
        class_code::READ => Some((Class::Read, at)),
        class_code::WRITE => Some((Class::Write, at)),
        class_code::GIVE => Some((Class::Give, at)),
        class_code::TAKE => Some((Class::Take, at)),
        class_code::ADD => Some((Class::Add, at)),
        class_code::REMOVE => Some((Class::Remove, at)),
        class_code::ENABLE => Some((Class::Enable, at)),
        class_code::DISABLE => Some((Class::Disable, at)),
        _ => None,
    }
}

/// A class, and the place behind it.
#[tactic(auto, unfolding(crate::specs::Tuples::class_at))]
fn class_in(input: &[u8], at: usize) -> Option<(Class, usize)>
    ensures { result ≡ class_at input.now at }
{
    let (code, at) = take_u8(input, at)?;
    class_of_code(code, at)
}

/// The code of a class.
fn code_of_class(class: Class) -> u8
    ensures { result ≡ class_code class }
{
    match class {
        Class::Read => class_code::READ,
        Class::Write => class_code::WRITE,
        Class::Give => class_code::GIVE,
        Class::Take => class_code::TAKE,
        Class::Add => class_code::ADD,
        Class::Remove => class_code::REMOVE,
        Class::Enable => class_code::ENABLE,
        Class::Disable => class_code::DISABLE,
    }
}

/// An item that a transaction touches, and the class of what it does there.
impl Field for (Item, Class) {
    ghost use Rattle.us_fields.specs.Tuples.{touch_encoding, TouchFits, touch_at};
    ghost use Rattle.us_fields.specs.Lengths.{touch_length};

    ghost fits = { λ shape. TouchFits };

    ghost encoding = { λ shape. touch_encoding };

    ghost decoder = { λ shape. touch_at };

    ghost size = { λ shape. touch_length };

    #[tactic(auto, unfolding(crate::specs::Tuples::touch_at))]
    fn take(
        alloc: Global,
        input: &[u8],
        at: usize,
        _shape: Shape,
    ) -> Result<((Item, Class), usize), DecodeFault> {
        let (item, at) = take_item(alloc, input, at)?;
        let (class, next) = found(class_in(input, at))?;
        Ok(((item, class), next))
    }

    fn put(&self, out: Vec<u8>, _shape: Shape) -> Result<Vec<u8>, Memory> {
        let mut out = put_item(out, &self.0)?;
        put_u8(&mut out, code_of_class(self.1))?;
        Ok(out)
    }

    fn encoded_len(&self, _shape: Shape) -> usize {
        self.0.id.len().saturating_add(3)
    }

    fn copied(&self) -> Result<(Item, Class), Memory> {
        Ok((self.0.copy()?, self.1))
    }
}

/// A committed transaction: its vector and its writes.
impl Field for (Tid, Vector, Items<Write>) {
    ghost use Rattle.us_fields.specs.Tuples.{committed_encoding, CommittedFits, committed_at};
    ghost use Rattle.us_fields.specs.Lengths.{committed_length};

    ghost fits = { CommittedFits };

    ghost encoding = { committed_encoding };

    ghost decoder = { committed_at };

    ghost size = { committed_length };

    #[tactic(auto, unfolding(crate::specs::Tuples::committed_at))]
    fn take(
        alloc: Global,
        input: &[u8],
        at: usize,
        shape: Shape,
    ) -> Result<((Tid, Vector, Items<Write>), usize), DecodeFault> {
        let (tid, at) = found(take_tid(input, at, shape))?;
        let (vector, at) = found(take_vector(input, at, shape))?;
        let (writes, next) = take_writes(alloc, input, at, shape)?;
        Ok(((tid, vector, writes), next))
    }

    fn put(&self, mut out: Vec<u8>, shape: Shape) -> Result<Vec<u8>, Memory> {
        put_tid(&mut out, shape, self.0)?;
        put_vector(&mut out, shape, &self.1)?;
        put_writes(out, &self.2, shape)
    }

    fn encoded_len(&self, shape: Shape) -> usize {
        list_len(self.2.as_slice(), shape).saturating_add(TID_LEN + vector_len(shape))
    }

    fn copied(&self) -> Result<(Tid, Vector, Items<Write>), Memory> {
        Ok((self.0, self.1, copies_of(&self.2)?))
    }
}
