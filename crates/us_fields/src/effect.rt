//! Effects and writes: reading, writing, lengths.
ghost use Rattle.std.specs.Prelude.{◌≡◌, ◌++◌, IfOk};
ghost use Rattle.us_base.specs.Shape.{IsShape};
ghost use Rattle.us_fields.specs.DecodeResult.{Tells};
ghost use Rattle.us_fields.specs.Effects.{tags_encoding, TagsFit, tags_at};
ghost use Rattle.us_fields.specs.Effects.{effect_code, effect_fields, effect_encoding, EffectFits, effect_fields_at, effect_at};
ghost use Rattle.us_fields.specs.Effects.{writes_encoding, WritesFit, writes_at};

use crate::codes::{PLACES, effect_code};
use crate::values::value_in;
use crate::{DecodeFault, Field, Order, are_in_order, put_item, put_list, take_item, take_list};
use std::alloc::Global;
use us_base::Shape;
use us_kind::{Items, Memory, Tag};
use us_migrate::{put_tid, take_tid};
use us_value::{Effect, Write, effect_len, write_len};
use us_wire::{put_i64, put_u8, put_value, take_i64, take_u8, take_u8_between};

impl Field for Tag {
    ghost use Rattle.us_fields.specs.Effects.{tag_encoding, TagFits, tag_at};
    ghost use Rattle.us_value.specs.Lengths.{tag_length};

    ghost fits = { TagFits };

    ghost encoding = { λ shape. tag_encoding };

    ghost decoder = { tag_at };

    ghost size = { λ shape tag. tag_length };

    #[tactic(auto, unfolding(crate::specs::Effects::tag_at))]
    fn take(
        _alloc: Global,
        input: &[u8],
        at: usize,
        shape: Shape,
    ) -> Result<(Tag, usize), DecodeFault> {
        let Some((tid, at)) = take_tid(input, at, shape) else {
            return Err(DecodeFault::Malformed);
        };
        let Some((place, next)) = take_u8_between(input, at, 1, PLACES) else {
            return Err(DecodeFault::Malformed);
        };
        Ok((Tag { tid, place }, next))
    }

    fn put(&self, mut out: Vec<u8>, shape: Shape) -> Result<Vec<u8>, Memory> {
        put_tid(&mut out, shape, self.tid)?;
        put_u8(&mut out, self.place)?;
        Ok(out)
    }

    fn encoded_len(&self, _shape: Shape) -> usize {
        TAG
    }

    fn copied(&self) -> Result<Tag, Memory> {
        Ok(*self)
    }
}

/// The bytes of a tag.
const TAG: usize = 11;

/// Tags stand ascending, each once.
struct ByTag;

impl Order<Tag> for ByTag {
    ghost use Rattle.us_fields.specs.Effects.{tag_before};

    ghost before = { λ order. tag_before };

    fn may_precede(&self, item: &Tag, next: &Tag) -> bool {
        item < next
    }
}

/// Writes stand ascending by place, each place once.
struct ByPlace;

impl Order<Write> for ByPlace {
    ghost use Rattle.us_fields.specs.Effects.{write_before};

    ghost before = { λ order. write_before };

    fn may_precede(&self, item: &Write, next: &Write) -> bool {
        item.place < next.place
    }
}

/// Tags behind their count.
#[tactic(auto, unfolding(crate::specs::Effects::tags_at))]
fn tags_in(
    alloc: Global,
    input: &[u8],
    at: usize,
    shape: Shape,
) -> Result<(Items<Tag>, usize), DecodeFault>
    requires { IsShape shape }
    ensures { Tells result (tags_at shape input.now at) }
{
    let (tags, next) = take_list::<Tag>(alloc, input, at, 0, u16::MAX, shape)?;
    if !are_in_order(&ByTag, tags.as_slice()) {
        return Err(DecodeFault::Malformed);
    }
    Ok((tags, next))
}

/// The fields of the effect with this code.
#[tactic(auto, unfolding(crate::specs::Effects::effect_fields_at))]
fn effect_fields_in(
    alloc: Global,
    code: u8,
    input: &[u8],
    at: usize,
    shape: Shape,
) -> Result<(Effect, usize), DecodeFault>
    requires { IsShape shape }
    ensures { Tells result (effect_fields_at shape code input.now at) }
{
    match code {
        effect_code::REGISTER_WRITE => {
            let (value, next) = value_in(alloc, input, at)?;
            Ok((Effect::RegisterWrite { value }, next))
        }
        effect_code::COUNTER_ADD => match take_i64(input, at) {
            Some((amount, next)) => Ok((Effect::CounterAdd { amount }, next)),
            None => Err(DecodeFault::Malformed),
        },
        effect_code::SET_ADD => {
            let (value, next) = value_in(alloc, input, at)?;
            Ok((Effect::SetAdd { value }, next))
        }
        effect_code::SET_REMOVE => {
            let (value, at) = value_in(alloc, input, at)?;
            let (tags, next) = tags_in(alloc, input, at, shape)?;
            Ok((Effect::SetRemove { value, tags }, next))
        }
        effect_code::ENABLE => Ok((Effect::Enable, at)),
        effect_code::DISABLE => {
            let (tags, next) = tags_in(alloc, input, at, shape)?;
            Ok((Effect::Disable { tags }, next))
        }
        effect_code::MULTI_WRITE => {
            let (value, at) = value_in(alloc, input, at)?;
            let (tags, next) = tags_in(alloc, input, at, shape)?;
            Ok((Effect::MultiWrite { value, tags }, next))
        }
        _ => Err(DecodeFault::Malformed),
    }
}

/// The code of an effect.
fn code_of_effect(effect: &Effect) -> u8
    ensures { result ≡ effect_code effect.now }
{
    match effect {
        Effect::RegisterWrite { .. } => effect_code::REGISTER_WRITE,
        Effect::CounterAdd { .. } => effect_code::COUNTER_ADD,
        Effect::SetAdd { .. } => effect_code::SET_ADD,
        Effect::SetRemove { .. } => effect_code::SET_REMOVE,
        Effect::Enable => effect_code::ENABLE,
        Effect::Disable { .. } => effect_code::DISABLE,
        Effect::MultiWrite { .. } => effect_code::MULTI_WRITE,
    }
}

fn put_tags(out: Vec<u8>, tags: &Items<Tag>, shape: Shape) -> Result<Vec<u8>, Memory>
    requires shape { IsShape shape }
    requires fits { TagsFit shape tags.now }
    ensures { IfOk result (λ new. new.items ≡ out.items ++ tags_encoding tags.now) }
{
    put_list(out, tags.as_slice(), shape)
}

fn put_effect_fields(mut out: Vec<u8>, effect: &Effect, shape: Shape) -> Result<Vec<u8>, Memory>
    requires shape { IsShape shape }
    requires fits { EffectFits shape effect.now }
    ensures { IfOk result (λ new. new.items ≡ out.items ++ effect_fields effect.now) }
{
    match effect {
        Effect::RegisterWrite { value } | Effect::SetAdd { value } => {
            put_value(&mut out, value.as_slice())?;
            Ok(out)
        }
        Effect::CounterAdd { amount } => {
            put_i64(&mut out, *amount)?;
            Ok(out)
        }
        Effect::SetRemove { value, tags } | Effect::MultiWrite { value, tags } => {
            put_value(&mut out, value.as_slice())?;
            put_tags(out, tags, shape)
        }
        Effect::Enable => Ok(out),
        Effect::Disable { tags } => put_tags(out, tags, shape),
    }
}

impl Field for Effect {
    ghost use Rattle.us_fields.specs.Effects.{effect_encoding, EffectFits, effect_at};
    ghost use Rattle.us_value.specs.Lengths.{effect_length};

    ghost fits = { EffectFits };

    ghost encoding = { λ shape. effect_encoding };

    ghost decoder = { effect_at };

    ghost size = { λ shape. effect_length };

    #[tactic(auto, unfolding(crate::specs::Effects::effect_at))]
    fn take(
        alloc: Global,
        input: &[u8],
        at: usize,
        shape: Shape,
    ) -> Result<(Effect, usize), DecodeFault> {
        let Some((code, at)) = take_u8(input, at) else {
            return Err(DecodeFault::Malformed);
        };
        effect_fields_in(alloc, code, input, at, shape)
    }

    fn put(&self, mut out: Vec<u8>, shape: Shape) -> Result<Vec<u8>, Memory> {
        put_u8(&mut out, code_of_effect(self))?;
        put_effect_fields(out, self, shape)
    }

    fn encoded_len(&self, _shape: Shape) -> usize {
        effect_len(self)
    }

    fn copied(&self) -> Result<Effect, Memory> {
        self.copy()
    }
}

impl Field for Write {
    ghost use Rattle.us_fields.specs.Effects.{write_encoding, WriteFits, write_at};
    ghost use Rattle.us_value.specs.Lengths.{write_length};

    ghost fits = { WriteFits };

    ghost encoding = { λ shape. write_encoding };

    ghost decoder = { write_at };

    ghost size = { λ shape. write_length };

    #[tactic(auto, unfolding(crate::specs::Effects::write_at))]
    fn take(
        alloc: Global,
        input: &[u8],
        at: usize,
        shape: Shape,
    ) -> Result<(Write, usize), DecodeFault> {
        let (item, at) = take_item(alloc, input, at)?;
        let Some((place, at)) = take_u8_between(input, at, 1, PLACES) else {
            return Err(DecodeFault::Malformed);
        };
        let (effect, next) = Effect::take(alloc, input, at, shape)?;
        Ok((
            Write {
                item,
                place,
                effect,
            },
            next,
        ))
    }

    fn put(&self, out: Vec<u8>, shape: Shape) -> Result<Vec<u8>, Memory> {
        let mut out = put_item(out, &self.item)?;
        put_u8(&mut out, self.place)?;
        self.effect.put(out, shape)
    }

    fn encoded_len(&self, _shape: Shape) -> usize {
        write_len(self)
    }

    fn copied(&self) -> Result<Write, Memory> {
        self.copy()
    }
}

/// The writes that stand at the place, and the place behind them.
#[tactic(auto, unfolding(crate::specs::Effects::writes_at))]
pub fn take_writes(
    alloc: Global,
    input: &[u8],
    at: usize,
    shape: Shape,
) -> Result<(Items<Write>, usize), DecodeFault>
    requires { IsShape shape }
    ensures { Tells result (writes_at shape input.now at) }
{
    let (writes, next) = take_list::<Write>(alloc, input, at, 0, u16::from(PLACES), shape)?;
    if !are_in_order(&ByPlace, writes.as_slice()) {
        return Err(DecodeFault::Malformed);
    }
    Ok((writes, next))
}

/// The bytes, and the writes behind them.
pub fn put_writes(out: Vec<u8>, writes: &Items<Write>, shape: Shape) -> Result<Vec<u8>, Memory>
    requires shape { IsShape shape }
    requires fits { WritesFit shape writes.now }
    ensures { IfOk result (λ new. new.items ≡ out.items ++ writes_encoding writes.now) }
{
    put_list(out, writes.as_slice(), shape)
}
