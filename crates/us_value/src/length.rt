//! How many bytes encode an answer or a write. A length that passes `usize` is answered as its greatest number.
ghost use Rattle.std.specs.Prelude.{◌≡◌, ◌+◌};
ghost use Rattle.us_value.specs.Lengths.{capped, value_length, item_length, tags_length, all_lengths, answer_length, effect_length, write_length};

use crate::{Answer, Effect, Item, Write};
use us_kind::{Bytes, Items, Tag};

/// The bytes of a tag.
const TAG: usize = 11;

fn value_len(value: &Bytes) -> usize
    ensures { result ≡ capped (value_length value.now) }
{
    value.len().saturating_add(2)
}

fn item_len(item: &Item) -> usize
    ensures { result ≡ capped (item_length item.now) }
{
    item.id.len().saturating_add(2)
}

fn tags_len(tags: &Items<Tag>) -> usize
    ensures { result ≡ capped (tags_length tags.now) }
{
    tags.len().saturating_mul(TAG).saturating_add(2)
}

/// The values, one after another.
fn values_len(values: &[Bytes]) -> usize
    ensures { result ≡ capped (all_lengths values.now) }
{
    let mut total: usize = 0;
    for value in values {
        total = total.saturating_add(value_len(value));
    }
    total
}

/// The bytes of an answer: a code and its fields.
pub fn answer_len(answer: &Answer) -> usize
    ensures { result ≡ capped (answer_length answer.now) }
{
    match answer {
        Answer::Done | Answer::Nothing => 1,
        Answer::Value { value } => value_len(value).saturating_add(1),
        Answer::Number { .. } => 17,
        Answer::Values { values } => values_len(values.as_slice()).saturating_add(5),
        Answer::Bit { .. } => 2,
    }
}

/// The bytes of an effect: a code and its fields.
pub fn effect_len(effect: &Effect) -> usize
    ensures { result ≡ capped (effect_length effect.now) }
{
    match effect {
        Effect::RegisterWrite { value } | Effect::SetAdd { value } => {
            value_len(value).saturating_add(1)
        }
        Effect::CounterAdd { .. } => 9,
        Effect::SetRemove { value, tags } | Effect::MultiWrite { value, tags } => {
            value_len(value)
                .saturating_add(tags_len(tags))
                .saturating_add(1)
        }
        Effect::Enable => 1,
        Effect::Disable { tags } => tags_len(tags).saturating_add(1),
    }
}

/// The bytes of a write: its item, its place and its effect.
pub fn write_len(write: &Write) -> usize
    ensures { result ≡ capped (write_length write.now) }
{
    item_len(&write.item)
        .saturating_add(effect_len(&write.effect))
        .saturating_add(1)
}
