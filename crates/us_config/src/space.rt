ghost use Rattle.std.specs.Prelude.{◌≡◌, [], false, option_map, IfOk};
ghost use Rattle.toml.specs.Data.{as_str};
ghost use Rattle.toml.specs.View.{view, table_view, array_view};
ghost use Rattle.us_value.specs.Catalogs.{EachSpaceOnce};
ghost use Rattle.us_config.specs.Assembly.{kinds_of};
ghost use Rattle.us_config.specs.Keywords.{kind_in, class_for, pair_for};
ghost use Rattle.us_config.specs.Meaning.{is_taken, or_one_register};
ghost use Rattle.us_config.specs.Values.{Says, gathered, each_by};
ghost use Rattle.us_config.specs.Spaces.{number_said, kind_said, conflicts_said, space_in, space_step, spaces_said};

use crate::fault::{Key, ReadFault, wrong_value};
use crate::keywords::{class_named, kind_named};
use crate::tables::{check_keys, member_at};
use crate::values::{Range, whole_in};
use std::alloc::Global;
use toml::value::Array;
use toml::{Table, Value};
use us_kind::{Items, Memory};
use us_value::{Class, Kind, kind_has};

/// What a configuration says of a space.
#[derive(Drop)]
pub struct Space {
    /// Its number, 1 to 255.
    pub number: u8,
    /// What its items are.
    pub kind: Kind,
    /// The classes whose operations on one item conflict.
    pub conflicts: Items<(Class, Class)>,
}

/// The numbers that a space may have.
const NUMBERS: Range = Range { low: 1, high: 255 };

/// The spaces of a configuration, from the value of its key `space`, where it has one: space 1 of registers where it
/// has none.
///
/// # Errors
///
/// The value no list, or the first fault of the first faulty space: no table; another key; `number`, `kind`,
/// `conflicts`; or `Memory`.
pub fn spaces_of(alloc: Global, value: Option<&Value>) -> Result<Items<Space>, ReadFault>
    ensures exact { Says result (spaces_said (option_map (λ value. view value.now) value.entry)) }
    ensures once { IfOk result (λ spaces. EachSpaceOnce (kinds_of spaces)) }
{
    let Some(value) = value else {
        return Ok(or_one_register(alloc, Items::new(alloc))?);
    };
    let Some(array) = value.as_array() else {
        return Err(wrong_value(Key::Space));
    };
    let spaces = listed_spaces(alloc, array)?;
    Ok(or_one_register(alloc, spaces)?)
}

fn or_one_register(alloc: Global, mut spaces: Items<Space>) -> Result<Items<Space>, Memory>
    requires { EachSpaceOnce (kinds_of spaces) }
    ensures exact { IfOk result (λ all. all ≡ or_one_register spaces) }
    ensures once { IfOk result (λ all. EachSpaceOnce (kinds_of all)) }
{
    if spaces.is_empty() {
        spaces.push(Space {
            number: 1,
            kind: Kind::Register,
            conflicts: Items::new(alloc),
        })?;
    }
    Ok(spaces)
}

fn listed_spaces(alloc: Global, array: &Array) -> Result<Items<Space>, ReadFault>
    ensures exact { Says result (gathered space_step [] (array_view array.now)) }
    ensures once { IfOk result (λ spaces. EachSpaceOnce (kinds_of spaces)) }
{
    let mut spaces = Items::new(alloc);
    for value in array {
        let space = space_of(alloc, spaces.as_slice(), value)?;
        spaces.push(space)?;
    }
    Ok(spaces)
}

fn space_of(alloc: Global, earlier: &[Space], value: &Value) -> Result<Space, ReadFault>
    ensures exact { Says result (space_step earlier.now (view value.now)) }
    ensures free { IfOk result (λ space. is_taken earlier.now space.number ≡ false) }
{
    match value.as_table() {
        Some(table) => space_in(alloc, earlier, table),
        None => Err(wrong_value(Key::Space)),
    }
}

#[tactic(auto, unfolding(crate::specs::Spaces::space_in))]
fn space_in(alloc: Global, earlier: &[Space], table: &Table) -> Result<Space, ReadFault>
    ensures exact { Says result (space_in earlier.now (table_view table.now)) }
    ensures free { IfOk result (λ space. is_taken earlier.now space.number ≡ false) }
{
    check_keys(Key::Space, &["number", "kind", "conflicts"], table)?;
    let number = number_of(earlier, member_at(table, "number"))?;
    let kind = kind_of(member_at(table, "kind"))?;
    let conflicts = conflicts_of(alloc, kind, member_at(table, "conflicts"))?;
    Ok(Space {
        number,
        kind,
        conflicts,
    })
}

fn number_of(earlier: &[Space], value: Option<&Value>) -> Result<u8, ReadFault>
    ensures exact { result ≡ number_said earlier.now (option_map (λ value. view value.now) value.entry) }
    ensures free { IfOk result (λ number. is_taken earlier.now number ≡ false) }
{
    let Some(value) = value else {
        return Err(wrong_value(Key::SpaceNumber));
    };
    let number = whole_in(Key::SpaceNumber, NUMBERS, value.as_integer())?;
    let number = number as u8;
    if is_taken(earlier, number) {
        return Err(wrong_value(Key::SpaceNumber));
    }
    Ok(number)
}

fn is_taken(earlier: &[Space], number: u8) -> bool
    ensures { result ≡ is_taken earlier.now number }
{
    earlier.iter().any(|space| space.number == number)
}

fn kind_of(value: Option<&Value>) -> Result<Kind, ReadFault>
    ensures { result ≡ kind_said (option_map (λ value. view value.now) value.entry) }
{
    let Some(value) = value else {
        return Err(wrong_value(Key::SpaceKind));
    };
    kind_in(value).ok_or(wrong_value(Key::SpaceKind))
}

fn kind_in(value: &Value) -> Option<Kind>
    ensures { result ≡ kind_in (as_str (view value.now)) }
{
    kind_named(value.as_str()?)
}

fn conflicts_of(
    alloc: Global,
    kind: Kind,
    value: Option<&Value>,
) -> Result<Items<(Class, Class)>, ReadFault>
    ensures { Says result (conflicts_said kind (option_map (λ value. view value.now) value.entry)) }
{
    let Some(value) = value else {
        return Ok(Items::new(alloc));
    };
    let Some(array) = value.as_array() else {
        return Err(wrong_value(Key::SpaceConflicts));
    };
    listed_pairs(alloc, kind, array)
}

fn listed_pairs(
    alloc: Global,
    kind: Kind,
    array: &Array,
) -> Result<Items<(Class, Class)>, ReadFault>
    ensures { Says result (gathered (each_by Key.SpaceConflicts (pair_for kind)) [] (array_view array.now)) }
{
    let mut pairs = Items::new(alloc);
    for value in array {
        let Some(pair) = pair_of(kind, value) else {
            return Err(wrong_value(Key::SpaceConflicts));
        };
        pairs.push(pair)?;
    }
    Ok(pairs)
}

fn pair_of(kind: Kind, value: &Value) -> Option<(Class, Class)>
    ensures { result ≡ pair_for kind (view value.now) }
{
    let [one, other] = value.as_array()?.as_slice() else {
        return None;
    };
    Some((class_of(kind, one)?, class_of(kind, other)?))
}

fn class_of(kind: Kind, value: &Value) -> Option<Class>
    ensures { result ≡ class_for kind (as_str (view value.now)) }
{
    let class = class_named(value.as_str()?)?;
    if !kind_has(kind, class) {
        return None;
    }
    Some(class)
}
