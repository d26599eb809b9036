ghost use Rattle.std.specs.Prelude.{◌≡◌, Ok, option_map, map, string_bytes, List};
ghost use Rattle.std.specs.BTreeMap.{keys};
ghost use Rattle.std.specs.List.{list_any, list_all};
ghost use Rattle.std.specs.Str.{bytes_eq};
ghost use Rattle.toml.specs.Data.{get_member};
ghost use Rattle.toml.specs.View.{view, table_view};
ghost use Rattle.us_config.specs.Values.{only};

use crate::fault::{ConfigFault, Key, ReadFault};
use toml::{Table, Value};

/// The value at a key of a table.
pub fn member_at<'a>(table: &'a Table, key: &str) -> Option<&'a Value>
    ensures { option_map (λ value. view value.now) result ≡ get_member key.now (table_view table.now) }
{
    table.get(key)
}

/// Refuses a table that has another key than these.
pub fn check_keys(key: Key, names: &[&str], table: &Table) -> Result<(), ReadFault>
    ensures { result ≡ only key (map (λ name. name.now) names.now) (table_view table.now) }
{
    if !has_only_keys(table, names) {
        return Err(ReadFault::Refused {
            key,
            fault: ConfigFault::WrongKey,
        });
    }
    Ok(())
}

fn has_only_keys(table: &Table, names: &[&str]) -> bool
    ensures { result ≡ list_all (λ key. list_any (λ name. bytes_eq (string_bytes key) name.now) names.now) (keys table.now) }
{
    table.keys().all(|key| is_one_of(key.as_str(), names))
}

fn is_one_of(key: &str, names: &[&str]) -> bool
    ensures { result ≡ list_any (λ name. bytes_eq key.now name.now) names.now }
{
    names.iter().any(|name| key == *name)
}
