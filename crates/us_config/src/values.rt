ghost use Rattle.std.specs.Prelude.{◌≡◌, ◌≤◌, IfOk, option_map};
ghost use Rattle.toml.specs.Data.{as_integer};
ghost use Rattle.toml.specs.View.{view};
ghost use Rattle.us_config.specs.Values.{whole_of, whole_or};

use crate::fault::{ConfigFault, Key, ReadFault};
use toml::Value;

/// A range of whole numbers, with its ends.
#[derive(Clone, Copy)]
pub struct Range {
    pub low: u64,
    pub high: u64,
}

/// The whole number in its range, or the default where the key is absent.
pub fn whole_number(
    key: Key,
    range: Range,
    default: u64,
    value: Option<&Value>,
) -> Result<u64, ReadFault>
    requires low { range.low ≤ default }
    requires high { default ≤ range.high }
    ensures exact { result ≡ whole_or key range.low range.high default (option_map (λ value. view value.now) value.entry) }
    ensures within { IfOk result (λ n. (range.low ≤ n) × (n ≤ range.high)) }
{
    match value {
        None => Ok(default),
        Some(value) => whole_in(key, range, value.as_integer()),
    }
}

/// The whole number in its range.
pub fn whole_in(key: Key, range: Range, number: Option<i64>) -> Result<u64, ReadFault>
    ensures exact { result ≡ whole_of key range.low range.high number }
    ensures within { IfOk result (λ n. (range.low ≤ n) × (n ≤ range.high)) }
{
    let Some(number) = number else {
        return Err(ReadFault::Refused {
            key,
            fault: ConfigFault::WrongValue,
        });
    };
    match u64::try_from(number) {
        Ok(number) if range.low <= number && number <= range.high => Ok(number),
        _ => Err(ReadFault::Refused {
            key,
            fault: ConfigFault::OutOfLimit,
        }),
    }
}
