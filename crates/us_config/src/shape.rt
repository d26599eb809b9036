ghost use Rattle.std.specs.Prelude.{◌≡◌, ◌/◌, IfOk};
ghost use Rattle.toml.specs.View.{table_view};
ghost use Rattle.us_base.specs.Shape.{IsShape};
ghost use Rattle.us_config.specs.Shape.{lost_of, shape_in};

use crate::fault::{ConfigFault, Key, ReadFault};
use crate::tables::member_at;
use crate::values::{Range, whole_number};
use toml::Table;
use us_base::Shape;

/// How many sites and partitions the table says: 1 of each where it says none.
///
/// # Errors
///
/// The first of: `sites`, `partitions` no whole number or out of its range.
pub fn shape_of(table: &Table) -> Result<Shape, ReadFault>
    ensures exact { result ≡ shape_in (table_view table.now) }
    ensures shape { IfOk result (λ shape. IsShape shape) }
{
    let sites = Range { low: 1, high: 7 };
    let sites = whole_number(Key::Sites, sites, 1, member_at(table, "sites"))?;
    let f = lost(sites)?;
    let parts = Range { low: 1, high: 16 };
    let parts = whole_number(Key::Partitions, parts, 1, member_at(table, "partitions"))?;
    Ok(Shape {
        f: f as u8,
        parts: parts as u8,
    })
}

fn lost(sites: u64) -> Result<u64, ReadFault>
    ensures exact { result ≡ lost_of sites }
    ensures half { IfOk result (λ f. f ≡ sites / 2) }
{
    if sites % 2 != 1 {
        return Err(ReadFault::Refused {
            key: Key::Sites,
            fault: ConfigFault::OutOfLimit,
        });
    }
    Ok(sites / 2)
}
