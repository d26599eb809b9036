ghost use Rattle.std.specs.Prelude.{◌≡◌, ◌++◌, IfOk, OnOk};
ghost use Rattle.us_value.specs.Catalogs.{EachSpaceOnce};
ghost use Rattle.us_config.specs.Assembly.{assembled, kinds_of, pairs_in, pairs_of};

use crate::config::Config;
use crate::node::NodePlan;
use crate::space::Space;
use std::alloc::{AllocError, Global};
use us_base::Shape;
use us_conflict::Conflicts;
use us_kind::Memory;
use us_value::{Catalog, Class, Kind};

/// The configuration of these spaces, each of which stands once.
pub fn assembled(
    alloc: Global,
    shape: Shape,
    spaces: &[Space],
    plan: NodePlan,
) -> Result<Config, Memory>
    requires { EachSpaceOnce (kinds_of spaces.now) }
    ensures { IfOk result (λ config. config ≡ assembled shape spaces.now plan) }
{
    let kinds = kinds_of(alloc, spaces)?;
    let pairs = pairs_of(alloc, spaces)?;
    Ok(Config {
        shape,
        catalog: Catalog::new(alloc, kinds.as_slice())?,
        conflicts: Conflicts::new(alloc, pairs.as_slice())?,
        plan,
    })
}

/// Each space with its kind.
fn kinds_of(alloc: Global, spaces: &[Space]) -> Result<Vec<(u8, Kind)>, AllocError>
    ensures { IfOk result (λ kinds. kinds.items ≡ kinds_of spaces.now) }
{
    spaces
        .iter()
        .map(|space| (space.number, space.kind))
        .collect(alloc)
}

/// The classes that conflict, each pair with the number of its space.
fn pairs_of(alloc: Global, spaces: &[Space]) -> Result<Vec<(u8, Class, Class)>, AllocError>
    ensures { IfOk result (λ pairs. pairs.items ≡ pairs_of spaces.now) }
{
    let mut pairs = Vec::new(alloc);
    for space in spaces {
        add_pairs(&mut pairs, space)?;
    }
    Ok(pairs)
}

fn add_pairs(pairs: &mut Vec<(u8, Class, Class)>, space: &Space) -> Result<(), AllocError>
    ensures { OnOk result (pairs.new.items ≡ pairs.old.items ++ pairs_in space.now) }
{
    for (one, other) in space.conflicts.as_slice() {
        pairs.push((space.number, *one, *other))?;
    }
    Ok(())
}
