ghost use Rattle.std.specs.Prelude.{◌≡◌, ℕ, IfOk};
ghost use Rattle.std.specs.BTreeMap.{get};
ghost use Rattle.std.specs.Ordering.{nat_cmp};
ghost use Rattle.us_value.specs.Catalogs.{kind_in, EachSpaceOnce};

use crate::Kind;
use std::alloc::Global;
use std::collections::BTreeMap;
use std::marker::Model;
use us_kind::{Items, Memory};

/// The spaces and what their items are. Contracts see the list of both.
#[derive(Drop)]
pub struct Catalog {
    spaces: Items<(u8, Kind)>,
    kinds: BTreeMap<u8, Kind>,
}

impl Model for Catalog {
    ghost use Rattle.std.specs.Prelude.{◌≡◌, ℕ, List};
    ghost use Rattle.std.specs.BTreeMap.{get};
    ghost use Rattle.std.specs.Ordering.{nat_cmp};
    ghost use Rattle.us_value.specs.Catalogs.{kind_in};
    ghost use Rattle.us_value.specs.declared.operation.Kind.{Kind};

    ghost Value = { List (ℕ × Kind) };

    ghost view = { λ c. c.spaces };

    ghost invariant = { λ c. (n : ℕ) → get nat_cmp c.kinds n ≡ kind_in c.spaces n };
}

/// The kinds by space: of pairs with one space the first counts.
fn kinds_of(alloc: Global, spaces: &[(u8, Kind)]) -> Result<BTreeMap<u8, Kind>, Memory>
    ensures { IfOk result (λ kinds. (n : ℕ) → get nat_cmp kinds n ≡ kind_in spaces.now n) }
{
    let mut kinds = BTreeMap::new(alloc);
    let mut left = spaces.len();
    while left > 0 {
        left -= 1;
        let (space, kind) = spaces[left];
        kinds.insert(space, kind)?;
    }
    Ok(kinds)
}

impl Catalog {
    /// A catalogue of these spaces, each of which stands once.
    pub fn new(alloc: Global, spaces: &[(u8, Kind)]) -> Result<Catalog, Memory>
        requires { EachSpaceOnce spaces.now }
        ensures { IfOk result (λ catalog. catalog ≡ spaces.now) }
    {
        let kinds = kinds_of(alloc, spaces)?;
        let spaces = Items::of(Vec::from_slice(alloc, spaces)?);
        Ok(Catalog { spaces, kinds })
    }

    /// The kind of a space, None exactly where there is no such space.
    pub fn kind_of(&self, space: u8) -> Option<Kind>
        ensures { result ≡ kind_in self.now space }
    {
        self.kinds.get(&space).copied()
    }

    pub fn copy(&self) -> Result<Catalog, Memory>
        ensures { IfOk result (λ copy. copy ≡ self.now) }
    {
        Ok(Catalog {
            spaces: self.spaces.clone()?,
            kinds: self.kinds.clone()?,
        })
    }
}
