ghost use Rattle.std.specs.Prelude.{◌≡◌, IfOk};
ghost use Rattle.us_value.specs.Items.{item_eq};

use crate::Effect;
use std::hash::{Hash, Hasher};
use us_kind::{Bytes, Memory};

/// An item: its space, 1 to 255, and its id of 1 to 64 bytes there.
#[derive(Debug, Drop)]
pub struct Item {
    pub space: u8,
    pub id: Bytes,
}

impl Item {
    /// Whether the two are the same item.
    pub fn same(&self, other: &Item) -> bool
        ensures { result ≡ item_eq self.now other.now }
    {
        self.space == other.space && self.id.same(&other.id)
    }

    pub fn copy(&self) -> Result<Item, Memory>
        ensures { IfOk result (λ copy. copy ≡ self.now) }
    {
        Ok(Item {
            space: self.space,
            id: self.id.copy()?,
        })
    }
}

impl PartialEq for Item {
    ghost use Rattle.us_value.specs.Items.{item_eq};
    ghost use Rattle.us_value.specs.SameItem.{item_partial_equivalence};

    ghost eq = { item_eq };

    ghost laws = { item_partial_equivalence };

    fn eq(&self, other: &Item) -> bool {
        self.same(other)
    }
}

impl Eq for Item {
    ghost use Rattle.us_value.specs.SameItem.{item_equivalence};

    ghost laws = { item_equivalence };
}

impl Hash for Item {
    ghost use Rattle.std.specs.Prelude.{◌++◌};
    ghost use Rattle.std.specs.Hash as fed;
    ghost use Rattle.us_value.specs.SameItem.{item_hash-Alike};

    ghost hash_input = { λ item. fed.u8 item.space ++ fed.slice fed.u8 item.id };

    ghost respects_eq = { item_hash-Alike };

    fn hash<H: Hasher>(&self, state: &mut H) {
        self.space.hash(state);
        self.id.as_slice().hash(state);
    }
}

/// The effect on an item of the operation at a place, from 1, of its transaction.
#[derive(Debug, PartialEq, Eq, Drop)]
pub struct Write {
    pub item: Item,
    pub place: u8,
    pub effect: Effect,
}

impl Write {
    pub fn copy(&self) -> Result<Write, Memory>
        ensures { IfOk result (λ copy. copy ≡ self.now) }
    {
        Ok(Write {
            item: self.item.copy()?,
            place: self.place,
            effect: self.effect.copy()?,
        })
    }
}
