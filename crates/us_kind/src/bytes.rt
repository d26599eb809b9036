ghost use Rattle.std.specs.Prelude.{◌≡◌, IfOk, length};
ghost use Rattle.std.specs.Prelude.{◌==◌};
ghost use Rattle.std.proofs.Common.{rules};
ghost use Rattle.std.specs.Cmp.{partial_order_from_own_ties};
ghost use Rattle.std.specs.Cmp.Rules.{comparing};
ghost use Rattle.std.specs.Cmp.Lexicographic.{pointwise, slice_cmp};
ghost use Rattle.std.specs.Ordering.{nat_cmp, as_partial_cmp};
ghost use Rattle.us_kind.specs.Comparison.{bytes_eq};

use crate::Memory;
use std::alloc::{AllocError, Global};
use std::cmp::Ordering;
use std::marker::Model;

/// A list of bytes, which contracts see as that. They are ordered as words in a dictionary.
#[derive(Debug, Drop)]
pub struct Bytes {
    items: Vec<u8>,
}

impl Model for Bytes {
    ghost use Rattle.std.specs.Prelude.{List, ℕ};

    ghost Value = { List ℕ };

    ghost view = { λ a. a.items.items };
}

impl Bytes {
    /// The bytes of the vector.
    pub fn of(items: Vec<u8>) -> Bytes
        ensures { result ≡ items.items }
    {
        Bytes { items }
    }

    /// A copy of the bytes.
    pub fn from_slice(alloc: Global, bytes: &[u8]) -> Result<Bytes, Memory>
        ensures { IfOk result (λ made. made ≡ bytes.now) }
    {
        Ok(Bytes {
            items: Vec::from_slice(alloc, bytes)?,
        })
    }

    /// The vector, without memory.
    pub fn into_vec(self) -> Vec<u8>
        ensures { result.items ≡ self }
    {
        self.items
    }

    pub fn as_slice(&self) -> &[u8]
        ensures { result.now ≡ self.now }
    {
        self.items.as_slice()
    }

    pub fn len(&self) -> usize
        ensures { result ≡ length self.now }
    {
        self.items.len()
    }

    /// Whether the two are the same bytes.
    pub fn same(&self, other: &Bytes) -> bool
        ensures { result ≡ bytes_eq self.now other.now }
    {
        self.as_slice() == other.as_slice()
    }

    pub fn copy(&self) -> Result<Bytes, Memory>
        ensures { IfOk result (λ copy. copy ≡ self.now) }
    {
        Ok(Bytes {
            items: self.items.clone()?,
        })
    }
}

impl PartialEq for Bytes {
    ghost eq = { pointwise ◌==◌ };

    ghost laws = { Prim.search (comparing, rules) };

    fn eq(&self, other: &Bytes) -> bool {
        self.items == other.items
    }
}

impl Eq for Bytes {
    ghost laws = { Prim.search (comparing, rules) };
}

impl PartialOrd for Bytes {
    ghost partial_cmp = { as_partial_cmp (slice_cmp nat_cmp) };

    ghost laws = { partial_order_from_own_ties (Prim.search (comparing, rules)) (Prim.search (comparing, rules)) };

    fn partial_cmp(&self, other: &Bytes) -> Option<Ordering> {
        Some(self.cmp(other))
    }
}

impl Ord for Bytes {
    ghost cmp = { slice_cmp nat_cmp };

    ghost total = { Prim.search (comparing, rules) };

    ghost matches_partial_cmp = { Prim.search (comparing, rules) };

    ghost matches_eq = { Prim.search (comparing, rules) };

    fn cmp(&self, other: &Bytes) -> Ordering {
        self.items.cmp(&other.items)
    }
}

impl Clone for Bytes {
    ghost is_clone = { λ a b. b ≡ a };

    fn clone(&self) -> Result<Bytes, AllocError> {
        Ok(Bytes {
            items: self.items.clone()?,
        })
    }
}
