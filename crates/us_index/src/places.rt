ghost use Rattle.std.specs.Prelude.{◌≡◌, ◌++◌, ◌∷◌, [], OnOk, OnErr};
ghost use Rattle.us_index.specs.Places.{places_of};

use crate::under::{places_under, put_under};
use std::alloc::Global;
use std::collections::HashMap;
use std::hash::Hash;
use std::marker::Model;
use us_kind::{Items, Memory};

/// A list of keys, which contracts see as that. The places of a key are found without a walk.
#[derive(Drop)]
pub struct Places<K: Eq + Hash> {
    keys: Vec<K>,
    places: HashMap<K, Items<usize>>,
}

impl<K: Eq + Hash> Model for Places<K> {
    ghost use Rattle.std.specs.Prelude.{◌≡◌, List};
    ghost use Rattle.us_index.specs.Places.{places_of, places_under};

    ghost Value = { List K };

    ghost view = { λ a. a.keys.items };

    ghost invariant = { λ a. (q : K) → places_under K.eq a.places q ≡ places_of (λ k. K.eq k q) 0 a.keys.items };
}

impl<K: Eq + Hash + Copy> Places<K> {
    /// An empty list, which takes no memory.
    pub fn new(alloc: Global) -> Places<K>
        ensures { result ≡ [] }
    {
        Places {
            keys: Vec::new(alloc),
            places: HashMap::new(alloc),
        }
    }

    /// The keys, in order of coming.
    pub fn as_slice(&self) -> &[K]
        ensures { result.now ≡ self.now }
    {
        self.keys.as_slice()
    }

    /// The places of a key, ascending, counted from 0.
    pub fn of(&self, key: &K) -> &[usize]
        ensures { result.now ≡ places_of (λ k. K.eq k key.now) 0 self.now }
    {
        places_under(&self.places, key)
    }

    /// Adds a key at the end.
    pub fn push(&mut self, key: K) -> Result<(), Memory>
        ensures ok { OnOk result (self.new ≡ self.old ++ key ∷ []) }
        ensures err { OnErr result (self.new ≡ self.old) }
    {
        let alloc = *self.keys.allocator();
        let place = self.keys.as_slice().len();
        self.keys.push(key)?;
        match put_under(alloc, &mut self.places, key, place) {
            Ok(()) => Ok(()),
            Err(Memory) => {
                self.keys.pop();
                Err(Memory)
            }
        }
    }
}
