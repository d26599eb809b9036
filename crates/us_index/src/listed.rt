ghost use Rattle.std.specs.Prelude.{◌≡◌, ◌++◌, ◌∷◌, [], OnOk, OnErr};
ghost use Rattle.std.specs.List.{list_any};

use std::alloc::Global;
use std::collections::HashSet;
use std::hash::Hash;
use std::marker::Model;
use us_kind::Memory;

/// A list of keys, which contracts see as that. Whether a key is one of them is told without a walk.
#[derive(Drop)]
pub struct Listed<K: Eq + Hash> {
    keys: Vec<K>,
    set: HashSet<K>,
}

impl<K: Eq + Hash> Model for Listed<K> {
    ghost use Rattle.std.specs.Prelude.{◌≡◌, List};
    ghost use Rattle.std.specs.List.{list_any};
    ghost use Rattle.std.specs.HashSet.{contains};

    ghost Value = { List K };

    ghost view = { λ a. a.keys.items };

    ghost invariant = { λ a. (q : K) → contains K.eq a.set q ≡ list_any (λ k. K.eq k q) a.keys.items };
}

impl<K: Eq + Hash + Copy> Listed<K> {
    /// An empty list, which takes no memory.
    pub fn new(alloc: Global) -> Listed<K>
        ensures { result ≡ [] }
    {
        Listed {
            keys: Vec::new(alloc),
            set: HashSet::new(alloc),
        }
    }

    /// The keys, in order of coming.
    pub fn as_slice(&self) -> &[K]
        ensures { result.now ≡ self.now }
    {
        self.keys.as_slice()
    }

    /// Whether the key is one of these.
    pub fn contains(&self, key: &K) -> bool
        ensures { result ≡ list_any (λ k. K.eq k key.now) self.now }
    {
        self.set.contains(key)
    }

    /// Adds a key at the end.
    pub fn push(&mut self, key: K) -> Result<(), Memory>
        ensures ok { OnOk result (self.new ≡ self.old ++ key ∷ []) }
        ensures err { OnErr result (self.new ≡ self.old) }
    {
        self.keys.push(key)?;
        match self.set.insert(key) {
            Ok(_) => Ok(()),
            Err(_) => {
                self.keys.pop();
                Err(Memory)
            }
        }
    }
}
