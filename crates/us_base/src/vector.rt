ghost use Rattle.std.specs.Prelude.{◌≡◌, ◌<◌, ◌^◌, ◌↔◌, IsTrue};
ghost use Rattle.us_base.specs.Vector.{entry, at_most, AtMost, join, meet, with_entry, sum_of, zero};

use std::marker::Model;

/// How many entries a vector has: strong, and up to nine sites.
const ENTRIES: usize = 10;

/// A count for strong transactions, and one for each site.
///
/// Entry 0 is strong, entry i that of site i. Entries of sites that a store doesn't have are 0.
#[derive(Clone, Copy, Debug, PartialEq, Eq, Hash)]
pub struct Vector {
    entries: [u64; ENTRIES],
}

impl Model for Vector {
    ghost use Rattle.std.specs.Prelude.{List, ℕ};

    ghost Value = { List ℕ };

    ghost view = { λ v. v.entries };

    ghost inverse = { λ entries. record { entries = entries } };
}

impl Vector {
    /// The vector whose entries are all 0.
    pub fn zero() -> Vector
        ensures { result ≡ zero }
    {
        Vector {
            entries: [0; ENTRIES],
        }
    }

    /// Entry `i`: 0 for strong, else the number of a site.
    pub fn get(&self, i: u8) -> u64
        requires { i < 10 }
        ensures { result ≡ entry self.now i }
    {
        self.entries[usize::from(i)]
    }

    /// Whether each entry is at most the other's.
    pub fn at_most(&self, other: &Vector) -> bool
        ensures value { result ≡ at_most self.now other.now }
        ensures entries { IsTrue result ↔ AtMost self.now other.now }
    {
        for (i, entry) in self.entries.iter().enumerate() {
            if *entry > other.entries[i] {
                return false;
            }
        }
        true
    }

    /// The greater of the two entries, at each place.
    pub fn join(&self, other: &Vector) -> Vector
        ensures { result ≡ join self.now other.now }
    {
        let mut entries = self.entries;
        for (i, entry) in entries.iter_mut().enumerate() {
            *entry = (*entry).max(other.entries[i]);
        }
        Vector { entries }
    }

    /// The lesser of the two entries, at each place.
    pub fn meet(&self, other: &Vector) -> Vector
        ensures { result ≡ meet self.now other.now }
    {
        let mut entries = self.entries;
        for (i, entry) in entries.iter_mut().enumerate() {
            *entry = (*entry).min(other.entries[i]);
        }
        Vector { entries }
    }

    /// The vector with entry `i` changed.
    pub fn with_entry(&self, i: u8, n: u64) -> Vector
        requires { i < 10 }
        ensures { result ≡ with_entry self.now i n }
    {
        let mut entries = self.entries;
        entries[usize::from(i)] = n;
        Vector { entries }
    }

    /// The sum of the entries.
    pub fn sum(&self) -> u128
        ensures { result ≡ sum_of self.now }
    {
        let mut sum = 0;
        for entry in self.entries.iter() {
            sum += wide(*entry);
        }
        sum
    }
}

/// The number in the type of a sum, and below 2^64 as before.
fn wide(n: u64) -> u128
    ensures value { result ≡ n }
    ensures small { result < 2 ^ 64 }
{
    u128::from(n)
}

#[cfg(test)]
mod tests {
    use super::*;

    fn vector(strong: u64, first: u64, second: u64, third: u64) -> Vector {
        Vector::zero()
            .with_entry(0, strong)
            .with_entry(1, first)
            .with_entry(2, second)
            .with_entry(3, third)
    }

    #[test]
    fn vectors_are_a_lattice(rt: HostRuntime) {
        // two vectors, whether the first is at most the second, their join, their meet, the sum of the first
        let low = vector(1, 2, 3, 0);
        let high = vector(1, 5, 3, 0);
        let aside = vector(7, 0, 0, 4);
        for (v, w, below, join, meet, sum) in [
            (low, low, true, low, low, 6),
            (low, high, true, high, low, 6),
            (high, low, false, high, low, 9),
            (low, aside, false, vector(7, 2, 3, 4), vector(1, 0, 0, 0), 6),
            (
                aside,
                high,
                false,
                vector(7, 5, 3, 4),
                vector(1, 0, 0, 0),
                11,
            ),
        ] {
            assert_eq!(rt; v.at_most(&w), below);
            assert_eq!(rt; v.join(&w), join);
            assert_eq!(rt; v.meet(&w), meet);
            assert_eq!(rt; v.sum(), sum);
        }
        assert_eq!(rt; aside.get(3), 4);
        assert_eq!(rt; aside.with_entry(9, 5).with_entry(0, 1).sum(), 10);
    }
}
