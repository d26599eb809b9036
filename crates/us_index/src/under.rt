//! A map from keys to lists of places.
ghost use Rattle.std.specs.Prelude.{◌≡◌, OnOk, OnErr, if◌then◌else◌};
ghost use Rattle.us_index.specs.Places.{ends_in, put_last, places_under};

use std::alloc::Global;
use std::collections::HashMap;
use std::hash::Hash;
use us_kind::{Items, Memory};

/// The places of a key, in order of coming; none where nothing came under it.
pub fn places_under<'a, K: Eq + Hash>(places: &'a HashMap<K, Items<usize>>, key: &K) -> &'a [usize]
    ensures { result.now ≡ places_under K.eq places.now key.now }
{
    match places.get(key) {
        Some(places) => places.as_slice(),
        None => &[],
    }
}

/// One more place of a key, at the end, unless it is the key's last one.
pub fn put_under<K: Eq + Hash + Drop>(
    alloc: Global,
    places: &mut HashMap<K, Items<usize>>,
    key: K,
    place: usize,
) -> Result<(), Memory>
    ensures ok { OnOk result ((q : K) → places_under K.eq places.new q ≡ (if K.eq key q then put_last place (places_under K.eq places.old q) else places_under K.eq places.old q)) }
    ensures err { OnErr result ((q : K) → places_under K.eq places.new q ≡ places_under K.eq places.old q) }
{
    put_last(places.entry(key)?.or_insert(Items::new(alloc)), place)
}

/// The place at the end, unless it is there.
#[tactic(auto, unfolding(crate::specs::Places::put_last))]
fn put_last(places: &mut Items<usize>, place: usize) -> Result<(), Memory>
    ensures ok { OnOk result (places.new ≡ put_last place places.old) }
    ensures err { OnErr result (places.new ≡ places.old) }
{
    if ends_in(places.as_slice(), place) {
        return Ok(());
    }
    places.push(place)
}

/// Whether the last of these is the place.
fn ends_in(places: &[usize], place: usize) -> bool
    ensures { result ≡ ends_in place places.now }
{
    match places.last() {
        Some(last) => *last == place,
        None => false,
    }
}
