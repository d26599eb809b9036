//! How many packets at the front of a pair's list were delivered.
ghost use Rattle.std.specs.Prelude.{◌≡◌, ◌<◌, List, length, slice_get, true, false};
ghost use Rattle.us_network.specs.Packets.{AllPassed, AreFronts, is_passed, places_between};
ghost use Rattle.us_network.specs.declared.sent.Sent.{Sent as Kept};

use crate::sent::{Pair, Sent, is_marked};

/// How many fronts are kept: one for each two sites.
pub(crate) const FRONTS: usize = 100;

/// So many packets at the front of the pair's list were delivered.
#[derive(Clone, Copy)]
pub struct Front {
    pub pair: Pair,
    pub passed: usize,
}

/// Where the front of a pair is kept.
pub(crate) fn front_of(pair: &Pair) -> usize
    ensures { result < 100 }
{
    usize::from(pair.from % 10) * 10 + usize::from(pair.to % 10)
}

/// How many at the front of the pair's list were delivered, as far as that is kept.
pub(crate) fn passed_of(fronts: &[Front], pair: &Pair) -> usize
    requires { length fronts.now ≡ 100 }
    ensures { (sent : List Kept) → AreFronts sent fronts.now → AllPassed sent result (places_between pair.now sent) }
{
    let front = fronts[front_of(pair)];
    if front.pair == *pair { front.passed } else { 0 }
}

/// Whether the packet at this place of the list was delivered.
fn is_passed(sent: &[Sent], places: &[usize], at: usize) -> bool
    ensures passed { result ≡ is_passed sent.now (slice_get places.now at) }
    ensures within { result ≡ true → at < length places.now }
{
    at < places.len() && is_marked(sent, places[at])
}

/// How many at the front of these places were delivered, of which so many are known.
pub(crate) fn pass(sent: &[Sent], places: &[usize], known: usize) -> usize
    requires { AllPassed sent.now known places.now }
    ensures all { AllPassed sent.now result places.now }
    ensures stops { is_passed sent.now (slice_get places.now result) ≡ false }
{
    let mut passed = known;
    while is_passed(sent, places, passed) {
        passed += 1;
    }
    passed
}
