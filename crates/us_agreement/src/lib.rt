//! Laws over every run of the written ballot log.
//!
//! A run is any list of events in a small world of 2f + 1 sites: a site leads, appends an entry, ticks or crashes, or any
//! message ever sent comes to its site, any number of times, in any order. Entries are of any type whose `==` tells them apart.
#![tactic(auto)]

ghost use Rattle.us_agreement.specs.Laws.{ChosenListsAgree, ChosenListsGrow, ChosenEntriesWereAppended, ChosenEntriesAreHeld};
ghost use Rattle.us_agreement.specs.Laws.{NextBallotsAreLeast, TailsAreShort, TailsLoseHeads};

use us_kind::Slot;

/// Of two sites' chosen lists one is a prefix of the other.
pub fn chosen_lists_agree<E: Slot>()
    ensures { ChosenListsAgree E.eq }
{}

/// A chosen list only grows, whatever happens next.
pub fn chosen_lists_grow<E: Slot>()
    ensures { ChosenListsGrow E.eq }
{}

/// Each chosen entry was put into the log by a leader.
pub fn chosen_entries_were_appended<E: Slot>()
    ensures { ChosenEntriesWereAppended E.eq }
{}

/// Once chosen, an entry is held in its slot, as chosen or in a tail, by f + 1 sites, whatever happens next.
pub fn chosen_entries_are_held<E: Slot>()
    ensures { ChosenEntriesAreHeld E.eq }
{}

/// A tail has at most 8 entries.
pub fn tails_are_short<E: Slot>()
    ensures { TailsAreShort E.eq }
{}

/// The ballot that a site leads next is the least above its own that it owns.
pub fn next_ballots_are_least()
    ensures { NextBallotsAreLeast }
{}

/// What a learner's tail keeps of a page is what it keeps entry by entry: it loses its head where that is equal, and else all.
pub fn tails_lose_heads<E: Slot>()
    ensures { TailsLoseHeads E.eq }
{}
