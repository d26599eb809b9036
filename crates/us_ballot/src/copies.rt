//! Copies of entries and messages.
ghost use Rattle.std.specs.Prelude.{◌≡◌, ◌≤◌, ◌<◌, ◌++◌, ◌∷◌, [], OnOk, IfOk, length, drop, take};

use std::alloc::Global;
use us_ballot_model::BallotMessage;
use us_kind::{Items, Memory, Slot};

/// Adds copies of the entries.
pub fn add_copies<E: Slot>(to: &mut Items<E>, entries: &[E]) -> Result<(), Memory>
    ensures { OnOk result (to.new ≡ to.old ++ entries.now) }
{
    for entry in entries {
        to.push(entry.copy()?)?;
    }
    Ok(())
}

/// A copy of the entries.
pub fn copies<E: Slot>(alloc: Global, entries: &[E]) -> Result<Items<E>, Memory>
    ensures { IfOk result (λ copy. copy ≡ entries.now) }
{
    let mut copy = Items::new(alloc);
    add_copies(&mut copy, entries)?;
    Ok(copy)
}

/// A copy of the first of the entries.
pub fn copies_to<E: Slot>(alloc: Global, entries: &[E], n: usize) -> Result<Items<E>, Memory>
    ensures { IfOk result (λ copy. copy ≡ take n entries.now) }
{
    if n < entries.len() {
        copies(alloc, &entries[..n])
    } else {
        copies(alloc, entries)
    }
}

/// A copy of the entries behind the first.
pub fn copies_from<E: Slot>(alloc: Global, entries: &[E], n: usize) -> Result<Items<E>, Memory>
    ensures { IfOk result (λ copy. copy ≡ drop n entries.now) }
{
    if n < entries.len() {
        copies(alloc, &entries[n..])
    } else {
        Ok(Items::new(alloc))
    }
}

/// A copy of the message.
pub fn copy_message<E: Slot>(
    alloc: Global,
    message: &BallotMessage<E>,
) -> Result<BallotMessage<E>, Memory>
    ensures { IfOk result (λ copy. copy ≡ message.now) }
{
    match message {
        BallotMessage::NewBallot { ballot } => Ok(BallotMessage::NewBallot { ballot: *ballot }),
        BallotMessage::Promise {
            ballot,
            accepted,
            base,
            tail,
        } => Ok(BallotMessage::Promise {
            ballot: *ballot,
            accepted: *accepted,
            base: *base,
            tail: copies(alloc, tail.as_slice())?,
        }),
        BallotMessage::NewState { ballot, base, tail } => Ok(BallotMessage::NewState {
            ballot: *ballot,
            base: *base,
            tail: copies(alloc, tail.as_slice())?,
        }),
        BallotMessage::Accept {
            ballot,
            slot,
            entry,
        } => Ok(BallotMessage::Accept {
            ballot: *ballot,
            slot: *slot,
            entry: entry.copy()?,
        }),
        BallotMessage::Accepted { ballot, length } => Ok(BallotMessage::Accepted {
            ballot: *ballot,
            length: *length,
        }),
        BallotMessage::CatchUp { length } => Ok(BallotMessage::CatchUp { length: *length }),
        BallotMessage::Learn { first, entries } => Ok(BallotMessage::Learn {
            first: *first,
            entries: copies(alloc, entries.as_slice())?,
        }),
    }
}
