//! What a message may hold.
ghost use Rattle.std.specs.Prelude.{◌↔◌, ◌≤◌, IsTrue, length};
ghost use Rattle.us_ballot_model.specs.Ballots.{IsMessage, LAST, WINDOW};

use us_ballot_model::BallotMessage;
use us_kind::{Items, Slot};

/// The greatest ballot.
const LAST_BALLOT: u64 = 4_611_686_018_427_387_904;

/// The most entries of a tail or a page.
const MOST: usize = 8;

fn is_short<E: Slot>(entries: &Items<E>) -> bool
    ensures { IsTrue result ↔ (length entries.now ≤ WINDOW) }
{
    entries.len() <= MOST
}

/// Whether the message holds what one may: a ballot of at most 2^62 that its receiver may take over, at most 8 entries.
pub fn is_message<E: Slot>(message: &BallotMessage<E>) -> bool
    ensures { IsTrue result ↔ IsMessage message.now }
{
    match message {
        BallotMessage::NewBallot { ballot } => *ballot <= LAST_BALLOT,
        BallotMessage::Promise {
            ballot: _,
            accepted: _,
            base: _,
            tail,
        } => is_short(tail),
        BallotMessage::NewState {
            ballot,
            base: _,
            tail,
        } => *ballot <= LAST_BALLOT && is_short(tail),
        BallotMessage::Accept {
            ballot: _,
            slot: _,
            entry: _,
        } => true,
        BallotMessage::Accepted {
            ballot: _,
            length: _,
        } => true,
        BallotMessage::CatchUp { length: _ } => true,
        BallotMessage::Learn { first: _, entries } => is_short(entries),
    }
}
