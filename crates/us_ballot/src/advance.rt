//! What f + 1 sites hold is chosen.
ghost use Rattle.std.specs.Prelude.{◌≡◌, ◌≤◌, ◌<◌, ◌++◌, ◌∷◌, [], OnOk, IfOk, length, take, drop};
ghost use Rattle.us_ballot_model.specs.Ballots.{IsLog};
ghost use Rattle.us_ballot_model.specs.Rules.{ready, ready_as, advanced, advance};
ghost use Rattle.us_ballot.specs.Outs.{onto};

use crate::copies::{add_copies, copies_from, copies_to};
use crate::numbers::{backers, number};
use crate::sends::send_to_others;
use std::alloc::Global;
use us_ballot_model::{BallotLog, BallotMessage, BallotOut, Role};
use us_kind::{Memory, Slot};

/// How many entries of the tail f + 1 sites hold, the leader among them.
fn ready<E: Slot>(log: &BallotLog<E>, acks: &[Option<u64>; 9]) -> usize
    ensures value { result ≡ ready log.now acks.now }
    ensures within { result ≤ length log.now.tail }
{
    let chosen = log.chosen.len() as u128;
    let mut k = log.tail.len();
    while k > 0 && backers(acks, chosen + k as u128) < usize::from(log.f) {
        k -= 1;
    }
    k
}

/// The first entries of the tail are chosen.
fn choose<E: Slot>(
    alloc: Global,
    log: &mut BallotLog<E>,
    k: usize,
    out: &mut BallotOut<E>,
) -> Result<(), Memory>
    requires { IsLog log.old }
    ensures kept { IsLog log.new }
    ensures log { OnOk result (log.new ≡ (advanced log.old k).log) }
    ensures out { OnOk result (out.new ≡ onto out.old (advanced log.old k)) }
{
    let first = number(log.chosen.len() as u128 + 1)?;
    let entries = copies_to(alloc, log.tail.as_slice(), k)?;
    add_copies(&mut out.chosen, entries.as_slice())?;
    add_copies(&mut log.chosen, entries.as_slice())?;
    log.tail = copies_from(alloc, log.tail.as_slice(), k)?;
    send_to_others(alloc, log, &BallotMessage::Learn { first, entries }, out)
}

/// The same, where this site leads; else none.
fn ready_as<E: Slot>(log: &BallotLog<E>) -> usize
    ensures { result ≡ ready_as log.now log.now.role }
{
    match &log.role {
        Role::Follower => 0,
        Role::Candidate { promises: _ } => 0,
        Role::Leader { acks } => ready(log, acks),
    }
}

/// A leader's entries that f + 1 sites hold are chosen, and all others learn them.
#[tactic(auto, unfolding(us_ballot_model::specs::Rules::advance), using(crate::proofs::Onto::onto_dropped))]
pub fn advance<E: Slot>(
    alloc: Global,
    log: &mut BallotLog<E>,
    out: &mut BallotOut<E>,
) -> Result<(), Memory>
    requires { IsLog log.old }
    ensures kept { IsLog log.new }
    ensures log { OnOk result (log.new ≡ (advance log.old).log) }
    ensures out { OnOk result (out.new ≡ onto out.old (advance log.old)) }
{
    let k = ready_as(log);
    if k == 0 {
        Ok(())
    } else {
        choose(alloc, log, k, out)
    }
}
