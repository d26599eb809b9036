//! Chosen entries that other sites have, and acknowledgements.
ghost use Rattle.std.specs.Prelude.{◌≡◌, ◌≢◌, ◌≤◌, ◌<◌, ◌+◌, ◌*◌, ◌++◌, ◌∷◌, [], OnOk, IfOk, length};
ghost use Rattle.us_ballot_model.specs.Ballots.{IsLog, IsRole, leads};
ghost use Rattle.us_ballot_model.specs.Rules.{with_ack, may_hear, accepted, catch_up, trimmed, learn_from, learn};
ghost use Rattle.us_ballot.specs.Outs.{onto};

use crate::advance::advance;
use crate::copies::{add_copies, copies_from, copies_to};
use crate::numbers::{held, raise};
use crate::sends::send;
use crate::start::start;
use std::alloc::Global;
use us_ballot_model::{BallotLog, BallotMessage, BallotOut, Role};
use us_kind::{Items, Memory, Slot};

/// The most entries of one page of chosen ones.
const PAGE: usize = 8;

/// Whether a role is to lead.
pub fn leads<E: Slot>(role: &Role<E>) -> bool
    ensures { result ≡ leads role.now }
{
    match role {
        Role::Follower => false,
        Role::Candidate { promises: _ } => false,
        Role::Leader { acks: _ } => true,
    }
}

/// A leader keeps the acknowledgement.
fn add_ack<E: Slot>(role: &mut Role<E>, from: u8, length: u64)
    requires role { IsRole role.old }
    requires first { 1 ≤ from }
    requires last { from ≤ 9 }
    ensures kept { IsRole role.new }
    ensures role { role.new ≡ with_ack role.old from length }
{
    match role {
        Role::Follower => {}
        Role::Candidate { promises: _ } => {}
        Role::Leader { acks } => raise(acks, from, length),
    }
}

/// A site has acknowledged entries of the ballot.
#[tactic(auto, unfolding(us_ballot_model::specs::Rules::accepted), using(crate::proofs::Onto::onto_dropped))]
pub fn accepted<E: Slot>(
    alloc: Global,
    log: &mut BallotLog<E>,
    from: u8,
    ballot: u64,
    length: u64,
    out: &mut BallotOut<E>,
) -> Result<(), Memory>
    requires log { IsLog log.old }
    requires first { 1 ≤ from }
    requires last { from ≤ 9 }
    ensures kept { IsLog log.new }
    ensures log { OnOk result (log.new ≡ (accepted log.old from ballot length).log) }
    ensures out { OnOk result (out.new ≡ onto out.old (accepted log.old from ballot length)) }
{
    if !(leads(&log.role) && ballot == log.ballot && u128::from(length) <= held(log)) {
        return Ok(());
    }
    add_ack(&mut log.role, from, length);
    advance(alloc, log, out)
}

/// A site asks for the chosen entries behind those that it has.
#[tactic(auto, unfolding(us_ballot_model::specs::Rules::catch_up), using(crate::proofs::Onto::onto_dropped, crate::proofs::Onto::onto_sending, crate::proofs::Dropped::catch_up_log))]
pub fn catch_up<E: Slot>(
    alloc: Global,
    log: &BallotLog<E>,
    from: u8,
    length: u64,
    out: &mut BallotOut<E>,
) -> Result<(), Memory>
    ensures log { (catch_up log.now from length).log ≡ log.now }
    ensures out { OnOk result (out.new ≡ onto out.old (catch_up log.now from length)) }
{
    let chosen = log.chosen.as_slice();
    if length >= chosen.len() as u64 {
        return Ok(());
    }
    let entries = copies_to(alloc, &chosen[length as usize..], PAGE)?;
    let first = length + 1;
    send(from, BallotMessage::Learn { first, entries }, out)
}

/// What the tail keeps behind these entries.
fn trimmed<E: Slot>(alloc: Global, tail: &[E], entries: &[E]) -> Result<Items<E>, Memory>
    ensures { IfOk result (λ kept. kept ≡ trimmed E.eq tail.now entries.now) }
{
    if tail.starts_with(entries) {
        copies_from(alloc, tail, entries.len())
    } else {
        Ok(Items::new(alloc))
    }
}

/// The entries join the chosen ones, and a collector may start.
fn learn_from<E: Slot>(
    alloc: Global,
    log: &mut BallotLog<E>,
    entries: &[E],
    out: &mut BallotOut<E>,
) -> Result<(), Memory>
    requires { IsLog log.old }
    ensures kept { IsLog log.new }
    ensures log { OnOk result (log.new ≡ (learn_from E.eq log.old entries.now).log) }
    ensures out { OnOk result (out.new ≡ onto out.old (learn_from E.eq log.old entries.now)) }
{
    let tail = trimmed(alloc, log.tail.as_slice(), entries)?;
    add_copies(&mut out.chosen, entries)?;
    add_copies(&mut log.chosen, entries)?;
    log.tail = tail;
    start(alloc, log, out)
}

/// Chosen entries come.
#[tactic(auto, unfolding(us_ballot_model::specs::Rules::learn), using(crate::proofs::Onto::onto_dropped))]
pub fn learn<E: Slot>(
    alloc: Global,
    log: &mut BallotLog<E>,
    first: u64,
    entries: &[E],
    out: &mut BallotOut<E>,
) -> Result<(), Memory>
    requires { IsLog log.old }
    ensures kept { IsLog log.new }
    ensures log { OnOk result (log.new ≡ (learn E.eq log.old first entries.now).log) }
    ensures out { OnOk result (out.new ≡ onto out.old (learn E.eq log.old first entries.now)) }
{
    let before = first.saturating_sub(1);
    let chosen = log.chosen.len() as u64;
    if before > chosen {
        return Ok(());
    }
    let known = (chosen - before) as usize;
    if known >= entries.len() {
        return Ok(());
    }
    learn_from(alloc, log, &entries[known..], out)
}
