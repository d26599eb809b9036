//! A site takes the entries of a ballot that another leads.
ghost use Rattle.std.specs.Prelude.{◌≡◌, ◌≤◌, ◌<◌, ◌++◌, ◌∷◌, [], OnOk, IfOk, length};
ghost use Rattle.us_ballot_model.specs.Ballots.{IsLog, WINDOW, LAST, follows};
ghost use Rattle.us_ballot_model.specs.Rules.{acknowledging, following, state_in, new_state, may_accept, accept_in, accept};
ghost use Rattle.us_ballot.specs.Outs.{onto};

use crate::collect::may_follow;
use crate::copies::copies_from;
use crate::numbers::{held, number, owner};
use crate::sends::send;
use std::alloc::Global;
use us_ballot_model::{BallotLog, BallotMessage, BallotOut, Role};
use us_kind::{Items, Memory, Slot};

/// The most entries of a tail.
const TAIL: usize = 8;

/// Tells the leader what is held of its ballot's log.
#[tactic(auto, using(crate::proofs::Onto::onto_sending))]
fn acknowledge<E: Slot>(
    log: &BallotLog<E>,
    from: u8,
    ballot: u64,
    out: &mut BallotOut<E>,
) -> Result<(), Memory>
    ensures { OnOk result (out.new ≡ onto out.old (acknowledging log.now from ballot)) }
{
    let length = number(held(log))?;
    send(from, BallotMessage::Accepted { ballot, length }, out)
}

/// Takes the entries behind what is chosen here as the ballot's tail, or asks for chosen ones that are missing here.
#[tactic(auto, using(crate::proofs::Onto::onto_sending))]
fn state_in<E: Slot>(
    alloc: Global,
    log: &mut BallotLog<E>,
    from: u8,
    ballot: u64,
    base: u64,
    tail: &[E],
    out: &mut BallotOut<E>,
) -> Result<(), Memory>
    requires log { IsLog log.old }
    requires window { length tail.now ≤ WINDOW }
    ensures kept { IsLog log.new }
    ensures log { OnOk result (log.new ≡ (state_in log.old from ballot base tail.now).log) }
    ensures out { OnOk result (out.new ≡ onto out.old (state_in log.old from ballot base tail.now)) }
{
    let chosen = log.chosen.len();
    if (chosen as u64) < base {
        return send(
            from,
            BallotMessage::CatchUp {
                length: chosen as u64,
            },
            out,
        );
    }
    if log.accepted >= ballot {
        return acknowledge(log, from, ballot, out);
    }
    log.tail = copies_from(alloc, tail, chosen - base as usize)?;
    log.accepted = ballot;
    acknowledge(log, from, ballot, out)
}

/// The ballot's leader tells its state.
#[tactic(auto, unfolding(us_ballot_model::specs::Rules::new_state), using(crate::proofs::Onto::onto_dropped))]
pub fn new_state<E: Slot>(
    alloc: Global,
    log: &mut BallotLog<E>,
    from: u8,
    ballot: u64,
    base: u64,
    tail: &[E],
    out: &mut BallotOut<E>,
) -> Result<(), Memory>
    requires log { IsLog log.old }
    requires ballot { ballot ≤ LAST }
    requires window { length tail.now ≤ WINDOW }
    ensures kept { IsLog log.new }
    ensures log { OnOk result (log.new ≡ (new_state log.old from ballot base tail.now).log) }
    ensures out { OnOk result (out.new ≡ onto out.old (new_state log.old from ballot base tail.now)) }
{
    if !may_follow(log, from, ballot) {
        return Ok(());
    }
    log.ballot = ballot;
    log.role = Role::Follower;
    state_in(alloc, log, from, ballot, base, tail, out)
}

/// Whether a role is to follow.
fn follows<E: Slot>(role: &Role<E>) -> bool
    ensures { result ≡ follows role.now }
{
    match role {
        Role::Follower => true,
        Role::Candidate { promises: _ } => false,
        Role::Leader { acks: _ } => false,
    }
}

/// Whether the sender leads the ballot that this site follows and whose tail it holds.
fn may_accept<E: Slot>(log: &BallotLog<E>, from: u8, ballot: u64) -> bool
    requires { IsLog log.now }
    ensures { result ≡ may_accept log.now from ballot }
{
    follows(&log.role)
        && owner(log.f, ballot) == from
        && ballot == log.ballot
        && ballot == log.accepted
}

/// The entry joins the tail where its slot is the next.
fn join<E: Slot>(log: &mut BallotLog<E>, slot: u64, entry: E) -> Result<(), Memory>
    requires { IsLog log.old }
    ensures kept { IsLog log.new }
    ensures log { OnOk result (log.new ≡ accept_in log.old slot entry) }
{
    if u128::from(slot) == held(log) + 1 && log.tail.len() < TAIL {
        log.tail.push(entry)?;
    }
    Ok(())
}

/// The leader has put an entry into a slot.
#[tactic(auto, unfolding(us_ballot_model::specs::Rules::accept), using(crate::proofs::Onto::onto_dropped))]
pub fn accept<E: Slot>(
    log: &mut BallotLog<E>,
    from: u8,
    ballot: u64,
    slot: u64,
    entry: E,
    out: &mut BallotOut<E>,
) -> Result<(), Memory>
    requires { IsLog log.old }
    ensures kept { IsLog log.new }
    ensures log { OnOk result (log.new ≡ (accept log.old from ballot slot entry).log) }
    ensures out { OnOk result (out.new ≡ onto out.old (accept log.old from ballot slot entry)) }
{
    if !may_accept(log, from, ballot) {
        return Ok(());
    }
    join(log, slot, entry)?;
    if u128::from(slot) > held(log) {
        return Ok(());
    }
    acknowledge(log, from, ballot, out)
}
