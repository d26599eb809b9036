//! What is told again and again.
ghost use Rattle.std.specs.Prelude.{◌≡◌, ◌≤◌, ◌<◌, ◌+◌, ◌^◌, ◌++◌, ◌∷◌, [], OnOk, IfOk, length, map};
ghost use Rattle.std.specs.List.{flat_map};
ghost use Rattle.us_ballot_model.specs.Ballots.{IsLog, ack_of, count, others};
ghost use Rattle.us_ballot_model.specs.Rules.{missing, accepts, accepts_after, repeated, repeats, tick};
ghost use Rattle.us_ballot.specs.Outs.{more, onto};
ghost use Rattle.us_ballot_model.specs.declared.message.BallotMessage.TheVariants.{NewBallot};

use crate::copies::copies;
use crate::numbers::{ack_of, number};
use crate::sends::{send, send_to_others};
use crate::start::has_promised;
use std::alloc::Global;
use us_ballot_model::{BallotLog, BallotMessage, BallotOut, PromisedLog, Role};
use us_kind::{Memory, Slot};

/// Tells the entries again, from this slot on.
fn send_accepts<E: Slot>(
    to: u8,
    ballot: u64,
    slot: u128,
    entries: &[E],
    out: &mut BallotOut<E>,
) -> Result<(), Memory>
    requires { slot < 2 ^ 65 }
    ensures { OnOk result (out.new ≡ more out.old (accepts to ballot slot entries.now)) }
{
    let mut slot = slot;
    for entry in entries {
        let told = BallotMessage::Accept {
            ballot,
            slot: number(slot)?,
            entry: entry.copy()?,
        };
        send(to, told, out)?;
        slot += 1;
    }
    Ok(())
}

/// Tells the entries of the tail behind so many again.
fn send_after<E: Slot>(
    log: &BallotLog<E>,
    to: u8,
    length: u64,
    out: &mut BallotOut<E>,
) -> Result<(), Memory>
    requires { count log.now ≤ length }
    ensures { OnOk result (out.new ≡ more out.old (accepts_after log.now to length)) }
{
    let tail = log.tail.as_slice();
    let behind = length - log.chosen.len() as u64;
    if behind >= tail.len() as u64 {
        return Ok(());
    }
    send_accepts(
        to,
        log.ballot,
        u128::from(length) + 1,
        &tail[behind as usize..],
        out,
    )
}

/// Tells a site what it hasn't acknowledged.
fn repeat_for<E: Slot>(
    alloc: Global,
    log: &BallotLog<E>,
    to: u8,
    ack: Option<u64>,
    out: &mut BallotOut<E>,
) -> Result<(), Memory>
    ensures { OnOk result (out.new ≡ more out.old (repeated log.now to ack)) }
{
    match ack {
        None => {
            let state = BallotMessage::NewState {
                ballot: log.ballot,
                base: log.chosen.len() as u64,
                tail: copies(alloc, log.tail.as_slice())?,
            };
            send(to, state, out)
        }
        Some(length) => send_after(log, to, length.max(log.chosen.len() as u64), out),
    }
}

/// Tells each other site what it hasn't acknowledged.
fn repeat_all<E: Slot>(
    alloc: Global,
    log: &BallotLog<E>,
    acks: &[Option<u64>; 9],
    out: &mut BallotOut<E>,
) -> Result<(), Memory>
    requires { IsLog log.now }
    ensures { OnOk result (out.new ≡ more out.old (flat_map (λ j. repeated log.now j (ack_of acks.now j)) (others log.now))) }
{
    for j in 1..2 * log.f + 2 {
        if j != log.site {
            repeat_for(alloc, log, j, ack_of(acks, j), out)?;
        }
    }
    Ok(())
}

/// Asks each other site for its promise that hasn't given it.
fn ask_missing<E: Slot>(
    log: &BallotLog<E>,
    promises: &[PromisedLog<E>],
    out: &mut BallotOut<E>,
) -> Result<(), Memory>
    requires { IsLog log.now }
    ensures { OnOk result (out.new ≡ more out.old (map (λ j. (j, NewBallot log.now.ballot)) (missing log.now promises.now))) }
{
    for j in 1..2 * log.f + 2 {
        if j != log.site && !has_promised(promises, j) {
            send(j, BallotMessage::NewBallot { ballot: log.ballot }, out)?;
        }
    }
    Ok(())
}

/// Tells again what a collector or a leader has to.
fn repeats<E: Slot>(alloc: Global, log: &BallotLog<E>, out: &mut BallotOut<E>) -> Result<(), Memory>
    requires { IsLog log.now }
    ensures { OnOk result (out.new ≡ more out.old (repeats log.now log.now.role)) }
{
    match &log.role {
        Role::Follower => Ok(()),
        Role::Candidate { promises } => {
            if usize::from(log.f) < promises.len() {
                Ok(())
            } else {
                ask_missing(log, promises.as_slice(), out)
            }
        }
        Role::Leader { acks } => repeat_all(alloc, log, acks, out),
    }
}

/// Time has passed.
#[tactic(auto, unfolding(us_ballot_model::specs::Rules::tick))]
pub fn tick<E: Slot>(
    alloc: Global,
    log: &BallotLog<E>,
    out: &mut BallotOut<E>,
) -> Result<(), Memory>
    requires { IsLog log.now }
    ensures { OnOk result (out.new ≡ onto out.old (tick log.now)) }
{
    let ask = BallotMessage::CatchUp {
        length: log.chosen.len() as u64,
    };
    send_to_others(alloc, log, &ask, out)?;
    repeats(alloc, log, out)
}
