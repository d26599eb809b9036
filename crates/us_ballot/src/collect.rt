//! A site wants to lead, and others promise.
ghost use Rattle.std.specs.Prelude.{◌≡◌, ◌≤◌, ◌<◌, ◌++◌, ◌∷◌, [], OnOk, IfOk, length};
ghost use Rattle.us_ballot_model.specs.Ballots.{IsLog, IsRole, WINDOW, LAST, own_promise};
ghost use Rattle.us_ballot_model.specs.Rules.{lead_in, lead, may_follow, following, new_ballot, may_record, may_promise, with_promise, promise};
ghost use Rattle.us_ballot.specs.Outs.{onto};

use crate::copies::copies;
use crate::numbers::{next_ballot, owner};
use crate::sends::{send, send_to_others};
use crate::start::{has_promised, start};
use std::alloc::Global;
use us_ballot_model::{BallotLog, BallotMessage, BallotOut, PromisedLog, Role};
use us_kind::{Items, Memory, Slot};

/// The greatest ballot.
const LAST_BALLOT: u64 = 4_611_686_018_427_387_904;

/// A site's own promise.
fn own_promise<E: Slot>(alloc: Global, log: &BallotLog<E>) -> Result<PromisedLog<E>, Memory>
    ensures { IfOk result (λ promised. promised ≡ own_promise log.now) }
{
    Ok(PromisedLog {
        site: log.site,
        accepted: log.accepted,
        base: log.chosen.len() as u64,
        tail: copies(alloc, log.tail.as_slice())?,
    })
}

/// Collects promises for the ballot, the own one first.
fn lead_in<E: Slot>(
    alloc: Global,
    log: &mut BallotLog<E>,
    ballot: u64,
    out: &mut BallotOut<E>,
) -> Result<(), Memory>
    requires { IsLog log.old }
    ensures kept { IsLog log.new }
    ensures log { OnOk result (log.new ≡ (lead_in log.old ballot).log) }
    ensures out { OnOk result (out.new ≡ onto out.old (lead_in log.old ballot)) }
{
    if ballot > LAST_BALLOT {
        return Ok(());
    }
    let mut promises = Items::new(alloc);
    promises.push(own_promise(alloc, log)?)?;
    log.ballot = ballot;
    log.role = Role::Candidate { promises };
    send_to_others(alloc, log, &BallotMessage::NewBallot { ballot }, out)?;
    start(alloc, log, out)
}

/// Wants to lead the next ballot of its own.
#[tactic(auto, unfolding(us_ballot_model::specs::Rules::lead))]
pub fn lead<E: Slot>(
    alloc: Global,
    log: &mut BallotLog<E>,
    out: &mut BallotOut<E>,
) -> Result<(), Memory>
    requires { IsLog log.old }
    ensures kept { IsLog log.new }
    ensures log { OnOk result (log.new ≡ (lead log.old).log) }
    ensures out { OnOk result (out.new ≡ onto out.old (lead log.old)) }
{
    let ballot = next_ballot(log.f, log.site, log.ballot);
    lead_in(alloc, log, ballot, out)
}

/// Whether the ballot is the sender's and not below the own one.
pub fn may_follow<E: Slot>(log: &BallotLog<E>, from: u8, ballot: u64) -> bool
    requires { IsLog log.now }
    ensures { result ≡ may_follow log.now from ballot }
{
    log.ballot <= ballot && owner(log.f, ballot) == from
}

/// Another site wants to lead: the promise is given.
#[tactic(auto, unfolding(us_ballot_model::specs::Rules::new_ballot), using(crate::proofs::Onto::onto_dropped, crate::proofs::Onto::onto_sending))]
pub fn new_ballot<E: Slot>(
    alloc: Global,
    log: &mut BallotLog<E>,
    from: u8,
    ballot: u64,
    out: &mut BallotOut<E>,
) -> Result<(), Memory>
    requires log { IsLog log.old }
    requires ballot { ballot ≤ LAST }
    ensures kept { IsLog log.new }
    ensures log { OnOk result (log.new ≡ (new_ballot log.old from ballot).log) }
    ensures out { OnOk result (out.new ≡ onto out.old (new_ballot log.old from ballot)) }
{
    if !may_follow(log, from, ballot) {
        return Ok(());
    }
    let tail = copies(alloc, log.tail.as_slice())?;
    log.ballot = ballot;
    log.role = Role::Follower;
    let promise = BallotMessage::Promise {
        ballot,
        accepted: log.accepted,
        base: log.chosen.len() as u64,
        tail,
    };
    send(from, promise, out)
}

/// Whether a collector with these promises takes one of the ballot from the site.
fn may_record<E: Slot>(
    log: &BallotLog<E>,
    promises: &[PromisedLog<E>],
    from: u8,
    ballot: u64,
) -> bool
    ensures { result ≡ may_record log.now promises.now from ballot }
{
    ballot == log.ballot && promises.len() <= usize::from(log.f) && !has_promised(promises, from)
}

/// Whether this site collects and takes a promise of the ballot from the site.
fn may_promise<E: Slot>(log: &BallotLog<E>, from: u8, ballot: u64) -> bool
    ensures { result ≡ may_promise log.now from ballot log.now.role }
{
    match &log.role {
        Role::Follower => false,
        Role::Candidate { promises } => may_record(log, promises.as_slice(), from, ballot),
        Role::Leader { acks: _ } => false,
    }
}

/// A collector keeps the promise.
#[tactic(auto, using(crate::proofs::Promises::promises_push))]
fn add_promise<E: Slot>(role: &mut Role<E>, promised: PromisedLog<E>) -> Result<(), Memory>
    requires role { IsRole role.old }
    requires window { length promised.tail ≤ WINDOW }
    ensures kept { IsRole role.new }
    ensures role { OnOk result (role.new ≡ with_promise role.old promised) }
{
    match role {
        Role::Follower => Ok(()),
        Role::Candidate { promises } => promises.push(promised),
        Role::Leader { acks: _ } => Ok(()),
    }
}

/// A promise comes.
#[tactic(auto, unfolding(us_ballot_model::specs::Rules::promise), using(crate::proofs::Onto::onto_dropped))]
pub fn promise<E: Slot>(
    alloc: Global,
    log: &mut BallotLog<E>,
    ballot: u64,
    promised: PromisedLog<E>,
    out: &mut BallotOut<E>,
) -> Result<(), Memory>
    requires log { IsLog log.old }
    requires window { length promised.tail ≤ WINDOW }
    ensures kept { IsLog log.new }
    ensures log { OnOk result (log.new ≡ (promise log.old ballot promised).log) }
    ensures out { OnOk result (out.new ≡ onto out.old (promise log.old ballot promised)) }
{
    if !may_promise(log, promised.site, ballot) {
        return Ok(());
    }
    add_promise(&mut log.role, promised)?;
    start(alloc, log, out)
}
