//! A collector with f + 1 promises leads.
ghost use Rattle.std.specs.Prelude.{◌≡◌, ◌≤◌, ◌<◌, ◌++◌, ◌∷◌, [], OnOk, IfOk, Some, length, drop};
ghost use Rattle.std.specs.Option.{option_copied};
ghost use Rattle.us_ballot_model.specs.Ballots.{IsLog, WINDOW, count, reach, is_better, best, has_promised};
ghost use Rattle.us_ballot_model.specs.Rules.{begin, start_by, best_of, due, start};
ghost use Rattle.us_ballot.specs.Outs.{onto};

use crate::advance::advance;
use crate::copies::{copies, copies_from};
use crate::sends::{send, send_to_others};
use std::alloc::Global;
use us_ballot_model::{BallotLog, BallotMessage, BallotOut, PromisedLog, Role};
use us_kind::{Items, Memory, Slot};

/// Up to where the site of the promise held entries.
fn reach<E: Slot>(promised: &PromisedLog<E>) -> u128
    ensures { result ≡ reach promised.now }
{
    u128::from(promised.base) + promised.tail.len() as u128
}

/// Whether the first promise is better: by the ballot of the tail, then by length, then by the lesser site.
fn is_better<E: Slot>(first: &PromisedLog<E>, second: &PromisedLog<E>) -> bool
    ensures { result ≡ is_better first.now second.now }
{
    second.accepted < first.accepted
        || (second.accepted == first.accepted
            && (reach(second) < reach(first)
                || (reach(second) == reach(first) && first.site < second.site)))
}

/// The best of a promise and more.
fn best<'a, E: Slot>(first: &'a PromisedLog<E>, more: &'a [PromisedLog<E>]) -> &'a PromisedLog<E>
    ensures { result.now ≡ best first.now more.now }
{
    let mut best = first;
    for promised in more {
        if is_better(promised, best) {
            best = promised;
        }
    }
    best
}

/// Whether one of the promises is the site's.
pub fn has_promised<E: Slot>(promises: &[PromisedLog<E>], site: u8) -> bool
    ensures { result ≡ has_promised promises.now site }
{
    promises.iter().any(|promised| promised.site == site)
}

/// Tells the others the ballot's state, and chooses what f + 1 sites hold.
fn begin<E: Slot>(
    alloc: Global,
    log: &mut BallotLog<E>,
    out: &mut BallotOut<E>,
) -> Result<(), Memory>
    requires { IsLog log.old }
    ensures kept { IsLog log.new }
    ensures log { OnOk result (log.new ≡ (begin log.old).log) }
    ensures out { OnOk result (out.new ≡ onto out.old (begin log.old)) }
{
    let state = BallotMessage::NewState {
        ballot: log.ballot,
        base: log.chosen.len() as u64,
        tail: copies(alloc, log.tail.as_slice())?,
    };
    send_to_others(alloc, log, &state, out)?;
    advance(alloc, log, out)
}

/// A copy of the promise.
fn copy_promise<E: Slot>(alloc: Global, promised: &PromisedLog<E>) -> Result<PromisedLog<E>, Memory>
    ensures { IfOk result (λ copy. copy ≡ promised.now) }
{
    Ok(PromisedLog {
        site: promised.site,
        accepted: promised.accepted,
        base: promised.base,
        tail: copies(alloc, promised.tail.as_slice())?,
    })
}

/// A copy of the best of these promises.
fn best_of<E: Slot>(
    alloc: Global,
    promises: &[PromisedLog<E>],
) -> Result<Option<PromisedLog<E>>, Memory>
    ensures { IfOk result (λ promised. promised ≡ best_of promises.now) }
{
    match promises {
        [] => Ok(None),
        [first, more @ ..] => Ok(Some(copy_promise(alloc, best(first, more))?)),
    }
}

/// The best promise, where this site collects and has f + 1.
fn due<E: Slot>(alloc: Global, log: &BallotLog<E>) -> Result<Option<PromisedLog<E>>, Memory>
    ensures { IfOk result (λ promised. promised ≡ due log.now log.now.role) }
{
    match &log.role {
        Role::Follower => Ok(None),
        Role::Candidate { promises } => {
            if usize::from(log.f) < promises.len() {
                best_of(alloc, promises.as_slice())
            } else {
                Ok(None)
            }
        }
        Role::Leader { acks: _ } => Ok(None),
    }
}

/// Leads with the best promise's entries, or asks its site for chosen ones that are missing here.
#[tactic(auto, using(crate::proofs::Onto::onto_sending))]
fn start_by<E: Slot>(
    alloc: Global,
    log: &mut BallotLog<E>,
    promised: PromisedLog<E>,
    out: &mut BallotOut<E>,
) -> Result<(), Memory>
    requires log { IsLog log.old }
    requires window { length promised.tail ≤ WINDOW }
    ensures kept { IsLog log.new }
    ensures log { OnOk result (log.new ≡ (start_by log.old promised).log) }
    ensures out { OnOk result (out.new ≡ onto out.old (start_by log.old promised)) }
{
    let chosen = log.chosen.len();
    if (chosen as u64) < promised.base {
        return send(
            promised.site,
            BallotMessage::CatchUp {
                length: chosen as u64,
            },
            out,
        );
    }
    log.tail = copies_from(
        alloc,
        promised.tail.as_slice(),
        chosen - promised.base as usize,
    )?;
    log.accepted = log.ballot;
    log.role = Role::Leader { acks: [None; 9] };
    begin(alloc, log, out)
}

/// A collector with f + 1 promises leads.
#[tactic(auto, unfolding(us_ballot_model::specs::Rules::start), using(crate::proofs::Onto::onto_dropped))]
pub fn start<E: Slot>(
    alloc: Global,
    log: &mut BallotLog<E>,
    out: &mut BallotOut<E>,
) -> Result<(), Memory>
    requires { IsLog log.old }
    ensures kept { IsLog log.new }
    ensures log { OnOk result (log.new ≡ (start log.old).log) }
    ensures out { OnOk result (out.new ≡ onto out.old (start log.old)) }
{
    match due(alloc, log)? {
        None => Ok(()),
        Some(promised) => start_by(alloc, log, promised, out),
    }
}
