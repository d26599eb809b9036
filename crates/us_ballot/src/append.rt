//! A leader puts entries into slots.
ghost use Rattle.std.specs.Prelude.{◌≡◌, ◌≤◌, ◌<◌, ◌++◌, ◌∷◌, [], OnOk, IfOk, length};
ghost use Rattle.us_ballot_model.specs.Ballots.{IsLog, WINDOW};
ghost use Rattle.us_ballot_model.specs.Rules.{put_in, append, append_answer};
ghost use Rattle.us_ballot.specs.Outs.{onto};

use crate::advance::advance;
use crate::learn::leads;
use crate::numbers::{held, number};
use crate::sends::{nothing, send_to_others};
use std::alloc::Global;
use us_ballot_model::{Appended, BallotLog, BallotMessage, BallotOut};
use us_kind::{Memory, Slot};

/// The most entries of a tail.
const TAIL: usize = 8;

/// The entry joins the tail, and the others are told.
fn put_in<E: Slot>(
    alloc: Global,
    log: &mut BallotLog<E>,
    entry: E,
    out: &mut BallotOut<E>,
) -> Result<(), Memory>
    requires log { IsLog log.old }
    requires room { length log.old.tail < WINDOW }
    ensures kept { IsLog log.new }
    ensures log { OnOk result (log.new ≡ (put_in log.old entry).log) }
    ensures out { OnOk result (out.new ≡ onto out.old (put_in log.old entry)) }
{
    let told = BallotMessage::Accept {
        ballot: log.ballot,
        slot: number(held(log) + 1)?,
        entry: entry.copy()?,
    };
    log.tail.push(entry)?;
    send_to_others(alloc, log, &told, out)?;
    advance(alloc, log, out)
}

/// A leader whose tail has room puts the entry into the next slot.
#[tactic(auto, unfolding(us_ballot_model::specs::Rules::append, us_ballot_model::specs::Rules::append_answer))]
pub fn append<E: Slot>(
    alloc: Global,
    log: &mut BallotLog<E>,
    entry: E,
) -> Result<Appended<E>, Memory>
    requires { IsLog log.old }
    ensures kept { IsLog log.new }
    ensures log { OnOk result (log.new ≡ (append log.old entry).log) }
    ensures answer { IfOk result (λ answer. answer ≡ append_answer log.old entry) }
{
    if !leads(&log.role) {
        return Ok(Appended::NotLeader(entry));
    }
    if log.tail.len() >= TAIL {
        return Ok(Appended::Full(entry));
    }
    let mut out = nothing(alloc);
    put_in(alloc, log, entry, &mut out)?;
    Ok(Appended::In(out))
}
