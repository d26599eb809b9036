//! The verdict of an entry, by a pass over the decisions before it.
ghost use Rattle.std.specs.Prelude.{◌≡◌, ◌+◌, IfOk};
ghost use Rattle.us_certify.specs.Certification.{vector_in, is_commit, holds, is_unseen, abort_by, certified_by, verdict_after, first_place, first_slot};

use crate::Decision;
use us_base::Vector;
use us_conflict::Conflicts;
use us_kind::{Memory, Tid};
use us_peer_wire::{LogEntry, Verdict};

/// The vector with which the entry in a slot commits.
pub fn vector_in(slot: u64, entry: &LogEntry) -> Vector
    ensures { result ≡ vector_in slot entry.now }
{
    entry.snapshot.with_entry(0, slot)
}

/// The first place, from 0, at which the transaction stands.
fn first_place(decisions: &[Decision], tid: Tid) -> Option<usize>
    ensures { result ≡ first_place decisions.now tid }
{
    decisions.iter().position(|d| d.entry.tid.same(&tid))
}

/// The first slot in which the transaction stands.
pub fn first_slot(decisions: &[Decision], tid: Tid) -> Option<u64>
    ensures { result ≡ first_slot decisions.now tid }
{
    match first_place(decisions, tid) {
        Some(place) => Some(place as u64 + 1),
        None => None,
    }
}

/// Whether the transaction stands in a slot.
fn holds(decisions: &[Decision], tid: Tid) -> bool
    ensures { result ≡ holds decisions.now tid }
{
    decisions.iter().any(|d| d.entry.tid.same(&tid))
}

fn is_commit(verdict: &Verdict) -> bool
    ensures { result ≡ is_commit verdict.now }
{
    match verdict {
        Verdict::Commit => true,
        Verdict::Abort { .. } => false,
        Verdict::Repeat => false,
    }
}

/// Whether the decision in the slot committed a transaction that the entry's snapshot doesn't hold.
fn is_unseen(entry: &LogEntry, slot: u64, decision: &Decision) -> bool
    ensures { result ≡ is_unseen entry.now slot decision.now }
{
    is_commit(&decision.verdict) && !vector_in(slot, &decision.entry).at_most(&entry.snapshot)
}

/// The abort of the entry by the decision in an earlier slot, where that is unseen and conflicts.
fn abort_by(
    conflicts: &Conflicts,
    entry: &LogEntry,
    slot: u64,
    decision: &Decision,
) -> Result<Option<Verdict>, Memory>
    ensures { IfOk result (λ abort. abort ≡ abort_by conflicts.now entry.now slot decision.now) }
{
    if !is_unseen(entry, slot, decision) {
        return Ok(None);
    }
    let touches = entry.touches.as_slice();
    let Some(place) = conflicts.transactions(touches, decision.entry.touches.as_slice()) else {
        return Ok(None);
    };
    Ok(Some(Verdict::Abort {
        slot,
        named: decision.entry.tid,
        item: touches[place].0.copy()?,
    }))
}

/// The abort by the first decision that makes one, else a commit.
fn certified_by(
    conflicts: &Conflicts,
    entry: &LogEntry,
    decisions: &[Decision],
) -> Result<Verdict, Memory>
    ensures { IfOk result (λ verdict. verdict ≡ certified_by conflicts.now entry.now 1 decisions.now) }
{
    for (place, decision) in decisions.iter().enumerate() {
        if let Some(abort) = abort_by(conflicts, entry, place as u64 + 1, decision)? {
            return Ok(abort);
        }
    }
    Ok(Verdict::Commit)
}

/// The verdict of an entry that comes after these decisions.
pub fn verdict_after(
    conflicts: &Conflicts,
    decisions: &[Decision],
    entry: &LogEntry,
) -> Result<Verdict, Memory>
    ensures { IfOk result (λ verdict. verdict ≡ verdict_after conflicts.now decisions.now entry.now) }
{
    if holds(decisions, entry.tid) {
        Ok(Verdict::Repeat)
    } else {
        certified_by(conflicts, entry, decisions)
    }
}
