//! The execution that a history tells.
ghost use Rattle.std.specs.Prelude.{◌≡◌, IfOk, map};
ghost use Rattle.us_history.specs.Histories.{Committed, is_committed};
ghost use Rattle.us_history.specs.Pasts.{sessions_of};
ghost use Rattle.us_kind.specs.Comparison.{In};
ghost use Rattle.us_snapshots.specs.Ascending.{Ascends};
ghost use Rattle.us_history.specs.Executions.{entry_of, entries_of, loose_of, loose_one, execution_by};
ghost use Rattle.us_extract.specs.PastSearch.{unlinked_past};
ghost use Rattle.us_history.specs.Pasts.{direct_past};
ghost use Rattle.us_extract.specs.PastSearch.{IsSearchable};

use crate::beginnings::Beginning;
use crate::commits::{Commit, Commits};
use crate::history::History;
use crate::order::{Ranked, arbitrated, sessions_of};
use crate::past::past_of;
use std::alloc::Global;
use us_exec::{Done, Entry, Execution, Loose, RefusedRequest, SessionName};
use us_index::Listed;
use us_kind::{Items, Memory, Tid};

/// A committed transaction as an execution has it.
fn entry_of(
    alloc: Global,
    sessions: &[SessionName],
    committed: &Commits,
    commit: &Commit,
) -> Result<Entry, Memory>
    requires sessions { sessions.now ≡ sessions_of committed.now }
    requires searchable { IsSearchable committed.now commit.now.begun }
    ensures { IfOk result (λ entry. entry ≡ entry_of (unlinked_past committed.now) commit.now) }
{
    Ok(Entry {
        tid: commit.begun.tid,
        session: commit.begun.session,
        number: commit.number,
        strong: commit.strong,
        ops: copies(alloc, commit.ops.as_slice())?,
        past: past_of(alloc, sessions, committed, &commit.begun)?,
    })
}

/// Copies of the operations.
fn copies(alloc: Global, ops: &[Done]) -> Result<Items<Done>, Memory>
    ensures { IfOk result (λ copies. copies ≡ ops.now) }
{
    let mut copies = Items::new(alloc);
    for done in ops {
        copies.push(done.copy()?)?;
    }
    Ok(copies)
}

/// The committed transactions as an execution has them.
fn entries_of(
    alloc: Global,
    sessions: &[SessionName],
    committed: &Commits,
    order: &[Ranked<'_>],
) -> Result<Items<Entry>, Memory>
    requires sessions { sessions.now ≡ sessions_of committed.now }
    requires searchable { (c : Committed) → In c order.now → IsSearchable committed.now c.begun }
    ensures { IfOk result (λ entries. entries ≡ entries_of (unlinked_past committed.now) order.now) }
{
    let mut entries = Items::new(alloc);
    for ranked in order {
        entries.push(entry_of(alloc, sessions, committed, ranked.commit())?)?;
    }
    Ok(entries)
}

/// The transactions that are committed, in order of decision.
fn committed_tids(alloc: Global, committed: &[Commit]) -> Result<Listed<Tid>, Memory>
    ensures { IfOk result (λ tids. tids ≡ map (λ (c : Committed). c.begun.tid) committed.now) }
{
    let mut tids = Listed::new(alloc);
    for commit in committed {
        tids.push(commit.begun.tid)?;
    }
    Ok(tids)
}

impl History {
    /// The execution so far: the committed transactions in arbitration order, and the others in order of
    /// beginning, each with its operations and its past. Every run's history ascends (`us_order`, `histories_ascend`).
    pub fn execution(&self, alloc: Global) -> Result<Execution, Memory>
        requires { Ascends self.now }
        ensures { IfOk result (λ execution. execution ≡ execution_by direct_past self.now) }
    {
        let sessions = sessions_of(alloc, self.committed())?;
        let order = arbitrated(alloc, self.committed())?;
        Ok(Execution {
            entries: entries_of(alloc, sessions.as_slice(), self.commits(), order.as_slice())?,
            loose: self.loose(alloc, sessions.as_slice())?,
            links: Items::new(alloc),
        })
    }

    /// The refused requests, in order.
    pub fn refusals(&self, alloc: Global) -> Result<Items<RefusedRequest>, Memory>
        ensures { IfOk result (λ refusals. refusals ≡ self.now.refused) }
    {
        let mut refusals = Items::new(alloc);
        for request in self.refused() {
            refusals.push(RefusedRequest {
                session: request.session,
                at: request.at,
                number: request.number,
            })?;
        }
        Ok(refusals)
    }

    /// Whether a transaction is committed. `committed` are those that are.
    fn is_committed(&self, committed: &Listed<Tid>, tid: &Tid) -> bool
        requires { committed.now ≡ map (λ (c : Committed). c.begun.tid) self.now.committed }
        ensures { result ≡ is_committed tid.now self.now.committed }
    {
        committed.contains(tid)
    }

    /// The transactions that aren't committed.
    fn loose(&self, alloc: Global, sessions: &[SessionName]) -> Result<Items<Loose>, Memory>
        requires sessions { sessions.now ≡ sessions_of self.now.committed }
        requires ascends { Ascends self.now }
        ensures { IfOk result (λ loose. loose ≡ loose_of (unlinked_past self.now.committed) self.now self.now.begun) }
    {
        let committed = committed_tids(alloc, self.committed())?;
        let mut loose = Items::new(alloc);
        for beginning in self.begun() {
            if self.is_committed(&committed, &beginning.tid) {
                continue;
            }
            loose.push(self.loose_one(alloc, sessions, beginning)?)?;
        }
        Ok(loose)
    }

    /// A transaction that isn't committed.
    fn loose_one(
        &self,
        alloc: Global,
        sessions: &[SessionName],
        beginning: &Beginning,
    ) -> Result<Loose, Memory>
        requires sessions { sessions.now ≡ sessions_of self.now.committed }
        requires searchable { IsSearchable self.now.committed beginning.now }
        ensures { IfOk result (λ loose. loose ≡ loose_one (unlinked_past self.now.committed) self.now beginning.now) }
    {
        Ok(Loose {
            tid: beginning.tid,
            session: beginning.session,
            end: self.end_of(&beginning.tid),
            ops: self.operations_of(alloc, &beginning.tid)?,
            past: past_of(alloc, sessions, self.commits(), beginning)?,
        })
    }
}
