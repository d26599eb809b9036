//! What happened to transactions, by kind.
ghost use Rattle.std.specs.Prelude.{◌≡◌, ◌++◌, ◌∷◌, [], Some, IfOk, OnOk};
ghost use Rattle.us_history.specs.Histories.{no_history, begun_of, ops_of};
ghost use Rattle.us_history.specs.Executions.{end_of};
ghost use Rattle.us_extract.specs.Decisions.{HasDecided};

use crate::beginnings::{Beginning, Beginnings};
use crate::commits::{Commit, Commits};
use crate::performances::{Performance, Performances};
use std::alloc::Global;
use std::marker::Model;
use us_base::Vector;
use us_exec::{Done, Link, LooseEnd, RefusedRequest, SessionName};
use us_index::Listed;
use us_kind::{Items, Memory, Tid};

/// What happened so far, each kind in order.
#[derive(Drop)]
pub struct History {
    begun: Beginnings,
    performed: Performances,
    committed: Commits,
    left: Listed<Tid>,
    links: Vec<Link>,
    refused: Vec<RefusedRequest>,
}

impl Model for History {
    ghost use Rattle.std.specs.Prelude.{[]};
    ghost use Rattle.us_history.specs.Histories.{History as Told};

    ghost Value = { Told };

    ghost view = { λ a. record { begun = a.begun; performed = a.performed; committed = a.committed; left = a.left; aborted = []; links = a.links.items; refused = a.refused.items } };
}

impl History {
    /// Nothing happened yet.
    pub fn new(alloc: Global) -> History
        ensures { result ≡ no_history }
    {
        History {
            begun: Beginnings::new(alloc),
            performed: Performances::new(alloc),
            committed: Commits::new(alloc),
            left: Listed::new(alloc),
            links: Vec::new(alloc),
            refused: Vec::new(alloc),
        }
    }

    /// A transaction of a session begins, with this snapshot.
    pub fn begin(&mut self, tid: Tid, session: SessionName, snapshot: Vector) -> Result<(), Memory>
        ensures { OnOk result (self.new ≡ record self.old { begun = self.old.begun ++ record { tid = tid; session = session; snapshot = snapshot } ∷ [] }) }
    {
        self.begun.push(Beginning {
            tid,
            session,
            snapshot,
        })
    }

    /// An operation of a transaction was performed.
    pub fn perform(&mut self, tid: Tid, done: Done) -> Result<(), Memory>
        ensures { OnOk result (self.new ≡ record self.old { performed = self.old.performed ++ record { tid = tid; done = done } ∷ [] }) }
    {
        self.performed.push(tid, done)
    }

    /// A transaction commits with this vector, if it was begun: the next of its session.
    pub fn decide(&mut self, tid: &Tid, strong: bool, vector: Vector) -> Result<(), Memory>
        ensures { OnOk result (HasDecided strong vector (begun_of tid.now self.old.begun) self.old self.new) }
    {
        match self.begun.of(tid) {
            None => Ok(()),
            Some(begun) => self.commit(begun, strong, vector),
        }
    }

    /// A transaction is left by its session.
    pub fn leave(&mut self, tid: Tid) -> Result<(), Memory>
        ensures { OnOk result (self.new ≡ record self.old { left = self.old.left ++ tid ∷ [] }) }
    {
        self.left.push(tid)
    }

    /// A request of a session is refused.
    pub fn refuse(&mut self, session: SessionName, at: u64, number: u8) -> Result<(), Memory>
        ensures { OnOk result (self.new ≡ record self.old { refused = self.old.refused ++ record { session = session; at = at; number = number } ∷ [] }) }
    {
        self.refused.push(RefusedRequest {
            session,
            at,
            number,
        })?;
        Ok(())
    }

    /// The beginnings, in order.
    pub fn begun(&self) -> &[Beginning]
        ensures { result.now ≡ self.now.begun }
    {
        self.begun.as_slice()
    }

    /// The performed operations, in order.
    pub fn performed(&self) -> &[Performance]
        ensures { result.now ≡ self.now.performed }
    {
        self.performed.as_slice()
    }

    /// The committed transactions, in order of decision.
    pub fn committed(&self) -> &[Commit]
        ensures { result.now ≡ self.now.committed }
    {
        self.committed.as_slice()
    }

    /// The transactions that left, in order.
    pub fn left(&self) -> &[Tid]
        ensures { result.now ≡ self.now.left }
    {
        self.left.as_slice()
    }

    /// The links from sessions to those that they go on from, in order. None is told of yet.
    pub fn links(&self) -> &[Link]
        ensures { result.now ≡ self.now.links }
    {
        self.links.as_slice()
    }

    /// The refused requests, in order.
    pub fn refused(&self) -> &[RefusedRequest]
        ensures { result.now ≡ self.now.refused }
    {
        self.refused.as_slice()
    }

    /// The committed transactions, found by their groups.
    pub(crate) fn commits(&self) -> &Commits
        ensures { result.now ≡ self.now.committed }
    {
        &self.committed
    }

    /// Copies of a transaction's operations, in order.
    pub(crate) fn operations_of(&self, alloc: Global, tid: &Tid) -> Result<Items<Done>, Memory>
        ensures { IfOk result (λ ops. ops ≡ ops_of tid.now self.now.performed) }
    {
        self.performed.of(alloc, tid)
    }

    /// How a transaction stands that was begun and isn't committed.
    pub(crate) fn end_of(&self, tid: &Tid) -> LooseEnd
        ensures { result ≡ end_of tid.now self.now.aborted self.now.left }
    {
        if self.left.contains(tid) {
            LooseEnd::Left
        } else {
            LooseEnd::Open
        }
    }

    /// A transaction that was begun commits.
    fn commit(&mut self, begun: Beginning, strong: bool, vector: Vector) -> Result<(), Memory>
        ensures { OnOk result (HasDecided strong vector (Some begun) self.old self.new) }
    {
        let alloc = *self.refused.allocator();
        let number = self.committed.next_number(&begun.session)?;
        let ops = self.performed.of(alloc, &begun.tid)?;
        self.committed.push(Commit {
            begun,
            number,
            strong,
            vector,
            ops,
        })
    }
}
