//! The calls of a certifier's decided log.
ghost use Rattle.std.specs.Prelude.{◌≡◌, ◌≤◌, ◌↔◌, ℕ, List, ◌+◌, ◌++◌, ◌∷◌, [], Some, None, false, IfOk, OnOk, OnErr, length};
ghost use Rattle.us_base.specs.Shape.{IsShape};
ghost use Rattle.us_value.specs.declared.operation.Class.{Class};
ghost use Rattle.us_certify.specs.Certification.{AreAsCertified, IsByEntries, holds, first_slot, verdict_after, verdict_in};
ghost use Rattle.us_certify.specs.Logs.{pushed, pages_from};

use crate::Decision;
use crate::pages::pages_from;
use crate::verdict::{first_slot, verdict_after};
use std::alloc::Global;
use std::marker::Model;
use us_base::Shape;
use us_conflict::Conflicts;
use us_kind::{Memory, Tid};
use us_peer_wire::{LogEntry, Page, Verdict};

/// The decided entries of the ballot log, each with its verdict. Slots count from 1.
#[derive(Drop)]
pub struct Certified {
    shape: Shape,
    decisions: Vec<Decision>,
}

impl Model for Certified {
    ghost use Rattle.us_base.specs.Shape.{IsShape};
    ghost use Rattle.us_certify.specs.Logs.{CertifiedLog};

    ghost Value = { CertifiedLog };

    ghost view = { λ a. record { shape = a.shape; decisions = a.decisions.items } };

    ghost invariant = { λ a. IsShape a.shape };
}

impl Certified {
    /// Nothing is decided. It takes no memory.
    pub fn new(alloc: Global, shape: Shape) -> Certified
        requires { IsShape shape }
        ensures { result ≡ record { shape = shape; decisions = [] } }
    {
        Certified {
            shape,
            decisions: Vec::new(alloc),
        }
    }

    /// How many slots are decided.
    pub fn len(&self) -> u64
        ensures { result ≡ length self.now.decisions }
    {
        self.decisions.len() as u64
    }

    /// The next slot holds the entry: its verdict, which is that of the entry after all before it. Where all earlier entries were
    /// certified by the same conflicts, so is the whole log then.
    pub fn push(&mut self, entry: LogEntry, conflicts: &Conflicts) -> Result<Verdict, Memory>
        ensures verdict { IfOk result (λ verdict. verdict ≡ verdict_after conflicts.now self.old.decisions entry) }
        ensures ok { OnOk result (self.new ≡ pushed conflicts.now self.old entry) }
        ensures certified { AreAsCertified conflicts.now self.old.decisions → OnOk result (AreAsCertified conflicts.now self.new.decisions) }
        ensures err { OnErr result (self.new ≡ self.old) }
    {
        let verdict = verdict_after(conflicts, self.decisions.as_slice(), &entry)?;
        let told = verdict.copy()?;
        self.decisions.push(Decision { entry, verdict })?;
        Ok(told)
    }

    /// The verdict of a slot. Where the whole log was certified by some conflicts, it is that of the entries alone.
    pub fn verdict(&self, slot: u64) -> &Verdict
        requires first { 1 ≤ slot }
        requires last { slot ≤ length self.now.decisions }
        ensures kept { verdict_in self.now.decisions slot ≡ Some result.now }
        ensures certified { IsByEntries self.now.decisions slot result.now }
    {
        &self.decisions[(slot - 1) as usize].verdict
    }

    /// The pages of all slots from `first` on for a partition, or of the first 8 of these where there are more.
    pub fn page(&self, part: u8, first: u64) -> Result<Vec<Page>, Memory>
        requires { 1 ≤ first }
        ensures { IfOk result (λ pages. pages.items ≡ pages_from self.now part first) }
    {
        pages_from(
            *self.decisions.allocator(),
            self.shape,
            part,
            first,
            self.decisions.as_slice(),
        )
    }

    /// The first slot in which the transaction stands, and None exactly where it stands in none.
    pub fn outcome_of(&self, tid: Tid) -> Option<u64>
        ensures first { result ≡ first_slot self.now.decisions tid }
        ensures none { (result ≡ None) ↔ (holds self.now.decisions tid ≡ false) }
    {
        first_slot(self.decisions.as_slice(), tid)
    }
}
