//! The transactions that were begun.
ghost use Rattle.std.specs.Prelude.{◌≡◌, ◌++◌, ◌∷◌, [], OnOk, slice_get};
ghost use Rattle.us_history.specs.Histories.{begun_of};

use std::alloc::Global;
use std::marker::Model;
use us_base::Vector;
use us_exec::SessionName;
use us_index::Places;
use us_kind::{Memory, Tid};

/// A transaction was begun.
#[derive(Clone, Copy)]
pub struct Beginning {
    pub tid: Tid,
    pub session: SessionName,
    pub snapshot: Vector,
}

impl Model for Beginning {
    ghost use Rattle.us_history.specs.Histories.{Begun};

    ghost Value = { Begun };

    ghost view = { λ a. record { tid = a.tid; session = a.session; snapshot = a.snapshot } };

    ghost inverse = { λ b. record { tid = b.tid; session = b.session; snapshot = b.snapshot } };
}

/// The beginnings, in order, found by their transactions.
#[derive(Drop)]
pub struct Beginnings {
    list: Vec<Beginning>,
    tids: Places<Tid>,
}

impl Model for Beginnings {
    ghost use Rattle.std.specs.Prelude.{◌≡◌, List, map};
    ghost use Rattle.us_history.specs.Histories.{Begun};

    ghost Value = { List Begun };

    ghost view = { λ a. a.list.items };

    ghost invariant = { λ a. a.tids ≡ map (λ (b : Begun). b.tid) a.list.items };
}

impl Beginnings {
    pub fn new(alloc: Global) -> Beginnings
        ensures { result ≡ [] }
    {
        Beginnings {
            list: Vec::new(alloc),
            tids: Places::new(alloc),
        }
    }

    pub fn as_slice(&self) -> &[Beginning]
        ensures { result.now ≡ self.now }
    {
        self.list.as_slice()
    }

    /// The first beginning of a transaction.
    pub fn of(&self, tid: &Tid) -> Option<Beginning>
        ensures { result ≡ begun_of tid.now self.now }
    {
        match self.tids.of(tid).first() {
            None => None,
            Some(place) => at_place(self.list.as_slice(), *place),
        }
    }

    /// Adds a beginning at the end.
    pub fn push(&mut self, beginning: Beginning) -> Result<(), Memory>
        ensures { OnOk result (self.new ≡ self.old ++ beginning ∷ []) }
    {
        self.list.push(beginning)?;
        match self.tids.push(beginning.tid) {
            Ok(()) => Ok(()),
            Err(Memory) => {
                self.list.pop();
                Err(Memory)
            }
        }
    }
}

/// The beginning at a place, where there is one.
fn at_place(list: &[Beginning], place: usize) -> Option<Beginning>
    ensures { result ≡ slice_get list.now place }
{
    if place < list.len() {
        Some(list[place])
    } else {
        None
    }
}
