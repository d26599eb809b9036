//! The operations that were performed.
ghost use Rattle.std.specs.Prelude.{◌≡◌, ◌++◌, ◌∷◌, [], IfOk, OnOk, slice_get};
ghost use Rattle.us_history.specs.Histories.{ops_of};
ghost use Rattle.us_extract.specs.PastSearch.{done_at, done_before};

use std::alloc::Global;
use std::marker::Model;
use us_exec::Done;
use us_index::Places;
use us_kind::{Items, Memory, Tid};

/// An operation of a transaction was performed.
#[derive(Drop)]
pub struct Performance {
    pub tid: Tid,
    pub done: Done,
}

impl Model for Performance {
    ghost use Rattle.us_history.specs.Histories.{Performed};

    ghost Value = { Performed };

    ghost view = { λ a. record { tid = a.tid; done = a.done } };
}

/// The performed operations, in order, found by their transactions.
#[derive(Drop)]
pub struct Performances {
    list: Vec<Performance>,
    tids: Places<Tid>,
}

impl Model for Performances {
    ghost use Rattle.std.specs.Prelude.{◌≡◌, List, map};
    ghost use Rattle.us_history.specs.Histories.{Performed};

    ghost Value = { List Performed };

    ghost view = { λ a. a.list.items };

    ghost invariant = { λ a. a.tids ≡ map (λ (p : Performed). p.tid) a.list.items };
}

impl Performances {
    pub fn new(alloc: Global) -> Performances
        ensures { result ≡ [] }
    {
        Performances {
            list: Vec::new(alloc),
            tids: Places::new(alloc),
        }
    }

    pub fn as_slice(&self) -> &[Performance]
        ensures { result.now ≡ self.now }
    {
        self.list.as_slice()
    }

    /// Copies of a transaction's operations, in order.
    pub fn of(&self, alloc: Global, tid: &Tid) -> Result<Items<Done>, Memory>
        ensures { IfOk result (λ ops. ops ≡ ops_of tid.now self.now) }
    {
        operations_at(alloc, self.list.as_slice(), self.tids.of(tid))
    }

    /// Adds a performed operation at the end.
    pub fn push(&mut self, tid: Tid, done: Done) -> Result<(), Memory>
        ensures { OnOk result (self.new ≡ self.old ++ record { tid = tid; done = done } ∷ []) }
    {
        self.list.push(Performance { tid, done })?;
        match self.tids.push(tid) {
            Ok(()) => Ok(()),
            Err(Memory) => {
                self.list.pop();
                Err(Memory)
            }
        }
    }
}

/// Copies of the operations at these places.
fn operations_at(
    alloc: Global,
    list: &[Performance],
    places: &[usize],
) -> Result<Items<Done>, Memory>
    ensures { IfOk result (λ ops. ops ≡ done_at list.now places.now) }
{
    let mut ops = Items::new(alloc);
    for place in places {
        add_copy(&mut ops, list, *place)?;
    }
    Ok(ops)
}

/// Adds a copy of the operation at this place, where there is one.
fn add_copy(ops: &mut Items<Done>, list: &[Performance], place: usize) -> Result<(), Memory>
    ensures { OnOk result (ops.new ≡ ops.old ++ done_before (slice_get list.now place) []) }
{
    if place >= list.len() {
        return Ok(());
    }
    let performance = &list[place];
    ops.push(performance.done.copy()?)
}
