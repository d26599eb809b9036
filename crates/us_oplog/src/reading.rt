//! The state of an item in a snapshot, by the places of the transactions that write it.
ghost use Rattle.std.specs.Prelude.{◌≡◌, OnOk, slice_get};
ghost use Rattle.us_value.specs.Values.{updated};
ghost use Rattle.us_history.specs.States.{after_writes};
ghost use Rattle.us_oplog.specs.Logs.{after_one, after_places};

use std::alloc::Global;
use us_base::Vector;
use us_history::LogTx;
use us_kind::{Memory, Stamp, Tid};
use us_value::{Effect, Item, State, ValueFault, Write};

/// How many updates a counter takes at most.
const UPDATES: u64 = 1 << 60;

/// Makes an effect part of a state. One of another kind changes nothing. A counter that takes no more updates
/// counts as out of memory: none is met, since a site takes fewer than 2^48 events (docs/DECISIONS.md).
pub fn apply_effect(
    alloc: Global,
    state: &mut State,
    effect: &Effect,
    stamp: Stamp,
) -> Result<(), Memory>
    ensures { OnOk result (state.new ≡ updated state.old effect.now stamp) }
{
    if state.update_count() >= UPDATES {
        return Err(Memory);
    }
    match us_value::apply(alloc, state, effect, stamp) {
        Ok(()) => Ok(()),
        Err(ValueFault::WrongOperation) => Ok(()),
        Err(ValueFault::Memory) => Err(Memory),
    }
}

/// The writes on the item of the transactions at these places.
pub fn apply_places(
    alloc: Global,
    state: &mut State,
    item: &Item,
    snapshot: &Vector,
    transactions: &[LogTx],
    places: &[usize],
) -> Result<(), Memory>
    ensures { OnOk result (state.new ≡ after_places item.now snapshot.now transactions.now state.old places.now) }
{
    for place in places {
        apply_at(alloc, state, item, snapshot, transactions, *place)?;
    }
    Ok(())
}

/// The writes on the item of the transaction at this place, where its vector is at most the snapshot.
fn apply_at(
    alloc: Global,
    state: &mut State,
    item: &Item,
    snapshot: &Vector,
    transactions: &[LogTx],
    place: usize,
) -> Result<(), Memory>
    ensures { OnOk result (state.new ≡ after_one item.now snapshot.now state.old (slice_get transactions.now place)) }
{
    let Some(transaction) = transactions.get(place) else {
        return Ok(());
    };
    if !transaction.vector.at_most(snapshot) {
        return Ok(());
    }
    apply_writes(
        alloc,
        state,
        item,
        transaction.vector.sum(),
        transaction.tid,
        transaction.writes.as_slice(),
    )
}

/// A transaction's writes on the item.
fn apply_writes(
    alloc: Global,
    state: &mut State,
    item: &Item,
    sum: u128,
    tid: Tid,
    writes: &[Write],
) -> Result<(), Memory>
    ensures { OnOk result (state.new ≡ after_writes item.now sum tid state.old writes.now) }
{
    for write in writes {
        if write.item.same(item) {
            let stamp = Stamp {
                sum,
                tid,
                place: write.place,
            };
            apply_effect(alloc, state, &write.effect, stamp)?;
        }
    }
    Ok(())
}
