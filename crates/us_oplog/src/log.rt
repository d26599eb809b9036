//! The log of a partition, in which the transactions that write an item are found without a walk.
ghost use Rattle.std.specs.Prelude.{◌≡◌, ◌<◌, ◌++◌, ◌∷◌, [], length, IfOk, OnOk, OnErr};
ghost use Rattle.us_base.specs.Vector.{zero, join};
ghost use Rattle.us_value.specs.Items.{item_eq};
ghost use Rattle.us_value.specs.Values.{initial};
ghost use Rattle.us_index.specs.Places.{places_of, places_under};
ghost use Rattle.us_history.specs.States.{after_log};
ghost use Rattle.us_oplog.specs.Logs.{writes_on, placed};
ghost use Rattle.us_oplog.specs.Ranges.{range};

use crate::range::range;
use crate::reading::apply_places;
use std::alloc::Global;
use std::collections::HashMap;
use std::marker::Model;
use std::mem;
use us_base::Vector;
use us_history::LogTx;
use us_index::{places_under, put_under};
use us_kind::{Items, Memory};
use us_value::{Item, Kind, State, Write};

/// The transactions that are committed, in order of coming, and the floor of the snapshots that are asked for.
#[derive(Drop)]
pub struct OpLog {
    transactions: Vec<LogTx>,
    places: HashMap<Item, Items<usize>>,
    floor: Vector,
}

impl Model for OpLog {
    ghost use Rattle.std.specs.Prelude.{◌≡◌};
    ghost use Rattle.us_value.specs.declared.item.Item.{Item};
    ghost use Rattle.us_value.specs.Items.{item_eq};
    ghost use Rattle.us_index.specs.Places.{places_of, places_under};
    ghost use Rattle.us_oplog.specs.Logs.{LogState, writes_on};

    ghost Value = { LogState };

    ghost view = { λ a. record { transactions = a.transactions.items; floor = a.floor } };

    ghost invariant = { λ a. (item : Item) → places_under item_eq a.places item ≡ places_of (writes_on item) 0 a.transactions.items };
}

impl OpLog {
    /// An empty log, whose floor is zero. It takes no memory.
    pub fn new(alloc: Global) -> OpLog
        ensures { result ≡ record { transactions = []; floor = zero } }
    {
        OpLog {
            transactions: Vec::new(alloc),
            places: HashMap::new(alloc),
            floor: Vector::zero(),
        }
    }

    /// The transactions, in order of coming.
    pub fn as_slice(&self) -> &[LogTx]
        ensures { result.now ≡ self.now.transactions }
    {
        self.transactions.as_slice()
    }

    /// How many transactions there are.
    pub fn len(&self) -> usize
        ensures { result ≡ length self.now.transactions }
    {
        self.as_slice().len()
    }

    /// The floor of the snapshots that are asked for.
    pub fn floor(&self) -> Vector
        ensures { result ≡ self.now.floor }
    {
        self.floor
    }

    /// Adds a transaction at the end. After a failed allocation there is none, and the floor is as it was.
    pub fn append(&mut self, transaction: LogTx) -> Result<(), Memory>
        ensures ok { OnOk result (self.new ≡ record { transactions = self.old.transactions ++ transaction ∷ []; floor = self.old.floor }) }
        ensures err { OnErr result (self.new ≡ record { transactions = []; floor = self.old.floor }) }
    {
        let alloc = *self.transactions.allocator();
        let floor = self.floor;
        let log = mem::replace(self, OpLog::above(alloc, floor));
        *self = log.with(alloc, transaction)?;
        Ok(())
    }

    /// The state of an item of this kind in a snapshot: that of the writes on it of exactly the transactions with vectors at
    /// most the snapshot.
    #[tactic(auto, using(crate::proofs::LogPlaces::state_by_places))]
    pub fn read_at(&self, item: &Item, kind: Kind, snapshot: &Vector) -> Result<State, Memory>
        ensures { IfOk result (λ state. state ≡ after_log item.now snapshot.now (initial kind) self.now.transactions) }
    {
        let alloc = *self.transactions.allocator();
        let mut state = State::initial(alloc, kind)?;
        apply_places(
            alloc,
            &mut state,
            item,
            snapshot,
            self.transactions.as_slice(),
            self.places_of(item),
        )?;
        Ok(state)
    }

    /// Copies of the first `count` causal transactions of an origin whose entry for it is above `lo` and at most `hi`, ascending
    /// by that entry, equal ones in the order of the log.
    pub fn range(&self, origin: u8, lo: u64, hi: u64, count: usize) -> Result<Vec<LogTx>, Memory>
        requires { origin < 10 }
        ensures { IfOk result (λ found. found.items ≡ range origin lo hi count self.now.transactions) }
    {
        let alloc = *self.transactions.allocator();
        range(alloc, self.transactions.as_slice(), origin, lo, hi, count)
    }

    /// The floor rises to its join with the vector.
    pub fn set_floor(&mut self, floor: &Vector)
        ensures { self.new ≡ record { transactions = self.old.transactions; floor = join self.old.floor floor.now } }
    {
        self.floor = self.floor.join(floor);
    }

    /// An empty log with this floor.
    fn above(alloc: Global, floor: Vector) -> OpLog
        ensures { result ≡ record { transactions = []; floor = floor } }
    {
        OpLog {
            transactions: Vec::new(alloc),
            places: HashMap::new(alloc),
            floor,
        }
    }

    /// The places of the transactions that write the item, ascending, counted from 0.
    fn places_of(&self, item: &Item) -> &[usize]
        ensures { result.now ≡ places_of (writes_on item.now) 0 self.now.transactions }
    {
        places_under(&self.places, item)
    }

    /// The log with one more transaction.
    fn with(self, alloc: Global, transaction: LogTx) -> Result<OpLog, Memory>
        ensures { IfOk result (λ log. log ≡ record { transactions = self.transactions ++ transaction ∷ []; floor = self.floor }) }
    {
        let OpLog {
            mut transactions,
            mut places,
            floor,
        } = self;
        let place = transactions.as_slice().len();
        put_writes(alloc, &mut places, transaction.writes.as_slice(), place)?;
        transactions.push(transaction)?;
        Ok(OpLog {
            transactions,
            places,
            floor,
        })
    }
}

/// The place of a transaction comes under each item that it writes.
fn put_writes(
    alloc: Global,
    places: &mut HashMap<Item, Items<usize>>,
    writes: &[Write],
    place: usize,
) -> Result<(), Memory>
    ensures { OnOk result ((item : Item) → places_under item_eq places.new item ≡ placed item place writes.now (places_under item_eq places.old item)) }
{
    for write in writes {
        put_under(alloc, places, write.item.copy()?, place)?;
    }
    Ok(())
}
