use us_base::Vector;
use us_kind::{Items, Tid};
use us_value::{Effect, Item, Op, Write};

/// A transaction that a partition has prepared under a timestamp and that isn't committed.
#[derive(Drop)]
pub struct PreparedTx {
    pub tid: Tid,
    pub ts: u64,
    pub snapshot: Vector,
    pub writes: Items<Write>,
}

/// A coordinator's question for a version, which waits at a partition: the sender's actor, and what it asks.
#[derive(Drop)]
pub struct Get {
    pub from: u8,
    pub tid: Tid,
    pub place: u8,
    pub at: u64,
    pub snapshot: Vector,
    pub item: Item,
    pub op: Op,
    pub own: Items<(u8, Effect)>,
}
