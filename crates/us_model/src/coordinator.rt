use crate::Outputs;
use us_base::{Shape, Vector};
use us_client_wire::Request;
use us_exec::Done;
use us_kind::{Items, Tid};
use us_peer_wire::Actor;
use us_value::{Item, Op, Write};
use us_wire::FrameReader;

/// A transaction that runs: its operations that were answered, and the writes that they made.
#[derive(Drop)]
pub struct Transaction {
    pub tid: Tid,
    pub snapshot: Vector,
    pub ops: Items<Done>,
    pub writes: Items<Write>,
}

/// A request that waits for its turn, and the number of its frame in the session.
#[derive(Drop)]
pub struct QueuedRequest {
    pub at: u64,
    pub request: Request,
}

/// The timestamp under which a partition has prepared a transaction.
#[derive(Clone, Copy, Debug, PartialEq, Eq)]
pub struct Vote {
    pub part: u8,
    pub ts: u64,
}

/// What the request that a session is at waits for.
#[derive(Drop)]
pub enum Await {
    Nothing,
    /// The version for the operation at this place.
    Version {
        at: u64,
        place: u8,
        item: Item,
        op: Op,
    },
    /// The partitions that haven't prepared the transaction, beside the votes of the others.
    Prepared {
        at: u64,
        pending: Items<u8>,
        votes: Items<Vote>,
    },
}

/// A session. Its unanswered requests are the one that it waits with, if it waits, and then those of `requests`.
#[derive(Drop)]
pub struct Session {
    pub number: u64,
    /// At least the vector of each transaction that was committed in the session.
    pub past: Vector,
    /// How many frames have come.
    pub asked: u64,
    pub stream: FrameReader,
    /// Whether it has begun a transaction.
    pub begun: bool,
    /// How many transactions were committed in it.
    pub count: u64,
    pub running: Option<Transaction>,
    pub waits: Await,
    pub requests: Items<QueuedRequest>,
    /// A closed session takes and says no more; a transaction that was being committed goes on.
    pub closed: bool,
}

/// What a coordinator sees of its actor while one event is taken.
#[derive(Clone, Copy)]
pub struct View {
    /// The coordinator's own actor.
    pub me: Actor,
    /// The shape of the store, by which replies are encoded.
    pub shape: Shape,
    /// The vector that snapshots begin with.
    pub base: Vector,
}

/// What the sessions of a coordinator share while one event is taken.
#[derive(Drop)]
pub struct Context {
    /// The coordinator's own actor.
    pub me: Actor,
    /// The shape of the store, by which replies are encoded.
    pub shape: Shape,
    /// The vector that snapshots begin with.
    pub base: Vector,
    /// How many transactions the coordinator has begun.
    pub seq: u64,
    pub out: Outputs,
}
