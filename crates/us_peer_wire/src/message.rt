use us_base::Vector;
use us_kind::{Items, Tid};
use us_value::{Answer, Class, Effect, Item, Op, Write};

/// Who sends and takes packets: at a site, from 1, its certifier is actor 0, and each partition, with the
/// coordinator of the same number, the actor of that number.
#[derive(Clone, Copy, Debug, PartialEq, Eq, Hash)]
pub struct Actor {
    pub site: u8,
    pub actor: u8,
}

/// A message on its way.
#[derive(Debug, PartialEq, Eq, Drop)]
pub struct Packet {
    pub from: Actor,
    pub to: Actor,
    pub message: Message,
}

/// What actors tell each other.
#[derive(Debug, PartialEq, Eq, Drop)]
pub enum Message {
    /// A coordinator asks a partition for the version of an item at a snapshot: `op` is the operation at
    /// `place` of the transaction, asked for by the session's request `at`; `own` are the transaction's own
    /// earlier effects on the item, with their places, in order.
    Get {
        tid: Tid,
        place: u8,
        at: u64,
        snapshot: Vector,
        item: Item,
        op: Op,
        own: Items<(u8, Effect)>,
    },
    Version {
        version: Version,
    },
    /// A coordinator asks a partition to prepare a transaction's writes there.
    Prepare {
        tid: Tid,
        snapshot: Vector,
        writes: Items<Write>,
    },
    /// The partition has prepared the transaction under this timestamp.
    Prepared {
        tid: Tid,
        ts: u64,
    },
    /// The transaction is committed with this vector.
    Commit {
        tid: Tid,
        vector: Vector,
    },
    /// To the same partition of another site: the causal transactions of site `origin` whose entry of `origin` is above `lo` and
    /// at most `hi`, at most eight of them, ascending by that entry, each with its vector and its writes there.
    Replicate {
        origin: u8,
        lo: u64,
        hi: u64,
        txs: Items<(Tid, Vector, Items<Write>)>,
    },
    /// To another actor of the site: what the partition knows, and up to where all of its transactions are done.
    KnownLocal {
        known: Vector,
        horizon: Vector,
    },
    /// To the same partition of another site: what is stable at the sender's.
    Stable {
        vector: Vector,
    },
    /// To the same partition of another site: what the sender knows.
    KnownGlobal {
        vector: Vector,
    },
    /// A coordinator hands a strong transaction to a certifier.
    Submit {
        entry: LogEntry,
    },
    /// A certifier tells a coordinator how its strong transaction ended.
    Outcome {
        outcome: Outcome,
    },
    /// A certifier tells a partition the pages of one to eight slots from `first` on.
    Deliver {
        first: u64,
        pages: Items<Page>,
    },
    /// A certifier begins to lead in this ballot.
    NewBallot {
        ballot: u64,
    },
    /// The answer: the ballot of the sender's undecided entries, how many slots it knows to be decided, and the at most eight
    /// entries behind them.
    Promise {
        ballot: u64,
        accepted: u64,
        base: u64,
        tail: Items<LogEntry>,
    },
    /// What the leader of a ballot begins with: how many slots it knows to be decided, and the at most eight entries behind them.
    NewState {
        ballot: u64,
        base: u64,
        tail: Items<LogEntry>,
    },
    /// The leader puts an entry into a slot.
    Accept {
        ballot: u64,
        slot: u64,
        entry: LogEntry,
    },
    /// The sender has the leader's entries up to this length.
    Accepted {
        ballot: u64,
        length: u64,
    },
    /// The sender knows so many decided slots.
    CatchUp {
        length: u64,
    },
    /// The one to eight decided entries from slot `first` on.
    Learn {
        first: u64,
        entries: Items<LogEntry>,
    },
}

/// The answer to a `Get`, whose transaction, place and `at` it repeats.
#[derive(Debug, PartialEq, Eq, Drop)]
pub struct Version {
    pub tid: Tid,
    pub place: u8,
    pub at: u64,
    pub form: Form,
}

/// What a version tells.
#[derive(Debug, PartialEq, Eq, Drop)]
pub enum Form {
    /// The operation's answer, and its effect where it updates.
    Answered {
        answer: Answer,
        effect: Option<Effect>,
    },
    /// The effect is longer than the writes of a transaction may be.
    WritesFull,
    /// The answer is longer than an answer may be.
    AnswerFull,
}

/// A strong transaction as the ballot log holds it: its snapshot, each of its operations as the item and the class, in order, and
/// its writes.
#[derive(Debug, PartialEq, Eq, Drop)]
pub struct LogEntry {
    pub tid: Tid,
    pub snapshot: Vector,
    pub touches: Items<(Item, Class)>,
    pub writes: Items<Write>,
}

/// How the strong transaction in a slot of the ballot log ended.
#[derive(Debug, PartialEq, Eq, Drop)]
pub struct Outcome {
    pub tid: Tid,
    pub slot: u64,
    pub end: OutcomeEnd,
}

/// How a strong transaction ends.
#[derive(Debug, PartialEq, Eq, Drop)]
pub enum OutcomeEnd {
    Commit,
    /// It conflicts with the transaction that is named, on this item.
    Abort { named: Tid, item: Item },
}

/// What a slot of the ballot log is to a partition.
#[derive(Debug, PartialEq, Eq, Drop)]
pub enum Page {
    /// Nothing was committed in the slot.
    Skip,
    /// The transaction that was committed in the slot, its vector, and its writes at the partition.
    Holds {
        tid: Tid,
        vector: Vector,
        writes: Items<Write>,
    },
}

/// What certification says of a slot of the ballot log.
#[derive(Debug, PartialEq, Eq, Drop)]
pub enum Verdict {
    Commit,
    /// The transaction in the earlier slot, which is named, conflicts with it on this item.
    Abort { slot: u64, named: Tid, item: Item },
    /// The transaction stands in an earlier slot.
    Repeat,
}
