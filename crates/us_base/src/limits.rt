/// The limits of a store. What passes one is refused, or told as a limit of the run.
pub struct Limits;

impl Limits {
    /// How many sites there are at most: 1, 3, 5 or 7.
    pub const SITES: u8 = 7;

    /// How many partitions there are at most.
    pub const PARTITIONS: u8 = 16;

    /// The bytes of a value.
    pub const VALUE: usize = 1024;

    /// The bytes of an item's id, of which there is at least one.
    pub const ITEM_ID: u8 = 64;

    /// The operations of a transaction.
    pub const OPERATIONS: usize = 64;

    /// The bytes in which the writes of a transaction are encoded.
    pub const WRITES: usize = 65_536;

    /// The bytes in which an answer is encoded.
    pub const ANSWER: usize = 65_000;

    /// The bytes of a client's frame, its length among them.
    pub const CLIENT_FRAME: u32 = 65_536;

    /// The bytes of a site's frame, its length among them.
    pub const PEER_FRAME: u32 = 1_048_576;

    /// The open sessions of a site.
    pub const OPEN_SESSIONS: usize = 4096;

    /// The unanswered requests of a session.
    pub const REQUESTS: usize = 64;

    /// The slots of a ballot that aren't decided.
    pub const SLOTS: usize = 8;

    /// The transactions that one packet replicates.
    pub const REPLICATED: usize = 8;

    /// What a clock says that is handed in.
    pub const CLOCK: u64 = 1 << 59;

    /// A number on the wire.
    pub const NUMBER: u64 = 1 << 62;

    /// The bytes of a program's input.
    pub const TEXT: usize = 1 << 28;

    /// The sessions of a run.
    pub const RUN_SESSIONS: u64 = 512;

    /// The transactions that are begun in a run.
    pub const RUN_TRANSACTIONS: u64 = 20_000;

    /// The events of a run.
    pub const RUN_EVENTS: u64 = 1_000_000;

    /// The bytes of all packets of a run.
    pub const RUN_PACKET_BYTES: u64 = 1 << 30;

    /// The count of a load.
    pub const LOAD: u64 = 5000;

    /// The rounds in which a run settles.
    pub const ROUNDS: u64 = 100_000;

    /// The turns of a node.
    pub const TURNS: u64 = 1 << 30;
}
