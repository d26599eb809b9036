use us_kind::Items;

/// What the sites' ballot logs tell each other. Ballots and slots count from 1.
#[derive(Debug, Drop)]
pub enum BallotMessage<E> {
    /// The ballot's owner wants to lead.
    NewBallot {
        ballot: u64,
    },
    /// The sender has moved to the ballot. It tells the ballot that its tail is of, how many entries it has chosen, and its
    /// tail of at most 8.
    Promise {
        ballot: u64,
        accepted: u64,
        base: u64,
        tail: Items<E>,
    },
    /// The ballot's owner leads, with this many chosen entries and this tail of at most 8.
    NewState {
        ballot: u64,
        base: u64,
        tail: Items<E>,
    },
    /// The leader has put the entry into the slot.
    Accept {
        ballot: u64,
        slot: u64,
        entry: E,
    },
    /// The sender holds the ballot's log up to this length.
    Accepted {
        ballot: u64,
        length: u64,
    },
    /// The sender has chosen this many entries and asks for the next.
    CatchUp {
        length: u64,
    },
    /// One to 8 chosen entries from the slot `first` on.
    Learn {
        first: u64,
        entries: Items<E>,
    },
}

/// What a step gives: messages in order, each with the site that it goes to, and the entries that the step made chosen here.
#[derive(Debug, Drop)]
pub struct BallotOut<E> {
    pub sends: Items<(u8, BallotMessage<E>)>,
    pub chosen: Items<E>,
}

/// What became of an entry that was to be appended.
#[derive(Debug, Drop)]
pub enum Appended<E> {
    /// It is in the tail.
    In(BallotOut<E>),
    /// This site doesn't lead, and gives the entry back.
    NotLeader(E),
    /// The tail holds 8 entries already, and the entry comes back.
    Full(E),
}
