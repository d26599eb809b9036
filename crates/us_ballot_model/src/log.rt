use us_kind::Items;

/// A promise as its collector keeps it: who gave it, the ballot of its tail, how many entries it had chosen, its tail.
#[derive(Debug, Drop)]
pub struct PromisedLog<E> {
    pub site: u8,
    pub accepted: u64,
    pub base: u64,
    pub tail: Items<E>,
}

/// What a site does in its ballot.
#[derive(Debug, Drop)]
pub enum Role<E> {
    /// It follows the ballot's owner.
    Follower,
    /// It owns the ballot and collects promises, each site's at most once.
    Candidate { promises: Items<PromisedLog<E>> },
    /// It owns the ballot and leads. At place `j - 1` stands the length that site j acknowledged, where it has; its own place
    /// stays empty, since what it holds itself is its length at every moment.
    Leader { acks: [Option<u64>; 9] },
}

/// One site's ballot log: of 2f + 1 sites the one of this number, its ballot, the ballot of its tail, the chosen entries
/// from slot 1 on, the tail of at most 8 entries behind them, and its role.
#[derive(Debug, Drop)]
pub struct BallotLog<E> {
    pub f: u8,
    pub site: u8,
    pub ballot: u64,
    pub accepted: u64,
    pub chosen: Items<E>,
    pub tail: Items<E>,
    pub role: Role<E>,
}
