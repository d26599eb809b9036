//! Numbers of sites, slots and ballots.
ghost use Rattle.std.specs.Prelude.{◌≡◌, ◌≤◌, ◌+◌, ◌*◌, ◌<◌, ◌^◌, IfOk, length};
ghost use Rattle.us_ballot_model.specs.Ballots.{held, ack_of, at_least, backers, next_ballot, owner, LAST};
ghost use Rattle.us_ballot_model.specs.Rules.{risen, raised};

use us_ballot_model::BallotLog;
use us_kind::{Memory, Slot};

/// How many entries the log holds.
pub fn held<E: Slot>(log: &BallotLog<E>) -> u128
    ensures value { result ≡ held log.now }
    ensures small { result < 2 ^ 65 }
{
    log.chosen.as_slice().len() as u128 + log.tail.as_slice().len() as u128
}

/// The number as one of a message. One that doesn't fit is answered as out of memory.
pub fn number(n: u128) -> Result<u64, Memory>
    ensures { IfOk result (λ m. m ≡ n) }
{
    if n < 18_446_744_073_709_551_616 {
        Ok(n as u64)
    } else {
        Err(Memory)
    }
}

/// The site that owns the ballot.
#[tactic(auto, unfolding(us_ballot_model::specs::Ballots::owner))]
pub fn owner(f: u8, ballot: u64) -> u8
    requires { f ≤ 4 }
    ensures { result ≡ owner f ballot }
{
    let sites = 2 * u64::from(f) + 1;
    (1 + ballot.saturating_sub(1) % sites) as u8
}

/// The least ballot above this one that the site owns.
#[tactic(auto, unfolding(us_ballot_model::specs::Ballots::next_ballot))]
pub fn next_ballot(f: u8, site: u8, ballot: u64) -> u64
    requires few { f ≤ 4 }
    requires room { ballot ≤ LAST }
    requires first { 1 ≤ site }
    ensures { result ≡ next_ballot f site ballot }
{
    let sites = 2 * u64::from(f) + 1;
    ballot + 1 + (2 * u64::from(f) + u64::from(site) - ballot % sites) % sites
}

/// Whether a site has acknowledged so many entries.
pub fn at_least(n: u128, ack: Option<u64>) -> bool
    ensures { result ≡ at_least n ack }
{
    match ack {
        None => false,
        Some(m) => n <= u128::from(m),
    }
}

/// How many other sites have acknowledged so many entries.
pub fn backers(acks: &[Option<u64>; 9], n: u128) -> usize
    ensures { result ≡ backers acks.now n }
{
    acks.iter().filter(|ack| at_least(n, **ack)).count()
}

/// What an acknowledgement rises to.
pub fn risen(ack: Option<u64>, length: u64) -> u64
    ensures { result ≡ risen ack length }
{
    match ack {
        None => length,
        Some(m) => m.max(length),
    }
}

/// What the site has acknowledged, if anything.
pub fn ack_of(acks: &[Option<u64>; 9], site: u8) -> Option<u64>
    requires first { 1 ≤ site }
    requires last { site ≤ 9 }
    ensures { result ≡ ack_of acks.now site }
{
    acks[usize::from(site) - 1]
}

/// The site's acknowledgement rises.
pub fn raise(acks: &mut [Option<u64>; 9], site: u8, length: u64)
    requires first { 1 ≤ site }
    requires last { site ≤ 9 }
    ensures { acks.new ≡ raised acks.old site length }
{
    acks[usize::from(site) - 1] = Some(risen(ack_of(acks, site), length));
}
