//! Certification: what becomes of the strong transactions in the ballot log, each after those before it.
#![tactic(auto)]

mod certified;
mod decision;
mod example;
mod laws;
mod pages;
#[cfg(test)]
mod tests;
mod verdict;

pub use certified::Certified;
pub use decision::Decision;
pub use example::{worked_pages, worked_verdicts};
pub use laws::{
    conflicts_are_seen, decisions_stay, transactions_are_decided_once, verdicts_say_why,
};
pub use us_peer_wire::{LogEntry, Page, Verdict};
