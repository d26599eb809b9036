//! A log that the sites agree on by ballots, whatever its entries are.
#![tactic(auto)]

mod advance;
mod append;
mod ballots;
mod collect;
mod copies;
mod follow;
mod learn;
mod messages;
mod numbers;
mod repeat;
mod sends;
mod start;
#[cfg(test)]
mod tests;

pub use ballots::Ballots;
pub use messages::is_message;
pub use us_ballot_model::{Appended, BallotMessage, BallotOut};
