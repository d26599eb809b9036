//! Replication: what one site sends another of an origin's transactions, and up to where it was sent.
#![tactic(auto)]

mod batches;
mod sent;
#[cfg(test)]
mod tests;

pub use batches::batch_for;
pub use sent::Sent;
pub use us_oplog::{Batch, take_batch};
