//! The log of a partition: its transactions in order of coming, what an item holds in a snapshot, and whole ranges of an origin.
#![tactic(auto)]

mod batch;
mod log;
mod range;
mod reading;

pub use batch::{Batch, take_batch};
pub use log::OpLog;
pub use reading::apply_effect;
pub use us_history::LogTx;

#[cfg(test)]
mod tests;
