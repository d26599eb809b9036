//! A partition: it keeps its items' transactions, answers questions for versions in snapshots, prepares transactions and commits
//! them. Each call is the machine's rule.
#![tactic(auto)]

mod partition;
mod reading;

pub use partition::Part;
pub use us_model::Get;

#[cfg(test)]
mod tests;
