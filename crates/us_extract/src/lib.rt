//! What happened to a store's transactions, and the execution that this tells.
#![tactic(auto)]

mod ascending;
mod beginnings;
mod commits;
mod execution;
mod history;
mod order;
mod past;
mod performances;

pub use beginnings::Beginning;
pub use commits::Commit;
pub use history::History;
pub use performances::Performance;

#[cfg(test)]
mod tests;
