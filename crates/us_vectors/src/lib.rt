//! What a partition was told by the others: what is stable at its site, what is uniform, and what all sites know.
#![tactic(auto)]

mod matrices;
mod tables;
#[cfg(test)]
mod tests;
mod uniform;

pub use matrices::Matrices;
