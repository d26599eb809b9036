//! Declared conflicts: which operations of two transactions may not both go unseen by the other.
#![tactic(auto)]

mod conflicts;
#[cfg(test)]
mod tests;

pub use conflicts::Conflicts;
