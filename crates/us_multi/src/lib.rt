//! The multi-value register.
#![tactic(auto)]

mod multi;
mod sorted;
#[cfg(test)]
mod tests;
mod writes;

pub use multi::{MultiAnswer, MultiEffect, MultiOp, MultiValue};
pub use sorted::Sorted;
pub use writes::MultiState;
