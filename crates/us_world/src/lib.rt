//! A world: sites and partitions in one process, and the execution that its run comes to.
#![tactic(auto)]

mod fault;
mod run;
mod uniqueness;
mod world;

pub use fault::{LinesFault, Numbered, WorldFault};
pub use uniqueness::outcomes_are_one;
pub use world::World;

#[cfg(test)]
mod tests;
