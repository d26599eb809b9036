//! Loads: schedules that are generated from a number, so that anybody can run the same one.
#![tactic(auto)]

mod laws;
mod load;
mod operation;
mod session;
mod transaction;

pub use laws::{loads_are_schedules, worked_loads};
pub use load::schedule_of;

#[cfg(test)]
mod tests;
