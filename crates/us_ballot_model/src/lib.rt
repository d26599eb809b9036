//! The written ballot log: its vocabulary here, and what it does in `specs/`, as definitions alone.
#![tactic(auto)]

mod example;
mod log;
mod message;

pub use example::worked_example;
pub use log::{BallotLog, PromisedLog, Role};
pub use message::{Appended, BallotMessage, BallotOut};
