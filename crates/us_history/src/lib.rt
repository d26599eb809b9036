//! What happened to a store's transactions, and the execution that it tells: definitions alone, in `specs/`.
#![tactic(auto)]

mod example;

pub use example::{one_step_is_less, worked_example};
use us_base::Vector;
use us_kind::{Items, Tid};
use us_value::Write;

/// A decided transaction that has a commit vector of its own, with the vector and its writes.
#[derive(Drop)]
pub struct LogTx {
    pub tid: Tid,
    pub strong: bool,
    pub vector: Vector,
    pub writes: Items<Write>,
}
