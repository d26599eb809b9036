//! One coordinator: each of its calls is the machine's rule.
#![tactic(auto)]

mod coordinator;
mod marks;
mod table;
mod turn;
mod waits;

pub use coordinator::{Coordinator, refuse_open};
pub use us_model::{ClientOut, Note, Outputs, View};
