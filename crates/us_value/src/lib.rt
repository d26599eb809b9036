//! Items, and the operations, effects, answers and states of all kinds behind one type each.
#![tactic(auto)]

mod catalog;
mod class;
mod fault;
mod item;
mod laws;
mod length;
mod operation;
mod shares;
mod state;
#[cfg(test)]
mod tests;

pub use catalog::Catalog;
pub use class::{class_of, effect_fits, kind_has, op_fits};
pub use fault::ValueFault;
pub use item::{Item, Write};
pub use laws::{answers_as_defined, counts_as_applied, own_updates_come_last, prepares_updates};
pub use length::{answer_len, effect_len, write_len};
pub use operation::{Answer, Class, Effect, Kind, Op, State};
pub use state::{answer, apply, initial, prepare};
