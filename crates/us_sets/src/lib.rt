//! The add-wins set and the enable-wins flag.
#![tactic(auto)]

mod flag;
mod marks;
mod set;
#[cfg(test)]
mod tests;

pub use flag::{EnableWinsFlag, FlagAnswer, FlagEffect, FlagOp};
pub use marks::Marks;
pub use set::{AddWinsSet, SetAnswer, SetEffect, SetOp, SetState};
