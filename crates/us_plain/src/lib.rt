//! The plain replicated types: the register, whose last write wins, and the counter.
#![tactic(auto)]

mod counter;
mod register;
#[cfg(test)]
mod tests;

pub use counter::{Counter, CounterAnswer, CounterEffect, CounterOp, CounterState};
pub use register::{
    Register, RegisterAnswer, RegisterEffect, RegisterOp, RegisterState, StampedValue,
};
