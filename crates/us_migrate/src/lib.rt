//! Tokens, which a client takes from one site to another, and the fields that they share with packets.
#![tactic(auto)]

pub mod laws;
mod read;
#[cfg(test)]
mod tests;
mod token;
mod write;

pub use read::{read_token, take_tid, take_vector};
pub use token::{Token, covers, passed};
pub use write::{put_tid, put_vector, write_token};
