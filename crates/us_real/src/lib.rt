//! The real outside: standard input and output, sockets, and the system's clock.
//!
//! Nothing is proved of what these give. They tell nothing of the bytes that they carry; proved is that each call
//! is safe, and that it counts a fault where it fails.
#![tactic(auto)]

mod clock;
mod connections;
mod links;
mod reading;
mod sending;
mod streams;

pub use clock::SystemClock;
pub use links::TcpLinks;
pub use streams::{StdinSource, StdoutSink};

#[cfg(test)]
mod tests;
