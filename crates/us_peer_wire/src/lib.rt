//! Packets between actors, and how frames encode them.
#![tactic(auto)]

mod codes;
mod copy;
mod laws;
mod length;
mod message;
mod part;
mod read;
#[cfg(test)]
mod tests;
mod write;

pub use laws::packets_are_read_as_encoded;
pub use length::packet_len;
pub use message::{
    Actor, Form, LogEntry, Message, Outcome, OutcomeEnd, Packet, Page, Verdict, Version,
};
pub use read::decode;
pub use write::encode;
