//! What clients ask and what they are told, and how frames encode it.
#![tactic(auto)]

mod decode;
mod encode;
mod frame;
mod laws;
#[cfg(test)]
mod tests;

pub use decode::{decode_reply, decode_request};
pub use encode::{encode_reply, encode_request};
pub use frame::{Reply, Request};
pub use laws::{replies_are_read_as_encoded, requests_are_read_as_encoded};
pub use us_fields::{DecodeFault, answer_fits, answers_are_as_long, fields_are_read_as_encoded};
