//! Lists of keys that are looked up without a walk, and places that are kept under keys.
#![tactic(auto)]

mod listed;
mod places;
mod under;

pub use listed::Listed;
pub use places::Places;
pub use under::{places_under, put_under};

#[cfg(test)]
mod tests;
