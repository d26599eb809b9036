//! One site: one step of it is the machine's rule.
#![tactic(auto)]

mod shard;
mod site;

pub use site::Site;
pub use us_model::{ClientOut, Event, Note, Outputs};
