//! The packets between the sites of a world: all that were ever sent, in order, and the least undelivered one of two sites.
#![tactic(auto)]

mod fronts;
mod network;
mod sent;

pub use network::Network;
pub use sent::Sent;
