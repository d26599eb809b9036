//! The configuration of a store, as a TOML text says it.
#![tactic(auto)]

mod address;
mod assembly;
mod config;
mod document;
mod fault;
mod keywords;
mod laws;
mod node;
mod shape;
mod space;
mod tables;
mod values;

pub use address::is_address;
pub use config::{Config, read};
pub use fault::{ConfigFault, Key, ReadFault};
pub use laws::worked_configurations;
pub use node::NodePlan;

#[cfg(test)]
mod tests;
