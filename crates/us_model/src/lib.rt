//! The written machine: its vocabulary here, and what it does in `specs/`, as definitions alone.
#![tactic(auto)]

mod coordinator;
mod event;
mod example;
mod partition;
mod refusal;
mod settings;

pub use coordinator::{Await, Context, QueuedRequest, Session, Transaction, View, Vote};
pub use event::{ClientOut, Event, Note, Outputs};
pub use example::worked_example;
pub use partition::{Get, PreparedTx};
pub use refusal::Refusal;
pub use settings::Settings;
pub use us_history::LogTx;
