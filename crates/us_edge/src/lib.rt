//! What a program has outside: sources, sinks, links and clocks, each a trait with a written meaning and a
//! count of faults.
//!
//! An object may tell its bytes or keep them to itself. Whoever calls it learns the bytes only of one that
//! tells, and that a failure was counted of any.
#![tactic(auto)]

mod calls;
mod clock;
mod faults;
mod links;
mod list_clock;
mod memory_links;
mod memory_sink;
mod memory_source;
mod reading;
mod recording;
mod sink;
mod source;
mod sure;
mod sure_links;
mod text;
mod writing;

pub use clock::Clock;
pub use faults::{Failed, PollFault, ReadAllFault, StartFault};
pub use links::{Dropped, LinkInput, Links, Offer, Outcome, Plan};
pub use list_clock::ListClock;
pub use memory_links::MemoryLinks;
pub use memory_sink::MemorySink;
pub use memory_source::MemorySource;
pub use reading::read_all;
pub use sink::Sink;
pub use source::Source;
pub use sure::{SureSink, SureSource};
pub use sure_links::SureLinks;
pub use text::Text;
pub use writing::write_all;

#[cfg(test)]
mod tests;
