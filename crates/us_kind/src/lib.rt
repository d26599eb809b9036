//! What all crates share: out of memory, lists that contracts see as lists, checked sums, and the identities of
//! transactions and updates.
#![tactic(auto)]

mod bytes;
mod identity;
mod items;
mod laws;
mod memory;
mod replicated;
mod slot;
mod sums;
#[cfg(test)]
mod tests;

pub use bytes::Bytes;
pub use identity::{Stamp, Tag, Tid};
pub use items::Items;
pub use laws::{answers_in_any_order, order_is_free};
pub use memory::Memory;
pub use replicated::Replicated;
pub use slot::Slot;
pub use sums::checked_sum;
