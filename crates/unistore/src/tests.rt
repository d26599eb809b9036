//! Runs of the top call over objects in memory; their expected reports are worked by hand from the rules.

mod bounds;
mod configurations;
mod faults;
mod frames;
mod kinds;
mod limits;
mod lines;
mod packets;
mod refusals;
mod runs;
mod status;
mod transactions;
mod words;
