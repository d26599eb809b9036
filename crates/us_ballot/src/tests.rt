//! Three sites, worked by hand from the rules.
mod calls;
mod fixtures;
mod leaders;
mod net;
