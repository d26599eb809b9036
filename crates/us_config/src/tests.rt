mod address;
mod configurations;
mod faults;
mod fixtures;
mod keys;
mod plan;
