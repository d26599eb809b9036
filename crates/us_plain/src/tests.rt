mod counter;
mod fixtures;
mod register;
