mod calls;
mod fixtures;
mod orders;
