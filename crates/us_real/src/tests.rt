mod clients;
mod clock;
mod fixtures;
mod peers;
mod standard_streams;
mod starting;
