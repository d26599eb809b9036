//! What the top call has outside.

pub use us_edge::{
    Clock, Dropped, Failed, LinkInput, Links, ListClock, MemorySink, MemorySource, Offer, Outcome,
    Plan, PollFault, ReadAllFault, Sink, Source, StartFault, SureLinks, SureSink, SureSource, Text,
    read_all, write_all,
};
