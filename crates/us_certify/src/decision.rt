use us_peer_wire::{LogEntry, Verdict};

/// A slot of the ballot log: the strong transaction in it, and what certification says of it.
#[derive(Drop)]
pub struct Decision {
    pub entry: LogEntry,
    pub verdict: Verdict,
}
