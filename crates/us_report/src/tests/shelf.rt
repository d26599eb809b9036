use std::alloc::Global;
use us_edge::{Failed, Sink};

// A sink that takes so many bytes at once, and whose call of this number fails.
#[derive(Drop)]
pub(crate) struct Shelf {
    pub(crate) bytes: Vec<u8>,
    pub(crate) per_call: usize,
    pub(crate) calls: u64,
    pub(crate) fails: u64,
    pub(crate) faults: u64,
}

impl Shelf {
    pub(crate) fn new(alloc: Global, per_call: usize, fails: u64) -> Shelf {
        Shelf {
            bytes: Vec::new(alloc),
            per_call,
            calls: 0,
            fails,
            faults: 0,
        }
    }
}

impl Sink for Shelf {
    ghost use Rattle.std.specs.Prelude.{None};

    ghost written = { λ _. None };

    ghost faults = { λ s. s.faults };

    fn write(&mut self, piece: &[u8]) -> Result<usize, Failed> {
        self.calls = self.calls.saturating_add(1);
        let taken = piece.len().min(self.per_call.max(1));
        if self.calls == self.fails || self.bytes.extend_from_slice(&piece[..taken]).is_err() {
            self.faults = self.faults.saturating_add(1);
            return Err(Failed);
        }
        Ok(taken)
    }
}
