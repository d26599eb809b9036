ghost use Rattle.std.specs.Prelude.{◌≡◌, ◌<◌, ◌≤◌, Some, None, Ok, IfOk, [], length, take, min};
ghost use Rattle.us_edge.specs.Streams.{Gives};

use crate::{Failed, Sink, Source};
use std::marker::Model;

/// A source in memory, which tells its bytes and never fails.
#[derive(Drop)]
pub struct SureSource {
    bytes: Vec<u8>,
    at: usize,
}

impl Model for SureSource {
    ghost use Rattle.std.specs.Prelude.{List, ℕ, drop, ◌≤◌, vec_len};

    ghost Value = { List ℕ };

    ghost view = { λ a. drop a.at a.bytes.items };

    ghost invariant = { λ a. a.at ≤ vec_len a.bytes };
}

impl SureSource {
    /// The source of these bytes.
    pub fn new(bytes: Vec<u8>) -> SureSource
        ensures { result ≡ bytes.items }
    {
        SureSource { bytes, at: 0 }
    }
}

impl Source for SureSource {
    ghost left = { λ a. Some a };

    ghost faults = { λ _. 0 };

    fn read(&mut self, into: &mut [u8]) -> Result<usize, Failed>
        ensures sure { result ≡ Ok (min (length into.old) (length self.old)) }
        ensures room { IfOk result (λ n. n ≤ length into.new) }
        ensures bytes { IfOk result (λ n. Gives (Some self.old) (Some self.new) (take n into.new)) }
        ensures end { IfOk result (λ n. n ≡ 0 → 0 < length into.new → self.new ≡ []) }
    {
        let given = into.len().min(self.bytes.len() - self.at);
        into[..given].copy_from_slice(&self.bytes[self.at..self.at + given]);
        self.at += given;
        Ok(given)
    }
}

/// A sink that takes everything and keeps nothing. It never fails.
#[derive(Clone, Copy, Debug, PartialEq, Eq)]
pub struct SureSink;

impl SureSink {
    pub fn new() -> SureSink {
        SureSink
    }
}

impl Sink for SureSink {
    ghost written = { λ _. None };

    ghost faults = { λ _. 0 };

    fn write(&mut self, piece: &[u8]) -> Result<usize, Failed>
        ensures { result ≡ Ok (length piece.now) }
    {
        Ok(piece.len())
    }
}
