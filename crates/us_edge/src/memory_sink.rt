ghost use Rattle.std.specs.Prelude.{◌≡◌, ◌<◌, ◌≤◌, Some, IfOk, OnErr, [], if◌then◌else◌, is_err, IsTrue, true, length, take, min};
ghost use Rattle.us_edge.specs.Faults.{Rose};
ghost use Rattle.us_edge.specs.Streams.{Appends};
ghost use Rattle.us_edge.specs.Scripts.{saturating_suc, is_to_fail};

use crate::calls::Calls;
use crate::{Failed, Sink};
use std::alloc::Global;
use std::marker::Model;

/// A sink in memory, which keeps and tells what was written. Some of its calls may be made to fail.
#[derive(Drop)]
pub struct MemorySink {
    written: Vec<u8>,
    per_call: usize,
    calls: Calls,
}

impl Model for MemorySink {
    ghost use Rattle.std.specs.Prelude.{◌≤◌};
    ghost use Rattle.us_edge.specs.Scripts.{Sink};

    ghost Value = { Sink };

    ghost view = { λ a. record { written = a.written.items; per_call = a.per_call; fails = a.calls.fails.items; calls = a.calls.made; faults = a.calls.faults } };

    ghost invariant = { λ a. 1 ≤ a.per_call };
}

impl MemorySink {
    /// An empty sink, which takes at most `per_call` bytes at a time.
    ///
    /// `fails` holds the numbers, from 1, of the calls that are to fail.
    pub fn new(alloc: Global, per_call: usize, fails: Vec<u64>) -> MemorySink
        requires { 1 ≤ per_call }
        ensures { result ≡ record { written = []; per_call = per_call; fails = fails.items; calls = 0; faults = 0 } }
    {
        MemorySink {
            written: Vec::new(alloc),
            per_call,
            calls: Calls::new(fails),
        }
    }

    /// What was written.
    pub fn written(&self) -> &[u8]
        ensures { result.now ≡ self.now.written }
    {
        self.written.as_slice()
    }
}

impl Sink for MemorySink {
    ghost written = { λ a. Some a.written };

    ghost faults = { λ a. a.faults };

    /// It is Failed too where it finds no memory.
    fn write(&mut self, piece: &[u8]) -> Result<usize, Failed>
        ensures bound { IfOk result (λ n. n ≤ length piece.now) }
        ensures some { IfOk result (λ n. 0 < length piece.now → 0 < n) }
        ensures bytes { IfOk result (λ n. Appends (Some self.old.written) (Some self.new.written) (take n piece.now)) }
        ensures err { OnErr result (self.new.written ≡ self.old.written) }
        ensures cause { OnErr result (Rose self.old.faults self.new.faults) }
        ensures counts { self.old.faults ≤ self.new.faults }

        // It fails where it is told to, and takes as much as it may.
        ensures failed { IsTrue (is_to_fail self.old.fails self.old.calls) → is_err result ≡ true }
        ensures much { IfOk result (λ n. n ≡ min (length piece.now) self.old.per_call) }
        ensures script { (self.new.per_call ≡ self.old.per_call) × (self.new.fails ≡ self.old.fails) }
        ensures calls { self.new.calls ≡ saturating_suc self.old.calls }
        ensures faults { self.new.faults ≡ (if is_err result then saturating_suc self.old.faults else self.old.faults) }
    {
        self.calls.count()?;
        let taken = piece.len().min(self.per_call);
        if self.written.extend_from_slice(&piece[..taken]).is_err() {
            self.calls.count_fault();
            return Err(Failed);
        }
        Ok(taken)
    }
}
