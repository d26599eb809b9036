ghost use Rattle.std.specs.Prelude.{◌≡◌, ◌<◌, ◌≤◌, Some, IfOk, OnErr, [], if◌then◌else◌, is_err, length, take, min};
ghost use Rattle.us_edge.specs.Faults.{Rose};
ghost use Rattle.us_edge.specs.Streams.{Gives};
ghost use Rattle.us_edge.specs.Scripts.{saturating_suc, is_to_fail};

use crate::calls::Calls;
use crate::{Failed, Source};
use std::marker::Model;

/// A source in memory, which tells its bytes. Some of its calls may be made to fail.
#[derive(Drop)]
pub struct MemorySource {
    bytes: Vec<u8>,
    at: usize,
    per_call: usize,
    calls: Calls,
}

impl Model for MemorySource {
    ghost use Rattle.std.specs.Prelude.{drop, ◌≤◌, vec_len};
    ghost use Rattle.us_edge.specs.Scripts.{Source};

    ghost Value = { Source };

    ghost view = { λ a. record { left = drop a.at a.bytes.items; per_call = a.per_call; fails = a.calls.fails.items; calls = a.calls.made; faults = a.calls.faults } };

    ghost invariant = { λ a. (a.at ≤ vec_len a.bytes) × (1 ≤ a.per_call) };
}

impl MemorySource {
    /// The source of these bytes, which gives at most `per_call` of them at a time.
    ///
    /// `fails` holds the numbers, from 1, of the calls that are to fail.
    pub fn new(bytes: Vec<u8>, per_call: usize, fails: Vec<u64>) -> MemorySource
        requires { 1 ≤ per_call }
        ensures { result ≡ record { left = bytes.items; per_call = per_call; fails = fails.items; calls = 0; faults = 0 } }
    {
        MemorySource {
            bytes,
            at: 0,
            per_call,
            calls: Calls::new(fails),
        }
    }
}

impl Source for MemorySource {
    ghost left = { λ a. Some a.left };

    ghost faults = { λ a. a.faults };

    fn read(&mut self, into: &mut [u8]) -> Result<usize, Failed>
        ensures room { IfOk result (λ n. n ≤ length into.new) }
        ensures bytes { IfOk result (λ n. Gives (Some self.old.left) (Some self.new.left) (take n into.new)) }
        ensures end { IfOk result (λ n. n ≡ 0 → 0 < length into.new → self.new.left ≡ []) }
        ensures err { OnErr result (self.new.left ≡ self.old.left) }
        ensures cause { OnErr result (Rose self.old.faults self.new.faults) }
        ensures counts { self.old.faults ≤ self.new.faults }

        // It fails as it is told, and gives as much as it can.
        ensures failed { is_err result ≡ is_to_fail self.old.fails self.old.calls }
        ensures much { IfOk result (λ n. n ≡ min (min (length into.old) self.old.per_call) (length self.old.left)) }
        ensures script { (self.new.per_call ≡ self.old.per_call) × (self.new.fails ≡ self.old.fails) }
        ensures calls { self.new.calls ≡ saturating_suc self.old.calls }
        ensures faults { self.new.faults ≡ (if is_err result then saturating_suc self.old.faults else self.old.faults) }
    {
        self.calls.count()?;
        let given = into
            .len()
            .min(self.per_call)
            .min(self.bytes.len() - self.at);
        into[..given].copy_from_slice(&self.bytes[self.at..self.at + given]);
        self.at += given;
        Ok(given)
    }
}
