ghost use Rattle.std.specs.Prelude.{◌≡◌, None};

use std::io::{Read, Stdin, Stdout, Write};
use std::marker::Model;
use us_edge::{Failed, Sink, Source};

/// Standard input, and how often it failed.
#[derive(Drop)]
pub struct StdinSource {
    stdin: Stdin,
    faults: u64,
}

impl Model for StdinSource {
    ghost use Rattle.std.specs.Prelude.{ℕ};

    ghost Value = { ℕ };

    ghost view = { λ a. a.faults };
}

impl StdinSource {
    pub fn new(stdin: Stdin) -> StdinSource
        ensures { result ≡ 0 }
    {
        StdinSource { stdin, faults: 0 }
    }
}

impl Source for StdinSource {
    ghost left = { λ _. None };

    ghost faults = { λ a. a };

    fn read(&mut self, into: &mut [u8]) -> Result<usize, Failed> {
        match self.stdin.read(into) {
            Ok(came) => Ok(came),
            Err(_) => {
                self.faults = self.faults.saturating_add(1);
                Err(Failed)
            }
        }
    }
}

/// Standard output, and how often it failed.
#[derive(Drop)]
pub struct StdoutSink {
    stdout: Stdout,
    faults: u64,
}

impl Model for StdoutSink {
    ghost use Rattle.std.specs.Prelude.{ℕ};

    ghost Value = { ℕ };

    ghost view = { λ a. a.faults };
}

impl StdoutSink {
    pub fn new(stdout: Stdout) -> StdoutSink
        ensures { result ≡ 0 }
    {
        StdoutSink { stdout, faults: 0 }
    }
}

impl Sink for StdoutSink {
    ghost written = { λ _. None };

    ghost faults = { λ a. a };

    /// It fails too where none of some bytes is taken.
    fn write(&mut self, piece: &[u8]) -> Result<usize, Failed> {
        match self.stdout.write(piece) {
            Ok(taken) if taken > 0 || piece.is_empty() => Ok(taken),
            _ => {
                self.faults = self.faults.saturating_add(1);
                Err(Failed)
            }
        }
    }
}
