ghost use Rattle.std.specs.Prelude.{◌≡◌};
ghost use Rattle.us_edge.specs.declared.faults.StartFault.TheVariants as start;
ghost use Rattle.us_edge.specs.declared.faults.PollFault.TheVariants as poll;
ghost use Rattle.us_edge.specs.declared.faults.ReadAllFault.TheVariants as reading;

use std::alloc::{AllocError, AllocFailed};
use std::error::Error;
use std::fmt;
use us_kind::Memory;

/// A read, a write or a send failed, and the object counted it.
#[derive(Clone, Copy, Debug, PartialEq, Eq, Hash)]
pub struct Failed;

/// Why links did not start.
#[derive(Clone, Copy, Debug, PartialEq, Eq, Hash)]
pub enum StartFault {
    /// A fault, which the links counted.
    Failed,
    /// Want of memory.
    Memory,
}

/// Why a look at the links gave no input.
#[derive(Clone, Copy, Debug, PartialEq, Eq, Hash)]
pub enum PollFault {
    /// A fault, which the links counted.
    Failed,
    /// Want of memory.
    Memory,
}

/// Why a source was not read to its end.
#[derive(Clone, Copy, Debug, PartialEq, Eq, Hash)]
pub enum ReadAllFault {
    /// A fault, which the source counted.
    Failed,
    /// More bytes came than the limit.
    TooLong,
    /// Want of memory.
    Memory,
}

impl fmt::Display for Failed {
    ghost use Rattle.std.specs.Prelude.{Some, codes};

    ghost output = { λ _. Some (codes "failed") };

    fn fmt<W: fmt::Write>(&self, f: &mut fmt::Formatter<W>) -> fmt::Result {
        f.write_str("failed")
    }
}

impl fmt::Display for StartFault {
    ghost use Rattle.std.specs.Prelude.{Some};
    ghost use Rattle.us_edge.specs.FaultTexts.{start_text};

    ghost output = { λ fault. Some (start_text fault) };

    fn fmt<W: fmt::Write>(&self, f: &mut fmt::Formatter<W>) -> fmt::Result {
        f.write_str(match self {
            StartFault::Failed => "the links did not start",
            StartFault::Memory => "out of memory",
        })
    }
}

impl fmt::Display for PollFault {
    ghost use Rattle.std.specs.Prelude.{Some};
    ghost use Rattle.us_edge.specs.FaultTexts.{poll_text};

    ghost output = { λ fault. Some (poll_text fault) };

    fn fmt<W: fmt::Write>(&self, f: &mut fmt::Formatter<W>) -> fmt::Result {
        f.write_str(match self {
            PollFault::Failed => "the links failed",
            PollFault::Memory => "out of memory",
        })
    }
}

impl fmt::Display for ReadAllFault {
    ghost use Rattle.std.specs.Prelude.{Some};
    ghost use Rattle.us_edge.specs.FaultTexts.{read_all_text};

    ghost output = { λ fault. Some (read_all_text fault) };

    fn fmt<W: fmt::Write>(&self, f: &mut fmt::Formatter<W>) -> fmt::Result {
        f.write_str(match self {
            ReadAllFault::Failed => "a read failed",
            ReadAllFault::TooLong => "the input is too long",
            ReadAllFault::Memory => "out of memory",
        })
    }
}

impl Error for Failed {}

impl Error for StartFault {}

impl Error for PollFault {}

impl Error for ReadAllFault {}

impl From<Memory> for StartFault {
    ghost from_gives = { λ _ fault. fault ≡ start.Memory };

    fn from(_memory: Memory) -> StartFault {
        StartFault::Memory
    }
}

impl From<Memory> for PollFault {
    ghost from_gives = { λ _ fault. fault ≡ poll.Memory };

    fn from(_memory: Memory) -> PollFault {
        PollFault::Memory
    }
}

impl From<AllocError> for ReadAllFault {
    ghost from_gives = { λ _ fault. fault ≡ reading.Memory };

    fn from(_error: AllocError) -> ReadAllFault {
        ReadAllFault::Memory
    }
}

impl From<Failed> for ReadAllFault {
    ghost from_gives = { λ _ fault. fault ≡ reading.Failed };

    fn from(_failed: Failed) -> ReadAllFault {
        ReadAllFault::Failed
    }
}
