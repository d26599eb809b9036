ghost use Rattle.std.specs.Prelude.{◌≡◌, Some};
ghost use Rattle.us_schedule.specs.declared.fault.LineFault.TheVariants.{Memory};

use std::alloc::AllocError;
use std::error::Error;
use std::fmt;

/// Why a line is refused: the first of the first four that holds. `Memory` may come at any line.
#[derive(Clone, Copy, Debug, PartialEq, Eq, Hash)]
pub enum LineFault {
    /// No line has this name with this number of words behind it.
    BadWord,
    /// A number is not decimal digits without a leading zero, or is above 2^64 - 1.
    BadNumber,
    /// The hex has an odd number of digits, or another character.
    BadHex,
    /// A value is out of its range.
    OutOfRange,
    /// An allocation failed.
    Memory,
}

impl fmt::Display for LineFault {
    ghost use Rattle.us_schedule.specs.Fault.{fault_text};

    ghost output = { λ f. Some (fault_text f) };

    fn fmt<W: fmt::Write>(&self, f: &mut fmt::Formatter<W>) -> fmt::Result {
        f.write_str(match self {
            LineFault::BadWord => "BadWord",
            LineFault::BadNumber => "BadNumber",
            LineFault::BadHex => "BadHex",
            LineFault::OutOfRange => "OutOfRange",
            LineFault::Memory => "out of memory",
        })
    }
}

impl Error for LineFault {}

impl From<AllocError> for LineFault {
    ghost from_gives = { λ _ e. e ≡ Memory };

    fn from(_error: AllocError) -> LineFault {
        LineFault::Memory
    }
}
