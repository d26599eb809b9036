ghost use Rattle.std.specs.Prelude.{◌≡◌};

use us_kind::Memory;
use us_schedule::Line;

/// Why a line isn't performed: the count that an event took past its number, or out of memory.
#[derive(Clone, Copy, Debug, PartialEq, Eq, Hash)]
pub enum WorldFault {
    /// More than 1,000,000 events.
    Events,
    /// More than 512 sessions were opened.
    Sessions,
    /// More than 20,000 transactions were begun.
    Transactions,
    /// An allocation failed.
    Memory,
}

impl From<Memory> for WorldFault {
    ghost use Rattle.us_world.specs.declared.fault.WorldFault.TheVariants as fault;

    ghost from_gives = { λ _ e. e ≡ fault.Memory };

    fn from(_memory: Memory) -> WorldFault {
        WorldFault::Memory
    }
}

/// A line of a schedule with its number in the text, from 1.
#[derive(Drop)]
pub struct Numbered {
    pub number: u64,
    pub line: Line,
}

/// Why lines don't come to their end.
#[derive(Clone, Copy, Debug, PartialEq, Eq, Hash)]
pub enum LinesFault {
    /// A limit is passed at the line of this number.
    Limit { line: u64, which: WorldFault },
    /// An allocation failed.
    Memory,
}

impl From<Memory> for LinesFault {
    ghost use Rattle.us_world.specs.declared.fault.LinesFault.TheVariants as fault;

    ghost from_gives = { λ _ e. e ≡ fault.Memory };

    fn from(_memory: Memory) -> LinesFault {
        LinesFault::Memory
    }
}
