use std::error::Error;
use std::fmt;
use us_kind::Memory;

/// Why a frame was not read: it is no encoding, or an allocation failed.
#[derive(Clone, Copy, Debug, PartialEq, Eq)]
pub enum DecodeFault {
    Malformed,
    Memory,
}

impl fmt::Display for DecodeFault {
    ghost use Rattle.std.specs.Prelude.{Some};
    ghost use Rattle.us_fields.specs.Faults.{fault_text};

    ghost output = { λ fault. Some (fault_text fault) };

    fn fmt<W: fmt::Write>(&self, f: &mut fmt::Formatter<W>) -> fmt::Result {
        f.write_str(match self {
            DecodeFault::Malformed => "malformed frame",
            DecodeFault::Memory => "out of memory",
        })
    }
}

impl Error for DecodeFault {}

impl From<Memory> for DecodeFault {
    ghost use Rattle.std.specs.Prelude.{◌≡◌};
    ghost use Rattle.us_fields.specs.declared.fault.DecodeFault.TheVariants as fault;

    ghost from_gives = { λ _ result. result ≡ fault.Memory };

    fn from(_error: Memory) -> DecodeFault {
        DecodeFault::Memory
    }
}
