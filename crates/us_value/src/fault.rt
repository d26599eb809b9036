ghost use Rattle.std.specs.Prelude.{◌≡◌};
ghost use Rattle.us_value.specs.declared.fault.ValueFault.TheVariants.{Memory};

use std::alloc::AllocError;
use thiserror::Error;

/// Why an item's state has no answer.
#[derive(Clone, Copy, Debug, PartialEq, Eq, Hash, Error)]
pub enum ValueFault {
    /// The operation or the effect is none of the state's kind.
    #[error("no operation of the item's kind")]
    WrongOperation,
    /// An allocation failed.
    #[error("out of memory")]
    Memory,
}

impl From<us_kind::Memory> for ValueFault {
    ghost from_gives = { λ _ fault. fault ≡ Memory };

    fn from(_error: us_kind::Memory) -> ValueFault {
        ValueFault::Memory
    }
}

impl From<AllocError> for ValueFault {
    ghost from_gives = { λ _ fault. fault ≡ Memory };

    fn from(_error: AllocError) -> ValueFault {
        ValueFault::Memory
    }
}
