//! Why a write was refused.

use std::alloc::AllocError;
use thiserror::Error;

/// Why an item could not be put into an array, which is then as it was.
#[derive(Clone, Copy, PartialEq, Eq, Debug, Error)]
pub enum PutFault {
    /// A negative index counts from the end to before the first item.
    #[error("index is too small for the array")]
    TooSmall,
    /// The array would be longer than `MAX_LEN`.
    #[error("array would be too long")]
    TooLong,
    /// Memory was refused.
    #[error("out of memory")]
    Memory,
}

impl From<AllocError> for PutFault {
    ghost use Rattle.std.specs.Prelude.{◌≡◌};
    ghost use Rattle.array_strategy.specs.declared.fault.PutFault.TheVariants.{Memory};

    ghost from_gives = { λ _ fault. fault ≡ Memory };

    fn from(_: AllocError) -> Self {
        PutFault::Memory
    }
}
