// Why a program is not resolved.

ghost use Rattle.std.specs.Prelude.{◌≡◌};
ghost use Rattle.rb_resolver.specs.declared.fault.ResolveFault.TheVariants.{Memory};

use rb_tree::Span;
use std::alloc::{AllocError, AllocFailed};

/// Why a program is not resolved.
#[derive(Clone, Copy, Debug, PartialEq, Eq)]
pub enum ResolveFault {
    /// Something that has no code yet stands at this place.
    NotBuilt(Span),
    /// Memory is refused, or a number is too large.
    Memory,
}

impl From<AllocError> for ResolveFault {
    ghost from_gives = { λ _ e. e ≡ Memory };

    fn from(_refused: AllocError) -> ResolveFault {
        ResolveFault::Memory
    }
}

impl<T: Drop> From<AllocFailed<T>> for ResolveFault {
    ghost from_gives = { λ _ e. e ≡ Memory };

    fn from(_refused: AllocFailed<T>) -> ResolveFault {
        ResolveFault::Memory
    }
}
