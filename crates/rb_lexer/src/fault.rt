// Why a source is refused.

use std::alloc::{AllocError, AllocFailed};

/// Why a source has no tokens. A place is an offset in bytes.
#[derive(Clone, Copy, Debug, PartialEq, Eq)]
pub enum LexFault {
    /// The bytes are not UTF-8. The place is the length of their longest prefix that is.
    NotUtf8(u32),
    /// A character that begins no token, or that stands directly behind an integer.
    BadCharacter(u32),
    /// A text without its end, at its opening quote.
    UnclosedText(u32),
    /// A `\` with a character behind it that it can't escape.
    BadEscape(u32),
    /// An integer above 9223372036854775807, at its first digit.
    IntegerTooWide(u32),
    /// More than 1,048,576 bytes.
    TooLarge,
    /// Want of memory.
    Memory,
}

impl From<AllocError> for LexFault {
    ghost use Rattle.rb_lexer.specs.declared.fault.LexFault.TheVariants.{Memory};
    ghost use Rattle.std.specs.Prelude.{◌≡◌};

    ghost from_gives = { λ _ fault. fault ≡ Memory };

    fn from(_refused: AllocError) -> LexFault {
        LexFault::Memory
    }
}

impl<T: Drop> From<AllocFailed<T>> for LexFault {
    ghost use Rattle.rb_lexer.specs.declared.fault.LexFault.TheVariants.{Memory};
    ghost use Rattle.std.specs.Prelude.{◌≡◌};

    ghost from_gives = { λ _ fault. fault ≡ Memory };

    fn from(_refused: AllocFailed<T>) -> LexFault {
        LexFault::Memory
    }
}
