//! Places that hold integers alone, raw, and the integers that a general word has room for.

ghost use Rattle.std.specs.Prelude.{◌≡◌, ◌≤ℤ◌, ◌↔◌, IsTrue};
ghost use Rattle.typed_location.specs.Word.{twos_complement, IsSmall};

/// The least integer that a general word holds itself.
pub const SMALL_MIN: i64 = -1_152_921_504_606_846_976;
/// The greatest integer that a general word holds itself.
pub const SMALL_MAX: i64 = 1_152_921_504_606_846_975;

/// Whether a general word has room for the integer; a wider one is boxed.
pub fn is_small(n: i64) -> bool
    ensures exact { IsTrue result ↔ IsSmall n }
    ensures range { IsTrue result ↔ ((SMALL_MIN ≤ℤ n) × (n ≤ℤ SMALL_MAX)) }
{
    SMALL_MIN <= n && n <= SMALL_MAX
}

/// The word of an integer in a place that holds integers alone: its 64 bits.
pub fn to_int_word(n: i64) -> u64
    ensures { result ≡ twos_complement 64 n }
{
    n.cast_unsigned()
}

/// The integer whose word this is.
pub fn from_int_word(word: u64) -> i64
    ensures { twos_complement 64 result ≡ word }
{
    word.cast_signed()
}
