// Integer literals.

ghost use Rattle.std.specs.Prelude.{◌≡◌, ◌<◌, ◌≤◌, None, IfSome};
ghost use Rattle.rb_lexer.specs.Integer.{IsDigits, IsInteger, number_of, max_integer, joins_integer};
ghost use Rattle.rb_lexer.specs.Extent.{LongestFront, begins_digits};

use crate::characters::{begins_with, begins_with_digit, is_word_part};

/// The largest integer that a literal may write.
const MAX_INTEGER: u64 = i64::MAX as u64;

/// How long the integer at the front of bytes is.
pub(crate) fn integer_len(bytes: &[u8]) -> usize
    ensures { LongestFront (λ rest. IsInteger) bytes.now result }
{
    if !begins_with_digit(bytes) {
        return 0;
    }
    if bytes[0] == b'0' {
        return 1;
    }
    1 + digits_len(&bytes[1..])
}

/// How long the digits at the front of bytes are, each of them with a `_` before it or none.
fn digits_len(bytes: &[u8]) -> usize
    ensures { LongestFront (λ rest. IsDigits) bytes.now result }
{
    let mut len = 0;
    'digits: while begins_digits(&bytes[len..]) {
        len += 1;
    }
    len
}

/// Whether digits reach over the first of the bytes.
fn begins_digits(bytes: &[u8]) -> bool
    ensures { result ≡ begins_digits bytes.now }
{
    if begins_with_digit(bytes) {
        return true;
    }
    begins_with(b'_', bytes) && begins_with_digit(&bytes[1..])
}

/// The number that digits write. There is none where it is too large.
pub(crate) fn number(digits: &[u8]) -> Option<u64>
    ensures value { IfSome result (λ n. n ≡ number_of digits.now) }
    ensures fits { IfSome result (λ n. n ≤ max_integer) }
    ensures absent { result ≡ None → max_integer < number_of digits.now }
{
    let mut value = 0;
    for byte in digits {
        if *byte == b'_' {
            continue;
        }
        // A byte below `0` would count as 0, as it does where the number is defined.
        let digit = u64::from(byte.saturating_sub(b'0'));
        if value > (MAX_INTEGER - digit) / 10 {
            return None;
        }
        value = 10 * value + digit;
    }
    Some(value)
}

/// Whether bytes may not stand directly behind an integer.
pub(crate) fn joins_integer(bytes: &[u8]) -> bool
    ensures { result ≡ joins_integer bytes.now }
{
    if bytes.is_empty() {
        return false;
    }
    if bytes[0] == b'.' {
        return begins_with_digit(&bytes[1..]);
    }
    is_word_part(bytes[0])
}
