// Classes of characters.

ghost use Rattle.std.specs.Prelude.{◌≡◌};
ghost use Rattle.rb_lexer.specs.Character.{is_digit, is_upper, is_word_part, begins_with, begins_with_digit};
ghost use Rattle.rb_lexer.specs.Extent.{is_name_start};

/// Whether a character is a digit.
pub(crate) fn is_digit(byte: u8) -> bool
    ensures { result ≡ is_digit byte }
{
    byte.is_ascii_digit()
}

/// Whether a plain name may begin with a character.
pub(crate) fn is_name_start(byte: u8) -> bool
    ensures { result ≡ is_name_start byte }
{
    byte.is_ascii_lowercase() || byte == b'_'
}

/// Whether a class name may begin with a character.
pub(crate) fn is_upper(byte: u8) -> bool
    ensures { result ≡ is_upper byte }
{
    byte.is_ascii_uppercase()
}

/// Whether a word may go on with a character.
pub(crate) fn is_word_part(byte: u8) -> bool
    ensures { result ≡ is_word_part byte }
{
    byte.is_ascii_alphanumeric() || byte == b'_'
}

/// Whether bytes begin with this one.
pub(crate) fn begins_with(byte: u8, bytes: &[u8]) -> bool
    ensures { result ≡ begins_with byte bytes.now }
{
    !bytes.is_empty() && bytes[0] == byte
}

/// Whether bytes begin with a digit.
pub(crate) fn begins_with_digit(bytes: &[u8]) -> bool
    ensures { result ≡ begins_with_digit bytes.now }
{
    !bytes.is_empty() && is_digit(bytes[0])
}
