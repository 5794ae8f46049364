// Names, and how far they reach.

ghost use Rattle.std.specs.Prelude.{◌≡◌, ◌⊎◌};
ghost use Rattle.std.specs.List.{prefix_len};
ghost use Rattle.rb_lexer.specs.Character.{is_word_part};
ghost use Rattle.rb_lexer.specs.Word.{IsPlainName, IsIdentifier, IsConstant};
ghost use Rattle.rb_lexer.specs.Extent.{LongestFront, begins_name_mark};

use crate::characters::{begins_with, is_name_start, is_upper, is_word_part};

/// How many letters, digits and `_` bytes begin with.
fn run_len(bytes: &[u8]) -> usize
    ensures { result ≡ prefix_len is_word_part bytes.now }
{
    bytes.iter().take_while(|b| is_word_part(**b)).count()
}

/// How long the plain name at the front of bytes is.
pub(crate) fn plain_name_len(bytes: &[u8]) -> usize
    ensures { LongestFront (λ rest. IsPlainName) bytes.now result }
{
    if bytes.is_empty() || !is_name_start(bytes[0]) {
        return 0;
    }
    run_len(bytes)
}

/// How long the class name at the front of bytes is.
pub(crate) fn constant_len(bytes: &[u8]) -> usize
    ensures { LongestFront (λ rest. IsConstant) bytes.now result }
{
    if bytes.is_empty() || !is_upper(bytes[0]) {
        return 0;
    }
    run_len(bytes)
}

/// How long the identifier at the front of bytes is, with its `?` or `!`.
pub(crate) fn identifier_len(bytes: &[u8]) -> usize
    ensures { LongestFront IsIdentifier bytes.now result }
{
    if bytes.is_empty() || !is_name_start(bytes[0]) {
        return 0;
    }
    let len = run_len(bytes);
    if begins_name_mark(&bytes[len..]) {
        return len + 1;
    }
    len
}

/// Whether a `?` or a `!` stands here that belongs to the name before it.
fn begins_name_mark(bytes: &[u8]) -> bool
    ensures { result ≡ begins_name_mark bytes.now }
{
    (begins_with(b'?', bytes) || begins_with(b'!', bytes)) && !begins_with(b'=', &bytes[1..])
}

/// How long the name of a symbol at the front of bytes is.
pub(crate) fn symbol_name_len(bytes: &[u8]) -> usize
    ensures { LongestFront (λ rest name. IsIdentifier rest name ⊎ IsConstant name) bytes.now result }
{
    identifier_len(bytes).max(constant_len(bytes))
}
