// Parts of texts.

ghost use Rattle.std.specs.Prelude.{◌≡◌, ◌+◌, ◌≤◌, ℕ, List, [], ◌∷◌, Some, length, take, drop, IfOk, MatchOption, true, false};
ghost use Rattle.rb_lexer.specs.Part.{Part, begins_plain, begins_escape, begins_code, escaped};

use crate::mode::Quote;
use rb_tree::Text;
use std::alloc::{AllocError, Global};

/// The longest part of a text at the front of bytes.
#[derive(Drop)]
pub(crate) struct Found {
    /// The characters that it stands for.
    pub text: Text,
    /// How many bytes it has.
    pub len: usize,
}

/// The part of a text at the front of bytes, up to its end, to code, or to an escape that there isn't.
pub(crate) fn part(alloc: Global, quote: Quote, bytes: &[u8]) -> Result<Found, AllocError>
    ensures { IfOk result (λ found. (found.len ≤ length bytes.now) × Part quote (drop found.len bytes.now) (take found.len bytes.now) found.text) }
{
    let mut text = Text::new(alloc);
    let mut at = 0;
    'characters: while at < bytes.len() {
        let rest = &bytes[at..];
        if begins_plain(quote, rest) {
            text.push(rest[0])?;
            at += 1;
            continue;
        }
        let Some(character) = escape(quote, rest) else {
            return Ok(Found { text, len: at });
        };
        text.push(character)?;
        at += 2;
    }
    Ok(Found { text, len: at })
}

/// Whether the first character in a text stands for itself.
fn begins_plain(quote: Quote, bytes: &[u8]) -> bool
    ensures { result ≡ begins_plain quote bytes.now }
{
    match quote {
        Quote::Single => is_plain_single(bytes),
        Quote::Double => is_plain_double(bytes),
    }
}

fn is_plain_single(bytes: &[u8]) -> bool
    ensures { result ≡ begins_plain Quote.Single bytes.now }
{
    match bytes {
        [] | [b'\'', ..] => false,
        [b'\\', next, ..] => escaped(Quote::Single, *next).is_none(),
        _ => true,
    }
}

fn is_plain_double(bytes: &[u8]) -> bool
    ensures { result ≡ begins_plain Quote.Double bytes.now }
{
    match bytes {
        [] | [b'"' | b'\\', ..] | [b'#', b'{', ..] => false,
        _ => true,
    }
}

/// The character of the escape at the front.
fn escape(quote: Quote, bytes: &[u8]) -> Option<u8>
    ensures { MatchOption result (begins_escape quote bytes.now ≡ false) (λ c. (e : ℕ) × (rest : List ℕ) × (bytes.now ≡ 92 ∷ e ∷ rest) × (escaped quote e ≡ Some c)) }
{
    match bytes {
        [b'\\', next, ..] => escaped(quote, *next),
        _ => None,
    }
}

/// The character that `\` and this one stand for.
fn escaped(quote: Quote, byte: u8) -> Option<u8>
    ensures { result ≡ escaped quote byte }
{
    match quote {
        Quote::Single => match byte {
            b'\'' | b'\\' => Some(byte),
            _ => None,
        },
        Quote::Double => match byte {
            b'n' => Some(b'\n'),
            b't' => Some(b'\t'),
            b'"' | b'\\' | b'#' => Some(byte),
            _ => None,
        },
    }
}
