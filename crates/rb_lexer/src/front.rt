// The token at the front of code.

ghost use Rattle.std.specs.Prelude.{◌≡◌, ◌⊎◌, IfOk, IsTrue, slice_index};
ghost use Rattle.rb_lexer.specs.Character.{is_digit, is_upper};
ghost use Rattle.rb_lexer.specs.Extent.{is_name_start, ends_label};
ghost use Rattle.rb_lexer.specs.Front.{IsFront};

use crate::characters::{begins_with, is_digit, is_name_start, is_upper};
use crate::integers::{integer_len, joins_integer, number};
use crate::keywords::keyword;
use crate::marks::{mark, mark_text};
use crate::token::{Mark, TokenKind};
use crate::words::{constant_len, identifier_len, plain_name_len, symbol_name_len};
use rb_tree::Text;
use std::alloc::{AllocError, Global};

/// What stands at the front of bytes.
#[derive(Drop)]
pub(crate) enum Found {
    /// No token.
    Nothing,
    /// An integer that no literal may write.
    TooWide,
    /// An integer of so many bytes, directly before what may not stand there.
    Joined(usize),
    /// A token of this kind, of so many bytes.
    Token(TokenKind, usize),
}

/// The longest token at the front of code.
pub(crate) fn front(alloc: Global, bytes: &[u8]) -> Result<Found, AllocError>
    ensures { IfOk result (IsFront bytes.now) }
{
    if bytes.is_empty() {
        return Ok(Found::Nothing);
    }
    let first = bytes[0];
    if is_digit(first) {
        return Ok(integer(bytes));
    }
    if is_name_start(first) {
        return word(alloc, bytes);
    }
    if is_upper(first) {
        return constant(alloc, bytes);
    }
    if first == b'@' || first == b'$' {
        return variable(alloc, bytes);
    }
    if first == b':' {
        return symbol(alloc, bytes);
    }
    match mark(bytes) {
        Some(mark) => Ok(Found::Token(TokenKind::Mark(mark), mark_text(mark).len())),
        None => Ok(Found::Nothing),
    }
}

/// The integer at the front of bytes that begin with a digit.
fn integer(bytes: &[u8]) -> Found
    requires { IsTrue (is_digit (slice_index bytes.now 0)) }
    ensures { IsFront bytes.now result }
{
    let len = integer_len(bytes);
    let Some(value) = number(&bytes[..len]) else {
        return Found::TooWide;
    };
    if joins_integer(&bytes[len..]) {
        return Found::Joined(len);
    }
    Found::Token(TokenKind::Int(value as i64), len)
}

/// The label, keyword or identifier at the front of bytes that begin a name.
fn word(alloc: Global, bytes: &[u8]) -> Result<Found, AllocError>
    requires { IsTrue (is_name_start (slice_index bytes.now 0)) }
    ensures { IfOk result (IsFront bytes.now) }
{
    let len = identifier_len(bytes);
    let name = &bytes[..len];
    if ends_label(&bytes[len..]) {
        let name = Text::from_slice(alloc, name)?;
        return Ok(Found::Token(TokenKind::Label(name), len + 1));
    }
    if let Some(word) = keyword(name) {
        return Ok(Found::Token(TokenKind::Keyword(word), len));
    }
    let name = Text::from_slice(alloc, name)?;
    Ok(Found::Token(TokenKind::Ident(name), len))
}

/// Whether a `:` stands here that isn't the first of two.
fn ends_label(bytes: &[u8]) -> bool
    ensures { result ≡ ends_label bytes.now }
{
    begins_with(b':', bytes) && !begins_with(b':', &bytes[1..])
}

/// The class name at the front of bytes that begin with a capital letter.
fn constant(alloc: Global, bytes: &[u8]) -> Result<Found, AllocError>
    requires { IsTrue (is_upper (slice_index bytes.now 0)) }
    ensures { IfOk result (IsFront bytes.now) }
{
    let len = constant_len(bytes);
    let name = Text::from_slice(alloc, &bytes[..len])?;
    Ok(Found::Token(TokenKind::Const(name), len))
}

/// The variable at the front of bytes that begin with `@` or `$`.
fn variable(alloc: Global, bytes: &[u8]) -> Result<Found, AllocError>
    requires { (slice_index bytes.now 0 ≡ 64) ⊎ (slice_index bytes.now 0 ≡ 36) }
    ensures { IfOk result (IsFront bytes.now) }
{
    let len = plain_name_len(&bytes[1..]);
    if len == 0 {
        return Ok(Found::Nothing);
    }
    let name = Text::from_slice(alloc, &bytes[..1 + len])?;
    if bytes[0] == b'@' {
        return Ok(Found::Token(TokenKind::Field(name), 1 + len));
    }
    Ok(Found::Token(TokenKind::Global(name), 1 + len))
}

/// The symbol or the `:` at the front of bytes that begin with `:`.
fn symbol(alloc: Global, bytes: &[u8]) -> Result<Found, AllocError>
    requires { slice_index bytes.now 0 ≡ 58 }
    ensures { IfOk result (IsFront bytes.now) }
{
    let len = symbol_name_len(&bytes[1..]);
    if len == 0 {
        return Ok(Found::Token(TokenKind::Mark(Mark::Colon), 1));
    }
    let name = Text::from_slice(alloc, &bytes[1..1 + len])?;
    Ok(Found::Token(TokenKind::Symbol(name), 1 + len))
}
