// One turn of reading: what stands at the front of bytes, in code or in a text.

ghost use Rattle.std.specs.Prelude.{◌≡◌, ◌+◌, ◌≤◌, ◌<◌, ℕ, Bool, [], ◌∷◌, List, length, reverse, IfOk, true, false};
ghost use Rattle.std.specs.List.{prefix_len};
ghost use Rattle.rb_lexer.specs.Character.{is_blank, is_line_end};
ghost use Rattle.rb_lexer.specs.Modes.{ends_code, braces_after, open_text_from, open_text};
ghost use Rattle.rb_lexer.specs.Part.{begins_plain, begins_escape, quote_mark};
ghost use Rattle.rb_lexer.specs.Tokens.{max_source};
ghost use Rattle.rb_lexer.specs.Turns.{IsTurn, IsStack, quote_of, comment_byte};
ghost use Rattle.rb_lexer.specs.declared.mode.Mode.TheVariants.{Code, Text};

use crate::fault::LexFault;
use crate::front::{Found, front};
use crate::mode::{Mode, Quote};
use crate::part::part;
use crate::token::{Mark, TokenKind};
use std::alloc::{AllocError, Global};

/// What a turn does to the modes.
#[derive(Clone, Copy, Debug, PartialEq, Eq)]
pub(crate) enum Change {
    /// Another mode takes the place of the innermost.
    Become(Mode),
    /// A further mode is the innermost.
    Enter(Mode),
    /// The innermost mode ends.
    Leave,
}

/// What stands at the front of bytes.
#[derive(Drop)]
pub(crate) enum Turn {
    /// White space or a comment, of so many bytes.
    Passed(usize),
    /// A token of this kind, of so many bytes, and what it does to the modes.
    Token(TokenKind, usize, Change),
    /// Nothing, where the source may end.
    End,
    /// What no source may have.
    Refused(LexFault),
}

/// The turn at the front of code.
pub(crate) fn code_turn(
    alloc: Global,
    braces: u32,
    below: &[Mode],
    at: usize,
    bytes: &[u8],
) -> Result<Turn, AllocError>
    requires stack { IsStack at (Code braces ∷ reverse below.now) }
    requires small { at + length bytes.now ≤ max_source }
    ensures { IfOk result (λ turn. (spaced : Bool) → IsTurn (Code braces ∷ reverse below.now) at spaced bytes.now turn) }
{
    if bytes.is_empty() {
        return Ok(end_turn(below));
    }
    let first = bytes[0];
    if is_blank(first) {
        return Ok(Turn::Passed(1));
    }
    if is_line_end(first) {
        let stay = Change::Become(Mode::Code(braces));
        return Ok(Turn::Token(TokenKind::Newline, 1, stay));
    }
    if first == b'#' {
        return Ok(Turn::Passed(comment_len(bytes)));
    }
    if let Some(quote) = quote_of(first) {
        let enter = Change::Enter(Mode::Text(quote, at as u32));
        return Ok(Turn::Token(TokenKind::TextOpen, 1, enter));
    }
    if first == b'}' && ends_code(braces, below) {
        return Ok(Turn::Token(TokenKind::CodeClose, 1, Change::Leave));
    }
    match front(alloc, bytes)? {
        Found::Nothing => Ok(Turn::Refused(LexFault::BadCharacter(at as u32))),
        Found::TooWide => Ok(Turn::Refused(LexFault::IntegerTooWide(at as u32))),
        Found::Joined(len) => Ok(Turn::Refused(LexFault::BadCharacter((at + len) as u32))),
        Found::Token(kind, len) => {
            let braces = braces_after(&kind, braces);
            Ok(Turn::Token(kind, len, Change::Become(Mode::Code(braces))))
        }
    }
}

/// The turn of code where the source ends.
fn end_turn(below: &[Mode]) -> Turn
    ensures { (braces at : ℕ) (spaced : Bool) → IsTurn (Code braces ∷ reverse below.now) at spaced [] result }
{
    if below.is_empty() {
        return Turn::End;
    }
    Turn::Refused(LexFault::UnclosedText(open_text(0, below)))
}

/// The turn at the front of what stands in a text, which was opened at a place.
pub(crate) fn text_turn(
    alloc: Global,
    quote: Quote,
    opened: u32,
    below: &[Mode],
    at: usize,
    bytes: &[u8],
) -> Result<Turn, AllocError>
    requires stack { IsStack at (Text quote opened ∷ reverse below.now) }
    requires small { at + length bytes.now ≤ max_source }
    ensures { IfOk result (λ turn. (spaced : Bool) → IsTurn (Text quote opened ∷ reverse below.now) at spaced bytes.now turn) }
{
    let found = part(alloc, quote, bytes)?;
    if found.len > 0 {
        let stay = Change::Become(Mode::Text(quote, opened));
        return Ok(Turn::Token(TokenKind::TextPiece(found.text), found.len, stay));
    }
    Ok(stop_turn(quote, opened, below, at, bytes))
}

/// The turn where no part of a text stands.
fn stop_turn(quote: Quote, opened: u32, below: &[Mode], at: usize, bytes: &[u8]) -> Turn
    requires stack { IsStack at (Text quote opened ∷ reverse below.now) }
    requires small { at + length bytes.now ≤ max_source }
    requires no_plain { begins_plain quote bytes.now ≡ false }
    requires no_escape { begins_escape quote bytes.now ≡ false }
    ensures { (spaced : Bool) → IsTurn (Text quote opened ∷ reverse below.now) at spaced bytes.now result }
{
    if bytes.is_empty() {
        return Turn::Refused(LexFault::UnclosedText(open_text(opened, below)));
    }
    if bytes[0] == quote_mark(quote) {
        return Turn::Token(TokenKind::TextClose, 1, Change::Leave);
    }
    if bytes[0] == b'#' {
        return Turn::Token(TokenKind::CodeOpen, 2, Change::Enter(Mode::Code(0)));
    }
    if bytes.len() == 1 {
        return Turn::Refused(LexFault::UnclosedText(open_text(opened, below)));
    }
    Turn::Refused(LexFault::BadEscape(at as u32))
}

/// The place of the outermost text among the modes, or this one where there is no text.
fn open_text(innermost: u32, below: &[Mode]) -> u32
    ensures { result ≡ open_text_from innermost (reverse below.now) }
{
    let mut place = innermost;
    let mut index = below.len();
    'modes: while index > 0 {
        index -= 1;
        place = text_place(below[index], place);
    }
    place
}

/// The place of a text, or this one of code.
fn text_place(mode: Mode, place: u32) -> u32
    ensures { (below : List Mode) → open_text_from result below ≡ open_text_from place (mode ∷ below) }
{
    match mode {
        Mode::Code(_) => place,
        Mode::Text(_, opened) => opened,
    }
}

/// Whether a character is white space.
fn is_blank(byte: u8) -> bool
    ensures { result ≡ is_blank byte }
{
    byte == b' ' || byte == b'\t' || byte == b'\r'
}

/// Whether a character ends a line.
fn is_line_end(byte: u8) -> bool
    ensures { result ≡ is_line_end byte }
{
    byte == b'\n' || byte == b';'
}

/// How many bytes the comment at the front has.
fn comment_len(bytes: &[u8]) -> usize
    ensures { result ≡ prefix_len comment_byte bytes.now }
{
    bytes.iter().take_while(|b| **b != b'\n').count()
}

/// The quote that a character is.
fn quote_of(byte: u8) -> Option<Quote>
    ensures { result ≡ quote_of byte }
{
    match byte {
        b'\'' => Some(Quote::Single),
        b'"' => Some(Quote::Double),
        _ => None,
    }
}

/// The character of a quote.
pub(crate) fn quote_mark(quote: Quote) -> u8
    ensures { result ≡ quote_mark quote }
{
    match quote {
        Quote::Single => b'\'',
        Quote::Double => b'"',
    }
}

/// Whether a `}` here ends code that stands in a text.
fn ends_code(braces: u32, below: &[Mode]) -> bool
    ensures { result ≡ ends_code braces (reverse below.now) }
{
    braces == 0 && !below.is_empty()
}

/// The open braces behind a token.
fn braces_after(kind: &TokenKind, braces: u32) -> u32
    requires { braces ≤ max_source }
    ensures { result ≡ braces_after kind.now braces }
{
    match kind {
        TokenKind::Mark(Mark::OpenBrace) => braces + 1,
        TokenKind::Mark(Mark::CloseBrace) => braces.saturating_sub(1),
        _ => braces,
    }
}
