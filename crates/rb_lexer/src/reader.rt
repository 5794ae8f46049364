// Reading from the left.

ghost use Rattle.std.specs.Prelude.{◌≡◌, ◌+◌, ◌≤◌, length, IfOk, vec_len};
ghost use Rattle.rb_lexer.specs.Tokens.{Answers, max_source, token_at};
ghost use Rattle.rb_lexer.specs.Turns.{ReadsFromStart};

use crate::fault::LexFault;
use crate::newline::Lines;
use crate::stack::Modes;
use crate::token::{Token, TokenKind};
use crate::turn::Turn;
use rb_tree::Span;
use std::alloc::Global;

/// The tokens of a source that is UTF-8, without the line feeds that are dropped; or its first fault.
///
/// # Errors
/// Each but `TooLarge` and `NotUtf8`.
pub(crate) fn read(alloc: Global, source: &[u8]) -> Result<Vec<Token>, LexFault>
    requires { length source.now ≤ max_source }
    ensures sound { Answers (ReadsFromStart source.now) result }
    ensures few { IfOk result (λ tokens. vec_len tokens ≤ length source.now + 1) }
{
    let mut lines = Lines::new(alloc);
    let mut modes = Modes::new(alloc);
    let mut at = 0;
    let mut spaced = false;
    'turns: loop {
        let turn = modes.turn(alloc, at, &source[at..])?;
        match turn {
            Turn::Passed(len) => {
                at += len;
                spaced = true;
                continue;
            }
            Turn::Token(kind, len, change) => {
                lines.add(token_at(kind, at, len, modes.spaced(spaced)))?;
                modes.follow(change)?;
                at += len;
                spaced = false;
                continue;
            }
            Turn::End => {
                lines.add(token_at(TokenKind::End, at, 0, spaced))?;
                return lines.finish();
            }
            Turn::Refused(fault) => return Err(fault),
        }
    }
}

/// The token of this kind, which stands at a place and has so many bytes.
fn token_at(kind: TokenKind, at: usize, bytes: usize, spaced: bool) -> Token
    requires { at + bytes ≤ max_source }
    ensures { result ≡ token_at kind at bytes spaced }
{
    Token {
        kind,
        at: Span {
            from: at as u32,
            to: (at + bytes) as u32,
        },
        spaced,
    }
}
