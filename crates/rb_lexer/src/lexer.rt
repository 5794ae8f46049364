// From bytes to tokens.

ghost use Rattle.std.specs.Prelude.{◌≡◌, ◌+◌, ◌≤◌, ◌<◌, ◌↔◌, ℕ, Ok, Err, length, IfOk, vec_len};
ghost use Rattle.std.specs.List.{AllByRecursion};
ghost use Rattle.rb_lexer.specs.Spans.{StandInOrder, AllBetween, EndsOnce, IsNatural, NotEmpty};
ghost use Rattle.rb_lexer.specs.Tokens.{Lexes, Outcome, Answers, max_source};

use crate::fault::LexFault;
use crate::reader::read;
use crate::token::Token;
use std::alloc::Global;

/// The bytes that a source has at most.
const MAX_SOURCE: usize = 1_048_576;

/// The tokens of a source, of which the last is the end; or its first fault.
///
/// # Errors
/// `TooLarge` comes before `NotUtf8`, and both before what reading from the left finds. `Memory` where memory is refused.
pub fn lex(alloc: Global, source: &[u8]) -> Result<Vec<Token>, LexFault>
    // What is answered are the tokens of the source or its first fault, of which there are no others; or want of memory.
    ensures sound { Answers (Lexes source.now) result }
    ensures complete { (outcome : Outcome) → Lexes source.now outcome → Answers (λ o. o ≡ outcome) result }
    // Each token stands behind the one before it, and within the source.
    ensures ordered { IfOk result (λ tokens. StandInOrder 0 (length source.now) tokens.items) }
    // Before, between and behind the tokens stand white space, comments and line ends alone.
    ensures between { IfOk result (λ tokens. AllBetween source.now 0 tokens.items) }
    ensures ends { IfOk result (λ tokens. EndsOnce tokens.items) }
    ensures natural { IfOk result (λ tokens. AllByRecursion IsNatural tokens.items) }
    ensures not_empty { IfOk result (λ tokens. AllByRecursion NotEmpty tokens.items) }
    ensures few { IfOk result (λ tokens. vec_len tokens ≤ length source.now + 1) }
{
    if source.len() > MAX_SOURCE {
        return Err(LexFault::TooLarge);
    }
    if let Err(fault) = str::from_utf8(source) {
        return Err(LexFault::NotUtf8(fault.valid_up_to() as u32));
    }
    read(alloc, source)
}
