// Names that the grammar knows.

ghost use Rattle.std.specs.Prelude.{◌≡◌, codes};
ghost use Rattle.std.specs.Str.{bytes_eq};
ghost use Rattle.rb_grammar.specs.Grammar as grammar;
ghost use Rattle.rb_cursor.specs.Word.{word_by};

use rb_cursor::{Word, text_of};
use rb_lexer::{Token, TokenKind};

const EACH: &[u8] = b"each";

const EACH_WITH_INDEX: &[u8] = b"each_with_index";

const EACH_PAIR: &[u8] = b"each_pair";

const MAP: &[u8] = b"map";

const SELECT: &[u8] = b"select";

const TIMES: &[u8] = b"times";

const UPTO: &[u8] = b"upto";

const SYNCHRONIZE: &[u8] = b"synchronize";

const THREAD: &[u8] = b"Thread";

/// Whether the method of a name takes a block.
pub fn takes_block(text: &[u8]) -> bool
    ensures { result ≡ grammar.takes_block text.now }
{
    text == EACH
        || text == EACH_WITH_INDEX
        || text == EACH_PAIR
        || text == MAP
        || text == SELECT
        || text == TIMES
        || text == UPTO
        || text == SYNCHRONIZE
}

/// Whether a class is that of threads.
pub fn is_thread(text: &[u8]) -> bool
    ensures { result ≡ bytes_eq text.now (codes "Thread") }
{
    text == THREAD
}

/// The word of a token.
pub fn word_of(token: &Token) -> Word<'_>
    ensures { word_by result ≡ grammar.word_of token.now }
{
    Word {
        text: text_of(&token.kind),
        at: token.at,
    }
}

/// The value of an integer.
pub fn integer_of(kind: &TokenKind) -> i64
    ensures { result ≡ grammar.integer_of kind.now }
{
    match kind {
        TokenKind::Int(value) => *value,
        _ => 0,
    }
}
