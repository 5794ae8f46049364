// Keywords.

ghost use Rattle.std.specs.Prelude.{◌≡◌, None, IfSome};
ghost use Rattle.rb_lexer.specs.declared.token.Keyword.{Keyword};
ghost use Rattle.rb_lexer.specs.Word.{keyword_text};

use crate::token::Keyword;

/// Each keyword.
const KEYWORDS: [Keyword; 36] = [
    Keyword::Class,
    Keyword::Def,
    Keyword::End,
    Keyword::If,
    Keyword::Elsif,
    Keyword::Else,
    Keyword::Unless,
    Keyword::While,
    Keyword::Until,
    Keyword::Then,
    Keyword::Do,
    Keyword::Return,
    Keyword::Break,
    Keyword::Next,
    Keyword::SelfRef,
    Keyword::True,
    Keyword::False,
    Keyword::Nil,
    Keyword::Alias,
    Keyword::And,
    Keyword::Begin,
    Keyword::Case,
    Keyword::Defined,
    Keyword::Ensure,
    Keyword::For,
    Keyword::In,
    Keyword::Module,
    Keyword::Not,
    Keyword::Or,
    Keyword::Redo,
    Keyword::Rescue,
    Keyword::Retry,
    Keyword::Super,
    Keyword::Undef,
    Keyword::When,
    Keyword::Yield,
];

/// The keyword that is written so.
pub(crate) fn keyword(text: &[u8]) -> Option<Keyword>
    ensures found { IfSome result (λ word. text.now ≡ keyword_text word) }
    ensures absent { result ≡ None → (word : Keyword) → text.now ≡ keyword_text word → ⊥ }
{
    'words: for word in KEYWORDS {
        if keyword_text(word) == text {
            return Some(word);
        }
    }
    None
}

/// How a keyword is written.
fn keyword_text(word: Keyword) -> &'static [u8]
    ensures { result.now ≡ keyword_text word }
{
    match word {
        Keyword::Class => b"class",
        Keyword::Def => b"def",
        Keyword::End => b"end",
        Keyword::If => b"if",
        Keyword::Elsif => b"elsif",
        Keyword::Else => b"else",
        Keyword::Unless => b"unless",
        Keyword::While => b"while",
        Keyword::Until => b"until",
        Keyword::Then => b"then",
        Keyword::Do => b"do",
        Keyword::Return => b"return",
        Keyword::Break => b"break",
        Keyword::Next => b"next",
        Keyword::SelfRef => b"self",
        Keyword::True => b"true",
        Keyword::False => b"false",
        Keyword::Nil => b"nil",
        Keyword::Alias => b"alias",
        Keyword::And => b"and",
        Keyword::Begin => b"begin",
        Keyword::Case => b"case",
        Keyword::Defined => b"defined?",
        Keyword::Ensure => b"ensure",
        Keyword::For => b"for",
        Keyword::In => b"in",
        Keyword::Module => b"module",
        Keyword::Not => b"not",
        Keyword::Or => b"or",
        Keyword::Redo => b"redo",
        Keyword::Rescue => b"rescue",
        Keyword::Retry => b"retry",
        Keyword::Super => b"super",
        Keyword::Undef => b"undef",
        Keyword::When => b"when",
        Keyword::Yield => b"yield",
    }
}
