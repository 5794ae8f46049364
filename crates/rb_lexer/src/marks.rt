// Marks.

ghost use Rattle.std.specs.Prelude.{◌≡◌, ℕ, List, ◌++◌, None, IfSome};
ghost use Rattle.rb_lexer.specs.declared.token.Mark.{Mark};
ghost use Rattle.rb_lexer.specs.Mark.{mark_text};
ghost use Rattle.rb_lexer.specs.Extent.{LongestMark};

use crate::token::Mark;

/// Each mark, the longest first.
const MARKS: [Mark; 35] = [
    Mark::OrAssign,
    Mark::AndAssign,
    Mark::PlusAssign,
    Mark::MinusAssign,
    Mark::TimesAssign,
    Mark::OverAssign,
    Mark::ModuloAssign,
    Mark::AndAnd,
    Mark::OrOr,
    Mark::Arrow,
    Mark::Equal,
    Mark::NotEqual,
    Mark::LessEqual,
    Mark::GreaterEqual,
    Mark::ShiftLeft,
    Mark::Comma,
    Mark::OpenParen,
    Mark::OpenBracket,
    Mark::OpenBrace,
    Mark::Dot,
    Mark::Assign,
    Mark::Question,
    Mark::Colon,
    Mark::Not,
    Mark::Less,
    Mark::Greater,
    Mark::Plus,
    Mark::Minus,
    Mark::Times,
    Mark::Over,
    Mark::Modulo,
    Mark::Bar,
    Mark::CloseParen,
    Mark::CloseBracket,
    Mark::CloseBrace,
];

/// The longest mark at the front of bytes.
pub(crate) fn mark(bytes: &[u8]) -> Option<Mark>
    ensures found { IfSome result (λ m. LongestMark bytes.now m) }
    ensures absent { result ≡ None → (m : Mark) (rest : List ℕ) → mark_text m ++ rest ≡ bytes.now → ⊥ }
{
    'marks: for mark in MARKS {
        if bytes.starts_with(mark_text(mark)) {
            return Some(mark);
        }
    }
    None
}

/// How a mark is written.
pub(crate) fn mark_text(mark: Mark) -> &'static [u8]
    ensures { result.now ≡ mark_text mark }
{
    match mark {
        Mark::Comma => b",",
        Mark::OpenParen => b"(",
        Mark::OpenBracket => b"[",
        Mark::OpenBrace => b"{",
        Mark::Dot => b".",
        Mark::Assign => b"=",
        Mark::PlusAssign => b"+=",
        Mark::MinusAssign => b"-=",
        Mark::TimesAssign => b"*=",
        Mark::OverAssign => b"/=",
        Mark::ModuloAssign => b"%=",
        Mark::OrAssign => b"||=",
        Mark::AndAssign => b"&&=",
        Mark::Question => b"?",
        Mark::Colon => b":",
        Mark::Not => b"!",
        Mark::AndAnd => b"&&",
        Mark::OrOr => b"||",
        Mark::Arrow => b"=>",
        Mark::Equal => b"==",
        Mark::NotEqual => b"!=",
        Mark::Less => b"<",
        Mark::LessEqual => b"<=",
        Mark::Greater => b">",
        Mark::GreaterEqual => b">=",
        Mark::ShiftLeft => b"<<",
        Mark::Plus => b"+",
        Mark::Minus => b"-",
        Mark::Times => b"*",
        Mark::Over => b"/",
        Mark::Modulo => b"%",
        Mark::Bar => b"|",
        Mark::CloseParen => b")",
        Mark::CloseBracket => b"]",
        Mark::CloseBrace => b"}",
    }
}
