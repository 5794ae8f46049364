// What the grammar sees of a token.

ghost use Rattle.std.specs.Prelude.{◌≡◌};
ghost use Rattle.std.specs.List.{list_any};
ghost use Rattle.std.specs.Str.{bytes_eq};
ghost use Rattle.rb_grammar.specs.Look as look;
ghost use Rattle.rb_cursor.specs.Class.{class_by};

use rb_lexer::{Keyword, Mark, TokenKind};

const NEW: &[u8] = b"new";
/// The word that makes a reader of a field.
pub const ATTR_READER: &[u8] = b"attr_reader";
/// The word that makes a writer of a field.
pub const ATTR_WRITER: &[u8] = b"attr_writer";

const ATTR_ACCESSOR: &[u8] = b"attr_accessor";

/// A token without its text and value. Identifiers are told apart by what the grammar asks of them.
#[derive(Clone, Copy, Debug, PartialEq, Eq)]
pub enum Class {
    /// A line end.
    Line,
    Int,
    /// An identifier of no other class.
    Word,
    /// An identifier that ends in `?` or `!`.
    Marked,
    /// `attr_reader`, `attr_writer` or `attr_accessor`.
    Attribute,
    /// The identifier `new`.
    New,
    /// A class name.
    Constant,
    /// An instance variable.
    Field,
    Global,
    Symbol,
    Label,
    TextOpen,
    TextPiece,
    CodeOpen,
    CodeClose,
    TextClose,
    End,
    ClassWord,
    DefWord,
    EndWord,
    IfWord,
    ElsifWord,
    ElseWord,
    UnlessWord,
    WhileWord,
    UntilWord,
    ThenWord,
    DoWord,
    ReturnWord,
    BreakWord,
    NextWord,
    SelfWord,
    TrueWord,
    FalseWord,
    NilWord,
    /// A keyword that no rule has.
    Reserved,
    Comma,
    OpenParen,
    OpenBracket,
    OpenBrace,
    Dot,
    Assign,
    PlusAssign,
    MinusAssign,
    TimesAssign,
    OverAssign,
    ModuloAssign,
    OrAssign,
    AndAssign,
    Question,
    Colon,
    Bang,
    AndAnd,
    OrOr,
    Arrow,
    Equal,
    NotEqual,
    Less,
    LessEqual,
    Greater,
    GreaterEqual,
    ShiftLeft,
    Plus,
    Minus,
    Times,
    Over,
    Modulo,
    Bar,
    CloseParen,
    CloseBracket,
    CloseBrace,
}

/// The class of a token of this kind.
pub fn class_of(kind: &TokenKind) -> Class
    ensures { class_by result ≡ look.class_of kind.now }
{
    match kind {
        TokenKind::Newline => Class::Line,
        TokenKind::Int(_) => Class::Int,
        TokenKind::Ident(text) => class_of_identifier(text.as_slice()),
        TokenKind::Const(_) => Class::Constant,
        TokenKind::Field(_) => Class::Field,
        TokenKind::Global(_) => Class::Global,
        TokenKind::Symbol(_) => Class::Symbol,
        TokenKind::Label(_) => Class::Label,
        TokenKind::Keyword(keyword) => class_of_keyword(*keyword),
        TokenKind::TextOpen => Class::TextOpen,
        TokenKind::TextPiece(_) => Class::TextPiece,
        TokenKind::CodeOpen => Class::CodeOpen,
        TokenKind::CodeClose => Class::CodeClose,
        TokenKind::TextClose => Class::TextClose,
        TokenKind::Mark(mark) => class_of_mark(*mark),
        TokenKind::End => Class::End,
    }
}

/// The class of an identifier.
fn class_of_identifier(text: &[u8]) -> Class
    ensures { class_by result ≡ look.class_of_identifier text.now }
{
    if is_marked(text) {
        Class::Marked
    } else if is_attribute_word(text) {
        Class::Attribute
    } else if text == NEW {
        Class::New
    } else {
        Class::Word
    }
}

/// Whether an identifier ends in `?` or `!`.
pub fn is_marked(text: &[u8]) -> bool
    ensures { result ≡ look.is_marked text.now }
{
    text.ends_with(b"?") || text.ends_with(b"!")
}

/// Whether a word makes methods of fields.
fn is_attribute_word(text: &[u8]) -> bool
    ensures { result ≡ list_any (bytes_eq text.now) look.attribute_words }
{
    text == ATTR_READER || text == ATTR_WRITER || text == ATTR_ACCESSOR
}

/// The class of a keyword.
fn class_of_keyword(keyword: Keyword) -> Class
    ensures { class_by result ≡ look.class_of_keyword keyword }
{
    match keyword {
        Keyword::Class => Class::ClassWord,
        Keyword::Def => Class::DefWord,
        Keyword::End => Class::EndWord,
        Keyword::If => Class::IfWord,
        Keyword::Elsif => Class::ElsifWord,
        Keyword::Else => Class::ElseWord,
        Keyword::Unless => Class::UnlessWord,
        Keyword::While => Class::WhileWord,
        Keyword::Until => Class::UntilWord,
        Keyword::Then => Class::ThenWord,
        Keyword::Do => Class::DoWord,
        Keyword::Return => Class::ReturnWord,
        Keyword::Break => Class::BreakWord,
        Keyword::Next => Class::NextWord,
        Keyword::SelfRef => Class::SelfWord,
        Keyword::True => Class::TrueWord,
        Keyword::False => Class::FalseWord,
        Keyword::Nil => Class::NilWord,
        _ => Class::Reserved,
    }
}

/// The class of a mark.
fn class_of_mark(mark: Mark) -> Class
    ensures { class_by result ≡ look.class_of_mark mark }
{
    match mark {
        Mark::Comma => Class::Comma,
        Mark::OpenParen => Class::OpenParen,
        Mark::OpenBracket => Class::OpenBracket,
        Mark::OpenBrace => Class::OpenBrace,
        Mark::Dot => Class::Dot,
        Mark::Assign => Class::Assign,
        Mark::PlusAssign => Class::PlusAssign,
        Mark::MinusAssign => Class::MinusAssign,
        Mark::TimesAssign => Class::TimesAssign,
        Mark::OverAssign => Class::OverAssign,
        Mark::ModuloAssign => Class::ModuloAssign,
        Mark::OrAssign => Class::OrAssign,
        Mark::AndAssign => Class::AndAssign,
        Mark::Question => Class::Question,
        Mark::Colon => Class::Colon,
        Mark::Not => Class::Bang,
        Mark::AndAnd => Class::AndAnd,
        Mark::OrOr => Class::OrOr,
        Mark::Arrow => Class::Arrow,
        Mark::Equal => Class::Equal,
        Mark::NotEqual => Class::NotEqual,
        Mark::Less => Class::Less,
        Mark::LessEqual => Class::LessEqual,
        Mark::Greater => Class::Greater,
        Mark::GreaterEqual => Class::GreaterEqual,
        Mark::ShiftLeft => Class::ShiftLeft,
        Mark::Plus => Class::Plus,
        Mark::Minus => Class::Minus,
        Mark::Times => Class::Times,
        Mark::Over => Class::Over,
        Mark::Modulo => Class::Modulo,
        Mark::Bar => Class::Bar,
        Mark::CloseParen => Class::CloseParen,
        Mark::CloseBracket => Class::CloseBracket,
        Mark::CloseBrace => Class::CloseBrace,
    }
}
