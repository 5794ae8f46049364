// What a token is.

use rb_tree::{Span, Text};

/// A keyword. No rule of the grammar has those from `Alias` on: they are reserved.
#[derive(Clone, Copy, Debug, PartialEq, Eq)]
pub enum Keyword {
    Class,
    Def,
    End,
    If,
    Elsif,
    Else,
    Unless,
    While,
    Until,
    Then,
    Do,
    Return,
    Break,
    Next,
    SelfRef,
    True,
    False,
    Nil,
    Alias,
    And,
    Begin,
    Case,
    Defined,
    Ensure,
    For,
    In,
    Module,
    Not,
    Or,
    Redo,
    Rescue,
    Retry,
    Super,
    Undef,
    When,
    Yield,
}

/// A mark of one to three characters.
#[derive(Clone, Copy, Debug, PartialEq, Eq)]
pub enum Mark {
    /// `,`
    Comma,
    /// `(`
    OpenParen,
    /// `[`
    OpenBracket,
    /// `{`
    OpenBrace,
    /// `.`
    Dot,
    /// `=`
    Assign,
    /// `+=`
    PlusAssign,
    /// `-=`
    MinusAssign,
    /// `*=`
    TimesAssign,
    /// `/=`
    OverAssign,
    /// `%=`
    ModuloAssign,
    /// `||=`
    OrAssign,
    /// `&&=`
    AndAssign,
    /// `?`
    Question,
    /// `:`
    Colon,
    /// `!`
    Not,
    /// `&&`
    AndAnd,
    /// `||`
    OrOr,
    /// `=>`
    Arrow,
    /// `==`
    Equal,
    /// `!=`
    NotEqual,
    /// `<`
    Less,
    /// `<=`
    LessEqual,
    /// `>`
    Greater,
    /// `>=`
    GreaterEqual,
    /// `<<`
    ShiftLeft,
    /// `+`
    Plus,
    /// `-`
    Minus,
    /// `*`
    Times,
    /// `/`
    Over,
    /// `%`
    Modulo,
    /// `|`
    Bar,
    /// `)`
    CloseParen,
    /// `]`
    CloseBracket,
    /// `}`
    CloseBrace,
}

/// The kind of a token, with what it says.
#[derive(Drop)]
pub enum TokenKind {
    /// A line feed or `;`.
    Newline,
    /// An integer literal, which is not negative.
    Int(i64),
    /// An identifier, with its `?` or `!` where it has one.
    Ident(Text),
    /// A class name.
    Const(Text),
    /// An instance variable, with its `@`.
    Field(Text),
    /// A global variable, with its `$`.
    Global(Text),
    /// A symbol, without its `:`.
    Symbol(Text),
    /// A label, without its `:`.
    Label(Text),
    Keyword(Keyword),
    /// The quote that opens a text.
    TextOpen,
    /// Characters of a text, as their escapes stand for them.
    TextPiece(Text),
    /// `#{` in a text.
    CodeOpen,
    /// The `}` that ends code in a text.
    CodeClose,
    /// The quote that closes a text.
    TextClose,
    Mark(Mark),
    /// The end of the source.
    End,
}

/// A token and its place. It is spaced where white space or a comment stands directly before it.
#[derive(Drop)]
pub struct Token {
    pub kind: TokenKind,
    pub at: Span,
    pub spaced: bool,
}
