// Which line feeds stay among the tokens.

ghost use Rattle.std.specs.Prelude.{◌≡◌, List, [], ◌∷◌, OnOk, IfOk, IfErr, true};
ghost use Rattle.rb_lexer.specs.declared.token.Token.{Token};
ghost use Rattle.rb_lexer.specs.Newlines.{without_dropped, is_newline};
ghost use Rattle.rb_lexer.specs.Mark.{is_closing};
ghost use Rattle.rb_lexer.specs.Lines.{lines_of, is_closing_kind, next_behind};

use crate::fault::LexFault;
use crate::token::{Mark, Token, TokenKind};
use std::alloc::Global;
use std::mem;

/// What becomes of a line feed.
#[derive(Drop)]
enum Next {
    /// One that comes next is dropped.
    Dropped,
    /// One that comes next stays, unless what follows closes a bracket or code in a text.
    Stays,
    /// This one came, and stays unless what follows closes such. Others that come next are dropped.
    Waits(Token),
}

/// The tokens that came so far, without the line feeds that are dropped.
#[derive(Drop)]
pub(crate) struct Lines {
    tokens: Vec<Token>,
    next: Next,
}

impl Lines {
    /// Where no token came.
    pub(crate) fn new(alloc: Global) -> Lines
        ensures { (later : List Token) → lines_of result later ≡ without_dropped true later }
    {
        Lines {
            tokens: Vec::new(alloc),
            next: Next::Dropped,
        }
    }

    /// Takes the next token.
    pub(crate) fn add(&mut self, token: Token) -> Result<(), LexFault>
        ensures ok { OnOk result ((later : List Token) → lines_of self.new later ≡ lines_of self.old (token ∷ later)) }
        ensures memory { IfErr result (λ fault. fault ≡ LexFault.Memory) }
    {
        if is_newline(&token.kind) {
            if let Next::Stays = self.next {
                self.next = Next::Waits(token);
            }
            return Ok(());
        }
        let before = mem::replace(&mut self.next, next_behind(&token.kind));
        if let Next::Waits(newline) = before
            && !is_closing(&token.kind)
        {
            self.tokens.push(newline)?;
        }
        self.tokens.push(token)?;
        Ok(())
    }

    /// The tokens, where no other comes.
    pub(crate) fn finish(self) -> Result<Vec<Token>, LexFault>
        ensures ok { IfOk result (λ tokens. tokens.items ≡ lines_of self []) }
        ensures memory { IfErr result (λ fault. fault ≡ LexFault.Memory) }
    {
        let Lines { mut tokens, next } = self;
        if let Next::Waits(newline) = next {
            tokens.push(newline)?;
        }
        Ok(tokens)
    }
}

fn is_newline(kind: &TokenKind) -> bool
    ensures { result ≡ is_newline kind.now }
{
    matches!(kind, TokenKind::Newline)
}

/// Whether a token closes a bracket or code in a text.
fn is_closing(kind: &TokenKind) -> bool
    ensures { result ≡ is_closing_kind kind.now }
{
    match kind {
        TokenKind::CodeClose => true,
        TokenKind::Mark(mark) => closes(*mark),
        _ => false,
    }
}

fn closes(mark: Mark) -> bool
    ensures { result ≡ is_closing mark }
{
    matches!(
        mark,
        Mark::CloseParen | Mark::CloseBracket | Mark::CloseBrace
    )
}

/// What becomes of a line feed directly behind a token that is none.
fn next_behind(kind: &TokenKind) -> Next
    ensures { result ≡ next_behind kind.now }
{
    match kind {
        TokenKind::Label(_) | TokenKind::CodeOpen => Next::Dropped,
        TokenKind::Mark(mark) if !closes(*mark) => Next::Dropped,
        _ => Next::Stays,
    }
}
