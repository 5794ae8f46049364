// Words of the text.

ghost use Rattle.std.specs.Prelude.{◌≡◌, ◌≤◌, ℕ, length, MatchResult};
ghost use Rattle.rb_grammar.specs.Look as look;
ghost use Rattle.rb_grammar.specs.Phrase as p;
ghost use Rattle.rb_grammar.specs.Grammar.{names, identifiers};
ghost use Rattle.rb_grammar.specs.Rule.{next_meets};
ghost use Rattle.rb_cursor.specs.Word.{text_now, TookWord, IsWord, AreWords};
ghost use Rattle.rb_cursor.specs.Class.{class_by};
ghost use Rattle.rb_cursor.specs.State.{Missed, Came, answer_at};

use crate::class::Class;
use crate::cursor::Cursor;
use crate::fault::ParseFault;
use rb_lexer::{Token, TokenKind};
use rb_tree::{Items, Span};
use std::alloc::Global;

/// A text and the place of the token that it stands in.
#[derive(Clone, Copy)]
pub struct Word<'t> {
    pub text: &'t [u8],
    pub at: Span,
}

/// What no text is.
const NO_TEXT: &[u8] = b"";

/// The text of a token, which is empty where it has none.
pub fn text_of(kind: &TokenKind) -> &[u8]
    ensures { result.now ≡ text_now kind.now }
{
    match kind {
        TokenKind::Ident(text)
        | TokenKind::Const(text)
        | TokenKind::Field(text)
        | TokenKind::Global(text)
        | TokenKind::Symbol(text)
        | TokenKind::Label(text)
        | TokenKind::TextPiece(text) => text.as_slice(),
        _ => NO_TEXT,
    }
}

impl<'t> Cursor<'t> {
    /// Whether the next token is an identifier that may be a local.
    fn is_name(&self) -> bool
        ensures { result ≡ next_meets (look.one_of names) self.now.rest }
    {
        self.is(Class::Word) || self.is(Class::Attribute) || self.is(Class::New)
    }

    /// Takes an identifier that may be a local.
    pub fn name(&mut self) -> Result<Word<'t>, ParseFault>
        ensures word { MatchResult result (TookWord (look.one_of names) self.old self.new) (Missed (look.one_of names) self.old) }
        ensures shorter { length self.new.rest ≤ length self.old.rest }
    {
        if !self.is_name() {
            return Err(self.refusal());
        }
        let token = self.take()?;
        Ok(Word {
            text: text_of(&token.kind),
            at: token.at,
        })
    }

    /// The one parameter of a method that writes an attribute, up to the bracket behind it.
    pub fn one_param(&mut self) -> Result<Word<'t>, ParseFault>
        ensures came { (levels : ℕ) → Came IsWord self.new (answer_at levels p.one_param self.old) result }
        ensures shorter { length self.new.rest ≤ length self.old.rest }
    {
        let word = self.name()?;
        self.expect(Class::CloseParen)?;
        Ok(word)
    }

    /// The parameters of a method behind the bracket that opens them, up to the one that closes them.
    pub fn params(&mut self, alloc: Global) -> Result<Items<Word<'t>>, ParseFault>
        ensures came { (levels : ℕ) → Came AreWords self.new (answer_at levels p.params self.old) result }
        ensures shorter { length self.new.rest ≤ length self.old.rest }
    {
        let mut words = Items::new(alloc);
        if let Some(_) = self.accept(Class::CloseParen) {
            return Ok(words);
        }
        let first = self.name()?;
        words.push(first)?;
        'more: while let Some(_) = self.accept(Class::Comma) {
            let next = self.name()?;
            words.push(next)?;
        }
        self.expect(Class::CloseParen)?;
        Ok(words)
    }
}
