// Where a parser stands among the tokens.

ghost use Rattle.std.specs.Prelude.{◌≡◌, ◌≤◌, length, ◌||◌, ◌&&◌, [], Ok, Err, false, OnOk, OnErr, IfOk, MatchResult, MatchOption, OnSome, ◌<◌, true, neg_ℤ};
ghost use Rattle.rb_grammar.specs.Look as look;
ghost use Rattle.rb_grammar.specs.Scope as scopes;
ghost use Rattle.rb_grammar.specs.Rule.{next_meets, next_touches, arguments_follow, begins_arguments};
ghost use Rattle.rb_grammar.specs.Reading.{from_refused, is_looked_behind};
ghost use Rattle.rb_grammar.specs.Heads.{next_class, next_spaced};
ghost use Rattle.rb_grammar.specs.Grammar.{integer_of};
ghost use Rattle.std.specs.List.{AllByRecursion};
ghost use Rattle.rb_lexer.specs.Spans.{IsNatural};
ghost use Rattle.rb_lexer.specs.declared.token.Token as tokens;
ghost use Rattle.rb_cursor.specs.Class.{class_by};
ghost use Rattle.rb_cursor.specs.State.{State, Took, Missed, any_token, next_place};

use crate::class::{Class, class_of};
use crate::fault::ParseFault;
use crate::scope::Scopes;
use rb_lexer::{Token, TokenKind};
use rb_tree::Span;
use std::alloc::Global;
use std::marker::Model;

/// The tokens that are left, and what the text before them says.
#[derive(Drop)]
pub struct Cursor<'t> {
    rest: &'t [Token],
    /// The class of the next token.
    class: Class,
    /// Whether the parser has looked behind the next token.
    looked: bool,
    scopes: Scopes,
}

impl<'t> Model for Cursor<'t> {
    ghost use Rattle.std.specs.Prelude.{◌≡◌};
    ghost use Rattle.rb_grammar.specs.Heads.{next_class};
    ghost use Rattle.rb_cursor.specs.Class.{class_by};
    ghost use Rattle.rb_cursor.specs.State.{State};
    ghost use Rattle.std.specs.List.{AllByRecursion};
    ghost use Rattle.rb_lexer.specs.Spans.{IsNatural};

    ghost Value = { State };

    ghost view = { λ c. record { scope = c.scopes; looked = c.looked; rest = c.rest.now } };

    // the class is that of the next token, and no integer is negative
    ghost invariant = { λ c. (class_by c.class ≡ next_class c.rest.now) × AllByRecursion IsNatural c.rest.now };
}

/// The class of the next token. No token counts as the end.
fn next_class(tokens: &[Token]) -> Class
    ensures { class_by result ≡ next_class tokens.now }
{
    match tokens.first() {
        Some(token) => class_of(&token.kind),
        None => Class::End,
    }
}

impl<'t> Cursor<'t> {
    /// Before the first token, at the top level. No integer among the tokens is negative.
    pub fn new(alloc: Global, tokens: &'t [Token]) -> Result<Cursor<'t>, ParseFault>
        requires natural { AllByRecursion IsNatural tokens.now }
        ensures ok { IfOk result (λ c. c ≡ record { scope = scopes.top_level; looked = false; rest = tokens.now }) }
        ensures memory { OnErr result (result ≡ Err ParseFault.Memory) }
    {
        let mut scopes = Scopes::new(alloc);
        scopes.enter_method()?;
        Ok(Cursor {
            rest: tokens,
            class: next_class(tokens),
            looked: false,
            scopes,
        })
    }

    /// The class of the next token.
    pub fn class(&self) -> Class
        ensures { class_by result ≡ next_class self.now.rest }
    {
        self.class
    }

    /// Whether the next token is of a class.
    pub fn is(&self, class: Class) -> bool
        ensures { result ≡ next_meets (look.is (class_by class)) self.now.rest }
    {
        match self.rest {
            [_, ..] => class as u8 == self.class as u8,
            [] => false,
        }
    }

    /// Whether the next token is of a class and not spaced.
    #[tactic(auto, using(crate::proofs::Classes::glued_steps))]
    pub fn is_glued(&self, class: Class) -> bool
        ensures { result ≡ next_meets (look.glued (class_by class)) self.now.rest }
    {
        self.is(class) && !self.is_spaced()
    }

    /// Whether white space or a comment stands directly before the next token.
    fn is_spaced(&self) -> bool
        ensures { result ≡ next_spaced self.now.rest }
    {
        match self.rest {
            [token, ..] => token.spaced,
            [] => true,
        }
    }

    /// The fault of a parser to which the next token is of no use. Where it has looked behind that token, the one there
    /// is refused.
    pub fn refusal(&self) -> ParseFault
        ensures { result ≡ ParseFault.Syntax (next_place (from_refused self.now.looked self.now.rest)) }
    {
        let refused = match self.rest {
            [_, behind @ ..] if self.looked => behind,
            rest => rest,
        };
        match refused {
            [token, ..] => ParseFault::Syntax(token.at.from),
            [] => ParseFault::Syntax(0),
        }
    }

    /// Takes the next token, which is of a class.
    pub fn expect(&mut self, class: Class) -> Result<&'t Token, ParseFault>
        ensures took { MatchResult result (λ t. Took (look.is (class_by class)) self.old self.new t.now) (Missed (look.is (class_by class)) self.old) }
        ensures shorter { length self.new.rest ≤ length self.old.rest }
    {
        if !self.is(class) {
            return Err(self.refusal());
        }
        self.take()
    }

    /// Takes the next token where it is of a class.
    pub fn accept(&mut self, class: Class) -> Option<&'t Token>
        ensures taken { MatchOption result ((next_meets (look.is (class_by class)) self.old.rest ≡ false) × (self.new ≡ self.old)) (λ t. Took (look.is (class_by class)) self.old self.new t.now) }
        ensures shorter { length self.new.rest ≤ length self.old.rest }
        ensures less { OnSome result (length self.new.rest < length self.old.rest) }
    {
        if !self.is(class) {
            return None;
        }
        self.take().ok()
    }

    /// Takes the next token.
    pub fn take(&mut self) -> Result<&'t Token, ParseFault>
        ensures took { MatchResult result (λ t. Took any_token self.old self.new t.now) (Missed any_token self.old) }
        ensures shorter { length self.new.rest ≤ length self.old.rest }
    {
        let [token, rest @ ..] = self.rest else {
            return Err(self.refusal());
        };
        self.rest = rest;
        self.class = next_class(rest);
        self.looked = false;
        Ok(token)
    }

    /// Refuses where no token follows.
    pub fn expect_more(&self) -> Result<(), ParseFault>
        ensures { MatchResult result (λ u. next_meets any_token self.now.rest ≡ true) (Missed any_token self.now) }
    {
        match self.rest {
            [_, ..] => Ok(()),
            [] => Err(self.refusal()),
        }
    }

    /// Whether the next token stands directly behind a place.
    pub fn touches(&self, place: Span) -> bool
        ensures { result ≡ next_touches place self.now.rest }
    {
        match self.rest {
            [token, ..] => place.to == token.at.from,
            [] => false,
        }
    }

    /// Takes an integer that stands directly behind a minus, and tells it with that minus.
    pub fn accept_negative(&mut self, minus: Span) -> Option<i64>
        ensures taken { MatchOption result (((next_touches minus self.old.rest && next_meets (look.is look.int) self.old.rest) ≡ false) × (self.new ≡ self.old)) (λ n. (next_touches minus self.old.rest ≡ true) × ((t : tokens.Token) × Took (look.is look.int) self.old self.new t × (n ≡ neg_ℤ (integer_of t.kind)))) }
    {
        let [token, ..] = self.rest else {
            return None;
        };
        if minus.to != token.at.from {
            return None;
        }
        let TokenKind::Int(value) = token.kind else {
            return None;
        };
        self.take().ok()?;
        Some(-value)
    }

    /// Whether the arguments of a command follow. It looks behind a spaced minus.
    pub fn arguments_follow(&mut self) -> bool
        ensures answer { result ≡ arguments_follow self.old.rest }
        ensures looks { self.new ≡ record self.old { looked = is_looked_behind self.old.rest || self.old.looked } }
    {
        let [token, behind @ ..] = self.rest else {
            return false;
        };
        if !token.spaced {
            return false;
        }
        if let Class::Minus = self.class {
            self.looked = true;
            return match behind {
                [next, ..] => token.at.to == next.at.from,
                [] => false,
            };
        }
        begins_argument(self.class)
    }

    /// Whether a name is a local here.
    pub fn is_local(&self, text: &[u8]) -> bool
        ensures { result ≡ scopes.is_local text.now self.now.scope }
    {
        self.scopes.is_local(text)
    }

    /// Begins the scope of a method.
    pub fn enter_method(&mut self) -> Result<(), ParseFault>
        ensures ok { OnOk result (self.new ≡ record self.old { scope = scopes.enter_method self.old.scope }) }
        ensures memory { OnErr result (result ≡ Err ParseFault.Memory) }
    {
        self.scopes.enter_method()
    }

    /// Begins the scope of a block.
    pub fn enter_block(&mut self) -> Result<(), ParseFault>
        ensures ok { OnOk result (self.new ≡ record self.old { scope = scopes.enter_block self.old.scope }) }
        ensures memory { OnErr result (result ≡ Err ParseFault.Memory) }
    {
        self.scopes.enter_block()
    }

    /// Ends the innermost scope.
    pub fn leave(&mut self)
        ensures { self.new ≡ record self.old { scope = scopes.leave self.old.scope } }
    {
        self.scopes.leave();
    }

    /// Makes a name a local of the innermost scope.
    pub fn add_local(&mut self, text: &[u8]) -> Result<(), ParseFault>
        ensures ok { OnOk result (self.new ≡ record self.old { scope = scopes.with_local text.now self.old.scope }) }
        ensures memory { OnErr result (result ≡ Err ParseFault.Memory) }
    {
        self.scopes.add(text)
    }
}

/// Whether a token that is spaced and of this class begins an argument of a command, beside a minus.
fn begins_argument(class: Class) -> bool
    ensures { result ≡ begins_arguments (class_by class) true }
{
    matches!(
        class,
        Class::Int
            | Class::TextOpen
            | Class::Symbol
            | Class::Word
            | Class::Marked
            | Class::Attribute
            | Class::New
            | Class::Constant
            | Class::Field
            | Class::Global
            | Class::NilWord
            | Class::TrueWord
            | Class::FalseWord
            | Class::SelfWord
            | Class::Bang
            | Class::OpenParen
            | Class::OpenBracket
    )
}
