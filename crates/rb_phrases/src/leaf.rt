// Operands that are one token, and names without brackets.

ghost use Rattle.std.specs.Prelude.{◌≡◌, ◌≤◌, length, Bool, []};
ghost use Rattle.rb_grammar.specs.Phrase as p;
ghost use Rattle.rb_grammar.specs.Tree as tree;
ghost use Rattle.rb_grammar.specs.Rule.{ahead, done};
ghost use Rattle.rb_grammar.specs.Grammar as grammar;
ghost use Rattle.rb_cursor.specs.Word.{word_by};
ghost use Rattle.rb_cursor.specs.State.{Came, answer_at};
ghost use Rattle.rb_cursor.specs.Here.{at_rule};
ghost use Rattle.rb_builder.specs.Builder.{walk_of};
ghost use Rattle.rb_builder.specs.Grown.{IsTree};
ghost use Rattle.rb_builder.specs.Operand.{IsPart};
ghost use Rattle.rb_phrases.specs.Goes.{Goes};
ghost use Rattle.rb_phrases.specs.Alternatives as alternatives;

use crate::operand::as_value;
use crate::parser::Parser;
use rb_builder::{Constant, Grown, Head, Operand, Part};
use rb_cursor::{Class, Cursor, ParseFault, Word, is_marked};
use rb_steps::{integer_of, word_of};
use rb_tree::Span;

impl<'n> Parser<'n> {
    /// An operand that is one token.
    pub(crate) fn leaf<'t>(self, cursor: &mut Cursor<'t>) -> Result<Part<'t>, ParseFault>
        ensures { Came (IsPart (walk_of self.entry.make)) cursor.new (at_rule self.entry.levels alternatives.leaf cursor.old) result }
    {
        if let Some(token) = cursor.accept(Class::Int) {
            return as_value(self.make.integer(integer_of(&token.kind), token.at));
        }
        if let Some(token) = cursor.accept(Class::Symbol) {
            return as_value(self.make.symbol(word_of(token)));
        }
        if let Some(token) = cursor.accept(Class::NilWord) {
            return as_value(self.make.constant(Constant::Nil, token.at));
        }
        if let Some(token) = cursor.accept(Class::TrueWord) {
            return as_value(self.make.constant(Constant::True, token.at));
        }
        if let Some(token) = cursor.accept(Class::FalseWord) {
            return as_value(self.make.constant(Constant::False, token.at));
        }
        if let Some(token) = cursor.accept(Class::SelfWord) {
            return as_value(self.make.constant(Constant::SelfRef, token.at));
        }
        if let Some(token) = cursor.accept(Class::Field) {
            return Ok(Part::Plain(Operand::Field(word_of(token))));
        }
        let token = cursor.expect(Class::Global)?;
        Ok(Part::Plain(Operand::Global(word_of(token))))
    }

    /// A name without brackets: a local, a head, or a call, which may be a target.
    pub(crate) fn plain_name<'t>(
        self,
        cursor: &mut Cursor<'t>,
        word: Word<'t>,
    ) -> Result<Part<'t>, ParseFault>
        ensures { Came (IsPart (walk_of self.entry.make)) cursor.new (at_rule self.entry.levels (grammar.plain_name (word_by word.entry)) cursor.old) result }
    {
        if cursor.is_local(word.text) {
            return Ok(Part::Plain(Operand::Variable(word)));
        }
        if cursor.arguments_follow() {
            return Ok(Part::Head(Head::Call(None, word)));
        }
        if is_marked(word.text) {
            return as_value(self.make.call(word, self.make.row()));
        }
        Ok(Part::Plain(Operand::Bare(word)))
    }

    /// A method of an operand without brackets and block: a head, or a call, which may be a target.
    pub(crate) fn plain_member<'t>(
        self,
        cursor: &mut Cursor<'t>,
        receiver: Grown<'t>,
        word: Word<'t>,
    ) -> Result<Part<'t>, ParseFault>
        ensures goes { (d : Bool) (a : tree.Tree) → IsTree (walk_of self.entry.make) receiver.entry a → Goes (IsPart (walk_of self.entry.make)) cursor.old cursor.new (at_rule self.entry.levels (grammar.plain_member d a (word_by word.entry)) cursor.old) (λ q. answer_at self.entry.levels (p.postfix_rest d q) cursor.new) result }
        ensures shorter { length cursor.new.rest ≤ length cursor.old.rest }
    {
        if cursor.arguments_follow() {
            return Ok(Part::Head(Head::Call(Some(receiver), word)));
        }
        if is_marked(word.text) {
            return as_value(self.make.call_to(receiver, word, self.make.row()));
        }
        Ok(Part::Plain(Operand::Member(receiver, word)))
    }

    /// `Class.new` without brackets: a head, or an object made without arguments.
    pub(crate) fn plain_object<'t>(
        self,
        cursor: &mut Cursor<'t>,
        class: Word<'t>,
        at: Span,
    ) -> Result<Part<'t>, ParseFault>
        ensures { Came (IsPart (walk_of self.entry.make)) cursor.new (at_rule self.entry.levels (ahead (done (p.head (p.of_new (word_by class.entry) at))) (done (grammar.as_value (tree.new (word_by class.entry) at [])))) cursor.old) result }
    {
        if cursor.arguments_follow() {
            return Ok(Part::Head(Head::New(class, at)));
        }
        as_value(self.make.object(class, at, self.make.row()))
    }
}
