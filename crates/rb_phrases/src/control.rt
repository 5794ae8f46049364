// Choices and loops.

ghost use Rattle.std.specs.Prelude.{◌≡◌, false};
ghost use Rattle.rb_grammar.specs.Phrase as p;
ghost use Rattle.rb_grammar.specs.Look as look;
ghost use Rattle.rb_grammar.specs.Rule.{next_meets};
ghost use Rattle.rb_grammar.specs.Grammar.{allowed};
ghost use Rattle.rb_cursor.specs.State.{Came, answer_at};
ghost use Rattle.rb_cursor.specs.Here.{at_rule};
ghost use Rattle.rb_builder.specs.Builder.{walk_of};
ghost use Rattle.rb_builder.specs.Grown.{IsTree, IsRow};
ghost use Rattle.rb_builder.specs.Operand.{IsPart};
ghost use Rattle.rb_phrases.specs.Arms.{IsArm, arm_of};
ghost use Rattle.rb_phrases.specs.Alternatives as alternatives;

use crate::arms::{Arm, is_if};
use crate::parser::Parser;
use rb_builder::{Grown, Part, Row};
use rb_cursor::{Class, Cursor, ParseFault};
use rb_lexer::Token;
use rb_steps::{accept_allowed, expect_choice, expect_loop, expect_loop_body, take_then};
use rb_tree::Items;

impl<'n> Parser<'n> {
    /// A choice by `if` or `unless`.
    #[cycle(phrases)]
    pub(crate) fn choice<'t>(self, cursor: &mut Cursor<'t>) -> Result<Part<'t>, ParseFault>
        ensures { Came (IsPart (walk_of self.entry.make)) cursor.new (at_rule self.entry.levels alternatives.choice cursor.old) result }
    {
        let word = expect_choice(cursor)?;
        let inner = self.inside(word.at)?;
        let grown = inner.conditional(cursor, word)?;
        Ok(Part::value(grown))
    }

    /// A choice behind its word, up to its `end`.
    #[cycle(phrases)]
    fn conditional<'t>(
        self,
        cursor: &mut Cursor<'t>,
        word: &'t Token,
    ) -> Result<Grown<'t>, ParseFault>
        ensures { Came (IsTree (walk_of self.entry.make)) cursor.new (answer_at self.entry.levels (p.conditional word.now) cursor.old) result }
    {
        let may_go_on = is_if(word);
        let mut more = Items::new(self.alloc);
        let first = self.arm(cursor, word)?;
        'arms: while let Some(elsif) = accept_allowed(cursor, may_go_on, Class::ElsifWord) {
            let next = self.arm(cursor, elsif)?;
            more.push(next)?;
        }
        let last = self.otherwise(cursor, may_go_on)?;
        self.chosen(first, more, last)
    }

    /// A condition and the body that it chooses.
    #[cycle(phrases)]
    fn arm<'t>(self, cursor: &mut Cursor<'t>, word: &'t Token) -> Result<Arm<'t>, ParseFault>
        ensures { Came (IsArm (walk_of self.entry.make)) cursor.new (at_rule self.entry.levels (arm_of word.now) cursor.old) result }
    {
        let expression = self.expression(cursor, true)?;
        let condition = self.decided(word, expression)?;
        take_then(cursor)?;
        let body = self.body(cursor)?;
        Ok(Arm {
            at: word.at,
            condition,
            body,
        })
    }

    /// The body behind `else`, or none, up to the `end`.
    #[cycle(phrases)]
    fn otherwise<'t>(self, cursor: &mut Cursor<'t>, may_go_on: bool) -> Result<Row<'t>, ParseFault>
        ensures { next_meets (allowed may_go_on look.elsif_word) cursor.old.rest ≡ false → Came (IsRow (walk_of self.entry.make)) cursor.new (answer_at self.entry.levels (p.otherwise may_go_on) cursor.old) result }
    {
        let Some(_) = cursor.accept(Class::ElseWord) else {
            cursor.expect(Class::EndWord)?;
            return Ok(self.make.row());
        };
        let body = self.body(cursor)?;
        cursor.expect(Class::EndWord)?;
        Ok(body)
    }

    /// A loop by `while` or `until`.
    #[cycle(phrases)]
    pub(crate) fn looped<'t>(self, cursor: &mut Cursor<'t>) -> Result<Part<'t>, ParseFault>
        ensures { Came (IsPart (walk_of self.entry.make)) cursor.new (at_rule self.entry.levels alternatives.loop cursor.old) result }
    {
        let word = expect_loop(cursor)?;
        let inner = self.inside(word.at)?;
        let grown = inner.repeated(cursor, word)?;
        Ok(Part::value(grown))
    }

    /// A loop behind its word, up to its `end`.
    #[cycle(phrases)]
    fn repeated<'t>(self, cursor: &mut Cursor<'t>, word: &'t Token) -> Result<Grown<'t>, ParseFault>
        ensures { Came (IsTree (walk_of self.entry.make)) cursor.new (answer_at self.entry.levels (p.loop_rest word.now) cursor.old) result }
    {
        let expression = self.expression(cursor, false)?;
        let condition = self.decided(word, expression)?;
        expect_loop_body(cursor)?;
        let body = self.body(cursor)?;
        cursor.expect(Class::EndWord)?;
        self.make.repeated(word.at, condition, body)
    }
}
