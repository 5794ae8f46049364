// Statements and bodies.

ghost use Rattle.std.specs.Prelude.{◌≡◌, []};
ghost use Rattle.rb_grammar.specs.Phrase as p;
ghost use Rattle.rb_grammar.specs.Tree as tree;
ghost use Rattle.rb_cursor.specs.State.{State, Came, answer_at};
ghost use Rattle.rb_cursor.specs.Here.{at_rule};
ghost use Rattle.rb_phrases.specs.Modified.{modified_once};
ghost use Rattle.rb_builder.specs.Builder.{walk_of};
ghost use Rattle.rb_builder.specs.Grown.{IsTree, IsRow};

use crate::parser::Parser;
use rb_builder::{Constant, Grown, Row};
use rb_cursor::{Class, Cursor, ParseFault, class_of};
use rb_lexer::Token;
use rb_steps::{accept_modifier, is_statement, is_value, skip_lines};

impl<'n> Parser<'n> {
    /// Statements, with line ends before, between and behind them.
    #[cycle(phrases)]
    pub(crate) fn body<'t>(self, cursor: &mut Cursor<'t>) -> Result<Row<'t>, ParseFault>
        ensures { Came (IsRow (walk_of self.entry.make)) cursor.new (answer_at self.entry.levels (p.body []) cursor.old) result }
    {
        let mut row = self.make.row();
        skip_lines(cursor);
        'more: while is_statement(cursor) {
            let statement = self.statement(cursor)?;
            self.make.push(&mut row, statement)?;
            if !skip_lines(cursor) {
                return Ok(row);
            }
        }
        Ok(row)
    }

    /// A statement with the modifiers behind it.
    #[cycle(phrases)]
    pub(crate) fn statement<'t>(self, cursor: &mut Cursor<'t>) -> Result<Grown<'t>, ParseFault>
        ensures { Came (IsTree (walk_of self.entry.make)) cursor.new (answer_at self.entry.levels p.statement cursor.old) result }
    {
        let mut grown = self.simple(cursor)?;
        'modifiers: while let Some(word) = accept_modifier(cursor) {
            let expression = self.expression(cursor, true)?;
            let condition = self.decided(word, expression)?;
            grown = self.modified(word, grown, condition)?;
        }
        Ok(grown)
    }

    /// A statement without modifiers.
    #[cycle(phrases)]
    fn simple<'t>(self, cursor: &mut Cursor<'t>) -> Result<Grown<'t>, ParseFault>
        ensures { Came (IsTree (walk_of self.entry.make)) cursor.new (answer_at self.entry.levels p.simple cursor.old) result }
    {
        if let Some(word) = cursor.accept(Class::ReturnWord) {
            if !is_value(cursor) {
                return self.make.return_nothing(word.at);
            }
            let grown = self.expression(cursor, true)?;
            return self.make.return_value(word.at, grown);
        }
        if let Some(word) = cursor.accept(Class::BreakWord) {
            return self.make.constant(Constant::Break, word.at);
        }
        if let Some(word) = cursor.accept(Class::NextWord) {
            return self.make.constant(Constant::Next, word.at);
        }
        self.expression(cursor, true)
    }

    /// A statement with one modifier and its condition.
    fn modified<'t>(
        self,
        word: &Token,
        grown: Grown<'t>,
        condition: Grown<'t>,
    ) -> Result<Grown<'t>, ParseFault>
        ensures { (a c : tree.Tree) (s : State) → IsTree (walk_of self.entry.make) grown.entry a → IsTree (walk_of self.entry.make) condition.entry c → Came (IsTree (walk_of self.entry.make)) s (at_rule self.entry.levels (modified_once word.now a c) s) result }
    {
        match class_of(&word.kind) {
            Class::WhileWord => self.make.repeated_behind(word.at, grown, condition),
            Class::UntilWord => self.make.repeated_behind(word.at, grown, condition),
            _ => self.make.choice_behind(word.at, grown, condition),
        }
    }
}
