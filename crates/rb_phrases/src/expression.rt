// Expressions: commands, assignments, choices between two and chains of operators.

ghost use Rattle.std.specs.Prelude.{◌≡◌, ◌≤◌, length, OnOk};
ghost use Rattle.rb_grammar.specs.Phrase as p;
ghost use Rattle.rb_cursor.specs.State.{State, Came, Reached, answer_at};
ghost use Rattle.rb_builder.specs.Builder.{walk_of};
ghost use Rattle.rb_builder.specs.Grown.{IsTree, IsRow};
ghost use Rattle.rb_builder.specs.Operand.{IsPart};
ghost use Rattle.rb_steps.specs.Tier.{tier_by};
ghost use Rattle.rb_phrases.specs.Parts.{ArePair};

use crate::operand::{
    Behind, as_value, assignment_behind, goes_on, operator_behind, question_behind,
};
use crate::parser::Parser;
use rb_builder::{Grown, Part, Row};
use rb_cursor::{Class, Cursor, ParseFault};
use rb_steps::Tier;

impl<'n> Parser<'n> {
    /// An expression: a command, or an operand with what is behind it.
    #[cycle(phrases)]
    pub(crate) fn expression<'t>(
        self,
        cursor: &mut Cursor<'t>,
        takes_do: bool,
    ) -> Result<Grown<'t>, ParseFault>
        ensures { Came (IsTree (walk_of self.entry.make)) cursor.new (answer_at self.entry.levels (p.expression takes_do) cursor.old) result }
    {
        match self.assignment(cursor, takes_do)? {
            Part::Plain(operand) => self.make.operand(operand),
            Part::Head(head) => {
                let args = self.command_arguments(cursor)?;
                self.make.command(head, args)
            }
        }
    }

    /// The arguments of a command.
    #[cycle(phrases)]
    fn command_arguments<'t>(self, cursor: &mut Cursor<'t>) -> Result<Row<'t>, ParseFault>
        ensures { Came (IsRow (walk_of self.entry.make)) cursor.new (answer_at self.entry.levels p.command_arguments cursor.old) result }
    {
        let mut row = self.make.row();
        let first = self.argument(cursor, false)?;
        self.make.push(&mut row, first)?;
        'more: while let Some(_) = cursor.accept(Class::Comma) {
            let next = self.argument(cursor, false)?;
            self.make.push(&mut row, next)?;
        }
        cursor.expect_more()?;
        Ok(row)
    }

    /// An expression that is no command.
    #[cycle(phrases)]
    pub(crate) fn argument<'t>(
        self,
        cursor: &mut Cursor<'t>,
        takes_do: bool,
    ) -> Result<Grown<'t>, ParseFault>
        ensures { Came (IsTree (walk_of self.entry.make)) cursor.new (answer_at self.entry.levels (p.argument takes_do) cursor.old) result }
    {
        let part = self.assignment(cursor, takes_do)?;
        self.operand(cursor, part)
    }

    /// An assignment, or what may stand before its mark.
    #[cycle(phrases)]
    fn assignment<'t>(self, cursor: &mut Cursor<'t>, takes_do: bool) -> Result<Part<'t>, ParseFault>
        ensures { Came (IsPart (walk_of self.entry.make)) cursor.new (answer_at self.entry.levels (p.assignment takes_do) cursor.old) result }
    {
        let part = self.ternary(cursor, takes_do)?;
        let (target, mark) = match assignment_behind(cursor, part)? {
            Behind::Nothing(part) => return Ok(part),
            Behind::Mark(target, mark) => (target, mark),
        };
        let inner = self.inside(mark.at)?;
        let value = inner.expression(cursor, takes_do)?;
        self.assign(target, mark, value)
    }

    /// A choice between two by `?` and `:`, or what may stand before it.
    #[cycle(phrases)]
    fn ternary<'t>(self, cursor: &mut Cursor<'t>, takes_do: bool) -> Result<Part<'t>, ParseFault>
        ensures { Came (IsPart (walk_of self.entry.make)) cursor.new (answer_at self.entry.levels (p.ternary takes_do) cursor.old) result }
    {
        let part = self.chain(cursor, takes_do, Tier::Or)?;
        let Some(mark) = question_behind(cursor, &part) else {
            return Ok(part);
        };
        let condition = self.operand(cursor, part)?;
        let inner = self.inside(mark.at)?;
        let (first, second) = inner.branches(cursor, takes_do)?;
        self.choice_of_two(mark.at, condition, first, second)
    }

    /// What stands on both sides of a `:`.
    #[cycle(phrases)]
    fn branches<'t>(
        self,
        cursor: &mut Cursor<'t>,
        takes_do: bool,
    ) -> Result<(Grown<'t>, Grown<'t>), ParseFault>
        ensures { Came (ArePair (walk_of self.entry.make)) cursor.new (answer_at self.entry.levels (p.branches takes_do) cursor.old) result }
    {
        let part = self.ternary(cursor, takes_do)?;
        let first = self.operand(cursor, part)?;
        cursor.expect(Class::Colon)?;
        let other = self.ternary(cursor, takes_do)?;
        let second = self.operand(cursor, other)?;
        Ok((first, second))
    }

    /// Operands with the operators of a tier between them, each side in the next tighter tier.
    #[cycle(phrases)]
    fn chain<'t>(
        self,
        cursor: &mut Cursor<'t>,
        takes_do: bool,
        tier: Tier,
    ) -> Result<Part<'t>, ParseFault>
        ensures { Came (IsPart (walk_of self.entry.make)) cursor.new (answer_at self.entry.levels (p.chain takes_do (tier_by tier)) cursor.old) result }
    {
        let first = self.unary(cursor, takes_do)?;
        if !goes_on(cursor, &first, tier) {
            return Ok(first);
        }
        self.chained(cursor, takes_do, first, tier)
    }

    /// A chain of a tier from behind its first operand on: first what the tighter tiers make of that operand, then the
    /// operators of the tier.
    #[cycle(phrases)]
    fn chained<'t>(
        self,
        cursor: &mut Cursor<'t>,
        takes_do: bool,
        first: Part<'t>,
        tier: Tier,
    ) -> Result<Part<'t>, ParseFault>
        ensures came { (s : State) → Reached (IsPart (walk_of self.entry.make)) cursor.old (answer_at self.entry.levels (p.unary takes_do) s) first.entry → Came (IsPart (walk_of self.entry.make)) cursor.new (answer_at self.entry.levels (p.chain takes_do (tier_by tier)) s) result }
        ensures shorter { OnOk result (length cursor.new.rest ≤ length cursor.old.rest) }
    {
        let Some(tighter) = tier.tighter() else {
            return Ok(first);
        };
        let mut part = self.chained(cursor, takes_do, first, tighter)?;
        'operators: while let Some(token) = operator_behind(cursor, &part, tier) {
            let left = self.operand(cursor, part)?;
            let next = self.chain(cursor, takes_do, tighter)?;
            let right = self.operand(cursor, next)?;
            part = Part::value(self.joined(tier, token, left, right)?);
            if tier.joins_once() {
                return Ok(part);
            }
        }
        Ok(part)
    }

    /// An operand with the marks before it.
    #[cycle(phrases)]
    fn unary<'t>(self, cursor: &mut Cursor<'t>, takes_do: bool) -> Result<Part<'t>, ParseFault>
        ensures { Came (IsPart (walk_of self.entry.make)) cursor.new (answer_at self.entry.levels (p.unary takes_do) cursor.old) result }
    {
        if let Some(mark) = cursor.accept(Class::Bang) {
            let inner = self.inside(mark.at)?;
            let part = inner.unary(cursor, takes_do)?;
            let grown = self.operand(cursor, part)?;
            return as_value(self.make.negated(mark.at, grown));
        }
        let Some(mark) = cursor.accept(Class::Minus) else {
            let part = self.primary(cursor, takes_do)?;
            return self.postfix_rest(cursor, takes_do, part);
        };
        if let Some(number) = cursor.accept_negative(mark.at) {
            let part = Part::value(self.make.integer(number, mark.at)?);
            return self.postfix_rest(cursor, takes_do, part);
        }
        let inner = self.inside(mark.at)?;
        let part = inner.unary(cursor, takes_do)?;
        let grown = self.operand(cursor, part)?;
        as_value(self.make.minus(mark.at, grown))
    }
}
