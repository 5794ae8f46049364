// Texts, arrays, hashes and groups.

ghost use Rattle.std.specs.Prelude.{◌≡◌, []};
ghost use Rattle.rb_grammar.specs.Phrase as p;
ghost use Rattle.rb_cursor.specs.State.{Came, answer_at};
ghost use Rattle.rb_cursor.specs.Here.{at_rule};
ghost use Rattle.rb_builder.specs.Builder.{walk_of};
ghost use Rattle.rb_builder.specs.Grown.{IsTree, IsRow};
ghost use Rattle.rb_builder.specs.Operand.{IsPart};
ghost use Rattle.rb_builder.specs.Literal.{ArePieces, ArePairs};
ghost use Rattle.rb_phrases.specs.Parts.{ArePair};
ghost use Rattle.rb_phrases.specs.Alternatives as alternatives;

use crate::operand::as_value;
use crate::parser::Parser;
use rb_builder::{Grown, PairRow, Part, PieceRow, Row};
use rb_cursor::{Class, Cursor, ParseFault, text_of};
use rb_steps::word_of;

impl<'n> Parser<'n> {
    /// A text.
    #[cycle(phrases)]
    pub(crate) fn text<'t>(self, cursor: &mut Cursor<'t>) -> Result<Part<'t>, ParseFault>
        ensures { Came (IsPart (walk_of self.entry.make)) cursor.new (at_rule self.entry.levels alternatives.text cursor.old) result }
    {
        let open = cursor.expect(Class::TextOpen)?;
        let pieces = self.pieces(cursor)?;
        as_value(self.make.string(open.at, pieces))
    }

    /// The pieces of a text, up to its end.
    #[cycle(phrases)]
    fn pieces<'t>(self, cursor: &mut Cursor<'t>) -> Result<PieceRow<'t>, ParseFault>
        ensures { Came (ArePieces (walk_of self.entry.make)) cursor.new (answer_at self.entry.levels (p.text_rest []) cursor.old) result }
    {
        let mut row = self.make.pieces();
        'pieces: loop {
            if let Some(piece) = cursor.accept(Class::TextPiece) {
                self.make.push_bytes(&mut row, text_of(&piece.kind))?;
                continue;
            }
            let Some(mark) = cursor.accept(Class::CodeOpen) else {
                cursor.expect(Class::TextClose)?;
                return Ok(row);
            };
            let inner = self.inside(mark.at)?;
            let code = inner.statement(cursor)?;
            cursor.expect(Class::CodeClose)?;
            self.make.push_code(&mut row, code)?;
        }
    }

    /// An array.
    #[cycle(phrases)]
    pub(crate) fn array<'t>(self, cursor: &mut Cursor<'t>) -> Result<Part<'t>, ParseFault>
        ensures { Came (IsPart (walk_of self.entry.make)) cursor.new (at_rule self.entry.levels alternatives.array cursor.old) result }
    {
        let open = cursor.expect(Class::OpenBracket)?;
        let inner = self.inside(open.at)?;
        let items = inner.array_items(cursor)?;
        as_value(self.make.array(open.at, items))
    }

    /// The items of an array, up to the bracket that closes it. A comma may stand behind the last.
    #[cycle(phrases)]
    fn array_items<'t>(self, cursor: &mut Cursor<'t>) -> Result<Row<'t>, ParseFault>
        ensures { Came (IsRow (walk_of self.entry.make)) cursor.new (answer_at self.entry.levels p.array_rest cursor.old) result }
    {
        let mut row = self.make.row();
        'items: while let None = cursor.accept(Class::CloseBracket) {
            let item = self.argument(cursor, true)?;
            self.make.push(&mut row, item)?;
            if let None = cursor.accept(Class::Comma) {
                cursor.expect(Class::CloseBracket)?;
                return Ok(row);
            }
        }
        Ok(row)
    }

    /// A hash.
    #[cycle(phrases)]
    pub(crate) fn hash<'t>(self, cursor: &mut Cursor<'t>) -> Result<Part<'t>, ParseFault>
        ensures { Came (IsPart (walk_of self.entry.make)) cursor.new (at_rule self.entry.levels alternatives.hash cursor.old) result }
    {
        let open = cursor.expect(Class::OpenBrace)?;
        let inner = self.inside(open.at)?;
        let pairs = inner.pairs(cursor)?;
        as_value(self.make.hash(open.at, pairs))
    }

    /// The pairs of a hash, up to the bracket that closes it. A comma may stand behind the last.
    #[cycle(phrases)]
    fn pairs<'t>(self, cursor: &mut Cursor<'t>) -> Result<PairRow<'t>, ParseFault>
        ensures { Came (ArePairs (walk_of self.entry.make)) cursor.new (answer_at self.entry.levels p.hash_rest cursor.old) result }
    {
        let mut row = self.make.pairs();
        'pairs: while let None = cursor.accept(Class::CloseBrace) {
            let (key, value) = self.pair(cursor)?;
            self.make.push_pair(&mut row, key, value)?;
            if let None = cursor.accept(Class::Comma) {
                cursor.expect(Class::CloseBrace)?;
                return Ok(row);
            }
        }
        Ok(row)
    }

    /// `key => value`, or `label: value`.
    #[cycle(phrases)]
    fn pair<'t>(self, cursor: &mut Cursor<'t>) -> Result<(Grown<'t>, Grown<'t>), ParseFault>
        ensures { Came (ArePair (walk_of self.entry.make)) cursor.new (answer_at self.entry.levels p.pair cursor.old) result }
    {
        if let Some(label) = cursor.accept(Class::Label) {
            let key = self.make.symbol(word_of(label))?;
            let value = self.argument(cursor, true)?;
            return Ok((key, value));
        }
        let key = self.argument(cursor, true)?;
        cursor.expect(Class::Arrow)?;
        let value = self.argument(cursor, true)?;
        Ok((key, value))
    }

    /// A statement in brackets.
    #[cycle(phrases)]
    pub(crate) fn group<'t>(self, cursor: &mut Cursor<'t>) -> Result<Part<'t>, ParseFault>
        ensures { Came (IsPart (walk_of self.entry.make)) cursor.new (at_rule self.entry.levels alternatives.group cursor.old) result }
    {
        let open = cursor.expect(Class::OpenParen)?;
        let inner = self.inside(open.at)?;
        let grown = inner.statement(cursor)?;
        cursor.expect(Class::CloseParen)?;
        Ok(Part::value(grown))
    }
}
