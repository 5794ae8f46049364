// Calls: of a name, of a method of an operand, and of `new`.

ghost use Rattle.std.specs.Prelude.{◌≡◌, ◌≤◌, length, [], OnOk};
ghost use Rattle.rb_grammar.specs.Phrase as p;
ghost use Rattle.rb_grammar.specs.Tree as tree;
ghost use Rattle.rb_grammar.specs.Look as look;
ghost use Rattle.rb_grammar.specs.Rule.{done, nested, token};
ghost use Rattle.rb_grammar.specs.Grammar as grammar;
ghost use Rattle.rb_cursor.specs.Word.{word_by};
ghost use Rattle.rb_cursor.specs.State.{Came, answer_at};
ghost use Rattle.rb_cursor.specs.Here.{at_rule};
ghost use Rattle.rb_builder.specs.Builder.{walk_of};
ghost use Rattle.rb_builder.specs.Grown.{IsTree, IsRow};
ghost use Rattle.rb_builder.specs.Block.{IsBlock};
ghost use Rattle.rb_builder.specs.Operand.{IsPart};
ghost use Rattle.rb_phrases.specs.Goes.{Goes, WithBlock};

use crate::operand::as_value;
use crate::parser::Parser;
use rb_builder::{Grown, GrownBlock, Operand, Part, Row};
use rb_cursor::{Class, Cursor, ParseFault, Word};
use rb_lexer::Token;
use rb_steps::{
    Beginning, accept_allowed, accept_glued, begin_block, beginning_of, closing, expect_class,
    expect_identifier, is_thread, takes_block,
};
use rb_tree::Span;

impl<'n> Parser<'n> {
    /// An operand without its marks, as it begins.
    #[cycle(phrases)]
    pub(crate) fn primary<'t>(
        self,
        cursor: &mut Cursor<'t>,
        takes_do: bool,
    ) -> Result<Part<'t>, ParseFault>
        ensures { Came (IsPart (walk_of self.entry.make)) cursor.new (answer_at self.entry.levels (p.primary takes_do) cursor.old) result }
    {
        match beginning_of(cursor.class()) {
            Beginning::Leaf => self.leaf(cursor),
            Beginning::Text => self.text(cursor),
            Beginning::Name => self.named(cursor),
            Beginning::New => self.constructed(cursor, takes_do),
            Beginning::Array => self.array(cursor),
            Beginning::Hash => self.hash(cursor),
            Beginning::Group => self.group(cursor),
            Beginning::Choice => self.choice(cursor),
            Beginning::Loop => self.looped(cursor),
            Beginning::Nothing => Err(cursor.refusal()),
        }
    }

    /// What stands behind an operand: calls of methods of it, and indices.
    #[cycle(phrases)]
    pub(crate) fn postfix_rest<'t>(
        self,
        cursor: &mut Cursor<'t>,
        takes_do: bool,
        first: Part<'t>,
    ) -> Result<Part<'t>, ParseFault>
        ensures { (q : p.Part) → IsPart (walk_of self.entry.make) first.entry q → Came (IsPart (walk_of self.entry.make)) cursor.new (answer_at self.entry.levels (p.postfix_rest takes_do q) cursor.old) result }
    {
        let mut part = first;
        'behind: while !part.is_head() {
            if let Some(_) = cursor.accept(Class::Dot) {
                let receiver = self.operand(cursor, part)?;
                let word = expect_identifier(cursor)?;
                part = self.called(cursor, takes_do, receiver, word)?;
            } else if let Some(open) = accept_glued(cursor, Class::OpenBracket) {
                let receiver = self.operand(cursor, part)?;
                let index = self.index(cursor, open.at)?;
                part = Part::Plain(Operand::Indexed(receiver, index, open.at));
            } else {
                return Ok(part);
            }
        }
        Ok(part)
    }

    /// An index behind the bracket that opens it, up to the one that closes it.
    #[cycle(phrases)]
    fn index<'t>(self, cursor: &mut Cursor<'t>, at: Span) -> Result<Grown<'t>, ParseFault>
        ensures { Came (IsTree (walk_of self.entry.make)) cursor.new (at_rule self.entry.levels (nested at p.index_rest done) cursor.old) result }
    {
        let inner = self.inside(at)?;
        let index = inner.argument(cursor, true)?;
        cursor.expect(Class::CloseBracket)?;
        Ok(index)
    }

    /// A call of a method of an operand, behind its name, but for the calls and indices behind it.
    #[cycle(phrases)]
    fn called<'t>(
        self,
        cursor: &mut Cursor<'t>,
        takes_do: bool,
        receiver: Grown<'t>,
        word: Word<'t>,
    ) -> Result<Part<'t>, ParseFault>
        ensures goes { (a : tree.Tree) → IsTree (walk_of self.entry.make) receiver.entry a → Goes (IsPart (walk_of self.entry.make)) cursor.old cursor.new (at_rule self.entry.levels (grammar.called takes_do a (word_by word.entry)) cursor.old) (λ q. answer_at self.entry.levels (p.postfix_rest takes_do q) cursor.new) result }
        ensures shorter { OnOk result (length cursor.new.rest ≤ length cursor.old.rest) }
    {
        let Some(open) = accept_glued(cursor, Class::OpenParen) else {
            return self.called_so(cursor, takes_do, receiver, word);
        };
        let args = self.arguments(cursor, open.at)?;
        let Some(block) = self.block_of(cursor, takes_do, word)? else {
            return as_value(self.make.call_to(receiver, word, args));
        };
        as_value(self.make.call_with_block(receiver, word, args, block))
    }

    /// The same where no brackets follow the name.
    #[cycle(phrases)]
    fn called_so<'t>(
        self,
        cursor: &mut Cursor<'t>,
        takes_do: bool,
        receiver: Grown<'t>,
        word: Word<'t>,
    ) -> Result<Part<'t>, ParseFault>
        ensures goes { (a : tree.Tree) → IsTree (walk_of self.entry.make) receiver.entry a → Goes (IsPart (walk_of self.entry.make)) cursor.old cursor.new (at_rule self.entry.levels (grammar.with_block_of word.entry.text.now takes_do (λ b. grammar.going_on takes_do (tree.call_with_block a (word_by word.entry) [] b)) (grammar.plain_member takes_do a (word_by word.entry))) cursor.old) (λ q. answer_at self.entry.levels (p.postfix_rest takes_do q) cursor.new) result }
        ensures shorter { OnOk result (length cursor.new.rest ≤ length cursor.old.rest) }
    {
        let Some(block) = self.block_of(cursor, takes_do, word)? else {
            return self.plain_member(cursor, receiver, word);
        };
        let args = self.make.row();
        as_value(self.make.call_with_block(receiver, word, args, block))
    }

    /// The block behind a call, where its method takes one and it stands there.
    #[cycle(phrases)]
    fn block_of<'t>(
        self,
        cursor: &mut Cursor<'t>,
        takes_do: bool,
        word: Word<'t>,
    ) -> Result<Option<GrownBlock<'t>>, ParseFault>
        ensures { WithBlock (walk_of self.entry.make) self.entry.levels (grammar.with_block_of word.entry.text.now takes_do) cursor.old cursor.new result }
    {
        if !takes_block(word.text) {
            return Ok(None);
        }
        self.block_behind(cursor, takes_do)
    }

    /// The block that stands there, if any.
    #[cycle(phrases)]
    fn block_behind<'t>(
        self,
        cursor: &mut Cursor<'t>,
        takes_do: bool,
    ) -> Result<Option<GrownBlock<'t>>, ParseFault>
        ensures { WithBlock (walk_of self.entry.make) self.entry.levels (grammar.with_block takes_do) cursor.old cursor.new result }
    {
        if let Some(open) = cursor.accept(Class::OpenBrace) {
            let inner = self.inside(open.at)?;
            let block = inner.block(cursor, true, open.at)?;
            return Ok(Some(block));
        }
        if let Some(open) = accept_allowed(cursor, takes_do, Class::DoWord) {
            let inner = self.inside(open.at)?;
            let block = inner.block(cursor, false, open.at)?;
            return Ok(Some(block));
        }
        Ok(None)
    }

    /// A block behind what opens it, up to what closes it.
    #[cycle(phrases)]
    fn block<'t>(
        self,
        cursor: &mut Cursor<'t>,
        in_braces: bool,
        at: Span,
    ) -> Result<GrownBlock<'t>, ParseFault>
        ensures { Came (IsBlock (walk_of self.entry.make)) cursor.new (answer_at self.entry.levels (p.block_rest in_braces at) cursor.old) result }
    {
        let params = begin_block(self.alloc, cursor)?;
        let body = self.body(cursor)?;
        cursor.expect(closing(in_braces))?;
        cursor.leave();
        self.make.block(at, params.as_slice(), body)
    }

    /// The arguments of a call behind the bracket that opens them, up to the one that closes them.
    #[cycle(phrases)]
    fn arguments<'t>(self, cursor: &mut Cursor<'t>, at: Span) -> Result<Row<'t>, ParseFault>
        ensures { Came (IsRow (walk_of self.entry.make)) cursor.new (at_rule self.entry.levels (nested at p.arguments done) cursor.old) result }
    {
        let inner = self.inside(at)?;
        let mut row = self.make.row();
        if let Some(_) = cursor.accept(Class::CloseParen) {
            return Ok(row);
        }
        let first = inner.argument(cursor, true)?;
        self.make.push(&mut row, first)?;
        'more: while let Some(_) = cursor.accept(Class::Comma) {
            let next = inner.argument(cursor, true)?;
            self.make.push(&mut row, next)?;
        }
        cursor.expect(Class::CloseParen)?;
        Ok(row)
    }

    /// A call of a name without a receiver, or a local.
    #[cycle(phrases)]
    pub(crate) fn named<'t>(self, cursor: &mut Cursor<'t>) -> Result<Part<'t>, ParseFault>
        ensures { Came (IsPart (walk_of self.entry.make)) cursor.new (at_rule self.entry.levels (token (look.one_of grammar.identifiers) (λ t. grammar.named (grammar.word_of t))) cursor.old) result }
    {
        let word = expect_identifier(cursor)?;
        let Some(open) = accept_glued(cursor, Class::OpenParen) else {
            return self.plain_name(cursor, word);
        };
        let args = self.arguments(cursor, open.at)?;
        as_value(self.make.call(word, args))
    }

    /// `Class.new`, or `Thread.new` with its block.
    #[cycle(phrases)]
    pub(crate) fn constructed<'t>(
        self,
        cursor: &mut Cursor<'t>,
        takes_do: bool,
    ) -> Result<Part<'t>, ParseFault>
        ensures { Came (IsPart (walk_of self.entry.make)) cursor.new (at_rule self.entry.levels (token (look.is look.constant) (λ t. token (look.is look.dot) (λ o. token (look.is look.new) (grammar.constructed takes_do (grammar.word_of t))))) cursor.old) result }
    {
        let class = expect_class(cursor)?;
        cursor.expect(Class::Dot)?;
        let new = cursor.expect(Class::New)?;
        if is_thread(class.text) {
            return self.thread(cursor, takes_do, new);
        }
        let Some(open) = accept_glued(cursor, Class::OpenParen) else {
            return self.plain_object(cursor, class, new.at);
        };
        let args = self.arguments(cursor, open.at)?;
        as_value(self.make.object(class, new.at, args))
    }

    /// The arguments of `Thread.new`, and the block behind them, which has to be there.
    #[cycle(phrases)]
    fn thread<'t>(
        self,
        cursor: &mut Cursor<'t>,
        takes_do: bool,
        new: &'t Token,
    ) -> Result<Part<'t>, ParseFault>
        ensures { Came (IsPart (walk_of self.entry.make)) cursor.new (at_rule self.entry.levels (grammar.thread takes_do new.now) cursor.old) result }
    {
        let args = match accept_glued(cursor, Class::OpenParen) {
            Some(open) => self.arguments(cursor, open.at)?,
            None => self.make.row(),
        };
        let Some(block) = self.block_behind(cursor, takes_do)? else {
            return Err(cursor.refusal());
        };
        as_value(self.make.thread(new.at, args, block))
    }
}
