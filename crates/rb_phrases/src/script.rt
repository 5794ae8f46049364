// Methods, classes and whole scripts.

ghost use Rattle.std.specs.Prelude.{◌≡◌, false};
ghost use Rattle.rb_grammar.specs.Look as look;
ghost use Rattle.rb_grammar.specs.Phrase as p;
ghost use Rattle.rb_grammar.specs.Tree as tree;
ghost use Rattle.rb_grammar.specs.Rule.{done, next_meets, phrase, token};
ghost use Rattle.rb_cursor.specs.Word.{word_by};
ghost use Rattle.rb_cursor.specs.State.{Came, answer_at};
ghost use Rattle.rb_cursor.specs.Here.{at_rule};
ghost use Rattle.rb_builder.specs.Builder.{walk_of};
ghost use Rattle.rb_builder.specs.Said.{text_given};
ghost use Rattle.rb_builder.specs.Script.{IsMethod, AreMembers, IsClass, AreItems};
ghost use Rattle.rb_steps.specs.Within.{named};
ghost use Rattle.rb_phrases.specs.Goes.{Adds};

use crate::parser::Parser;
use rb_builder::{Given, GrownClass, GrownItems, GrownMembers, GrownMethod};
use rb_cursor::{Class, Cursor, ParseFault, Word, text_of};
use rb_steps::{MethodHead, begin_method, expect_class, is_statement, skip_lines, symbols};

/// The name of a method, which a `=` behind it belongs to where it sets an attribute.
fn given_name<'t>(name: Word<'t>, is_setter: bool) -> Given<'t>
    ensures { text_given result ≡ (named is_setter (word_by name.entry)).text }
{
    if is_setter {
        Given::Setter(name.text)
    } else {
        Given::Plain(name.text)
    }
}

impl<'n> Parser<'n> {
    /// The items of a script, up to its end.
    pub fn script<'t>(self, cursor: &mut Cursor<'t>) -> Result<GrownItems<'t>, ParseFault>
        ensures { Came (AreItems (walk_of self.entry.make)) cursor.new (answer_at self.entry.levels (p.items tree.no_items) cursor.old) result }
    {
        let mut items = self.make.items();
        skip_lines(cursor);
        'items: loop {
            if !self.item(cursor, &mut items)? {
                cursor.expect(Class::End)?;
                return Ok(items);
            }
            if !skip_lines(cursor) {
                cursor.expect(Class::End)?;
                return Ok(items);
            }
        }
    }

    /// A class, a method or a statement behind other items, if one stands there.
    fn item<'t>(
        self,
        cursor: &mut Cursor<'t>,
        items: &mut GrownItems<'t>,
    ) -> Result<bool, ParseFault>
        ensures { (found : tree.Items) → AreItems (walk_of self.entry.make) items.old found → next_meets (look.is look.line) cursor.old.rest ≡ false → Adds (AreItems (walk_of self.entry.make)) cursor.old cursor.new (answer_at self.entry.levels (p.items found) cursor.old) (λ more. answer_at self.entry.levels (p.items_rest more) cursor.new) (at_rule self.entry.levels (token (look.is look.end) (λ t. done found)) cursor.old) items.old items.new result }
    {
        if let Some(word) = cursor.accept(Class::ClassWord) {
            let inner = self.inside(word.at)?;
            let class = inner.class(cursor)?;
            self.make.push_class(items, class)?;
            return Ok(true);
        }
        if let Some(word) = cursor.accept(Class::DefWord) {
            let inner = self.inside(word.at)?;
            let method = inner.method(cursor)?;
            self.make.push_function(items, method)?;
            return Ok(true);
        }
        if !is_statement(cursor) {
            return Ok(false);
        }
        let statement = self.statement(cursor)?;
        self.make.push_statement(items, statement)?;
        Ok(true)
    }

    /// A class behind its word, up to its `end`.
    fn class<'t>(self, cursor: &mut Cursor<'t>) -> Result<GrownClass<'t>, ParseFault>
        ensures { Came (IsClass (walk_of self.entry.make)) cursor.new (answer_at self.entry.levels p.class_rest cursor.old) result }
    {
        let name = expect_class(cursor)?;
        cursor.expect(Class::Line)?;
        let members = self.members(cursor)?;
        self.make.class(name, members)
    }

    /// The members of a class, up to its `end`.
    fn members<'t>(self, cursor: &mut Cursor<'t>) -> Result<GrownMembers<'t>, ParseFault>
        ensures { Came (AreMembers (walk_of self.entry.make)) cursor.new (answer_at self.entry.levels (p.members_rest tree.no_members) cursor.old) result }
    {
        let mut members = self.make.members();
        'members: while self.member(cursor, &mut members)? {
            cursor.expect(Class::Line)?;
        }
        cursor.expect(Class::EndWord)?;
        Ok(members)
    }

    /// A method or an `attr` line behind other members, if one stands there.
    fn member<'t>(
        self,
        cursor: &mut Cursor<'t>,
        members: &mut GrownMembers<'t>,
    ) -> Result<bool, ParseFault>
        ensures { (found : tree.Members) → AreMembers (walk_of self.entry.make) members.old found → Adds (AreMembers (walk_of self.entry.make)) cursor.old cursor.new (answer_at self.entry.levels (p.members_rest found) cursor.old) (λ more. at_rule self.entry.levels (token (look.is look.line) (λ l. phrase (p.members_rest more) done)) cursor.new) (at_rule self.entry.levels (token (look.is look.end_word) (λ t. done found)) cursor.old) members.old members.new result }
    {
        if let Some(word) = cursor.accept(Class::DefWord) {
            let inner = self.inside(word.at)?;
            let method = inner.method(cursor)?;
            self.make.push_method(members, method)?;
            return Ok(true);
        }
        let Some(kind) = cursor.accept(Class::Attribute) else {
            return Ok(false);
        };
        let symbols = symbols(self.alloc, cursor)?;
        self.make
            .push_attributes(members, text_of(&kind.kind), symbols.as_slice())?;
        Ok(true)
    }

    /// A method behind its word, up to its `end`.
    fn method<'t>(self, cursor: &mut Cursor<'t>) -> Result<GrownMethod<'t>, ParseFault>
        ensures { Came (IsMethod (walk_of self.entry.make)) cursor.new (answer_at self.entry.levels p.method_rest cursor.old) result }
    {
        let MethodHead {
            name,
            is_setter,
            params,
        } = begin_method(self.alloc, cursor, self.levels)?;
        let body = self.body(cursor)?;
        cursor.expect(Class::EndWord)?;
        cursor.leave();
        self.make.method(
            given_name(name, is_setter),
            name.at,
            params.as_slice(),
            body,
        )
    }
}
