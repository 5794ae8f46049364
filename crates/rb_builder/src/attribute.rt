// The methods that read and write fields.

ghost use Rattle.std.specs.Prelude.{◌≡◌, [], ◌∷◌, map, OnOk, OnErr, IfOk, Err};
ghost use Rattle.rb_cursor.specs.declared.fault.ParseFault.TheVariants.{Memory};
ghost use Rattle.rb_grammar.specs.Tree as tree;
ghost use Rattle.rb_cursor.specs.Word.{word_by};
ghost use Rattle.rb_builder.specs.Grown.{Made};
ghost use Rattle.rb_builder.specs.Script.{AreMembers};
ghost use Rattle.rb_builder.specs.Attribute.{with_reader, with_writer};
ghost use Rattle.rb_builder.specs.Builder.{walk_of};

use crate::builder::Builder;
use crate::script::GrownMembers;
use crate::word::Given;
use rb_cursor::{ATTR_READER, ATTR_WRITER, ParseFault, Word};
use rb_tree::{Boxed, Items, Method, Node, Param};

/// The parameter of a method that writes a field.
const VALUE_NAME: &[u8] = b"v";

impl<'n> Builder<'n> {
    /// Adds what the word of an `attr` line makes of its symbols behind other methods.
    pub fn push_attributes<'t>(
        &self,
        members: &mut GrownMembers<'t>,
        kind: &[u8],
        words: &[Word<'t>],
    ) -> Result<(), ParseFault>
        ensures ok { OnOk result ((m : tree.Members) → AreMembers (walk_of self.now) members.old m → AreMembers (walk_of self.now) members.new (tree.with_attributes m kind.now (map word_by words.now))) }
        ensures memory { OnErr result (result ≡ Err Memory) }
    {
        'words: for word in words {
            self.push_attribute(members, kind, *word)?;
        }
        Ok(())
    }

    /// Adds what the word of an `attr` line makes of one symbol.
    fn push_attribute<'t>(
        &self,
        members: &mut GrownMembers<'t>,
        kind: &[u8],
        word: Word<'t>,
    ) -> Result<(), ParseFault>
        ensures ok { OnOk result ((m : tree.Members) → AreMembers (walk_of self.now) members.old m → AreMembers (walk_of self.now) members.new (tree.with_attributes m kind.now (word_by word.entry ∷ []))) }
        ensures memory { OnErr result (result ≡ Err Memory) }
    {
        if kind == ATTR_READER {
            return self.push_reader(members, word);
        }
        if kind == ATTR_WRITER {
            // No method that reads gives the name of the field before.
            self.gather(&mut members.said, Given::Field(word.text))?;
            return self.push_writer(members, word);
        }
        self.push_reader(members, word)?;
        self.push_writer(members, word)
    }

    /// Adds the method that reads a field, which gives its name and that of the field.
    fn push_reader<'t>(
        &self,
        members: &mut GrownMembers<'t>,
        word: Word<'t>,
    ) -> Result<(), ParseFault>
        ensures ok { OnOk result ((m : tree.Members) → AreMembers (walk_of self.now) members.old m → AreMembers (walk_of self.now) members.new (with_reader m (word_by word.entry))) }
        ensures memory { OnErr result (result ≡ Err Memory) }
    {
        self.gather(&mut members.said, Given::Plain(word.text))?;
        self.gather(&mut members.said, Given::Field(word.text))?;
        let method = self.reader(word)?;
        self.keep(&mut members.methods, method)?;
        Ok(())
    }

    /// Adds the method that writes a field, which gives its name and that of its parameter.
    fn push_writer<'t>(
        &self,
        members: &mut GrownMembers<'t>,
        word: Word<'t>,
    ) -> Result<(), ParseFault>
        ensures ok { OnOk result ((m : tree.Members) → AreMembers (walk_of self.now) members.old m → AreMembers (walk_of self.now) members.new (with_writer m (word_by word.entry))) }
        ensures memory { OnErr result (result ≡ Err Memory) }
    {
        self.gather(&mut members.said, Given::Setter(word.text))?;
        self.gather(&mut members.said, Given::Plain(VALUE_NAME))?;
        let method = self.writer(word)?;
        self.keep(&mut members.methods, method)?;
        Ok(())
    }

    /// The method that reads a field.
    fn reader(&self, word: Word<'_>) -> Result<Method, ParseFault>
        ensures ok { IfOk result (λ m. Made (walk_of self.now) m (λ n. tree.method_by n (tree.reader_of (word_by word.entry)))) }
        ensures memory { OnErr result (result ≡ Err Memory) }
    {
        let name = self.number(Given::Plain(word.text))?;
        let field = self.number(Given::Field(word.text))?;
        let mut body = Items::new(self.alloc);
        body.push(Node::Field(field, word.at))?;
        Ok(Method {
            name,
            params: Items::new(self.alloc),
            body,
            at: word.at,
        })
    }

    /// The method that writes a field.
    fn writer(&self, word: Word<'_>) -> Result<Method, ParseFault>
        ensures ok { IfOk result (λ m. Made (walk_of self.now) m (λ n. tree.method_by n (tree.writer_of (word_by word.entry)))) }
        ensures memory { OnErr result (result ≡ Err Memory) }
    {
        let name = self.number(Given::Setter(word.text))?;
        let field = self.number(Given::Field(word.text))?;
        let value = self.number(Given::Plain(VALUE_NAME))?;
        let mut params = Items::new(self.alloc);
        params.push(Param {
            name: value,
            at: word.at,
        })?;
        let read = Boxed::new(self.alloc, Node::Local(value, word.at))?;
        let mut body = Items::new(self.alloc);
        body.push(Node::SetField(field, read, word.at))?;
        Ok(Method {
            name,
            params,
            body,
            at: word.at,
        })
    }
}
