// Nodes with nothing in them.

ghost use Rattle.std.specs.Prelude.{◌≡◌};
ghost use Rattle.rb_grammar.specs.Tree as tree;
ghost use Rattle.rb_cursor.specs.Word.{word_by};
ghost use Rattle.rb_builder.specs.Grown.{Builds};
ghost use Rattle.rb_builder.specs.Builder.{walk_of};
ghost use Rattle.rb_builder.specs.Constant.{constant_node};

use crate::builder::Builder;
use crate::grown::Grown;
use crate::said::Said;
use crate::word::Given;
use rb_cursor::{ParseFault, Word};
use rb_tree::{Node, Span};

/// A node that is its word alone.
#[derive(Clone, Copy)]
pub enum Constant {
    Nil,
    True,
    False,
    SelfRef,
    Break,
    Next,
}

/// The node of a constant.
fn constant_node(constant: Constant, at: Span) -> Node
    ensures { result ≡ constant_node constant at }
{
    match constant {
        Constant::Nil => Node::Nil(at),
        Constant::True => Node::True(at),
        Constant::False => Node::False(at),
        Constant::SelfRef => Node::SelfRef(at),
        Constant::Break => Node::Break(at),
        Constant::Next => Node::Next(at),
    }
}

impl<'n> Builder<'n> {
    /// A local that is read.
    pub fn local<'t>(&self, word: Word<'t>) -> Result<Grown<'t>, ParseFault>
        ensures { Builds (walk_of self.now) (tree.local (word_by word.entry)) result }
    {
        let said = self.giving(Given::Plain(word.text))?;
        let name = self.name(word.text);
        self.branch(word.at, 0, said, Node::Local(name, word.at))
    }

    /// An instance variable that is read.
    pub fn field<'t>(&self, word: Word<'t>) -> Result<Grown<'t>, ParseFault>
        ensures { Builds (walk_of self.now) (tree.field (word_by word.entry)) result }
    {
        let said = self.giving(Given::Plain(word.text))?;
        let name = self.name(word.text);
        self.branch(word.at, 0, said, Node::Field(name, word.at))
    }

    /// A global variable that is read.
    pub fn global<'t>(&self, word: Word<'t>) -> Result<Grown<'t>, ParseFault>
        ensures { Builds (walk_of self.now) (tree.global (word_by word.entry)) result }
    {
        let said = self.giving(Given::Plain(word.text))?;
        let name = self.name(word.text);
        self.branch(word.at, 0, said, Node::Global(name, word.at))
    }

    /// A symbol.
    pub fn symbol<'t>(&self, word: Word<'t>) -> Result<Grown<'t>, ParseFault>
        ensures { Builds (walk_of self.now) (tree.symbol (word_by word.entry)) result }
    {
        let said = self.giving(Given::Plain(word.text))?;
        let name = self.name(word.text);
        self.branch(word.at, 0, said, Node::Sym(name, word.at))
    }

    /// An integer.
    pub fn integer<'t>(&self, value: i64, at: Span) -> Result<Grown<'t>, ParseFault>
        ensures { Builds (walk_of self.now) (tree.integer value at) result }
    {
        self.branch(at, 0, Said::new(self.alloc), Node::Int(value, at))
    }

    /// `nil`, `true`, `false`, `self`, `break` and `next`.
    pub fn constant<'t>(&self, constant: Constant, at: Span) -> Result<Grown<'t>, ParseFault>
        ensures { Builds (walk_of self.now) (tree.constant (constant_node constant) at) result }
    {
        self.branch(at, 0, Said::new(self.alloc), constant_node(constant, at))
    }
}
