// Calls without blocks, operators among them, and the making of objects.

ghost use Rattle.std.specs.Prelude.{List, Some, None};
ghost use Rattle.rb_grammar.specs.Tree as tree;
ghost use Rattle.rb_cursor.specs.Word.{word_by};
ghost use Rattle.rb_builder.specs.Grown.{IsTree, IsRow, Builds};
ghost use Rattle.rb_builder.specs.Builder.{walk_of};

use crate::builder::Builder;
use crate::grown::{Grown, Row};
use crate::word::Given;
use rb_cursor::{ParseFault, Word};
use rb_tree::{Items, Node, Span};

/// The name of the method that a minus before an operand calls.
const MINUS_NAME: &[u8] = b"-@";
/// The name of the method that an index calls.
const INDEX_NAME: &[u8] = b"[]";

impl<'n> Builder<'n> {
    /// A call without a receiver.
    pub fn call<'t>(&self, word: Word<'t>, args: Row<'t>) -> Result<Grown<'t>, ParseFault>
        ensures { (trees : List tree.Tree) → IsRow (walk_of self.now) args.entry trees → Builds (walk_of self.now) (tree.call None (word_by word.entry) trees) result }
    {
        let Row {
            height,
            nodes,
            said: behind,
        } = args;
        let mut said = self.giving(Given::Plain(word.text))?;
        said.join(behind)?;
        let name = self.name(word.text);
        let node = Node::Call {
            receiver: None,
            name,
            args: nodes,
            block: None,
            at: word.at,
        };
        self.branch(word.at, height, said, node)
    }

    /// A call of a receiver.
    pub fn call_to<'t>(
        &self,
        receiver: Grown<'t>,
        word: Word<'t>,
        args: Row<'t>,
    ) -> Result<Grown<'t>, ParseFault>
        ensures { (a : tree.Tree) (trees : List tree.Tree) → IsTree (walk_of self.now) receiver.entry a → IsRow (walk_of self.now) args.entry trees → Builds (walk_of self.now) (tree.call (Some a) (word_by word.entry) trees) result }
    {
        let Grown {
            height,
            node: receiver,
            mut said,
            ..
        } = receiver;
        let Row {
            height: other,
            nodes,
            said: behind,
        } = args;
        let highest = height.max(other);
        self.gather(&mut said, Given::Plain(word.text))?;
        said.join(behind)?;
        let name = self.name(word.text);
        let node = Node::Call {
            receiver: Some(receiver),
            name,
            args: nodes,
            block: None,
            at: word.at,
        };
        self.branch(word.at, highest, said, node)
    }

    /// An operator between two operands, as a call of its name.
    pub fn binary<'t>(
        &self,
        operator: Word<'t>,
        left: Grown<'t>,
        right: Grown<'t>,
    ) -> Result<Grown<'t>, ParseFault>
        ensures { (a b : tree.Tree) → IsTree (walk_of self.now) left.entry a → IsTree (walk_of self.now) right.entry b → Builds (walk_of self.now) (tree.binary operator.entry.text.now operator.entry.at a b) result }
    {
        let args = self.only(right)?;
        self.call_to(left, operator, args)
    }

    /// The opposite of a truth.
    pub fn negated<'t>(&self, at: Span, grown: Grown<'t>) -> Result<Grown<'t>, ParseFault>
        ensures { (a : tree.Tree) → IsTree (walk_of self.now) grown.entry a → Builds (walk_of self.now) (tree.negated at a) result }
    {
        let Grown {
            height,
            node,
            said,
            ..
        } = grown;
        let node = Node::Not(node, at);
        self.branch(at, height, said, node)
    }

    /// A minus before an operand, as a call of its name.
    pub fn minus<'t>(&self, at: Span, grown: Grown<'t>) -> Result<Grown<'t>, ParseFault>
        ensures { (a : tree.Tree) → IsTree (walk_of self.now) grown.entry a → Builds (walk_of self.now) (tree.minus at a) result }
    {
        let Grown {
            height,
            node,
            said: behind,
            ..
        } = grown;
        let mut said = self.giving(Given::Plain(MINUS_NAME))?;
        said.join(behind)?;
        let name = self.name(MINUS_NAME);
        let node = Node::Call {
            receiver: Some(node),
            name,
            args: Items::new(self.alloc),
            block: None,
            at,
        };
        self.branch(at, height, said, node)
    }

    /// `left && right`
    pub fn and_also<'t>(
        &self,
        at: Span,
        left: Grown<'t>,
        right: Grown<'t>,
    ) -> Result<Grown<'t>, ParseFault>
        ensures { (a b : tree.Tree) → IsTree (walk_of self.now) left.entry a → IsTree (walk_of self.now) right.entry b → Builds (walk_of self.now) (tree.and_also at a b) result }
    {
        let Grown {
            height,
            node: left,
            mut said,
            ..
        } = left;
        let Grown {
            height: other,
            node: right,
            said: behind,
            ..
        } = right;
        let highest = height.max(other);
        said.join(behind)?;
        self.branch(at, highest, said, Node::And(left, right, at))
    }

    /// `left || right`
    pub fn or_else<'t>(
        &self,
        at: Span,
        left: Grown<'t>,
        right: Grown<'t>,
    ) -> Result<Grown<'t>, ParseFault>
        ensures { (a b : tree.Tree) → IsTree (walk_of self.now) left.entry a → IsTree (walk_of self.now) right.entry b → Builds (walk_of self.now) (tree.or_else at a b) result }
    {
        let Grown {
            height,
            node: left,
            mut said,
            ..
        } = left;
        let Grown {
            height: other,
            node: right,
            said: behind,
            ..
        } = right;
        let highest = height.max(other);
        said.join(behind)?;
        self.branch(at, highest, said, Node::Or(left, right, at))
    }

    /// `receiver[index]`, at its bracket.
    pub fn index<'t>(
        &self,
        receiver: Grown<'t>,
        index: Grown<'t>,
        at: Span,
    ) -> Result<Grown<'t>, ParseFault>
        ensures { (a b : tree.Tree) → IsTree (walk_of self.now) receiver.entry a → IsTree (walk_of self.now) index.entry b → Builds (walk_of self.now) (tree.index a b at) result }
    {
        let name = Word {
            text: INDEX_NAME,
            at,
        };
        self.binary(name, receiver, index)
    }

    /// `Class.new`, at its `new`.
    pub fn object<'t>(
        &self,
        class: Word<'t>,
        at: Span,
        args: Row<'t>,
    ) -> Result<Grown<'t>, ParseFault>
        ensures { (trees : List tree.Tree) → IsRow (walk_of self.now) args.entry trees → Builds (walk_of self.now) (tree.new (word_by class.entry) at trees) result }
    {
        let Row {
            height,
            nodes,
            said: behind,
        } = args;
        let mut said = self.giving(Given::Plain(class.text))?;
        said.join(behind)?;
        let class = self.name(class.text);
        let node = Node::New {
            class,
            args: nodes,
            at,
        };
        self.branch(at, height, said, node)
    }
}
