// Choices, loops and returns.

ghost use Rattle.std.specs.Prelude.{List};
ghost use Rattle.rb_grammar.specs.Tree as tree;
ghost use Rattle.rb_builder.specs.Grown.{IsTree, IsRow, Builds};
ghost use Rattle.rb_builder.specs.Builder.{walk_of};

use crate::builder::Builder;
use crate::grown::{Grown, Row};
use crate::said::Said;
use rb_cursor::ParseFault;
use rb_tree::{Items, Node, Span};

impl<'n> Builder<'n> {
    /// A choice between two bodies, with its condition before them.
    pub fn choice<'t>(
        &self,
        at: Span,
        condition: Grown<'t>,
        first: Row<'t>,
        second: Row<'t>,
    ) -> Result<Grown<'t>, ParseFault>
        ensures { (a : tree.Tree) (trees more_trees : List tree.Tree) → IsTree (walk_of self.now) condition.entry a → IsRow (walk_of self.now) first.entry trees → IsRow (walk_of self.now) second.entry more_trees → Builds (walk_of self.now) (tree.choice at a trees more_trees) result }
    {
        let Grown {
            height,
            node: condition,
            mut said,
            ..
        } = condition;
        let Row {
            height: first_height,
            nodes: first,
            said: first_said,
        } = first;
        let Row {
            height: second_height,
            nodes: second,
            said: second_said,
        } = second;
        let inside = first_height.max(second_height);
        let highest = height.max(inside);
        said.join(first_said)?;
        said.join(second_said)?;
        self.branch(at, highest, said, Node::If(condition, first, second, at))
    }

    /// A loop, with its condition before the body.
    pub fn repeated<'t>(
        &self,
        at: Span,
        condition: Grown<'t>,
        body: Row<'t>,
    ) -> Result<Grown<'t>, ParseFault>
        ensures { (a : tree.Tree) (trees : List tree.Tree) → IsTree (walk_of self.now) condition.entry a → IsRow (walk_of self.now) body.entry trees → Builds (walk_of self.now) (tree.loop at a trees) result }
    {
        let Grown {
            height,
            node: condition,
            mut said,
            ..
        } = condition;
        let Row {
            height: other,
            nodes,
            said: behind,
        } = body;
        let highest = height.max(other);
        said.join(behind)?;
        self.branch(at, highest, said, Node::While(condition, nodes, at))
    }

    /// `body if condition`
    pub fn choice_behind<'t>(
        &self,
        at: Span,
        body: Grown<'t>,
        condition: Grown<'t>,
    ) -> Result<Grown<'t>, ParseFault>
        ensures { (a b : tree.Tree) → IsTree (walk_of self.now) body.entry a → IsTree (walk_of self.now) condition.entry b → Builds (walk_of self.now) (tree.choice_behind at a b) result }
    {
        let Grown {
            height: other,
            node: condition,
            said: behind,
            ..
        } = condition;
        let Row {
            height,
            nodes,
            mut said,
        } = self.only(body)?;
        let highest = height.max(other);
        said.join(behind)?;
        let node = Node::If(condition, nodes, Items::new(self.alloc), at);
        self.branch(at, highest, said, node)
    }

    /// `body while condition`
    pub fn repeated_behind<'t>(
        &self,
        at: Span,
        body: Grown<'t>,
        condition: Grown<'t>,
    ) -> Result<Grown<'t>, ParseFault>
        ensures { (a b : tree.Tree) → IsTree (walk_of self.now) body.entry a → IsTree (walk_of self.now) condition.entry b → Builds (walk_of self.now) (tree.loop_behind at a b) result }
    {
        let Grown {
            height: other,
            node: condition,
            said: behind,
            ..
        } = condition;
        let Row {
            height,
            nodes,
            mut said,
        } = self.only(body)?;
        let highest = height.max(other);
        said.join(behind)?;
        self.branch(at, highest, said, Node::While(condition, nodes, at))
    }

    /// `return`
    pub fn return_nothing<'t>(&self, at: Span) -> Result<Grown<'t>, ParseFault>
        ensures { Builds (walk_of self.now) (tree.return_nothing at) result }
    {
        self.branch(at, 0, Said::new(self.alloc), Node::Return(None, at))
    }

    /// `return value`
    pub fn return_value<'t>(&self, at: Span, value: Grown<'t>) -> Result<Grown<'t>, ParseFault>
        ensures { (a : tree.Tree) → IsTree (walk_of self.now) value.entry a → Builds (walk_of self.now) (tree.return_value at a) result }
    {
        let Grown {
            height,
            node,
            said,
            ..
        } = value;
        self.branch(at, height, said, Node::Return(Some(node), at))
    }
}
