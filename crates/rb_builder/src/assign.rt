// Operands as trees, commands and assignments.

ghost use Rattle.std.specs.Prelude.{◌≡◌, List};
ghost use Rattle.rb_grammar.specs.Tree as tree;
ghost use Rattle.rb_grammar.specs.Phrase as p;
ghost use Rattle.rb_grammar.specs.Grammar.{tree_of, command_of};
ghost use Rattle.rb_cursor.specs.Word.{word_by};
ghost use Rattle.rb_builder.specs.Grown.{IsTree, IsRow, Builds};
ghost use Rattle.rb_builder.specs.Said.{text_given};
ghost use Rattle.rb_builder.specs.Stored.{stored};
ghost use Rattle.rb_builder.specs.Builder.{walk_of};
ghost use Rattle.rb_builder.specs.Operand.{IsOperand, IsHead, IsTarget};

use crate::builder::Builder;
use crate::grown::{Grown, Row};
use crate::grown_target::GrownTarget;
use crate::operand::{Head, Operand, Target};
use crate::word::Given;
use rb_cursor::{ParseFault, Word};
use rb_tree::{AssignOp, Node, Span};

/// The name of the method that `receiver[index] = value` calls.
const STORE_NAME: &[u8] = b"[]=";

impl<'n> Builder<'n> {
    /// The tree of an operand.
    pub fn operand<'t>(&self, operand: Operand<'t>) -> Result<Grown<'t>, ParseFault>
        ensures { (o : p.Operand) → IsOperand (walk_of self.now) operand.entry o → Builds (walk_of self.now) (tree_of o) result }
    {
        match operand {
            Operand::Value(grown) => Ok(grown),
            Operand::Variable(word) => self.local(word),
            Operand::Bare(word) => self.call(word, self.row()),
            Operand::Field(word) => self.field(word),
            Operand::Global(word) => self.global(word),
            Operand::Indexed(receiver, index, at) => self.index(receiver, index, at),
            Operand::Member(receiver, word) => self.call_to(receiver, word, self.row()),
        }
    }

    /// A head with the arguments behind it.
    pub fn command<'t>(&self, head: Head<'t>, args: Row<'t>) -> Result<Grown<'t>, ParseFault>
        ensures { (h : p.Head) (trees : List tree.Tree) → IsHead (walk_of self.now) head.entry h → IsRow (walk_of self.now) args.entry trees → Builds (walk_of self.now) (command_of h trees) result }
    {
        match head {
            Head::Call(receiver, word) => match receiver {
                None => self.call(word, args),
                Some(receiver) => self.call_to(receiver, word, args),
            },
            Head::New(class, at) => self.object(class, at, args),
        }
    }

    /// `target = value`
    pub fn assigned<'t>(
        &self,
        target: Target<'t>,
        at: Span,
        value: Grown<'t>,
    ) -> Result<Grown<'t>, ParseFault>
        ensures { (t : tree.TargetTree) (a : tree.Tree) → IsTarget (walk_of self.now) target.entry t → IsTree (walk_of self.now) value.entry a → Builds (walk_of self.now) (tree.assigned t at a) result }
    {
        match target {
            Target::Local(word) => self.set_local(word, at, value),
            Target::Field(word) => self.set_field(word, at, value),
            Target::Global(word) => self.set_global(word, at, value),
            Target::Index(receiver, index, bracket) => {
                self.set_index(receiver, index, bracket, at, value)
            }
            Target::Attribute(receiver, word) => self.set_attribute(receiver, word, at, value),
        }
    }

    /// `local = value`
    fn set_local<'t>(
        &self,
        word: Word<'t>,
        at: Span,
        value: Grown<'t>,
    ) -> Result<Grown<'t>, ParseFault>
        ensures { (a : tree.Tree) → IsTree (walk_of self.now) value.entry a → Builds (walk_of self.now) (tree.assigned (tree.to_local (word_by word.entry)) at a) result }
    {
        let Grown {
            height,
            node,
            said: behind,
            ..
        } = value;
        let mut said = self.giving(Given::Plain(word.text))?;
        said.join(behind)?;
        let name = self.name(word.text);
        self.branch(at, height, said, Node::SetLocal(name, node, at))
    }

    /// `@field = value`
    fn set_field<'t>(
        &self,
        word: Word<'t>,
        at: Span,
        value: Grown<'t>,
    ) -> Result<Grown<'t>, ParseFault>
        ensures { (a : tree.Tree) → IsTree (walk_of self.now) value.entry a → Builds (walk_of self.now) (tree.assigned (tree.to_field (word_by word.entry)) at a) result }
    {
        let Grown {
            height,
            node,
            said: behind,
            ..
        } = value;
        let mut said = self.giving(Given::Plain(word.text))?;
        said.join(behind)?;
        let name = self.name(word.text);
        self.branch(at, height, said, Node::SetField(name, node, at))
    }

    /// `$global = value`
    fn set_global<'t>(
        &self,
        word: Word<'t>,
        at: Span,
        value: Grown<'t>,
    ) -> Result<Grown<'t>, ParseFault>
        ensures { (a : tree.Tree) → IsTree (walk_of self.now) value.entry a → Builds (walk_of self.now) (tree.assigned (tree.to_global (word_by word.entry)) at a) result }
    {
        let Grown {
            height,
            node,
            said: behind,
            ..
        } = value;
        let mut said = self.giving(Given::Plain(word.text))?;
        said.join(behind)?;
        let name = self.name(word.text);
        self.branch(at, height, said, Node::SetGlobal(name, node, at))
    }

    /// `receiver[index] = value`
    fn set_index<'t>(
        &self,
        receiver: Grown<'t>,
        index: Grown<'t>,
        bracket: Span,
        at: Span,
        value: Grown<'t>,
    ) -> Result<Grown<'t>, ParseFault>
        ensures { (r i a : tree.Tree) → IsTree (walk_of self.now) receiver.entry r → IsTree (walk_of self.now) index.entry i → IsTree (walk_of self.now) value.entry a → Builds (walk_of self.now) (tree.assigned (tree.to_index r i bracket) at a) result }
    {
        let mut args = self.only(index)?;
        self.push(&mut args, value)?;
        self.store(receiver, Given::Plain(STORE_NAME), args, at)
    }

    /// `receiver.name = value`
    fn set_attribute<'t>(
        &self,
        receiver: Grown<'t>,
        word: Word<'t>,
        at: Span,
        value: Grown<'t>,
    ) -> Result<Grown<'t>, ParseFault>
        ensures { (r a : tree.Tree) → IsTree (walk_of self.now) receiver.entry r → IsTree (walk_of self.now) value.entry a → Builds (walk_of self.now) (tree.assigned (tree.to_attribute r (word_by word.entry)) at a) result }
    {
        let args = self.only(value)?;
        self.store(receiver, Given::Setter(word.text), args, at)
    }

    /// The call of a method that writes, with the name that a token gives, of which only the last argument is the value.
    fn store<'t>(
        &self,
        receiver: Grown<'t>,
        name: Given<'t>,
        args: Row<'t>,
        at: Span,
    ) -> Result<Grown<'t>, ParseFault>
        ensures { (r : tree.Tree) (w : tree.Word) (trees : List tree.Tree) → w.text ≡ text_given name.entry → IsTree (walk_of self.now) receiver.entry r → IsRow (walk_of self.now) args.entry trees → Builds (walk_of self.now) (stored r w trees at) result }
    {
        let Grown {
            height,
            node: receiver,
            mut said,
            ..
        } = receiver;
        let Row {
            height: other,
            nodes,
            said: behind,
        } = args;
        let highest = height.max(other);
        self.gather(&mut said, name)?;
        said.join(behind)?;
        let number = self.number(name)?;
        let node = Node::Store {
            receiver,
            name: number,
            args: nodes,
            at,
        };
        self.branch(at, highest, said, node)
    }

    /// `target += value`, and so on.
    pub fn operated<'t>(
        &self,
        target: Target<'t>,
        op: AssignOp,
        at: Span,
        value: Grown<'t>,
    ) -> Result<Grown<'t>, ParseFault>
        ensures { (t : tree.TargetTree) (a : tree.Tree) → IsTarget (walk_of self.now) target.entry t → IsTree (walk_of self.now) value.entry a → Builds (walk_of self.now) (tree.operated t op at a) result }
    {
        let GrownTarget {
            height,
            target,
            mut said,
        } = self.grown_target(target)?;
        let Grown {
            height: other,
            node,
            said: behind,
            ..
        } = value;
        let highest = height.max(other);
        said.join(behind)?;
        let node = Node::OpAssign {
            target,
            op,
            value: node,
            at,
        };
        self.branch(at, highest, said, node)
    }
}
