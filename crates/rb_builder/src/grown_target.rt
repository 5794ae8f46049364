// The targets of assignments with an operator.

ghost use Rattle.std.specs.Prelude.{◌≡◌, [], ◌∷◌, IfOk, OnErr, Err};
ghost use Rattle.rb_cursor.specs.declared.fault.ParseFault.TheVariants.{Memory};
ghost use Rattle.rb_tree.specs.declared.span.Span.{Span};
ghost use Rattle.rb_grammar.specs.Tree as tree;
ghost use Rattle.rb_cursor.specs.Word.{word_by};
ghost use Rattle.rb_builder.specs.Grown.{IsTree, Made};
ghost use Rattle.rb_builder.specs.Operand.{IsTarget};
ghost use Rattle.rb_builder.specs.Block.{IsGrownTarget};
ghost use Rattle.rb_builder.specs.Builder.{walk_of};

use crate::builder::Builder;
use crate::grown::Grown;
use crate::operand::Target;
use crate::said::Said;
use crate::word::Given;
use rb_cursor::{ParseFault, Word};

/// The target of an assignment with an operator, with the height of the highest node in it and what its text says.
#[derive(Drop)]
pub(crate) struct GrownTarget<'t> {
    pub height: u32,
    pub target: rb_tree::Target,
    pub said: Said<'t>,
}

impl<'n> Builder<'n> {
    /// What an assignment with an operator reads and writes.
    pub(crate) fn grown_target<'t>(&self, target: Target<'t>) -> Result<GrownTarget<'t>, ParseFault>
        ensures ok { IfOk result (λ g. (t : tree.TargetTree) → IsTarget (walk_of self.now) target.entry t → IsGrownTarget (walk_of self.now) g t) }
        ensures memory { OnErr result (result ≡ Err Memory) }
    {
        match target {
            Target::Local(word) => {
                let name = self.number(Given::Plain(word.text))?;
                self.variable_target(word, rb_tree::Target::Local(name))
            }
            Target::Field(word) => {
                let name = self.number(Given::Plain(word.text))?;
                self.variable_target(word, rb_tree::Target::Field(name))
            }
            Target::Global(word) => {
                let name = self.number(Given::Plain(word.text))?;
                self.variable_target(word, rb_tree::Target::Global(name))
            }
            Target::Index(receiver, index, _) => self.index_target(receiver, index),
            Target::Attribute(receiver, word) => self.attribute_target(receiver, word),
        }
    }

    /// A variable, as the node's target, whose name its token gives.
    fn variable_target<'t>(
        &self,
        word: Word<'t>,
        target: rb_tree::Target,
    ) -> Result<GrownTarget<'t>, ParseFault>
        ensures ok { IfOk result (λ g. (t : tree.TargetTree) → tree.target_names t ≡ word_by word.entry ∷ [] → tree.inside_target t ≡ [] → Made (walk_of self.now) target (λ n. tree.target_by n t) → IsGrownTarget (walk_of self.now) g t) }
        ensures memory { OnErr result (result ≡ Err Memory) }
    {
        let said = self.giving(Given::Plain(word.text))?;
        Ok(GrownTarget {
            height: 0,
            target,
            said,
        })
    }

    /// `receiver[index]`
    fn index_target<'t>(
        &self,
        receiver: Grown<'t>,
        index: Grown<'t>,
    ) -> Result<GrownTarget<'t>, ParseFault>
        ensures ok { IfOk result (λ g. (r i : tree.Tree) (at : Span) → IsTree (walk_of self.now) receiver.entry r → IsTree (walk_of self.now) index.entry i → IsGrownTarget (walk_of self.now) g (tree.to_index r i at)) }
        ensures memory { OnErr result (result ≡ Err Memory) }
    {
        let Grown {
            height,
            node: receiver,
            mut said,
            ..
        } = receiver;
        let Grown {
            height: other,
            node: index,
            said: behind,
            ..
        } = index;
        let highest = height.max(other);
        said.join(behind)?;
        Ok(GrownTarget {
            height: highest,
            target: rb_tree::Target::Index(receiver, index),
            said,
        })
    }

    /// `receiver.name`
    fn attribute_target<'t>(
        &self,
        receiver: Grown<'t>,
        word: Word<'t>,
    ) -> Result<GrownTarget<'t>, ParseFault>
        ensures ok { IfOk result (λ g. (r : tree.Tree) → IsTree (walk_of self.now) receiver.entry r → IsGrownTarget (walk_of self.now) g (tree.to_attribute r (word_by word.entry))) }
        ensures memory { OnErr result (result ≡ Err Memory) }
    {
        let Grown {
            height,
            node: receiver,
            mut said,
            ..
        } = receiver;
        self.gather(&mut said, Given::Plain(word.text))?;
        let name = self.number(Given::Plain(word.text))?;
        Ok(GrownTarget {
            height,
            target: rb_tree::Target::Attribute(receiver, name),
            said,
        })
    }
}
