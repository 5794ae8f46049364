// Choices with more than one condition.

ghost use Rattle.std.specs.Prelude.{◌≡◌, List, [], ◌∷◌};
ghost use Rattle.rb_grammar.specs.Look as look;
ghost use Rattle.rb_grammar.specs.Grammar.{is_one};
ghost use Rattle.rb_grammar.specs.Tree as tree;
ghost use Rattle.rb_cursor.specs.State.{State, Came};
ghost use Rattle.rb_cursor.specs.Here.{at_rule};
ghost use Rattle.rb_builder.specs.Builder.{walk_of};
ghost use Rattle.rb_builder.specs.Grown.{IsTree, IsRow, Builds};
ghost use Rattle.rb_phrases.specs.Arms.{ArmTree, IsArm, AreArms, chosen_of};

use crate::parser::Parser;
use rb_builder::{Grown, Row};
use rb_cursor::{Class, ParseFault, class_of};
use rb_lexer::Token;
use rb_tree::{Items, Span};

/// A condition and the body that it chooses, with the place of its word.
#[derive(Drop)]
pub(crate) struct Arm<'t> {
    pub at: Span,
    pub condition: Grown<'t>,
    pub body: Row<'t>,
}

impl<'n> Parser<'n> {
    /// The choice of the first arm whose condition holds, or else of the last body. Each arm stands where the one before it
    /// does not hold, so the last is made first.
    pub(crate) fn chosen<'t>(
        self,
        first: Arm<'t>,
        more: Items<Arm<'t>>,
        last: Row<'t>,
    ) -> Result<Grown<'t>, ParseFault>
        ensures { (a : ArmTree) (others : List ArmTree) (trees : List tree.Tree) (s : State) → IsArm (walk_of self.entry.make) first.entry a → AreArms (walk_of self.entry.make) more.entry others → IsRow (walk_of self.entry.make) last.entry trees → Came (IsTree (walk_of self.entry.make)) s (at_rule self.entry.levels (chosen_of a others trees) s) result }
    {
        let mut more = more;
        let mut rest = last;
        'arms: while let Some(arm) = more.pop() {
            let choice = self.chosen_by(arm, rest)?;
            rest = self.make.only(choice)?;
        }
        self.chosen_by(first, rest)
    }

    /// The choice of one arm.
    fn chosen_by<'t>(self, arm: Arm<'t>, otherwise: Row<'t>) -> Result<Grown<'t>, ParseFault>
        ensures { (a : ArmTree) (trees : List tree.Tree) → IsArm (walk_of self.entry.make) arm.entry a → IsRow (walk_of self.entry.make) otherwise.entry trees → Builds (walk_of self.entry.make) (tree.choice a.at a.condition a.body trees) result }
    {
        let Arm {
            at,
            condition,
            body,
        } = arm;
        self.make.choice(at, condition, body, otherwise)
    }
}

/// Whether a choice begins with `if`.
pub(crate) fn is_if(word: &Token) -> bool
    ensures { result ≡ is_one (look.if_word ∷ []) word.now }
{
    matches!(class_of(&word.kind), Class::IfWord)
}
