// What stands between the operands of an expression, and what they come to.

ghost use Rattle.std.specs.Prelude.{◌≡◌, ◌&&◌, not, false, MatchOption, IfOk, OnOk, OnErr, Err, ◌∷◌, [], if◌then◌else◌};
ghost use Rattle.rb_grammar.specs.Tree as tree;
ghost use Rattle.rb_grammar.specs.Look as look;
ghost use Rattle.rb_grammar.specs.Phrase as p;
ghost use Rattle.rb_grammar.specs.Rule.{done, next_meets};
ghost use Rattle.rb_grammar.specs.Scope.{is_local, with_local};
ghost use Rattle.rb_grammar.specs.Grammar.{operators, joined, assign, decided};
ghost use Rattle.rb_cursor.specs.State.{State, Came, Took};
ghost use Rattle.rb_cursor.specs.Here.{at_rule};
ghost use Rattle.rb_builder.specs.Builder.{walk_of};
ghost use Rattle.rb_builder.specs.Walk.{Walk};
ghost use Rattle.rb_builder.specs.Grown.{IsTree, Builds};
ghost use Rattle.rb_builder.specs.Operand.{IsPart, IsTarget, is_head};
ghost use Rattle.rb_steps.specs.Tier.{tier_by, is_within};
ghost use Rattle.rb_phrases.specs.Parts.{Makes, WentBehind};

use crate::parser::Parser;
use rb_builder::{Grown, Part, Target};
use rb_cursor::{Class, Cursor, ParseFault, class_of};
use rb_lexer::Token;
use rb_steps::{
    Tier, accept_operator, is_assignment_mark, operator_follows, operator_of, operator_word,
};
use rb_tree::Span;

/// What stands behind an operand that may be the target of an assignment.
#[derive(Drop)]
pub(crate) enum Behind<'t> {
    /// The mark of an assignment.
    Mark(Target<'t>, &'t Token),
    /// Anything else, behind the operand as it is.
    Nothing(Part<'t>),
}

/// A tree, as an operand that is no target.
pub(crate) fn as_value<'t>(built: Result<Grown<'t>, ParseFault>) -> Result<Part<'t>, ParseFault>
    ensures { (w : Walk) (a : tree.Tree) → Builds w a built.entry → Makes w a result }
{
    Ok(Part::value(built?))
}

/// Takes the mark of an assignment where it stands behind what may be a target. A local that it assigns is known from there on.
pub(crate) fn assignment_behind<'t>(
    cursor: &mut Cursor<'t>,
    part: Part<'t>,
) -> Result<Behind<'t>, ParseFault>
    ensures ok { IfOk result (λ behind. (w : Walk) (q : p.Part) → IsPart w part.entry q → WentBehind w q cursor.old cursor.new behind) }
    ensures memory { OnErr result (result ≡ Err ParseFault.Memory) }
{
    if !is_assignment_mark(cursor) {
        return Ok(Behind::Nothing(part));
    }
    let target = match part.into_target() {
        Err(part) => return Ok(Behind::Nothing(part)),
        Ok(target) => target,
    };
    let mark = cursor.take()?;
    if let Target::Local(word) = &target {
        add_new_local(cursor, word.text)?;
    }
    Ok(Behind::Mark(target, mark))
}

/// Makes a name a local of the innermost scope, where it is no local yet.
fn add_new_local(cursor: &mut Cursor<'_>, text: &[u8]) -> Result<(), ParseFault>
    ensures ok { OnOk result (cursor.new ≡ record cursor.old { scope = if is_local text.now cursor.old.scope then cursor.old.scope else with_local text.now cursor.old.scope }) }
    ensures memory { OnErr result (result ≡ Err ParseFault.Memory) }
{
    if !cursor.is_local(text) {
        cursor.add_local(text)?;
    }
    Ok(())
}

/// Takes the `?` behind what may be a condition.
pub(crate) fn question_behind<'t>(cursor: &mut Cursor<'t>, part: &Part<'t>) -> Option<&'t Token>
    ensures taken { MatchOption result (((not (is_head part.now) && next_meets (look.is look.question) cursor.old.rest) ≡ false) × (cursor.new ≡ cursor.old)) (λ t. (is_head part.now ≡ false) × Took (look.is look.question) cursor.old cursor.new t.now) }
{
    if part.is_head() {
        return None;
    }
    cursor.accept(Class::Question)
}

/// Whether an operator of a tier, or of a tighter one, stands behind what may be its left side.
pub(crate) fn goes_on(cursor: &Cursor<'_>, part: &Part<'_>, tier: Tier) -> bool
    ensures { result ≡ (not (is_head part.now) && next_meets (is_within (tier_by tier)) cursor.now.rest) }
{
    !part.is_head() && operator_follows(cursor, tier)
}

/// Takes an operator of a tier behind what may be its left side.
pub(crate) fn operator_behind<'t>(
    cursor: &mut Cursor<'t>,
    part: &Part<'t>,
    tier: Tier,
) -> Option<&'t Token>
    ensures taken { MatchOption result (((not (is_head part.now) && next_meets (look.one_of (operators (tier_by tier))) cursor.old.rest) ≡ false) × (cursor.new ≡ cursor.old)) (λ t. (is_head part.now ≡ false) × Took (look.one_of (operators (tier_by tier))) cursor.old cursor.new t.now) }
{
    if part.is_head() {
        return None;
    }
    accept_operator(cursor, tier)
}

impl<'n> Parser<'n> {
    /// Two operands with an operator between them.
    pub(crate) fn joined<'t>(
        self,
        tier: Tier,
        token: &'t Token,
        left: Grown<'t>,
        right: Grown<'t>,
    ) -> Result<Grown<'t>, ParseFault>
        ensures { (a b : tree.Tree) (s : State) → IsTree (walk_of self.entry.make) left.entry a → IsTree (walk_of self.entry.make) right.entry b → Came (IsTree (walk_of self.entry.make)) s (at_rule self.entry.levels (joined (tier_by tier) token.now a b done) s) result }
    {
        let class = class_of(&token.kind);
        match tier {
            Tier::Or => self.make.or_else(token.at, left, right),
            Tier::And => self.make.and_also(token.at, left, right),
            Tier::Equal => {
                let word = operator_word(Class::Equal, token.at);
                let equal = self.make.binary(word, left, right)?;
                match class {
                    Class::NotEqual => self.make.negated(token.at, equal),
                    _ => Ok(equal),
                }
            }
            _ => self
                .make
                .binary(operator_word(class, token.at), left, right),
        }
    }

    /// A condition as a choice or a loop goes by it: behind `unless` and `until` by its opposite.
    pub(crate) fn decided<'t>(
        self,
        word: &Token,
        condition: Grown<'t>,
    ) -> Result<Grown<'t>, ParseFault>
        ensures { (a : tree.Tree) (s : State) → IsTree (walk_of self.entry.make) condition.entry a → Came (IsTree (walk_of self.entry.make)) s (at_rule self.entry.levels (decided word.now a done) s) result }
    {
        match class_of(&word.kind) {
            Class::UnlessWord => self.make.negated(word.at, condition),
            Class::UntilWord => self.make.negated(word.at, condition),
            _ => Ok(condition),
        }
    }

    /// What an assignment comes to.
    pub(crate) fn assign<'t>(
        self,
        target: Target<'t>,
        mark: &Token,
        value: Grown<'t>,
    ) -> Result<Part<'t>, ParseFault>
        ensures { (t : tree.TargetTree) (a : tree.Tree) (s : State) → IsTarget (walk_of self.entry.make) target.entry t → IsTree (walk_of self.entry.make) value.entry a → Came (IsPart (walk_of self.entry.make)) s (at_rule self.entry.levels (assign t mark.now a) s) result }
    {
        let class = class_of(&mark.kind);
        match class {
            Class::Assign => as_value(self.make.assigned(target, mark.at, value)),
            _ => as_value(
                self.make
                    .operated(target, operator_of(class), mark.at, value),
            ),
        }
    }

    /// A choice between two values.
    pub(crate) fn choice_of_two<'t>(
        self,
        at: Span,
        condition: Grown<'t>,
        first: Grown<'t>,
        second: Grown<'t>,
    ) -> Result<Part<'t>, ParseFault>
        ensures { (c a b : tree.Tree) → IsTree (walk_of self.entry.make) condition.entry c → IsTree (walk_of self.entry.make) first.entry a → IsTree (walk_of self.entry.make) second.entry b → Makes (walk_of self.entry.make) (tree.choice at c (a ∷ []) (b ∷ [])) result }
    {
        let first = self.make.only(first)?;
        let second = self.make.only(second)?;
        as_value(self.make.choice(at, condition, first, second))
    }
}
