// What phrases are read with.

ghost use Rattle.std.specs.Prelude.{◌≡◌, suc, MatchResult};
ghost use Rattle.rb_grammar.specs.Phrase as p;
ghost use Rattle.rb_grammar.specs.Rule.{done};
ghost use Rattle.rb_grammar.specs.Grammar.{operand};
ghost use Rattle.rb_cursor.specs.State.{Came};
ghost use Rattle.rb_cursor.specs.Here.{at_rule};
ghost use Rattle.rb_cursor.specs.declared.fault.ParseFault.TheVariants.{TooNested};
ghost use Rattle.rb_builder.specs.Builder.{walk_of};
ghost use Rattle.rb_builder.specs.Grown.{IsTree, Builds};
ghost use Rattle.rb_builder.specs.Operand.{IsPart};

use rb_builder::{Builder, Grown, Part};
use rb_cursor::{Cursor, ParseFault};
use rb_tree::Span;
use std::alloc::Global;

/// What a phrase is read with: the maker of its trees, and how many more things may be open at once inside it.
#[derive(Clone, Copy)]
pub struct Parser<'n> {
    pub(crate) alloc: Global,
    pub(crate) make: Builder<'n>,
    pub(crate) levels: u32,
}

impl<'n> Parser<'n> {
    /// With this maker of trees, where so many things may be open at once.
    pub fn new(alloc: Global, make: Builder<'n>, levels: u32) -> Parser<'n>
        ensures make { result.make ≡ make.entry }
        ensures levels { result.levels ≡ levels }
    {
        Parser {
            alloc,
            make,
            levels,
        }
    }

    /// The parser inside what opens at a place.
    pub(crate) fn inside(self, at: Span) -> Result<Parser<'n>, ParseFault>
        ensures { MatchResult result (λ inner. (self.entry.levels ≡ suc inner.levels) × (inner.make ≡ self.entry.make)) (λ e. (e ≡ TooNested at.from) × (self.entry.levels ≡ 0)) }
    {
        if self.levels == 0 {
            return Err(ParseFault::TooNested(at.from));
        }
        Ok(Parser {
            alloc: self.alloc,
            make: self.make,
            levels: self.levels - 1,
        })
    }

    /// An operand as a tree. A head is refused: no command may stand there.
    pub(crate) fn operand<'t>(
        self,
        cursor: &Cursor<'t>,
        part: Part<'t>,
    ) -> Result<Grown<'t>, ParseFault>
        ensures { (q : p.Part) → IsPart (walk_of self.entry.make) part.entry q → Came (IsTree (walk_of self.entry.make)) cursor.now (at_rule self.entry.levels (operand q done) cursor.now) result }
    {
        match part {
            Part::Plain(operand) => self.make.operand(operand),
            Part::Head(_) => Err(cursor.refusal()),
        }
    }
}
