// From tokens to a program.

ghost use Rattle.std.specs.Prelude.{◌≡◌, ◌⊎◌, ℕ, Ok, Err, IfOk};
ghost use Rattle.std.specs.List.{AllByRecursion};
ghost use Rattle.rb_tree.specs.declared.node.Program.{Program as Tree};
ghost use Rattle.rb_lexer.specs.Spans.{EndsOnce, IsNatural};
ghost use Rattle.rb_grammar.specs.Program.{IsProgram, max_height, max_levels};
ghost use Rattle.rb_grammar.specs.Script.{BeginsNone};
ghost use Rattle.rb_builder.specs.Builder.{walk_of};
ghost use Rattle.rb_parser.specs.Limits.{PassesLimits};
ghost use Rattle.rb_parser.specs.Walks.{Walks, Parses};

use rb_builder::{Builder, GrownItems, Numbers};
use rb_cursor::{Cursor, ParseFault};
use rb_lexer::Token;
use rb_phrases::Parser;
use rb_tree::Program;
use std::alloc::Global;

/// How much may be open at once.
const MAX_LEVELS: u32 = 64;

/// Walks over the tokens of a script, up to their end.
fn walk<'t>(
    alloc: Global,
    tokens: &'t [Token],
    make: Builder<'_>,
) -> Result<GrownItems<'t>, ParseFault>
    requires natural { AllByRecursion IsNatural tokens.now }
    requires ends { EndsOnce tokens.now }
    ensures { Walks (walk_of make.entry) tokens.now result }
{
    let mut cursor = Cursor::new(alloc, tokens)?;
    Parser::new(alloc, make, MAX_LEVELS).script(&mut cursor)
}

/// The program of two walks.
fn two_walks(alloc: Global, tokens: &[Token]) -> Result<Program, ParseFault>
    requires natural { AllByRecursion IsNatural tokens.now }
    requires ends { EndsOnce tokens.now }
    ensures { Parses tokens.now result }
{
    let GrownItems { said, .. } = walk(alloc, tokens, Builder::gathering(alloc))?;
    let numbers = Numbers::of(alloc, &said)?;
    let GrownItems {
        classes,
        functions,
        main,
        said,
    } = walk(alloc, tokens, Builder::numbering(alloc, &numbers))?;
    Ok(Program {
        names: numbers.into_names(),
        classes,
        functions,
        bodies: said.bodies,
        main,
    })
}

/// The program that tokens spell. Of these, which `lex` answers, the last is the end, which stands nowhere else, and no
/// integer is negative.
///
/// # Errors
/// `Syntax` at a token with which no script goes on behind the tokens before it, and `TooNested` where a limit is passed: a
/// node is no more than 64 high, and no more than 64 things are open at once. Tests show that the token is the first such
/// one, and that of both faults the one is told that comes first in reading. `Memory` where memory is refused.
pub fn parse(alloc: Global, tokens: &[Token]) -> Result<Program, ParseFault>
    requires natural { AllByRecursion IsNatural tokens.now }
    requires ends { EndsOnce tokens.now }
    // What is answered is spelled so; and whatever is spelled within the limits is answered, or want of memory.
    ensures sound { IfOk result (IsProgram max_height max_levels tokens.now) }
    ensures complete { (program : Tree) → IsProgram max_height max_levels tokens.now program → (result ≡ Ok program) ⊎ (result ≡ Err ParseFault.Memory) }
    // No script of any height and nesting begins with the tokens up to and including the one that is refused.
    ensures refused { (at : ℕ) → result ≡ Err (ParseFault.Syntax at) → BeginsNone tokens.now at }
    // A limit is passed at the place that is told, and no script within the limits is spelled.
    ensures nested { (at : ℕ) → result ≡ Err (ParseFault.TooNested at) → PassesLimits tokens.now at }
{
    two_walks(alloc, tokens)
}
