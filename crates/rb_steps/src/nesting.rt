// What opens.

ghost use Rattle.std.specs.Prelude.{◌≡◌, suc, MatchResult};
ghost use Rattle.rb_cursor.specs.declared.fault.ParseFault.TheVariants.{TooNested};

use rb_cursor::ParseFault;
use rb_tree::Span;

/// How many more things may be open inside what opens at a place, where so many may be open there.
pub fn open_at(levels: u32, at: Span) -> Result<u32, ParseFault>
    ensures { MatchResult result (λ left. levels ≡ suc left) (λ e. (e ≡ TooNested at.from) × (levels ≡ 0)) }
{
    if levels == 0 {
        return Err(ParseFault::TooNested(at.from));
    }
    Ok(levels - 1)
}
