// How many words a value takes beside the one that names it.

ghost use Rattle.std.specs.Prelude.{◌≡◌};
ghost use Rattle.rb_model.specs.Values.{plain};
ghost use Rattle.heap_core.specs.Charges.{blocks};

use rb_model::Value;
use typed_location::is_small;

const BOX_WORDS: u64 = 2;

/// The words that the blocks of a value take.
pub fn words_for(value: &Value) -> u64
    ensures { result ≡ blocks (plain value.now) }
{
    match value {
        Value::Int(n) => integer_words(*n),
        Value::Str(text) => 2 + (text.as_slice().len() as u64).div_ceil(8),
        Value::Nil | Value::False | Value::True | Value::Sym(_) | Value::Ref(_) => 0,
    }
}

// A wide integer has a block, and no other.
fn integer_words(n: i64) -> u64
    ensures { result ≡ blocks (Rattle.rb_model.specs.Values.Int n) }
{
    if is_small(n) { 0 } else { BOX_WORDS }
}
