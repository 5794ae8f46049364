// One hash.

ghost use Rattle.std.specs.Prelude.{ℕ};
ghost use Rattle.rb_model.specs.Doing.{doing};
ghost use Rattle.rb_model.specs.Things.{Pairs};
ghost use Rattle.thing_store.specs.Kept.{Acts};

use local_heap::apply_to_pairs;
use ordered_pairs::OrderedPairs;
use rb_model::{Act, Reply};
use std::alloc::{AllocError, Global};

/// Does what is asked of a hash, whoever asks.
pub fn apply(pairs: &mut OrderedPairs, alloc: Global, act: Act) -> Result<Reply, AllocError>
    ensures { (thread : ℕ) → Acts thread (Pairs pairs.old) (doing act) result (Pairs pairs.new) }
{
    apply_to_pairs(pairs, alloc, act)
}
