// One list.

ghost use Rattle.std.specs.Prelude.{ℕ};
ghost use Rattle.rb_model.specs.Doing.{doing};
ghost use Rattle.local_heap.specs.Contents.{listed};
ghost use Rattle.thing_store.specs.Kept.{Acts};

use local_heap::{List, apply_to_list};
use rb_model::{Act, Reply};
use std::alloc::AllocError;

/// Does what is asked of a list, whoever asks.
pub fn apply(list: &mut List, act: Act) -> Result<Reply, AllocError>
    ensures { (thread : ℕ) → Acts thread (listed list.old) (doing act) result (listed list.new) }
{
    apply_to_list(list, act)
}
