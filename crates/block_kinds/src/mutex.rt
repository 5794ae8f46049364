// A mutex is laid into own words.

ghost use Rattle.std.specs.Prelude.{◌≡◌, ◌<◌, IfSome};
ghost use Rattle.heap_core.specs.Heaps.{IsOf, SameHeap, holder};
ghost use Rattle.heap_core.specs.Places.{mutex_words};
ghost use Rattle.block_kinds.specs.Built.{OwnsWords, mutex_block, with_words};

use heap_core::{Heap, HeapPass, owner_word};
use rb_edge::Sink;
use rb_model::Id;

const MUTEX_TAG: u64 = 4;

/// Lays the block of a mutex with this owner into own words from a place on.
pub fn lay_mutex<K: Sink>(heap: &Heap<K>, pass: &mut HeapPass, at: u64, id: Id, owner: Option<u64>)
    requires of { IsOf heap.now pass.old }
    requires room { OwnsWords (holder pass.old) at mutex_words }
    requires few { IfSome owner (λ thread. thread < 18446744073709551615) }
    ensures of { SameHeap pass.old pass.new }
    ensures laid { holder pass.new ≡ with_words (holder pass.old) at (mutex_block id owner) }
{
    heap.store_own(pass, at, MUTEX_TAG);
    heap.store_own(pass, at + 1, id.thread);
    heap.store_own(pass, at + 2, id.serial);
    heap.store_own(pass, at + 3, owner_word(owner));
}
