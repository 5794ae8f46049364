// Words are laid at the front of the pass's own.

ghost use Rattle.std.specs.Prelude.{◌≡◌, ◌≤◌, ◌++◌, ℕ, List, drop, length};
ghost use Rattle.heap_core.specs.Heaps.{IsOf, SameHeap, holder};
ghost use Rattle.shape_intern.specs.Interning.{OwnsOne, with_own};

use heap_core::{Heap, HeapPass};
use rb_edge::Sink;

/// Lays words at the front of the pass's one region.
pub(crate) fn lay<K: Sink>(heap: &Heap<K>, pass: &mut HeapPass, at: u64, words: &[u64])
    requires of { IsOf heap.now pass.old }
    requires room { (ws : List ℕ) × OwnsOne (holder pass.old) at ws × (length words.now ≤ length ws) }
    ensures of { SameHeap pass.old pass.new }
    ensures laid { (ws : List ℕ) → OwnsOne (holder pass.old) at ws → holder pass.new ≡ with_own (holder pass.old) at (words.now ++ drop (length words.now) ws) }
{
    'words: for i in 0..words.len() {
        heap.store_own(pass, at + i as u64, words[i]);
    }
}
