// The lock of the tree of shapes.

ghost use Rattle.heap_core.specs.Blocks.{LockAt};
ghost use Rattle.heap_core.specs.Heaps.{IsOf, SameHeap, holder};
ghost use Rattle.heap_core.specs.Locking.{HasLocked};
ghost use Rattle.heap_core.specs.Places.{tree_lock};
ghost use Rattle.heap_core.specs.View.{HasTree, Idle, Knows, with_busy};
ghost use Rattle.std.specs.Prelude.{◌≡◌};

use heap_core::{Heap, HeapPass};
use rb_edge::Sink;
use std::sync::Wait;

const TREE_LOCK: u64 = 16;

/// Takes the lock of the tree, once no pass has it. The pass learns each shape that there is, and none is made by another from then on.
pub fn lock_tree<K: Sink, R: Wait>(rt: &R, heap: &Heap<K>, pass: &mut HeapPass)
    requires of { IsOf heap.now pass.old }
    requires known { Knows (holder pass.old) (LockAt tree_lock) }
    ensures of { SameHeap pass.old pass.new }
    ensures had { HasLocked tree_lock (holder pass.old) (holder pass.new) }
    ensures has { HasTree (holder pass.new) }
{
    heap.lock(rt, pass, TREE_LOCK);
}

/// Gives the lock of the tree back.
pub fn unlock_tree<K: Sink>(heap: &Heap<K>, pass: &mut HeapPass)
    requires of { IsOf heap.now pass.old }
    requires known { Knows (holder pass.old) (LockAt tree_lock) }
    requires has { HasTree (holder pass.old) }
    ensures of { SameHeap pass.old pass.new }
    ensures given { holder pass.new ≡ with_busy (holder pass.old) tree_lock Idle }
{
    heap.unlock(pass, TREE_LOCK);
}
