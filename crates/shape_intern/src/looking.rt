// The words of a shape that lead to others are looked at.

ghost use Rattle.std.specs.Prelude.{◌≡◌, ◌≤◌, ◌<◌, ◌+◌, ◌⊎◌};
ghost use Rattle.shape_core.specs.Shape.{Shape};
ghost use Rattle.heap_core.specs.Blocks.{ShapeAt};
ghost use Rattle.heap_core.specs.Growing.{LeadsOn, LeadsUp, Learns, LooksShape};
ghost use Rattle.heap_core.specs.Heaps.{IsOf, SameHeap, holder};
ghost use Rattle.heap_core.specs.Shapes as shapes;
ghost use Rattle.heap_core.specs.View.{Knows};
ghost use Rattle.shape_intern.specs.Walks.{KnowsShapeAt, KnowsTree};

use heap_core::{Heap, HeapPass, LookShape};
use rb_edge::Sink;

// Looks at a word of a shape.
fn look<K: Sink>(heap: &Heap<K>, pass: &mut HeapPass, home: u64, at: u64) -> u64
    requires of { IsOf heap.now pass.old }
    requires known { KnowsShapeAt (holder pass.old) home }
    requires from { home ≤ at }
    requires to { at < home + 7 }
    ensures of { SameHeap pass.old pass.new }
    ensures told { (shape : Shape) → Knows (holder pass.old) (ShapeAt shape home) → LooksShape (ShapeAt shape home) at 0 0 (holder pass.old) result (holder pass.new) }
{
    heap.load::<LookShape>(pass, at)
}

/// The place of the shape with one edge less; of a root 0.
pub(crate) fn parent<K: Sink>(heap: &Heap<K>, pass: &mut HeapPass, at: u64) -> u64
    requires of { IsOf heap.now pass.old }
    requires known { KnowsShapeAt (holder pass.old) at }
    ensures of { SameHeap pass.old pass.new }
    ensures learns { Learns (holder pass.old) (holder pass.new) }
    ensures tree { KnowsTree (holder pass.new) }
    ensures leads { (shape : Shape) → Knows (holder pass.old) (ShapeAt shape at) → LeadsUp (holder pass.new).blocks (shapes.parent_of shape) result }
{
    look(heap, pass, at, at + 1)
}

/// The place of the first child of a shape, or 0.
pub(crate) fn first_child<K: Sink>(heap: &Heap<K>, pass: &mut HeapPass, home: u64) -> u64
    requires of { IsOf heap.now pass.old }
    requires known { KnowsShapeAt (holder pass.old) home }
    ensures of { SameHeap pass.old pass.new }
    ensures learns { Learns (holder pass.old) (holder pass.new) }
    ensures tree { KnowsTree (holder pass.new) }
    ensures leads { LeadsOn (holder pass.new).blocks home (shapes.first_child home) result }
{
    look(heap, pass, home, home + 5)
}

/// The place of the shape behind another in its row, or 0.
pub(crate) fn next_sibling<K: Sink>(heap: &Heap<K>, pass: &mut HeapPass, home: u64) -> u64
    requires of { IsOf heap.now pass.old }
    requires known { KnowsShapeAt (holder pass.old) home }
    ensures of { SameHeap pass.old pass.new }
    ensures learns { Learns (holder pass.old) (holder pass.new) }
    ensures tree { KnowsTree (holder pass.new) }
    ensures leads { LeadsOn (holder pass.new).blocks home (shapes.next_sibling home) result }
{
    look(heap, pass, home, home + 6)
}
