// A name is sought on the way from a shape to its root.

ghost use Rattle.std.specs.Prelude.{◌≡◌};
ghost use Rattle.shape_core.specs.Path.{find_on};
ghost use Rattle.shape_core.specs.Shape.{Shape};
ghost use Rattle.shape_core.specs.declared.edge.Edge.{Edge};
ghost use Rattle.heap_core.specs.Blocks.{ShapeAt};
ghost use Rattle.heap_core.specs.Growing.{Learns};
ghost use Rattle.heap_core.specs.Heaps.{IsOf, SameHeap, holder};
ghost use Rattle.heap_core.specs.Shapes as shapes;
ghost use Rattle.heap_core.specs.View.{Knows};
ghost use Rattle.shape_intern.specs.Facts.{gives};
ghost use Rattle.shape_intern.specs.Walks.{KnowsShapeAt};

use crate::looking::parent;
use heap_core::{Heap, HeapPass};
use rb_edge::Sink;
use shape_core::{Kind, NameId, Place};

// What the place holds that the edge of this word gives to a name, if it gives it one.
fn given(word: u64, name: NameId) -> Option<Kind>
    ensures { (edge : Edge) → word ≡ shapes.edge_word edge → result ≡ gives edge name }
{
    let number = u64::from(name.0) * 8;
    if word == number + 1 {
        return Some(Kind::IntLoc);
    }
    if word == number + 2 {
        return Some(Kind::AnyLoc);
    }
    if word == number + 3 {
        return Some(Kind::AnyLoc);
    }
    None
}

/// Where a name stands in the objects of a shape, and what its place holds. Takes no lock.
pub fn find<K: Sink>(
    heap: &Heap<K>,
    pass: &mut HeapPass,
    shape_at: u64,
    name: NameId,
) -> Option<(Place, Kind)>
    requires of { IsOf heap.now pass.old }
    requires known { KnowsShapeAt (holder pass.old) shape_at }
    ensures of { SameHeap pass.old pass.new }
    ensures learns { Learns (holder pass.old) (holder pass.new) }
    ensures found { (shape : Shape) → Knows (holder pass.old) (ShapeAt shape shape_at) → result ≡ find_on shape.path name }
{
    let mut at = shape_at;
    let mut word = heap.load_fixed(pass, at + 2);
    'up: while word != 0 {
        if let Some(kind) = given(word, name) {
            let place = heap.load_fixed(pass, at + 3);
            return Some((Place(place), kind));
        }
        at = parent(heap, pass, at);
        word = heap.load_fixed(pass, at + 2);
    }
    None
}
