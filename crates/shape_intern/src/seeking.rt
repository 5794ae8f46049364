// A shape is sought along a row.

ghost use Rattle.std.specs.Prelude.{◌≡◌, ◌<◌, IfSome, Option, None, Some};
ghost use Rattle.shape_core.specs.Shape.{Shape, child_of};
ghost use Rattle.heap_core.specs.Blocks.{ShapeAt};
ghost use Rattle.heap_core.specs.Growing.{Learns};
ghost use Rattle.heap_core.specs.Heaps.{IsOf, SameHeap, holder};
ghost use Rattle.heap_core.specs.View.{Knows};
ghost use Rattle.shape_intern.specs.Walks.{IsBegun, IsMissing, IsSought, KnowsShapeAt, KnowsTree, Tells};

use crate::looking::{first_child, next_sibling};
use crate::words::edge_word;
use heap_core::{Heap, HeapPass};
use rb_edge::Sink;
use shape_core::Edge;

/// A word by which a shape is told from the others of its row: how far behind the shape's place it stands, and what it is.
#[derive(Clone, Copy)]
pub(crate) struct Mark {
    pub behind: u64,
    pub word: u64,
}

/// Where a shape was found, or the link word at which its row ends without it.
#[derive(Clone, Copy)]
pub(crate) enum Sought {
    Found(u64),
    Missing(u64),
}

/// Seeks a shape in a row, from its first place on, which is 0 where this link word leads nowhere.
pub(crate) fn seek<K: Sink>(
    heap: &Heap<K>,
    pass: &mut HeapPass,
    first: u64,
    link: u64,
    mark: &Mark,
) -> Sought
    requires of { IsOf heap.now pass.old }
    requires tree { KnowsTree (holder pass.old) }
    requires begun { (row : Option Shape) × IsBegun (holder pass.old).blocks row first link }
    requires within { mark.now.behind < 7 }
    ensures of { SameHeap pass.old pass.new }
    ensures learns { Learns (holder pass.old) (holder pass.new) }
    ensures tree { KnowsTree (holder pass.new) }
    ensures sought { (row : Option Shape) (shape : Shape) → IsBegun (holder pass.old).blocks row first link → Tells row shape mark.now.behind mark.now.word → IsSought (holder pass.new).blocks row shape result }
{
    let mut at = first;
    let mut end = link;
    'row: while at != 0 {
        if heap.load_fixed(pass, at + mark.behind) == mark.word {
            return Sought::Found(at);
        }
        end = at + 6;
        at = next_sibling(heap, pass, at);
    }
    Sought::Missing(end)
}

/// Seeks a child.
pub(crate) fn seek_child<K: Sink>(
    heap: &Heap<K>,
    pass: &mut HeapPass,
    home: u64,
    edge: &Edge,
) -> Sought
    requires of { IsOf heap.now pass.old }
    requires known { KnowsShapeAt (holder pass.old) home }
    ensures of { SameHeap pass.old pass.new }
    ensures learns { Learns (holder pass.old) (holder pass.new) }
    ensures tree { KnowsTree (holder pass.new) }
    ensures sought { (shape : Shape) → Knows (holder pass.old) (ShapeAt shape home) → IsSought (holder pass.new).blocks (Some shape) (child_of shape edge.now) result }
{
    let first = first_child(heap, pass, home);
    let mark = Mark {
        behind: 2,
        word: edge_word(edge),
    };
    seek(heap, pass, first, home + 5, &mark)
}

/// The child of a shape by an edge, if there is one. Takes no lock.
pub fn child<K: Sink>(
    heap: &Heap<K>,
    pass: &mut HeapPass,
    shape_at: u64,
    edge: &Edge,
) -> Option<u64>
    requires of { IsOf heap.now pass.old }
    requires known { KnowsShapeAt (holder pass.old) shape_at }
    ensures of { SameHeap pass.old pass.new }
    ensures learns { Learns (holder pass.old) (holder pass.new) }
    ensures found { IfSome result (λ at. (shape : Shape) → Knows (holder pass.old) (ShapeAt shape shape_at) → Knows (holder pass.new) (ShapeAt (child_of shape edge.now) at)) }
    ensures missing { result ≡ None → (shape : Shape) → Knows (holder pass.old) (ShapeAt shape shape_at) → IsMissing (holder pass.new).blocks (child_of shape edge.now) }
{
    match seek_child(heap, pass, shape_at, edge) {
        Sought::Found(at) => Some(at),
        Sought::Missing(_) => None,
    }
}
