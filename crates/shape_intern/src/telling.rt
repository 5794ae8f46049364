// What a shape is told by.

ghost use Rattle.std.specs.Prelude.{◌≡◌, ◌<◌, ◌/◌, ◌^◌, ℕ, Bool};
ghost use Rattle.shape_core.specs.Path.{Path, last_edge};
ghost use Rattle.shape_core.specs.Shape.{Shape};
ghost use Rattle.heap_core.specs.Blocks.{ShapeAt};
ghost use Rattle.heap_core.specs.Fixed.{edge_of};
ghost use Rattle.heap_core.specs.Growing.{Learns};
ghost use Rattle.heap_core.specs.Heaps.{IsOf, SameHeap, holder};
ghost use Rattle.heap_core.specs.Shapes as shapes;
ghost use Rattle.heap_core.specs.View.{Knows};
ghost use Rattle.shape_intern.specs.Facts.{AreFacts, parent_by};
ghost use Rattle.shape_intern.specs.Walks.{KnowsShapeAt};

use crate::looking::parent;
use heap_core::{Heap, HeapPass};
use rb_edge::Sink;
use shape_core::{Edge, Kind, NameId};

/// What a shape is: its class, the edge that leads to it and the place of the shape before that edge, neither of a root, how many places its
/// objects have, and whether several threads may use them.
#[derive(Clone, Copy, Debug, PartialEq, Eq)]
pub struct ShapeFacts {
    pub class: u32,
    pub edge: Option<Edge>,
    pub parent: Option<u64>,
    pub places: u64,
    pub shared: bool,
}

// The edge of a word. None of that of a root.
fn edge_in(word: u64) -> Option<Edge>
    requires { word / 8 < 2 ^ 32 }
    ensures { (path : Path) → word ≡ edge_of path → result ≡ last_edge path }
{
    let name = NameId((word / 8) as u32);
    if word == 0 {
        return None;
    }
    if word % 8 == 1 {
        return Some(Edge::Add(name, Kind::IntLoc));
    }
    if word % 8 == 2 {
        return Some(Edge::Add(name, Kind::AnyLoc));
    }
    if word % 8 == 3 {
        return Some(Edge::Widen(name));
    }
    Some(Edge::Share)
}

// The place of the shape before the edge of this word, where there is one.
fn parent_in(word: u64, up: u64) -> Option<u64>
    ensures { result ≡ parent_by word up }
{
    if word == 0 { None } else { Some(up) }
}

// The class in a word of class and flag.
fn class_in(tag: u64) -> u32
    requires { tag / 8 < 2 ^ 32 }
    ensures { result ≡ tag / 8 }
{
    (tag / 8) as u32
}

// The flag in it.
fn flag_in(tag: u64) -> bool
    ensures { (class : ℕ) (shared : Bool) → tag ≡ shapes.flagged class shared → result ≡ shared }
{
    tag % 8 == 1
}

/// What a shape is. Takes no lock.
pub fn facts<K: Sink>(heap: &Heap<K>, pass: &mut HeapPass, shape_at: u64) -> ShapeFacts
    requires of { IsOf heap.now pass.old }
    requires known { KnowsShapeAt (holder pass.old) shape_at }
    ensures of { SameHeap pass.old pass.new }
    ensures learns { Learns (holder pass.old) (holder pass.new) }
    ensures facts { (shape : Shape) → Knows (holder pass.old) (ShapeAt shape shape_at) → AreFacts (holder pass.new).blocks shape result }
{
    let tag = heap.load_fixed(pass, shape_at);
    let word = heap.load_fixed(pass, shape_at + 2);
    let places = heap.load_fixed(pass, shape_at + 4);
    let up = parent(heap, pass, shape_at);
    ShapeFacts {
        class: class_in(tag),
        edge: edge_in(word),
        parent: parent_in(word, up),
        places,
        shared: flag_in(tag),
    }
}
