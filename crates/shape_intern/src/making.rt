// Shapes are made, under the lock of the tree.

ghost use Rattle.std.specs.Prelude.{◌≡◌, ◌+◌, ◌⊎◌, ◌≤◌, ◌<◌, ℕ, None};
ghost use Rattle.shape_core.specs.Path.{MayFollow};
ghost use Rattle.shape_core.specs.Shape.{Shape, child_of, root_of};
ghost use Rattle.heap_core.specs.Blocks.{ShapeAt};
ghost use Rattle.heap_core.specs.Growing.{Learns, MakesShape, shape_block};
ghost use Rattle.heap_core.specs.Heaps.{IsOf, SameHeap, holder};
ghost use Rattle.heap_core.specs.Shapes.{IsNarrowEdge};
ghost use Rattle.heap_core.specs.View.{HasTree, Knows};
ghost use Rattle.shape_intern.specs.Interning.{HasRoom, Interned, IsWanted, KnowsChild, KnowsRoot, KnowsShape, Makes, MayMake};
ghost use Rattle.shape_intern.specs.Walks.{IsSought, KnowsShapeAt, KnowsTree};

use crate::laying::lay;
use crate::looking::parent;
use crate::seeking::{Mark, Sought, seek, seek_child};
use crate::words::{edge_word, places_behind, tag_behind};
use heap_core::{Heap, HeapPass, MakeShape};
use rb_edge::Sink;
use shape_core::Edge;

const FIRST_ROOT: u64 = 17;

// The place of a shape whose words are laid is stored at a link word.
fn make<K: Sink>(heap: &Heap<K>, pass: &mut HeapPass, link: u64, to: u64)
    requires of { IsOf heap.now pass.old }
    requires grows { MayMake (holder pass.old) link to }
    ensures of { SameHeap pass.old pass.new }
    ensures made { (before : Shape) (home : ℕ) → Knows (holder pass.old) (ShapeAt before home) → home ≤ link → link < home + 7 → MakesShape (ShapeAt before home) link to 0 (holder pass.old) to (holder pass.new) }
{
    heap.store::<MakeShape>(pass, link, to);
}

// A shape that is missing is laid, and linked where its row ends.
fn intern<K: Sink>(
    heap: &Heap<K>,
    pass: &mut HeapPass,
    room: &mut u64,
    link: u64,
    words: &[u64],
) -> u64
    requires of { IsOf heap.now pass.old }
    requires tree { KnowsTree (holder pass.old) }
    requires has { HasTree (holder pass.old) }
    requires wanted { (shape : Shape) × IsWanted (holder pass.old) link words.now shape }
    requires room { HasRoom (holder pass.old) room.old }
    ensures of { SameHeap pass.old pass.new }
    ensures place { result ≡ room.old }
    ensures room { room.new ≡ room.old + 7 }
    ensures made { (shape : Shape) → IsWanted (holder pass.old) link words.now shape → Makes shape result (holder pass.old) (holder pass.new) }
{
    let at = *room;
    lay(heap, pass, at, words);
    make(heap, pass, link, at);
    *room = at + 7;
    at
}

// The words of the child of a shape by an edge.
fn child_words<K: Sink>(heap: &Heap<K>, pass: &mut HeapPass, shape_at: u64, edge: &Edge) -> [u64; 7]
    requires of { IsOf heap.now pass.old }
    requires tree { KnowsTree (holder pass.old) }
    requires known { KnowsShapeAt (holder pass.old) shape_at }
    ensures of { SameHeap pass.old pass.new }
    ensures same { holder pass.new ≡ holder pass.old }
    ensures words { (shape : Shape) → Knows (holder pass.old) (ShapeAt shape shape_at) → result ≡ shape_block (child_of shape edge.now) shape_at }
    ensures narrow { IsNarrowEdge edge.now }
{
    let tag = heap.load_fixed(pass, shape_at);
    let places = heap.load_fixed(pass, shape_at + 4);
    let word = edge_word(edge);
    let tag = tag_behind(tag, edge);
    let count = places_behind(places, edge);
    [tag, shape_at, word, places, count, 0, 0]
}

/// The shape to which an edge leads, under the lock of the tree. Where it is missing, it is made of the first seven words of the pass's own.
pub fn follow<K: Sink>(
    heap: &Heap<K>,
    pass: &mut HeapPass,
    room: &mut u64,
    shape_at: u64,
    edge: &Edge,
) -> u64
    requires of { IsOf heap.now pass.old }
    requires known { KnowsShapeAt (holder pass.old) shape_at }
    requires allowed { (shape : Shape) → Knows (holder pass.old) (ShapeAt shape shape_at) → MayFollow shape.path edge.now }
    requires has { HasTree (holder pass.old) }
    requires room { HasRoom (holder pass.old) room.old ⊎ KnowsChild (holder pass.old) shape_at edge.now }
    ensures of { SameHeap pass.old pass.new }
    ensures interned { (shape : Shape) → Knows (holder pass.old) (ShapeAt shape shape_at) → Interned (holder pass.old) (holder pass.new) room.old room.new (child_of shape edge.now) result }
{
    match seek_child(heap, pass, shape_at, edge) {
        Sought::Found(at) => at,
        Sought::Missing(link) => {
            let words = child_words(heap, pass, shape_at, edge);
            intern(heap, pass, room, link, &words)
        }
    }
}

// Seeks the root of a class.
pub(crate) fn seek_root<K: Sink>(heap: &Heap<K>, pass: &mut HeapPass, class: u32) -> Sought
    requires of { IsOf heap.now pass.old }
    requires known { KnowsRoot (holder pass.old) }
    ensures of { SameHeap pass.old pass.new }
    ensures learns { Learns (holder pass.old) (holder pass.new) }
    ensures tree { KnowsTree (holder pass.new) }
    ensures sought { IsSought (holder pass.new).blocks None (root_of class) result }
{
    // A look tells that the shapes that are known are a tree.
    parent(heap, pass, FIRST_ROOT);
    let mark = Mark {
        behind: 0,
        word: u64::from(class) * 8,
    };
    seek(heap, pass, FIRST_ROOT, 0, &mark)
}

/// The root shape of a class, in the same way.
pub fn root<K: Sink>(heap: &Heap<K>, pass: &mut HeapPass, room: &mut u64, class: u32) -> u64
    requires of { IsOf heap.now pass.old }
    requires known { KnowsRoot (holder pass.old) }
    requires has { HasTree (holder pass.old) }
    requires room { HasRoom (holder pass.old) room.old ⊎ KnowsShape (holder pass.old) (root_of class) }
    ensures of { SameHeap pass.old pass.new }
    ensures interned { Interned (holder pass.old) (holder pass.new) room.old room.new (root_of class) result }
{
    match seek_root(heap, pass, class) {
        Sought::Found(at) => at,
        Sought::Missing(link) => {
            let words = [u64::from(class) * 8, 0, 0, 0, 0, 0, 0];
            intern(heap, pass, room, link, &words)
        }
    }
}
