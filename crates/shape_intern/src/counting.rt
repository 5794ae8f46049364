// How many shapes are to be made.

ghost use Rattle.shape_core.specs.Shape.{root_of};
ghost use Rattle.heap_core.specs.Growing.{Learns};
ghost use Rattle.heap_core.specs.Heaps.{IsOf, SameHeap, holder};
ghost use Rattle.heap_core.specs.View.{HasTree};
ghost use Rattle.shape_intern.specs.Interning.{KnowsRoot, Misses};

use crate::making::seek_root;
use crate::seeking::{Sought, seek_child};
use heap_core::{Heap, HeapPass};
use rb_edge::Sink;
use shape_core::Edge;

/// How many are missing of the root of a class and of the shapes to which these edges lead from it, one behind the other, under the lock of
/// the tree.
pub fn missing<K: Sink>(heap: &Heap<K>, pass: &mut HeapPass, class: u32, path: &[Edge]) -> u64
    requires of { IsOf heap.now pass.old }
    requires known { KnowsRoot (holder pass.old) }
    requires has { HasTree (holder pass.old) }
    ensures of { SameHeap pass.old pass.new }
    ensures learns { Learns (holder pass.old) (holder pass.new) }
    ensures misses { Misses (holder pass.old) (root_of class) path.now result }
{
    let Sought::Found(root) = seek_root(heap, pass, class) else {
        return path.len() as u64 + 1;
    };
    let mut at = root;
    'way: for i in 0..path.len() {
        let Sought::Found(next) = seek_child(heap, pass, at, &path[i]) else {
            return (path.len() - i) as u64;
        };
        at = next;
    }
    0
}
