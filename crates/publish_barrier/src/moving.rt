// What moved leaves the private store.

ghost use Rattle.std.specs.Prelude.{◌≡◌, ◌≤◌, ◌<◌, ◌+◌, Some, IsSome, length, map, slice_get};
ghost use Rattle.rb_model.specs.declared.moved.MovedItem.{MovedItem};
ghost use Rattle.rb_model.specs.Moving.{items_of, ref_of};
ghost use Rattle.rb_model.specs.Private.{held, left};
ghost use Rattle.publish_barrier.specs.Leaving.{ArePrivate, without};
ghost use Rattle.publish_barrier.specs.Known.{with_all_noted};
ghost use Rattle.publish_barrier.specs.Moves.{NotesMoved};

use crate::known::Known;
use crate::sorts::sort_of;
use local_heap::LocalHeap;
use rb_model::{Moved, MovedItem, Ref};
use shape_core::ShapeStore;

/// A reference to a thing that moved, with the place where it was laid.
fn reference_to(item: &MovedItem) -> Ref
    ensures { result ≡ ref_of item.now }
{
    Ref {
        sort: sort_of(&item.thing),
        id: item.id,
        at: item.at,
    }
}

/// The things that moved leave the heap, and references to them are noted, with the places where they were laid. Takes no memory.
pub fn commit<S: ShapeStore>(heap: &mut LocalHeap<S>, known: &mut Known, moved: &Moved)
    requires private { ArePrivate heap.old (items_of moved.now) }
    requires room { length moved.now ≤ known.old.room }
    ensures left { heap.new ≡ without heap.old (items_of moved.now) }
    ensures known { known.new.refs ≡ with_all_noted known.old.refs (map ref_of moved.now) }
{
    let mut number = 0;
    'moved: while number < moved.len() {
        leave_at(heap, known, moved, number);
        number += 1;
    }
}

/// The same of the thing at a number.
fn leave_at<S: ShapeStore>(heap: &mut LocalHeap<S>, known: &mut Known, moved: &Moved, number: usize)
    requires private { (m : MovedItem) → slice_get moved.now number ≡ Some m → IsSome (held heap.old m.id) }
    requires room { 0 < known.old.room }
    ensures left { (m : MovedItem) → slice_get moved.now number ≡ Some m → heap.new ≡ left heap.old m.id }
    ensures known { (m : MovedItem) → slice_get moved.now number ≡ Some m → NotesMoved known.old.refs m known.new.refs }
    ensures room { known.old.room ≤ known.new.room + 1 }
{
    if let Some(item) = moved.get(number) {
        heap.leave(item.id);
        known.note(reference_to(item));
    }
}
