// Which kind of block a reference names.

ghost use Rattle.std.specs.Prelude.{◌≡◌};
ghost use Rattle.heap_core.specs.Heaps.{IsOf, SameHeap, holder};
ghost use Rattle.heap_core.specs.Named.{CanNameAll};

use crate::holder::Known;
use crate::pass::{Heap, HeapPass, Place};
use crate::places::TURN_WORD;
use crate::turn::Turn;
use atomic_table::{Badge, Play};
use rb_edge::Sink;
use std::mem;

/// It is told of each reference that a pass has which kind of block it names.
pub struct NameAll;

impl<K: Sink> Play<Option<Turn<K>>, Known> for NameAll {
    ghost use Rattle.heap_core.specs.Named.{NamesAll};

    ghost then = { λ _ m _ m'. NamesAll m m' };
}

impl<K: Sink> Heap<K> {
    /// Tells of each reference that the pass has that it names a block of its sort, for who calls what asks for that. One load.
    pub fn name_all(&self, pass: &mut HeapPass)
        requires of { IsOf self.now pass.old }
        ensures of { SameHeap pass.old pass.new }
        ensures same { holder pass.new ≡ holder pass.old }
        ensures named { CanNameAll (holder pass.new) }
    {
        let badge = mem::replace(&mut pass.badge, Badge::blank());
        let mut seat: Place<K> = badge.into_seat();
        self.table.shared.load::<NameAll>(&mut seat, TURN_WORD);
        pass.badge = seat.into_badge();
    }
}
