// The end of a thread, which is made in turn.

ghost use Rattle.std.specs.Prelude.{◌≡◌, true, false, []};
ghost use Rattle.rb_model.specs.Log.{asked, plain_entry};
ghost use Rattle.rb_model.specs.Moving.{items_of};
ghost use Rattle.heap_core.specs.Ending.{IsPlainEnd};
ghost use Rattle.heap_core.specs.Heaps.{IsOf, SameHeap, holder};
ghost use Rattle.heap_core.specs.Turning.{IsBare, with_plain, without_turn};
ghost use Rattle.heap_core.specs.Turns.{HasTurn};

use crate::act::Act;
use crate::pass::{Heap, HeapPass, Place};
use crate::places::TURN_WORD;
use crate::prints::{MakeInTurn, Making};
use crate::turn::Turn;
use atomic_table::Badge;
use rb_edge::Sink;
use rb_model::Call;
use std::marker::Brand;
use std::mem;

impl<K: Sink> Heap<K> {
    // The turn is given back with the end of the main thread.
    fn enter_end<J: Making>(
        &self,
        seat: &mut Place<K>,
        mut turn: Turn<K>,
        thread: u64,
        step: u64,
        call: &Call,
    )
        requires of { seat.old.table_id ≡ self.now.table.shared.table_id }
        requires rests { seat.old.me.1 ≡ [] }
        requires live { seat.old.me.0.live ≡ true }
        requires thread { thread ≡ seat.old.me.0.view.thread }
        requires main { thread ≡ 0 }
        requires end { IsPlainEnd call.now }
        requires entry { J.entry ≡ plain_entry step (asked call.now) }
        requires bare { IsBare seat.old.me.0 }
        requires has { HasTurn seat.old.me.0 turn false }
        ensures of { seat.new.table_id ≡ seat.old.table_id }
        ensures seat { seat.new.id ≡ seat.old.id }
        ensures rests { seat.new.me.1 ≡ [] }
        ensures ended { seat.new.me.0 ≡ without_turn (with_plain seat.old.me.0 (plain_entry step (asked call.now))) }
    {
        turn.end(thread);
        self.hand_back(seat, turn);
        self.table.shared.store::<MakeInTurn<J>>(seat, TURN_WORD, 0);
    }

    /// Ends the main thread with no value, and gives the turn back. The entry of the end is made, and its reply is Done.
    pub fn turn_end(&self, pass: &mut HeapPass, turn: Turn<K>, thread: u64, act: &Act)
        requires of { IsOf self.now pass.old }
        requires thread { thread ≡ (holder pass.old).view.thread }
        requires main { thread ≡ 0 }
        requires end { IsPlainEnd act.now.call.now }
        requires moves_none { items_of act.now.moved.now ≡ [] }
        requires bare { IsBare (holder pass.old) }
        requires has { HasTurn (holder pass.old) turn false }
        ensures of { SameHeap pass.old pass.new }
        ensures ended { holder pass.new ≡ without_turn (with_plain (holder pass.old) (plain_entry act.now.step (asked act.now.call.now))) }
    {
        let badge = mem::replace(&mut pass.badge, Badge::blank());
        let mut seat: Place<K> = badge.into_seat();
        self.enter_end::<Brand>(&mut seat, turn, thread, act.step, act.call);
        pass.badge = seat.into_badge();
    }
}
