// The end of a thread that has a block, which is laid first and then made in turn.

ghost use Rattle.std.specs.Prelude.{◌≡◌, ◌≢◌, true, false, []};
ghost use Rattle.rb_model.specs.Log.{asked, plain_entry};
ghost use Rattle.rb_model.specs.Moving.{items_of};
ghost use Rattle.heap_core.specs.Ending.{EndAnswers, IsEndTold, IsOwnThread, with_end};
ghost use Rattle.heap_core.specs.Heaps.{IsOf, SameHeap, holder};
ghost use Rattle.heap_core.specs.Passes.{asking};
ghost use Rattle.heap_core.specs.Places.{turn_word};
ghost use Rattle.heap_core.specs.Turning.{without_turn};
ghost use Rattle.heap_core.specs.Turns.{HasTurn};
ghost use Rattle.heap_core.specs.View.{Ends, busy_at, with_busy};

use crate::act::Act;
use crate::holder::Known;
use crate::pass::{Heap, HeapPass, Place};
use crate::places::TURN_WORD;
use crate::telling::Tells;
use crate::turn::Turn;
use atomic_table::{Badge, Play};
use rb_edge::Sink;
use rb_model::Call;
use std::marker::{Brand, PhantomData};
use std::mem;

/// The entry of the end that a step makes, and the place of the thread that ends.
pub trait Leaving {
    ghost use Rattle.std.specs.Prelude.{ℕ};
    ghost use Rattle.rb_model.specs.Log.{Entry};

    ghost entry: { Entry };

    ghost place: { ℕ };
}

impl Leaving for Brand {
    ghost use Rattle.std.specs.Prelude.{[]};
    ghost use Rattle.rb_model.specs.Log.{Print, plain_entry};

    ghost entry = { plain_entry 0 (Print []) };

    ghost place = { 0 };
}

/// The turn is given back, with the end of a thread.
pub struct EndInTurn<J> {
    leaving: PhantomData<J>,
}

impl<K: Sink, J: Leaving> Play<Option<Turn<K>>, Known> for EndInTurn<J> {
    ghost use Rattle.heap_core.specs.Ending.{EndsInTurn};

    ghost then = { λ _ m _ m'. EndsInTurn J.entry J.place m m' };
}

/// The result of the own thread is laid.
pub struct LayResult;

impl Tells for LayResult {
    ghost use Rattle.heap_core.specs.Ending.{LaysResult};

    ghost tells = { LaysResult };
}

/// Its state is laid.
pub struct LayState;

impl Tells for LayState {
    ghost use Rattle.heap_core.specs.Ending.{LaysState};

    ghost tells = { LaysState };
}

impl<K: Sink> Heap<K> {
    // Lays how the own thread ends. It goes on until the entry of its end is made.
    fn lay_end(&self, pass: &mut HeapPass, at: u64, state: u64, told: u64)
        requires of { IsOf self.now pass.old }
        requires going { (holder pass.old).view.ended ≡ false }
        requires own { IsOwnThread (holder pass.old) at }
        ensures of { SameHeap pass.old pass.new }
        ensures apart { at ≢ turn_word }
        ensures laid { holder pass.new ≡ with_busy (holder pass.old) at (Ends state told) }
    {
        self.store::<LayResult>(pass, at + 6, told);
        self.store::<LayState>(pass, at + 5, state);
    }

    // The turn is given back with the end of this thread, which is laid.
    fn enter_told<J: Leaving>(
        &self,
        seat: &mut Place<K>,
        mut turn: Turn<K>,
        thread: u64,
        at: u64,
        state: u64,
        told: u64,
        step: u64,
        call: &Call,
    )
        requires of { seat.old.table_id ≡ self.now.table.shared.table_id }
        requires rests { seat.old.me.1 ≡ [] }
        requires live { seat.old.me.0.live ≡ true }
        requires thread { thread ≡ seat.old.me.0.view.thread }
        requires entry { J.entry ≡ plain_entry step (asked call.now) }
        requires place { J.place ≡ at }
        requires own { IsOwnThread seat.old.me.0 at }
        requires laid { busy_at at seat.old.me.0.doing ≡ Ends state told }
        requires ahead { seat.old.me.0.ahead ≡ 0 }
        requires end { IsEndTold seat.old.me.0 call.now state told }
        requires has { HasTurn seat.old.me.0 turn false }
        ensures of { seat.new.table_id ≡ seat.old.table_id }
        ensures seat { seat.new.id ≡ seat.old.id }
        ensures rests { seat.new.me.1 ≡ [] }
        ensures ended { seat.new.me.0 ≡ with_end (without_turn seat.old.me.0) (plain_entry step (asked call.now)) at }
    {
        turn.end(thread);
        self.hand_back(seat, turn);
        self.table.shared.store::<EndInTurn<J>>(seat, TURN_WORD, 0);
    }

    /// Ends the thread of a pass, and gives the turn back. The words that tell the end by the thread's block are its state and its result; a text or a
    /// wide integer that it ends with lies in the words that the pass owns, and these are published with the entry.
    pub fn turn_end_told(
        &self,
        pass: &mut HeapPass,
        turn: Turn<K>,
        thread: u64,
        at: u64,
        state: u64,
        told: u64,
        act: &Act,
    )
        requires of { IsOf self.now pass.old }
        requires thread { thread ≡ (holder pass.old).view.thread }
        requires going { (holder pass.old).view.ended ≡ false }
        requires own { IsOwnThread (holder pass.old) at }
        requires moves_none { items_of act.now.moved.now ≡ [] }
        requires ahead { (holder pass.old).ahead ≡ 0 }
        requires end { IsEndTold (holder pass.old) act.now.call.now state told }
        requires has { HasTurn (holder pass.old) turn false }
        ensures of { SameHeap pass.old pass.new }
        ensures ended { EndAnswers (asking act.now) act.now.step at state told (holder pass.old) (holder pass.new) }
    {
        self.lay_end(pass, at, state, told);
        let badge = mem::replace(&mut pass.badge, Badge::blank());
        let mut seat: Place<K> = badge.into_seat();
        self.enter_told::<Brand>(&mut seat, turn, thread, at, state, told, act.step, act.call);
        pass.badge = seat.into_badge();
    }
}
