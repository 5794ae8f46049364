// The turn: it is taken and given back.

ghost use Rattle.std.specs.Prelude.{◌≡◌, true, false, [], ◌∷◌, Some, None};
ghost use Rattle.heap_core.specs.Handing.{Handed};
ghost use Rattle.heap_core.specs.Heaps.{IsOf, SameHeap, holder};
ghost use Rattle.heap_core.specs.Turning.{HasTried, with_out, with_turn, without_turn};
ghost use Rattle.heap_core.specs.Turns.{HasTurn};

use crate::holder::Known;
use crate::pass::{Heap, HeapPass, Place};
use crate::pause::Pause;
use crate::places::TURN_WORD;
use crate::turn::Turn;
use atomic_table::{Badge, Play};
use rb_edge::Sink;
use std::mem;
use std::sync::Wait;

/// The turn is tried.
pub struct TryTurn;

impl<K: Sink> Play<Option<Turn<K>>, Known> for TryTurn {
    ghost use Rattle.heap_core.specs.Turning.{TriesTurn};

    ghost then = { λ _ m n m'. TriesTurn m n m' };
}

/// The slot is laid home.
pub struct LaySlot;

impl<K: Sink> Play<Option<Turn<K>>, Known> for LaySlot {
    ghost use Rattle.heap_core.specs.Turning.{LaysSlot};

    ghost then = { λ _ m _ m'. LaysSlot m m' };
}

/// The slot is taken from there.
pub struct TakeSlot;

impl<K: Sink> Play<Option<Turn<K>>, Known> for TakeSlot {
    ghost use Rattle.heap_core.specs.Turning.{TakesSlot};

    ghost then = { λ _ m _ m'. TakesSlot m m' };
}

/// The turn is given back.
pub struct GiveTurn;

impl<K: Sink> Play<Option<Turn<K>>, Known> for GiveTurn {
    ghost use Rattle.heap_core.specs.Turning.{GivesTurn};

    ghost then = { λ _ m _ m'. GivesTurn m m' };
}

impl<K: Sink> Heap<K> {
    // What a seat has in its slot is taken out of it.
    fn take_out(&self, seat: &mut Place<K>) -> Option<Turn<K>>
        requires of { seat.old.table_id ≡ self.now.table.shared.table_id }
        requires held { (h : Handed) × (seat.old.me.1 ≡ (0, Some h) ∷ []) }
        ensures of { seat.new.table_id ≡ seat.old.table_id }
        ensures seat { seat.new.id ≡ seat.old.id }
        ensures taken { seat.old.me.1 ≡ (0, result) ∷ [] }
        ensures empty { seat.new.me ≡ (seat.old.me.0, (0, None) ∷ []) }
    {
        mem::replace(seat.slot_mut(&self.table.shared, 0), None)
    }

    // It is put into the slot, which is empty.
    fn put_in(&self, seat: &mut Place<K>, turn: Turn<K>)
        requires of { seat.old.table_id ≡ self.now.table.shared.table_id }
        requires empty { seat.old.me.1 ≡ (0, None) ∷ [] }
        ensures of { seat.new.table_id ≡ seat.old.table_id }
        ensures seat { seat.new.id ≡ seat.old.id }
        ensures put { seat.new.me ≡ (seat.old.me.0, (0, Some turn) ∷ []) }
    {
        let old = mem::replace(seat.slot_mut(&self.table.shared, 0), Some(turn));
        let None = old else { unreachable!() };
    }

    // One try: `None` where another pass has the turn.
    fn find_turn(&self, seat: &mut Place<K>) -> Option<Turn<K>>
        requires of { seat.old.table_id ≡ self.now.table.shared.table_id }
        requires rests { seat.old.me.1 ≡ [] }
        requires live { seat.old.me.0.live ≡ true }
        requires going { seat.old.me.0.view.ended ≡ false }
        ensures of { seat.new.table_id ≡ seat.old.table_id }
        ensures seat { seat.new.id ≡ seat.old.id }
        ensures rests { seat.new.me.1 ≡ [] }
        ensures tried { HasTried result seat.old.me.0 seat.new.me.0 }
    {
        if self
            .table
            .shared
            .compare_exchange::<TryTurn>(seat, TURN_WORD, 0, 1)
            != 0
        {
            return None;
        }
        let turn = self.take_out(seat);
        self.table.shared.load::<LaySlot>(seat, TURN_WORD);
        turn
    }

    // What is handed on is put back into the slot, which is out with the seat then.
    pub(crate) fn hand_back(&self, seat: &mut Place<K>, turn: Turn<K>)
        requires of { seat.old.table_id ≡ self.now.table.shared.table_id }
        requires rests { seat.old.me.1 ≡ [] }
        requires live { seat.old.me.0.live ≡ true }
        requires has { (h : Handed) × HasTurn seat.old.me.0 h false }
        ensures of { seat.new.table_id ≡ seat.old.table_id }
        ensures seat { seat.new.id ≡ seat.old.id }
        ensures put { seat.new.me ≡ (with_out seat.old.me.0 true, (0, Some turn) ∷ []) }
    {
        self.table.shared.load::<TakeSlot>(seat, TURN_WORD);
        self.put_in(seat, turn);
    }

    // One try, with a pass.
    fn try_turn(&self, pass: &mut HeapPass) -> Option<Turn<K>>
        requires of { IsOf self.now pass.old }
        requires going { (holder pass.old).view.ended ≡ false }
        ensures of { SameHeap pass.old pass.new }
        ensures tried { HasTried result (holder pass.old) (holder pass.new) }
    {
        let badge = mem::replace(&mut pass.badge, Badge::blank());
        let mut seat: Place<K> = badge.into_seat();
        let turn = self.find_turn(&mut seat);
        pass.badge = seat.into_badge();
        turn
    }

    /// Takes the turn, once no pass has it. May wait. While a pass has it, no other pass prints.
    pub fn turn_in<R: Wait>(&self, rt: &R, pass: &mut HeapPass) -> Turn<K>
        requires of { IsOf self.now pass.old }
        requires going { (holder pass.old).view.ended ≡ false }
        ensures of { SameHeap pass.old pass.new }
        ensures had { holder pass.new ≡ with_turn (holder pass.old) result }
        ensures has { HasTurn (holder pass.new) result false }
    {
        let pause = Pause::new();
        'tries: for _ in rt.forever() {
            if let Some(turn) = self.try_turn(pass) {
                return turn;
            }
            pause.take(rt);
        }
        unreachable!()
    }

    /// Gives the turn back as it was taken, with no entry.
    pub fn turn_out(&self, pass: &mut HeapPass, turn: Turn<K>)
        requires of { IsOf self.now pass.old }
        requires has { HasTurn (holder pass.old) turn false }
        ensures of { SameHeap pass.old pass.new }
        ensures given { holder pass.new ≡ without_turn (holder pass.old) }
    {
        let badge = mem::replace(&mut pass.badge, Badge::blank());
        let mut seat: Place<K> = badge.into_seat();
        self.hand_back(&mut seat, turn);
        self.table.shared.store::<GiveTurn>(&mut seat, TURN_WORD, 0);
        pass.badge = seat.into_badge();
    }
}
