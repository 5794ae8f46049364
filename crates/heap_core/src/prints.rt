// Prints, which are made in turn.

ghost use Rattle.std.specs.Prelude.{◌≡◌, ℕ, true, false, [], ◌∷◌, Some};
ghost use Rattle.rb_model.specs.Log.{Print, asked, is_print, plain_entry};
ghost use Rattle.rb_model.specs.Moving.{items_of};
ghost use Rattle.heap_core.specs.Heaps.{IsOf, SameHeap, holder};
ghost use Rattle.heap_core.specs.Passes.{asking};
ghost use Rattle.heap_core.specs.Turning.{HasFailed, HasTaken, IsBare, PrintAnswers, with_plain, with_sink_failed, without_turn};
ghost use Rattle.heap_core.specs.Turns.{HasTurn};

use crate::act::Act;
use crate::holder::Known;
use crate::pass::{Heap, HeapPass, Place};
use crate::places::TURN_WORD;
use crate::turn::Turn;
use atomic_table::{Badge, Play};
use rb_edge::Sink;
use rb_model::{Call, Reply, SharedText};
use rb_shared::Answer;
use std::marker::{Brand, PhantomData};
use std::mem;

/// The entry that a step makes.
pub trait Making {
    ghost use Rattle.rb_model.specs.Log.{Entry};

    ghost entry: { Entry };
}

impl Making for Brand {
    ghost use Rattle.std.specs.Prelude.{[]};
    ghost use Rattle.rb_model.specs.Log.{Print, plain_entry};

    ghost entry = { plain_entry 0 (Print []) };
}

/// The call that a step refuses.
pub trait Refusing {
    ghost use Rattle.rb_model.specs.Log.{Call};

    ghost call: { Call };
}

impl Refusing for Brand {
    ghost use Rattle.std.specs.Prelude.{[]};
    ghost use Rattle.rb_model.specs.Log.{Print};

    ghost call = { Print [] };
}

/// The turn is given back, with an entry.
pub struct MakeInTurn<J> {
    making: PhantomData<J>,
}

impl<K: Sink, J: Making> Play<Option<Turn<K>>, Known> for MakeInTurn<J> {
    ghost use Rattle.heap_core.specs.Turning.{MakesInTurn};

    ghost then = { λ _ m _ m'. MakesInTurn J.entry m m' };
}

/// The turn is given back, with a refusal.
pub struct RefuseInTurn<J> {
    refusing: PhantomData<J>,
}

impl<K: Sink, J: Refusing> Play<Option<Turn<K>>, Known> for RefuseInTurn<J> {
    ghost use Rattle.std.specs.Prelude.{[]};
    ghost use Rattle.heap_core.specs.Turning.{RefusesInTurn};

    ghost then = { λ _ m _ m'. RefusesInTurn J.call [] m m' };
}

impl<K: Sink> Heap<K> {
    // The turn is given back with the entry of a print, which the sink took.
    fn enter_print<J: Making>(
        &self,
        seat: &mut Place<K>,
        turn: Turn<K>,
        step: u64,
        text: &SharedText,
    )
        requires of { seat.old.table_id ≡ self.now.table.shared.table_id }
        requires rests { seat.old.me.1 ≡ [] }
        requires live { seat.old.me.0.live ≡ true }
        requires bare { IsBare seat.old.me.0 }
        requires entry { J.entry ≡ plain_entry step (Print text.now) }
        requires taken { HasTaken text.now seat.old.me.0 turn }
        ensures of { seat.new.table_id ≡ seat.old.table_id }
        ensures seat { seat.new.id ≡ seat.old.id }
        ensures rests { seat.new.me.1 ≡ [] }
        ensures made { seat.new.me.0 ≡ without_turn (with_plain seat.old.me.0 (plain_entry step (Print text.now))) }
    {
        self.hand_back(seat, turn);
        self.table.shared.store::<MakeInTurn<J>>(seat, TURN_WORD, 0);
    }

    // The turn is given back with the refusal of a print, which the sink did not take.
    fn refuse_print<J: Refusing>(&self, seat: &mut Place<K>, turn: Turn<K>, text: &SharedText)
        requires of { seat.old.table_id ≡ self.now.table.shared.table_id }
        requires rests { seat.old.me.1 ≡ [] }
        requires live { seat.old.me.0.live ≡ true }
        requires call { J.call ≡ Print text.now }
        requires failed { HasFailed text.now seat.old.me.0 turn }
        ensures of { seat.new.table_id ≡ seat.old.table_id }
        ensures seat { seat.new.id ≡ seat.old.id }
        ensures rests { seat.new.me.1 ≡ [] }
        ensures refused { seat.new.me.0 ≡ without_turn (with_sink_failed seat.old.me.0 (Print text.now) []) }
    {
        self.hand_back(seat, turn);
        self.table
            .shared
            .store::<RefuseInTurn<J>>(seat, TURN_WORD, 0);
    }

    // Writes a text whole and gives the turn back. Whether the sink took it.
    fn print_at(&self, seat: &mut Place<K>, mut turn: Turn<K>, step: u64, text: &SharedText) -> bool
        requires of { seat.old.table_id ≡ self.now.table.shared.table_id }
        requires rests { seat.old.me.1 ≡ [] }
        requires live { seat.old.me.0.live ≡ true }
        requires bare { IsBare seat.old.me.0 }
        requires has { HasTurn seat.old.me.0 turn false }
        ensures of { seat.new.table_id ≡ seat.old.table_id }
        ensures seat { seat.new.id ≡ seat.old.id }
        ensures rests { seat.new.me.1 ≡ [] }
        ensures made { result ≡ true → seat.new.me.0 ≡ without_turn (with_plain seat.old.me.0 (plain_entry step (Print text.now))) }
        ensures refused { result ≡ false → seat.new.me.0 ≡ without_turn (with_sink_failed seat.old.me.0 (Print text.now) []) }
    {
        if turn.print(text.as_slice()) {
            self.enter_print::<Brand>(seat, turn, step, text);
            return true;
        }
        self.refuse_print::<Brand>(seat, turn, text);
        false
    }

    /// Prints, and gives the turn back. The sink is written first: where it takes the text whole, the entry is made and the answer is Done. Where
    /// it fails or failed before, the answer is SinkFailed, there is no entry, and the call is among the refusals.
    pub fn turn_print(&self, pass: &mut HeapPass, turn: Turn<K>, act: &Act) -> Answer
        requires of { IsOf self.now pass.old }
        requires print { is_print (asked act.now.call.now) ≡ true }
        requires moves_none { items_of act.now.moved.now ≡ [] }
        requires bare { IsBare (holder pass.old) }
        requires has { HasTurn (holder pass.old) turn false }
        ensures of { SameHeap pass.old pass.new }
        ensures answers { PrintAnswers (asking act.now) act.now.step result (holder pass.old) (holder pass.new) }
    {
        let Call::Print(text) = act.call else {
            unreachable!()
        };
        let badge = mem::replace(&mut pass.badge, Badge::blank());
        let mut seat: Place<K> = badge.into_seat();
        let taken = self.print_at(&mut seat, turn, act.step, text);
        pass.badge = seat.into_badge();
        if taken {
            Answer::Done(Reply::Done)
        } else {
            Answer::SinkFailed
        }
    }
}
