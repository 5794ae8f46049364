// The store: one turn word, and one slot with the things and the sink.

ghost use Rattle.std.specs.Prelude.{◌≡◌, ◌≤◌, IfOk, IfErr};
ghost use Rattle.atomic_table.specs.Seated.{TableId};
ghost use Rattle.rb_model.specs.Doing.{said};
ghost use Rattle.rb_model.specs.Log.{asked, is_print};
ghost use Rattle.rb_model.specs.Moving.{items_of};
ghost use Rattle.rb_shared.specs.Answers.{AnswersIn, entry_of};
ghost use Rattle.rb_shared.specs.Asking.{MayAsk};
ghost use Rattle.rb_shared.specs.View.{View, first_view, unasked};
ghost use Rattle.turn_store.specs.Holding.{Holder};
ghost use Rattle.turn_store.specs.Passes.{IsPass, holder_of, view_of};
ghost use Rattle.turn_store.specs.Slot.{Attempts, MayTry, begun_of, sunk_of, things_of};
ghost use Rattle.turn_store.specs.Turns.{Never, InHand, IsAtRest, MayGiveUp, MayMake, MayRefuse, TookTurn};
ghost use Rattle.turn_store.specs.Calls.{HasEntered, HasLeft, HasRefused, HasReturned, IsGoing, refs_of};

use crate::pause::Pause;
use crate::rule::{
    Counting, Forget, GiveUp, Known, Law, Leave, Made, Naming, Refuse, Refusing, Take,
};
use crate::slot::{Attempt, Slot};
use atomic_table::{Badge, Refused, Seat, Table};
use crossbeam_utils::Backoff;
use rb_edge::Sink;
use rb_model::{Call, Moved, Reply};
use rb_shared::Answer;
use std::alloc::{AllocFailed, Global};
use std::marker::Brand;
use std::snapshot::Snapshot;
use std::sync::Wait;

/// The seat of a pass while it steps.
pub(crate) type Place<K> = Seat<Slot<K>, Known>;

/// A store of plain things and one sink, which its threads call by turns.
#[derive(Drop)]
pub struct TurnStore<K: Sink> {
    pub table: Table<Slot<K>, Known, Made<K>, Law, Global>,
    pub slots: u64,
    ghost sizes: { (table.shared.table_id.words ≡ 1) × (table.shared.table_id.slots ≡ 1) },
    ghost threads: { slots ≡ table.shared.key.slots },
}

/// What one thread calls the store with.
#[derive(Drop)]
pub struct TurnPass {
    pub badge: Badge<Known>,
    pub thread: u64,
    /// The number of the thread that the last call started, until its pass is split off.
    pub unsplit: Option<u64>,
    ghost rests: { IsPass badge.views thread unsplit },
}

impl<K: Sink> TurnStore<K> {
    /// A store for so many threads at once, with the pass of the main one. The sink comes back where there is no memory.
    pub fn new(alloc: Global, out: K, slots: u32) -> Result<(TurnStore<K>, TurnPass), K>
        requires some { 1 ≤ slots }
        requires most { slots ≤ 64 }
        ensures of { IfOk result (λ made. made.1.badge.table_id ≡ made.0.table.shared.table_id) }
        ensures view { IfOk result (λ made. view_of made.1.badge.views ≡ first_view slots) }
        ensures slots { IfOk result (λ made. made.0.table.shared.key.slots ≡ slots) }
        ensures sink { IfOk result (λ made. made.0.table.shared.key.out.value ≡ out) }
        ensures back { IfErr result (λ sink. sink ≡ out) }
    {
        let made = Made {
            out: Snapshot::of(&out),
            slots: slots as u64,
        };
        let slot = Slot::new(alloc, out)?;
        let mut places = Vec::new(alloc);
        if let Err(AllocFailed { value }) = places.push(slot) {
            places.destroy_empty();
            return Err(value.into_out());
        }
        match Table::new(alloc, &[0], places, &made) {
            Ok((table, seat)) => Ok((
                TurnStore {
                    table,
                    slots: slots as u64,
                },
                TurnPass {
                    badge: seat.into_badge(),
                    thread: 0,
                    unsplit: None,
                },
            )),
            Err(Refused { mut slots }) => {
                let Some(slot) = slots.pop() else {
                    unreachable!()
                };
                slots.destroy_empty();
                Err(slot.into_out())
            }
        }
    }

    /// Takes the turn, once nobody has it.
    fn take_turn<R: Wait, J: Counting>(&self, rt: &R, seat: &mut Place<K>)
        requires store { seat.old.table_id ≡ self.now.table.shared.table_id }
        requires counts { J.slots ≡ self.now.table.shared.key.slots }
        requires rests { IsAtRest seat.old.me × IsGoing seat.old.me }
        ensures same { seat.new.table_id ≡ seat.old.table_id }
        ensures took { TookTurn things_of (sunk_of K.told K.faults) self.now.table.shared.key.slots seat.old.me.0 seat.new.me }
    {
        let backoff = Backoff::new();
        'turns: for _ in rt.forever() {
            if self.table.shared.compare_exchange::<Take<J>>(seat, 0, 0, 1) == 0 {
                return;
            }
            backoff.snooze();
        }
        unreachable!()
    }

    /// Looks at the slot.
    fn enter(&self, seat: &mut Place<K>, thread: u64, call: &Call, moved: &Moved) -> Attempt
        requires store { seat.old.table_id ≡ self.now.table.shared.table_id }
        requires held { InHand seat.old.me (λ y. MayTry y.things thread call.now moved.now) }
        ensures same { (seat.new.table_id ≡ seat.old.table_id) × (seat.new.me.0 ≡ seat.old.me.0) }
        ensures moves { HasEntered seat.old.me (Attempts K.told K.faults self.now.slots thread call.now moved.now result) seat.new.me }
    {
        seat.slot_mut(&self.table.shared, 0)
            .attempt(self.slots, thread, call, moved)
    }

    /// Gives the turn back with an entry.
    fn leave<J: Naming>(
        &self,
        seat: &mut Place<K>,
        step: u64,
        call: &Call,
        moved: &Moved,
        reply: &Reply,
    )
        requires store { seat.old.table_id ≡ self.now.table.shared.table_id }
        requires entry { J.entry ≡ entry_of step call.now moved.now (said reply.now) }
        requires refs { J.refs ≡ refs_of reply.now moved.now }
        requires made { MayMake things_of (sunk_of K.told K.faults) J.entry J.refs self.now.table.shared.key.slots seat.old.me }
        ensures same { seat.new.table_id ≡ seat.old.table_id }
        ensures left { HasLeft seat.old.me J.entry J.refs seat.new.me }
    {
        self.table.shared.store::<Leave<J>>(seat, 0, 0);
    }

    /// Gives the turn back with a refusal.
    fn refuse<J: Refusing>(&self, seat: &mut Place<K>, call: &Call, moved: &Moved)
        requires store { seat.old.table_id ≡ self.now.table.shared.table_id }
        requires refused { (J.call ≡ asked call.now) × (J.moved ≡ items_of moved.now) }
        requires may { MayRefuse things_of (sunk_of K.told K.faults) (asked call.now) seat.old.me }
        ensures same { seat.new.table_id ≡ seat.old.table_id }
        ensures left { HasRefused seat.old.me (asked call.now) (items_of moved.now) seat.new.me }
    {
        self.table.shared.store::<Refuse<J>>(seat, 0, 0);
    }

    /// Gives the turn back, to try again.
    fn give_up(&self, seat: &mut Place<K>)
        requires store { seat.old.table_id ≡ self.now.table.shared.table_id }
        requires may { MayGiveUp things_of (sunk_of K.told K.faults) seat.old.me.0.view seat.old.me }
        ensures same { seat.new.table_id ≡ seat.old.table_id }
        ensures left { HasReturned seat.old.me seat.old.me.0.view seat.new.me }
    {
        self.table.shared.store::<GiveUp>(seat, 0, 0);
    }

    /// Gives the turn back, where a call is over and nothing came of it.
    fn forget(&self, seat: &mut Place<K>)
        requires store { seat.old.table_id ≡ self.now.table.shared.table_id }
        requires may { MayGiveUp things_of (sunk_of K.told K.faults) (unasked seat.old.me.0.view) seat.old.me }
        ensures same { seat.new.table_id ≡ seat.old.table_id }
        ensures left { HasReturned seat.old.me (unasked seat.old.me.0.view) seat.new.me }
    {
        self.table.shared.store::<Forget>(seat, 0, 0);
    }

    /// Makes a call, once it need not wait.
    pub(crate) fn call_at<R: Wait>(
        &self,
        rt: &R,
        mut seat: Place<K>,
        thread: u64,
        step: u64,
        call: &Call,
        moved: &Moved,
    ) -> (Place<K>, Answer)
        requires store { seat.table_id ≡ self.now.table.shared.table_id }
        requires rests { IsAtRest seat.me × IsGoing seat.me × (thread ≡ seat.me.0.view.thread) }
        requires may { MayAsk seat.me.0.view call.now moved.now }
        ensures same { result.0.table_id ≡ seat.table_id }
        ensures rests { IsAtRest result.0.me }
        ensures answers { AnswersIn Never seat.me.0.view step call.now moved.now result.1 moved.now result.0.me.0.view }
    {
        let pause = Pause::new();
        'turns: for _ in rt.forever() {
            self.take_turn::<R, Brand>(rt, &mut seat);
            match self.enter(&mut seat, thread, call, moved) {
                Attempt::Done(reply) => {
                    self.leave::<Brand>(&mut seat, step, call, moved, &reply);
                    return (seat, Answer::Done(reply));
                }
                Attempt::Waits => self.give_up(&mut seat),
                Attempt::SinkFailed => {
                    self.refuse::<Brand>(&mut seat, call, moved);
                    return (seat, Answer::SinkFailed);
                }
                Attempt::Memory => {
                    self.forget(&mut seat);
                    return (seat, Answer::Memory);
                }
            }
            pause.take(rt);
        }
        unreachable!()
    }
}
