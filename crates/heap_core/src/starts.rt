// Threads are started in turn.

ghost use Rattle.std.specs.Prelude.{◌≡◌, ◌<◌, [], true, false, length, Some, None};
ghost use Rattle.rb_model.specs.Moving.{items_of};
ghost use Rattle.heap_core.specs.Handing.{Handed};
ghost use Rattle.heap_core.specs.Heaps.{IsOf, SameHeap, holder};
ghost use Rattle.heap_core.specs.Passes.{asking};
ghost use Rattle.heap_core.specs.Starting.{IsStart, LaidFor, NamesNew, StartAnswers, TableSeen, born_by, full_entry, line_for, with_born};
ghost use Rattle.heap_core.specs.Turning.{IsBare, with_plain, without_turn};
ghost use Rattle.heap_core.specs.Turns.{HasTurn};
ghost use Rattle.heap_core.specs.View.{OwnsOne, with_own};

use crate::act::Act;
use crate::holder::Known;
use crate::pass::{Heap, HeapPass, Place};
use crate::places::TURN_WORD;
use crate::prints::{MakeInTurn, Making};
use crate::take::Take;
use crate::turn::Turn;
use atomic_table::{Badge, Play};
use rb_edge::Sink;
use rb_model::{Call, Fault, Ref, Reply, Sort};
use rb_shared::Answer;
use std::marker::{Brand, PhantomData};
use std::mem;
use std::sync::Wait;

/// How many words a thread has.
const THREAD_WORDS: u64 = 8;

/// The word of the sort of a thread.
const THREAD_TAG: u64 = 5;

/// The thread that a step brings.
pub trait Bearing {
    ghost use Rattle.heap_core.specs.Starting.{Born};

    ghost born: { Born };
}

impl Bearing for Brand {
    ghost use Rattle.std.specs.Prelude.{[]};
    ghost use Rattle.rb_model.specs.Log.{Print};
    ghost use Rattle.rb_shared.specs.View.{to_globals};
    ghost use Rattle.heap_core.specs.Starting.{born_of};

    ghost born = { born_of 0 (Print []) 0 to_globals 0 };
}

/// The table of threads is looked at.
pub struct LookTable;

impl<K: Sink> Play<Option<Turn<K>>, Known> for LookTable {
    ghost use Rattle.heap_core.specs.Starting.{SeesTable};

    ghost then = { λ _ m _ m'. SeesTable m m' };
}

/// The turn is given back, with the start of a thread.
pub struct StartInTurn<J> {
    bearing: PhantomData<J>,
}

impl<K: Sink, J: Bearing> Play<Option<Turn<K>>, Known> for StartInTurn<J> {
    ghost use Rattle.heap_core.specs.Starting.{StartsInTurn};

    ghost then = { λ _ m _ m'. StartsInTurn J.born m m' };
}

impl<K: Sink> Heap<K> {
    // What the table of threads says is so in a run.
    fn look_table(&self, pass: &mut HeapPass)
        requires of { IsOf self.now pass.old }
        ensures of { SameHeap pass.old pass.new }
        ensures seen { (h : Handed) → HasTurn (holder pass.old) h false → TableSeen (holder pass.old) h }
        ensures same { holder pass.new ≡ holder pass.old }
    {
        let badge = mem::replace(&mut pass.badge, Badge::blank());
        let mut seat: Place<K> = badge.into_seat();
        self.table.shared.load::<LookTable>(&mut seat, TURN_WORD);
        pass.badge = seat.into_badge();
    }

    // The turn is given back with the fault that no thread can be started.
    fn enter_full<J: Making>(&self, seat: &mut Place<K>, turn: Turn<K>, step: u64, call: &Call)
        requires of { seat.old.table_id ≡ self.now.table.shared.table_id }
        requires rests { seat.old.me.1 ≡ [] }
        requires live { seat.old.me.0.live ≡ true }
        requires bare { IsBare seat.old.me.0 }
        requires start { IsStart seat.old.me.0.view call.now }
        requires entry { J.entry ≡ full_entry step call.now }
        requires full { line_for seat.old.me.0.view.generation turn.lines ≡ None }
        requires has { HasTurn seat.old.me.0 turn false }
        ensures of { seat.new.table_id ≡ seat.old.table_id }
        ensures seat { seat.new.id ≡ seat.old.id }
        ensures rests { seat.new.me.1 ≡ [] }
        ensures made { seat.new.me.0 ≡ without_turn (with_plain seat.old.me.0 (full_entry step call.now)) }
    {
        self.hand_back(seat, turn);
        self.table.shared.store::<MakeInTurn<J>>(seat, TURN_WORD, 0);
    }

    // The same with a pass.
    fn start_full(&self, pass: &mut HeapPass, turn: Turn<K>, act: &Act)
        requires of { IsOf self.now pass.old }
        requires bare { IsBare (holder pass.old) }
        requires start { IsStart (holder pass.old).view act.now.call.now }
        requires full { line_for (holder pass.old).view.generation turn.lines ≡ None }
        requires has { HasTurn (holder pass.old) turn false }
        ensures of { SameHeap pass.old pass.new }
        ensures made { holder pass.new ≡ without_turn (with_plain (holder pass.old) (full_entry act.now.step act.now.call.now)) }
    {
        let badge = mem::replace(&mut pass.badge, Badge::blank());
        let mut seat: Place<K> = badge.into_seat();
        self.enter_full::<Brand>(&mut seat, turn, act.step, act.call);
        pass.badge = seat.into_badge();
    }

    // The turn is given back with the start of a thread, whose words are laid.
    fn enter_start<J: Bearing>(
        &self,
        seat: &mut Place<K>,
        mut turn: Turn<K>,
        line: usize,
        thread: &Ref,
        step: u64,
        call: &Call,
    )
        requires of { seat.old.table_id ≡ self.now.table.shared.table_id }
        requires rests { seat.old.me.1 ≡ [] }
        requires live { seat.old.me.0.live ≡ true }
        requires born { J.born ≡ born_by step call.now turn thread.now line }
        requires start { IsStart seat.old.me.0.view call.now }
        requires named { NamesNew thread.now call.now }
        requires laid { LaidFor seat.old.me.0 (born_by step call.now turn thread.now line) }
        requires free { line_for seat.old.me.0.view.generation turn.lines ≡ Some line }
        requires few { turn.started < 18446744073709551615 }
        requires has { HasTurn seat.old.me.0 turn false }
        ensures of { seat.new.table_id ≡ seat.old.table_id }
        ensures seat { seat.new.id ≡ seat.old.id }
        ensures rests { seat.new.me.1 ≡ [] }
        ensures made { seat.new.me.0 ≡ without_turn (with_born seat.old.me.0 (born_by step call.now turn thread.now line)) }
    {
        turn.start(line);
        self.hand_back(seat, turn);
        self.table
            .shared
            .store::<StartInTurn<J>>(seat, TURN_WORD, 0);
    }

    // The same with a pass.
    fn start_laid(&self, pass: &mut HeapPass, turn: Turn<K>, line: usize, thread: &Ref, act: &Act)
        requires of { IsOf self.now pass.old }
        requires start { IsStart (holder pass.old).view act.now.call.now }
        requires named { NamesNew thread.now act.now.call.now }
        requires laid { LaidFor (holder pass.old) (born_by act.now.step act.now.call.now turn thread.now line) }
        requires free { line_for (holder pass.old).view.generation turn.lines ≡ Some line }
        requires few { turn.started < 18446744073709551615 }
        requires has { HasTurn (holder pass.old) turn false }
        ensures of { SameHeap pass.old pass.new }
        ensures made { holder pass.new ≡ without_turn (with_born (holder pass.old) (born_by act.now.step act.now.call.now turn thread.now line)) }
    {
        let badge = mem::replace(&mut pass.badge, Badge::blank());
        let mut seat: Place<K> = badge.into_seat();
        self.enter_start::<Brand>(&mut seat, turn, line, thread, act.step, act.call);
        pass.badge = seat.into_badge();
    }

    // Lays a row into the pass's own words, which are as many.
    fn lay_row(&self, pass: &mut HeapPass, at: u64, row: &[u64])
        requires of { IsOf self.now pass.old }
        requires own { OwnsOne (holder pass.old) at (length row.now) }
        ensures of { SameHeap pass.old pass.new }
        ensures laid { holder pass.new ≡ with_own (holder pass.old) at row.now }
    {
        'row: for i in 0..row.len() {
            self.store_own(pass, at + i as u64, row[i]);
        }
    }

    /// Starts a thread, and gives the turn back. Where the table has no line for it, the reply is the fault ThreadLimit, and nothing is taken. Full where
    /// there is no room for its words; the call is refused then. Else it is Done, with the thread's number and the reference to it.
    pub fn turn_start<R: Wait>(
        &self,
        rt: &R,
        pass: &mut HeapPass,
        turn: Turn<K>,
        thread: u64,
        generation: u64,
        act: &Act,
    ) -> Answer
        requires of { IsOf self.now pass.old }
        requires thread { thread ≡ (holder pass.old).view.thread }
        requires generation { generation ≡ (holder pass.old).view.generation }
        requires start { IsStart (holder pass.old).view act.now.call.now }
        requires moves_none { items_of act.now.moved.now ≡ [] }
        requires bare { IsBare (holder pass.old) }
        requires going { (holder pass.old).view.ended ≡ false }
        requires has { HasTurn (holder pass.old) turn false }
        ensures of { SameHeap pass.old pass.new }
        ensures answers { StartAnswers (asking act.now) act.now.step act.now.call.now result (holder pass.old) (holder pass.new) }
    {
        let Call::Start(id, _, _) = act.call else {
            unreachable!()
        };
        self.look_table(pass);
        let Some(line) = turn.line_for(generation) else {
            self.start_full(pass, turn, act);
            return Answer::Done(Reply::Failed(Fault::ThreadLimit));
        };
        match self.take(rt, pass, THREAD_WORDS, Some(act)) {
            Take::Full(used) => {
                self.turn_out(pass, turn);
                Answer::Full {
                    used,
                    asked: THREAD_WORDS,
                }
            }
            Take::Got(at) => {
                let number = turn.started() + 1;
                let row = [
                    THREAD_TAG,
                    id.thread,
                    id.serial,
                    number,
                    thread,
                    0,
                    0,
                    line as u64,
                ];
                self.lay_row(pass, at, &row);
                let born = Ref {
                    sort: Sort::Thread,
                    id: *id,
                    at,
                };
                self.start_laid(pass, turn, line, &born, act);
                Answer::Done(Reply::Started(number, born))
            }
        }
    }
}
