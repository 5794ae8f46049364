// How a thread ends.

ghost use Rattle.std.specs.Prelude.{◌≡◌, ◌<◌, true, false, length};
ghost use Rattle.rb_model.specs.Ends.{over};
ghost use Rattle.rb_model.specs.Ends as ending;
ghost use Rattle.rb_model.specs.Values.{plain};
ghost use Rattle.rb_model.specs.Log.{End as Ended, is_sure};
ghost use Rattle.rb_machine.specs.Follows.{Tail};
ghost use Rattle.rb_thread.specs.Alive.{Closes, Ends, Gathers, ended_view};
ghost use Rattle.rb_thread.specs.Kins.{AreCleared, ChangesAt, waits};

use crate::ends::{closing, either, end_in, end_told, later};
use crate::handing::hand_over;
use crate::job::Job;
use crate::seat::Seat;
use crate::threaded::Threaded;
use crate::whose::Whose;
use publish_barrier::{addressed, gather_value};
use rb_model::{Call, End, ThreadStore, Value};
use rb_shared::Answer;
use shape_core::ShapeStore;
use std::thread::Threads;
use thread_calls::Due;

/// What a thread leaves that has ended: its pass, how it ended, and the shapes that its objects have had.
#[derive(Drop)]
pub struct Finished<K, T> {
    pub seat: K,
    pub end: End,
    pub shapes: T,
}

impl<
    'e,
    K: Seat + Drop,
    R: Threads,
    T: ShapeStore + Drop,
    Z: Copy + Drop,
    C: Due<K::Pass> + Drop,
    F: Fn(Z, Job, K::Pass) -> C + Drop,
    J: Whose,
> Threaded<'e, K, R, T, Z, C, F, J> {
    /// Takes over the end of the thread at a place among those that were started, if that was not done. The end so far, and whether this
    /// one was left out for want of memory.
    fn gather(&mut self, step: u64, end: End, place: usize) -> (End, bool)
        requires live { ⟦<Self as ThreadStore>⟧.live self.old }
        requires inside { place < length self.old.kids.0 }
        ensures live { ⟦<Self as ThreadStore>⟧.live self.new }
        ensures kids { ChangesAt place self.old.kids.0 self.new.kids.0 }
        ensures gathers { Gathers step place self.old.kids.0 (K.view self.old.seat).log (over end)
            (K.view self.new.seat).log (over result.0) result.1 }
        ensures things { self.new.things ≡ self.old.things }
    {
        self.settle(place);
        if !self.kids.is_waiting(place) {
            return (end, false);
        }
        let thing = self.kids.thing(place);
        let answer = self.seat.ask(step, &Call::Gather(thing));
        match end_told(answer) {
            Some(how) => {
                self.kids.mark(place);
                (later(end, how), false)
            }
            None => (end, true),
        }
    }

    /// Takes over the ends of all threads that were started, in that order, but those that were taken over before.
    fn gather_all(&mut self, step: u64, end: End) -> (End, bool)
        requires live { ⟦<Self as ThreadStore>⟧.live self.old }
        ensures live { ⟦<Self as ThreadStore>⟧.live self.new }
        ensures cleared { AreCleared (length self.new.kids.0) self.new.kids.0 }
        ensures tail { Tail step (K.view self.old.seat).log (over end) (waits self.old.kids.0)
            (K.view self.new.seat).log (over result.0) result.1 }
        ensures things { self.new.things ≡ self.old.things }
    {
        let mut last = end;
        let mut lacking = false;
        let len = self.kids.len();
        'kids: for place in 0..len {
            let (next, left) = self.gather(step, last, place);
            last = next;
            lacking = either(lacking, left);
        }
        (last, lacking)
    }

    /// Makes the last entry, of an end that is no value.
    fn end_surely(&mut self, step: u64, end: End) -> End
        requires going { (K.view self.old.seat).ended ≡ false }
        requires polled { (K.view self.old.seat).polled ≡ true }
        requires sure { is_sure (Ended (over end)) ≡ true }
        ensures home { K.home self.new.seat ≡ K.home self.old.seat }
        ensures view { K.view self.new.seat ≡ ended_view step (K.view self.old.seat) (over end) }
        ensures end { over result ≡ over end }
        ensures things { self.new.things ≡ self.old.things }
    {
        let call = Call::End(end);
        self.seat.ask(step, &call);
        end_in(call)
    }

    /// Makes the last entry, of a value. What it mentions moves. Where there is no memory for that, or the value cannot be told, it is an end
    /// by want of memory or by the full heap.
    fn close_value(&mut self, step: u64, value: Value) -> End
        requires live { ⟦<Self as ThreadStore>⟧.live self.old }
        ensures home { K.home self.new.seat ≡ J.id }
        ensures closes { Closes step self.old.things (ending.Value (plain value)) (K.view self.old.seat) (K.view self.new.seat)
            (over result) self.new.things }
    {
        let Some(value) = addressed(&self.things, &self.known, value) else {
            return self.end_surely(step, End::Memory);
        };
        let Ok(moved) = gather_value(self.alloc, &self.things, &self.known, &value) else {
            return self.end_surely(step, End::Memory);
        };
        if let Err(_) = self.known.reserve(moved.len()) {
            return self.end_surely(step, End::Memory);
        }
        let call = Call::End(End::Value(value));
        let answer = hand_over(
            &mut self.seat,
            &mut self.things,
            &mut self.known,
            step,
            &call,
            moved,
        );
        match answer {
            Answer::Done(_) => end_in(call),
            Answer::Full { used, asked } => self.end_surely(step, End::Full { used, asked }),
            Answer::Memory => self.end_surely(step, End::Memory),
            Answer::SinkFailed => unreachable!(),
        }
    }

    /// Makes the last entry.
    fn close(&mut self, step: u64, end: End) -> End
        requires live { ⟦<Self as ThreadStore>⟧.live self.old }
        ensures home { K.home self.new.seat ≡ J.id }
        ensures closes { Closes step self.old.things (over end) (K.view self.old.seat) (K.view self.new.seat)
            (over result) self.new.things }
    {
        match end {
            End::Value(value) => self.close_value(step, value),
            other => self.end_surely(step, other),
        }
    }

    /// Ends the thread, which came to its own end at this step: takes over the ends of the threads that it started, and makes the last
    /// entry. A thread that came to its end by itself has then done what the reference thread does, and all that it knows to have ended
    /// have.
    pub fn finish(self, step: u64, end: End) -> Finished<K, T>
        requires live { ⟦<Self as ThreadStore>⟧.live self }
        ensures home { K.home result.seat ≡ J.id }
        ensures ends { Ends J.script J.steps J.job (K.view self.entry.seat).log self.entry.things step (over end)
            (K.view result.seat) (over result.end) }
        ensures shapes { T.shapes result.shapes ≡ self.entry.things.shapes }
    {
        let mut own = self;
        let (last, lacking) = own.gather_all(step, end);
        let end = own.close(step, closing(last, lacking));
        let Threaded { seat, things, .. } = own;
        Finished {
            seat,
            end,
            shapes: things.into_shapes(),
        }
    }
}
