// What a thread asks of what is shared.

ghost use Rattle.std.specs.Prelude.{◌≡◌, true, false};
ghost use Rattle.rb_model.specs.Acts.{Join};
ghost use Rattle.rb_model.specs.Doing.{doing};
ghost use Rattle.rb_model.specs.Immediates.{reference};
ghost use Rattle.rb_model.specs.Log.{Answers, On, Print};
ghost use Rattle.rb_model.specs.Moving.{refs_in_act};
ghost use Rattle.rb_model.specs.Outside.{IsServed};
ghost use Rattle.rb_shared.specs.Lists.{Has, Each};
ghost use Rattle.rb_shared.specs.Replies.{Serves};
ghost use Rattle.rb_thread.specs.Asking.{is_join, printed_as as printed, tells_end as telling};
ghost use Rattle.publish_barrier.specs.Gathers.{IsAddressed};

use crate::handing::{hand_over, is_joining, receiver_of};
use crate::job::Job;
use crate::seat::Seat;
use crate::telling::take_in;
use crate::threaded::Threaded;
use crate::whose::Whose;
use publish_barrier::{addressed_act, gather_act};
use rb_model::{Act, Call, Ref, Reply, Served, SharedText, ThreadStore};
use rb_shared::Answer;
use shape_core::ShapeStore;
use std::thread::Threads;
use thread_calls::Due;

/// What a print is answered.
fn printed_as(answer: Answer) -> rb_model::Answer
    ensures { result ≡ printed answer }
{
    match answer {
        Answer::Done(_) => rb_model::Answer::Done,
        Answer::SinkFailed => rb_model::Answer::SinkFailed,
        // Never full, as a print needs no room among the shared things.
        Answer::Full { .. } => rb_model::Answer::Memory,
        Answer::Memory => rb_model::Answer::Memory,
    }
}

/// Whether the end of a thread is told.
pub(crate) fn tells_end(answer: &Answer) -> bool
    ensures { result ≡ telling answer.now }
{
    match answer {
        Answer::Done(Reply::Ended(_)) => true,
        _ => false,
    }
}

impl<
    'e,
    K: Seat + Drop,
    R: Threads,
    T: ShapeStore + Drop,
    Z: Copy + Drop,
    C: Due<K::Pass> + Drop,
    F: Fn(Z, Job, K::Pass) -> C + Drop,
    J: Whose,
> Threaded<'e, K, R, T, Z, C, F, J> {
    /// Prints a text.
    pub(crate) fn say(&mut self, step: u64, text: SharedText) -> rb_model::Answer
        requires live { ⟦<Self as ThreadStore>⟧.live self.old }
        ensures live { ⟦<Self as ThreadStore>⟧.live self.new }
        ensures private { self.new.things ≡ self.old.things }
        ensures answers { Answers result step (Print text) (K.view self.old.seat).log (K.view self.new.seat).log }
    {
        printed_as(self.seat.ask(step, &Call::Print(text)))
    }

    /// Waits for the end of a thread, by a noted reference.
    fn join(&mut self, step: u64, thing: Ref) -> Served
        requires live { ⟦<Self as ThreadStore>⟧.live self.old }
        requires known { Has self.old.known.refs thing }
        requires serves { Serves thing.sort Join }
        ensures live { ⟦<Self as ThreadStore>⟧.live self.new }
        ensures served { IsServed result step (On (reference thing) Join)
            (K.view self.old.seat).log (K.view self.new.seat).log self.old.things self.new.things }
    {
        self.settle_id(thing.id);
        let answer = self.seat.ask(step, &Call::On(thing, Act::Join));
        if tells_end(&answer) {
            self.kids.mark_id(self.number, thing.id);
            return take_in(&mut self.known, answer);
        }
        take_in(&mut self.known, answer)
    }

    /// Asks something else of a thing, by a noted reference. What it hands over is as it may be handed over, and what that mentions moves.
    /// Where there is no memory for that, nothing is asked.
    fn ask_act(&mut self, step: u64, thing: Ref, act: Act) -> Served
        requires live { ⟦<Self as ThreadStore>⟧.live self.old }
        requires known { Has self.old.known.refs thing }
        requires serves { Serves thing.sort (doing act) }
        requires other { is_join (doing act) ≡ false }
        requires addressed { Each (IsAddressed self.old.things self.old.known.refs) (refs_in_act act) }
        ensures live { ⟦<Self as ThreadStore>⟧.live self.new }
        ensures served { IsServed result step (On (reference thing) (doing act))
            (K.view self.old.seat).log (K.view self.new.seat).log self.old.things self.new.things }
    {
        let Ok(moved) = gather_act(self.alloc, &self.things, &self.known, &act) else {
            return Served::Memory;
        };
        if let Err(_) = self.known.reserve(moved.len()) {
            return Served::Memory;
        }
        let call = Call::On(thing, act);
        let answer = hand_over(
            &mut self.seat,
            &mut self.things,
            &mut self.known,
            step,
            &call,
            moved,
        );
        take_in(&mut self.known, answer)
    }

    /// Asks something of a thing that is not private here. Where a reference is neither private nor noted, or there is no memory for what
    /// moves, nothing is asked, and that is want of memory.
    pub(crate) fn ask_any(&mut self, step: u64, thing: Ref, act: Act) -> Served
        requires live { ⟦<Self as ThreadStore>⟧.live self.old }
        ensures live { ⟦<Self as ThreadStore>⟧.live self.new }
        ensures served { IsServed result step (On (reference thing) (doing act))
            (K.view self.old.seat).log (K.view self.new.seat).log self.old.things self.new.things }
    {
        let Some(receiver) = receiver_of(&self.known, thing, &act) else {
            return Served::Memory;
        };
        if is_joining(&act) {
            return self.join(step, receiver);
        }
        let Some(act) = addressed_act(&self.things, &self.known, act) else {
            return Served::Memory;
        };
        self.ask_act(step, receiver, act)
    }
}
