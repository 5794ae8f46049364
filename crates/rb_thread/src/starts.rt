// How a thread starts others.

ghost use Rattle.std.specs.Prelude.{◌≡◌, true, length, map};
ghost use Rattle.rb_model.specs.Log.{Start};
ghost use Rattle.rb_model.specs.Outside.{IsServed, starting};
ghost use Rattle.rb_model.specs.Started.{thread_id};
ghost use Rattle.rb_model.specs.Moving.{refs_in_all};
ghost use Rattle.rb_model.specs.Values.{plain};
ghost use Rattle.rb_shared.specs.Lists.{Each};
ghost use Rattle.rb_thread.specs.Asking.{number_in, HasRoomFor, IsJobIn};
ghost use Rattle.publish_barrier.specs.Gathers.{IsAddressed};

use crate::handing::hand_over;
use crate::job::Job;
use crate::kids::{FIRST, MOST};
use crate::seat::Seat;
use crate::telling::{found_in, take_in};
use crate::threaded::Threaded;
use crate::whose::Whose;
use publish_barrier::{Known, addressed_all, gather};
use rb_model::{Call, Id, Ref, Reply, Served, ThreadStore, Value};
use rb_shared::Answer;
use shape_core::ShapeStore;
use std::thread::Threads;
use thread_calls::Due;

/// The number and the thing of the thread that was started.
fn started_in(answer: &Answer) -> Option<(u64, Ref)>
    ensures { result ≡ number_in answer.now }
{
    match answer {
        Answer::Done(Reply::Started(number, thing)) => Some((*number, *thing)),
        _ => None,
    }
}

/// The job of the thread of this number, which the call started. It knows the noted references to what its values mention, for which there
/// is room.
fn job_in(known: &Known, call: Call, number: u64, room: Vec<Ref>) -> Option<Job>
    requires room { HasRoomFor call room }
    ensures { IsJobIn known.now.refs call number result }
{
    match call {
        Call::Start(_, body, values) => Some(Job {
            number,
            body,
            refs: found_in(known, values.as_slice(), room),
            values,
        }),
        _ => None,
    }
}

impl<
    'e,
    K: Seat + Drop,
    R: Threads,
    T: ShapeStore + Drop,
    Z: Copy + Drop,
    C: Due<K::Pass> + Drop,
    F: Fn(Z, Job, K::Pass) -> C + Drop,
    J: Whose,
> Threaded<'e, K, R, T, Z, C, F, J> {
    /// Starts a thread that runs a body with values, which are as they may be handed over. What they mention moves. There is room for one
    /// thread more; where there is no memory for what moves, none is started.
    fn launch(&mut self, step: u64, id: Id, body: u32, values: Vec<Value>) -> Served
        requires live { ⟦<Self as ThreadStore>⟧.live self.old }
        requires room { self.old.kids.1 ≡ true }
        requires next { id ≡ thread_id self.old.number (length self.old.kids.0) }
        requires addressed { Each (IsAddressed self.old.things self.old.known.refs) (refs_in_all values.items) }
        ensures live { ⟦<Self as ThreadStore>⟧.live self.new }
        ensures served { IsServed result step (Start id body (map plain values.items))
            (K.view self.old.seat).log (K.view self.new.seat).log self.old.things self.new.things }
    {
        let Ok(moved) = gather(self.alloc, &self.things, &self.known, values.as_slice()) else {
            return Served::Memory;
        };
        if let Err(_) = self.known.reserve(moved.len()) {
            return Served::Memory;
        }
        let Ok(room) = Vec::with_capacity(self.alloc, values.len()) else {
            return Served::Memory;
        };
        let call = Call::Start(id, body, values);
        let answer = hand_over(
            &mut self.seat,
            &mut self.things,
            &mut self.known,
            step,
            &call,
            moved,
        );
        let Some((number, thing)) = started_in(&answer) else {
            return take_in(&mut self.known, answer);
        };
        let Some(job) = job_in(&self.known, call, number, room) else {
            unreachable!()
        };
        let next = self.seat.split();
        self.seat.rest();
        let child = (self.spawn)(self.again, job, next);
        self.seat.poll();
        self.kids.push(number, thing, child);
        take_in(&mut self.known, answer)
    }

    /// Starts a thread that runs a body with values. Where a reference is neither private nor noted, or there is no memory for what moves or
    /// for one thread more, none is started, and that is want of memory.
    pub(crate) fn begin(&mut self, step: u64, body: u32, values: Vec<Value>) -> Served
        requires live { ⟦<Self as ThreadStore>⟧.live self.old }
        ensures live { ⟦<Self as ThreadStore>⟧.live self.new }
        ensures served { IsServed result step (starting self.old.things (K.view self.old.seat).log body values.items)
            (K.view self.old.seat).log (K.view self.new.seat).log self.old.things self.new.things }
    {
        let Some(values) = addressed_all(&self.things, &self.known, values) else {
            return Served::Memory;
        };
        if let Err(_) = self.kids.reserve() {
            return Served::Memory;
        }
        let count = self.kids.len();
        if count >= MOST {
            return Served::Memory;
        }
        let id = Id {
            thread: self.number,
            serial: FIRST + count as u64,
        };
        self.launch(step, id, body, values)
    }
}
