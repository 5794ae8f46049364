// One thread's store.

ghost use Rattle.std.specs.Prelude.{◌≡◌, ◌<◌, true, false, [], Some, IfSome, IsSome, length, set, slice_get};
ghost use Rattle.rb_model.specs.Acts.{Join};
ghost use Rattle.rb_model.specs.Doing.{doing};
ghost use Rattle.rb_model.specs.Immediates.{reference};
ghost use Rattle.rb_model.specs.Log.{On};
ghost use Rattle.rb_model.specs.Outside.{IsServed};
ghost use Rattle.rb_thread.specs.Kins.{Kin, childless, AreSettled};

use crate::job::Job;
use crate::kids::Kids;
use crate::seat::Seat;
use crate::whose::Whose;
use local_heap::LocalHeap;
use publish_barrier::Known;
use rb_model::{Id, ThreadStore};
use shape_core::ShapeStore;
use std::alloc::Global;
use std::marker::PhantomData;
use std::thread::Threads;
use thread_calls::Due;

/// One thread's store: its pass of the shared one, its private things, the references that it knows, and the threads that it started.
/// `again` and `spawn` start threads.
#[derive(Drop)]
pub struct Threaded<'e, K, R, T: ShapeStore, Z, C, F, J> {
    pub rt: &'e R,
    pub alloc: Global,
    pub seat: K,
    /// The number of the thread.
    pub number: u64,
    pub things: LocalHeap<T>,
    pub known: Known,
    pub kids: Kids<C>,
    pub again: Z,
    pub spawn: F,
    pub whose: PhantomData<J>,
}

impl<
    'e,
    K: Seat + Drop,
    R: Threads,
    T: ShapeStore + Drop,
    Z: Copy + Drop,
    C: Due<K::Pass> + Drop,
    F: Fn(Z, Job, K::Pass) -> C + Drop,
    J: Whose,
> Threaded<'e, K, R, T, Z, C, F, J> {
    /// Takes in the pass of the thread at a place among those that were started, if that was not done. Waits until that thread has ended.
    pub(crate) fn settle(&mut self, place: usize)
        requires live { ⟦<Self as ThreadStore>⟧.live self.old }
        requires inside { place < length self.old.kids.0 }
        ensures live { ⟦<Self as ThreadStore>⟧.live self.new }
        ensures log { (K.view self.new.seat).log ≡ (K.view self.old.seat).log }
        ensures kids { (x : Kin C) × (slice_get self.old.kids.0 place ≡ Some x)
            × (self.new.kids.0 ≡ set self.old.kids.0 place (childless x)) }
        ensures rest { (self.new.number ≡ self.old.number) × (self.new.things ≡ self.old.things) × (self.new.known ≡ self.old.known) }
    {
        if let Some(child) = self.kids.take(place) {
            self.seat.rest();
            let other = child.gather(self.rt);
            self.seat.poll();
            self.seat.join(other);
        }
    }

    /// The same for the thread of an id, if it is one of those that were started.
    pub(crate) fn settle_id(&mut self, id: Id)
        requires live { ⟦<Self as ThreadStore>⟧.live self.old }
        ensures live { ⟦<Self as ThreadStore>⟧.live self.new }
        ensures log { (K.view self.new.seat).log ≡ (K.view self.old.seat).log }
        ensures settled { AreSettled id self.new.kids.0 }
        ensures rest { (self.new.number ≡ self.old.number) × (self.new.things ≡ self.old.things) × (self.new.known ≡ self.old.known) }
    {
        if let Some(place) = self.kids.place_of(self.number, id) {
            self.settle(place);
        }
    }
}
