// How a thread begins.

ghost use Rattle.std.specs.Prelude.{◌≡◌, []};
ghost use Rattle.rb_model.specs.Ends.{Memory};
ghost use Rattle.rb_model.specs.Log.{fresh as no_log};
ghost use Rattle.rb_model.specs.Private.{bare};
ghost use Rattle.rb_shared.specs.Asking.{Knows};
ghost use Rattle.rb_shared.specs.Lists.{Each};
ghost use Rattle.rb_thread.specs.Alive.{Left, Spawns};
ghost use Rattle.rb_thread.specs.Family.{Fresh, number_of};

use crate::job::Job;
use crate::kids::Kids;
use crate::seat::Seat;
use crate::threaded::Threaded;
use crate::whose::Whose;
use local_heap::LocalHeap;
use publish_barrier::Known;
use rb_model::{Call, End, ThreadStore};
use shape_core::ShapeStore;
use std::alloc::Global;
use std::marker::PhantomData;
use std::thread::Threads;
use thread_calls::Due;

impl<
    'e,
    K: Seat + Drop,
    R: Threads,
    T: ShapeStore + Drop,
    Z: Copy + Drop,
    C: Due<K::Pass> + Drop,
    F: Fn(Z, Job, K::Pass) -> C + Drop,
    J: Whose,
> Threaded<'e, K, R, T, Z, C, F, J> {
    /// The store of the thread of this number before its first step, with a heap that has no thing yet. It has noted the references that
    /// its job gives it; its pass knows them.
    pub fn new(
        rt: &'e R,
        alloc: Global,
        seat: K,
        number: u64,
        things: LocalHeap<T>,
        known: Known,
        again: Z,
        spawn: F,
    ) -> Self
        requires home { K.home seat ≡ J.id }
        requires numbered { number ≡ number_of J.job }
        requires things { things ≡ bare number }
        requires fresh { Fresh J.script J.steps J.job (K.view seat) }
        requires known { Each (Knows (K.view seat)) known.refs }
        requires spawns { Spawns K.of K.seen C.keeps (λ f z j p. F.pre f z j p) (λ f z j p q. F.post f z j p q)
            J.id J.script J.steps (K.view seat) spawn again }
        ensures live { ⟦<Self as ThreadStore>⟧.live result }
        ensures log { (K.view result.seat).log ≡ no_log }
        ensures private { result.things ≡ bare number }
    {
        let mut seat = seat;
        seat.poll();
        Threaded {
            rt,
            alloc,
            seat,
            number,
            things,
            known,
            kids: Kids::new(alloc),
            again,
            spawn,
            whose: PhantomData,
        }
    }
}

/// Ends a thread that has no memory to begin its work.
pub fn give_up<K: Seat, J: Whose>(seat: K) -> K
    requires fresh { Fresh J.script J.steps J.job (K.view seat) }
    ensures home { K.home result ≡ K.home seat }
    ensures left { Left J.script J.steps J.job [] (K.view result) Memory }
{
    let mut own = seat;
    own.poll();
    own.ask(0, &Call::End(End::Memory));
    own
}
