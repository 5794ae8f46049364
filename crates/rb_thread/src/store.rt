// What the walk over a script works on.

use crate::job::Job;
use crate::seat::Seat;
use crate::threaded::Threaded;
use crate::whose::Whose;
use rb_model::{
    Act, Answer, Id, Immediate, Make, Ref, Reply, Served, SharedText, Side, ThreadStore, Value,
};
use rb_tree::NameId;
use shape_core::ShapeStore;
use std::alloc::AllocError;
use std::thread::Threads;
use thread_calls::Due;

impl<
    'e,
    K: Seat + Drop,
    R: Threads,
    T: ShapeStore + Drop,
    Z: Copy + Drop,
    C: Due<K::Pass> + Drop,
    F: Fn(Z, Job, K::Pass) -> C + Drop,
    J: Whose,
> ThreadStore for Threaded<'e, K, R, T, Z, C, F, J> {
    ghost use Rattle.rb_thread.specs.Alive as alive;

    ghost log = { λ t. (K.view t.seat).log };

    ghost private = { λ t. t.things };

    ghost live = { λ t. alive.Alive K.of K.seen C.keeps (λ f z j p. F.pre f z j p) (λ f z j p q. F.post f z j p q)
        J.id J.script J.steps J.job (K.home t.seat) (K.view t.seat) t.things t.number t.known.refs t.kids.0 t.spawn t.again };

    #[inline(always)]
    fn print(&mut self, step: u64, text: SharedText) -> Answer {
        self.say(step, text)
    }

    #[inline(always)]
    fn ask(&mut self, step: u64, thing: Ref, act: Act) -> Served {
        self.ask_any(step, thing, act)
    }

    #[inline(always)]
    fn start(&mut self, step: u64, body: u32, values: Vec<Value>) -> Served {
        self.begin(step, body, values)
    }

    #[inline(always)]
    fn poll(&mut self) {
        self.seat.poll();
    }

    #[inline(always)]
    fn make(&mut self, make: Make) -> Result<Ref, AllocError> {
        self.things.make(make)
    }

    #[inline(always)]
    fn holds(&self, id: Id) -> bool {
        self.things.holds(id)
    }

    #[inline(always)]
    fn element(&self, id: Id, index: i64) -> Option<Value> {
        match self.things.element(id, index) {
            Ok(found) => found,
            Err(_) => None,
        }
    }

    #[inline(always)]
    fn immediate_element(&self, id: Id, index: i64) -> Immediate {
        self.things.immediate_element(id, index)
    }

    #[inline(always)]
    fn list_element(&self, id: Id, index: i64) -> Option<Ref> {
        self.things.list_element(id, index)
    }

    #[inline(always)]
    fn immediate_value(&self, id: Id, key: &Value) -> Immediate {
        self.things.immediate_value(id, key)
    }

    #[inline(always)]
    fn immediate_field(&self, id: Id, name: NameId) -> Immediate {
        self.things.immediate_field(id, name)
    }

    #[inline(always)]
    fn put_immediate(&mut self, id: Id, index: i64, value: Immediate) -> bool {
        self.things.put_immediate(id, index, value)
    }

    #[inline(always)]
    fn push_immediate(&mut self, id: Id, value: Immediate) -> bool {
        match self.things.push_immediate(id, value) {
            Ok(done) => done,
            Err(_) => false,
        }
    }

    #[inline(always)]
    fn take_immediate(&mut self, id: Id, side: Side) -> Immediate {
        self.things.take_immediate(id, side)
    }

    #[inline(always)]
    fn add_to_field(&mut self, id: Id, name: NameId, n: i64) -> Option<i64> {
        self.things.add_to_field(id, name, n)
    }

    #[inline(always)]
    fn apply(&mut self, id: Id, act: Act) -> Result<Reply, AllocError> {
        self.things.apply(id, act)
    }
}
