// One thing as it is kept.

ghost use Rattle.std.specs.Prelude.{◌≡◌, IfOk};
ghost use Rattle.rb_model.specs.Doing.{doing, seen};
ghost use Rattle.rb_model.specs.Ends.{over};
ghost use Rattle.rb_shared.specs.Step.{waits_on};
ghost use Rattle.thing_store.specs.Counted.{freed_thing, gathers, is_mutex, with_end};
ghost use Rattle.thing_store.specs.Kept.{Acts, HasKeysOnce, thing_of};

use crate::copies::{copied_fields, copied_pairs, copied_values};
use crate::{hashes, lists, mutexes, objects, threads};
use local_heap::{List, list_of, pairs_of};
use ordered_pairs::OrderedPairs;
use rb_model::{Act, End, Field, Reply, Thing, ThreadState};
use std::alloc::{AllocError, Global};

/// A thing that threads share.
#[derive(Drop)]
pub enum Kept {
    /// An object of the class of this number, with its fields in the order of their first writes.
    Object(u32, Vec<Field>),
    List(List),
    Pairs(OrderedPairs),
    /// A mutex with the number of the thread that owns it.
    Mutex(Option<u64>),
    Thread(ThreadState),
}

impl Kept {
    /// What a thing that moves is kept as. No bytes are copied. No thread moves.
    pub fn of(alloc: Global, thing: &Thing) -> Result<Kept, AllocError>
        requires { HasKeysOnce (seen thing.now) }
        ensures { IfOk result (λ kept. thing_of kept ≡ seen thing.now) }
    {
        match thing {
            Thing::Object(class, fields) => Ok(Kept::Object(*class, copied_fields(alloc, fields)?)),
            Thing::Elements(values) => Ok(Kept::List(list_of(
                alloc,
                copied_values(alloc, values)?,
            )?)),
            Thing::Pairs(pairs) => Ok(Kept::Pairs(pairs_of(alloc, copied_pairs(alloc, pairs)?)?)),
            Thing::Mutex(owner) => Ok(Kept::Mutex(*owner)),
            Thing::Thread(_) => Err(AllocError),
        }
    }

    /// Does what a thread asks of this thing.
    pub fn apply(&mut self, alloc: Global, thread: u64, act: Act) -> Result<Reply, AllocError>
        ensures { Acts thread (thing_of self.old) (doing act) result (thing_of self.new) }
    {
        match self {
            Kept::Object(class, fields) => objects::apply(*class, fields, act),
            Kept::List(list) => lists::apply(list, act),
            Kept::Pairs(pairs) => hashes::apply(pairs, alloc, act),
            Kept::Mutex(owner) => mutexes::apply(owner, thread, act),
            Kept::Thread(state) => threads::apply(state, thread, act),
        }
    }

    /// Whether this is a mutex.
    pub fn is_mutex(&self) -> bool
        ensures { result ≡ is_mutex (thing_of self.now) }
    {
        match self {
            Kept::Mutex(_) => true,
            _ => false,
        }
    }

    /// Whether what a thread asks of this thing has to wait.
    pub fn waits(&self, thread: u64, act: &Act) -> bool
        ensures { result ≡ waits_on thread (thing_of self.now) (doing act.now) }
    {
        match (self, act) {
            (Kept::Thread(state), Act::Join) => state.end.is_none() && state.number != thread,
            (Kept::Mutex(Some(owner)), Act::Lock) => *owner != thread,
            _ => false,
        }
    }

    /// Whether what a thread asks of this thing gathers a thread that was not gathered.
    pub fn gathers(&self, thread: u64, act: &Act) -> bool
        ensures { result ≡ gathers thread (Some (thing_of self.now)) (doing act.now) }
    {
        match (self, act) {
            (Kept::Thread(state), Act::Join) => threads::gathers(state, thread),
            _ => false,
        }
    }

    /// Frees this thing, where it is a mutex that a thread owns.
    pub fn free(&mut self, thread: u64)
        ensures { thing_of self.new ≡ freed_thing thread (thing_of self.old) }
    {
        if let Kept::Mutex(owner) = self {
            mutexes::free(owner, thread);
        }
    }

    /// Notes how a thread ended, where this is its thing.
    pub fn end(&mut self, thread: u64, how: End)
        ensures { thing_of self.new ≡ with_end thread (over how) (thing_of self.old) }
    {
        if let Kept::Thread(state) = self {
            threads::end(state, thread, how);
        }
    }
}
