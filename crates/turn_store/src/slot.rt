// What the turn gives: the things and the sink, which one thread at a time has.

ghost use Rattle.std.specs.Prelude.{◌≡◌, ℕ, true, false, IfOk, IfErr};
ghost use Rattle.rb_model.specs.Log.{asked, is_sure};
ghost use Rattle.rb_model.specs.Log as log;
ghost use Rattle.rb_shared.specs.Store.{opening};
ghost use Rattle.turn_store.specs.Slot.{Attempts, GathersAnother, MayTry, Prints, with_moved};
ghost use Rattle.turn_store.specs.Slot as slot;

use rb_edge::{Sink, write_all};
use rb_model::{Call, End, Moved, Reply, SharedText};
use std::alloc::Global;
use thing_store::ThingStore;

/// The things that threads share, and the sink that they print to.
#[derive(Drop)]
pub struct Slot<K> {
    pub things: ThingStore,
    pub out: K,
    /// Whether the sink has refused a print. Nothing is written from then on.
    pub failed: bool,
}

/// What came of a look at the slot.
#[derive(Drop)]
pub enum Attempt {
    /// The call was made.
    Done(Reply),
    /// It has to wait.
    Waits,
    /// The sink failed, now or before.
    SinkFailed,
    /// Want of memory.
    Memory,
}

/// The number of another thread.
fn another(thread: u64) -> u64
    ensures { result ≡ slot.another thread }
{
    if thread == 0 { 1 } else { 0 }
}

/// Whether a call is an end that is no value.
fn is_sure_end(call: &Call) -> bool
    ensures { result ≡ is_sure (asked call.now) }
{
    match call {
        Call::End(End::Value(_)) => false,
        Call::End(_) => true,
        _ => false,
    }
}

impl<K: Sink> Slot<K> {
    /// The global variables alone. The sink comes back where there is no memory.
    pub fn new(alloc: Global, out: K) -> Result<Slot<K>, K>
        ensures things { IfOk result (λ slot. slot.things ≡ opening) }
        ensures sink { IfOk result (λ slot. (slot.out ≡ out) × (slot.failed ≡ false)) }
        ensures back { IfErr result (λ sink. sink ≡ out) }
    {
        match ThingStore::new(alloc) {
            Ok(things) => Ok(Slot {
                things,
                out,
                failed: false,
            }),
            Err(_) => Err(out),
        }
    }

    /// The sink.
    pub fn into_out(self) -> K
        ensures { result ≡ self.out }
    {
        let Slot {
            things: _,
            out,
            failed: _,
        } = self;
        out
    }

    /// Makes a call, where it can be made now.
    pub fn attempt(&mut self, slots: u64, thread: u64, call: &Call, moved: &Moved) -> Attempt
        requires may { MayTry self.old.things thread call.now moved.now }
        ensures { Attempts K.told K.faults slots thread call.now moved.now result self.old self.new }
    {
        match call {
            Call::Print(text) => self.print(text, moved),
            _ => self.apply(slots, thread, call, moved),
        }
    }

    /// Writes a text whole. Nothing moves with a print.
    fn print(&mut self, text: &SharedText, moved: &Moved) -> Attempt
        ensures { Prints K.told K.faults text.now moved.now result self.old self.new }
    {
        if !moved.is_empty() {
            return Attempt::Memory;
        }
        if self.failed {
            return Attempt::SinkFailed;
        }
        match write_all(&mut self.out, text.as_slice()) {
            Ok(()) => Attempt::Done(Reply::Done),
            Err(_) => self.fail(),
        }
    }

    /// Notes that the sink has refused a print.
    fn fail(&mut self) -> Attempt
        ensures answer { result ≡ Attempt.SinkFailed }
        ensures failed { self.new.failed ≡ true }
        ensures same { (self.new.things ≡ self.old.things) × (self.new.out ≡ self.old.out) }
    {
        self.failed = true;
        Attempt::SinkFailed
    }

    /// Makes a call that prints nothing, where it can be made now. An end that is no value waits for memory.
    fn apply(&mut self, slots: u64, thread: u64, call: &Call, moved: &Moved) -> Attempt
        requires may { MayTry self.old.things thread call.now moved.now }
        requires silent { log.is_print (asked call.now) ≡ false }
        ensures { Attempts K.told K.faults slots thread call.now moved.now result self.old self.new }
    {
        if self.things.must_wait(thread, call, moved) {
            return Attempt::Waits;
        }
        if !self.gathers_another(thread, call, moved) {
            return Attempt::Memory;
        }
        match self.things.apply(slots, thread, call, moved) {
            Ok(reply) => Attempt::Done(reply),
            Err(_) => {
                if is_sure_end(call) {
                    Attempt::Waits
                } else {
                    Attempt::Memory
                }
            }
        }
    }

    /// Whether a call does not take over the end of its own thread, for which another thread would have to wait. Nothing moves with a call
    /// that takes over an end.
    fn gathers_another(&self, thread: u64, call: &Call, moved: &Moved) -> bool
        ensures another { result ≡ true → GathersAnother (with_moved self.now.things moved.now) thread (asked call.now) }
        ensures sure { is_sure (asked call.now) ≡ true → result ≡ true }
    {
        match call {
            Call::Gather(_) => {
                moved.is_empty() && !self.things.must_wait(another(thread), call, moved)
            }
            _ => true,
        }
    }
}
