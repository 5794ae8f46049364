// The things of all threads, with the plain step.

ghost use Rattle.std.specs.Prelude.{◌≡◌, ◌++◌, ◌∷◌, [], map, take, drop, true, false, IfOk, OnOk, OnErr, IsOk};
ghost use Rattle.rb_model.specs.Acts.{Done};
ghost use Rattle.rb_model.specs.Doing.{doing, said};
ghost use Rattle.rb_model.specs.Ends.{over};
ghost use Rattle.rb_model.specs.Private.{Item};
ghost use Rattle.rb_model.specs.Log.{Start as Starts, End as Last, asked, is_sure};
ghost use Rattle.rb_model.specs.Moving.{item_of, items_of};
ghost use Rattle.rb_shared.specs.Lists.{Each};
ghost use Rattle.rb_shared.specs.Asking.{MayMove};
ghost use Rattle.rb_shared.specs.Store.{opening, found, is_there, threads};
ghost use Rattle.rb_shared.specs.Step.{AreNew, ended_item, reply_of, reply_to, store_behind, waits, with_act};
ghost use Rattle.thing_store.specs.Counted.{IsLonger, StartsNew};

use crate::copies::{copied_act, copied_end};
use crate::kept::Kept;
use crate::table::Things;
use crate::threads::Started;
use rb_model::{Act, Call, End, Fault, Id, Moved, MovedItem, Ref, Reply, Sort, ThreadState};
use std::alloc::{AllocError, Global};
use std::marker::Model;

/// The things that threads share. Contracts see the plain store.
#[derive(Drop)]
pub struct ThingStore {
    alloc: Global,
    things: Things,
    started: Started,
}

impl Model for ThingStore {
    ghost use Rattle.rb_shared.specs.Store.{Store};
    ghost use Rattle.thing_store.specs.Counted.{IsCounted};

    ghost Value = { Store };

    ghost view = { λ s. s.things };

    ghost invariant = { λ s. IsCounted s.things s.started.rows.items s.started.ungathered };
}

impl ThingStore {
    /// The global variables alone.
    pub fn new(alloc: Global) -> Result<ThingStore, AllocError>
        ensures { IfOk result (λ store. store ≡ opening) }
    {
        let mut things = Things::new(alloc);
        let globals = Id {
            thread: 0,
            serial: 0,
        };
        things.add(globals, Kept::Object(u32::MAX, Vec::new(alloc)))?;
        Ok(ThingStore {
            alloc,
            things,
            started: Started::new(alloc)?,
        })
    }

    /// Whether a call of a thread has to wait, with the things that move. None of those keeps the thread waiting.
    pub fn must_wait(&self, thread: u64, call: &Call, moved: &Moved) -> bool
        requires { Each (λ (x : Item). MayMove thread x.thing) (items_of moved.now) }
        ensures { result ≡ waits (self.now ++ items_of moved.now) thread (asked call.now) }
    {
        let _ = moved;
        match call {
            Call::On(thing, act) => self.things.waits(thread, thing.id, act),
            Call::Gather(other) => self.things.waits(thread, other.id, &Act::Join),
            _ => false,
        }
    }

    /// The plain step of a call, once the things that move are there. Where memory is refused, all is as it was. An end that is no value, and
    /// moves nothing, wants none.
    pub fn apply(
        &mut self,
        slots: u64,
        thread: u64,
        call: &Call,
        moved: &Moved,
    ) -> Result<Reply, AllocError>
        requires new { AreNew self.old (items_of moved.now) }
        requires things { Each (λ (x : Item). MayMove thread x.thing) (items_of moved.now) }
        requires starts { StartsNew (self.old ++ items_of moved.now) (asked call.now) }
        ensures reply { IfOk result (λ reply. said reply ≡ reply_to slots (self.old ++ items_of moved.now) thread (asked call.now)) }
        ensures store { OnOk result (self.new ≡ store_behind slots (self.old ++ items_of moved.now) thread (asked call.now)) }
        ensures err { OnErr result (self.new ≡ self.old) }
        ensures sure { is_sure (asked call.now) ≡ true → moved.now ≡ [] → IsOk result }
    {
        let before = self.things.len();
        match self.take_in_and_answer(slots, thread, call, moved) {
            Ok(reply) => Ok(reply),
            Err(_) => {
                self.cut(before);
                Err(AllocError)
            }
        }
    }

    /// The same, where things may stay that memory was refused behind.
    fn take_in_and_answer(
        &mut self,
        slots: u64,
        thread: u64,
        call: &Call,
        moved: &Moved,
    ) -> Result<Reply, AllocError>
        requires new { AreNew self.old (items_of moved.now) }
        requires things { Each (λ (x : Item). MayMove thread x.thing) (items_of moved.now) }
        requires starts { StartsNew (self.old ++ items_of moved.now) (asked call.now) }
        ensures reply { IfOk result (λ reply. said reply ≡ reply_to slots (self.old ++ items_of moved.now) thread (asked call.now)) }
        ensures store { OnOk result (self.new ≡ store_behind slots (self.old ++ items_of moved.now) thread (asked call.now)) }
        ensures err { OnErr result (IsLonger self.old self.new) }
        ensures sure { is_sure (asked call.now) ≡ true → moved.now ≡ [] → IsOk result }
    {
        self.take_in(thread, moved)?;
        self.answer(slots, thread, call)
    }

    /// Lays the things that move behind the others.
    fn take_in(&mut self, thread: u64, moved: &Moved) -> Result<(), AllocError>
        requires new { AreNew self.old (items_of moved.now) }
        requires things { Each (λ (x : Item). MayMove thread x.thing) (items_of moved.now) }
        ensures ok { OnOk result (self.new ≡ self.old ++ items_of moved.now) }
        ensures err { OnErr result (IsLonger self.old self.new) }
        ensures sure { moved.now ≡ [] → IsOk result }
    {
        'moved: for number in 0..moved.len() {
            if let Some(item) = moved.get(number) {
                self.lay(thread, item)?;
            }
        }
        Ok(())
    }

    /// Lays one thing that moves behind the others.
    fn lay(&mut self, thread: u64, item: &MovedItem) -> Result<(), AllocError>
        requires new { is_there self.old item.now.id ≡ false }
        requires may { MayMove thread (item_of item.now).thing }
        ensures ok { OnOk result (self.new ≡ self.old ++ item_of item.now ∷ []) }
        ensures err { OnErr result (self.new ≡ self.old) }
    {
        let _ = thread;
        let kept = Kept::of(self.alloc, &item.thing)?;
        self.things.add(item.id, kept)
    }

    /// Takes things that moved back out.
    fn cut(&mut self, count: usize)
        requires { threads (drop count self.old) ≡ [] }
        ensures { self.new ≡ take count self.old }
    {
        self.things.truncate(count);
    }

    /// The plain step of a call that moves nothing.
    fn answer(&mut self, slots: u64, thread: u64, call: &Call) -> Result<Reply, AllocError>
        requires { StartsNew self.old (asked call.now) }
        ensures reply { IfOk result (λ reply. said reply ≡ reply_to slots self.old thread (asked call.now)) }
        ensures store { OnOk result (self.new ≡ store_behind slots self.old thread (asked call.now)) }
        ensures err { OnErr result (self.new ≡ self.old) }
        ensures sure { is_sure (asked call.now) ≡ true → IsOk result }
    {
        match call {
            Call::On(thing, act) => self.act(thread, thing.id, copied_act(act)?),
            Call::Start(id, _, _) => self.start(slots, thread, *id),
            Call::Gather(other) => self.act(thread, other.id, Act::Join),
            Call::Print(_) => Ok(Reply::Done),
            Call::End(how) => self.end(thread, how),
        }
    }

    /// Does what a thread asks of a thing.
    fn act(&mut self, thread: u64, id: Id, act: Act) -> Result<Reply, AllocError>
        ensures reply { IfOk result (λ reply. said reply ≡ reply_of thread (found self.old id) (doing act)) }
        ensures store { OnOk result (self.new ≡ with_act thread self.old id (found self.old id) (doing act)) }
        ensures err { OnErr result (self.new ≡ self.old) }
    {
        let gathers = self.things.gathers(thread, id, &act);
        let reply = self.things.apply(self.alloc, thread, id, act)?;
        if gathers {
            self.started.ungathered -= 1;
        }
        Ok(reply)
    }

    /// Starts a thread, where there is a slot for it.
    fn start(&mut self, slots: u64, thread: u64, id: Id) -> Result<Reply, AllocError>
        requires { is_there self.old id ≡ false }
        ensures reply { IfOk result (λ reply. said reply ≡ reply_to slots self.old thread (Starts id 0 [])) }
        ensures store { OnOk result (self.new ≡ store_behind slots self.old thread (Starts id 0 [])) }
        ensures err { OnErr result (self.new ≡ self.old) }
    {
        if self.started.is_full(slots, thread) {
            return Ok(Reply::Failed(Fault::ThreadLimit));
        }
        let number = self.started.rows.len() as u64;
        let place = self.things.len();
        // Room comes first, so that nothing fails once the thing is there.
        self.started.reserve()?;
        self.things.add(id, running(number, thread))?;
        self.started.add(thread, place);
        Ok(Reply::Started(number, thread_at(id)))
    }

    /// Ends a thread: its thing knows how, and its mutexes are free.
    fn end(&mut self, thread: u64, how: &End) -> Result<Reply, AllocError>
        ensures reply { IfOk result (λ reply. said reply ≡ Done) }
        ensures store { OnOk result (self.new ≡ map (ended_item thread (over how.now)) self.old) }
        ensures err { OnErr result (self.new ≡ self.old) }
        ensures sure { is_sure (Last (over how.now)) ≡ true → IsOk result }
    {
        let copy = copied_end(how)?;
        self.things.free(thread);
        self.things.end_at(self.started.place(thread), thread, copy);
        Ok(Reply::Done)
    }
}

/// The thing of a thread that runs.
fn running(number: u64, maker: u64) -> Kept
    ensures { result ≡ Kept.Thread (record { number = number; maker = maker; gathered = false; end = None }) }
{
    Kept::Thread(ThreadState {
        number,
        maker,
        gathered: false,
        end: None,
    })
}

/// A reference to a thread. It needs no place.
fn thread_at(id: Id) -> Ref
    ensures { result ≡ record { sort = Sort.Thread; id = id; at = 0 } }
{
    Ref {
        sort: Sort::Thread,
        id,
        at: 0,
    }
}
