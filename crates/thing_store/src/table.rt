// The things by their ids.

ghost use Rattle.std.specs.Prelude.{◌≡◌, ◌++◌, ◌∷◌, [], length, map, take, false, IfOk, OnOk, OnErr};
ghost use Rattle.std.specs.Option.{option_map};
ghost use Rattle.rb_model.specs.Doing.{doing, said};
ghost use Rattle.rb_model.specs.Ends.{over};
ghost use Rattle.rb_shared.specs.Store.{found, is_there};
ghost use Rattle.rb_shared.specs.Step.{reply_of, with_act, is_waiting};
ghost use Rattle.thing_store.specs.Kept.{item_of, thing_of};
ghost use Rattle.thing_store.specs.Counted.{mutex_places, freed_item, with_end_in, gathers as gathers_by};

use crate::kept::Kept;
use indexmap::IndexMap;
use rb_model::{Act, End, Fault, Id, Reply};
use std::alloc::{AllocError, Global};
use std::marker::Model;

/// An id, as it is looked up.
#[derive(Clone, Copy, PartialEq, Eq, Hash)]
pub struct Key {
    pub thread: u64,
    pub serial: u64,
}

/// Things by their ids, in the order in which they came, and the places of the mutexes among them. Contracts see the plain store.
#[derive(Drop)]
pub struct Things {
    rows: IndexMap<Key, Kept>,
    mutexes: Vec<usize>,
}

impl Model for Things {
    ghost use Rattle.std.specs.Prelude.{◌≡◌, map};
    ghost use Rattle.rb_shared.specs.Store.{Store};
    ghost use Rattle.thing_store.specs.Counted.{mutex_places};
    ghost use Rattle.thing_store.specs.Kept.{item_of};

    ghost Value = { Store };

    ghost view = { λ t. map item_of t.rows.entries };

    ghost invariant = { λ t. t.mutexes.items ≡ mutex_places (map item_of t.rows.entries) };
}

fn key_of(id: Id) -> Key
    ensures { result ≡ record { thread = id.thread; serial = id.serial } }
{
    Key {
        thread: id.thread,
        serial: id.serial,
    }
}

/// Frees the mutexes at these places that a thread owns.
fn free_all(rows: &mut IndexMap<Key, Kept>, places: &[usize], thread: u64)
    requires { places.now ≡ mutex_places (map item_of rows.old.entries) }
    ensures { map item_of rows.new.entries ≡ map (freed_item thread) (map item_of rows.old.entries) }
{
    'places: for place in places {
        rows[*place].free(thread);
    }
}

impl Things {
    /// No things.
    pub fn new(alloc: Global) -> Things
        ensures { result ≡ [] }
    {
        Things {
            rows: IndexMap::new(alloc),
            mutexes: Vec::new(alloc),
        }
    }

    /// How many things there are.
    pub fn len(&self) -> usize
        ensures { result ≡ length self.now }
    {
        self.rows.len()
    }

    /// The thing of an id.
    pub fn get(&self, id: Id) -> Option<&Kept>
        ensures { option_map (λ kept. thing_of kept.now) result ≡ found self.now id }
    {
        self.rows.get(&key_of(id))
    }

    /// One thing more, behind the others.
    pub fn add(&mut self, id: Id, thing: Kept) -> Result<(), AllocError>
        requires { is_there self.old id ≡ false }
        ensures ok { OnOk result (self.new ≡ self.old ++ record { id = id; thing = thing_of thing } ∷ []) }
        ensures err { OnErr result (self.new ≡ self.old) }
    {
        let is_mutex = thing.is_mutex();
        let place = self.rows.len();
        // Room comes first, so that nothing fails once the thing is there.
        self.mutexes.reserve(1)?;
        self.rows.insert(key_of(id), thing)?;
        if is_mutex {
            self.mutexes.push_reserved(place);
        }
        Ok(())
    }

    /// Leaves the first things alone.
    pub fn truncate(&mut self, count: usize)
        ensures { self.new ≡ take count self.old }
    {
        self.rows.truncate(count);
        self.mutexes.retain(|place| *place < count);
    }

    /// Does what a thread asks of a thing. No thing, no method.
    pub fn apply(
        &mut self,
        alloc: Global,
        thread: u64,
        id: Id,
        act: Act,
    ) -> Result<Reply, AllocError>
        ensures reply { IfOk result (λ reply. said reply ≡ reply_of thread (found self.old id) (doing act)) }
        ensures things { OnOk result (self.new ≡ with_act thread self.old id (found self.old id) (doing act)) }
        ensures err { OnErr result (self.new ≡ self.old) }
    {
        match self.rows.get_index_of(&key_of(id)) {
            Some(place) => self.rows[place].apply(alloc, thread, act),
            None => Ok(Reply::Failed(Fault::NoMethod)),
        }
    }

    /// Whether an act of a thread has to wait.
    pub fn waits(&self, thread: u64, id: Id, act: &Act) -> bool
        ensures { result ≡ is_waiting thread (found self.now id) (doing act.now) }
    {
        match self.get(id) {
            Some(kept) => kept.waits(thread, act),
            None => false,
        }
    }

    /// Whether an act of a thread gathers a thread that was not gathered.
    pub fn gathers(&self, thread: u64, id: Id, act: &Act) -> bool
        ensures { result ≡ gathers_by thread (found self.now id) (doing act.now) }
    {
        match self.get(id) {
            Some(kept) => kept.gathers(thread, act),
            None => false,
        }
    }

    /// Frees what a thread owns.
    pub fn free(&mut self, thread: u64)
        ensures { self.new ≡ map (freed_item thread) self.old }
    {
        free_all(&mut self.rows, self.mutexes.as_slice(), thread);
    }

    /// Notes how a thread ended, where its thing stands at a place.
    pub fn end_at(&mut self, place: Option<usize>, thread: u64, how: End)
        ensures { self.new ≡ with_end_in thread (over how) self.old place }
    {
        let Some(place) = place else {
            return;
        };
        if place < self.rows.len() {
            self.rows[place].end(thread, how);
        }
    }
}
