// The threads that a thread has started.

ghost use Rattle.std.specs.Prelude.{◌≡◌, ◌<◌, ◌∷◌, ◌++◌, [], ℕ, true, false, not, Some, IfSome, OnOk, length, set, slice_get, nat_lt, vec_len, vec_capacity, map, List, Bool};
ghost use Rattle.rb_model.specs.Started.{thread_id};
ghost use Rattle.rb_thread.specs.Kins.{Kin, kin, childless, done, ArePlaced, Changes, IsPlaceOf};

use rb_model::{Id, Ref};
use std::alloc::{AllocError, Global};
use std::marker::Model;

/// A thread that was started: its number, its thing, the child until its pass was taken in, and whether it was gathered.
#[derive(Drop)]
struct Kid<C> {
    number: u64,
    thing: Ref,
    child: Option<C>,
    gathered: bool,
}

/// The threads that a thread has started, in order. Contracts see each with the promise of its child, and whether there is room for one
/// more.
#[derive(Drop)]
pub struct Kids<C> {
    items: Vec<Kid<C>>,
}

impl<C> Model for Kids<C> {
    ghost Value = { List (Kin C) × Bool };

    ghost view = { λ k. (
      map (λ x. kin x.number x.thing x.child x.gathered) k.items.items,
      nat_lt (vec_len k.items) (vec_capacity k.items),
    ) };
}

/// The serial number of the thing of the first thread that a thread starts.
pub(crate) const FIRST: u64 = (1 << 63) + 1;

/// How many threads a thread starts at most. More than there is memory for.
pub(crate) const MOST: usize = 1 << 32;

/// The place of a thread among those that thread `maker` started, by its id, where so many were started.
fn place_by(maker: u64, id: Id, len: usize) -> Option<usize>
    ensures { IsPlaceOf maker id len result }
{
    if id.thread != maker || id.serial < FIRST {
        return None;
    }
    let place = id.serial - FIRST;
    if place < len as u64 {
        Some(place as usize)
    } else {
        None
    }
}

impl<C: Drop> Kids<C> {
    /// None.
    pub fn new(alloc: Global) -> Kids<C>
        ensures { result.0 ≡ [] }
    {
        Kids {
            items: Vec::new(alloc),
        }
    }

    /// How many there are.
    pub fn len(&self) -> usize
        ensures { result ≡ length self.now.0 }
    {
        self.items.len()
    }

    /// Makes room for one more.
    pub fn reserve(&mut self) -> Result<(), AllocError>
        ensures same { self.new.0 ≡ self.old.0 }
        ensures room { OnOk result (self.new.1 ≡ true) }
    {
        self.items.reserve(1)?;
        Ok(())
    }

    /// One more, behind the others.
    pub fn push(&mut self, number: u64, thing: Ref, child: C)
        requires room { self.old.1 ≡ true }
        ensures { self.new.0 ≡ self.old.0 ++ kin number thing (Some child) false ∷ [] }
    {
        self.items.push_reserved(Kid {
            number,
            thing,
            child: Some(child),
            gathered: false,
        });
    }

    /// The place of the thread of an id, where it is one of these.
    pub fn place_of(&self, maker: u64, id: Id) -> Option<usize>
        ensures { IsPlaceOf maker id (length self.now.0) result }
    {
        place_by(maker, id, self.len())
    }

    /// The thing of the one at a place.
    pub fn thing(&self, place: usize) -> Ref
        requires { place < length self.now.0 }
        ensures { (x : Kin C) × (slice_get self.now.0 place ≡ Some x) × (result ≡ x.thing) }
    {
        self.items[place].thing
    }

    /// Whether the one at a place was not gathered.
    pub fn is_waiting(&self, place: usize) -> bool
        requires { place < length self.now.0 }
        ensures { (x : Kin C) × (slice_get self.now.0 place ≡ Some x) × (result ≡ not x.gathered) }
    {
        !self.items[place].gathered
    }

    /// Takes the child of the one at a place out, if it is there.
    pub fn take(&mut self, place: usize) -> Option<C>
        requires { place < length self.old.0 }
        ensures { (x : Kin C) × (slice_get self.old.0 place ≡ Some x) × (result ≡ x.child)
            × (self.new.0 ≡ set self.old.0 place (childless x)) }
    {
        self.items[place].child.take()
    }

    /// The one at a place was gathered.
    pub fn mark(&mut self, place: usize)
        requires { place < length self.old.0 }
        ensures { (x : Kin C) × (slice_get self.old.0 place ≡ Some x) × (self.new.0 ≡ set self.old.0 place (done x)) }
    {
        self.items[place].gathered = true;
    }

    /// The thread of an id was gathered, if it is one of these.
    pub fn mark_id(&mut self, maker: u64, id: Id)
        requires placed { ArePlaced maker 0 self.old.0 }
        ensures { Changes done id self.old.0 self.new.0 }
    {
        if let Some(place) = self.place_of(maker, id) {
            self.mark(place);
        }
    }
}
