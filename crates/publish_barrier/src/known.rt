// The references to shared things that a thread knows.

ghost use Rattle.std.specs.Prelude.{◌≡◌, ◌≤◌, ◌<◌, ◌+◌, ◌++◌, ◌∷◌, [], IfOk, IfSome, OnOk};
ghost use Rattle.rb_model.specs.Immediates.{reference};
ghost use Rattle.rb_model.specs.Moving.{refs_in, refs_in_all, refs_in_end, refs_in_pairs, refs_in_reply};
ghost use Rattle.rb_model.specs.Values.{same_id};
ghost use Rattle.rb_shared.specs.Lists.{Has};
ghost use Rattle.rb_shared.specs.View.{to_globals};
ghost use Rattle.publish_barrier.specs.Known.{NotesOf, noted, with_all_noted, with_noted};
ghost use Rattle.publish_barrier.specs.Sorts.{noted_same};

use crate::sorts::is_same_sort;
use indexmap::IndexMap;
use rb_model::{End, Id, Ref, Reply, Sort, Value};
use std::alloc::{AllocError, Global};
use std::marker::Model;

/// An id, as it is looked up.
#[derive(Clone, Copy, PartialEq, Eq, Hash)]
struct Key {
    thread: u64,
    serial: u64,
}

/// What a reference says of a thing beside its id.
#[derive(Clone, Copy, Drop)]
struct Place {
    sort: Sort,
    at: u64,
}

/// The references that a thread has noted, each with the place of its thing: the global variables, those that replies and its start
/// told, and those to the things that it moved. Contracts see them as a list, each id once, and for how many more there is room.
#[derive(Drop)]
pub struct Known {
    rows: IndexMap<Key, Place>,
}

impl Model for Known {
    ghost use Rattle.std.specs.Prelude.{◌∷◌, map};
    ghost use Rattle.indexmap.specs.IndexMap.{spare};
    ghost use Rattle.rb_shared.specs.View.{to_globals};
    ghost use Rattle.publish_barrier.specs.Known.{Noted, ref_of_row};

    ghost Value = { Noted };

    ghost view = { λ k. record { refs = to_globals ∷ map ref_of_row k.rows.entries; room = spare k.rows } };
}

/// The reference to the global variables.
fn globals() -> Ref
    ensures { result ≡ to_globals }
{
    Ref {
        sort: Sort::Object(u32::MAX),
        id: Id {
            thread: 0,
            serial: 0,
        },
        at: 0,
    }
}

fn is_globals(id: Id) -> bool
    ensures { result ≡ same_id to_globals.id id }
{
    globals().id == id
}

fn key_of(id: Id) -> Key
    ensures { result ≡ record { thread = id.thread; serial = id.serial } }
{
    Key {
        thread: id.thread,
        serial: id.serial,
    }
}

impl Known {
    /// The global variables alone.
    pub fn new(alloc: Global) -> Known
        ensures { result.refs ≡ to_globals ∷ [] }
    {
        Known {
            rows: IndexMap::new(alloc),
        }
    }

    /// The one with an id.
    pub(crate) fn find(&self, id: Id) -> Option<Ref>
        ensures { result ≡ noted self.now.refs id }
    {
        let rows = &self.rows;
        if is_globals(id) {
            return Some(globals());
        }
        match rows.get(&key_of(id)) {
            Some(place) => Some(Ref {
                sort: place.sort,
                id,
                at: place.at,
            }),
            None => None,
        }
    }

    /// The noted reference to the same thing: the one with its id, where that has its sort.
    pub fn find_same(&self, thing: Ref) -> Option<Ref>
        ensures exact { result ≡ noted_same self.now.refs thing }
        ensures same { IfSome result (λ r. (reference r ≡ reference thing) × Has self.now.refs r) }
    {
        let found = self.find(thing.id)?;
        if is_same_sort(found.sort, thing.sort) {
            Some(found)
        } else {
            None
        }
    }

    /// Makes room for so many more.
    pub fn reserve(&mut self, count: usize) -> Result<(), AllocError>
        ensures refs { self.new.refs ≡ self.old.refs }
        ensures room { OnOk result (count ≤ self.new.room) }
    {
        self.rows.reserve(count)
    }

    /// Notes a reference, where none with its id is there. Takes no memory.
    pub fn note(&mut self, thing: Ref)
        requires { 0 < self.old.room }
        ensures refs { self.new.refs ≡ with_noted self.old.refs thing (noted self.old.refs thing.id) }
        ensures room { self.old.room ≤ self.new.room + 1 }
    {
        if let Some(_) = self.find(thing.id) {
            return;
        }
        let place = Place {
            sort: thing.sort,
            at: thing.at,
        };
        match self.rows.insert(key_of(thing.id), place) {
            Ok(_) => {}
            // Never, as there is room.
            Err(_) => {}
        }
    }
}

// ---- what is told

/// Notes a reference, where there is memory for it.
fn note_one(known: &mut Known, thing: Ref) -> Result<(), AllocError>
    ensures all { OnOk result (known.new.refs ≡ with_all_noted known.old.refs (thing ∷ [])) }
    ensures some { NotesOf known.old.refs (thing ∷ []) known.new.refs }
{
    known.reserve(1)?;
    known.note(thing);
    Ok(())
}

/// The same of what a value mentions.
fn note_value(known: &mut Known, value: &Value) -> Result<(), AllocError>
    ensures all { OnOk result (known.new.refs ≡ with_all_noted known.old.refs (refs_in value.now)) }
    ensures some { NotesOf known.old.refs (refs_in value.now) known.new.refs }
{
    match value {
        Value::Ref(thing) => note_one(known, *thing),
        _ => Ok(()),
    }
}

/// The same of what each value mentions, up to the first for which there is no memory.
fn note_values(known: &mut Known, values: &[Value]) -> Result<(), AllocError>
    ensures all { OnOk result (known.new.refs ≡ with_all_noted known.old.refs (refs_in_all values.now)) }
    ensures some { NotesOf known.old.refs (refs_in_all values.now) known.new.refs }
{
    let mut at = 0;
    'values: while at < values.len() {
        note_value(known, &values[at])?;
        at += 1;
    }
    Ok(())
}

/// The same of a key and a value.
fn note_pair(known: &mut Known, pair: &(Value, Value)) -> Result<(), AllocError>
    ensures all { OnOk result (known.new.refs ≡ with_all_noted known.old.refs (refs_in pair.now.0 ++ refs_in pair.now.1)) }
    ensures some { NotesOf known.old.refs (refs_in pair.now.0 ++ refs_in pair.now.1) known.new.refs }
{
    note_value(known, &pair.0)?;
    note_value(known, &pair.1)
}

/// The same of what each pair mentions.
fn note_pairs(known: &mut Known, pairs: &[(Value, Value)]) -> Result<(), AllocError>
    ensures all { OnOk result (known.new.refs ≡ with_all_noted known.old.refs (refs_in_pairs pairs.now)) }
    ensures some { NotesOf known.old.refs (refs_in_pairs pairs.now) known.new.refs }
{
    let mut at = 0;
    'pairs: while at < pairs.len() {
        note_pair(known, &pairs[at])?;
        at += 1;
    }
    Ok(())
}

/// The same of what an end tells.
fn note_end(known: &mut Known, end: &End) -> Result<(), AllocError>
    ensures all { OnOk result (known.new.refs ≡ with_all_noted known.old.refs (refs_in_end end.now)) }
    ensures some { NotesOf known.old.refs (refs_in_end end.now) known.new.refs }
{
    match end {
        End::Value(value) => note_value(known, value),
        _ => Ok(()),
    }
}

impl Known {
    /// The global variables, and these.
    pub fn with(alloc: Global, refs: &[Ref]) -> Result<Known, AllocError>
        ensures { IfOk result (λ known. known.refs ≡ with_all_noted (to_globals ∷ []) refs.now) }
    {
        let mut known = Known::new(alloc);
        let mut at = 0;
        'refs: while at < refs.len() {
            note_one(&mut known, refs[at])?;
            at += 1;
        }
        Ok(known)
    }

    /// Notes what a reply tells.
    ///
    /// # Errors
    /// Want of memory. What stands before the one for which there was none is noted.
    pub fn note_reply(&mut self, reply: &Reply) -> Result<(), AllocError>
        ensures all { OnOk result (self.new.refs ≡ with_all_noted self.old.refs (refs_in_reply reply.now)) }
        ensures some { NotesOf self.old.refs (refs_in_reply reply.now) self.new.refs }
    {
        match reply {
            Reply::Value(value) => note_value(self, value),
            Reply::Elements(values) => note_values(self, values.as_slice()),
            Reply::Pairs(pairs) => note_pairs(self, pairs.as_slice()),
            Reply::Started(_, thing) => note_one(self, *thing),
            Reply::Ended(end) => note_end(self, end),
            Reply::Done => Ok(()),
            Reply::Failed(_) => Ok(()),
        }
    }
}
