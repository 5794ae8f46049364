// That each call succeeds where memory is there, and that a store may cross to another thread.

ghost use Rattle.std.specs.Prelude.{◌≡◌, IfOk};
ghost use Rattle.rb_model.specs.Doing.{seen};
ghost use Rattle.rb_model.specs.Moving.{item_of, items_of};
ghost use Rattle.rb_shared.specs.Store.{opening};
ghost use Rattle.sharing_trials.specs.Things.{four, main_id};

use rb_model::{Act, Call, End, Id, Moved, MovedItem, Ref, Reply, Sort, Thing, Value};
use rb_tree::NameId;
use std::alloc::{AllocError, Global};
use std::marker::Send;
use std::test::Fail;
use thing_store::ThingStore;

/// The thread that the main thread starts.
const OTHER: u64 = 1;

/// The id of the how many-th thing of the main thread.
fn id(serial: u64) -> Id
    ensures { result ≡ main_id serial }
{
    Id { thread: 0, serial }
}

/// A thing that moves.
fn moving(serial: u64, thing: Thing) -> MovedItem
    ensures { item_of result ≡ record { id = main_id serial; thing = seen thing } }
{
    MovedItem {
        id: id(serial),
        thing,
        at: 0,
    }
}

/// An object, a list, a hash and a mutex that move.
fn four_things(alloc: Global) -> Result<Moved, AllocError>
    ensures { IfOk result (λ moved. items_of moved ≡ four) }
{
    let mut moved = Moved::new(alloc);
    moved.push(moving(1, Thing::Object(7, Vec::new(alloc))))?;
    moved.push(moving(2, Thing::Elements(Vec::new(alloc))))?;
    moved.push(moving(3, Thing::Pairs(Vec::new(alloc))))?;
    moved.push(moving(4, Thing::Mutex(None)))?;
    Ok(moved)
}

/// What a thread asks, and of what.
#[derive(Clone, Copy)]
enum Deed {
    SetField,
    GetField,
    Push,
    CopyList,
    PutPair,
    CopyPairs,
    LockPairs,
    Lock,
    Unlock,
    Join,
    EndThread,
}

use Deed::{
    CopyList, CopyPairs, EndThread, GetField, Join, Lock, LockPairs, Push, PutPair, SetField,
    Unlock,
};

/// A thread, what it asks, and whether it is done: an object, a list and a hash take a value in and give it back, and no hash is locked; the mutex of a
/// thread is another's only behind its end, and that end is told.
const ROWS: [(u64, Deed, bool); 13] = [
    (0, SetField, true),
    (OTHER, GetField, true),
    (0, Push, true),
    (OTHER, CopyList, true),
    (0, PutPair, true),
    (OTHER, CopyPairs, true),
    (OTHER, LockPairs, false),
    (OTHER, Lock, true),
    (0, Unlock, false),
    (0, Lock, false),
    (OTHER, EndThread, true),
    (0, Lock, true),
    (0, Join, true),
];

/// Whether it is no fault, and memory was there.
fn is_reply(answer: &Result<Reply, AllocError>) -> bool {
    match answer {
        Ok(Reply::Failed(_)) => false,
        Ok(_) => true,
        Err(_) => false,
    }
}

/// Whether what a thread asks of a thing is done.
fn does(store: &mut ThingStore, alloc: Global, thread: u64, thing: Ref, act: Act) -> bool {
    let call = Call::On(thing, act);
    let none = Moved::new(alloc);
    is_reply(&store.apply(4, thread, &call, &none))
}

/// Whether a thread ends.
fn ends(store: &mut ThingStore, alloc: Global, thread: u64) -> bool {
    let call = Call::End(End::Value(Value::Nil));
    let none = Moved::new(alloc);
    store.apply(4, thread, &call, &none).is_ok()
}

/// Of what it is asked.
fn thing_of(deed: Deed) -> Ref {
    let (sort, serial) = match deed {
        SetField | GetField => (Sort::Object(7), 1),
        Push | CopyList => (Sort::List, 2),
        PutPair | CopyPairs | LockPairs => (Sort::Pairs, 3),
        Lock | Unlock => (Sort::Mutex, 4),
        Join | EndThread => (Sort::Thread, 9),
    };
    Ref {
        sort,
        id: id(serial),
        at: 0,
    }
}

/// What is asked; an end is none of it.
fn act_of(deed: Deed) -> Act {
    match deed {
        SetField => Act::SetField(NameId(3), Value::True),
        GetField => Act::GetField(NameId(3)),
        Push => Act::Push(Value::Nil),
        PutPair => Act::KPut(Value::Nil, Value::True),
        CopyList | CopyPairs => Act::Copy,
        LockPairs | Lock => Act::Lock,
        Unlock => Act::Unlock,
        Join | EndThread => Act::Join,
    }
}

/// Whether a thread does what it asks.
fn is_done(store: &mut ThingStore, alloc: Global, thread: u64, deed: Deed) -> bool {
    match deed {
        EndThread => ends(store, alloc, thread),
        _ => does(store, alloc, thread, thing_of(deed), act_of(deed)),
    }
}

/// Whether each row comes out as it says.
fn come_out(store: &mut ThingStore, alloc: Global) -> bool {
    for (thread, deed, done) in ROWS {
        if is_done(store, alloc, thread, deed) != done {
            return false;
        }
    }
    true
}

/// Whether a thread starts, with four things that move in with that call.
fn starts(store: &mut ThingStore, alloc: Global) -> Result<bool, AllocError>
    requires { store.old ≡ opening }
{
    let moved = four_things(alloc)?;
    let call = Call::Start(id(9), 0, Vec::new(alloc));
    let answer = store.apply(4, 0, &call, &moved);
    Ok(matches!(&answer, Ok(Reply::Started(OTHER, _))))
}

/// What may cross to another thread.
fn crosses<T: Send>(thing: T) -> T
    ensures { result ≡ thing }
{
    thing
}

/// Whether all of it comes out as it should.
fn tried(alloc: Global) -> Result<bool, AllocError> {
    let mut store = crosses(ThingStore::new(alloc)?);
    Ok(starts(&mut store, alloc)? && come_out(&mut store, alloc))
}

#[test]
fn calls_succeed_where_memory_is_there(rt: HostRuntime) -> Result<(), Fail> {
    assert!(rt; tried(rt.alloc())?);
    Ok(())
}
