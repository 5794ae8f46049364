// What moves with the values that a call hands over.

ghost use Rattle.std.specs.Prelude.{◌≡◌, ◌≤◌, ◌<◌, ◌^◌, ◌++◌, ◌∷◌, [], IsSome, IsSomeAnd, IsTrue, ◌↔◌, IfOk, OnOk, map, slice_get};
ghost use Rattle.rb_model.specs.Acts.{handed};
ghost use Rattle.rb_model.specs.Doing.{doing};
ghost use Rattle.rb_model.specs.Moving.{items_of, refs_in, refs_in_act, refs_in_all, sort_of_thing};
ghost use Rattle.rb_model.specs.Private.{held};
ghost use Rattle.rb_model.specs.Values.{plain};
ghost use Rattle.rb_shared.specs.Lists.{Each};
ghost use Rattle.publish_barrier.specs.Gathered.{GoesBehind, LooksAt, MayLookAt, store_left};
ghost use Rattle.publish_barrier.specs.Gathers.{Gathers, IsAddressed};
ghost use Rattle.publish_barrier.specs.Leaving.{Popped, named, serials};

use crate::known::Known;
use crate::placing::place_thing;
use crate::sorts::{is_same_sort, sort_of};
use indexmap::IndexSet;
use local_heap::LocalHeap;
use rb_model::{Act, Moved, MovedItem, Ref, Sort, Value};
use shape_core::ShapeStore;
use std::alloc::{AllocError, Global};
use std::collections::VecDeque;

/// Serial numbers from here on are those of threads.
const FIRST_THREAD: u64 = 9_223_372_036_854_775_808;

/// What moves, with its serial numbers, and the references that wait to be looked at.
#[derive(Drop)]
struct Gathering {
    moved: Moved,
    seen: IndexSet<u64>,
    waiting: VecDeque<Ref>,
}

/// Whether a serial number is that of a thing that a heap made.
fn is_own_number(serial: u64) -> bool
    ensures { IsTrue result ↔ (1 ≤ serial) × (serial < 2 ^ 63) }
{
    (1..FIRST_THREAD).contains(&serial)
}

/// A reference of a value waits behind the others.
fn wait(value: &Value, waiting: &mut VecDeque<Ref>) -> Result<(), AllocError>
    ensures { OnOk result (waiting.new.items ≡ waiting.old.items ++ refs_in value.now) }
{
    match value {
        Value::Ref(thing) => {
            waiting.push_back(*thing)?;
            Ok(())
        }
        _ => Ok(()),
    }
}

/// The references among values wait behind the others, in order.
fn wait_all(values: &[Value], waiting: &mut VecDeque<Ref>) -> Result<(), AllocError>
    ensures { OnOk result (waiting.new.items ≡ waiting.old.items ++ refs_in_all values.now) }
{
    'values: for value in values {
        wait(value, waiting)?;
    }
    Ok(())
}

/// Those of what an act hands over.
fn wait_act(act: &Act, waiting: &mut VecDeque<Ref>) -> Result<(), AllocError>
    ensures { OnOk result (waiting.new.items ≡ waiting.old.items ++ refs_in_act act.now) }
{
    match act {
        Act::SetField(_, value) => wait(value, waiting),
        Act::Put(_, value) => wait(value, waiting),
        Act::Push(value) => wait(value, waiting),
        Act::Unshift(value) => wait(value, waiting),
        Act::KGet(key) => wait(key, waiting),
        Act::KHas(key) => wait(key, waiting),
        Act::KPut(key, value) => {
            wait(key, waiting)?;
            wait(value, waiting)
        }
        Act::KDelete(key) => wait(key, waiting),
        _ => Ok(()),
    }
}

/// The first that waits.
fn next(waiting: &mut VecDeque<Ref>) -> Option<Ref>
    ensures { Popped result waiting.old.items waiting.new.items }
{
    waiting.pop_front()
}

/// A reference to a private thing says what the thing is. In a script that runs it does; as long as no law says so, else that is want of
/// memory.
fn agree(said: Sort, is: Sort) -> Result<(), AllocError>
    ensures { OnOk result (said ≡ is) }
{
    if is_same_sort(said, is) {
        Ok(())
    } else {
        Err(AllocError)
    }
}

/// The same of a thing that moves, by its number.
fn agree_at(moved: &Moved, number: usize, said: Sort) -> Result<(), AllocError>
    ensures { OnOk result (IsSomeAnd (slice_get moved.now number) (λ m. said ≡ sort_of_thing m.thing)) }
{
    match moved.get(number) {
        Some(item) => agree(said, sort_of(&item.thing)),
        None => Err(AllocError),
    }
}

/// A private thing moves, and what it mentions waits.
fn take<S: ShapeStore>(
    heap: &LocalHeap<S>,
    known: &Known,
    thing: Ref,
    gathering: &mut Gathering,
) -> Result<(), AllocError>
    requires held { IsSome (held heap.now thing.id) }
    requires may { MayLookAt heap.now known.now.refs thing gathering.old }
    ensures taken { OnOk result (LooksAt (held heap.now thing.id) thing.id gathering.old gathering.new) }
    ensures seen { gathering.new.seen ≡ gathering.old.seen }
    ensures goes { OnOk result (GoesBehind heap.now known.now.refs thing gathering.old gathering.new) }
{
    if !is_own_number(thing.id.serial) {
        // Never, as number 0 is no thing's, and no heap has room for so many.
        return Err(AllocError);
    }
    let mut content = heap.thing(thing.id)?;
    agree(thing.sort, sort_of(&content))?;
    heap.shapes_agree();
    heap.things_are_within_limits();
    place_thing(heap, known, &mut content, &mut gathering.waiting)?;
    gathering.moved.push(MovedItem {
        id: thing.id,
        thing: content,
        at: 0,
    })
}

/// Looks at a reference that waited.
fn look<S: ShapeStore>(
    heap: &LocalHeap<S>,
    known: &Known,
    thing: Ref,
    gathering: &mut Gathering,
) -> Result<(), AllocError>
    requires seen { gathering.old.seen.keys ≡ serials (items_of gathering.old.moved) }
    requires may { MayLookAt heap.now known.now.refs thing gathering.old }
    ensures looked { OnOk result (LooksAt (held (store_left heap.now gathering.old) thing.id) thing.id gathering.old gathering.new) }
    ensures seen { OnOk result (gathering.new.seen.keys ≡ serials (items_of gathering.new.moved)) }
    ensures goes { OnOk result (GoesBehind heap.now known.now.refs thing gathering.old gathering.new) }
{
    if !heap.holds(thing.id) {
        return Ok(());
    }
    if let Some(place) = gathering.seen.get_index_of(&thing.id.serial) {
        return agree_at(&gathering.moved, place, thing.sort);
    }
    gathering.seen.insert(thing.id.serial)?;
    take(heap, known, thing, gathering)
}

/// What moves with what waits first.
fn gather_from<S: ShapeStore>(
    alloc: Global,
    heap: &LocalHeap<S>,
    known: &Known,
    first: VecDeque<Ref>,
) -> Result<Moved, AllocError>
    requires { Each (IsAddressed heap.now known.now.refs) first.items }
    ensures { IfOk result (λ moved. Gathers heap.now known.now.refs (named first.items) first.items moved) }
{
    let mut gathering = Gathering {
        moved: Moved::new(alloc),
        seen: IndexSet::new(alloc),
        waiting: first,
    };
    while let Some(thing) = next(&mut gathering.waiting) {
        look(heap, known, thing, &mut gathering)?;
    }
    let Gathering { moved, .. } = gathering;
    Ok(moved)
}

/// What moves with these values, which are as they may be handed over: each private thing that they mention, in the order in which it is
/// first seen, then what those mention. The heap stays as it is.
pub fn gather<S: ShapeStore>(
    alloc: Global,
    heap: &LocalHeap<S>,
    known: &Known,
    values: &[Value],
) -> Result<Moved, AllocError>
    requires { Each (IsAddressed heap.now known.now.refs) (refs_in_all values.now) }
    ensures { IfOk result (λ moved. Gathers heap.now known.now.refs (map plain values.now) (refs_in_all values.now) moved) }
{
    let mut first = VecDeque::new(alloc);
    wait_all(values, &mut first)?;
    gather_from(alloc, heap, known, first)
}

/// The same with what an act hands over.
pub fn gather_act<S: ShapeStore>(
    alloc: Global,
    heap: &LocalHeap<S>,
    known: &Known,
    act: &Act,
) -> Result<Moved, AllocError>
    requires { Each (IsAddressed heap.now known.now.refs) (refs_in_act act.now) }
    ensures { IfOk result (λ moved. Gathers heap.now known.now.refs (handed (doing act.now)) (refs_in_act act.now) moved) }
{
    let mut first = VecDeque::new(alloc);
    wait_act(act, &mut first)?;
    gather_from(alloc, heap, known, first)
}

/// The same with a value.
pub fn gather_value<S: ShapeStore>(
    alloc: Global,
    heap: &LocalHeap<S>,
    known: &Known,
    value: &Value,
) -> Result<Moved, AllocError>
    requires { Each (IsAddressed heap.now known.now.refs) (refs_in value.now) }
    ensures { IfOk result (λ moved. Gathers heap.now known.now.refs (plain value.now ∷ []) (refs_in value.now) moved) }
{
    let mut first = VecDeque::new(alloc);
    wait(value, &mut first)?;
    gather_from(alloc, heap, known, first)
}
