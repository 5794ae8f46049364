// The heap: that calls succeed where memory is there, when the quick writes write, and a caller.

ghost use Rattle.std.specs.Prelude.{◌≡◌, ◌∷◌, [], Some, IfOk, false};
ghost use Rattle.rb_model.specs.Values.{Int};
ghost use Rattle.rb_model.specs.Things.{Object};
ghost use Rattle.rb_model.specs.Private.{held};

use Immediate::{False, Int, Nil, Other, True};
use local_heap::LocalHeap;
use rb_model::{Act, Id, Immediate, Make, Ref, Reply, SharedText, Side, Thing, Value};
use rb_tree::NameId;
use shape_core::ShapeStore;
use shape_tree::Tree;
use std::alloc::{AllocError, Global};
use std::test::Fail;

type Heap = LocalHeap<Tree>;

/// A value that is told so; another is a text.
fn value_of(alloc: Global, told: Immediate) -> Result<Value, AllocError> {
    Ok(match told {
        Nil => Value::Nil,
        False => Value::False,
        True => Value::True,
        Int(n) => Value::Int(n),
        Other => Value::Str(SharedText::from_slice(alloc, b"text")?),
    })
}

/// Whether a thing is held and does what is asked of it.
fn does(heap: &mut Heap, id: Id, act: Act) -> Result<bool, AllocError> {
    if !heap.holds(id) {
        return Ok(false);
    }
    match heap.apply(id, act)? {
        Reply::Failed(_) => Ok(false),
        _ => Ok(true),
    }
}

/// What is asked of a thing.
#[derive(Clone, Copy)]
enum Asked {
    SetField,
    GetField,
    Push,
    Unshift,
    Put,
    Last,
    CopyAll,
    PutPair,
    GetPair,
}

use Asked::{CopyAll, GetField, GetPair, Last, Push, Put, PutPair, SetField, Unshift};

/// A field takes a value in, and gives it back.
const OF_OBJECT: [Asked; 2] = [SetField, GetField];

/// A list takes a value in at the back, at the front and behind nil, and gives it back.
const OF_LIST: [Asked; 5] = [Push, Unshift, Put, Last, CopyAll];

/// A hash takes a value in under itself, and gives it back.
const OF_HASH: [Asked; 3] = [PutPair, GetPair, CopyAll];

/// What is asked with a value, of the field of a name or the element at five times its number.
fn act_of(asked: Asked, name: u32, value: &Value) -> Result<Act, AllocError> {
    Ok(match asked {
        SetField => Act::SetField(NameId(name), value.share()?),
        GetField => Act::GetField(NameId(name)),
        Push => Act::Push(value.share()?),
        Unshift => Act::Unshift(value.share()?),
        Put => Act::Put(5 * i64::from(name), value.share()?),
        Last => Act::At(-1),
        CopyAll => Act::Copy,
        PutPair => Act::KPut(value.share()?, value.share()?),
        GetPair => Act::KGet(value.share()?),
    })
}

/// Whether a thing does all that is asked.
fn does_all(
    heap: &mut Heap,
    id: Id,
    asked: &[Asked],
    name: u32,
    value: &Value,
) -> Result<bool, AllocError> {
    for one in asked {
        if !does(heap, id, act_of(*one, name, value)?)? {
            return Ok(false);
        }
    }
    Ok(true)
}

/// Values that come into one field, one list and one hash in turn, each with a name of its own: the field is widened, and then holds texts and integers of 64 bits.
const COMING: [(u32, Immediate); 5] = [
    (1, Int(1)),
    (2, Other),
    (3, Int(i64::MIN)),
    (4, Nil),
    (5, Other),
];

/// Whether an object, a list and a hash take a value in.
fn take(heap: &mut Heap, things: [Id; 3], name: u32, value: &Value) -> Result<bool, AllocError> {
    let [object, list, hash] = things;
    Ok(
        does_all(heap, object, &OF_OBJECT, 0, value)?
            && does_all(heap, object, &OF_OBJECT, name, value)?
            && does_all(heap, list, &OF_LIST, name, value)?
            && heap.element(list, 0)?.is_some()
            && does_all(heap, hash, &OF_HASH, name, value)?,
    )
}

/// Whether they take them all in.
fn take_all(heap: &mut Heap, alloc: Global, things: [Id; 3]) -> Result<bool, AllocError> {
    for (name, told) in COMING {
        if !take(heap, things, name, &value_of(alloc, told)?)? {
            return Ok(false);
        }
    }
    Ok(true)
}

/// How many fields, elements or pairs a thing is told with.
fn told(heap: &Heap, id: Id) -> Result<Option<usize>, AllocError> {
    if !heap.holds(id) {
        return Ok(None);
    }
    let thing = heap.thing(id)?;
    let size = match &thing {
        Thing::Object(_, fields) => fields.len(),
        Thing::Elements(elements) => elements.len(),
        Thing::Pairs(pairs) => pairs.len(),
        Thing::Mutex(_) | Thing::Thread(_) => 0,
    };
    Ok(Some(size))
}

/// Whether things of each kind are made, take values in, and are told.
fn are_things(heap: &mut Heap, alloc: Global) -> Result<bool, AllocError> {
    let object = heap.make(Make::Object(7))?.id;
    let list = heap.make(Make::Filled(2, Value::Int(7)))?.id;
    let hash = heap.make(Make::Pairs(Vec::new(alloc)))?.id;
    let taken = take_all(heap, alloc, [object, list, hash])?;
    let sizes = [told(heap, object)?, told(heap, list)?, told(heap, hash)?];
    Ok(taken && sizes == [Some(6), Some(26), Some(4)])
}

/// The elements of a list, an immediate value, and whether it is written over the first of them.
const PUTS: [(&[Immediate], Immediate, bool); 8] = [
    (&[Int(1), Int(2)], Int(i64::MIN), true),
    (&[Int(1), Int(2)], Nil, false),
    (&[Nil, True], False, true),
    (&[Nil, True], Int(1), false),
    (&[Other, Int(1)], Int(2), true),
    (&[Other, Int(1)], True, true),
    (&[Other, Int(1)], Other, false),
    (&[], Int(1), false),
];

/// The elements that are told so.
fn values_of(alloc: Global, told: &[Immediate]) -> Result<Vec<Value>, AllocError> {
    let mut values = Vec::new(alloc);
    for element in told {
        values.push(value_of(alloc, *element)?)?;
    }
    Ok(values)
}

/// A list of elements that are told so.
fn list_of(heap: &mut Heap, alloc: Global, told: &[Immediate]) -> Result<Id, AllocError> {
    Ok(heap.make(Make::Elements(values_of(alloc, told)?))?.id)
}

/// The number of the first put that does not come out as its row says.
fn first_wrong_put(heap: &mut Heap, alloc: Global) -> Result<Option<usize>, AllocError> {
    for (at, (elements, told, done)) in PUTS.iter().enumerate() {
        let list = list_of(heap, alloc, elements)?;
        if heap.put_immediate(list, 0, *told) != *done {
            return Ok(Some(at));
        }
    }
    Ok(None)
}

/// What a list takes in behind its elements, and gives out at both ends.
fn passed(heap: &mut Heap, alloc: Global) -> Result<(bool, [Immediate; 3]), AllocError> {
    let id = list_of(heap, alloc, &[Int(1), Other])?;
    let pushed = heap.push_immediate(id, True)? && !heap.push_immediate(id, Other)?;
    let first = heap.take_immediate(id, Side::First);
    let last = heap.take_immediate(id, Side::Last);
    let neither = heap.take_immediate(id, Side::Last);
    Ok((pushed, [first, last, neither]))
}

/// Whether an integer is added to a field that holds integers alone, and none to one that was widened.
fn gains(heap: &mut Heap) -> Result<bool, AllocError> {
    let id = make_with(heap, 8, NameId(1), -5)?.id;
    let set = does_all(heap, id, &OF_OBJECT, 2, &Value::Nil)?
        && does_all(heap, id, &OF_OBJECT, 2, &Value::Int(1))?;
    let sum = heap.add_to_field(id, NameId(1), 8);
    let none = heap.add_to_field(id, NameId(2), 8);
    Ok(set && sum == Some(3) && none.is_none())
}

/// A new object of a class with one field, which holds an integer.
fn make_with<S: ShapeStore>(
    heap: &mut LocalHeap<S>,
    class: u32,
    name: NameId,
    n: i64,
) -> Result<Ref, AllocError>
    ensures { IfOk result (λ made. held heap.new made.id ≡ Some (Object class (record { name = name; value = Int n; wide = false } ∷ []))) }
{
    let made = heap.make(Make::Object(class))?;
    heap.apply(made.id, Act::SetField(name, Value::Int(n)))?;
    Ok(made)
}

/// What comes out of all of it.
fn tried(alloc: Global) -> Result<(bool, Option<usize>, bool, bool), AllocError> {
    let mut heap = LocalHeap::new(alloc, 3, Tree::new(alloc)?)?;
    let things = are_things(&mut heap, alloc)?;
    let wrong = first_wrong_put(&mut heap, alloc)?;
    let gained = gains(&mut heap)?;
    let (pushed, taken) = passed(&mut heap, alloc)?;
    let passed = pushed && taken == [Int(1), True, Other];
    Ok((things, wrong, gained, passed))
}

#[test]
fn calls_succeed_where_memory_is_there(rt: HostRuntime) -> Result<(), Fail> {
    let (things, wrong, gained, passed) = tried(rt.alloc())?;
    assert!(rt; things && gained && passed);
    assert_eq!(rt; wrong, None);
    Ok(())
}
