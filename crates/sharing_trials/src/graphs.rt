// Graphs that are handed over, and how large they may be.

use local_heap::LocalHeap;
use publish_barrier::{Known, addressed_all, commit, gather};
use rb_model::{Act, Id, Make, Moved, Ref, Sort, Thing, Value};
use rb_tree::NameId;
use shape_tree::Tree;
use std::alloc::{AllocError, Global};
use std::test::Fail;

type Heap = LocalHeap<Tree>;

/// Four things: a list, an object, a hash and a mutex. Some mention others, one may have left before, some are handed over, and these move.
struct Row {
    mentions: &'static [(u64, u64)],
    left: Option<u64>,
    handed: &'static [u64],
    moves: &'static [u64],
}

const ROWS: [Row; 7] = [
    // A cycle.
    Row {
        mentions: &[(1, 2), (2, 3), (3, 1)],
        left: None,
        handed: &[2],
        moves: &[2, 3, 1],
    },
    // One thing that two mention.
    Row {
        mentions: &[(1, 4), (2, 4)],
        left: None,
        handed: &[1, 2],
        moves: &[1, 2, 4],
    },
    // What is handed over goes before what it mentions.
    Row {
        mentions: &[(3, 4), (3, 1)],
        left: None,
        handed: &[3, 2],
        moves: &[3, 2, 4, 1],
    },
    // A thing that mentions itself, and is handed over twice.
    Row {
        mentions: &[(1, 1)],
        left: None,
        handed: &[1, 1],
        moves: &[1],
    },
    // Nothing.
    Row {
        mentions: &[(1, 2)],
        left: None,
        handed: &[],
        moves: &[],
    },
    // A thing that left before, and what it alone mentions.
    Row {
        mentions: &[(1, 2), (2, 3)],
        left: Some(2),
        handed: &[1, 2],
        moves: &[1],
    },
    Row {
        mentions: &[(3, 2)],
        left: Some(2),
        handed: &[2],
        moves: &[],
    },
];

/// Where a thing is laid that left before.
const PLACE: u64 = 77;

fn thing(serial: u64) -> Ref {
    let sort = match serial {
        1 => Sort::List,
        2 => Sort::Object(0),
        3 => Sort::Pairs,
        _ => Sort::Mutex,
    };
    Ref {
        sort,
        id: Id { thread: 0, serial },
        at: 0,
    }
}

/// What makes a thing mention another.
fn mention(from: u64, to: u64) -> Act {
    let value = Value::Ref(thing(to));
    match from {
        1 => Act::Push(value),
        2 => Act::SetField(NameId(0), value),
        _ => Act::KPut(value, Value::Nil),
    }
}

/// A heap with nothing in it.
fn new_heap(alloc: Global) -> Result<Heap, AllocError> {
    LocalHeap::new(alloc, 0, Tree::new(alloc)?)
}

/// Makes the four things.
fn make_four(heap: &mut Heap, alloc: Global) -> Result<(), AllocError> {
    heap.make(Make::Elements(Vec::new(alloc)))?;
    heap.make(Make::Object(0))?;
    heap.make(Make::Pairs(Vec::new(alloc)))?;
    heap.make(Make::Mutex)?;
    Ok(())
}

/// Does what is asked of a thing, where it is there.
fn does(heap: &mut Heap, id: Id, act: Act) -> Result<(), AllocError> {
    if heap.holds(id) {
        heap.apply(id, act)?;
    }
    Ok(())
}

/// Makes each thing mention what a row says.
fn mention_all(heap: &mut Heap, row: &Row) -> Result<(), AllocError> {
    for (from, to) in row.mentions {
        does(heap, thing(*from).id, mention(*from, *to))?;
    }
    Ok(())
}

/// A thing leaves.
fn leave(heap: &mut Heap, thing: Ref, known: &mut Known) -> Result<(), AllocError> {
    known.reserve(1)?;
    if heap.holds(thing.id) {
        heap.leave(thing.id);
        known.note(Ref { at: PLACE, ..thing });
    }
    Ok(())
}

/// References to things.
fn handed(alloc: Global, serials: &[u64]) -> Result<Vec<Value>, AllocError> {
    let mut values = Vec::new(alloc);
    for serial in serials {
        values.push(Value::Ref(thing(*serial)))?;
    }
    Ok(values)
}

/// Whether a value mentions no thing that the heap still has, and a thing that left before with its place.
fn is_value_placed(heap: &Heap, row: &Row, value: &Value) -> bool {
    match value {
        Value::Ref(thing) => {
            !heap.holds(thing.id) && (row.left != Some(thing.id.serial) || thing.at == PLACE)
        }
        _ => true,
    }
}

/// The same of all that a thing mentions.
fn is_thing_placed(heap: &Heap, row: &Row, thing: &Thing) -> bool {
    match thing {
        Thing::Object(_, fields) => fields
            .iter()
            .all(|field| is_value_placed(heap, row, &field.value)),
        Thing::Elements(values) => values.iter().all(|value| is_value_placed(heap, row, value)),
        Thing::Pairs(pairs) => pairs.iter().all(|pair| is_value_placed(heap, row, &pair.0)),
        _ => true,
    }
}

/// Whether a row's things moved first, in its order.
fn are_moved(heap: &Heap, row: &Row, moved: &Moved) -> bool {
    for (number, serial) in row.moves.iter().enumerate() {
        let Some(item) = moved.get(number) else {
            return false;
        };
        if item.id.serial != *serial || !is_thing_placed(heap, row, &item.thing) {
            return false;
        }
    }
    true
}

/// How many things moved, where a row's are the first of them, and they and the values that are handed over are placed.
fn count_of(heap: &Heap, row: &Row, values: &[Value], moved: &Moved) -> Option<usize> {
    let is_placed = values.iter().all(|value| is_value_placed(heap, row, value));
    if is_placed && are_moved(heap, row, moved) {
        return Some(moved.len());
    }
    None
}

/// How many things these values move out of a heap, where a row's are the first of them, and they and the values come with the places of what left.
fn publish(
    alloc: Global,
    heap: &mut Heap,
    known: &mut Known,
    row: &Row,
    values: Vec<Value>,
) -> Result<Option<usize>, AllocError> {
    let Some(values) = addressed_all(heap, known, values) else {
        return Err(AllocError);
    };
    let moved = gather(alloc, heap, known, &values)?;
    known.reserve(moved.len())?;
    commit(heap, known, &moved);
    Ok(count_of(heap, row, &values, &moved))
}

/// Whether what a row hands over moves what it says out of a heap, and nothing more.
fn is_row(
    alloc: Global,
    heap: &mut Heap,
    known: &mut Known,
    row: &Row,
) -> Result<bool, AllocError> {
    make_four(heap, alloc)?;
    mention_all(heap, row)?;
    if let Some(serial) = row.left {
        leave(heap, thing(serial), known)?;
    }
    let moved = publish(alloc, heap, known, row, handed(alloc, row.handed)?)?;
    Ok(moved == Some(row.moves.len()))
}

/// The same out of a new heap.
fn is_right(alloc: Global, row: &Row) -> Result<bool, AllocError> {
    let mut heap = new_heap(alloc)?;
    is_row(alloc, &mut heap, &mut Known::new(alloc), row)
}

/// The first row that is not so.
fn first_wrong(alloc: Global) -> Result<Option<usize>, AllocError> {
    for (number, row) in ROWS.iter().enumerate() {
        if !is_right(alloc, row)? {
            return Ok(Some(number));
        }
    }
    Ok(None)
}

/// A row that says nothing.
const ANY: Row = Row {
    mentions: &[],
    left: None,
    handed: &[],
    moves: &[],
};

/// Makes a chain of so many objects, each of which mentions the one before, behind a long list that the first mentions. What it hands over is the last.
fn chain(heap: &mut Heap, alloc: Global, count: usize) -> Result<Vec<Value>, AllocError> {
    let mut last = heap.make(Make::Filled(1_000_000, Value::Int(7)))?;
    for _ in 0..count {
        let object = heap.make(Make::Object(0))?;
        let set = Act::SetField(NameId(0), Value::Ref(last));
        does(heap, object.id, set)?;
        last = object;
    }
    let mut values = Vec::new(alloc);
    values.push(Value::Ref(last))?;
    Ok(values)
}

/// How many things a chain of so many objects moves.
fn moved_by_chain(alloc: Global, count: usize) -> Result<Option<usize>, AllocError> {
    let mut heap = new_heap(alloc)?;
    let values = chain(&mut heap, alloc, count)?;
    publish(alloc, &mut heap, &mut Known::new(alloc), &ANY, values)
}

#[test]
fn graphs_move_whole(rt: HostRuntime) -> Result<(), Fail> {
    assert_eq!(rt; first_wrong(rt.alloc())?, None);
    Ok(())
}

#[test]
fn a_long_chain_moves(rt: HostRuntime) -> Result<(), Fail> {
    assert_eq!(rt; moved_by_chain(rt.alloc(), 100_000)?, Some(100_001));
    Ok(())
}
