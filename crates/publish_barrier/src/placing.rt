// References in things that move, as they are handed over.

ghost use Rattle.std.specs.Prelude.{◌≡◌, ◌++◌, ◌∷◌, [], map, OnOk};
ghost use Rattle.rb_model.specs.Doing.{pair, seen, slot};
ghost use Rattle.rb_model.specs.Moving.{refs_in, refs_in_all, refs_in_pairs, refs_in_thing};
ghost use Rattle.rb_model.specs.Values.{plain};
ghost use Rattle.rb_shared.specs.Lists.{Each};
ghost use Rattle.publish_barrier.specs.Gathers.{IsAddressed};
ghost use Rattle.publish_barrier.specs.Leaving.{IsNoThread, refs_in_fields};

use crate::addressing::addressed_ref;
use crate::known::Known;
use local_heap::LocalHeap;
use rb_model::{Field, Ref, Thing, Value};
use shape_core::ShapeStore;
use std::alloc::AllocError;
use std::collections::VecDeque;

/// A reference becomes as it is handed over, and waits behind the others. One that cannot be handed over is want of memory.
fn place_value<S: ShapeStore>(
    heap: &LocalHeap<S>,
    known: &Known,
    value: &mut Value,
    waiting: &mut VecDeque<Ref>,
) -> Result<(), AllocError>
    ensures value { OnOk result (plain value.new ≡ plain value.old) }
    ensures waits { OnOk result (waiting.new.items ≡ waiting.old.items ++ refs_in value.new) }
    ensures addressed { OnOk result (Each (IsAddressed heap.now known.now.refs) (refs_in value.new)) }
{
    match value {
        Value::Ref(thing) => {
            let Some(addressed) = addressed_ref(heap, known, *thing) else {
                return Err(AllocError);
            };
            waiting.push_back(addressed)?;
            *value = Value::Ref(addressed);
            Ok(())
        }
        _ => Ok(()),
    }
}

/// The same of the value of a field.
fn place_field<S: ShapeStore>(
    heap: &LocalHeap<S>,
    known: &Known,
    field: &mut Field,
    waiting: &mut VecDeque<Ref>,
) -> Result<(), AllocError>
    ensures field { OnOk result (slot field.new ≡ slot field.old) }
    ensures waits { OnOk result (waiting.new.items ≡ waiting.old.items ++ refs_in field.new.value) }
    ensures addressed { OnOk result (Each (IsAddressed heap.now known.now.refs) (refs_in field.new.value)) }
{
    place_value(heap, known, &mut field.value, waiting)
}

/// The same of a key and a value.
fn place_pair<S: ShapeStore>(
    heap: &LocalHeap<S>,
    known: &Known,
    row: &mut (Value, Value),
    waiting: &mut VecDeque<Ref>,
) -> Result<(), AllocError>
    ensures pair { OnOk result (pair row.new ≡ pair row.old) }
    ensures waits { OnOk result (waiting.new.items ≡ waiting.old.items ++ refs_in row.new.0 ++ refs_in row.new.1) }
    ensures addressed { OnOk result (Each (IsAddressed heap.now known.now.refs) (refs_in row.new.0 ++ refs_in row.new.1)) }
{
    place_value(heap, known, &mut row.0, waiting)?;
    place_value(heap, known, &mut row.1, waiting)?;
    Ok(())
}

/// The same of each element.
fn place_values<S: ShapeStore>(
    heap: &LocalHeap<S>,
    known: &Known,
    values: &mut Vec<Value>,
    waiting: &mut VecDeque<Ref>,
) -> Result<(), AllocError>
    ensures values { OnOk result (map plain values.new.items ≡ map plain values.old.items) }
    ensures waits { OnOk result (waiting.new.items ≡ waiting.old.items ++ refs_in_all values.new.items) }
    ensures addressed { OnOk result (Each (IsAddressed heap.now known.now.refs) (refs_in_all values.new.items)) }
{
    let mut at = 0;
    'values: while at < values.len() {
        place_value(heap, known, &mut values[at], waiting)?;
        at += 1;
    }
    Ok(())
}

/// The same of each field.
fn place_fields<S: ShapeStore>(
    heap: &LocalHeap<S>,
    known: &Known,
    fields: &mut Vec<Field>,
    waiting: &mut VecDeque<Ref>,
) -> Result<(), AllocError>
    ensures fields { OnOk result (map slot fields.new.items ≡ map slot fields.old.items) }
    ensures waits { OnOk result (waiting.new.items ≡ waiting.old.items ++ refs_in_fields fields.new.items) }
    ensures addressed { OnOk result (Each (IsAddressed heap.now known.now.refs) (refs_in_fields fields.new.items)) }
{
    let mut at = 0;
    'fields: while at < fields.len() {
        place_field(heap, known, &mut fields[at], waiting)?;
        at += 1;
    }
    Ok(())
}

/// The same of each pair.
fn place_pairs<S: ShapeStore>(
    heap: &LocalHeap<S>,
    known: &Known,
    pairs: &mut Vec<(Value, Value)>,
    waiting: &mut VecDeque<Ref>,
) -> Result<(), AllocError>
    ensures pairs { OnOk result (map pair pairs.new.items ≡ map pair pairs.old.items) }
    ensures waits { OnOk result (waiting.new.items ≡ waiting.old.items ++ refs_in_pairs pairs.new.items) }
    ensures addressed { OnOk result (Each (IsAddressed heap.now known.now.refs) (refs_in_pairs pairs.new.items)) }
{
    let mut at = 0;
    'pairs: while at < pairs.len() {
        place_pair(heap, known, &mut pairs[at], waiting)?;
        at += 1;
    }
    Ok(())
}

/// The references of a thing become as they are handed over, and wait behind the others. Each value is looked at once.
pub fn place_thing<S: ShapeStore>(
    heap: &LocalHeap<S>,
    known: &Known,
    thing: &mut Thing,
    waiting: &mut VecDeque<Ref>,
) -> Result<(), AllocError>
    requires { IsNoThread (seen thing.old) }
    ensures thing { OnOk result (seen thing.new ≡ seen thing.old) }
    ensures waits { OnOk result (waiting.new.items ≡ waiting.old.items ++ refs_in_thing thing.new) }
    ensures addressed { OnOk result (Each (IsAddressed heap.now known.now.refs) (refs_in_thing thing.new)) }
{
    match thing {
        Thing::Object(_, fields) => place_fields(heap, known, fields, waiting),
        Thing::Elements(values) => place_values(heap, known, values, waiting),
        Thing::Pairs(pairs) => place_pairs(heap, known, pairs, waiting),
        Thing::Mutex(_) => Ok(()),
        Thing::Thread(_) => Ok(()),
    }
}
