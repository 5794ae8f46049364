// References as they are handed over.

ghost use Rattle.std.specs.Prelude.{◌≡◌, IfNone, IfSome, None, Some};
ghost use Rattle.rb_model.specs.Values.{plain};
ghost use Rattle.publish_barrier.specs.Gathers.{Addresses, AddressesAct, AddressesAll, AddressesRef, address, address_act, address_all, address_ref};

use crate::known::Known;
use local_heap::LocalHeap;
use rb_model::{Act, Ref, Value};
use shape_core::ShapeStore;
use std::mem;

/// A reference as it is handed over: as it is where its thing is private here and will move, and else the noted one, with its place. None where
/// it is neither.
pub(crate) fn addressed_ref<S: ShapeStore>(
    heap: &LocalHeap<S>,
    known: &Known,
    thing: Ref,
) -> Option<Ref>
    ensures exact { result ≡ address_ref heap.now known.now.refs thing }
    ensures same { IfSome result (λ r. AddressesRef heap.now known.now.refs thing r) }
{
    if heap.holds(thing.id) {
        return Some(thing);
    }
    known.find_same(thing)
}

/// A value as it is handed over.
pub fn addressed<S: ShapeStore>(heap: &LocalHeap<S>, known: &Known, value: Value) -> Option<Value>
    ensures exact { result ≡ address heap.now known.now.refs value }
    ensures same { IfSome result (λ w. Addresses heap.now known.now.refs (plain value) w) }
{
    match value {
        Value::Ref(thing) => Some(Value::Ref(addressed_ref(heap, known, thing)?)),
        Value::Nil => Some(Value::Nil),
        Value::False => Some(Value::False),
        Value::True => Some(Value::True),
        Value::Int(n) => Some(Value::Int(n)),
        Value::Sym(name) => Some(Value::Sym(name)),
        Value::Str(text) => Some(Value::Str(text)),
    }
}

/// The same of each of some values.
pub fn addressed_all<S: ShapeStore>(
    heap: &LocalHeap<S>,
    known: &Known,
    mut values: Vec<Value>,
) -> Option<Vec<Value>>
    ensures some { IfSome result (λ ws. address_all heap.now known.now.refs values.items ≡ Some ws.items) }
    ensures none { IfNone result (address_all heap.now known.now.refs values.items ≡ None) }
    ensures same { IfSome result (λ ws. AddressesAll heap.now known.now.refs values.items ws.items) }
{
    let len = values.len();
    'values: for k in 0..len {
        let value = mem::replace(&mut values[k], Value::Nil);
        values[k] = addressed(heap, known, value)?;
    }
    Some(values)
}

/// The same of what an act hands over.
pub fn addressed_act<S: ShapeStore>(heap: &LocalHeap<S>, known: &Known, act: Act) -> Option<Act>
    ensures exact { result ≡ address_act heap.now known.now.refs act }
    ensures same { IfSome result (λ a. AddressesAct heap.now known.now.refs act a) }
{
    match act {
        Act::SetField(name, value) => Some(Act::SetField(name, addressed(heap, known, value)?)),
        Act::Put(index, value) => Some(Act::Put(index, addressed(heap, known, value)?)),
        Act::Push(value) => Some(Act::Push(addressed(heap, known, value)?)),
        Act::Unshift(value) => Some(Act::Unshift(addressed(heap, known, value)?)),
        Act::KGet(key) => Some(Act::KGet(addressed(heap, known, key)?)),
        Act::KHas(key) => Some(Act::KHas(addressed(heap, known, key)?)),
        Act::KPut(key, value) => Some(Act::KPut(
            addressed(heap, known, key)?,
            addressed(heap, known, value)?,
        )),
        Act::KDelete(key) => Some(Act::KDelete(addressed(heap, known, key)?)),
        Act::GetField(name) => Some(Act::GetField(name)),
        Act::At(index) => Some(Act::At(index)),
        Act::Pop => Some(Act::Pop),
        Act::Shift => Some(Act::Shift),
        Act::DeleteAt(index) => Some(Act::DeleteAt(index)),
        Act::Clear => Some(Act::Clear),
        Act::Len => Some(Act::Len),
        Act::Copy => Some(Act::Copy),
        Act::Join => Some(Act::Join),
        Act::Lock => Some(Act::Lock),
        Act::Unlock => Some(Act::Unlock),
    }
}
