// The pairs of one hash.

ghost use Rattle.std.specs.Prelude.{◌≡◌, ◌≤◌, length, map, IfOk};
ghost use Rattle.rb_model.specs.Values.{plain, truth as truth_of};
ghost use Rattle.rb_model.specs.Acts.{Clear, Copy, KDelete, KGet, KHas, KPut, Len};
ghost use Rattle.rb_model.specs.Doing.{doing, pair, seen};
ghost use Rattle.rb_model.specs.Things.{Pairs, gathered, gives, max_elements};
ghost use Rattle.rb_model.specs.Immediates.{told_reply};
ghost use Rattle.local_heap.specs.Contents.{Does, RefusesPair};
ghost use Rattle.local_heap.specs.Limits.{AreKeysOnce};

use crate::list::immediate_of;
use ordered_pairs::{OrderedPairs, PutFault};
use rb_model::{Act, Fault, Immediate, Reply, Thing, Value};
use std::alloc::{AllocError, Global};

/// The pairs of a hash as they are given, from the left. That there are more than a hash may have is told as want of memory.
pub fn made(alloc: Global, given: Vec<(Value, Value)>) -> Result<OrderedPairs, AllocError>
    ensures pairs { IfOk result (λ pairs. pairs ≡ gathered (map pair given.items)) }
    ensures few { IfOk result (λ pairs. length pairs ≤ max_elements) }
    ensures once { IfOk result AreKeysOnce }
{
    OrderedPairs::from_vec(alloc, given)
}

/// Does what is asked of the pairs of a hash.
#[inline(never)]
pub fn apply(pairs: &mut OrderedPairs, alloc: Global, act: Act) -> Result<Reply, AllocError>
    ensures { Does (Pairs pairs.old) (doing act) result (Pairs pairs.new) }
{
    match act {
        Act::KGet(key) => get(pairs, &key),
        Act::KHas(key) => has(pairs, &key),
        Act::KPut(key, value) => put(pairs, key, value),
        Act::KDelete(key) => delete(pairs, &key),
        Act::Clear => clear(pairs),
        Act::Len => len(pairs),
        Act::Copy => copy(pairs, alloc),
        _ => Ok(Reply::Failed(Fault::NoMethod)),
    }
}

#[inline(always)]
fn get(pairs: &OrderedPairs, key: &Value) -> Result<Reply, AllocError>
    ensures { Does (Pairs pairs.now) (KGet (plain key.now)) result (Pairs pairs.now) }
{
    Ok(Reply::Value(pairs.get(key)?))
}

/// The value of a key, told where it is an immediate one. Nothing is copied or shared.
#[inline(always)]
pub fn immediate(pairs: &OrderedPairs, key: &Value) -> Immediate
    ensures { result ≡ told_reply (gives (Pairs pairs.now) (KGet (plain key.now))) }
{
    match pairs.peek(key) {
        Some(value) => immediate_of(value),
        None => Immediate::Nil,
    }
}

fn has(pairs: &OrderedPairs, key: &Value) -> Result<Reply, AllocError>
    ensures { Does (Pairs pairs.now) (KHas (plain key.now)) result (Pairs pairs.now) }
{
    Ok(Reply::Value(truth(pairs.has(key))))
}

/// A truth value.
fn truth(holds: bool) -> Value
    ensures { plain result ≡ truth_of holds }
{
    if holds { Value::True } else { Value::False }
}

fn put(pairs: &mut OrderedPairs, key: Value, value: Value) -> Result<Reply, AllocError>
    ensures { Does (Pairs pairs.old) (KPut (plain key) (plain value)) result (Pairs pairs.new) }
{
    match pairs.put(key, value) {
        Ok(()) => Ok(Reply::Done),
        Err(fault) => refused(fault),
    }
}

/// What a hash answers to a pair that it refused.
fn refused(fault: PutFault) -> Result<Reply, AllocError>
    ensures { RefusesPair fault result }
{
    match fault {
        PutFault::TooLong => Ok(Reply::Failed(Fault::ArrayTooLong)),
        PutFault::Memory => Err(AllocError),
    }
}

fn delete(pairs: &mut OrderedPairs, key: &Value) -> Result<Reply, AllocError>
    ensures { Does (Pairs pairs.old) (KDelete (plain key.now)) result (Pairs pairs.new) }
{
    Ok(Reply::Value(pairs.delete(key)))
}

fn clear(pairs: &mut OrderedPairs) -> Result<Reply, AllocError>
    ensures { Does (Pairs pairs.old) Clear result (Pairs pairs.new) }
{
    pairs.clear();
    Ok(Reply::Done)
}

fn len(pairs: &OrderedPairs) -> Result<Reply, AllocError>
    ensures { Does (Pairs pairs.now) Len result (Pairs pairs.now) }
{
    Ok(Reply::Value(Value::Int(pairs.len() as i64)))
}

fn copy(pairs: &OrderedPairs, alloc: Global) -> Result<Reply, AllocError>
    ensures { Does (Pairs pairs.now) Copy result (Pairs pairs.now) }
{
    Ok(Reply::Pairs(pairs.copy(alloc)?))
}

/// A copy of the pairs of a hash.
pub fn told(pairs: &OrderedPairs, alloc: Global) -> Result<Thing, AllocError>
    ensures { IfOk result (λ thing. seen thing ≡ Pairs pairs.now) }
{
    Ok(Thing::Pairs(pairs.copy(alloc)?))
}
