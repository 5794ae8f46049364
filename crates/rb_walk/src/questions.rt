// What arrays and hashes are asked by the methods that scripts call most, found without a walk through the table of methods.

ghost use Rattle.std.specs.Prelude.{◌≡◌, true, IfSome, Some, None, [], ◌∷◌, map};
ghost use Rattle.rb_model.specs.Values.{Value as Val, Int, To, plain};
ghost use Rattle.rb_builtin.specs.Deeds.{thing_of, walk_answer, hash_answer, thing_answer};
ghost use Rattle.rb_model.specs.Acts.{KGet};
ghost use Rattle.rb_walk.specs.Questions.{IsAskedBy, IsAsking, IsElement, IsKeyPut, IsPush, IsPut, IsTaking, answer_by};

use crate::gathering::is_collection;
use rb_builtin::{Behind, Builtin};
use rb_model::{Act, Ref, Side, Sort, Value};

/// What a thing is asked, and what is answered behind its reply.
#[derive(Drop)]
pub struct Question {
    pub thing: Ref,
    pub act: Act,
    pub behind: Behind,
}

/// A question whose reply is the answer.
fn asks(thing: Ref, act: Act) -> Option<Question>
    ensures { result ≡ Some (record { thing = thing; act = act; behind = Behind.Reply }) }
{
    Some(Question {
        thing,
        act,
        behind: Behind::Reply,
    })
}

/// The element of an array at an index that is an integer.
#[inline(always)]
fn element(array: Ref, args: &[Value]) -> Option<Question>
    ensures { IfSome result (λ q. walk_answer (thing_of array) Builtin.Index (map plain args.now) None ≡ answer_by q) }
{
    match args {
        [Value::Int(index)] => asks(array, Act::At(*index)),
        _ => None,
    }
}

/// The value of a key of a hash.
#[inline(always)]
fn value_of(hash: Ref, args: &[Value]) -> Option<Question>
    ensures { IfSome result (λ q. hash_answer (thing_of hash) Builtin.Index (map plain args.now) None ≡ answer_by q) }
{
    let [key] = args else {
        return None;
    };
    if is_collection(key) {
        return None;
    }
    match key.share() {
        Ok(key) => asks(hash, Act::KGet(key)),
        Err(_) => None,
    }
}

/// An element of an array gets a value, by an index that is an integer.
#[inline(always)]
fn put(array: Ref, args: &[Value]) -> Option<Question>
    ensures { IfSome result (λ q. walk_answer (thing_of array) Builtin.SetIndex (map plain args.now) None ≡ answer_by q) }
{
    let [Value::Int(index), value] = args else {
        return None;
    };
    match value.share() {
        Ok(value) => asks(array, Act::Put(*index, value)),
        Err(_) => None,
    }
}

/// A key of a hash gets a value.
#[inline(always)]
fn put_key(hash: Ref, args: &[Value]) -> Option<Question>
    ensures { IfSome result (λ q. hash_answer (thing_of hash) Builtin.SetIndex (map plain args.now) None ≡ answer_by q) }
{
    let [key, value] = args else {
        return None;
    };
    if is_collection(key) {
        return None;
    }
    let Ok(key) = key.share() else {
        return None;
    };
    match value.share() {
        Ok(value) => asks(hash, Act::KPut(key, value)),
        Err(_) => None,
    }
}

/// An element comes behind the others.
#[inline(always)]
fn append(array: Ref, args: &[Value]) -> Option<Question>
    ensures { IfSome result (λ q. walk_answer (thing_of array) Builtin.Append (map plain args.now) None ≡ answer_by q) }
{
    let [value] = args else {
        return None;
    };
    match value.share() {
        Ok(value) => Some(Question {
            thing: array,
            act: Act::Push(value),
            behind: Behind::Receiver,
        }),
        Err(_) => None,
    }
}

/// Whether a method asks an array for an element.
pub fn is_element(thing: Ref, method: Option<Builtin>) -> bool
    ensures { result ≡ true → IsElement thing method }
{
    match (thing.sort, method) {
        (Sort::List, Some(Builtin::Index)) => true,
        _ => false,
    }
}

/// The index of the element that a method with this argument asks an array for.
#[inline(always)]
pub fn index_for(thing: Ref, method: Option<Builtin>, arg: &Value) -> Option<i64>
    ensures index { IfSome result (λ index. plain arg.now ≡ Int index) }
    ensures asked { IfSome result (λ index. IsElement thing method) }
{
    let Value::Int(index) = arg else {
        return None;
    };
    if is_element(thing, method) {
        Some(*index)
    } else {
        None
    }
}

/// Whether a method puts its one argument behind the elements of an array, and answers with the array.
#[inline(always)]
pub fn is_push(thing: Ref, method: Option<Builtin>) -> bool
    ensures { result ≡ true → IsPush thing method }
{
    match (thing.sort, method) {
        (Sort::List, Some(Builtin::Append)) => true,
        (Sort::List, Some(Builtin::Push)) => true,
        _ => false,
    }
}

/// The end at which a method without arguments takes an element out of an array.
#[inline(always)]
pub fn side_for(thing: Ref, method: Option<Builtin>) -> Option<Side>
    ensures { IfSome result (λ side. IsTaking thing method side) }
{
    match (thing.sort, method) {
        (Sort::List, Some(Builtin::Shift)) => Some(Side::First),
        (Sort::List, Some(Builtin::Pop)) => Some(Side::Last),
        _ => None,
    }
}

/// Whether a method asks a hash for the value of a key.
#[inline(always)]
pub fn is_value(thing: Ref, method: Option<Builtin>, key: &Value) -> bool
    ensures { result ≡ true → IsAsking thing method (plain key.now) (KGet (plain key.now)) }
{
    match (thing.sort, method) {
        (Sort::Pairs, Some(Builtin::Index)) => !is_collection(key),
        _ => false,
    }
}

/// Whether a method gives a key of a hash a value.
#[inline(always)]
pub fn is_key_put(thing: Ref, method: Option<Builtin>, key: &Value) -> bool
    ensures { result ≡ true → IsKeyPut thing method (plain key.now) }
{
    match (thing.sort, method) {
        (Sort::Pairs, Some(Builtin::SetIndex)) => !is_collection(key),
        _ => false,
    }
}

/// The index of the element of an array that an assignment by a method gives a value.
#[inline(always)]
pub fn place_for(thing: Ref, method: Option<Builtin>, index: &Value) -> Option<i64>
    ensures index { IfSome result (λ place. plain index.now ≡ Int place) }
    ensures asked { IfSome result (λ place. (value : Val) → IsPut (To (thing_of thing)) method thing place value) }
{
    let Value::Int(place) = index else {
        return None;
    };
    match (thing.sort, method) {
        (Sort::List, Some(Builtin::SetIndex)) => Some(*place),
        _ => None,
    }
}

/// The element of an array that a call of a method gives a value, by its index, and the value.
#[inline(always)]
pub fn put_of<'v>(
    receiver: &Value,
    method: Option<Builtin>,
    args: &'v [Value],
) -> Option<(Ref, i64, &'v Value)>
    ensures asked { IfSome result (λ put. IsPut (plain receiver.now) method put.0 put.1 (plain put.2.now)) }
    ensures args { IfSome result (λ put. map plain args.now ≡ Int put.1 ∷ plain put.2.now ∷ []) }
{
    let Value::Ref(array) = receiver else {
        return None;
    };
    let [Value::Int(index), value] = args else {
        return None;
    };
    match (array.sort, method) {
        (Sort::List, Some(Builtin::SetIndex)) => Some((*array, *index, value)),
        _ => None,
    }
}

/// What a thing is asked for the value at an index or a key.
fn index(thing: Ref, args: &[Value]) -> Option<Question>
    ensures { IfSome result (λ q. thing_answer thing.sort (thing_of thing) Builtin.Index (map plain args.now) None ≡ answer_by q) }
{
    match thing.sort {
        Sort::List => element(thing, args),
        Sort::Pairs => value_of(thing, args),
        _ => None,
    }
}

/// What a thing is asked to have a value at an index or a key.
fn set_index(thing: Ref, args: &[Value]) -> Option<Question>
    ensures { IfSome result (λ q. thing_answer thing.sort (thing_of thing) Builtin.SetIndex (map plain args.now) None ≡ answer_by q) }
{
    match thing.sort {
        Sort::List => put(thing, args),
        Sort::Pairs => put_key(thing, args),
        _ => None,
    }
}

/// What an array is asked to have a value behind the others.
fn add(thing: Ref, args: &[Value]) -> Option<Question>
    ensures { IfSome result (λ q. thing_answer thing.sort (thing_of thing) Builtin.Append (map plain args.now) None ≡ answer_by q) }
{
    match thing.sort {
        Sort::List => append(thing, args),
        _ => None,
    }
}

/// How many elements or pairs there are.
fn length(thing: Ref, args: &[Value]) -> Option<Question>
    ensures { IfSome result (λ q. thing_answer thing.sort (thing_of thing) Builtin.Length (map plain args.now) None ≡ answer_by q) }
{
    let [] = args else {
        return None;
    };
    match thing.sort {
        Sort::List | Sort::Pairs => asks(thing, Act::Len),
        _ => None,
    }
}

/// What a call of a method asks a thing at once. Where it is none here, the table of methods says what the call does.
pub fn question_of(receiver: &Value, method: Option<Builtin>, args: &[Value]) -> Option<Question>
    ensures { IfSome result (λ q. IsAskedBy (plain receiver.now) method (map plain args.now) q) }
{
    let Value::Ref(thing) = receiver else {
        return None;
    };
    match method? {
        Builtin::Index => index(*thing, args),
        Builtin::SetIndex => set_index(*thing, args),
        Builtin::Append => add(*thing, args),
        Builtin::Length => length(*thing, args),
        _ => None,
    }
}
