// One list.

ghost use Rattle.std.specs.Prelude.{◌≡◌, ◌≤◌, length, replicate, true, false, None, Some, IfSome, IfOk, OnErr};
ghost use Rattle.std.specs.Option.{option_map};
ghost use Rattle.rb_model.specs.Values.{or_nil as nil_or, plain};
ghost use Rattle.rb_model.specs.Flags.{value_of};
ghost use Rattle.rb_model.specs.Acts.{Clear, Copy, DeleteAt, Len, Pop, Push, Put, Shift, Unshift, At};
ghost use Rattle.rb_model.specs.Acts as answer;
ghost use Rattle.rb_model.specs.Doing.{doing, seen};
ghost use Rattle.rb_model.specs.Things.{gives, is_integer, max_elements};
ghost use Rattle.rb_model.specs.Immediates.{if_list as list_if, list_replied, reference, taking, told, told_reply, value_told};
ghost use Rattle.local_heap.specs.Memory.{at_once, may_want};
ghost use Rattle.local_heap.specs.Contents.{Does, DoesTake, DoesWrite, Refuses, Tells, listed, was_done};

use array_strategy::{LocalArray, Peeked, PutFault};
use rb_model::{Act, Fault, Immediate, Ref, Reply, Side, Sort, Thing, Value};
use std::alloc::{AllocError, Global};
use typed_location::Flag;

/// The elements of a list.
pub type List = LocalArray<Value>;

/// The list of these elements. That there are more than a list may have is told as want of memory.
pub fn made(alloc: Global, values: Vec<Value>) -> Result<List, AllocError>
    ensures items { IfOk result (λ list. list.items ≡ values.items) }
    ensures few { IfOk result (λ list. length list.items ≤ max_elements) }
{
    match LocalArray::from_vec(alloc, values) {
        Ok(list) => Ok(list),
        Err(_) => Err(AllocError),
    }
}

/// The list of so many times a value. That there are more than a list may have is told as want of memory.
pub fn filled(alloc: Global, count: usize, value: Value) -> Result<List, AllocError>
    ensures items { IfOk result (λ list. list.items ≡ replicate count value) }
    ensures few { IfOk result (λ list. length list.items ≤ max_elements) }
{
    match LocalArray::filled(alloc, count, value) {
        Ok(list) => Ok(list),
        Err(_) => Err(AllocError),
    }
}

/// Does what is asked of a list.
#[inline(never)]
pub fn apply(list: &mut List, act: Act) -> Result<Reply, AllocError>
    ensures { Does (listed list.old) (doing act) result (listed list.new) }
{
    match act {
        Act::At(index) => read(list, index),
        Act::Put(index, value) => put(list, index, value),
        Act::Push(value) => push(list, value),
        Act::Unshift(value) => unshift(list, value),
        Act::Pop => pop(list),
        Act::Shift => shift(list),
        Act::DeleteAt(index) => delete_at(list, index),
        Act::Clear => clear(list),
        Act::Len => len(list),
        Act::Copy => copy(list),
        _ => Ok(Reply::Failed(Fault::NoMethod)),
    }
}

/// The element at an index.
#[inline(always)]
pub fn at(list: &List, index: i64) -> Result<Value, AllocError>
    ensures value { IfOk result (λ value. answer.Value (plain value) ≡ gives (listed list.now) (At index)) }
    ensures refused { OnErr result (may_want (listed list.now) (At index) ≡ true) }
{
    Ok(or_nil(list.at(index)?))
}

/// The element at an index, told where it is an immediate value. Nothing is copied or shared.
#[inline(always)]
pub fn immediate(list: &List, index: i64) -> Immediate
    ensures { result ≡ told_reply (gives (listed list.now) (At index)) }
{
    match list.peek(index) {
        Peeked::Nothing => Immediate::Nil,
        Peeked::Int(n) => Immediate::Int(n),
        Peeked::Flag(flag) => immediate_of_flag(flag),
        Peeked::Item(value) => immediate_of(value),
    }
}

/// Gives an element an immediate value, where the list has the element and it fits where it stands. Else nothing is done.
#[inline(always)]
pub fn put_immediate(list: &mut List, index: i64, value: Immediate) -> bool
    ensures does { DoesWrite result (listed list.old) (Put index) (value_told value) (listed list.new) }
    ensures refused { result ≡ false → IfSome (value_told value) (λ v. at_once (listed list.old) (Put index v) ≡ false) }
{
    match value {
        Immediate::Int(n) => list.put_int(index, n),
        other => put_flag(list, index, other),
    }
}

/// Gives an element nil or a truth value, where the list has the element and it fits where it stands. Else nothing is done.
#[inline(always)]
fn put_flag(list: &mut List, index: i64, value: Immediate) -> bool
    ensures does { DoesWrite result (listed list.old) (Put index) (value_told value) (listed list.new) }
    ensures refused { result ≡ false → IfSome (value_told value) (λ v. is_integer v ≡ false → at_once (listed list.old) (Put index v) ≡ false) }
{
    match flag_told(value) {
        Some(flag) => list.put_flag(index, flag),
        None => false,
    }
}

/// Puts an immediate value behind the last element, where the list may have one more and it fits to the others. Else nothing is done.
#[inline(always)]
pub fn push_immediate(list: &mut List, value: Immediate) -> Result<bool, AllocError>
    ensures does { DoesWrite (was_done result) (listed list.old) Push (value_told value) (listed list.new) }
    ensures refused { IfOk result (λ done. done ≡ false → IfSome (value_told value) (λ v. at_once (listed list.old) (Push v) ≡ false)) }
{
    match value {
        Immediate::Int(n) => list.push_int(n),
        other => push_flag(list, other),
    }
}

/// Puts nil or a truth value behind the last element, where the list may have one more and it fits to the others. Else nothing is done.
#[inline(always)]
fn push_flag(list: &mut List, value: Immediate) -> Result<bool, AllocError>
    ensures does { DoesWrite (was_done result) (listed list.old) Push (value_told value) (listed list.new) }
    ensures refused { IfOk result (λ done. done ≡ false → IfSome (value_told value) (λ v. is_integer v ≡ false → at_once (listed list.old) (Push v) ≡ false)) }
{
    match flag_told(value) {
        Some(flag) => list.push_flag(flag),
        None => Ok(false),
    }
}

/// Takes an element that is an immediate value out at an end. Of any other nothing is done.
#[inline(always)]
pub fn take_immediate(list: &mut List, side: Side) -> Immediate
    ensures told { result ≡ told_reply (gives (listed list.old) (taking side)) }
    ensures does { DoesTake (value_told result) (listed list.old) (taking side) (listed list.new) }
{
    match side {
        Side::First => shift_immediate(list),
        Side::Last => pop_immediate(list),
    }
}

/// Takes the first element out, where it is an immediate value.
#[inline(always)]
fn shift_immediate(list: &mut List) -> Immediate
    ensures told { result ≡ told_reply (gives (listed list.old) Shift) }
    ensures does { DoesTake (value_told result) (listed list.old) Shift (listed list.new) }
{
    let told = immediate(list, 0);
    if let Immediate::Other = told {
        return told;
    }
    let _ = list.shift();
    told
}

/// Takes the last element out, where it is an immediate value.
#[inline(always)]
fn pop_immediate(list: &mut List) -> Immediate
    ensures told { result ≡ told_reply (gives (listed list.old) Pop) }
    ensures does { DoesTake (value_told result) (listed list.old) Pop (listed list.new) }
{
    let told = immediate(list, -1);
    if let Immediate::Other = told {
        return told;
    }
    let _ = list.pop();
    told
}

/// Nil or a truth value that is told, if it is one.
#[inline(always)]
fn flag_told(value: Immediate) -> Option<Flag>
    ensures some { IfSome result (λ flag. value_told value ≡ Some (plain (value_of flag))) }
    ensures none { result ≡ None → IfSome (value_told value) (λ v. is_integer v ≡ true) }
{
    match value {
        Immediate::Nil => Some(Flag::Nil),
        Immediate::False => Some(Flag::False),
        Immediate::True => Some(Flag::True),
        Immediate::Int(_) => None,
        Immediate::Other => None,
    }
}

/// A value, told where it is an immediate one.
#[inline(always)]
pub fn immediate_of(value: &Value) -> Immediate
    ensures { result ≡ told (plain value.now) }
{
    match value {
        Value::Nil => Immediate::Nil,
        Value::False => Immediate::False,
        Value::True => Immediate::True,
        Value::Int(n) => Immediate::Int(*n),
        Value::Sym(_) => Immediate::Other,
        Value::Str(_) => Immediate::Other,
        Value::Ref(_) => Immediate::Other,
    }
}

/// Nil or a truth value, told as an immediate one.
#[inline(always)]
fn immediate_of_flag(flag: Flag) -> Immediate
    ensures { result ≡ told (plain (value_of flag)) }
{
    match flag {
        Flag::Nil => Immediate::Nil,
        Flag::False => Immediate::False,
        Flag::True => Immediate::True,
    }
}

/// The list that the element at an index is, if it is one.
#[inline(always)]
pub fn list_at(list: &List, index: i64) -> Option<Ref>
    ensures { option_map reference result ≡ list_replied (gives (listed list.now) (At index)) }
{
    match list.peek(index) {
        Peeked::Nothing => None,
        Peeked::Int(_) => None,
        Peeked::Flag(_) => None,
        Peeked::Item(value) => list_in(value),
    }
}

/// The list that a value is a reference to, if it is one.
#[inline(always)]
fn list_in(value: &Value) -> Option<Ref>
    ensures { option_map reference result ≡ list_replied (answer.Value (plain value.now)) }
{
    match value {
        Value::Nil => None,
        Value::False => None,
        Value::True => None,
        Value::Int(_) => None,
        Value::Sym(_) => None,
        Value::Str(_) => None,
        Value::Ref(thing) => if_list(*thing),
    }
}

/// A reference, if it is one to a list.
#[inline(always)]
fn if_list(thing: Ref) -> Option<Ref>
    ensures { option_map reference result ≡ list_if thing.sort (reference thing) }
{
    match thing.sort {
        Sort::List => Some(thing),
        Sort::Object(_) => None,
        Sort::Pairs => None,
        Sort::Mutex => None,
        Sort::Thread => None,
    }
}

/// A value where there is one, and else nil.
#[inline(always)]
fn or_nil(found: Option<Value>) -> Value
    ensures { plain result ≡ nil_or (option_map plain found) }
{
    match found {
        Some(value) => value,
        None => Value::Nil,
    }
}

#[inline(always)]
fn read(list: &List, index: i64) -> Result<Reply, AllocError>
    ensures { Does (listed list.now) (At index) result (listed list.now) }
{
    Ok(Reply::Value(at(list, index)?))
}

#[inline(always)]
fn put(list: &mut List, index: i64, value: Value) -> Result<Reply, AllocError>
    ensures { Does (listed list.old) (Put index (plain value)) result (listed list.new) }
{
    answered(list.put(index, value, Value::Nil))
}

fn push(list: &mut List, value: Value) -> Result<Reply, AllocError>
    ensures { Does (listed list.old) (Push (plain value)) result (listed list.new) }
{
    answered(list.push(value))
}

fn unshift(list: &mut List, value: Value) -> Result<Reply, AllocError>
    ensures { Does (listed list.old) (Unshift (plain value)) result (listed list.new) }
{
    answered(list.unshift(value))
}

/// What a list answers to a write.
#[inline(always)]
fn answered(done: Result<(), PutFault>) -> Result<Reply, AllocError>
    ensures { Tells done result }
{
    match done {
        Ok(()) => Ok(Reply::Done),
        Err(fault) => refused(fault),
    }
}

/// What a list answers to a write that it refused.
fn refused(fault: PutFault) -> Result<Reply, AllocError>
    ensures { Refuses fault result }
{
    match fault {
        PutFault::TooSmall => Ok(Reply::Failed(Fault::IndexTooSmall)),
        PutFault::TooLong => Ok(Reply::Failed(Fault::ArrayTooLong)),
        PutFault::Memory => Err(AllocError),
    }
}

fn pop(list: &mut List) -> Result<Reply, AllocError>
    ensures { Does (listed list.old) Pop result (listed list.new) }
{
    Ok(Reply::Value(or_nil(list.pop())))
}

fn shift(list: &mut List) -> Result<Reply, AllocError>
    ensures { Does (listed list.old) Shift result (listed list.new) }
{
    Ok(Reply::Value(or_nil(list.shift())))
}

fn delete_at(list: &mut List, index: i64) -> Result<Reply, AllocError>
    ensures { Does (listed list.old) (DeleteAt index) result (listed list.new) }
{
    Ok(Reply::Value(or_nil(list.delete_at(index))))
}

fn clear(list: &mut List) -> Result<Reply, AllocError>
    ensures { Does (listed list.old) Clear result (listed list.new) }
{
    list.clear();
    Ok(Reply::Done)
}

#[inline(always)]
fn len(list: &List) -> Result<Reply, AllocError>
    ensures { Does (listed list.now) Len result (listed list.now) }
{
    Ok(Reply::Value(Value::Int(list.len() as i64)))
}

fn copy(list: &List) -> Result<Reply, AllocError>
    ensures { Does (listed list.now) Copy result (listed list.now) }
{
    Ok(Reply::Elements(list.to_vec()?))
}

/// A copy of a list.
pub fn told(list: &List) -> Result<Thing, AllocError>
    ensures { IfOk result (λ thing. seen thing ≡ listed list.now) }
{
    Ok(Thing::Elements(list.to_vec()?))
}
