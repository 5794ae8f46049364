// Leaves, and operations on integers, which call nothing of the walk.

ghost use Rattle.rb_tree.specs.declared.node.Program.{Program};
ghost use Rattle.std.specs.Prelude.{◌≡◌, ◌≢◌, ◌<◌, ◌≤◌, ℕ, List, [], ◌∷◌, length, map, slice_get, Some, None, IfSome, true, false};
ghost use Rattle.rb_tree.specs.declared.node.Node.{out-Node};
ghost use Rattle.rb_tree.specs.Place.{place};
ghost use Rattle.rb_model.specs.Values.{Int, plain, truthy};
ghost use Rattle.rb_model.specs.declared.value.Value.{Value as Held};
ghost use Rattle.rb_model.specs.declared.value.Value.TheVariants as held;
ghost use Rattle.rb_machine.specs.Methods.{deed};
ghost use Rattle.rb_builtin.specs.Names.{builtin_of};
ghost use Rattle.rb_builtin.specs.declared.integer.IntegerAnswer.TheVariants as answer;
ghost use Rattle.rb_builtin.specs.Integers as integers;
ghost use Rattle.rb_code.specs.Erase.{erase};
ghost use Rattle.rb_walk.specs.Outcome.{is_left, value_of};
ghost use Rattle.rb_walk.specs.Answers.{IsComputed, IsHeld, IsHeldAlone, IsTested, IsMade, IsSmall, IsQuick, IsTwice, IsUpdated, IsUpdatedOver, IsWritten, is_thing, method_of, steps_of};

use crate::MAX_DEPTH;
use crate::came::Came;
use crate::slots::put;
use rb_builtin::{Builtin, IntegerAnswer, integer_operation, is_operation};
use rb_code::{Code, CodePiece};
use rb_model::{Ref, SharedText, Sort, Value};
use rb_render::MAX_BYTES;
use rb_tree::{AssignOp, Span};

/// Whether a value is true: only nil and false are not.
pub fn is_true(value: &Value) -> bool
    ensures { result ≡ truthy (plain value.now) }
{
    match value {
        Value::Nil | Value::False => false,
        _ => true,
    }
}

/// Whether a value is true, as what came.
#[inline(always)]
fn truth_of(value: &Value) -> Came
    ensures left { is_left result ≡ false }
    ensures truth { (held : Held) → truthy (value_of result held) ≡ truthy (plain value.now) }
{
    if is_true(value) {
        Came::True
    } else {
        Came::False
    }
}

/// Whether the value of a local is true, as what came, where a step is left for it and it does not stand too deep.
#[inline(always)]
pub fn tested(code: &Code, room: &[Value], left: u64, depth: u32) -> Option<Came>
    ensures more { IfSome result (λ _. 0 < left) }
    ensures deep { IfSome result (λ _. depth < MAX_DEPTH) }
    ensures told { IfSome result (λ came. is_left came ≡ false) }
    ensures held { IfSome result (λ came. IsTested code.now room.now came) }
{
    let value = local_at(code, room)?;
    if left == 0 || depth >= MAX_DEPTH {
        return None;
    }
    Some(truth_of(value))
}

/// Where a node stands.
pub fn place_of(code: &Code) -> Span
    ensures { result ≡ place (out-Node (erase code.now)) }
{
    match code {
        Code::Nil(at) => *at,
        Code::False(at) => *at,
        Code::True(at) => *at,
        Code::Int(_, at) => *at,
        Code::Sym(_, at) => *at,
        Code::Str(_, at) => *at,
        Code::Array(_, at) => *at,
        Code::Hash(_, at) => *at,
        Code::Local(_, _, at) => *at,
        Code::SetLocal(_, _, _, at) => *at,
        Code::UpdateLocal(_, _, _, _, at) => *at,
        Code::UpdateElement(_, _, _, _, at) => *at,
        Code::UpdateAttribute(_, _, _, _, _, _, at) => *at,
        Code::SelfRef(at) => *at,
        Code::Field(_, at) => *at,
        Code::SetField(_, _, at) => *at,
        Code::UpdateField(_, _, _, at) => *at,
        Code::Global(_, at) => *at,
        Code::SetGlobal(_, _, at) => *at,
        Code::UpdateGlobal(_, _, _, at) => *at,
        Code::New(_, _, _, _, at) => *at,
        Code::NewBuiltin(_, _, _, at) => *at,
        Code::Start(_, _, _, at) => *at,
        Code::Store(_, _, _, _, at) => *at,
        Code::Operate(_, _, _, _, at) => *at,
        Code::Send(_, _, _, _, at) => *at,
        Code::Walk(_, _, _, _, _, at) => *at,
        Code::Function(_, _, _, at) => *at,
        Code::Own(_, _, at) => *at,
        Code::Print(_, _, _, at) => *at,
        Code::And(_, _, at) => *at,
        Code::Or(_, _, at) => *at,
        Code::Not(_, at) => *at,
        Code::If(_, _, _, at) => *at,
        Code::While(_, _, at) => *at,
        Code::Return(_, at) => *at,
        Code::Break(at) => *at,
        Code::Next(at) => *at,
    }
}

/// The integer in a slot.
#[inline(always)]
pub fn integer_at(room: &[Value], slot: u32) -> Option<i64>
    ensures { IfSome result (λ n. slice_get room.now slot ≡ Some (held.Int n)) }
{
    match room.get(slot as usize)? {
        Value::Int(n) => Some(*n),
        _ => None,
    }
}

/// An integer that a leaf has.
#[inline(always)]
pub fn small(code: &Code, room: &[Value]) -> Option<i64>
    ensures { IfSome result (λ n. IsSmall code.now room.now n) }
{
    if let Code::Int(n, _) = code {
        return Some(*n);
    }
    if let Code::Local(slot, _, _) = code {
        return integer_at(room, *slot);
    }
    None
}

/// The value that a local has, where it is no thing.
#[inline(always)]
pub fn held_at<'r>(code: &Code, room: &'r [Value]) -> Option<&'r Value>
    ensures held { IfSome result (λ v. IsHeld code.now room.now (plain v.now)) }
    ensures plain { IfSome result (λ v. is_thing (plain v.now) ≡ false) }
{
    match code {
        Code::Local(slot, _, _) => value_at(room, *slot),
        _ => None,
    }
}

/// The value that a local has.
#[inline(always)]
pub fn local_at<'r>(code: &Code, room: &'r [Value]) -> Option<&'r Value>
    ensures { IfSome result (λ v. IsHeld code.now room.now (plain v.now)) }
{
    match code {
        Code::Local(slot, _, _) => slot_at(room, *slot),
        _ => None,
    }
}

/// The value that a local has, once more. Where as many own its text as can be counted, there is none.
#[inline(always)]
pub fn copy_of(code: &Code, room: &[Value]) -> Option<Value>
    ensures { IfSome result (λ v. IsHeld code.now room.now (plain v)) }
{
    let value = local_at(code, room)?;
    match value.share() {
        Ok(copy) => Some(copy),
        Err(_) => None,
    }
}

/// Whether a local has an object.
#[inline(always)]
pub fn is_object_at(code: &Code, room: &[Value]) -> bool {
    match local_at(code, room) {
        Some(Value::Ref(thing)) => is_object(*thing),
        _ => false,
    }
}

/// Whether a thing is an object.
#[inline(always)]
fn is_object(thing: Ref) -> bool {
    match thing.sort {
        Sort::Object(_) => true,
        _ => false,
    }
}

/// The value in a slot.
#[inline(always)]
fn slot_at(room: &[Value], slot: u32) -> Option<&Value>
    ensures { IfSome result (λ v. slice_get room.now slot ≡ Some v.now) }
{
    room.get(slot as usize)
}

/// The value in a slot, where it is no thing.
#[inline(always)]
fn value_at(room: &[Value], slot: u32) -> Option<&Value>
    ensures held { IfSome result (λ v. slice_get room.now slot ≡ Some v.now) }
    ensures plain { IfSome result (λ v. is_thing (plain v.now) ≡ false) }
{
    match room.get(slot as usize)? {
        Value::Ref(_) => None,
        value => Some(value),
    }
}

/// The value that a local has, as a list of one.
#[inline(always)]
pub fn held_alone<'r>(code: &Code, room: &'r [Value]) -> Option<&'r [Value]>
    ensures { IfSome result (λ vs. IsHeldAlone code.now room.now (map plain vs.now)) }
{
    match code {
        Code::Local(slot, _, _) => alone(room, *slot as usize),
        _ => None,
    }
}

/// The value in a slot, as a list of one.
#[inline(always)]
fn alone(room: &[Value], slot: usize) -> Option<&[Value]>
    ensures { IfSome result (λ vs. (v : Held) × (slice_get room.now slot ≡ Some v) × (vs.now ≡ v ∷ [])) }
{
    if slot >= room.len() {
        return None;
    }
    Some(&room[slot..slot + 1])
}

/// What an operation on two integers gives, where this is one.
#[inline(always)]
pub fn operation_by(method: Option<Builtin>, m: i64, n: i64) -> Option<IntegerAnswer>
    ensures { IfSome result (λ answer. (program : Program) (name : List ℕ) → builtin_of name ≡ method → deed program (Int m) name (Int n ∷ []) None ≡ integers.answer_of answer) }
{
    let method = method?;
    if !is_operation(method) {
        return None;
    }
    Some(integer_operation(method, m, n))
}

/// What an operation on two values gives, where they are integers and this is one.
pub fn operation_on(method: Option<Builtin>, receiver: &Value, arg: &Value) -> Option<IntegerAnswer>
    ensures { IfSome result (λ answer. (program : Program) (name : List ℕ) → builtin_of name ≡ method → deed program (plain receiver.now) name (plain arg.now ∷ []) None ≡ integers.answer_of answer) }
{
    let Value::Int(m) = receiver else {
        return None;
    };
    let Value::Int(n) = arg else {
        return None;
    };
    operation_by(method, *m, *n)
}

/// The only piece of a text, where it is bytes that are not too many.
#[inline(always)]
pub fn written(pieces: &[CodePiece]) -> Option<&SharedText>
    ensures { IfSome result (λ text. IsWritten pieces.now text.now) }
{
    let [CodePiece::Text(text)] = pieces else {
        return None;
    };
    if text.as_slice().len() > MAX_BYTES {
        return None;
    }
    Some(text)
}

/// What an operation over two leaves gives, where they are integers and this is one.
#[inline(always)]
pub fn quick(
    method: Option<Builtin>,
    left: &Code,
    right: &Code,
    room: &[Value],
) -> Option<IntegerAnswer>
    ensures { IfSome result (λ answer. IsQuick method left.now right.now room.now (integers.answer_of answer)) }
{
    let m = small(left, room)?;
    let n = small(right, room)?;
    operation_by(method, m, n)
}

/// The integer that an operation over two leaves gives.
#[inline(always)]
fn made(code: &Code, room: &[Value]) -> Option<i64>
    ensures { IfSome result (λ n. IsMade code.now room.now n) }
{
    match code {
        Code::Operate(method, _, left, right, _) => {
            match quick(*method, left.get(), right.get(), room)? {
                IntegerAnswer::Int(n) => Some(n),
                _ => None,
            }
        }
        _ => None,
    }
}

/// What an operation gives over one over two leaves and a leaf, where all are integers and this is one.
#[inline(always)]
fn twice(
    method: Option<Builtin>,
    left: &Code,
    right: &Code,
    room: &[Value],
) -> Option<IntegerAnswer>
    ensures { IfSome result (λ answer. IsTwice method left.now right.now room.now (integers.answer_of answer)) }
{
    let m = made(left, room)?;
    let n = small(right, room)?;
    operation_by(method, m, n)
}

/// The same as an answer that fits into registers, which is no operation where there is none.
#[inline(never)]
fn twice_apart(method: Option<Builtin>, left: &Code, right: &Code, room: &[Value]) -> IntegerAnswer
    ensures { (result ≡ answer.NoOperation → ⊥) → IsTwice method left.now right.now room.now (integers.answer_of result) }
{
    match twice(method, left, right, room) {
        Some(answer) => answer,
        None => IntegerAnswer::NoOperation,
    }
}

/// The same where the receiver is seen at once to be an operation, and else nothing.
#[inline(always)]
pub fn quick_twice(
    method: Option<Builtin>,
    left: &Code,
    right: &Code,
    room: &[Value],
) -> Option<IntegerAnswer>
    ensures { IfSome result (λ answer. IsTwice method left.now right.now room.now (integers.answer_of answer)) }
{
    match left {
        // An element is no operation on integers.
        Code::Operate(Some(Builtin::Index), _, _, _, _) => None,
        Code::Operate(_, _, _, _, _) => match twice_apart(method, left, right, room) {
            IntegerAnswer::NoOperation => None,
            answer => Some(answer),
        },
        _ => None,
    }
}

/// Writes into a slot what an operator makes of its integer and a leaf that is one, where that is an integer.
#[inline(always)]
pub fn quick_update(slot: u32, op: AssignOp, value: &Code, room: &mut [Value]) -> Option<i64>
    ensures room { length room.new ≡ length room.old }
    ensures some { IfSome result (λ k. IsUpdated slot op value.now room.old room.new k) }
    ensures none { result ≡ None → room.new ≡ room.old }
{
    match op {
        AssignOp::Plus => update_by(Builtin::Plus, slot, value, room),
        AssignOp::Minus => update_by(Builtin::Minus, slot, value, room),
        AssignOp::Times => update_by(Builtin::Times, slot, value, room),
        AssignOp::Over => update_by(Builtin::Over, slot, value, room),
        AssignOp::Modulo => update_by(Builtin::Modulo, slot, value, room),
        AssignOp::OrElse => None,
        AssignOp::AndThen => None,
    }
}

/// The same by the built-in method of the operator, so that the compiler knows it.
#[inline(always)]
fn update_by(method: Builtin, slot: u32, value: &Code, room: &mut [Value]) -> Option<i64>
    ensures room { length room.new ≡ length room.old }
    ensures some { IfSome result (λ k. (op : AssignOp) → method_of op ≡ Some method → IsUpdated slot op value.now room.old room.new k) }
    ensures none { result ≡ None → room.new ≡ room.old }
{
    let m = integer_at(room, slot)?;
    let n = small(value, room)?;
    match operation_by(Some(method), m, n)? {
        IntegerAnswer::Int(k) => {
            put(room, slot as usize, k);
            Some(k)
        }
        _ => None,
    }
}

/// The same of its integer and what an operation over two leaves gives.
#[inline(always)]
pub fn update_over(slot: u32, op: AssignOp, value: &Code, room: &mut [Value]) -> Option<i64>
    ensures room { length room.new ≡ length room.old }
    ensures some { IfSome result (λ k. IsUpdatedOver slot op value.now room.old room.new k) }
    ensures none { result ≡ None → room.new ≡ room.old }
{
    match op {
        AssignOp::Plus => update_over_by(Builtin::Plus, slot, value, room),
        AssignOp::Minus => update_over_by(Builtin::Minus, slot, value, room),
        AssignOp::Times => update_over_by(Builtin::Times, slot, value, room),
        AssignOp::Over => update_over_by(Builtin::Over, slot, value, room),
        AssignOp::Modulo => update_over_by(Builtin::Modulo, slot, value, room),
        AssignOp::OrElse => None,
        AssignOp::AndThen => None,
    }
}

/// The same by the built-in method of the operator.
#[inline(always)]
fn update_over_by(method: Builtin, slot: u32, value: &Code, room: &mut [Value]) -> Option<i64>
    ensures room { length room.new ≡ length room.old }
    ensures some { IfSome result (λ k. (op : AssignOp) → method_of op ≡ Some method → IsUpdatedOver slot op value.now room.old room.new k) }
    ensures none { result ≡ None → room.new ≡ room.old }
{
    let m = integer_at(room, slot)?;
    let n = made(value, room)?;
    match operation_by(Some(method), m, n)? {
        IntegerAnswer::Int(k) => {
            put(room, slot as usize, k);
            Some(k)
        }
        _ => None,
    }
}

/// Whether a node is a call with one argument.
#[inline(always)]
pub fn is_operate(code: &Code) -> bool {
    match code {
        Code::Operate(_, _, _, _, _) => true,
        _ => false,
    }
}

/// Whether a node is a local.
#[inline(always)]
pub fn is_local(code: &Code) -> bool {
    matches!(code, Code::Local(_, _, _))
}

/// Whether a node is an integer or a local.
#[inline(always)]
pub fn is_leaf(code: &Code) -> bool {
    matches!(code, Code::Int(_, _) | Code::Local(_, _, _))
}

/// Whether a node is a call with one argument whose receiver is no leaf.
#[inline(always)]
pub fn is_deep(code: &Code) -> bool {
    match code {
        Code::Operate(_, _, receiver, _, _) => !is_leaf(receiver.get()),
        _ => false,
    }
}

/// Whether a node is a call with a receiver, without a block.
#[inline(always)]
pub fn is_send(code: &Code) -> bool {
    matches!(code, Code::Send(_, _, _, _, _))
}

/// Whether a node reads an instance variable or is a call whose receiver is a local, which may read an attribute.
#[inline(always)]
fn is_read(code: &Code) -> bool {
    match code {
        Code::Field(_, _) => true,
        Code::Send(_, _, receiver, _, _) => is_local(receiver.get()),
        _ => false,
    }
}

/// Whether an operand of a call with one argument may be read from an object. Where the argument is nil, none is.
#[inline(always)]
pub fn has_read(left: &Code, right: &Code) -> bool {
    match right {
        Code::Nil(_) => false,
        _ => is_read(left) || is_read(right),
    }
}

/// Whether an operand takes three steps, where it is one that is read or computed at once.
#[inline(always)]
pub fn is_long(code: &Code) -> bool {
    matches!(
        code,
        Code::Operate(_, _, _, _, _) | Code::Send(_, _, _, _, _)
    )
}

/// Whether an operator of an assignment combines the value that stands there with another.
#[inline(always)]
pub fn is_combining(op: AssignOp) -> bool
    ensures or_else { result ≡ true → op ≢ AssignOp.OrElse }
    ensures and_then { result ≡ true → op ≢ AssignOp.AndThen }
{
    match op {
        AssignOp::OrElse | AssignOp::AndThen => false,
        _ => true,
    }
}

/// How many steps an operand takes that is an operation over two leaves, and how many one that is a leaf.
#[inline(always)]
pub fn steps_of(is_over: bool) -> u64
    ensures exact { result ≡ steps_of is_over }
    ensures few { result ≤ 3 }
{
    if is_over { 3 } else { 1 }
}

/// The integer of an operand, taken for an operation over two leaves or for a leaf.
#[inline(always)]
pub fn computed(code: &Code, is_over: bool, room: &[Value]) -> Option<i64>
    ensures { IfSome result (λ n. IsComputed (steps_of is_over) code.now room.now n) }
{
    if is_over {
        made(code, room)
    } else {
        small(code, room)
    }
}

/// The built-in method of an assignment's operator; none for the two that decide.
#[inline(always)]
pub fn method_of(op: AssignOp) -> Option<Builtin>
    ensures { result ≡ method_of op }
{
    match op {
        AssignOp::Plus => Some(Builtin::Plus),
        AssignOp::Minus => Some(Builtin::Minus),
        AssignOp::Times => Some(Builtin::Times),
        AssignOp::Over => Some(Builtin::Over),
        AssignOp::Modulo => Some(Builtin::Modulo),
        AssignOp::OrElse | AssignOp::AndThen => None,
    }
}
