// Answers of values that need neither memory nor a thing.

ghost use Rattle.rb_tree.specs.declared.node.Program.{Program};
ghost use Rattle.std.specs.Prelude.{◌≡◌, ℕ, List, [], ◌∷◌, map, Some, None, IfSome, true, false};
ghost use Rattle.rb_model.specs.Values.{Nil, plain, truth, same};
ghost use Rattle.rb_machine.specs.Methods.{Gives, deed, equal};
ghost use Rattle.rb_builtin.specs.declared.builtin.Builtin.TheVariants as builtin;
ghost use Rattle.rb_builtin.specs.Names.{builtin_of};
ghost use Rattle.rb_builtin.specs.declared.integer.IntegerAnswer.TheVariants as answer;
ghost use Rattle.rb_builtin.specs.Deeds.{answer_by_number};
ghost use Rattle.rb_builtin.specs.Integers as integers;
ghost use Rattle.rb_walk.specs.Methods.{HasNone, IsCompared};
ghost use Rattle.rb_walk.specs.Outcome.{is_left, value_of};
ghost use Rattle.rb_walk.specs.Answers.{IsHeld};
ghost use Rattle.rb_model.specs.declared.value.Value.{Value as Held};

use crate::came::Came;
use crate::dispatch::Methods;
use crate::gathering::is_collection;
use crate::leaf::{held_at, local_at};
use crate::target::target_of;
use rb_builtin::{Builtin, IntegerAnswer};
use rb_code::Code;
use rb_model::Value;
use rb_tree::NameId;

/// What a value answers to a method whose answer needs no memory: one that all values have, or the length of a text.
#[inline(always)]
pub fn ready_answer(
    method: Option<Builtin>,
    receiver: &Value,
    args: &[Value],
) -> Option<IntegerAnswer>
    ensures { IfSome result (λ answer. (program : Program) (name : List ℕ) → builtin_of name ≡ method → deed program (plain receiver.now) name (map plain args.now) None ≡ integers.answer_of answer) }
{
    match method {
        Some(number) => ready_answer_by(number, receiver, args),
        None => None,
    }
}

/// The same by the number of the method.
#[inline(always)]
fn ready_answer_by(method: Builtin, receiver: &Value, args: &[Value]) -> Option<IntegerAnswer>
    ensures { IfSome result (λ answer. (program : Program) → answer_by_number program (plain receiver.now) method (map plain args.now) None ≡ integers.answer_of answer) }
{
    match method {
        Builtin::Equal => sameness_of(receiver, args),
        Builtin::IsNil => nilness_of(receiver, args),
        Builtin::Length => length_of(receiver, args),
        _ => None,
    }
}

/// The length of a text.
#[inline(always)]
fn length_of(receiver: &Value, args: &[Value]) -> Option<IntegerAnswer>
    ensures { IfSome result (λ answer. (program : Program) → answer_by_number program (plain receiver.now) builtin.Length (map plain args.now) None ≡ integers.answer_of answer) }
{
    let Value::Str(text) = receiver else {
        return None;
    };
    if !args.is_empty() {
        return None;
    }
    Some(IntegerAnswer::Int(text.characters()))
}

/// Whether a value is nil.
#[inline(always)]
fn nilness_of(receiver: &Value, args: &[Value]) -> Option<IntegerAnswer>
    ensures { IfSome result (λ answer. (program : Program) → answer_by_number program (plain receiver.now) builtin.IsNil (map plain args.now) None ≡ integers.answer_of answer) }
{
    if !args.is_empty() {
        return None;
    }
    Some(truth_of(is_nil(receiver)))
}

/// Whether a value is the argument.
#[inline(always)]
fn sameness_of(receiver: &Value, args: &[Value]) -> Option<IntegerAnswer>
    ensures { IfSome result (λ answer. (program : Program) → answer_by_number program (plain receiver.now) builtin.Equal (map plain args.now) None ≡ integers.answer_of answer) }
{
    let [other] = args else {
        return None;
    };
    same_as(receiver, other)
}

/// A truth value as an answer.
#[inline(always)]
fn truth_of(holds: bool) -> IntegerAnswer
    ensures { integers.answer_of result ≡ Gives (truth holds) }
{
    if holds {
        IntegerAnswer::True
    } else {
        IntegerAnswer::False
    }
}

/// Whether a value is nil.
#[inline(always)]
fn is_nil(value: &Value) -> bool
    ensures { result ≡ same (plain value.now) Nil }
{
    match value {
        Value::Nil => true,
        _ => false,
    }
}

/// Whether a value that is no array and no hash is another. Two arrays, or two hashes, that differ are not compared.
#[inline(always)]
fn same_as(value: &Value, other: &Value) -> Option<IntegerAnswer>
    ensures { IfSome result (λ answer. equal (plain value.now) (plain other.now ∷ []) ≡ integers.answer_of answer) }
{
    if is_collection(value) {
        return None;
    }
    Some(truth_of(*value == *other))
}

/// Whether a call with one argument asks by `==` whether a value is nil.
#[inline(always)]
pub fn is_nil_asked(method: Option<Builtin>, right: &Code) -> bool
    ensures method { result ≡ true → method ≡ Some builtin.Equal }
    ensures right { result ≡ true → (room : List Held) → IsHeld right.now room Nil }
{
    let Some(Builtin::Equal) = method else {
        return false;
    };
    let Code::Nil(_) = right else {
        return false;
    };
    true
}

/// What `== nil` answers for what came; `held` is the value where registers do not hold it.
#[inline(always)]
pub fn nil_came(came: Came, held: &Value) -> IntegerAnswer
    requires { is_left came ≡ false }
    ensures { equal (value_of came held.now) (Nil ∷ []) ≡ integers.answer_of result }
{
    match came {
        Came::Nil => IntegerAnswer::True,
        Came::False | Came::True | Came::Int(_) | Came::Left => IntegerAnswer::False,
        Came::Other => truth_of(is_nil(held)),
    }
}

/// The value of a local that a call without arguments finds no method of a class for: one that is no thing, or any that is asked whether it
/// is nil.
#[inline(always)]
pub fn answering<'r>(
    script: &Methods<'_>,
    method: Option<Builtin>,
    name: NameId,
    code: &Code,
    room: &'r [Value],
) -> Option<&'r Value>
    ensures held { IfSome result (λ held. IsHeld code.now room.now (plain held.now)) }
    ensures alone { IfSome result (λ held. HasNone script.now (plain held.now) name) }
{
    if let Some(held) = held_at(code, room) {
        return Some(held);
    }
    let Some(Builtin::IsNil) = method else {
        return None;
    };
    let held = local_at(code, room)?;
    match target_of(script, held, name) {
        Some(_) => None,
        None => Some(held),
    }
}

/// Whether the value of a local is nil or that of another local, where a call asks this and the class of the value has no such method.
#[inline(always)]
pub fn compared(
    script: &Methods<'_>,
    method: Option<Builtin>,
    name: NameId,
    left: &Code,
    right: &Code,
    room: &[Value],
) -> Option<IntegerAnswer>
    ensures { IfSome result (λ answer. IsCompared script.now method name left.now right.now room.now (integers.answer_of answer)) }
{
    match method {
        Some(Builtin::Equal) => match compared_apart(script, name, left, right, room) {
            IntegerAnswer::NoOperation => None,
            answer => Some(answer),
        },
        _ => None,
    }
}

/// The same apart, as an answer that fits into registers, which is no operation where there is none.
#[inline(never)]
fn compared_apart(
    script: &Methods<'_>,
    name: NameId,
    left: &Code,
    right: &Code,
    room: &[Value],
) -> IntegerAnswer
    ensures { (result ≡ answer.NoOperation → ⊥) → IsCompared script.now (Some builtin.Equal) name left.now right.now room.now (integers.answer_of result) }
{
    match equality_of(script, name, left, right, room) {
        Some(answer) => answer,
        None => IntegerAnswer::NoOperation,
    }
}

/// Whether the value of a local is nil or that of another local, where the class of the value has no such method.
#[inline(always)]
fn equality_of(
    script: &Methods<'_>,
    name: NameId,
    left: &Code,
    right: &Code,
    room: &[Value],
) -> Option<IntegerAnswer>
    ensures { IfSome result (λ answer. IsCompared script.now (Some builtin.Equal) name left.now right.now room.now (integers.answer_of answer)) }
{
    let value = local_at(left, room)?;
    if let Some(_) = target_of(script, value, name) {
        return None;
    }
    if let Code::Nil(_) = right {
        return Some(truth_of(is_nil(value)));
    }
    let other = local_at(right, room)?;
    let answer = same_as(value, other)?;
    Some(answer)
}
