// What stands at a place for a value.

ghost use Rattle.std.specs.Prelude.{◌≡◌, ◌⊎◌, true};
ghost use Rattle.rb_model.specs.Values.{plain, Nil};
ghost use Rattle.typed_location.specs.Word.{word_of, Fits};
ghost use Rattle.local_heap.specs.Memory.{is_kept};
ghost use Rattle.local_heap.specs.Slots.{Home, IsOwnBy, IsFor, slot_of};

use rb_model::{Ref, Value};
use typed_location::{Any, is_address, is_small, to_any_word};

/// Where the thing of a reference is: in the heap that keeps the reference, or elsewhere.
#[derive(Clone, Copy)]
pub enum Whose {
    Own,
    Others,
}

/// What stands at a place: a word, and beside it the value itself where the word has no room for it, and else nil.
#[derive(Drop)]
pub struct Slot {
    pub word: u64,
    pub whole: Value,
}

/// What stands for a value at a place that may hold any.
pub fn slot_for(value: Value, whose: Whose) -> Slot
    ensures stands { (home : Home) → IsOwnBy home whose (plain value) → IsFor home (plain value) (slot_of result) }
    ensures whole { (plain result.whole ≡ Nil) ⊎ (is_kept (plain value) ≡ true) }
{
    match value {
        Value::Nil => in_word(Any::Nil),
        Value::False => in_word(Any::False),
        Value::True => in_word(Any::True),
        Value::Int(n) => for_integer(n),
        Value::Sym(name) => in_word(Any::Sym(name.0)),
        Value::Str(text) => beside(Any::Text(0), Value::Str(text)),
        Value::Ref(thing) => for_reference(thing, whose),
    }
}

/// The same of an integer.
fn for_integer(n: i64) -> Slot
    ensures stands { (home : Home) → IsFor home (plain (Value.Int n)) (slot_of result) }
    ensures whole { (plain result.whole ≡ Nil) ⊎ (is_kept (plain (Value.Int n)) ≡ true) }
{
    if is_small(n) {
        in_word(Any::Small(n))
    } else {
        beside(Any::Boxed(0), Value::Int(n))
    }
}

/// The same of a reference.
fn for_reference(thing: Ref, whose: Whose) -> Slot
    ensures stands { (home : Home) → IsOwnBy home whose (plain (Value.Ref thing)) → IsFor home (plain (Value.Ref thing)) (slot_of result) }
{
    let serial = thing.id.serial;
    match whose {
        Whose::Own => {
            if is_address(serial) {
                in_word(Any::Thing(serial))
            } else {
                beside(Any::Thing(0), Value::Ref(thing))
            }
        }
        Whose::Others => beside(Any::Thing(0), Value::Ref(thing)),
    }
}

/// A value that its word says.
fn in_word(any: Any) -> Slot
    requires { Fits any }
    ensures word { result.word ≡ word_of any }
    ensures whole { plain result.whole ≡ Nil }
{
    beside(any, Value::Nil)
}

/// A word with a value beside it.
fn beside(any: Any, whole: Value) -> Slot
    requires { Fits any }
    ensures word { result.word ≡ word_of any }
    ensures whole { plain result.whole ≡ plain whole }
{
    Slot {
        word: to_any_word(any),
        whole,
    }
}
