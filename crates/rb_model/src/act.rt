// What is asked of things, what they answer, and what a thread makes.

use crate::call::End;
use crate::fault::Fault;
use crate::value::{Ref, Value};
use rb_tree::NameId;

/// What is asked of a thing.
#[derive(Drop)]
pub enum Act {
    /// The value of a field of an object.
    GetField(NameId),
    /// Gives a field of an object a value.
    SetField(NameId, Value),
    /// The element at an index of a list, where a negative one counts from the end.
    At(i64),
    /// Gives an element a value. The list is first filled up with nil to there.
    Put(i64, Value),
    /// Puts an element behind the last.
    Push(Value),
    /// Puts an element before the first.
    Unshift(Value),
    /// Takes the last element out.
    Pop,
    /// Takes the first element out.
    Shift,
    /// Takes the element at an index out.
    DeleteAt(i64),
    /// The value of a key of a hash.
    KGet(Value),
    /// Whether a hash has a key.
    KHas(Value),
    /// Gives a key of a hash a value.
    KPut(Value, Value),
    /// Takes the pair of a key out.
    KDelete(Value),
    /// Takes all elements, or all pairs, out.
    Clear,
    /// How many elements, or pairs, there are.
    Len,
    /// All elements, or all pairs.
    Copy,
    /// Waits for the end of a thread.
    Join,
    /// Takes a mutex, once no other thread owns it.
    Lock,
    /// Gives a mutex back.
    Unlock,
}

/// An end of a list.
#[derive(Clone, Copy)]
pub enum Side {
    First,
    Last,
}

/// What a thing answers.
#[derive(Drop)]
pub enum Reply {
    Value(Value),
    Elements(Vec<Value>),
    Pairs(Vec<(Value, Value)>),
    Done,
    /// The number and the thing of a thread that was started.
    Started(u64, Ref),
    /// How a thread ended.
    Ended(End),
    Failed(Fault),
}

/// What a thread makes.
#[derive(Drop)]
pub enum Make {
    /// An object of the class of this number, with no fields.
    Object(u32),
    /// A list of these elements.
    Elements(Vec<Value>),
    /// A list of so many times a value.
    Filled(usize, Value),
    /// A hash of these pairs. A key that stands twice keeps its first place and has its last value.
    Pairs(Vec<(Value, Value)>),
    /// A mutex that no thread owns.
    Mutex,
}
