// Things as they are told.

use crate::call::End;
use crate::value::Value;
use rb_tree::NameId;

/// A field of an object: its name, its value, and whether a value that is no integer was ever written to it.
#[derive(Drop)]
pub struct Field {
    pub name: NameId,
    pub value: Value,
    pub wide: bool,
}

/// What a thread is at one moment.
#[derive(Drop)]
pub struct ThreadState {
    /// The main thread has 0; another is the how many-th that was started.
    pub number: u64,
    /// The number of the thread that started it.
    pub maker: u64,
    /// Whether that one has gathered it.
    pub gathered: bool,
    /// How it ended, once it has.
    pub end: Option<End>,
}

/// What a thing is at one moment.
#[derive(Drop)]
pub enum Thing {
    /// An object of the class of this number, with its fields in the order of their first writes.
    Object(u32, Vec<Field>),
    /// A list with its elements.
    Elements(Vec<Value>),
    /// A hash with its pairs, in the order in which their keys came.
    Pairs(Vec<(Value, Value)>),
    /// A mutex with the number of the thread that owns it.
    Mutex(Option<u64>),
    Thread(ThreadState),
}
