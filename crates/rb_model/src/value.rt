// Values of the language.

ghost use Rattle.std.specs.Prelude.{◌≡◌, IfOk, OnErr, true};
ghost use Rattle.rb_model.specs.Values.{is_text, plain};

use crate::shared_text::SharedText;
use rb_tree::NameId;
use std::alloc::AllocError;
use std::hash::{Hash, Hasher};

/// The number of a thing: the thread that made it, and the how many-th it is among those that this thread made, from 1 on.
#[derive(Clone, Copy, Debug, PartialEq, Eq)]
pub struct Id {
    pub thread: u64,
    pub serial: u64,
}

/// What a thing is.
#[derive(Clone, Copy, Debug, PartialEq, Eq)]
pub enum Sort {
    /// An object of the class of this number.
    Object(u32),
    List,
    Pairs,
    Mutex,
    Thread,
}

/// A reference to a thing. Where a store keeps the thing is no part of what is referred to: values are compared without it.
#[derive(Clone, Copy, Debug)]
pub struct Ref {
    pub sort: Sort,
    pub id: Id,
    /// The place of a shared thing in its store; 0 where the store needs none, and for a thing that is private.
    pub at: u64,
}

/// A value. Strings are immutable, and are the same where their bytes are.
#[derive(Drop)]
pub enum Value {
    Nil,
    False,
    True,
    Int(i64),
    /// A symbol.
    Sym(NameId),
    Str(SharedText),
    Ref(Ref),
}

impl Value {
    /// The same value. No bytes are copied. Where as many own a text as can be counted, that is want of memory.
    pub fn share(&self) -> Result<Value, AllocError>
        ensures same { IfOk result (λ copy. copy ≡ self.now) }
        ensures value { IfOk result (λ copy. plain copy ≡ plain self.now) }
        ensures refused { OnErr result (is_text (plain self.now) ≡ true) }
    {
        Ok(match self {
            Value::Nil => Value::Nil,
            Value::False => Value::False,
            Value::True => Value::True,
            Value::Int(n) => Value::Int(*n),
            Value::Sym(name) => Value::Sym(*name),
            Value::Str(text) => Value::Str(text.share()?),
            Value::Ref(thing) => Value::Ref(*thing),
        })
    }
}

/// Two values are equal where they are one and the same: the same nil or truth value, integer, symbol, bytes or thing.
impl PartialEq for Value {
    ghost use Rattle.rb_model.specs.Values.{plain, same};
    ghost use Rattle.rb_model.specs.Sameness.{same_partial};

    ghost eq = { λ a b. same (plain a) (plain b) };

    ghost laws = { same_partial };

    fn eq(&self, other: &Value) -> bool {
        match (self, other) {
            (Value::Nil, Value::Nil) => true,
            (Value::False, Value::False) => true,
            (Value::True, Value::True) => true,
            (Value::Int(m), Value::Int(n)) => *m == *n,
            (Value::Sym(m), Value::Sym(n)) => m.0 == n.0,
            (Value::Str(s), Value::Str(t)) => s.as_slice() == t.as_slice(),
            (Value::Ref(r), Value::Ref(s)) => {
                r.id.thread == s.id.thread && r.id.serial == s.id.serial
            }
            _ => false,
        }
    }
}

impl Eq for Value {
    ghost use Rattle.rb_model.specs.Sameness.{same_equivalence};

    ghost laws = { same_equivalence };
}

impl Hash for Value {
    ghost use Rattle.rb_model.specs.Values.{plain};
    ghost use Rattle.rb_model.specs.Hashed.{hashed};
    ghost use Rattle.rb_model.specs.Sameness.{same_hashed};

    ghost hash_input = { λ a. hashed (plain a) };

    ghost respects_eq = { same_hashed };

    fn hash<H: Hasher>(&self, state: &mut H) {
        match self {
            Value::Nil => state.write_u8(0),
            Value::False => state.write_u8(1),
            Value::True => state.write_u8(2),
            Value::Int(n) => {
                state.write_u8(3);
                n.hash(state);
            }
            Value::Sym(name) => {
                state.write_u8(4);
                name.0.hash(state);
            }
            Value::Str(text) => {
                state.write_u8(5);
                text.as_slice().hash(state);
            }
            Value::Ref(thing) => {
                state.write_u8(6);
                thing.id.thread.hash(state);
                thing.id.serial.hash(state);
            }
        }
    }
}
