// Things that move from a private store into the shared one.

ghost use Rattle.std.specs.Prelude.{◌≡◌, ◌<◌, ◌++◌, ◌∷◌, [], length, slice_get, IsTrue, ◌↔◌, OnOk, OnErr};
ghost use Rattle.std.specs.Option.{option_copied};
ghost use Rattle.rb_model.specs.Moving.{Places};

use crate::thing::Thing;
use crate::value::Id;
use std::alloc::{AllocError, Global};
use std::marker::Model;

/// A thing that moves, with its id. Its place in the shared store is set when it is laid there, and is 0 before.
#[derive(Drop)]
pub struct MovedItem {
    pub id: Id,
    pub thing: Thing,
    pub at: u64,
}

/// The things that move with one call, each once, in the order in which they were first seen. Contracts see them as a list.
#[derive(Drop)]
pub struct Moved {
    things: Vec<MovedItem>,
}

impl Model for Moved {
    ghost use Rattle.std.specs.Prelude.{List};
    ghost use Rattle.rb_model.specs.declared.moved.MovedItem.{MovedItem};

    ghost Value = { List MovedItem };

    ghost view = { λ m. m.things.items };
}

impl Moved {
    /// Nothing moves. Takes no memory.
    pub fn new(alloc: Global) -> Moved
        ensures { result ≡ [] }
    {
        Moved {
            things: Vec::new(alloc),
        }
    }

    /// How many things move.
    pub fn len(&self) -> usize
        ensures { result ≡ length self.now }
    {
        self.things.len()
    }

    /// Whether nothing moves.
    pub fn is_empty(&self) -> bool
        ensures { IsTrue result ↔ (self.now ≡ []) }
    {
        self.things.is_empty()
    }

    /// The thing at a number, if there is one.
    pub fn get(&self, number: usize) -> Option<&MovedItem>
        ensures { option_copied result ≡ slice_get self.now number }
    {
        self.things.get(number)
    }

    /// One thing more, behind the others.
    pub fn push(&mut self, item: MovedItem) -> Result<(), AllocError>
        ensures ok { OnOk result (self.new ≡ self.old ++ item ∷ []) }
        ensures err { OnErr result (self.new ≡ self.old) }
    {
        self.things.push(item)?;
        Ok(())
    }

    /// Sets the place of the thing at a number.
    pub fn place(&mut self, number: usize, at: u64)
        requires { number < length self.old }
        ensures { Places self.old number at self.new }
    {
        self.things[number].at = at;
    }
}
