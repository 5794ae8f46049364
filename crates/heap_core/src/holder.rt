// What a seat knows, the law, and how passes are split and joined.

use crate::turn::Turn;
use atomic_table::{Join, Split, TableRule};
use rb_edge::Sink;
use std::marker::Model;
use std::snapshot::Snapshot;

/// What the seat of a pass knows. No value of it is made, so it takes no bytes.
pub struct Known {}

impl Model for Known {
    ghost use Rattle.heap_core.specs.View.{Holder, spent_holder};

    ghost Value = { Holder };

    ghost view = { λ _. spent_holder };
}

/// What a heap is made with: the sink as it was then, how many words there are, and how many slots for threads.
#[derive(Drop)]
pub struct Made<K: Sink> {
    pub out: Snapshot<K>,
    pub words: u64,
    pub slots: u64,
}

impl<K: Sink> Model for Made<K> {
    ghost use Rattle.std.specs.Prelude.{false};
    ghost use Rattle.heap_core.specs.Handing.{Plan, sunk_of};

    ghost Value = { Plan };

    ghost view = { λ m. record { words = m.words; slots = m.slots; begun = sunk_of K.told K.faults m.out.value false } };
}

/// The one law of the heap.
pub struct Law;

impl<K: Sink> TableRule<Option<Turn<K>>, Known, Made<K>> for Law {
    ghost use Rattle.heap_core.specs.Rule.{Kept};
    ghost use Rattle.heap_core.specs.View.{first_holder};

    ghost holds = { Kept };

    ghost first = { first_holder };
}

/// A new pass has the number and the line of the thread that was started last, and is told all that its maker knows.
pub struct Passes;

impl Split<Known> for Passes {
    ghost use Rattle.heap_core.specs.View.{child, maker};

    ghost left = { maker };

    ghost right = { child };
}

impl Join<Known> for Passes {
    ghost use Rattle.heap_core.specs.View.{joined, spent_holder};

    ghost both = { joined };

    ghost spent = { spent_holder };
}
