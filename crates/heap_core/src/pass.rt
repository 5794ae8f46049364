// The heap, and what threads step on it with.

ghost use Rattle.std.specs.Prelude.{◌≤◌};
ghost use Rattle.heap_core.specs.Places.{opening_words};
ghost use Rattle.heap_core.specs.Passes.{IsPass};

use crate::holder::{Known, Law, Made};
use crate::turn::Turn;
use atomic_table::{Badge, Seat, Table};
use rb_edge::Sink;
use std::alloc::Global;

/// The seat of a pass while it steps.
pub(crate) type Place<K> = Seat<Option<Turn<K>>, Known>;

/// Words that many threads share, under one law, and what the turn gives.
#[derive(Drop)]
pub struct Heap<K: Sink> {
    pub table: Table<Option<Turn<K>>, Known, Made<K>, Law, Global>,
    ghost sizes: { opening_words ≤ table.shared.table_id.words },
    ghost most: { table.shared.table_id.words ≤ 134217728 },
}

/// What one thread steps with.
#[derive(Drop)]
pub struct HeapPass {
    pub badge: Badge<Known>,
    ghost rests: { IsPass badge.views badge.table_id.words },
}
