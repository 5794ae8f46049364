// The steps that the crates above take on their own blocks. What a step tells is a trait of theirs; that it keeps the law is theirs to show.

ghost use Rattle.std.specs.Prelude.{◌≡◌, ℕ};
ghost use Rattle.heap_core.specs.Heaps.{AllowsExchange, AllowsLoad, AllowsStore, IsOf, SameHeap, holder};
ghost use Rattle.heap_core.specs.Telling.{CanName, ToldOf};

use crate::holder::Known;
use crate::pass::{Heap, HeapPass, Place};
use atomic_table::{Badge, Play};
use rb_edge::Sink;
use std::marker::PhantomData;
use std::mem;

/// What a step tells of the block in which its word lies: of the word, the operands, the seat before, the number found or stored, and the seat
/// after.
pub trait Tells {
    ghost use Rattle.std.specs.Prelude.{ℕ};
    ghost use Rattle.heap_core.specs.Blocks.{Block};
    ghost use Rattle.heap_core.specs.View.{Holder};

    ghost tells: { Block → ℕ → ℕ → ℕ → Holder → ℕ → Holder → Type 0 };
}

/// A step, with what it tells.
pub struct Told<T> {
    of: PhantomData<T>,
}

impl<K, T: Tells> Play<K, Known> for Told<T> {
    ghost use Rattle.heap_core.specs.Telling.{StepTells};

    ghost then = { StepTells T.tells };
}

impl<K: Sink> Heap<K> {
    /// Loads a word of a block that the pass can name.
    pub fn load<T: Tells>(&self, pass: &mut HeapPass, at: u64) -> u64
        requires of { IsOf self.now pass.old }
        requires known { CanName (holder pass.old) at }
        requires allows { AllowsLoad T.tells self.now pass.old at }
        ensures of { SameHeap pass.old pass.new }
        ensures seat { pass.new.badge.id ≡ pass.old.badge.id }
        ensures told { ToldOf T.tells at 0 0 (holder pass.old) result (holder pass.new) }
    {
        let badge = mem::replace(&mut pass.badge, Badge::blank());
        let mut seat: Place<K> = badge.into_seat();
        let word = self.table.shared.load::<Told<T>>(&mut seat, at as usize);
        pass.badge = seat.into_badge();
        word
    }

    /// Stores a word of such a block.
    pub fn store<T: Tells>(&self, pass: &mut HeapPass, at: u64, new: u64)
        requires of { IsOf self.now pass.old }
        requires known { CanName (holder pass.old) at }
        requires allows { AllowsStore T.tells self.now pass.old at new }
        ensures of { SameHeap pass.old pass.new }
        ensures seat { pass.new.badge.id ≡ pass.old.badge.id }
        ensures told { ToldOf T.tells at new 0 (holder pass.old) new (holder pass.new) }
    {
        let badge = mem::replace(&mut pass.badge, Badge::blank());
        let mut seat: Place<K> = badge.into_seat();
        self.table
            .shared
            .store::<Told<T>>(&mut seat, at as usize, new);
        pass.badge = seat.into_badge();
    }

    /// Stores a word of such a block where it is `old`. Gives the word as it was.
    pub fn compare_exchange<T: Tells>(
        &self,
        pass: &mut HeapPass,
        at: u64,
        old: u64,
        new: u64,
    ) -> u64
        requires of { IsOf self.now pass.old }
        requires known { CanName (holder pass.old) at }
        requires allows { AllowsExchange T.tells self.now pass.old at old new }
        ensures of { SameHeap pass.old pass.new }
        ensures seat { pass.new.badge.id ≡ pass.old.badge.id }
        ensures told { ToldOf T.tells at old new (holder pass.old) result (holder pass.new) }
    {
        let badge = mem::replace(&mut pass.badge, Badge::blank());
        let mut seat: Place<K> = badge.into_seat();
        let found = self
            .table
            .shared
            .compare_exchange::<Told<T>>(&mut seat, at as usize, old, new);
        pass.badge = seat.into_badge();
        found
    }
}
