// Locks that are a word alone.

ghost use Rattle.std.specs.Prelude.{◌≡◌, true, false};
ghost use Rattle.heap_core.specs.Blocks.{LockAt};
ghost use Rattle.heap_core.specs.Heaps.{IsOf, SameHeap, holder};
ghost use Rattle.heap_core.specs.Locking.{HasLocked};
ghost use Rattle.heap_core.specs.View.{Idle, Knows, Locked, busy_at, with_busy};

use crate::pass::{Heap, HeapPass};
use crate::telling::Tells;
use crossbeam_utils::Backoff;
use rb_edge::Sink;
use std::sync::Wait;

/// The lock is tried.
pub struct TryLock;

impl Tells for TryLock {
    ghost use Rattle.heap_core.specs.Locking.{TriesLock};

    ghost tells = { TriesLock };
}

/// The lock is given back.
pub struct GiveLock;

impl Tells for GiveLock {
    ghost use Rattle.heap_core.specs.Locking.{GivesLock};

    ghost tells = { GivesLock };
}

impl<K: Sink> Heap<K> {
    /// Tries a lock. Whether it is had now; then the pass has learnt blocks, those of the tree of shapes where it is the lock of the tree.
    pub fn try_lock(&self, pass: &mut HeapPass, at: u64) -> bool
        requires of { IsOf self.now pass.old }
        requires known { Knows (holder pass.old) (LockAt at) }
        ensures of { SameHeap pass.old pass.new }
        ensures had { result ≡ true → HasLocked at (holder pass.old) (holder pass.new) }
        ensures not_had { result ≡ false → holder pass.new ≡ holder pass.old }
    {
        self.compare_exchange::<TryLock>(pass, at, 0, 1) == 0
    }

    /// Takes a lock, once no pass has it.
    pub fn lock<R: Wait>(&self, rt: &R, pass: &mut HeapPass, at: u64)
        requires of { IsOf self.now pass.old }
        requires known { Knows (holder pass.old) (LockAt at) }
        ensures of { SameHeap pass.old pass.new }
        ensures had { HasLocked at (holder pass.old) (holder pass.new) }
    {
        let backoff = Backoff::new();
        'tries: for _ in rt.forever() {
            if self.try_lock(pass, at) {
                return;
            }
            backoff.snooze();
        }
        unreachable!()
    }

    /// Gives a lock back that the pass has.
    pub fn unlock(&self, pass: &mut HeapPass, at: u64)
        requires of { IsOf self.now pass.old }
        requires known { Knows (holder pass.old) (LockAt at) }
        requires has { busy_at at (holder pass.old).doing ≡ Locked }
        ensures of { SameHeap pass.old pass.new }
        ensures given { holder pass.new ≡ with_busy (holder pass.old) at Idle }
    {
        self.store::<GiveLock>(pass, at, 0);
    }
}
