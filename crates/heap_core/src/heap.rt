// How a heap begins, and how passes are split and joined.

ghost use Rattle.std.specs.Prelude.{◌≡◌, ◌≤◌, ◌<◌, ℕ, false, replicate, IfOk, IfErr, IsSome};
ghost use Rattle.heap_core.specs.Handing.{sunk_of};
ghost use Rattle.heap_core.specs.Opening.{HoldsFirst, laid_in};
ghost use Rattle.heap_core.specs.Places.{opening_words};
ghost use Rattle.heap_core.specs.View.{AtRest, child, first_holder, joined, maker};
ghost use Rattle.heap_core.specs.Heaps.{IsOf, SameHeap, holder};

use crate::holder::{Made, Passes};
use crate::pass::{Heap, HeapPass, Place};
use crate::places::{
    FIRST_ROOT, FIRST_SHARED, GLOBALS_TAG, OPENING_WORDS, ROOT_TAG, SHARE, USED_WORD,
};
use crate::turn::Turn;
use atomic_table::{Badge, Refused, Table};
use rb_edge::Sink;
use std::alloc::{AllocError, AllocFailed, Global};
use std::mem;
use std::snapshot::Snapshot;

// A row of words with the opening: the globals, which have no fields, with their root and their shared shape.
fn opening_row(alloc: Global, words: u64) -> Result<Vec<u64>, AllocError>
    requires room { opening_words ≤ words }
    requires few { words < 4294967296 }
    ensures laid { IfOk result (λ row. row.items ≡ laid_in (replicate words 0)) }
{
    let mut row = vec![in alloc; 0; words as usize]?;
    row[0] = GLOBALS_TAG;
    row[4] = FIRST_SHARED;
    row[USED_WORD] = OPENING_WORDS;
    row[17] = ROOT_TAG;
    row[22] = FIRST_SHARED;
    row[24] = GLOBALS_TAG;
    row[25] = FIRST_ROOT;
    row[26] = SHARE;
    Ok(row)
}

// The slot with what the turn gives first.
fn first_slot<K: Sink>(alloc: Global, slots: u64, out: K) -> Result<Vec<Option<Turn<K>>>, K>
    requires some { 1 ≤ slots }
    ensures one { IfOk result (λ places. HoldsFirst (sunk_of K.told K.faults out false) slots places.items) }
    ensures back { IfErr result (λ sink. (K.told sink ≡ K.told out) × (K.faults sink ≡ K.faults out)) }
{
    let turn = Turn::new(alloc, slots, out)?;
    let mut places = Vec::new(alloc);
    if let Err(AllocFailed { value }) = places.push(Some(turn)) {
        places.destroy_empty();
        let Some(turn) = value else { unreachable!() };
        return Err(turn.into_out());
    }
    Ok(places)
}

impl<K: Sink> Heap<K> {
    /// A heap of so many words, for so many threads at once, with the pass of the main one. There are the globals alone. The sink comes back
    /// where there is no memory.
    pub fn new(alloc: Global, words: u64, slots: u32, out: K) -> Result<(Heap<K>, HeapPass), K>
        requires least { 4096 ≤ words }
        requires most { words ≤ 134217728 }
        requires some { 1 ≤ slots }
        requires few { slots ≤ 64 }
        ensures of { IfOk result (λ made. IsOf made.0 made.1) }
        ensures words { IfOk result (λ made. made.0.table.shared.table_id.words ≡ words) }
        ensures slots { IfOk result (λ made. made.0.table.shared.key.slots ≡ slots) }
        ensures first { IfOk result (λ made. holder made.1 ≡ first_holder made.0.table.shared.key) }
        ensures begun { IfOk result (λ made. made.0.table.shared.key.begun ≡ sunk_of K.told K.faults out false) }
        ensures back { IfErr result (λ sink. (K.told sink ≡ K.told out) × (K.faults sink ≡ K.faults out)) }
    {
        let made = Made {
            out: Snapshot::of(&out),
            words,
            slots: slots as u64,
        };
        let Ok(row) = opening_row(alloc, words) else {
            return Err(out);
        };
        let places = first_slot(alloc, slots as u64, out)?;
        match Table::new(alloc, row.as_slice(), places, &made) {
            Ok((table, seat)) => Ok((
                Heap { table },
                HeapPass {
                    badge: seat.into_badge(),
                },
            )),
            Err(Refused { mut slots }) => {
                let Some(Some(turn)) = slots.pop() else {
                    unreachable!()
                };
                slots.destroy_empty();
                Err(turn.into_out())
            }
        }
    }

    /// The pass of the thread that the last call started. It has that thread's line in the table of threads.
    pub fn split(&self, pass: &mut HeapPass) -> HeapPass
        requires of { IsOf self.now pass.old }
        requires started { IsSome (holder pass.old).view.unsplit }
        ensures of { SameHeap pass.old pass.new }
        ensures maker { holder pass.new ≡ maker (holder pass.old) }
        ensures made_of { SameHeap pass.old result }
        ensures made { holder result ≡ child (holder pass.old) }
    {
        let badge = mem::replace(&mut pass.badge, Badge::blank());
        let mut seat: Place<K> = badge.into_seat();
        let child = self.table.shared.split_seat::<Passes>(&mut seat);
        pass.badge = seat.into_badge();
        HeapPass {
            badge: child.into_badge(),
        }
    }

    /// Takes in a pass that owns no words and has nothing in progress: this one then knows what that one knew.
    pub fn join(&self, pass: &mut HeapPass, other: HeapPass)
        requires of { IsOf self.now pass.old }
        requires other { IsOf self.now other }
        requires rests { AtRest (holder other) }
        ensures of { SameHeap pass.old pass.new }
        ensures told { holder pass.new ≡ joined (holder pass.old) (holder other) }
    {
        let HeapPass { badge: other } = other;
        let badge = mem::replace(&mut pass.badge, Badge::blank());
        let mut seat: Place<K> = badge.into_seat();
        self.table
            .shared
            .join_seat::<Passes>(&mut seat, other.into_seat());
        pass.badge = seat.into_badge();
    }
}
