// A text is read.

ghost use Rattle.std.specs.Prelude.{◌≡◌, ℕ, List, IfOk};
ghost use Rattle.heap_core.specs.Blocks.{TextAt};
ghost use Rattle.heap_core.specs.Heaps.{IsOf, SameHeap, holder};
ghost use Rattle.block_kinds.specs.Reading.{AreBytes, CanRead};

use crate::bytes::append_bytes;
use heap_core::{Heap, HeapPass};
use rb_edge::Sink;
use rb_model::SharedText;
use std::alloc::{AllocError, Global};

/// The text whose block is at a place.
pub fn read_text<K: Sink>(
    alloc: Global,
    heap: &Heap<K>,
    pass: &mut HeapPass,
    at: u64,
) -> Result<SharedText, AllocError>
    requires of { IsOf heap.now pass.old }
    requires known { (bytes : List ℕ) × CanRead (holder pass.old) (TextAt bytes at) }
    ensures of { SameHeap pass.old pass.new }
    ensures same { holder pass.new ≡ holder pass.old }
    ensures read { IfOk result (λ text. (bytes : List ℕ) → AreBytes bytes → CanRead (holder pass.old) (TextAt bytes at) → text ≡ bytes) }
{
    let length = heap.load_still(pass, at + 1);
    let mut bytes = Vec::new(alloc);
    'words: for k in 0..length.div_ceil(8) {
        let word = heap.load_still(pass, at + 2 + k);
        append_bytes(&mut bytes, word, (length - 8 * k).min(8))?;
    }
    SharedText::from_vec(alloc, bytes)
}
