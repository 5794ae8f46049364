// A value is laid into own words.

ghost use Rattle.std.specs.Prelude.{◌≡◌, ◌<◌, ◌+◌, ◌/◌, ◌^◌, ◌++◌, List, length};
ghost use Rattle.rb_model.specs.Values.{Int, plain};
ghost use Rattle.rb_model.specs.declared.value.Value.TheVariants as held;
ghost use Rattle.typed_location.specs.Word.{word_of};
ghost use Rattle.typed_location.specs.declared.general_place.Any.TheVariants as any;
ghost use Rattle.heap_core.specs.Blocks.{Block};
ghost use Rattle.heap_core.specs.Charges.{blocks};
ghost use Rattle.heap_core.specs.Heaps.{IsOf, SameHeap, holder};
ghost use Rattle.heap_core.specs.Places.{box_words, text_words};
ghost use Rattle.heap_core.specs.Spelling.{Spells};
ghost use Rattle.block_kinds.specs.Built.{Builds, HasPlace, LiesFor, OwnsWords, box_block, text_block, value_blocks, value_words, with_words};
ghost use Rattle.block_kinds.specs.Reading.{AreBytes, Names};

use crate::bytes::word_at;
use heap_core::{Heap, HeapPass};
use rb_edge::Sink;
use rb_model::Value;
use rb_tree::NameId;
use typed_location::{Any, is_small, to_any_word, to_int_word};

const TEXT_TAG: u64 = 6;

const BOX_TAG: u64 = 7;

/// Lays the block of a value into own words from a place on, where it has one. Gives the word that names the value. A reference names the place
/// that it says.
pub fn build<K: Sink>(heap: &Heap<K>, pass: &mut HeapPass, at: u64, value: &Value) -> u64
    requires of { IsOf heap.now pass.old }
    requires room { OwnsWords (holder pass.old) at (blocks (plain value.now)) }
    requires place { HasPlace value.now }
    ensures of { SameHeap pass.old pass.new }
    ensures laid { holder pass.new ≡ with_words (holder pass.old) at (value_words (plain value.now)) }
    ensures spells { (bs : List Block) → LiesFor bs value.now → Spells (bs ++ value_blocks (plain value.now) at) result (plain value.now) }
    ensures named { LiesFor (holder pass.old).blocks value.now → Names (holder pass.new) result (plain value.now) }
{
    match value {
        Value::Nil => to_any_word(Any::Nil),
        Value::False => to_any_word(Any::False),
        Value::True => to_any_word(Any::True),
        Value::Int(n) => build_integer(heap, pass, at, *n),
        Value::Sym(name) => symbol_word(*name),
        Value::Str(text) => {
            lay_text(heap, pass, at, text.as_slice());
            to_any_word(Any::Text(at))
        }
        Value::Ref(thing) => to_any_word(Any::Thing(thing.at)),
    }
}

// The word of a symbol. A number of 32 bits fits.
fn symbol_word(name: NameId) -> u64
    ensures fits { name.0 < 2 ^ 32 }
    ensures word { result ≡ word_of (any.Sym name.0) }
{
    to_any_word(Any::Sym(name.0))
}

// Lays an integer where it is wide.
fn build_integer<K: Sink>(heap: &Heap<K>, pass: &mut HeapPass, at: u64, n: i64) -> u64
    requires of { IsOf heap.now pass.old }
    requires room { OwnsWords (holder pass.old) at (blocks (Int n)) }
    ensures of { SameHeap pass.old pass.new }
    ensures built { Builds (holder pass.old) (holder pass.new) at result (held.Int n) }
{
    if is_small(n) {
        return to_any_word(Any::Small(n));
    }
    lay_box(heap, pass, at, n);
    to_any_word(Any::Boxed(at))
}

// Lays a boxed integer.
fn lay_box<K: Sink>(heap: &Heap<K>, pass: &mut HeapPass, at: u64, n: i64)
    requires of { IsOf heap.now pass.old }
    requires room { OwnsWords (holder pass.old) at box_words }
    ensures of { SameHeap pass.old pass.new }
    ensures laid { holder pass.new ≡ with_words (holder pass.old) at (box_block n) }
{
    heap.store_own(pass, at, BOX_TAG);
    heap.store_own(pass, at + 1, to_int_word(n));
}

// Lays a text.
fn lay_text<K: Sink>(heap: &Heap<K>, pass: &mut HeapPass, at: u64, bytes: &[u8])
    requires of { IsOf heap.now pass.old }
    requires room { OwnsWords (holder pass.old) at (text_words bytes.now) }
    ensures of { SameHeap pass.old pass.new }
    ensures laid { holder pass.new ≡ with_words (holder pass.old) at (text_block bytes.now) }
    ensures bytes { AreBytes bytes.now }
{
    heap.store_own(pass, at, TEXT_TAG);
    heap.store_own(pass, at + 1, bytes.len() as u64);
    'words: for k in 0..bytes.len().div_ceil(8) {
        heap.store_own(pass, at + 2 + k as u64, word_at(bytes, k));
    }
}
