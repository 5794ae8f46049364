// A value is loaded by the word that names it.

ghost use Rattle.std.specs.Prelude.{◌≡◌};
ghost use Rattle.rb_model.specs.Values.{Value as Val};
ghost use Rattle.heap_core.specs.Heaps.{IsOf, SameHeap, holder};
ghost use Rattle.block_kinds.specs.Reading.{IsLoaded, Names};

use crate::loaded::Loaded;
use heap_core::{Heap, HeapPass};
use rb_edge::Sink;
use rb_model::Id;
use typed_location::{Any, from_any_word, from_int_word, one_int_word, one_word};

/// The value that a word names. A text is read by its place.
pub fn load<K: Sink>(heap: &Heap<K>, pass: &mut HeapPass, word: u64) -> Loaded
    requires of { IsOf heap.now pass.old }
    requires named { (v : Val) × Names (holder pass.old) word v }
    ensures of { SameHeap pass.old pass.new }
    ensures same { holder pass.new ≡ holder pass.old }
    ensures loaded { (v : Val) → Names (holder pass.old) word v → IsLoaded (holder pass.old) v result }
{
    one_word();
    one_int_word();
    let Some(found) = from_any_word(word) else {
        unreachable!()
    };
    match found {
        Any::Nil => Loaded::Nil,
        Any::False => Loaded::False,
        Any::True => Loaded::True,
        Any::Small(n) => Loaded::Int(n),
        Any::Sym(number) => Loaded::Sym(number),
        Any::Text(at) => Loaded::Text(at),
        Any::Boxed(at) => {
            let bits = heap.load_still(pass, at + 1);
            Loaded::Int(from_int_word(bits))
        }
        Any::Thing(at) => {
            let thread = heap.load_still(pass, at + 1);
            let serial = heap.load_still(pass, at + 2);
            Loaded::Thing(Id { thread, serial }, at)
        }
    }
}
