// What is built is read back.

ghost use Rattle.block_kinds.specs.Built.{LiesFor};
ghost use Rattle.std.specs.Prelude.{[]};

use crate::{Loaded, build, load, read_text, words_for};
use heap_core::{Heap, Take};
use rb_edge::MemorySink;
use rb_model::{SharedText, Value};
use std::alloc::{AllocError, Global};
use std::sync::Wait;
use std::test::Fail;

/// Whether a value, which is no reference, is loaded by the word that building it gave.
fn is_read_back<R: Wait>(rt: &R, alloc: Global, value: &Value) -> Result<bool, AllocError>
    requires lies { LiesFor [] value.now }
{
    let out = MemorySink::new(alloc, Vec::new(alloc), 0)?;
    let Ok((heap, mut pass)) = Heap::new(alloc, 4096, 1, out) else {
        return Err(AllocError);
    };
    let Take::Got(at) = heap.take(rt, &mut pass, words_for(value), None) else {
        return Ok(false);
    };
    let word = build(&heap, &mut pass, at, value);
    let loaded = load(&heap, &mut pass, word);
    Ok(match (loaded, value) {
        (Loaded::Nil, Value::Nil) => true,
        (Loaded::False, Value::False) => true,
        (Loaded::True, Value::True) => true,
        (Loaded::Int(m), Value::Int(n)) => m == *n,
        (Loaded::Sym(number), Value::Sym(name)) => number == name.0,
        (Loaded::Text(place), Value::Str(text)) => {
            let found = read_text(alloc, &heap, &mut pass, place)?;
            found.as_slice() == text.as_slice()
        }
        _ => false,
    })
}

/// Whether a text of so many bytes is read back, none of which is the one before it.
fn text_is_read_back<R: Wait>(rt: &R, alloc: Global, length: usize) -> Result<bool, AllocError> {
    let mut bytes = vec![in alloc; 0u8; length]?;
    let mut next = 0u8;
    'bytes: for byte in bytes.iter_mut() {
        *byte = next;
        next = next.wrapping_add(37);
    }
    let text = SharedText::from_vec(alloc, bytes)?;
    is_read_back(rt, alloc, &Value::Str(text))
}

#[test]
fn values_are_read_back(rt: HostRuntime) -> Result<(), Fail> {
    let alloc = rt.alloc();
    let small = 1_152_921_504_606_846_975;
    for n in [
        0,
        -1,
        small,
        small + 1,
        -small - 1,
        -small - 2,
        i64::MIN,
        i64::MAX,
    ] {
        let is_back = is_read_back(&rt, alloc, &Value::Int(n))?;
        assert!(rt; is_back);
    }
    for length in [0, 1, 7, 8, 9, 1000] {
        let is_back = text_is_read_back(&rt, alloc, length)?;
        assert!(rt; is_back);
    }
    Ok(())
}
