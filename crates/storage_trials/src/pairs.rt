// Pairs: that a text is found by its bytes, and that many pairs are taken out in time.

use ordered_pairs::{OrderedPairs, PutFault};
use rb_model::{SharedText, Value};
use std::alloc::Global;
use std::test::Fail;

/// Puts so many keys in, from 1 on.
fn fill(pairs: &mut OrderedPairs, count: i64) -> Result<(), PutFault> {
    for key in 1..=count {
        pairs.put(Value::Int(key), Value::Nil)?;
    }
    Ok(())
}

/// A text.
fn word(alloc: Global) -> Result<Value, PutFault> {
    Ok(Value::Str(SharedText::from_slice(alloc, b"word")?))
}

/// Puts a text in under itself.
fn put_text(pairs: &mut OrderedPairs, text: Value) -> Result<(), PutFault> {
    pairs.put(text.share()?, text)?;
    Ok(())
}

/// Whether a text is given back by a text with the same bytes.
fn has_text(pairs: &OrderedPairs, same: &Value) -> Result<bool, PutFault> {
    Ok(matches!(pairs.get(same)?, Value::Str(_)))
}

/// Whether a text is put in behind two keys, given back by its bytes, and copied with them.
fn gives_text(alloc: Global) -> Result<bool, PutFault> {
    let mut pairs = OrderedPairs::new(alloc)?;
    fill(&mut pairs, 2)?;
    put_text(&mut pairs, word(alloc)?)?;
    Ok(has_text(&pairs, &word(alloc)?)? && pairs.copy(alloc)?.len() == 3)
}

const MANY: u16 = 20_000;

/// How far on the next key is that is taken out: from the front, from the back, and scattered. None has a divisor in common with `MANY`.
const STEPS: [u16; 3] = [1, 19_999, 7_919];

/// Whether so many pairs are gone behind it.
fn are_taken_out(alloc: Global, step: u16) -> Result<bool, PutFault> {
    let mut pairs = OrderedPairs::new(alloc)?;
    fill(&mut pairs, i64::from(MANY))?;
    for at in 0..MANY {
        let key = i64::from(at) * i64::from(step) % i64::from(MANY) + 1;
        drop(pairs.delete(&Value::Int(key)));
    }
    Ok(pairs.is_empty())
}

/// Whether they are gone in each order.
fn all_are_taken_out(alloc: Global) -> Result<bool, PutFault> {
    for step in STEPS {
        if !are_taken_out(alloc, step)? {
            return Ok(false);
        }
    }
    Ok(true)
}

#[test]
fn pairs_are_found_and_taken_out_in_time(rt: HostRuntime) -> Result<(), Fail> {
    let text = gives_text(rt.alloc())?;
    let gone = all_are_taken_out(rt.alloc())?;
    assert!(rt; text && gone);
    Ok(())
}
