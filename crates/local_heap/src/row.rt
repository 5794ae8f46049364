// The values of an object that words have no room for, by place, and its words.

ghost use Rattle.std.specs.Prelude.{◌≡◌, ◌≢◌, ◌<◌, ◌≤◌, length, map, set, slice_index, None, IfSome, IfOk, OnOk, OnErr, true};
ghost use Rattle.rb_model.specs.Values.{is_text, plain, Nil};
ghost use Rattle.typed_location.specs.Word.{twos_complement};
ghost use Rattle.local_heap.specs.Words.{IsSum};
ghost use Rattle.local_heap.specs.Slots.{Puts, Alike, whole_at};

use rb_model::Value;
use smallvec::SmallVec;
use std::alloc::AllocError;
use typed_location::{from_int_word, to_int_word};

/// The words of an object. Few lie in the object itself.
pub type Words = SmallVec<u64, 3>;

/// Gives a place another word.
pub fn set_word(words: &mut Words, at: usize, word: u64)
    requires { at < length words.old.items }
    ensures { words.new.items ≡ set words.old.items at word }
{
    if let Some(place) = words.get_mut(at) {
        *place = word;
    }
}

/// Adds an integer to the one whose word a place has, where the sum is an integer. Else nothing is done. Answers the sum.
#[inline(always)]
pub fn add_to_word(words: &mut Words, at: usize, n: i64) -> Option<i64>
    requires { at < length words.old.items }
    ensures sum { IsSum (slice_index words.old.items at) n result }
    ensures written { IfSome result (λ sum. words.new.items ≡ set words.old.items at (twos_complement 64 sum)) }
    ensures kept { result ≡ None → words.new ≡ words.old }
{
    let sum = from_int_word(words[at]).checked_add(n)?;
    set_word(words, at, to_int_word(sum));
    Some(sum)
}

/// Gives a place of a row a value. A row has nil at all places behind its last, so that nil needs no room.
#[inline(always)]
pub fn settle(row: &mut Vec<Value>, at: usize, value: Value) -> Result<(), AllocError>
    ensures put { OnOk result (Puts (map plain row.old.items) at (plain value) (map plain row.new.items)) }
    ensures err { OnErr result (Alike (map plain row.old.items) (map plain row.new.items)) }
    ensures refused { OnErr result (plain value ≢ Nil) }
{
    if at < row.len() {
        row[at] = value;
        return Ok(());
    }
    if let Value::Nil = value {
        return Ok(());
    }
    extend(row, at)?;
    row.push(value)?;
    Ok(())
}

/// Lengthens a row by nil.
fn extend(row: &mut Vec<Value>, len: usize) -> Result<(), AllocError>
    requires { length row.old.items ≤ len }
    ensures alike { Alike (map plain row.old.items) (map plain row.new.items) }
    ensures len { OnOk result (length row.new.items ≡ len) }
{
    'more: while row.len() < len {
        row.push(Value::Nil)?;
    }
    Ok(())
}

/// A copy of the value at a place of a row.
#[inline(always)]
pub fn value_at(row: &[Value], at: usize) -> Result<Value, AllocError>
    ensures value { IfOk result (λ value. plain value ≡ whole_at (map plain row.now) at) }
    ensures refused { OnErr result (is_text (whole_at (map plain row.now) at) ≡ true) }
{
    match row.get(at) {
        None => Ok(Value::Nil),
        Some(value) => value.share(),
    }
}
