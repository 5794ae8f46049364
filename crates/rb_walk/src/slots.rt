// Slots of a frame.

ghost use Rattle.std.specs.Prelude.{◌≡◌, ◌≤◌, ◌<◌, ◌+◌, ◌-◌, ◌++◌, ℕ, [], ◌∷◌, Some, IfOk, IfSome, OnOk, map, length, take, drop, replicate, slice_get, slice_set};
ghost use Rattle.rb_model.specs.Values.{Int, Nil, plain};
ghost use Rattle.rb_model.specs.declared.value.Value.TheVariants as held;
ghost use Rattle.rb_machine.specs.Scopes.{Script};
ghost use Rattle.rb_machine.specs.Call.{last_value};
ghost use Rattle.rb_walk.specs.Answers.{Passed};
ghost use Rattle.rb_walk.specs.Slots.{first_of_block};
ghost use Rattle.rb_walk.specs.Walks.{slot_value};

use rb_model::Value;
use std::alloc::{AllocError, Global};

/// How many slots a row has beside those that its first frame needs, where it is made for one call.
pub const SPARE_SLOTS: usize = 256;

/// Sets slots to nil.
#[inline(always)]
pub fn clear(room: &mut [Value], from: usize, to: usize)
    requires { to ≤ length room.old }
    ensures room { length room.new ≡ length room.old }
    ensures below { (i : ℕ) → i < from → slice_get room.new i ≡ slice_get room.old i }
    ensures above { (i : ℕ) → to ≤ i → slice_get room.new i ≡ slice_get room.old i }
    ensures within { (i : ℕ) → from ≤ i → i < to → slice_get room.new i ≡ Some held.Nil }
{
    'slots: for slot in from..to {
        room[slot] = Value::Nil;
    }
}

/// So many slots more, with nil in them.
pub fn add_slots(row: &mut Vec<Value>, count: usize) -> Result<(), AllocError>
    ensures { OnOk result (map plain row.new.items ≡ map plain row.old.items ++ replicate count Nil) }
{
    row.reserve(count)?;
    'slots: for _ in 0..count {
        row.push(Value::Nil)?;
    }
    Ok(())
}

/// A row of its own with so many slots at least: these values first, nil behind them.
pub fn row_behind(alloc: Global, values: &[Value], slots: usize) -> Result<Vec<Value>, AllocError>
    ensures { IfOk result (λ row. map plain row.items ≡ map plain values.now ++ replicate (slots - length values.now) Nil) }
{
    let mut row = Vec::with_capacity(alloc, values.len())?;
    'values: for value in values {
        row.push(value.share()?)?;
    }
    add_slots(&mut row, slots.saturating_sub(values.len()))?;
    Ok(row)
}

/// Writes an integer into a slot.
#[inline(always)]
pub fn put(room: &mut [Value], slot: usize, n: i64)
    requires { slot < length room.old }
    ensures { room.new ≡ slice_set room.old slot (held.Int n) }
{
    match &mut room[slot] {
        Value::Int(cell) => *cell = n,
        cell => *cell = Value::Int(n),
    }
}

/// Puts a value into a slot.
#[inline(always)]
pub fn place(room: &mut [Value], slot: usize, value: Value)
    requires { slot < length room.old }
    ensures { Passed slot (plain value) room.old room.new }
{
    room[slot] = value;
}

/// The slots of a block at the start of an iteration: the first has a value where the block takes one, the others nil.
pub fn start_block(room: &mut [Value], from: usize, count: usize, takes: bool, first: i64)
    requires { from + count ≤ length room.old }
    ensures room { length room.new ≡ length room.old }
    ensures below { (i : ℕ) → i < from → slice_get room.new i ≡ slice_get room.old i }
    ensures above { (i : ℕ) → from + count ≤ i → slice_get room.new i ≡ slice_get room.old i }
    ensures within { (i : ℕ) → i < count → slice_get room.new (from + i) ≡ Some (first_of_block takes first i) }
{
    clear(room, from, from + count);
    if takes && count > 0 {
        room[from] = Value::Int(first);
    }
}

/// The slots of a block at the start of an iteration: the first have these two values, where the block takes so many, the others nil.
#[inline(always)]
pub fn open_block(
    room: &mut [Value],
    from: usize,
    count: usize,
    takes: usize,
    first: Value,
    second: Value,
)
    requires { from + count ≤ length room.old }
    ensures room { length room.new ≡ length room.old }
    ensures below { (i : ℕ) → i < from → slice_get room.new i ≡ slice_get room.old i }
    ensures above { (i : ℕ) → from + count ≤ i → slice_get room.new i ≡ slice_get room.old i }
    ensures within { (i : ℕ) → i < count → slice_get (map plain room.new) (from + i) ≡ Some (slot_value (take takes (plain first ∷ plain second ∷ [])) i) }
{
    let end = from + count;
    clear(room, from, end);
    if takes == 0 {
        return;
    }
    if count == 0 {
        return;
    }
    room[from] = first;
    if takes == 1 {
        return;
    }
    if count == 1 {
        return;
    }
    room[from + 1] = second;
}

/// The values of arguments, which lie behind a frame; none where the row is too short for them.
pub fn passed(room: &[Value], from: usize, count: usize) -> &[Value]
    ensures { from + count ≤ length room.now → result.now ≡ take count (drop from room.now) }
{
    if room.len() < from || room.len() - from < count {
        return &room[0..0];
    }
    &room[from..from + count]
}

/// The only argument, where it is an integer.
#[inline(always)]
pub fn only_integer(args: &[Value]) -> Option<i64>
    ensures { IfSome result (λ n. map plain args.now ≡ Int n ∷ []) }
{
    let [only] = args else {
        return None;
    };
    match only {
        Value::Int(n) => Some(*n),
        _ => None,
    }
}

/// The value in a place.
fn value_in(values: &[Value], place: usize) -> Option<&Value>
    ensures { IfSome result (λ v. slice_get values.now place ≡ Some v.now) }
{
    values.get(place)
}

/// The last of values, or nil.
pub fn last_of(values: &[Value]) -> Result<Value, AllocError>
    ensures { IfOk result (λ last. (S : Script) → plain last ≡ last_value S (map plain values.now)) }
{
    let count = values.len();
    if count == 0 {
        return Ok(Value::Nil);
    }
    let Some(last) = value_in(values, count - 1) else {
        // Never, as there are some.
        return Err(AllocError);
    };
    let copy = last.share()?;
    Ok(copy)
}
