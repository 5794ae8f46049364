// Arrays: that the calls succeed where memory is there, how the items are then held, and a caller that a runtime would have.

ghost use Rattle.std.specs.Prelude.{◌≡◌, ◌-ℤ◌, pos, Some, length, IfSome, IfNone, IfOk, IsSomeAnd, OnErr};
ghost use Rattle.array_strategy.specs.Elements.{item_at, place_of, put_at};

use array_strategy::{LocalArray, Peeked, PutFault, Strategy};
use std::alloc::{AllocError, Global};
use std::test::Fail;
use typed_location::{Flag, Item};

// `array[index] += 1`, where that item is an integer that has a next one; the answer is the next one.
fn increment<V: Item>(array: &mut LocalArray<V>, index: i64) -> Result<Option<i64>, PutFault>
    ensures counted { IfOk result (λ found. IfSome found (λ n. item_at array.old.items index ≡ Some (V.int (n -ℤ pos 1)))) }
    ensures written { IfOk result (λ found. IfSome found (λ n. IsSomeAnd (place_of index (length array.old.items)) (λ j. array.new ≡ put_at V.integer array.old j (V.int n) (V.int n)))) }
    ensures raw { array.old.strategy ≡ Strategy.Ints → array.new.strategy ≡ Strategy.Ints }
    ensures none { IfOk result (λ found. IfNone found (array.new ≡ array.old)) }
    ensures kept { OnErr result (array.new ≡ array.old) }
{
    let Some(item) = array.at(index)? else {
        return Ok(None);
    };
    let Some(n) = item.as_int() else {
        return Ok(None);
    };
    let Some(next) = n.checked_add(1) else {
        return Ok(None);
    };
    array.put(index, V::of_int(next), V::of_int(next))?;
    Ok(Some(next))
}

// A value of a small language.
#[derive(Clone, Copy, PartialEq)]
enum Value {
    Nil,
    False,
    True,
    Int(i64),
    Text,
}

use Value::{False, Int, Nil, Text, True};

impl Item for Value {
    ghost use Rattle.std.specs.Prelude.{ℤ, Some, None, false, refl};
    ghost use Rattle.typed_location.specs.declared.flag.Flag.TheVariants as flags;
    ghost use Rattle.storage_trials.specs.declared.arrays.Value.TheVariants.{Nil, False, True, Int, Text};

    ghost int = { Int };

    ghost integer = { elim [ Nil ↦ None | False ↦ None | True ↦ None | Int n ↦ Some n | Text ↦ None ] };

    ghost flag = { elim [ flags.Nil ↦ Nil | flags.False ↦ False | flags.True ↦ True ] };

    ghost flag_of = { elim [ Nil ↦ Some flags.Nil | False ↦ Some flags.False | True ↦ Some flags.True | Int n ↦ None | Text ↦ None ] };

    ghost counted = { elim [ Nil ↦ false | False ↦ false | True ↦ false | Int n ↦ false | Text ↦ false ] };

    ghost known = { λ _ _. refl };

    ghost only = { elim [ Nil ↦ λ n e. Prim.cc | False ↦ λ n e. Prim.cc | True ↦ λ n e. Prim.cc | Int m ↦ λ n e. Prim.cc | Text ↦ λ n e. Prim.cc ] };

    ghost only_flag = { elim [
      | Nil ↦ elim [ flags.Nil ↦ λ e. refl | flags.False ↦ λ e. absurd (Prim.cc) | flags.True ↦ λ e. absurd (Prim.cc) ]
      | False ↦ elim [ flags.Nil ↦ λ e. absurd (Prim.cc) | flags.False ↦ λ e. refl | flags.True ↦ λ e. absurd (Prim.cc) ]
      | True ↦ elim [ flags.Nil ↦ λ e. absurd (Prim.cc) | flags.False ↦ λ e. absurd (Prim.cc) | flags.True ↦ λ e. refl ]
      | Int n ↦ λ f e. absurd (Prim.cc)
      | Text ↦ λ f e. absurd (Prim.cc)
    ] };

    fn as_int(&self) -> Option<i64> {
        match self {
            Value::Int(n) => Some(*n),
            _ => None,
        }
    }

    fn of_int(n: i64) -> Self {
        Value::Int(n)
    }

    fn as_flag(&self) -> Option<Flag> {
        match self {
            Value::Nil => Some(Flag::Nil),
            Value::False => Some(Flag::False),
            Value::True => Some(Flag::True),
            _ => None,
        }
    }

    fn of_flag(value: Flag) -> Self {
        match value {
            Flag::Nil => Value::Nil,
            Flag::False => Value::False,
            Flag::True => Value::True,
        }
    }

    fn copy(&self) -> Result<Self, AllocError> {
        Ok(*self)
    }
}

// What is done to an array.
#[derive(Clone, Copy)]
enum Deed {
    Push(Value),
    PushInt(i64),
    PushFlag(Flag),
    Unshift(Value),
    Put(i64, Value),
    PutInt(i64, i64),
    PutFlag(i64, Flag),
    Increment(i64),
}

use Deed::{Increment, Push, PushFlag, PushInt, Put, PutFlag, PutInt, Unshift};

// How the items of an array are held, as its first item shows.
#[derive(Clone, Copy, PartialEq)]
enum Held {
    Nowhere,
    Raw,
    InBytes,
    Whole,
}

use Held::{InBytes, Nowhere, Raw, Whole};

// Whether it came about. Where an array is filled up, it is with nil.
fn is_done(array: &mut LocalArray<Value>, deed: Deed) -> Result<bool, PutFault> {
    match deed {
        Push(item) => array.push(item)?,
        PushInt(n) => return Ok(array.push_int(n)?),
        PushFlag(flag) => return Ok(array.push_flag(flag)?),
        Unshift(item) => array.unshift(item)?,
        Put(index, item) => array.put(index, item, Nil)?,
        PutInt(index, n) => return Ok(array.put_int(index, n)),
        PutFlag(index, flag) => return Ok(array.put_flag(index, flag)),
        Increment(index) => return Ok(increment(array, index)?.is_some()),
    }
    Ok(true)
}

fn how_held(array: &LocalArray<Value>) -> Held {
    match array.peek(0) {
        Peeked::Nothing => Nowhere,
        Peeked::Int(_) => Raw,
        Peeked::Flag(_) => InBytes,
        Peeked::Item(_) => Whole,
    }
}

// Whether an array has these items and holds them so.
fn has(array: &LocalArray<Value>, items: &[Value], how: Held) -> Result<bool, PutFault> {
    let last = array.at(-1)?;
    let all = array.to_vec()?;
    Ok(last == items.last().copied() && all.as_slice() == items && how_held(array) == how)
}

// The items of an array, what is done to it, whether it comes about, the items behind it, and how they are then held.
type Row = (&'static [Value], Deed, bool, &'static [Value], Held);

const ROWS: [Row; 30] = [
    (&[], Push(Int(1)), true, &[Int(1)], Raw),
    (&[], Push(Nil), true, &[Nil], InBytes),
    (&[], PushInt(1), true, &[Int(1)], Raw),
    (&[], PushFlag(Flag::Nil), true, &[Nil], InBytes),
    (&[], Unshift(Text), true, &[Text], Whole),
    (&[], Put(1, True), true, &[Nil, True], InBytes),
    (&[], PutInt(0, 1), false, &[], Nowhere),
    (&[Int(1)], Push(Int(2)), true, &[Int(1), Int(2)], Raw),
    (&[Int(1)], Push(Nil), true, &[Int(1), Nil], Whole),
    (&[Int(1)], PushFlag(Flag::Nil), false, &[Int(1)], Raw),
    (&[Int(1)], Unshift(Int(2)), true, &[Int(2), Int(1)], Raw),
    (&[Int(1)], Unshift(True), true, &[True, Int(1)], Whole),
    (&[Int(1)], Put(0, Text), true, &[Text], Whole),
    (
        &[Int(1)],
        Put(2, Int(3)),
        true,
        &[Int(1), Nil, Int(3)],
        Whole,
    ),
    (&[Int(1)], PutFlag(0, Flag::Nil), false, &[Int(1)], Raw),
    (
        &[Int(1), Int(2)],
        Increment(-1),
        true,
        &[Int(1), Int(3)],
        Raw,
    ),
    (&[True], Push(False), true, &[True, False], InBytes),
    (&[True], Push(Int(1)), true, &[True, Int(1)], Whole),
    (&[True], PushInt(1), false, &[True], InBytes),
    (&[True], Unshift(False), true, &[False, True], InBytes),
    (&[True], Unshift(Text), true, &[Text, True], Whole),
    (&[True], Put(2, False), true, &[True, Nil, False], InBytes),
    (&[True], PutInt(0, 1), false, &[True], InBytes),
    (&[Text], Push(Int(1)), true, &[Text, Int(1)], Whole),
    (&[Text], PushInt(1), true, &[Text, Int(1)], Whole),
    (&[Text], PushFlag(Flag::True), true, &[Text, True], Whole),
    (&[Text], Unshift(Int(1)), true, &[Int(1), Text], Whole),
    (&[Text], Put(2, Int(1)), true, &[Text, Nil, Int(1)], Whole),
    (&[Text, Nil], PutInt(-1, 1), true, &[Text, Int(1)], Whole),
    (
        &[Text, Nil],
        PutFlag(0, Flag::True),
        true,
        &[True, Nil],
        Whole,
    ),
];

// Whether a row comes out as it says.
fn comes_out(alloc: Global, row: Row) -> Result<bool, PutFault> {
    let (start, deed, done, items, how) = row;
    let mut array = LocalArray::from_vec(alloc, Vec::from_slice(alloc, start)?)?;
    Ok(is_done(&mut array, deed)? == done && has(&array, items, how)?)
}

// Whether an array that is made of so many times an item has them.
fn is_filled(alloc: Global, items: &[Value], item: Value, how: Held) -> Result<bool, PutFault> {
    let array = LocalArray::filled(alloc, items.len(), item)?;
    has(&array, items, how)
}

// The number of the first row that does not come out as it says.
fn first_wrong(alloc: Global) -> Result<Option<usize>, PutFault> {
    for (at, row) in ROWS.iter().enumerate() {
        if !comes_out(alloc, *row)? {
            return Ok(Some(at));
        }
    }
    Ok(None)
}

// Whether arrays of one item so many times are held as others are.
fn are_filled(alloc: Global) -> Result<bool, PutFault> {
    Ok(
        is_filled(alloc, &[Int(7), Int(7), Int(7)], Int(7), Raw)?
            && is_filled(alloc, &[Nil, Nil], Nil, InBytes)?
            && is_filled(alloc, &[Text, Text], Text, Whole)?
            && is_filled(alloc, &[Text], Text, Whole)?,
    )
}

#[test]
fn calls_succeed_where_memory_is_there(rt: HostRuntime) -> Result<(), Fail> {
    let wrong = first_wrong(rt.alloc())?;
    let filled = are_filled(rt.alloc())?;
    assert!(rt; filled);
    assert_eq!(rt; wrong, None);
    Ok(())
}
