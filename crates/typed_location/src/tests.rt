//! The table of words by example, and callers that a runtime would have.

ghost use Rattle.std.specs.Prelude.{◌≡◌, ◌≢◌, ◌+ℤ◌, ℤ, Some, None, Option, IfSome, IfNone, IfOk};
ghost use Rattle.typed_location.specs.Word.{word_of, IsSmall};
ghost use Rattle.typed_location.specs.declared.general_place.Any.TheVariants.{Small};

use crate::{
    Any, Flag, Item, SMALL_MAX, SMALL_MIN, from_any_word, from_int_word, is_address, is_small,
    to_any_word, to_int_word,
};
use std::alloc::AllocError;

// The integer that is in a word itself, if one is.
fn small_of(word: u64) -> Option<i64>
    ensures found { IfSome result (λ n. IsSmall n × (word_of (Small n) ≡ word)) }
    ensures none { IfNone result ((n : ℤ) → IsSmall n → word_of (Small n) ≢ word) }
{
    match from_any_word(word) {
        Some(Any::Small(n)) => Some(n),
        Some(_) => None,
        None => None,
    }
}

// The sum of two integers that are in their words, where it is in a word too.
fn add_words(left: u64, right: u64) -> Option<u64>
    ensures complete { (m n : ℤ) → IsSmall m → IsSmall n → word_of (Small m) ≡ left → word_of (Small n) ≡ right → IsSmall (m +ℤ n) → result ≡ Some (word_of (Small (m +ℤ n))) }
    ensures sound { IfSome result (λ sum. (m : ℤ) × (n : ℤ) × (word_of (Small m) ≡ left) × (word_of (Small n) ≡ right) × (sum ≡ word_of (Small (m +ℤ n)))) }
{
    let sum = small_of(left)? + small_of(right)?;
    if is_small(sum) {
        Some(to_any_word(Any::Small(sum)))
    } else {
        None
    }
}

// A value of a small language.
#[derive(Clone, Copy, PartialEq, Eq, Debug)]
enum Value {
    Nil,
    Int(i64),
}

impl Item for Value {
    ghost use Rattle.std.specs.Prelude.{ℤ, Some, None, false, refl};
    ghost use Rattle.typed_location.specs.declared.flag.Flag.TheVariants as flags;
    ghost use Rattle.typed_location.specs.declared.tests.Value.TheVariants.{Nil, Int};

    ghost int = { Int };

    ghost integer = { elim [ Nil ↦ None | Int n ↦ Some n ] };

    ghost flag = { λ _. Nil };

    ghost flag_of = { elim [ Nil ↦ Some flags.Nil | Int n ↦ None ] };

    ghost counted = { λ _. false };

    ghost known = { λ _ _. refl };

    ghost only = { elim [ Nil ↦ λ n e. Prim.cc | Int m ↦ λ n e. Prim.cc ] };

    ghost only_flag = { elim [ Nil ↦ λ f e. refl | Int n ↦ λ f e. Prim.cc ] };

    fn as_int(&self) -> Option<i64> {
        match self {
            Value::Nil => None,
            Value::Int(n) => Some(*n),
        }
    }

    fn of_int(n: i64) -> Self {
        Value::Int(n)
    }

    fn as_flag(&self) -> Option<Flag> {
        match self {
            Value::Nil => Some(Flag::Nil),
            Value::Int(_) => None,
        }
    }

    fn of_flag(_: Flag) -> Self {
        Value::Nil
    }

    fn copy(&self) -> Result<Self, AllocError> {
        Ok(*self)
    }
}

// The item, through the integer that it stands for.
fn through_int<V: Item>(item: V) -> Result<V, AllocError>
    ensures { IfOk result (λ same. same ≡ item) }
{
    match item.as_int() {
        Some(n) => Ok(V::of_int(n)),
        None => item.copy(),
    }
}

// The item, through the flag that it stands for.
fn through_flag<V: Item>(item: V) -> V
    ensures { result ≡ item }
{
    match item.as_flag() {
        Some(flag) => V::of_flag(flag),
        None => item,
    }
}

#[test]
fn each_value_has_the_word_of_the_table(rt: HostRuntime) {
    assert_eq!(rt; to_any_word(Any::Nil), 0);
    assert_eq!(rt; to_any_word(Any::False), 8);
    assert_eq!(rt; to_any_word(Any::True), 16);
    assert_eq!(rt; to_any_word(Any::Small(0)), 1);
    assert_eq!(rt; to_any_word(Any::Small(5)), 41);
    assert_eq!(rt; to_any_word(Any::Small(-1)), 0xffff_ffff_ffff_fff9);
    assert_eq!(rt; to_any_word(Any::Small(SMALL_MAX)), 0x7fff_ffff_ffff_fff9);
    assert_eq!(rt; to_any_word(Any::Small(SMALL_MIN)), 0x8000_0000_0000_0001);
    assert_eq!(rt; to_any_word(Any::Sym(5)), 42);
    assert_eq!(rt; to_any_word(Any::Text(64)), 515);
    assert_eq!(rt; to_any_word(Any::Boxed(64)), 516);
    assert_eq!(rt; to_any_word(Any::Thing(64)), 517);
}

#[test]
fn words_are_read_by_their_tags(rt: HostRuntime) {
    for (word, value) in [
        (0, Some(Any::Nil)),
        (8, Some(Any::False)),
        (16, Some(Any::True)),
        (24, None),
        (u64::MAX - 7, None),
        (41, Some(Any::Small(5))),
        (0xffff_ffff_ffff_fff9, Some(Any::Small(-1))),
        (0x8000_0000_0000_0001, Some(Any::Small(SMALL_MIN))),
        (0x7_ffff_fffa, Some(Any::Sym(u32::MAX))),
        (0x8_0000_0002, None),
        (3, Some(Any::Text(0))),
        (u64::MAX - 3, Some(Any::Boxed(0x1fff_ffff_ffff_ffff))),
        (517, Some(Any::Thing(64))),
        (6, None),
        (7, None),
    ] {
        assert_eq!(rt; from_any_word(word), value, "{word:x}");
    }
}

#[test]
fn the_bounds_of_what_is_held_in_a_word(rt: HostRuntime) {
    for (n, small) in [
        (0, true),
        (1_152_921_504_606_846_975, true),
        (1_152_921_504_606_846_976, false),
        (-1_152_921_504_606_846_976, true),
        (-1_152_921_504_606_846_977, false),
        (i64::MIN, false),
    ] {
        assert_eq!(rt; is_small(n), small, "{n}");
        assert_eq!(rt; from_int_word(to_int_word(n)), n);
    }
    assert!(rt; is_address(0x1fff_ffff_ffff_ffff) && !is_address(0x2000_0000_0000_0000));
    assert_eq!(rt; to_int_word(-2), 0xffff_ffff_ffff_fffe);
}

#[test]
fn words_are_added(rt: HostRuntime) {
    for (left, right, sum) in [
        (41, 0xffff_ffff_ffff_fff9, Some(33)),
        (0x7fff_ffff_ffff_fff9, 9, None),
        (0, 1, None),
    ] {
        assert_eq!(rt; add_words(left, right), sum, "{left:x} {right:x}");
    }
}

#[test]
fn items_go_through_integers(rt: HostRuntime) -> Result<(), AllocError> {
    for value in [Value::Nil, Value::Int(i64::MIN), Value::Int(7)] {
        assert_eq!(rt; through_int(value)?, value);
    }
    assert_eq!(rt; through_int(-7_i64)?, -7);
    Ok(())
}

#[test]
fn items_go_through_flags(rt: HostRuntime) {
    for value in [Value::Nil, Value::Int(7)] {
        assert_eq!(rt; through_flag(value), value);
    }
    assert_eq!(rt; through_flag(-7_i64), -7);
    assert_eq!(rt; size_of::<Flag>(), 1);
}
