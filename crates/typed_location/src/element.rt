//! What a container has to know of its items to store integers raw, and nil and truth values in a byte each.

ghost use Rattle.std.specs.Prelude.{◌≡◌, ℤ, pos, ◌↔◌, Bool, true, false, Option, None, Some, FitsSigned, IfOk, OnErr, refl};
ghost use Rattle.std.specs.Int.{w64};
ghost use Rattle.std.proofs.lemmas.Option.{same_Some};

use crate::flag::Flag;
use std::alloc::AllocError;

/// A type of items some of which stand for integers, and some for nil or a truth value.
pub trait Item: Sized + Drop {
    ghost use Rattle.typed_location.specs.declared.flag.Flag.{Flag};

    // the item that stands for an integer
    ghost int: { ℤ → Self };

    // the integer that an item stands for, if any
    ghost integer: { Self → Option ℤ };

    // the item that a flag stands for
    ghost flag: { Flag → Self };

    // the flag that an item stands for, if any
    ghost flag_of: { Self → Option Flag };

    // whether owners of an item are counted, so that one more may be refused
    ghost counted: { Self → Bool };

    /// The integer that the item stands for, if any.
    fn as_int(&self) -> Option<i64>
        ensures value { result ≡ integer self.now }
        ensures exact { (n : ℤ) → FitsSigned w64 n → (result ≡ Some n) ↔ (self.now ≡ int n) };

    /// The item that stands for the integer.
    fn of_int(n: i64) -> Self
        ensures { result ≡ int n };

    /// The flag that the item stands for, if any.
    fn as_flag(&self) -> Option<Flag>
        ensures { result ≡ flag_of self.now };

    /// The item that the flag stands for.
    fn of_flag(value: Flag) -> Self
        ensures { result ≡ flag value };

    /// A copy of the item. It can be refused only where owners are counted.
    fn copy(&self) -> Result<Self, AllocError>
        ensures same { IfOk result (λ copied. copied ≡ self.now) }
        ensures refused { OnErr result (counted self.now ≡ true) };

    // each integer is the one that its item stands for
    ghost known: { (n : ℤ) → FitsSigned w64 n → integer (int n) ≡ Some n };

    // an item that stands for an integer is that integer's item
    ghost only: { (v : Self) (n : ℤ) → integer v ≡ Some n → v ≡ int n };

    // an item that stands for a flag is that flag's item
    ghost only_flag: { (v : Self) (f : Flag) → flag_of v ≡ Some f → v ≡ flag f };
}

impl Item for i64 {
    ghost int = { λ n. n };

    ghost integer = { λ n. Some n };

    ghost flag = { λ _. pos 0 };

    ghost flag_of = { λ _. None };

    ghost counted = { λ _. false };

    ghost known = { λ _ _. refl };

    ghost only = { same_Some };

    ghost only_flag = { λ v f e. absurd (Prim.cc) };

    fn as_int(&self) -> Option<i64> {
        Some(*self)
    }

    fn of_int(n: i64) -> Self {
        n
    }

    fn as_flag(&self) -> Option<Flag> {
        None
    }

    fn of_flag(_: Flag) -> Self {
        0
    }

    fn copy(&self) -> Result<Self, AllocError> {
        Ok(*self)
    }
}
