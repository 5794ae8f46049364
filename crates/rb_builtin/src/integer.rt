// Operations on two integers.

ghost use Rattle.std.specs.Prelude.{◌≡◌, ℕ, true, List, [], ◌∷◌, Some, None};
ghost use Rattle.rb_tree.specs.declared.node.Program.{Program};
ghost use Rattle.rb_model.specs.Values.{truth};
ghost use Rattle.rb_machine.specs.Methods.{Gives, unless_zero, quotient, modulo, leaves_below};
ghost use Rattle.rb_model.specs.Values as value;
ghost use Rattle.rb_machine.specs.Methods.{deed};
ghost use Rattle.rb_builtin.specs.Names.{builtin_of};
ghost use Rattle.rb_builtin.specs.Integers as spec;

use crate::builtin::Builtin;

/// What an operation on two integers gives, in a form that needs no memory.
#[derive(Clone, Copy, Debug, PartialEq, Eq)]
pub enum IntegerAnswer {
    Int(i64),
    False,
    True,
    /// A result outside 64 bits.
    Overflow,
    /// A division by zero.
    ByZero,
    /// Integers have no such operation.
    NoOperation,
}

/// The result, where it fits 64 bits.
#[inline(always)]
fn fitted(found: Option<i64>) -> IntegerAnswer
    ensures { spec.answer_of result ≡ spec.if_fitted found }
{
    match found {
        Some(n) => IntegerAnswer::Int(n),
        None => IntegerAnswer::Overflow,
    }
}

/// The truth of a comparison.
#[inline(always)]
fn truth_of(holds: bool) -> IntegerAnswer
    ensures { spec.answer_of result ≡ Gives (truth holds) }
{
    if holds {
        IntegerAnswer::True
    } else {
        IntegerAnswer::False
    }
}

/// The quotient, rounded toward minus infinity.
#[inline(always)]
fn quotient(m: i64, n: i64) -> IntegerAnswer
    ensures { spec.answer_of result ≡ unless_zero quotient m n }
{
    if n == 0 {
        return IntegerAnswer::ByZero;
    }
    if n == -1 {
        return fitted(m.checked_neg());
    }
    let whole = m.div_euclid(n);
    if n < 0 && m.rem_euclid(n) != 0 {
        return fitted(whole.checked_sub(1));
    }
    IntegerAnswer::Int(whole)
}

/// What is left of the dividend, which has the sign of the divisor.
#[inline(always)]
fn modulo(m: i64, n: i64) -> IntegerAnswer
    ensures { spec.answer_of result ≡ unless_zero modulo m n }
{
    if n == 0 {
        return IntegerAnswer::ByZero;
    }
    if n == -1 {
        return IntegerAnswer::Int(0);
    }
    let rest = m.rem_euclid(n);
    if n < 0 && rest != 0 {
        return fitted(rest.checked_add(n));
    }
    IntegerAnswer::Int(rest)
}

/// Whether one integer and another make an operation by a method.
#[inline(always)]
pub fn is_operation(method: Builtin) -> bool
    ensures { result ≡ spec.is_operation method }
{
    match method {
        Builtin::Plus
        | Builtin::Minus
        | Builtin::Times
        | Builtin::Over
        | Builtin::Modulo
        | Builtin::Less
        | Builtin::AtMost
        | Builtin::More
        | Builtin::AtLeast
        | Builtin::Equal => true,
        _ => false,
    }
}

/// What an operation gives.
#[inline(always)]
fn operation(method: Builtin, m: i64, n: i64) -> IntegerAnswer
    ensures { spec.answer_of result ≡ spec.operated method m n }
{
    match method {
        Builtin::Plus => fitted(m.checked_add(n)),
        Builtin::Minus => fitted(m.checked_sub(n)),
        Builtin::Times => fitted(m.checked_mul(n)),
        Builtin::Over => quotient(m, n),
        Builtin::Modulo => modulo(m, n),
        Builtin::Less => truth_of(m < n),
        Builtin::AtMost => truth_of(m <= n),
        Builtin::More => truth_of(m > n),
        Builtin::AtLeast => truth_of(m >= n),
        Builtin::Equal => truth_of(m == n),
        _ => IntegerAnswer::NoOperation,
    }
}

/// What an operation on two integers gives.
#[inline(always)]
pub fn integer_operation(method: Builtin, m: i64, n: i64) -> IntegerAnswer
    ensures answer { spec.answer_of result ≡ spec.operated method m n }
    // Where the method is an operation, that is what the table says of the call.
    ensures table { spec.is_operation method ≡ true → (P : Program) (name : List ℕ) → builtin_of name ≡ Some method
        → deed P (value.Int m) name (value.Int n ∷ []) None ≡ spec.answer_of result }
{
    operation(method, m, n)
}
