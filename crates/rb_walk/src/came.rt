// How the evaluation of a node comes out.

ghost use Rattle.std.specs.Prelude.{◌≡◌, IfSome, Some, is_some};
ghost use Rattle.rb_model.specs.Ends.{over};
ghost use Rattle.rb_model.specs.Values.{Value as Val};
ghost use Rattle.rb_model.specs.declared.value.Value.{Value as Held};
ghost use Rattle.rb_model.specs.Immediates.{value_told};
ghost use Rattle.rb_walk.specs.declared.came.Leave.{Leave as Leaving};
ghost use Rattle.rb_walk.specs.Outcome.{Gave, end_by, is_left, outcome, value_of};

use rb_model::{End, Immediate};

/// What comes of a node, in registers: a value that needs no memory, a value that lies in the walker, or none, since the node is left.
#[derive(Clone, Copy)]
pub enum Came {
    Nil,
    False,
    True,
    Int(i64),
    /// The walker has the value.
    Other,
    /// The walker knows how the node is left.
    Left,
}

/// How a node is left without a value of its own.
#[derive(Drop)]
pub enum Leave {
    Break,
    Next,
    /// The walker has the value.
    Return,
    /// The thread ends.
    Over(End),
}

/// Why the thread ends where no fault is raised.
#[derive(Clone, Copy)]
pub enum Cut {
    Steps,
    Memory,
    Sink,
}

/// The end of a thread that is cut.
pub fn end_by(cut: Cut) -> End
    ensures { over result ≡ end_by cut }
{
    match cut {
        Cut::Steps => End::Steps,
        Cut::Memory => End::Memory,
        Cut::Sink => End::Sink,
    }
}

/// An immediate value as it comes. One that is none comes as a value that lies in the walker.
#[inline(always)]
pub fn immediate(value: Immediate) -> Came
    ensures { (v : Val) (w : Held) (l : Leaving) → value_told value ≡ Some v → outcome result w l ≡ Gave v }
{
    match value {
        Immediate::Nil => Came::Nil,
        Immediate::False => Came::False,
        Immediate::True => Came::True,
        Immediate::Int(n) => Came::Int(n),
        Immediate::Other => Came::Other,
    }
}

/// What came, where it is an immediate value.
#[inline(always)]
pub fn immediate_of(came: Came) -> Immediate
    ensures { (value : Held) → IfSome (value_told result) (λ v. value_of came value ≡ v) }
{
    match came {
        Came::Nil => Immediate::Nil,
        Came::False => Immediate::False,
        Came::True => Immediate::True,
        Came::Int(n) => Immediate::Int(n),
        Came::Other | Came::Left => Immediate::Other,
    }
}

/// Whether there is an immediate value.
#[inline(always)]
pub fn is_told(value: Immediate) -> bool
    ensures { result ≡ is_some (value_told value) }
{
    match value {
        Immediate::Other => false,
        _ => true,
    }
}

/// Whether no value came.
pub fn is_left(came: Came) -> bool
    ensures { result ≡ is_left came }
{
    match came {
        Came::Left => true,
        _ => false,
    }
}
