// How the body of a thread begins, and how it ends.

ghost use Rattle.std.specs.Prelude.{◌≡◌, ◌≤◌, ◌<◌, ◌++◌, ℕ, Some, map, length, slice_get, IfOk, IfSome, OnOk};
ghost use Rattle.rb_model.specs.Values.{plain};
ghost use Rattle.rb_model.specs.Ends.{over};
ghost use Rattle.rb_machine.specs.Threads.{self_among, captured_among};
ghost use Rattle.rb_walk.specs.Carries.{me_of};
ghost use Rattle.rb_walk.specs.Ending.{body_ending};
ghost use Rattle.rb_walk.specs.Outcome.{outcome};
ghost use Rattle.rb_walk.specs.Walks.{slot_value};

use crate::came::{Came, Leave, is_left};
use rb_model::{End, Ref, Value};
use std::alloc::AllocError;

/// `self`, where there is one before so many values of locals that are captured, and those values. None where it is no object.
pub fn own_among(behind: &[Value], captured: usize) -> Option<(Option<Ref>, &[Value])>
    ensures me { IfSome result (λ own. me_of own.0 ≡ self_among captured (map plain behind.now)) }
    ensures captured { IfSome result (λ own. map plain own.1.now ≡ captured_among captured (map plain behind.now)) }
{
    if behind.len() <= captured {
        return Some((None, behind));
    }
    match behind {
        [Value::Ref(object), captured @ ..] => Some((Some(*object), captured)),
        _ => None,
    }
}

/// The value of a slot that has its value from two rows, one behind the other, or nil behind them.
fn value_among(first: &[Value], second: &[Value], slot: usize) -> Result<Value, AllocError>
    ensures { IfOk result (λ value. plain value ≡ slot_value (map plain first.now ++ map plain second.now) slot) }
{
    if let Some(value) = first.get(slot) {
        return value.share();
    }
    match second.get(slot - first.len()) {
        Some(value) => value.share(),
        None => Ok(Value::Nil),
    }
}

/// Gives the first slots of a frame of this size the values of two rows, one behind the other, and the others nil.
pub fn lay(
    room: &mut [Value],
    size: usize,
    first: &[Value],
    second: &[Value],
) -> Result<(), AllocError>
    requires { size ≤ length room.old }
    ensures room { length room.new ≡ length room.old }
    ensures within { OnOk result ((i : ℕ) → i < size → slice_get (map plain room.new) i ≡ Some (slot_value (map plain first.now ++ map plain second.now) i)) }
{
    'slots: for slot in 0..size {
        room[slot] = value_among(first, second, slot)?;
    }
    Ok(())
}

/// How a thread ends whose body came out so: with its last value, if it was not left. `value` is the value that registers do not hold.
pub fn end_of_body(came: Came, value: Value, leave: Leave) -> End
    ensures { over result ≡ body_ending (outcome came value leave) }
{
    if is_left(came) {
        return match leave {
            Leave::Break | Leave::Next | Leave::Return => End::Value(Value::Nil),
            Leave::Over(end) => end,
        };
    }
    match came {
        Came::Nil => End::Value(Value::Nil),
        Came::False => End::Value(Value::False),
        Came::True => End::Value(Value::True),
        Came::Int(n) => End::Value(Value::Int(n)),
        Came::Other | Came::Left => End::Value(value),
    }
}
