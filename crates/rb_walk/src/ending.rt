// How the main thread ends.

ghost use Rattle.std.specs.Prelude.{◌≡◌};
ghost use Rattle.rb_model.specs.declared.value.Value.{Value as Held};
ghost use Rattle.rb_model.specs.Ends.{over};
ghost use Rattle.rb_walk.specs.Outcome.{outcome};
ghost use Rattle.rb_walk.specs.Ending.{ending};

use crate::came::{Came, Leave, is_left};
use rb_model::{End, Value};

/// How the thread ends whose top level came out so.
pub fn end_of(came: Came, leave: Leave) -> End
    ensures { (v : Held) → over result ≡ ending (outcome came v leave) }
{
    if !is_left(came) {
        return End::Value(Value::Nil);
    }
    match leave {
        Leave::Break | Leave::Next | Leave::Return => End::Value(Value::Nil),
        Leave::Over(end) => end,
    }
}
