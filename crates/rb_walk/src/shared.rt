// What threads share from the start, and what one that is started is given.

ghost use Rattle.std.specs.Prelude.{◌≡◌, ◌++◌, Some, map, IfOk};
ghost use Rattle.rb_model.specs.Values.{To, plain};
ghost use Rattle.rb_machine.specs.Call as machine;
ghost use Rattle.rb_walk.specs.Carries.{me_of};
ghost use Rattle.rb_walk.specs.Shared.{own_self, value_at};

use crate::gathering::copies;
use rb_model::{Id, Ref, Sort, Value};
use std::alloc::{AllocError, Global};

/// The thing whose instance variables are the global variables.
pub fn globals() -> Ref
    ensures { me_of (Some result) ≡ To machine.globals }
{
    Ref {
        sort: Sort::Object(u32::MAX),
        id: Id {
            thread: 0,
            serial: 0,
        },
        at: 0,
    }
}

/// The value of a slot.
fn value_in(room: &[Value], slot: u32) -> Result<Value, AllocError>
    ensures { IfOk result (λ value. plain value ≡ value_at room.now slot) }
{
    match room.get(slot as usize) {
        Some(value) => value.share(),
        None => Ok(Value::Nil),
    }
}

/// What the body of a thread is given: the arguments, `self` where there is one, and the values of the slots of the locals that it captures.
pub fn given_to(
    alloc: Global,
    args: &[Value],
    me: Option<Ref>,
    slots: &[u32],
    room: &[Value],
) -> Result<Vec<Value>, AllocError>
    ensures { IfOk result (λ values. map plain values.items ≡ map plain args.now ++ (own_self me ++ map (value_at room.now) slots.now)) }
{
    let mut values = copies(alloc, args)?;
    if let Some(object) = me {
        values.push(Value::Ref(object))?;
    }
    'slots: for slot in slots {
        let value = value_in(room, *slot)?;
        values.push(value)?;
    }
    Ok(values)
}
