// The bodies of threads.

ghost use Rattle.std.specs.Prelude.{◌≡◌, ◌≤◌, map, slice_get, Some};
ghost use Rattle.rb_model.specs.Values.{plain};
ghost use Rattle.rb_model.specs.Ends.{over};
ghost use Rattle.rb_model.specs.Log as log;
ghost use Rattle.rb_model.specs.Private.{bare};
ghost use Rattle.rb_interp.specs.Going.{BodyGoes};

use super::{Context, Running, Walker};
use rb_code::CodeBody;
use rb_model::{End, ThreadStore, Value};
use rb_tree::Program;
use rb_walk::bodies::{end_of_body, lay, own_among};
use rb_walk::came::{Came, Leave};
use rb_walk::dispatch::Methods;
use rb_walk::live::Live;
use std::alloc::Global;

impl<'p, O: ThreadStore + Drop> Walker<'p, O> {
    ghost use Rattle.rb_interp.specs.Top.{RunsBody};

    /// The statements of the body of this number, whose values lie in the row.
    fn body_at(&mut self, number: u32, room: &mut [Value]) -> Came
        ensures context { self.new.context ≡ self.old.context }
        ensures less { self.new.left ≤ self.old.left }
        ensures came { RunsBody number self.old self.new room.old room.new result }
    {
        let script = self.context.script.script();
        match script.bodies.as_slice().get(number as usize) {
            Some(body) => self.body(body.body.as_slice(), 0, room),
            None => Came::Nil,
        }
    }
}

/// Runs the body of this number as a thread that is given these values, in this row of slots. Answers the store, how many steps were begun, and how
/// the work went out: its end entry is still to be made. Where the row has no room for the frame, that is as for want of memory.
pub fn run_body<'p, O: ThreadStore + Drop>(
    context: Context<'p>,
    store: O,
    number: u32,
    values: &[Value],
    room: &mut [Value],
) -> (O, u64, End)
    requires live { O.live store }
    requires begun { O.log store ≡ log.fresh }
    requires made { O.private store ≡ bare (O.private store).thread }
    ensures live { O.live result.0 }
    ensures goes { BodyGoes context.entry.script.now context.entry.program.now context.entry.steps number (map plain values.now)
        (O.log result.0) (O.private result.0) (over result.2) result.1 }
{
    let Context {
        alloc,
        program,
        script,
        steps,
    } = context;
    let Some(body) = script.bodies.as_slice().get(number as usize) else {
        return (store, 0, End::Value(Value::Nil));
    };
    let methods = Methods::of(alloc, script);
    run_in(
        alloc, program, &methods, steps, store, number, body, values, room,
    )
}

/// The same of a body that is there, with the table of the methods of the script.
fn run_in<O: ThreadStore + Drop>(
    alloc: Global,
    program: &Program,
    methods: &Methods,
    steps: u64,
    store: O,
    number: u32,
    body: &CodeBody,
    values: &[Value],
    room: &mut [Value],
) -> (O, u64, End)
    requires live { O.live store }
    requires begun { O.log store ≡ log.fresh }
    requires made { O.private store ≡ bare (O.private store).thread }
    requires body { slice_get methods.now.bodies number ≡ Some body.now }
    ensures live { O.live result.0 }
    ensures goes { BodyGoes methods.now program.now steps number (map plain values.now)
        (O.log result.0) (O.private result.0) (over result.2) result.1 }
{
    let size = body.size as usize;
    let Some((args, behind)) = values.split_at_checked(body.params.len()) else {
        return (store, 0, End::Memory);
    };
    let Some((me, captured)) = own_among(behind, body.captured.len()) else {
        return (store, 0, End::Memory);
    };
    if room.len() < size {
        return (store, 0, End::Memory);
    }
    if let Err(_) = lay(room, size, args, captured) {
        return (store, 0, End::Memory);
    }
    let mut walker = Walker {
        context: Running {
            alloc,
            program,
            script: methods,
            steps,
            me,
        },
        store: Live::of(store),
        base: size,
        left: steps,
        value: Value::Nil,
        leave: Leave::Break,
    };
    let came = walker.body_at(number, room);
    let Walker {
        store,
        left,
        value,
        leave,
        ..
    } = walker;
    (
        store.into_store(),
        steps - left,
        end_of_body(came, value, leave),
    )
}
