// The walk of a thread, whatever it is to do.

ghost use Rattle.std.specs.Prelude.{◌≡◌};
ghost use Rattle.rb_model.specs.Ends.{over};
ghost use Rattle.rb_model.specs.Log.{fresh as no_log};
ghost use Rattle.rb_model.specs.Private.{bare};
ghost use Rattle.rb_machine.specs.Scopes.{Script};
ghost use Rattle.rb_machine.specs.Alone.{opening};
ghost use Rattle.rb_walk.specs.Ending.{GoesOut};
ghost use Rattle.rb_code.specs.Stands.{StandsFor};
ghost use Rattle.rb_thread.specs.Family.{job_of, number_of, start_of};
ghost use Rattle.thread_run.specs.Tasks.{job_in};

use crate::row::{row_of, row_of_body};
use crate::task::Task;
use rb_interp::{Context, run_body, run_main};
use rb_model::{End, ThreadStore};
use rb_thread::Job;

/// Runs the top level of the script over a store. Answers the store, how many steps were begun, and how the work went out. Without memory for
/// a row of slots it makes no step.
fn walk_main<'p, O: ThreadStore + Drop>(context: Context<'p>, store: O) -> (O, u64, End)
    requires live { O.live store }
    requires begun { O.log store ≡ no_log }
    requires made { O.private store ≡ bare 0 }
    ensures live { O.live result.0 }
    ensures goes { (S : Script) → StandsFor context.entry.script.now S → S.program ≡ context.entry.program.now
        → GoesOut S context.entry.steps (opening S context.entry.steps) (O.log result.0) (O.private result.0) (over result.2) result.1 }
{
    let script = context.script;
    let Ok(mut row) = row_of(context.alloc, script.main_size, script.main_waits) else {
        return (store, 0, End::Memory);
    };
    run_main(context, store, row.as_mut_slice())
}

/// Runs the body of a job in the same way.
fn walk_body<'p, O: ThreadStore + Drop>(context: Context<'p>, job: &Job, store: O) -> (O, u64, End)
    requires live { O.live store }
    requires begun { O.log store ≡ no_log }
    requires made { O.private store ≡ bare job.now.number }
    ensures live { O.live result.0 }
    ensures goes { (S : Script) → StandsFor context.entry.script.now S → S.program ≡ context.entry.program.now
        → GoesOut S context.entry.steps (start_of S context.entry.steps (job_of job.now)) (O.log result.0) (O.private result.0) (over result.2) result.1 }
{
    let Ok(mut row) = row_of_body(context.alloc, context.script, job.body) else {
        return (store, 0, End::Memory);
    };
    run_body(
        context,
        store,
        job.body,
        job.values.as_slice(),
        row.as_mut_slice(),
    )
}

/// Runs what a thread is to do.
pub(crate) fn walk<'p, O: ThreadStore + Drop>(
    context: Context<'p>,
    task: &Task,
    store: O,
) -> (O, u64, End)
    requires live { O.live store }
    requires begun { O.log store ≡ no_log }
    requires made { O.private store ≡ bare (number_of (job_in task.now)) }
    ensures live { O.live result.0 }
    ensures goes { (S : Script) → StandsFor context.entry.script.now S → S.program ≡ context.entry.program.now
        → GoesOut S context.entry.steps (start_of S context.entry.steps (job_in task.now)) (O.log result.0) (O.private result.0) (over result.2) result.1 }
{
    match task {
        Task::Main => walk_main(context, store),
        Task::Body(job) => walk_body(context, job, store),
    }
}
