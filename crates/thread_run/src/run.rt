// The run of a script with all its threads.

ghost use Rattle.std.specs.Prelude.{◌≡◌, ◌≤◌};
ghost use Rattle.std.specs.Thread.{IsSync};
ghost use Rattle.rb_code.specs.Stands.{StandsFor};
ghost use Rattle.rb_model.specs.Ends.{over};
ghost use Rattle.rb_model.specs.Private.{bare};
ghost use Rattle.rb_resolver.specs.Names.{script_of};
ghost use Rattle.rb_shared.specs.Closing.{AreFull, Caused};
ghost use Rattle.rb_thread.specs.Alive.{Left};
ghost use Rattle.rb_thread.specs.Family.{Fresh, Main};
ghost use Rattle.thread_run.specs.Run.{IsFirst, IsRunOf};

use crate::scripted::Scripted;
use crate::threads::run_first;
use crate::work::Worked;
use local_heap::LocalHeap;
use rb_edge::Gate;
use rb_model::End;
use rb_shared::{Closed, ClosingStore, SharedStore};
use shape_tree::Tree;
use std::alloc::Global;
use std::sync::Wait;
use std::thread;
use std::thread::Threads;

/// What a run gives back: what its store shows of the history, the sink, how the main thread ended, and the shapes that its objects have had.
#[derive(Drop)]
pub struct SharedRun<F, K> {
    pub front: F,
    pub out: K,
    pub end: End,
    pub shapes: Tree,
}

/// Runs the main thread and all threads that it starts.
fn run_threads<W: Scripted + Sync, S: SharedStore, R: Threads + Wait + Sync, G: Gate + Sync>(
    rt: &R,
    alloc: Global,
    script: &W,
    things: LocalHeap<Tree>,
    store: &S,
    pass: S::Pass,
    steps: u64,
    gate: &G,
) -> Worked<S::Pass>
    requires stands { StandsFor (W.resolved script.now) (script_of (W.tree script.now)) }
    requires things { things ≡ bare 0 }
    requires of { S.of pass ≡ S.id store.now }
    requires fresh { Fresh (script_of (W.tree script.now)) steps Main (S.view pass) }
    ensures of { S.of result.pass ≡ S.id store.now }
    ensures left { Left (script_of (W.tree script.now)) steps Main result.shapes (S.view result.pass) (over result.end) }
{
    thread::scope(
        thread::scope_env(),
        rt,
        move |scope| -> Worked<S::Pass>
            requires sync { IsSync R.row × IsSync G.row × IsSync W.row }
            requires stands { StandsFor (W.resolved script.now) (script_of (W.tree script.now)) }
            requires things { things ≡ bare 0 }
            requires of { S.of pass ≡ S.id store.now }
            requires fresh { Fresh (script_of (W.tree script.now)) steps Main (S.view pass) }
            ensures of { S.of result.pass ≡ S.id store.entry.now }
            ensures left { Left (script_of (W.tree script.entry.now)) steps Main result.shapes (S.view result.pass) (over result.end) }
        { run_first(rt, alloc, scope, script, things, store, pass, steps, gate) },
    )
}

/// Runs a resolved script over a new store: its main thread, which has a heap with no thing yet, all threads that it starts, and the close.
pub fn run_shared<W: Scripted + Sync, S: ClosingStore, R: Threads + Wait + Sync, G: Gate + Sync>(
    rt: &R,
    alloc: Global,
    script: &W,
    things: LocalHeap<Tree>,
    store: S,
    pass: S::Pass,
    steps: u64,
    gate: &G,
) -> SharedRun<S::Front, S::Out>
    requires stands { StandsFor (W.resolved script.now) (script_of (W.tree script.now)) }
    requires things { things ≡ bare 0 }
    requires of { S.of pass ≡ S.id store }
    requires first { IsFirst (S.view pass) }
    ensures runs { IsRunOf (W.tree script.now) steps (S.slots store) (S.told_before store) (S.Out.told result.out) (S.history result.front) (over result.end) result.shapes }
    ensures rises { S.faults_before store ≤ S.Out.faults result.out }
    // A print is refused for the sink's failure alone, and a call for want of room where there is none.
    ensures cause { Caused (S.faults_before store) (S.Out.faults result.out) (S.history result.front) }
    ensures full { AreFull (S.overflows store) (S.history result.front) }
{
    let Worked { pass, end, shapes } = run_threads(
        rt, alloc, script, things, &store, pass, steps, gate,
    );
    let Closed { front, out } = store.close(pass);
    SharedRun {
        front,
        out,
        end,
        shapes,
    }
}
