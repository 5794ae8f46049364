// The work of one thread, handed what starts others.

ghost use Rattle.std.specs.Prelude.{◌≡◌, ◌∷◌, [], IfOk};
ghost use Rattle.rb_code.specs.Stands.{StandsFor};
ghost use Rattle.rb_model.specs.Ends.{over};
ghost use Rattle.rb_model.specs.Private.{bare};
ghost use Rattle.rb_resolver.specs.Names.{script_of};
ghost use Rattle.rb_shared.specs.Asking.{Knows};
ghost use Rattle.rb_shared.specs.Lists.{Each};
ghost use Rattle.rb_shared.specs.View.{to_globals};
ghost use Rattle.publish_barrier.specs.Known.{with_all_noted};
ghost use Rattle.rb_thread.specs.Alive.{Left, Spawns};
ghost use Rattle.rb_thread.specs.Family.{Fresh, Ran, job_of, number_of};
ghost use Rattle.thread_run.specs.Tasks.{job_in};

use crate::scripted::Scripted;
use crate::task::Task;
use crate::walk::walk;
use local_heap::LocalHeap;
use publish_barrier::Known;
use rb_edge::Gate;
use rb_interp::Context;
use rb_model::{End, Ref};
use rb_shared::SharedStore;
use rb_thread::{Finished, Job, Seated, Threaded, Whose, give_up};
use shape_tree::Tree;
use std::alloc::{AllocError, Global};
use std::marker::Brand;
use std::sync::Wait;
use std::thread::Threads;
use thread_calls::Due;

/// What a thread leaves that has ended: its pass, how it ended, and the shapes that its objects have had.
#[derive(Drop)]
pub struct Worked<P> {
    pub pass: P,
    pub end: End,
    pub shapes: Tree,
}

/// The things of the thread of this number before it begins: none.
fn things_of(alloc: Global, number: u64) -> Result<LocalHeap<Tree>, AllocError>
    ensures { IfOk result (λ things. things ≡ bare number) }
{
    LocalHeap::new(alloc, number, Tree::new(alloc)?)
}

/// What the thread of this number has before it begins: no thing, and the references that its job told it.
pub(crate) fn begun_of(
    alloc: Global,
    number: u64,
    refs: &[Ref],
) -> Result<(LocalHeap<Tree>, Known), AllocError>
    ensures things { IfOk result (λ begun. begun.0 ≡ bare number) }
    ensures known { IfOk result (λ begun. begun.1.refs ≡ with_all_noted (to_globals ∷ []) refs.now) }
{
    Ok((things_of(alloc, number)?, Known::with(alloc, refs)?))
}

/// The work of a thread with a heap that has no thing yet, from its first step to its End entry.
fn work_with<
    'e,
    W: Scripted,
    S: SharedStore,
    R: Threads + Wait,
    G: Gate,
    Z: Copy + Drop,
    C: Due<S::Pass> + Drop,
    F: Fn(Z, Job, S::Pass) -> C + Drop,
    J: Whose,
>(
    rt: &'e R,
    alloc: Global,
    script: &W,
    task: Task,
    things: LocalHeap<Tree>,
    known: Known,
    store: &'e S,
    pass: S::Pass,
    steps: u64,
    gate: &'e G,
    again: Z,
    spawn: F,
) -> Worked<S::Pass>
    requires whose { (J.id ≡ S.id store.now) × (J.steps ≡ steps) × (J.job ≡ job_in task) }
    requires stands { StandsFor (W.resolved script.now) J.script × (J.script.program ≡ W.tree script.now) }
    requires things { things ≡ bare (number_of (job_in task)) }
    requires of { S.of pass ≡ S.id store.now }
    requires fresh { Fresh J.script steps (job_in task) (S.view pass) }
    requires known { Each (Knows (S.view pass)) known.refs }
    requires spawns { Spawns S.of S.view C.keeps (λ f z j p. F.pre f z j p) (λ f z j p q. F.post f z j p q)
        (S.id store.now) J.script steps (S.view pass) spawn again }
    ensures of { S.of result.pass ≡ S.id store.now }
    ensures left { Left J.script steps (job_in task) result.shapes (S.view result.pass) (over result.end) }
{
    let number = task.number();
    let seat = Seated {
        rt,
        alloc,
        store,
        gate,
        thread: number,
        pass,
    };
    let own: Threaded<'e, Seated<'e, S, R, G>, R, Tree, Z, C, F, J> = Threaded::new(
        rt, alloc, seat, number, things, known, again, spawn,
    );
    let program = script.program();
    let code = script.code();
    let context = Context {
        alloc,
        program,
        script: code,
        steps,
    };
    let (own, step, end) = walk(context, &task, own);
    let Finished { seat, end, shapes } = own.finish(step, end);
    Worked {
        pass: seat.pass,
        end,
        shapes,
    }
}

/// The work of a thread that has its heap.
pub(crate) fn work_here<
    'e,
    W: Scripted,
    S: SharedStore,
    R: Threads + Wait,
    G: Gate,
    Z: Copy + Drop,
    C: Due<S::Pass> + Drop,
    F: Fn(Z, Job, S::Pass) -> C + Drop,
>(
    rt: &'e R,
    alloc: Global,
    script: &W,
    task: Task,
    things: LocalHeap<Tree>,
    known: Known,
    store: &'e S,
    pass: S::Pass,
    steps: u64,
    gate: &'e G,
    again: Z,
    spawn: F,
) -> Worked<S::Pass>
    requires stands { StandsFor (W.resolved script.now) (script_of (W.tree script.now)) }
    requires things { things ≡ bare (number_of (job_in task)) }
    requires of { S.of pass ≡ S.id store.now }
    requires fresh { Fresh (script_of (W.tree script.now)) steps (job_in task) (S.view pass) }
    requires known { Each (Knows (S.view pass)) known.refs }
    requires spawns { Spawns S.of S.view C.keeps (λ f z j p. F.pre f z j p) (λ f z j p q. F.post f z j p q)
        (S.id store.now) (script_of (W.tree script.now)) steps (S.view pass) spawn again }
    ensures of { S.of result.pass ≡ S.id store.now }
    ensures left { Left (script_of (W.tree script.now)) steps (job_in task) result.shapes (S.view result.pass) (over result.end) }
{
    work_with::<W, S, R, G, Z, C, F, Brand>(
        rt, alloc, script, task, things, known, store, pass, steps, gate, again, spawn,
    )
}

/// Ends a thread that has no memory to begin its job.
fn end_unbegun<'e, W: Scripted, S: SharedStore, R: Threads + Wait, G: Gate, J: Whose>(
    rt: &'e R,
    alloc: Global,
    _script: &W,
    job: &Job,
    store: &'e S,
    pass: S::Pass,
    _steps: u64,
    gate: &'e G,
) -> S::Pass
    requires of { S.of pass ≡ S.id store.now }
    requires fresh { Fresh J.script J.steps J.job (S.view pass) }
    ensures of { S.of result ≡ S.id store.now }
    ensures ran { Ran J.script J.steps J.job (S.view result) }
{
    let seat = Seated {
        rt,
        alloc,
        store,
        gate,
        thread: job.number,
        pass,
    };
    give_up::<Seated<'e, S, R, G>, J>(seat).pass
}

/// The same, for this job.
pub(crate) fn end_here<'e, W: Scripted, S: SharedStore, R: Threads + Wait, G: Gate>(
    rt: &'e R,
    alloc: Global,
    script: &W,
    job: &Job,
    store: &'e S,
    pass: S::Pass,
    steps: u64,
    gate: &'e G,
) -> S::Pass
    requires of { S.of pass ≡ S.id store.now }
    requires fresh { Fresh (script_of (W.tree script.now)) steps (job_of job.now) (S.view pass) }
    ensures of { S.of result ≡ S.id store.now }
    ensures ran { Ran (script_of (W.tree script.now)) steps (job_of job.now) (S.view result) }
{
    end_unbegun::<W, S, R, G, Brand>(rt, alloc, script, job, store, pass, steps, gate)
}
