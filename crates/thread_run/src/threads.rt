// Threads that start threads.

ghost use Rattle.std.specs.Prelude.{◌≡◌, ℕ, []};
ghost use Rattle.std.specs.Thread.{IsSync};
ghost use mathlib.Core.List.{Mem};
ghost use Rattle.rb_code.specs.Stands.{StandsFor};
ghost use Rattle.rb_model.specs.Ends.{over};
ghost use Rattle.rb_model.specs.Private.{bare};
ghost use Rattle.rb_resolver.specs.Names.{script_of};
ghost use Rattle.rb_shared.specs.Asking.{Knows};
ghost use Rattle.rb_shared.specs.Lists.{Each};
ghost use Rattle.rb_thread.specs.Alive.{Left};
ghost use Rattle.rb_thread.specs.Family.{Fresh, Main, Ran, job_of, number_of};
ghost use Rattle.thread_run.specs.Tasks.{job_in};

use crate::scripted::Scripted;
use crate::task::Task;
use crate::work::{Worked, begun_of, end_here, work_here};
use local_heap::LocalHeap;
use publish_barrier::Known;
use rb_edge::Gate;
use rb_shared::SharedStore;
use rb_thread::Job;
use shape_tree::Tree;
use std::alloc::Global;
use std::snapshot::Snapshot;
use std::sync::Wait;
use std::thread::{Promise, Scope, Threads};
use thread_calls::{Child, start};

/// What is promised of a thread that was started: its pass of this store, once it has done its job.
pub struct Keeps<S: SharedStore, W: Scripted> {
    store: Snapshot<S>,
    script: Snapshot<W>,
    steps: u64,
    job: Snapshot<Job>,
}

impl<S: SharedStore, W: Scripted> Drop for Keeps<S, W> {
    fn drop(self) {
        let Self {
            store,
            script,
            steps: _,
            job,
        } = self;
        drop(store);
        drop(script);
        drop(job);
    }
}

impl<S: SharedStore, W: Scripted> Promise<S::Pass> for Keeps<S, W> {
    ghost kept_by = { λ q r. (S.of r ≡ S.id q.store.value) × Ran (script_of (W.tree q.script.value)) q.steps (job_of q.job.value) (S.view r) };
}

/// Does what a thread is to do, which has its heap, from its first step to its End entry.
#[cycle(threads)]
fn run_task<'s, 'e, W: Scripted + Sync, S: SharedStore, R: Threads + Wait + Sync, G: Gate + Sync>(
    rt: &'e R,
    alloc: Global,
    scope: &'s Scope<'s, &'e ()>,
    script: &'e W,
    task: Task,
    things: LocalHeap<Tree>,
    known: Known,
    store: &'e S,
    pass: S::Pass,
    steps: u64,
    gate: &'e G,
) -> Worked<S::Pass>
    requires stands { StandsFor (W.resolved script.now) (script_of (W.tree script.now)) }
    requires things { things ≡ bare (number_of (job_in task)) }
    requires of { S.of pass ≡ S.id store.now }
    requires fresh { Fresh (script_of (W.tree script.now)) steps (job_in task) (S.view pass) }
    requires known { Each (Knows (S.view pass)) known.refs }
    ensures of { S.of result.pass ≡ S.id store.now }
    ensures left { Left (script_of (W.tree script.now)) steps (job_in task) result.shapes (S.view result.pass) (over result.end) }
{
    let again = scope;
    work_here(
        rt,
        alloc,
        script,
        task,
        things,
        known,
        store,
        pass,
        steps,
        gate,
        again,
        |scope, job: Job, pass: S::Pass| -> Child<S::Pass, Keeps<S, W>>
            requires sync { IsSync R.row × IsSync G.row × IsSync W.row }
            requires lasting { (a : ℕ) → Mem a S.Pass.row.lives → Mem a [] }
            requires stands { StandsFor (W.resolved script.now) (script_of (W.tree script.now)) }
            requires of { S.of pass ≡ S.id store.now }
            requires fresh { Fresh (script_of (W.tree script.now)) steps (job_of job) (S.view pass) }
            requires known { Each (Knows (S.view pass)) job.refs.items }
            ensures kept { (result.store.value ≡ store.entry.now) × (result.script.value ≡ script.entry.now) × (result.steps ≡ steps) × (result.job.value ≡ job) }
        { begin(rt, alloc, scope, script, job, store, pass, steps, gate) },
    )
}

/// Runs a thread that was started, from its first step to its End entry. Without memory for a heap and for what its job told it, it makes no
/// step.
#[cycle(threads)]
fn run_thread<'s, 'e, W: Scripted + Sync, S: SharedStore, R: Threads + Wait + Sync, G: Gate + Sync>(
    rt: &'e R,
    alloc: Global,
    scope: &'s Scope<'s, &'e ()>,
    script: &'e W,
    job: Job,
    store: &'e S,
    pass: S::Pass,
    steps: u64,
    gate: &'e G,
) -> S::Pass
    requires stands { StandsFor (W.resolved script.now) (script_of (W.tree script.now)) }
    requires of { S.of pass ≡ S.id store.now }
    requires fresh { Fresh (script_of (W.tree script.now)) steps (job_of job) (S.view pass) }
    requires known { Each (Knows (S.view pass)) job.refs.items }
    ensures of { S.of result ≡ S.id store.now }
    ensures ran { Ran (script_of (W.tree script.now)) steps (job_of job) (S.view result) }
{
    let Ok((things, known)) = begun_of(alloc, job.number, job.refs.as_slice()) else {
        return end_here(rt, alloc, script, &job, store, pass, steps, gate);
    };
    let task = Task::Body(job);
    run_task(
        rt, alloc, scope, script, task, things, known, store, pass, steps, gate,
    )
    .pass
}

/// Starts a thread with its job and its pass.
#[cycle(threads)]
fn begin<'s, 'e, W: Scripted + Sync, S: SharedStore, R: Threads + Wait + Sync, G: Gate + Sync>(
    rt: &'e R,
    alloc: Global,
    scope: &'s Scope<'s, &'e ()>,
    script: &'e W,
    job: Job,
    store: &'e S,
    pass: S::Pass,
    steps: u64,
    gate: &'e G,
) -> Child<S::Pass, Keeps<S, W>>
    requires stands { StandsFor (W.resolved script.now) (script_of (W.tree script.now)) }
    requires of { S.of pass ≡ S.id store.now }
    requires fresh { Fresh (script_of (W.tree script.now)) steps (job_of job) (S.view pass) }
    requires known { Each (Knows (S.view pass)) job.refs.items }
    ensures kept { (result.store.value ≡ store.now) × (result.script.value ≡ script.now) × (result.steps ≡ steps) × (result.job.value ≡ job) }
{
    let again = scope;
    start(
        scope,
        Keeps {
            store: Snapshot::of(store),
            script: Snapshot::of(script),
            steps,
            job: Snapshot::of(&job),
        },
        again,
        pass,
        move |scope, pass: S::Pass| -> S::Pass
            requires sync { IsSync R.row × IsSync G.row × IsSync W.row }
            requires stands { StandsFor (W.resolved script.now) (script_of (W.tree script.now)) }
            requires of { S.of pass ≡ S.id store.now }
            requires fresh { Fresh (script_of (W.tree script.now)) steps (job_of job) (S.view pass) }
            requires known { Each (Knows (S.view pass)) job.refs.items }
            ensures of { S.of result ≡ S.id store.entry.now }
            ensures ran { Ran (script_of (W.tree script.entry.now)) steps (job_of job) (S.view result) }
        { run_thread(rt, alloc, scope, script, job, store, pass, steps, gate) },
    )
}

/// Runs the main thread, which has its heap, from its first step to its End entry.
pub(crate) fn run_first<
    's,
    'e,
    W: Scripted + Sync,
    S: SharedStore,
    R: Threads + Wait + Sync,
    G: Gate + Sync,
>(
    rt: &'e R,
    alloc: Global,
    scope: &'s Scope<'s, &'e ()>,
    script: &'e W,
    things: LocalHeap<Tree>,
    store: &'e S,
    pass: S::Pass,
    steps: u64,
    gate: &'e G,
) -> Worked<S::Pass>
    requires stands { StandsFor (W.resolved script.now) (script_of (W.tree script.now)) }
    requires things { things ≡ bare 0 }
    requires of { S.of pass ≡ S.id store.now }
    requires fresh { Fresh (script_of (W.tree script.now)) steps Main (S.view pass) }
    ensures of { S.of result.pass ≡ S.id store.now }
    ensures left { Left (script_of (W.tree script.now)) steps Main result.shapes (S.view result.pass) (over result.end) }
{
    let known = Known::new(alloc);
    run_task(
        rt,
        alloc,
        scope,
        script,
        Task::Main,
        things,
        known,
        store,
        pass,
        steps,
        gate,
    )
}
