// The run of an accepted program.

ghost use Rattle.std.specs.Prelude.{◌≡◌, ◌≤◌, ℕ, true, IfOk, IfErr};
ghost use Rattle.rb_accepted.specs.Coded.{has_code};
ghost use Rattle.rb_code.specs.Stands.{StandsFor};
ghost use Rattle.rb_edge.specs.Edge.{Rose};
ghost use Rattle.rb_model.specs.Ends.{over};
ghost use Rattle.rb_model.specs.Ends as ending;
ghost use Rattle.rb_model.specs.Private.{bare};
ghost use Rattle.rb_resolver.specs.Names.{script_of};
ghost use Rattle.rb_prog.specs.Shown.{IsShown, shown};

use local_heap::LocalHeap;
use rb_code::CodeScript;
use rb_edge::{Gate, Sink};
use rb_model::End;
use rb_resolver::{ResolveFault, resolve};
use rb_tree::Program;
use shape_tree::Tree;
use shared_script::Shared;
use std::alloc::{AllocError, Global};
use std::sync::Wait;
use std::thread::Threads;
use thread_run::{SharedRun, run_shared};
use turn_store::{TurnFront, TurnStore};

/// How many threads there may be at once.
const THREADS: u32 = 16;

/// What a run gives back: the sink, the history, how the main thread ended, and the shapes that its objects have had.
#[derive(Drop)]
pub(crate) struct Run<K> {
    pub out: K,
    pub front: TurnFront,
    pub end: End,
    pub shapes: Tree,
}

/// The main thread's things before it begins: none.
fn things_of(alloc: Global) -> Result<LocalHeap<Tree>, AllocError>
    ensures { IfOk result (λ things. things ≡ bare 0) }
{
    LocalHeap::new(alloc, 0, Tree::new(alloc)?)
}

/// Runs a program with all threads that it starts.
fn run_threads<R: Threads + Wait + Sync, K: Sink + Send + Drop + 'static, G: Gate + Sync>(
    rt: &R,
    alloc: Global,
    program: &Program,
    code: &CodeScript,
    steps: u64,
    out: K,
    gate: &G,
) -> Result<Run<K>, K>
    requires stands { StandsFor code.now (script_of program.now) }
    ensures runs { IfOk result (λ run. IsShown program.now steps (K.told out) (K.told run.out) (shown run.front) (over run.end) run.shapes) }
    ensures cause { IfOk result (λ run. over run.end ≡ ending.Sink → Rose (K.faults out) (K.faults run.out)) }
    ensures never_full { IfOk result (λ run. (used asked : ℕ) → over run.end ≡ ending.Full used asked → ⊥) }
    ensures rises { IfOk result (λ run. K.faults out ≤ K.faults run.out) }
    ensures back { IfErr result (λ sink. sink ≡ out) }
{
    let Ok(things) = things_of(alloc) else {
        return Err(out);
    };
    let (store, pass) = match TurnStore::new(alloc, out, THREADS) {
        Ok(made) => made,
        Err(out) => return Err(out),
    };
    let script = Shared { program, code };
    let SharedRun {
        front,
        out,
        end,
        shapes,
    } = run_shared(rt, alloc, &script, things, store, pass, steps, gate);
    Ok(Run {
        out,
        front,
        end,
        shapes,
    })
}

/// Runs an accepted program with so many steps for each thread. Gives the sink back where there is no memory to begin.
pub(crate) fn run_accepted<
    R: Threads + Wait + Sync,
    K: Sink + Send + Drop + 'static,
    G: Gate + Sync,
>(rt: &R, alloc: Global, program: &Program, steps: u64, out: K, gate: &G) -> Result<Run<K>, K>
    requires { has_code program.now ≡ true }
    ensures runs { IfOk result (λ run. IsShown program.now steps (K.told out) (K.told run.out) (shown run.front) (over run.end) run.shapes) }
    ensures cause { IfOk result (λ run. over run.end ≡ ending.Sink → Rose (K.faults out) (K.faults run.out)) }
    ensures never_full { IfOk result (λ run. (used asked : ℕ) → over run.end ≡ ending.Full used asked → ⊥) }
    ensures rises { IfOk result (λ run. K.faults out ≤ K.faults run.out) }
    ensures back { IfErr result (λ sink. sink ≡ out) }
{
    match resolve(alloc, program) {
        Ok(code) => run_threads(rt, alloc, program, &code, steps, out, gate),
        Err(ResolveFault::Memory) => Err(out),
        Err(ResolveFault::NotBuilt(_)) => unreachable!(),
    }
}
