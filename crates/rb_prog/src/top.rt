// The top call.

ghost use Rattle.std.specs.Prelude.{◌≡◌, ◌⊎◌, ◌≤◌, ℕ, List, [], Option, Some, None, IfSome, IsSome, map, length, string_bytes};
ghost use Rattle.std.specs.Process.{exit_status};
ghost use Rattle.rb_command.specs.Words as asked;
ghost use Rattle.rb_command.specs.Seen.{work_seen};
ghost use Rattle.rb_edge.specs.Edge.{Adds, Bytes, Rose, Told};
ghost use Rattle.rb_model.specs.Values.{Value};
ghost use Rattle.rb_model.specs.Ends.{over};
ghost use Rattle.rb_model.specs.Ends as ending;
ghost use Rattle.rb_shared.specs.History.{History};
ghost use Rattle.rb_workload.specs.Script as workload;
ghost use Rattle.rb_prog.specs.Shown.{IsShown, seen};
ghost use Rattle.rb_prog.specs.Accepting.{rejected_status, rejected_line};
ghost use Rattle.rb_prog.specs.Remarks.{usage_line, memory_line};
ghost use Rattle.rb_prog.specs.Shapes.{shape_lines, TellsLines};
ghost use Rattle.rb_prog.specs.Run as spec;
ghost use Rattle.rb_prog.specs.Run.{Accepts, RunsSource, Runs, Works, HasValue, Shows, IsOwnOrMemory};

use crate::remarks::{
    MEMORY, SINK_FAILED, SOURCE_FAILED, SOURCE_MISSING, USAGE, tell, tell_end, tell_refusal,
};
use crate::running::{Run, run_accepted};
use crate::shapes::{Untold, tell_shapes};
use crate::source::{Unaccepted, accept};
use rb_command::{Command, RunWords, WorkWords, command_of};
use rb_edge::{Files, Gate, ReadFault, Sink, read_source};
use rb_model::End;
use rb_tree::Program;
use rb_workload::script;
use shape_tree::Tree;
use std::alloc::Global;
use std::process::ExitCode;
use std::sync::{Arc, Wait};
use std::thread::Threads;
use turn_store::TurnFront;

/// The steps that a thread may make where no words tell them.
const STEPS: u64 = 100_000_000;

/// What a run gives back: its status, the sink with all that was written, and the history of the run.
/// There is no history where nothing was run: with the statuses 2, 3 and 4, and with 8 where no run could begin.
#[derive(Drop)]
pub struct Report<K> {
    pub status: u8,
    pub out: K,
    pub front: Option<TurnFront>,
}

impl<K> Report<K> {
    /// The status that the process ends with.
    pub fn exit_code(&self) -> ExitCode
        ensures { exit_status result ≡ self.now.status }
    {
        ExitCode::from(self.status)
    }
}

/// The status of an end.
fn status_of(end: &End) -> u8
    ensures { result ≡ spec.status_of (over end.now) }
{
    match end {
        End::Value(_) => 0,
        End::Raised(..) => 1,
        End::Steps => 6,
        End::Full { .. } => 7,
        End::Sink => 5,
        End::Memory => 8,
    }
}

/// The report where nothing was run.
fn unrun<K>(status: u8, out: K) -> Report<K>
    ensures { result ≡ record { status = status; out = out; front = None } }
{
    Report {
        status,
        out,
        front: None,
    }
}

/// The report where nothing was run, of which a line tells.
fn stopped<K, E: Sink>(status: u8, line: &str, out: K, err: &mut E) -> Report<K>
    ensures report { result ≡ record { status = status; out = out; front = None } }
    ensures told { Told (E.told err.old) (E.told err.new) line.now (Rose (E.faults err.old) (E.faults err.new)) }
    ensures rises { E.faults err.old ≤ E.faults err.new }
{
    tell(err, line);
    unrun(status, out)
}

/// The report where a source is not accepted, of which a line tells.
fn rejected<K, E: Sink>(source: &[u8], why: Unaccepted, out: K, err: &mut E) -> Report<K>
    requires { length source.now ≤ 1048577 }
    ensures report { result ≡ record { status = rejected_status why; out = out; front = None } }
    ensures told { Told (E.told err.old) (E.told err.new) (rejected_line source.now why) (Rose (E.faults err.old) (E.faults err.new)) }
    ensures rises { E.faults err.old ≤ E.faults err.new }
{
    match why {
        Unaccepted::Refused(refusal) => {
            tell_refusal(err, source, refusal);
            unrun(3, out)
        }
        Unaccepted::Memory => stopped(8, MEMORY, out, err),
    }
}

/// A run that came to a value: its program, and the shapes that the main thread's objects have had.
#[derive(Drop)]
struct Valued {
    program: Program,
    shapes: Tree,
}

/// A run with its report, and what is left of it where it came to a value.
#[derive(Drop)]
struct Ended<K> {
    report: Report<K>,
    valued: Option<Valued>,
}

/// A run of which a report is all.
fn no_value<K>(report: Report<K>) -> Ended<K>
    ensures { result ≡ record { report = report; valued = None } }
{
    Ended {
        report,
        valued: None,
    }
}

/// What is left of a run: its program and the shapes, where it came to a value.
fn value_left(program: Program, shapes: Tree, end: &End) -> Option<Valued>
    ensures value { IfSome result (λ left. (value : Value) × (over end.now ≡ ending.Value value) × (left.program ≡ program) × (left.shapes ≡ shapes)) }
    ensures other { result ≡ None → spec.status_of (over end.now) ≡ 0 → ⊥ }
{
    match end {
        End::Value(_) => Some(Valued { program, shapes }),
        _ => None,
    }
}

/// A source that was read, accepted and run with so many steps.
fn run_source<R: Threads + Wait + Sync, K: Sink + Send + Drop + 'static, E: Sink, G: Gate + Sync>(
    rt: &R,
    alloc: Global,
    source: &[u8],
    steps: u64,
    out: K,
    err: &mut E,
    gate: &G,
) -> Ended<K>
    requires { length source.now ≤ 1048577 }
    ensures runs { (line : List ℕ) × RunsSource source.now steps (K.told out) (K.told result.report.out) result.report.status (seen result.report.front) line
        × Told (E.told err.old) (E.told err.new) line (Rose (E.faults err.old) (E.faults err.new)) }
    ensures value { IfSome result.valued (λ left. (history : History) × (value : Value) × (seen result.report.front ≡ Some history) × Accepts source.now left.program
        × IsShown left.program steps (K.told out) (K.told result.report.out) history (ending.Value value) left.shapes) }
    ensures quiet { IsSome result.valued → Adds (E.told err.old) (E.told err.new) [] }
    ensures other { result.valued ≡ None → result.report.status ≡ 0 → ⊥ }
    ensures cause { result.report.status ≡ 5 → Rose (K.faults out) (K.faults result.report.out) }
    ensures never_full { result.report.status ≡ 7 → ⊥ }
    ensures rises { K.faults out ≤ K.faults result.report.out }
    ensures err_rises { E.faults err.old ≤ E.faults err.new }
{
    let program = match accept(alloc, source) {
        Ok(program) => program,
        Err(why) => return no_value(rejected(source, why, out, err)),
    };
    match run_accepted(rt, alloc, &program, steps, out, gate) {
        Ok(
            Run {
                out,
                front,
                end,
                shapes,
            },
        ) => {
            tell_end(err, source, steps, &end);
            let report = Report {
                status: status_of(&end),
                out,
                front: Some(front),
            };
            Ended {
                report,
                valued: value_left(program, shapes, &end),
            }
        }
        // An accepted program has code, so memory was wanted.
        Err(out) => no_value(stopped(8, MEMORY, out, err)),
    }
}

/// The script that the words name, read and run.
fn run_file<
    R: Threads + Wait + Sync,
    F: Files,
    K: Sink + Send + Drop + 'static,
    E: Sink,
    G: Gate + Sync,
>(rt: &R, alloc: Global, words: RunWords, files: &mut F, out: K, err: &mut E, gate: &G) -> Ended<K>
    ensures runs { (line : List ℕ)
        × Runs (F.held files.old words.entry.file.now) (Rose (F.faults files.old) (F.faults files.new)) words.entry.steps (K.told out) (K.told result.report.out) result.report.status (seen result.report.front) line
        × Told (E.told err.old) (E.told err.new) line (Rose (E.faults err.old) (E.faults err.new)) }
    ensures value { IfSome result.valued (λ left. (history : History) × (seen result.report.front ≡ Some history)
        × HasValue (F.held files.old words.entry.file.now) words.entry.steps (K.told out) (K.told result.report.out) history left.program left.shapes) }
    ensures quiet { IsSome result.valued → Adds (E.told err.old) (E.told err.new) [] }
    ensures other { result.valued ≡ None → result.report.status ≡ 0 → ⊥ }
    ensures cause { result.report.status ≡ 5 → Rose (K.faults out) (K.faults result.report.out) }
    ensures not_usage { result.report.status ≡ 2 → ⊥ }
    ensures never_full { result.report.status ≡ 7 → ⊥ }
    ensures complete { (bytes : List ℕ) (program : Program) → F.held files.old words.entry.file.now ≡ Bytes bytes → Accepts bytes program
        → (Rose (F.faults files.old) (F.faults files.new) → ⊥) → (Rose (K.faults out) (K.faults result.report.out) → ⊥) → IsOwnOrMemory result.report.status }
    ensures kept { (p : List ℕ) → F.held files.new p ≡ F.held files.old p }
    ensures files_rise { F.faults files.old ≤ F.faults files.new }
    ensures rises { K.faults out ≤ K.faults result.report.out }
    ensures err_rises { E.faults err.old ≤ E.faults err.new }
{
    match read_source(alloc, files, words.file) {
        Ok(bytes) => run_source(rt, alloc, bytes.as_slice(), words.steps, out, err, gate),
        Err(ReadFault::Missing) => no_value(stopped(4, SOURCE_MISSING, out, err)),
        Err(ReadFault::Failed) => no_value(stopped(4, SOURCE_FAILED, out, err)),
        Err(ReadFault::Memory) => no_value(stopped(8, MEMORY, out, err)),
    }
}

/// The report of lines that were cut short, of which a line tells.
fn cut_short<K, E: Sink>(
    status: u8,
    line: &str,
    out: K,
    front: Option<TurnFront>,
    err: &mut E,
) -> Report<K>
    ensures report { result ≡ record { status = status; out = out; front = front } }
    ensures told { Told (E.told err.old) (E.told err.new) line.now (Rose (E.faults err.old) (E.faults err.new)) }
    ensures rises { E.faults err.old ≤ E.faults err.new }
{
    tell(err, line);
    Report { status, out, front }
}

/// The lines of the shapes, behind what a run wrote that came to a value.
fn show_shapes<K: Sink + Drop, E: Sink>(
    alloc: Global,
    left: &Valued,
    report: Report<K>,
    err: &mut E,
) -> Report<K>
    ensures lines { (line : List ℕ)
        × TellsLines (K.told report.out) (K.told result.out) (shape_lines left.now.program left.now.shapes) result.status line
        × Told (E.told err.old) (E.told err.new) line (Rose (E.faults err.old) (E.faults err.new)) }
    ensures front { result.front ≡ report.front }
    ensures cause { result.status ≡ 5 → Rose (K.faults report.out) (K.faults result.out) }
    ensures rises { K.faults report.out ≤ K.faults result.out }
    ensures err_rises { E.faults err.old ≤ E.faults err.new }
{
    let Report { mut out, front, .. } = report;
    match tell_shapes(alloc, &left.program, &left.shapes, &mut out) {
        Ok(()) => Report {
            status: 0,
            out,
            front,
        },
        Err(Untold::Sink) => cut_short(5, SINK_FAILED, out, front, err),
        Err(Untold::Memory) => cut_short(8, MEMORY, out, front, err),
    }
}

/// The script that the words name, read and run, with the lines of the shapes where that came to a value.
fn show_file<
    R: Threads + Wait + Sync,
    F: Files,
    K: Sink + Send + Drop + 'static,
    E: Sink,
    G: Gate + Sync,
>(rt: &R, alloc: Global, words: RunWords, files: &mut F, out: K, err: &mut E, gate: &G) -> Report<K>
    ensures shows { (line : List ℕ)
        × Shows (F.held files.old words.entry.file.now) (Rose (F.faults files.old) (F.faults files.new)) words.entry.steps (K.told out) (K.told result.out) result.status (seen result.front) line
        × Told (E.told err.old) (E.told err.new) line (Rose (E.faults err.old) (E.faults err.new)) }
    ensures cause { result.status ≡ 5 → Rose (K.faults out) (K.faults result.out) }
    ensures not_usage { result.status ≡ 2 → ⊥ }
    ensures never_full { result.status ≡ 7 → ⊥ }
    ensures complete { (bytes : List ℕ) (program : Program) → F.held files.old words.entry.file.now ≡ Bytes bytes → Accepts bytes program
        → (Rose (F.faults files.old) (F.faults files.new) → ⊥) → (Rose (K.faults out) (K.faults result.out) → ⊥) → IsOwnOrMemory result.status }
    ensures kept { (p : List ℕ) → F.held files.new p ≡ F.held files.old p }
    ensures files_rise { F.faults files.old ≤ F.faults files.new }
    ensures rises { K.faults out ≤ K.faults result.out }
    ensures err_rises { E.faults err.old ≤ E.faults err.new }
{
    let Ended { report, valued } = run_file(rt, alloc, words, files, out, err, gate);
    match valued {
        None => report,
        Some(left) => show_shapes(alloc, &left, report, err),
    }
}

/// The script for the numbers of the words, made and run.
fn run_work<R: Threads + Wait + Sync, K: Sink + Send + Drop + 'static, E: Sink, G: Gate + Sync>(
    rt: &R,
    alloc: Global,
    words: WorkWords,
    out: K,
    err: &mut E,
    gate: &G,
) -> Report<K>
    ensures works { (line : List ℕ) × Works (work_seen words) (K.told out) (K.told result.out) result.status (seen result.front) line
        × Told (E.told err.old) (E.told err.new) line (Rose (E.faults err.old) (E.faults err.new)) }
    ensures cause { result.status ≡ 5 → Rose (K.faults out) (K.faults result.out) }
    ensures not_usage { result.status ≡ 2 → ⊥ }
    ensures never_full { result.status ≡ 7 → ⊥ }
    ensures complete { (program : Program) → Accepts (workload.script words.number words.size) program
        → (Rose (K.faults out) (K.faults result.out) → ⊥) → IsOwnOrMemory result.status }
    ensures rises { K.faults out ≤ K.faults result.out }
    ensures err_rises { E.faults err.old ≤ E.faults err.new }
{
    match script(alloc, words.number, words.size) {
        Ok(text) => run_source(rt, alloc, text.as_slice(), STEPS, out, err, gate).report,
        Err(_) => stopped(8, MEMORY, out, err),
    }
}

/// All that the program does: `run FILE` reads a script, runs it and writes what it prints to `out`; `shapes FILE` does the same, and
/// where the script ended with a value it writes behind that a line for each shape that the main thread's objects have had. `work` runs the
/// script that the program has for two numbers, and reads no file. `words` are the arguments without the program's own name. A thread makes as
/// many steps as `--steps` says at most; what `--heap-words` says has no effect yet, since what threads share lies in no heap of words.
///
/// The status is 0 where the script ended with a value and 1 where it raised a fault; 2 where the words are none of the
/// program's; 3 where the script is refused; 4 where it is missing or could not be read; 5 where `out` failed; 6 where it needed
/// a step more than it may make; 8 for want of memory. But for the status 0, one line on `err` tells why.
pub fn run<
    R: Threads + Wait + Sync,
    F: Files,
    K: Sink + Send + Drop + 'static,
    E: Sink,
    G: Gate + Send + Sync + Drop,
>(
    rt: &R,
    alloc: Global,
    words: &[String],
    files: &mut F,
    out: K,
    err: &mut E,
    gate: Arc<G>,
) -> Report<K>
    // The headline. Whatever the files hold, the history that is shown is legal, and each thread of it does what the reference
    // machine does in the program that was read, given its replies: all of it, or a part of it that want of memory or the sink cut
    // short; so the main thread ends, and the bytes written are that history's prints, with a proper prefix of the one print that
    // the sink refused. Each status has its cause. And `err` is told the one line that names that cause, or a front of it, and then
    // its count of faults rose.
    ensures runs { (wanted : asked.Run) → asked.command_of (map string_bytes words.now) ≡ Some (asked.run wanted) → (line : List ℕ)
        × Runs (F.held files.old wanted.file) (Rose (F.faults files.old) (F.faults files.new)) wanted.steps (K.told out) (K.told result.out) result.status (seen result.front) line
        × Told (E.told err.old) (E.told err.new) line (Rose (E.faults err.old) (E.faults err.new)) }

    // `shapes` does and answers the same, but that the lines of the shapes follow where the run came to a value: all of them, or a
    // part of them that the sink or want of memory cut short.
    ensures shows { (wanted : asked.Run) → asked.command_of (map string_bytes words.now) ≡ Some (asked.shapes wanted) → (line : List ℕ)
        × Shows (F.held files.old wanted.file) (Rose (F.faults files.old) (F.faults files.new)) wanted.steps (K.told out) (K.told result.out) result.status (seen result.front) line
        × Told (E.told err.old) (E.told err.new) line (Rose (E.faults err.old) (E.faults err.new)) }

    // `work` does and answers what `run` does with the script for its two numbers, and lets the files be.
    ensures works { (wanted : asked.Work) → asked.command_of (map string_bytes words.now) ≡ Some (asked.work wanted) → (line : List ℕ)
        × Works wanted (K.told out) (K.told result.out) result.status (seen result.front) line
        × Told (E.told err.old) (E.told err.new) line (Rose (E.faults err.old) (E.faults err.new)) }
    ensures fileless { (wanted : asked.Work) → asked.command_of (map string_bytes words.now) ≡ Some (asked.work wanted) → files.new ≡ files.old }

    // Status 2 comes only where the words are not the program's. Where they are not, it comes, or memory is wanted, and nothing is
    // done.
    ensures usage { result.status ≡ 2 → asked.command_of (map string_bytes words.now) ≡ None }
    ensures unusable { asked.command_of (map string_bytes words.now) ≡ None → (result.status ≡ 2) ⊎ (result.status ≡ 8) }
    ensures idle { asked.command_of (map string_bytes words.now) ≡ None → (result.out ≡ out) × (result.front ≡ None) × (files.new ≡ files.old) }

    // Then too one line is told: of the usage, or of memory.
    ensures usage_told { result.status ≡ 2 → Told (E.told err.old) (E.told err.new) usage_line (Rose (E.faults err.old) (E.faults err.new)) }
    ensures memory_told { asked.command_of (map string_bytes words.now) ≡ None → result.status ≡ 8
        → Told (E.told err.old) (E.told err.new) memory_line (Rose (E.faults err.old) (E.faults err.new)) }

    // Status 5 comes only where the count of the sink's faults rose.
    ensures cause { result.status ≡ 5 → Rose (K.faults out) (K.faults result.out) }

    // Status 7 does not come: what is shared lies in no heap that could be full.
    ensures never_full { result.status ≡ 7 → ⊥ }

    // A program that is held, and no fault from outside, give one of the script's own ends, or want of memory.
    ensures complete { (wanted : asked.Run) (bytes : List ℕ) (program : Program) → asked.command_of (map string_bytes words.now) ≡ Some (asked.run wanted)
        → F.held files.old wanted.file ≡ Bytes bytes → Accepts bytes program
        → (Rose (F.faults files.old) (F.faults files.new) → ⊥) → (Rose (K.faults out) (K.faults result.out) → ⊥)
        → IsOwnOrMemory result.status }
    ensures shapes_complete { (wanted : asked.Run) (bytes : List ℕ) (program : Program) → asked.command_of (map string_bytes words.now) ≡ Some (asked.shapes wanted)
        → F.held files.old wanted.file ≡ Bytes bytes → Accepts bytes program
        → (Rose (F.faults files.old) (F.faults files.new) → ⊥) → (Rose (K.faults out) (K.faults result.out) → ⊥)
        → IsOwnOrMemory result.status }

    ensures works_complete { (wanted : asked.Work) (program : Program) → asked.command_of (map string_bytes words.now) ≡ Some (asked.work wanted)
        → Accepts (workload.script wanted.number wanted.size) program
        → (Rose (K.faults out) (K.faults result.out) → ⊥)
        → IsOwnOrMemory result.status }

    // What is held stays, and counts of faults never fall.
    ensures kept { (p : List ℕ) → F.held files.new p ≡ F.held files.old p }
    ensures files_rise { F.faults files.old ≤ F.faults files.new }
    ensures rises { K.faults out ≤ K.faults result.out }
    ensures err_rises { E.faults err.old ≤ E.faults err.new }
{
    let gate: &G = &gate;
    match command_of(alloc, words) {
        Ok(Some(Command::Run(words))) => run_file(rt, alloc, words, files, out, err, gate).report,
        Ok(Some(Command::Shapes(words))) => show_file(rt, alloc, words, files, out, err, gate),
        Ok(Some(Command::Work(words))) => run_work(rt, alloc, words, out, err, gate),
        Ok(None) => stopped(2, USAGE, out, err),
        Err(_) => stopped(8, MEMORY, out, err),
    }
}
