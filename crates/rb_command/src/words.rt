// What the words ask for.

ghost use Rattle.std.specs.Prelude.{◌≡◌, List, ℕ, Option, IfOk, map, option_map, string_bytes};
ghost use Rattle.rb_command.specs.Words as spec;
ghost use Rattle.rb_command.specs.Line as said;
ghost use Rattle.rb_command.specs.Seen.{line_seen, run_seen, work_seen, seen};

use crate::line::{Line, line_of};
use crate::numbers::{HEAP_WORDS, STEPS, chosen};
use crate::told::{WorkWords, work_told};
use std::alloc::{AllocError, Global};

/// What a command is told: the script's path, how many steps a thread may make, how many words the shared heap has.
#[derive(Clone, Copy)]
pub struct RunWords<'w> {
    pub file: &'w str,
    pub steps: u64,
    pub heap_words: u64,
}

/// What the program is asked to do.
#[derive(Clone, Copy)]
pub enum Command<'w> {
    /// To run a script.
    Run(RunWords<'w>),
    /// To run a script, and to tell the shapes of its objects behind that.
    Shapes(RunWords<'w>),
    /// To run the script that the program has, with these numbers.
    Work(WorkWords),
}

/// What the words ask for, without the program's own name; none where they are no words of the program.
pub fn command_of<'w>(alloc: Global, words: &'w [String]) -> Result<Option<Command<'w>>, AllocError>
    ensures { IfOk result (λ found. option_map seen found ≡ spec.command_of (map string_bytes words.now)) }
{
    let [command, rest @ ..] = words else {
        return Ok(None);
    };
    if command.as_str() == "run" {
        return Ok(asked_to_run(words_told(alloc, rest)?));
    }
    if command.as_str() == "shapes" {
        return Ok(asked_for_shapes(file_told(alloc, rest)?));
    }
    if command.as_str() == "work" {
        return Ok(asked_to_work(work_told(rest)));
    }
    Ok(None)
}

/// The command `run`, where its words are there.
fn asked_to_run<'w>(words: Option<RunWords<'w>>) -> Option<Command<'w>>
    ensures { option_map seen result ≡ option_map spec.run (option_map run_seen words.entry) }
{
    Some(Command::Run(words?))
}

/// The command `shapes`, where its words are there.
fn asked_for_shapes<'w>(words: Option<RunWords<'w>>) -> Option<Command<'w>>
    ensures { option_map seen result ≡ option_map spec.shapes (option_map run_seen words.entry) }
{
    Some(Command::Shapes(words?))
}

/// The command `work`, where its words are there.
fn asked_to_work<'w>(words: Option<WorkWords>) -> Option<Command<'w>>
    ensures { option_map seen result ≡ option_map spec.work (option_map work_seen words) }
{
    Some(Command::Work(words?))
}

/// What the words behind a command tell; none where they are no words of the program.
fn words_told<'w>(alloc: Global, words: &'w [String]) -> Result<Option<RunWords<'w>>, AllocError>
    ensures { IfOk result (λ found. option_map run_seen found ≡ spec.run_in (map string_bytes words.now)) }
{
    match line_of(alloc, words)? {
        Some(line) => Ok(run_words(line)),
        None => Ok(None),
    }
}

/// The run of a FILE that the words behind a command tell alone, without an option; none where they are other words.
fn file_told<'w>(alloc: Global, words: &'w [String]) -> Result<Option<RunWords<'w>>, AllocError>
    ensures { IfOk result (λ found. option_map run_seen found ≡ spec.plain_run_in (map string_bytes words.now)) }
{
    match line_of(alloc, words)? {
        Some(line) => Ok(plain_words(line)),
        None => Ok(None),
    }
}

/// The run that a line asks for, where it has no option.
fn plain_words<'w>(line: Line<'w>) -> Option<RunWords<'w>>
    ensures { option_map run_seen result ≡ said.plain_run_of_line (line_seen line.entry) }
{
    if line.steps.is_some() || line.heap_words.is_some() {
        return None;
    }
    run_words(line)
}

/// The run that a line asks for, where its numbers are in their ranges.
fn run_words<'w>(line: Line<'w>) -> Option<RunWords<'w>>
    ensures { option_map run_seen result ≡ said.run_of_line (line_seen line.entry) }
{
    let steps = chosen(STEPS, line.steps)?;
    let heap_words = chosen(HEAP_WORDS, line.heap_words)?;
    Some(RunWords {
        file: line.file,
        steps,
        heap_words,
    })
}
