// Command lines, and what they ask for.

use crate::{Command, RunWords, command_of};
use std::alloc::{AllocError, Global};
use std::test::Fail;

/// The words, with a blank between any two.
fn words_of(alloc: Global, line: &str) -> Result<Vec<String>, AllocError> {
    let mut words = Vec::new(alloc);
    for word in line.split(' ') {
        words.push(String::from_str(alloc, word)?)?;
    }
    Ok(words)
}

/// What a command with a FILE is told, as text.
fn run_text(alloc: Global, name: &str, told: RunWords<'_>) -> Result<String, AllocError> {
    format!(in alloc; "{name}: {} {} {}", told.file, told.steps, told.heap_words)
}

/// What a command is told, as text.
fn text_of(alloc: Global, command: Command<'_>) -> Result<String, AllocError> {
    match command {
        Command::Run(told) => run_text(alloc, "run", told),
        Command::Shapes(told) => run_text(alloc, "shapes", told),
        Command::Work(told) => format!(in alloc; "work: {} {}", told.number, told.size),
    }
}

/// What the words ask for, as text; `none` where it is nothing.
fn text_asked(alloc: Global, words: &[String]) -> Result<String, AllocError> {
    match command_of(alloc, words)? {
        Some(command) => text_of(alloc, command),
        None => String::from_str(alloc, "none"),
    }
}

/// Whether a line asks for this.
fn asks_for(alloc: Global, line: &str, text: &str) -> Result<bool, AllocError> {
    let words = words_of(alloc, line)?;
    Ok(text_asked(alloc, words.as_slice())?.as_str() == text)
}

/// A line, and what it asks for: the FILE, the steps and the heap words; or the number and the size.
const ACCEPTED: [(&str, &str); 37] = [
    ("run a.rb", "run: a.rb 100000000 1048576"),
    ("run a.rb --steps=5", "run: a.rb 5 1048576"),
    ("run a.rb --steps 5", "run: a.rb 5 1048576"),
    ("run --steps=5 a.rb", "run: a.rb 5 1048576"),
    ("run --steps 5 a.rb", "run: a.rb 5 1048576"),
    ("run a.rb --heap-words=4096", "run: a.rb 100000000 4096"),
    (
        "run a.rb --heap-words 134217728",
        "run: a.rb 100000000 134217728",
    ),
    ("run --heap-words=5000 a.rb", "run: a.rb 100000000 5000"),
    ("run --heap-words 5000 a.rb", "run: a.rb 100000000 5000"),
    ("run --steps 1 --heap-words 4096 a.rb", "run: a.rb 1 4096"),
    (
        "run --heap-words=4096 a.rb --steps=1000000000000",
        "run: a.rb 1000000000000 4096",
    ),
    (
        "run a.rb --steps 0000000000000000007",
        "run: a.rb 7 1048576",
    ),
    ("run a.rb --steps 07", "run: a.rb 7 1048576"),
    ("run a.rb --", "run: a.rb 100000000 1048576"),
    ("run -- a.rb", "run: a.rb 100000000 1048576"),
    ("run -- -a.rb", "run: -a.rb 100000000 1048576"),
    ("run -- --", "run: -- 100000000 1048576"),
    ("run -- -", "run: - 100000000 1048576"),
    ("run --steps 5 -- a", "run: a 5 1048576"),
    ("run --steps 5 -- --steps", "run: --steps 5 1048576"),
    ("run run", "run: run 100000000 1048576"),
    ("run ", "run:  100000000 1048576"),
    ("shapes a.rb", "shapes: a.rb 100000000 1048576"),
    ("shapes -- -a.rb", "shapes: -a.rb 100000000 1048576"),
    ("shapes shapes", "shapes: shapes 100000000 1048576"),
    ("shapes run", "shapes: run 100000000 1048576"),
    ("run shapes", "run: shapes 100000000 1048576"),
    ("run work", "run: work 100000000 1048576"),
    ("work --number 1 --size 4", "work: 1 4"),
    ("work --number=1 --size=4", "work: 1 4"),
    ("work --size 4 --number 1", "work: 1 4"),
    ("work --size=4 --number 1", "work: 1 4"),
    ("work --size 4 --number=1", "work: 1 4"),
    ("work --number 0 --size 1", "work: 0 1"),
    (
        "work --number 2147483647 --size 100000",
        "work: 2147483647 100000",
    ),
    ("work --number 0000000000000000007 --size=04", "work: 7 4"),
    ("work --number 1 --size 4 --", "work: 1 4"),
];

/// Lines that are no words of the program.
const REFUSED: [&str; 102] = [
    "",
    "--help",
    "-h",
    "--version",
    "help",
    "help run",
    "Run a.rb",
    "a.rb",
    "--steps 5 run a.rb",
    "run",
    "run --",
    "run --help",
    "run -h",
    "run --help a.rb",
    "run --version a.rb",
    "run --step 5 a.rb",
    "run --step=5 a.rb",
    "run --steps5 a.rb",
    "run --Steps 5 a.rb",
    "run -steps 5 a.rb",
    "run --=5 a.rb",
    "run -",
    "run - a.rb",
    "run -a.rb",
    "run a.rb -x",
    "run a.rb b.rb",
    "run -- a b",
    "run a -- b",
    "run a.rb ",
    "run --steps a.rb",
    "run a.rb --steps",
    "run --steps",
    "run --steps -- a.rb",
    "run --steps - a.rb",
    "run --steps --heap-words 4096 a.rb",
    "run --steps= a.rb",
    "run --steps  a.rb",
    "run --steps 0 a.rb",
    "run --steps=+5 a.rb",
    "run --steps -5 a.rb",
    "run --steps=-5 a.rb",
    "run --steps 5x a.rb",
    "run --steps=5=6 a.rb",
    "run --steps 5 --steps 6 a.rb",
    "run --steps 5 --steps=5 a.rb",
    "run --heap-words=4096 a.rb --heap-words 4096",
    "run --steps 1000000000001 a.rb",
    "run --steps 9999999999999999999 a.rb",
    "run --steps 00000000000000000007 a.rb",
    "run --steps 99999999999999999999 a.rb",
    "run --heap-words 4095 a.rb",
    "run --heap-words 134217729 a.rb",
    "run --heap-words 0 a.rb",
    "shapes",
    "Shapes a.rb",
    "shape a.rb",
    "shapes a.rb b.rb",
    "shapes --steps 5 a.rb",
    "shapes a.rb --heap-words=4096",
    "shapes --steps 5 a.rb --heap-words=4096",
    "shapes -a.rb",
    "--steps 5 shapes a.rb",
    "run shapes a.rb",
    "shapes run a.rb",
    "work",
    "Work --number 1 --size 4",
    "work --",
    "work a.rb",
    "work 1 4",
    "work --number 1",
    "work --size 4",
    "work --number 1 --number 4",
    "work --size 4 --size=4",
    "work --number 1 --size 4 a.rb",
    "work a.rb --number 1 --size 4",
    "work --number 1 a.rb --size 4",
    "work --number 1 --size 4 --number 1",
    "work --number 1 --size 4 --size 4",
    "work --number 1 --size 4 --steps 5",
    "work --heap-words=4096 --number 1 --size 4",
    "work -- --number 1 --size 4",
    "work --number 1 -- --size 4",
    "work --number 1 --size 4 -- a.rb",
    "work --number 1 --size 4 -- --",
    "work --number 1 --size",
    "work --number --size 4",
    "work --number= --size 4",
    "work --number=1=1 --size 4",
    "work --number -1 --size 4",
    "work --number=+1 --size 4",
    "work --number 1x --size 4",
    "work -number 1 --size 4",
    "work --num 1 --size 4",
    "work --Number 1 --size 4",
    "work --number 2147483648 --size 4",
    "work --number 1 --size 0",
    "work --number 1 --size 100001",
    "work --number 00000000000000000001 --size 4",
    "run a.rb --number 1",
    "run --number 1 --size 4",
    "shapes a.rb --size 4",
    "--number 1 --size 4 work",
];

/// The number of the first line that asks for something else than it says.
fn first_wrong(alloc: Global) -> Result<Option<usize>, AllocError> {
    for (number, (line, text)) in ACCEPTED.iter().enumerate() {
        if !asks_for(alloc, line, text)? {
            return Ok(Some(number));
        }
    }
    Ok(None)
}

/// The number of the first line that asks for anything, of those that are no words.
fn first_taken(alloc: Global) -> Result<Option<usize>, AllocError> {
    for (number, line) in REFUSED.iter().enumerate() {
        if !asks_for(alloc, line, "none")? {
            return Ok(Some(number));
        }
    }
    Ok(None)
}

#[test]
fn accepted_lines(rt: HostRuntime) -> Result<(), Fail> {
    assert_eq!(rt; first_wrong(rt.alloc())?, None);
    Ok(())
}

#[test]
fn refused_lines(rt: HostRuntime) -> Result<(), Fail> {
    assert_eq!(rt; first_taken(rt.alloc())?, None);
    Ok(())
}
