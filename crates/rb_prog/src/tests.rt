// Whole runs over files and sinks in memory. The expected values are worked out by hand from the language.

mod examples;
mod names;
mod refusals;
mod scripts;
mod shapes;
mod sources;
mod tokens;
mod work;

use crate::{Report, run};
use rb_edge::{Gate, MemoryFiles, MemorySink, OpenGate};
use rb_tree::{Items, Text};
use std::alloc::{AllocError, Global};
use std::sync::atomic::{AtomicU64, Ordering};
use std::sync::{Arc, Wait};
use std::test::Fail;
use std::thread::Threads;

/// Enough for what the scripts here print.
const ROOM: usize = 65_536;

/// The files that hold one script under `a.rb`.
fn script(alloc: Global, source: &[u8], failing: Vec<u64>) -> Result<MemoryFiles, AllocError> {
    let path = Items::from_slice(alloc, b"a.rb")?;
    let bytes: Text = Items::from_slice(alloc, source)?;
    Ok(MemoryFiles::new(vec![in alloc; (path, bytes)]?, failing))
}

/// The words, each as a text of its own.
fn words(alloc: Global, texts: &[&str]) -> Result<Vec<String>, AllocError> {
    let mut all = Vec::with_capacity(alloc, texts.len())?;
    for text in texts {
        all.push(String::from_str(alloc, text)?)?;
    }
    Ok(all)
}

/// What a run gives back, and what it wrote to `err`.
#[derive(Drop)]
struct Outcome {
    report: Report<MemorySink>,
    err: MemorySink,
}

/// A run of words over files, with writes to `out` and to `err` that fail at the listed numbers.
fn ran_over<R: Threads + Wait + Sync>(
    rt: &R,
    alloc: Global,
    texts: &[&str],
    files: &mut MemoryFiles,
    failing: Vec<u64>,
    err_failing: Vec<u64>,
) -> Result<Outcome, Fail> {
    let words = words(alloc, texts)?;
    let out = MemorySink::new(alloc, failing, ROOM)?;
    let mut err = MemorySink::new(alloc, err_failing, ROOM)?;
    let gate = Arc::new(alloc, OpenGate {})?;
    let report = run(rt, alloc, words.as_slice(), files, out, &mut err, gate);
    Ok(Outcome { report, err })
}

/// A run of words over files, with writes to `out` that fail at the listed numbers.
fn ran<R: Threads + Wait + Sync>(
    rt: &R,
    alloc: Global,
    texts: &[&str],
    files: &mut MemoryFiles,
    failing: Vec<u64>,
) -> Result<Outcome, Fail> {
    ran_over(rt, alloc, texts, files, failing, Vec::new(alloc))
}

/// A run of a source with nothing that fails.
fn ran_source<R: Threads + Wait + Sync>(
    rt: &R,
    alloc: Global,
    source: &[u8],
) -> Result<Outcome, Fail> {
    let mut files = script(alloc, source, Vec::new(alloc))?;
    ran(rt, alloc, &["run", "a.rb"], &mut files, Vec::new(alloc))
}

#[test]
fn words_other_than_those_of_a_run_are_status_2(rt: HostRuntime) -> Result<(), Fail> {
    let alloc = rt.alloc();
    let all: [&[&str]; 9] = [
        &[],
        &["run"],
        &["a.rb"],
        &["run", "a.rb", "a.rb"],
        &["run", "-"],
        &["run", "--help"],
        &["--help"],
        &["run", "--steps", "0", "a.rb"],
        &["runs", "a.rb"],
    ];
    for texts in all {
        let mut files = script(alloc, b"puts 1", Vec::new(alloc))?;
        let Outcome { report, err } = ran(&rt, alloc, texts, &mut files, Vec::new(alloc))?;
        assert_eq!(rt; report.status, 2);
        assert!(rt; report.out.bytes().is_empty());
        assert_eq!(rt; err.bytes(), b"rbso: usage\n".as_slice());
    }
    Ok(())
}

#[test]
fn options_may_stand_beside_the_file(rt: HostRuntime) -> Result<(), Fail> {
    let alloc = rt.alloc();
    let all: [&[&str]; 3] = [
        &["run", "--steps", "1000", "a.rb"],
        &["run", "a.rb", "--heap-words=4096"],
        &["run", "--", "a.rb"],
    ];
    for texts in all {
        let mut files = script(alloc, b"puts 1", Vec::new(alloc))?;
        let Outcome { report, err } = ran(&rt, alloc, texts, &mut files, Vec::new(alloc))?;
        assert_eq!(rt; report.status, 0);
        assert_eq!(rt; report.out.bytes(), b"1\n".as_slice());
        assert!(rt; err.bytes().is_empty());
    }
    Ok(())
}

#[test]
fn a_missing_file_and_a_failing_read_are_status_4(rt: HostRuntime) -> Result<(), Fail> {
    let alloc = rt.alloc();
    let mut files = script(alloc, b"puts 1", Vec::new(alloc))?;
    let Outcome { report, err } = ran(
        &rt,
        alloc,
        &["run", "none.rb"],
        &mut files,
        Vec::new(alloc),
    )?;
    assert_eq!(rt; report.status, 4);
    assert_eq!(rt; err.bytes(), b"rbso: source missing\n".as_slice());
    // The script is read in two calls, the second of which finds its end.
    for (failing, status, line) in [
        (1, 4, "rbso: source failed\n"),
        (2, 4, "rbso: source failed\n"),
        (3, 0, ""),
    ] {
        let mut files = script(alloc, b"puts 1", vec![in alloc; failing]?)?;
        let Outcome { report, err } = ran(
            &rt,
            alloc,
            &["run", "a.rb"],
            &mut files,
            Vec::new(alloc),
        )?;
        assert_eq!(rt; report.status, status);
        assert_eq!(rt; err.bytes(), line.as_bytes());
    }
    Ok(())
}

#[test]
fn a_failing_write_ends_the_run_behind_the_prints_before_it(rt: HostRuntime) -> Result<(), Fail> {
    let alloc = rt.alloc();
    let runs = [
        (1, "", 5, "rbso: sink failed\n"),
        (2, "1\n", 5, "rbso: sink failed\n"),
        (3, "1\n2\n", 5, "rbso: sink failed\n"),
        (4, "1\n2\n3\n", 0, ""),
    ];
    for (failing, output, status, line) in runs {
        let mut files = script(alloc, b"puts 1\nputs 2\nputs 3", Vec::new(alloc))?;
        let failing = vec![in alloc; failing]?;
        let Outcome { report, err } = ran(&rt, alloc, &["run", "a.rb"], &mut files, failing)?;
        assert_eq!(rt; report.status, status);
        assert_eq!(rt; report.out.bytes(), output.as_bytes());
        assert_eq!(rt; err.bytes(), line.as_bytes());
    }
    Ok(())
}

#[test]
fn a_failing_write_to_err_cuts_the_line_alone(rt: HostRuntime) -> Result<(), Fail> {
    let alloc = rt.alloc();
    let runs = [
        ("puts 1\nputs 9223372036854775807 + 1", 1, "1\n", 1, ""),
        (
            "puts 1\nputs 9223372036854775807 + 1",
            3,
            "1\n",
            1,
            "rbso: fault IntegerOverflow",
        ),
        ("foo", 1, "", 3, ""),
        ("foo", 2, "", 3, "rbso: refused "),
        ("puts 1", 1, "1\n", 0, ""),
    ];
    for (source, failing, output, status, line) in runs {
        let mut files = script(alloc, source.as_bytes(), Vec::new(alloc))?;
        let failing = vec![in alloc; failing]?;
        let Outcome { report, err } = ran_over(
            &rt,
            alloc,
            &["run", "a.rb"],
            &mut files,
            Vec::new(alloc),
            failing,
        )?;
        assert_eq!(rt; report.status, status, "{source}");
        assert_eq!(rt; report.out.bytes(), output.as_bytes(), "{source}");
        assert_eq!(rt; err.bytes(), line.as_bytes(), "{source}");
    }
    Ok(())
}

#[test]
fn a_source_has_at_most_1048576_bytes(rt: HostRuntime) -> Result<(), Fail> {
    let alloc = rt.alloc();
    for (size, status, line) in [
        (1_048_576, 0, ""),
        (1_048_577, 3, "rbso: refused 6 TooLarge\n"),
        (1_048_578, 3, "rbso: refused 6 TooLarge\n"),
        (1_100_000, 3, "rbso: refused 6 TooLarge\n"),
    ] {
        let source = vec![in alloc; b' '; size]?;
        let Outcome { report, err } = ran_source(&rt, alloc, source.as_slice())?;
        assert_eq!(rt; report.status, status);
        assert_eq!(rt; err.bytes(), line.as_bytes());
    }
    Ok(())
}

/// So many names, each assigned on a line of its own and printed on the next, and what that prints.
fn long_script(alloc: Global, names: u32) -> Result<(String, String), AllocError> {
    let mut source = String::new(alloc);
    let mut output = String::new(alloc);
    for number in 0..names {
        let lines = format!(in alloc; "a{number} = {number}\nputs a{number}\n")?;
        source.push_str(lines.as_str())?;
        let line = format!(in alloc; "{number}\n")?;
        output.push_str(line.as_str())?;
    }
    Ok((source, output))
}

#[test]
fn a_script_of_thousands_of_lines_names_and_prints_runs(rt: HostRuntime) -> Result<(), Fail> {
    let alloc = rt.alloc();
    let (source, output) = long_script(alloc, 2000)?;
    let Outcome { report, .. } = ran_source(&rt, alloc, source.as_bytes())?;
    assert_eq!(rt; report.status, 0);
    assert!(rt; report.out.bytes() == output.as_bytes());
    Ok(())
}

/// A gate that counts its calls.
#[derive(Drop)]
struct Counting {
    calls: AtomicU64,
}

impl Gate for Counting {
    fn before(&self, _thread: u64, _step: u64) {
        self.calls.fetch_add(1, Ordering::SeqCst);
    }

    fn after(&self, _thread: u64, _step: u64) {
        self.calls.fetch_add(1, Ordering::SeqCst);
    }
}

#[test]
fn the_gate_stands_round_prints_and_the_end_alone_where_nothing_is_shared(
    rt: HostRuntime,
) -> Result<(), Fail> {
    let alloc = rt.alloc();
    let source = b"a = [1]\n100.times { |i| a << i }\nputs a[1]\nputs 2";
    let mut files = script(alloc, source, Vec::new(alloc))?;
    let words = words(alloc, &["run", "a.rb"])?;
    let out = MemorySink::new(alloc, Vec::new(alloc), ROOM)?;
    let mut err = MemorySink::new(alloc, Vec::new(alloc), ROOM)?;
    let calls = AtomicU64::new(0);
    let gate = Arc::new(alloc, Counting { calls })?;
    let kept = Arc::try_clone(&gate)?;
    let report = run(
        &rt,
        alloc,
        words.as_slice(),
        &mut files,
        out,
        &mut err,
        gate,
    );
    assert_eq!(rt; report.out.bytes(), b"0\n2\n".as_slice());
    // Before and after each of two prints and the end.
    assert_eq!(rt; kept.calls.load(Ordering::SeqCst), 6);
    Ok(())
}
