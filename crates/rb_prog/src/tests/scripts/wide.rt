// Scripts that need many slots at once: arguments and elements that wait while those behind them are evaluated, and methods with many locals.

use super::super::ran_source;
use super::super::sources::{numbered, repeated};
use crate::tests::Outcome;
use std::alloc::Global;
use std::sync::Wait;
use std::test::Fail;
use std::thread::Threads;

/// What a script begins with, a part that stands behind it so often, and its end; what it prints, and the line on standard error.
const WIDE: [((&str, &str, &str), u32, (&str, &str)); 9] = [
    // As many as the first row has slots beside those of the top level, and one more.
    (
        ("a = [", "1,", "1]\nputs a.length"),
        16_383,
        ("16384\n", ""),
    ),
    (
        ("a = [", "1,", "1]\nputs a.length"),
        16_384,
        ("16385\n", ""),
    ),
    (
        ("h = {", "1=>2,", "3=>4}\nputs h.length"),
        8_191,
        ("2\n", ""),
    ),
    (("print ", "\"\",", "1"), 300_000, ("1", "")),
    // In a method, in a block, and in a list that waits itself.
    (
        ("def f\n[", "1,", "1].length\nend\nputs f"),
        20_000,
        ("20001\n", ""),
    ),
    (
        ("1.times { puts [", "1,", "1].length }"),
        20_000,
        ("20001\n", ""),
    ),
    (
        ("puts [2, [", "1,", "1].length].length"),
        20_000,
        ("2\n", ""),
    ),
    // The elements of each call wait.
    (
        ("def f; [", "1,", "f]; end; f"),
        33,
        ("", "rbso: fault TooDeep at 1:9\n"),
    ),
    (
        ("def f; [", "1,", "f]; end; f"),
        10_000,
        ("", "rbso: fault TooDeep at 1:9\n"),
    ),
];

/// Whether a script prints this and tells this line.
fn gives<R: Threads + Wait + Sync>(
    rt: &R,
    alloc: Global,
    source: &str,
    wanted: (&str, &str),
) -> Result<bool, Fail> {
    let Outcome { report, err } = ran_source(rt, alloc, source.as_bytes())?;
    let (printed, line) = wanted;
    Ok(report.out.bytes() == printed.as_bytes() && err.bytes() == line.as_bytes())
}

/// Whether a script of so many parts does so.
fn wide_gives<R: Threads + Wait + Sync>(
    rt: &R,
    alloc: Global,
    row: (&str, &str, &str),
    times: u32,
    wanted: (&str, &str),
) -> Result<bool, Fail> {
    let (begin, part, end) = row;
    let mut source = repeated(alloc, begin, part, times)?;
    source.push_str(end)?;
    gives(rt, alloc, source.as_str(), wanted)
}

/// The number of the first row that comes out otherwise.
fn first_wrong<R: Threads + Wait + Sync>(rt: &R, alloc: Global) -> Result<Option<usize>, Fail> {
    for (number, (row, times, wanted)) in WIDE.iter().enumerate() {
        if !wide_gives(rt, alloc, *row, *times, *wanted)? {
            return Ok(Some(number));
        }
    }
    Ok(None)
}

#[test]
fn no_count_of_arguments_or_locals_needs_more_slots_than_there_may_be(
    rt: HostRuntime,
) -> Result<(), Fail> {
    let alloc = rt.alloc();
    assert_eq!(rt; first_wrong(&rt, alloc)?, None);
    let locals = numbered(alloc, "def f\n", "a", " = 1", "f\nend\nf", 6_000)?;
    let wanted = ("", "rbso: fault TooDeep at 2:8\n");
    assert!(rt; gives(&rt, alloc, locals.as_str(), wanted)?);
    Ok(())
}
