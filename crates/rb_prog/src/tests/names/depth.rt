// How deep and how long sources may be, and which fault is told where there are several: the one that comes first in reading.

use super::super::sources::repeated;
use super::found;
use std::alloc::Global;
use std::test::Fail;

/// A node that is 32 high.
const SUM: &str = "1+1+1+1+1+1+1+1+1+1+1+1+1+1+1+1+1+1+1+1+1+1+1+1+1+1+1+1+1+1+1+1";

/// 32 arrays, each in the one before it.
const ARRAYS: &str = "[[[[[[[[[[[[[[[[[[[[[[[[[[[[[[[[]]]]]]]]]]]]]]]]]]]]]]]]]]]]]]]]";

/// What opens, what stands in the midst and what closes; how often it may stand there; and the place that is told where it stands once more.
const NESTED: [(&str, &str, &str, u32, u32); 22] = [
    // What opens counts, and the first that is one too many is told.
    ("(", ARRAYS, ")", 32, 64),
    ("[", "", "]", 64, 64),
    ("{1=>", ARRAYS, "}", 32, 163),
    ("f(", "", ")", 64, 129),
    ("-", "1", "", 64, 0),
    // A node counts that is too high, which is known where its last token was read.
    ("[", "1", "]", 63, 0),
    ("{1=>", SUM, "}", 32, 0),
    ("-", "a", "", 63, 0),
    ("!", "a", "", 63, 0),
    ("a = ", "1", "", 63, 2),
    ("1 ? 1 : ", "1", "", 63, 2),
    ("a.each{", SUM, "}", 32, 2),
    ("a.map do ", SUM, " end", 32, 2),
    ("if 1\n", SUM, "\nend", 32, 0),
    ("while 1\n", SUM, "\nend", 32, 0),
    ("unless 1\n", SUM, "\nend", 32, 0),
    ("\"#{", SUM, "}\"", 32, 0),
    // A chain is as high as it is long, and the first operator, call or word that is one too many is told.
    ("", "1", " + 1", 63, 254),
    ("", "1", " || 1", 63, 317),
    ("", "a", ".b", 63, 128),
    ("", "a", "[1]", 63, 190),
    ("", "1", " if 1", 63, 317),
];

/// What is found in so many openings, with this behind them and as many ends.
fn found_in(alloc: Global, row: (&str, &str, &str), times: u32) -> Result<String, Fail> {
    let (opening, middle, end) = row;
    let mut source = repeated(alloc, "", opening, times)?;
    source.push_str(middle)?;
    source.push_str(repeated(alloc, "", end, times)?.as_str())?;
    found(alloc, source.as_str())
}

/// The number of the first row that is refused for its depth where it is as deep as it may be, or is not told so at its place where it is deeper.
fn first_wrong_depth(alloc: Global) -> Result<Option<usize>, Fail> {
    for (number, (opening, middle, end, most, at)) in NESTED.iter().enumerate() {
        let row = (*opening, *middle, *end);
        let deepest = found_in(alloc, row, *most)?;
        let deeper = found_in(alloc, row, most.saturating_add(1))?;
        let told = format!(in alloc; "TooNested {at}")?;
        if deepest.starts_with("TooNested") || deepest.starts_with("Syntax") || deeper != told {
            return Ok(Some(number));
        }
    }
    Ok(None)
}

/// What a source begins with, a part that stands so often behind it, and its end; and what is found.
const LONG: [((&str, &str, &str), u32, &str); 24] = [
    // What is open round the arrays counts as each of them does: 64 in all may be open.
    (("def f\n", "[", "1"), 63, "Syntax 70"),
    (("def f\n", "[", "1"), 64, "TooNested 69"),
    (("class A\ndef f\n", "[", "1"), 62, "Syntax 77"),
    (("class A\ndef f\n", "[", "1"), 63, "TooNested 76"),
    (("a.each { ", "[", "1"), 63, "Syntax 73"),
    (("a.each { ", "[", "1"), 64, "TooNested 72"),
    (("a.map do ", "[", "1"), 64, "TooNested 72"),
    (("Thread.new do ", "[", "1"), 64, "TooNested 77"),
    (("if 1\n", "[", "1"), 64, "TooNested 68"),
    (("unless ", "[", "1"), 64, "TooNested 70"),
    (("while 1\n", "[", "1"), 64, "TooNested 71"),
    (("\"#{", "[", "1}\""), 64, "TooNested 66"),
    // An `elsif` opens nothing, and is one higher than the next.
    (("if 1\n", "elsif 1\n", "end"), 62, "kept"),
    (("if 1\n", "elsif 1\n", "end"), 63, "TooNested 0"),
    (("if 1\n", "elsif 1\n", "end"), 100_000, "TooNested 799493"),
    // What stands first in reading is told: a chain of arms is too high where its end was read, a sum where its operand was.
    (("if 1\n", "elsif 1\n", ")"), 63, "Syntax 509"),
    (("", "[", ")"), 64, "Syntax 64"),
    (("", "[", ")"), 65, "TooNested 64"),
    ((")", "[", ""), 65, "Syntax 0"),
    (("", "1 + ", ")"), 64, "Syntax 256"),
    (("", "1 + ", "1 )"), 64, "TooNested 254"),

    // Many of a kind, in little stack.
    (("", "1;", ""), 100_000, "kept"),
    (("[", "1,", "]"), 100_000, "kept"),
    // Code in texts.
    (("", "\"#{", ""), 349_525, "UnclosedText 0"),
];

/// What is found in a source that begins so, has a part so often behind it, and ends so.
fn found_between(alloc: Global, row: (&str, &str, &str), times: u32) -> Result<String, Fail> {
    let (begin, part, end) = row;
    let mut source = repeated(alloc, begin, part, times)?;
    source.push_str(end)?;
    found(alloc, source.as_str())
}

/// The number of the first row in which something else is found.
fn first_wrong_length(alloc: Global) -> Result<Option<usize>, Fail> {
    for (number, ((begin, part, end), times, told)) in LONG.iter().enumerate() {
        let row = (*begin, *part, *end);
        if found_between(alloc, row, *times)?.as_str() != *told {
            return Ok(Some(number));
        }
    }
    Ok(None)
}

#[test]
fn what_passes_a_limit_is_told_where_it_comes_first(rt: HostRuntime) -> Result<(), Fail> {
    assert_eq!(rt; first_wrong_depth(rt.alloc())?, None);
    Ok(())
}

#[test]
fn of_two_faults_the_first_in_reading_is_told(rt: HostRuntime) -> Result<(), Fail> {
    assert_eq!(rt; first_wrong_length(rt.alloc())?, None);
    Ok(())
}
