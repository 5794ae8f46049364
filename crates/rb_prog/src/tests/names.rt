// Sources and the rules of names that they break, by hand from Ruby and from the rules.

mod captures;
mod crowded;
mod depth;
mod large;
mod parts;
mod syntax;

use crate::refusal::{Row, row_of};
use crate::source::{Unaccepted, accept};
use std::alloc::{AllocError, Global};
use std::test::Fail;

/// What is found in a source: the name of the fault that counts and its first byte, or that it keeps the rules of names and is run.
pub(super) fn found(alloc: Global, source: &str) -> Result<String, Fail> {
    match accept(alloc, source.as_bytes()) {
        Ok(_) => Ok(String::from_str(alloc, "kept")?),
        Err(Unaccepted::Refused(refusal)) => Ok(said(alloc, row_of(refusal))?),
        Err(Unaccepted::Memory) => Err(Fail::from(AllocError)),
    }
}

fn said(alloc: Global, row: Row) -> Result<String, AllocError> {
    let mut text = String::from_str(alloc, row.name)?;
    if let Some(at) = row.place {
        write!(text, " {at}")?;
    }
    Ok(text)
}

/// A call without receiver finds a method of its class, one of the top level, or one that is built in.
const CALLS: [(&str, &str); 23] = [
    ("puts 1", "kept"),
    ("print 1", "kept"),
    ("p 1", "kept"),
    ("baz", "UnknownName 0"),
    ("baz 1", "UnknownName 0"),
    ("puts baz", "UnknownName 5"),
    ("1.baz", "kept"),
    ("def foo; puts 1; end", "kept"),
    ("def foo; baz; end", "UnknownName 9"),
    ("class Bar; def foo; puts 1; end; end", "kept"),
    ("class Bar; def foo; baz; end; end", "UnknownName 20"),
    ("3.times { baz }", "UnknownName 10"),
    ("Thread.new { baz }", "UnknownName 13"),
    // A method finds itself, and may be called before its definition.
    ("foo", "UnknownName 0"),
    ("def foo; foo; end", "kept"),
    ("foo; def foo; end", "kept"),
    ("class Bar; def foo; foo; end; end", "kept"),
    // Those of a class are found in the class alone.
    ("class Bar; def foo; end; end; foo", "UnknownName 30"),
    ("def foo; end; class Bar; def baz; foo; end; end", "kept"),
    (
        "class Bar; def foo; end; end; def baz; foo; end",
        "UnknownName 39",
    ),
    (
        "class Foo; def foo; end; end; class Bar; def baz; foo; end; end",
        "UnknownName 50",
    ),
    (
        "class Bar; attr_reader :foo; def baz; foo; end; end",
        "kept",
    ),
    (
        "class Bar; attr_writer :foo; def baz; foo; end; end",
        "UnknownName 38",
    ),
];

/// An object is made of a class of the script, before or behind its definition, or of one of a few that are built in.
const OBJECTS: [(&str, &str); 13] = [
    ("Bar.new", "UnknownClass 4"),
    ("def foo; Bar.new; end", "UnknownClass 13"),
    ("class Foo; def foo; Bar.new; end; end", "UnknownClass 24"),
    ("Thread.new { Bar.new }", "UnknownClass 17"),
    ("class Bar; end; Bar.new", "kept"),
    ("Bar.new; class Bar; end", "kept"),
    ("class Bar; def foo; Bar.new; end; end", "kept"),
    ("Array.new; Hash.new; Mutex.new", "kept"),
    ("Queue.new", "UnknownClass 6"),
    ("Object.new", "UnknownClass 7"),
    ("String.new", "UnknownClass 7"),
    ("Integer.new", "UnknownClass 8"),
    ("Symbol.new", "UnknownClass 7"),
];

/// `break` and `next` stand in a loop or a block, `return` in a method; and none of them leaves a thread.
const LEAVES: [(&str, &str); 28] = [
    ("break", "BreakOutside 0"),
    ("next", "BreakOutside 0"),
    ("def foo; break; end", "BreakOutside 9"),
    ("class Bar; def foo; next; end; end", "BreakOutside 20"),
    ("while true; break; end", "kept"),
    ("def foo; while true; next; end; end", "kept"),
    (
        "class Bar; def foo; while true; next; end; end; end",
        "kept",
    ),
    ("3.times { break }", "kept"),
    ("3.times { next }", "kept"),
    ("break while true", "kept"),
    ("while (break); end", "kept"),
    ("while true; x = (break); end", "kept"),
    ("while true; if true; break; end; end", "kept"),
    ("while true; end; break", "BreakOutside 17"),
    ("3.times { 1 }; break", "BreakOutside 15"),
    ("Thread.new { break }", "BreakOutside 13"),
    ("Thread.new { while true; break; end }", "kept"),
    ("while true; Thread.new { break }; end", "BreakOutside 25"),
    ("while true; Thread.new((break)) { 1 }; end", "kept"),
    ("3.times { Thread.new { next } }", "BreakOutside 23"),
    ("return", "BreakOutside 0"),
    ("3.times { return }", "BreakOutside 10"),
    ("def foo; return; end", "kept"),
    ("class Bar; def foo; return 1; end; end", "kept"),
    ("def foo; 3.times { return }; end", "kept"),
    ("def foo; Thread.new { return }; end", "BreakOutside 22"),
    (
        "def foo; Thread.new { 3.times { return } }; end",
        "BreakOutside 32",
    ),
    ("def foo; end; return", "BreakOutside 14"),
];

/// `self` and instance variables stand in methods of classes.
const SELVES: [(&str, &str); 13] = [
    ("self", "SelfOutside 0"),
    ("@x", "SelfOutside 0"),
    ("@x = 1", "SelfOutside 3"),
    ("@x += 1", "SelfOutside 3"),
    ("puts 1; self", "SelfOutside 8"),
    ("Thread.new { @x }", "SelfOutside 13"),
    ("def foo; self; end", "SelfOutside 9"),
    ("def foo; @x; end", "SelfOutside 9"),
    ("class Bar; def foo; self; end; end", "kept"),
    ("class Bar; def foo; @x; end; end", "kept"),
    ("class Bar; def foo; @x = 1; @x += 1; end; end", "kept"),
    ("class Bar; def foo; Thread.new { @x }; end; end", "kept"),
    ("$x = 1; $x += $x", "kept"),
];

/// A class, a method and a parameter are defined once.
const DEFINED: [(&str, &str); 35] = [
    ("class Bar; end; class Foo; end", "kept"),
    ("class Bar; end; class Bar; end", "TwiceDefined 22"),
    (
        "class Bar; end; class Foo; end; class Bar; end; class Foo; end",
        "TwiceDefined 38",
    ),
    // Some names of classes are taken.
    ("class Array; end", "TwiceDefined 6"),
    ("class Hash; end", "TwiceDefined 6"),
    ("class Mutex; end", "TwiceDefined 6"),
    ("class Thread; end", "TwiceDefined 6"),
    ("class Queue; end", "TwiceDefined 6"),
    ("class Object; end", "TwiceDefined 6"),
    ("class String; end", "TwiceDefined 6"),
    ("class Integer; end", "TwiceDefined 6"),
    ("class Symbol; end", "TwiceDefined 6"),
    ("class Bar; end; class Hash; end", "TwiceDefined 22"),
    // No name of a method is taken.
    ("def puts; end", "kept"),
    ("def foo; end; def baz; end", "kept"),
    ("def foo; end; def foo; end", "TwiceDefined 18"),
    (
        "class Bar; def foo; end; def foo; end; end",
        "TwiceDefined 29",
    ),
    ("def foo; end; class Bar; def foo; end; end", "kept"),
    (
        "class Foo; def foo; end; end; class Bar; def foo; end; end",
        "kept",
    ),
    ("class Bar; attr_reader :foo; attr_writer :foo; end", "kept"),
    (
        "class Bar; attr_reader :foo; def foo; end; end",
        "TwiceDefined 33",
    ),
    (
        "class Bar; attr_accessor :foo; attr_writer :foo; end",
        "TwiceDefined 43",
    ),
    ("def foo(a, b); end", "kept"),
    ("def foo(foo); end", "kept"),
    ("def foo(a, a); end", "TwiceDefined 11"),
    ("def foo(a, b, a, b); end", "TwiceDefined 14"),
    ("class Bar; def foo(a, a); end; end", "TwiceDefined 22"),
    ("3.times { |a, b, a| 1 }", "TwiceDefined 17"),
    ("def foo; 3.times { |a, b, a| 1 }; end", "TwiceDefined 26"),
    (
        "class Bar; def foo; 3.times { |a, b, a| 1 }; end; end",
        "TwiceDefined 37",
    ),
    ("Thread.new { |a, a| 1 }", "TwiceDefined 17"),
    // A parameter may hide a local of outside.
    ("def foo(a); 3.times { |a| a }; end", "kept"),
    ("3.times { |a| 3.times { |a| a } }", "kept"),
    ("3.times { |a| a }; 3.times { |a| a }", "kept"),
    ("a = 1; 3.times { |a| a }", "kept"),
];

/// Of several faults the first in the text counts, whatever rule it breaks and in whatever order texts are looked at.
const FIRSTS: [(&str, &str); 15] = [
    ("break; baz", "BreakOutside 0"),
    ("baz; break", "UnknownName 0"),
    ("self; break", "SelfOutside 0"),
    ("break; self", "BreakOutside 0"),
    ("baz; baz", "UnknownName 0"),
    ("self; Bar.new; baz", "SelfOutside 0"),
    ("def foo; baz; end; break", "UnknownName 9"),
    ("break; def foo; baz; end", "BreakOutside 0"),
    (
        "def foo; self; end; class Bar; def foo; baz; end; end",
        "SelfOutside 9",
    ),
    (
        "class Bar; def foo; baz; end; end; def foo; self; end",
        "UnknownName 20",
    ),
    (
        "def foo; end; def foo; end; class Bar; end; class Bar; end",
        "TwiceDefined 18",
    ),
    (
        "class Bar; end; class Bar; end; def foo; end; def foo; end",
        "TwiceDefined 22",
    ),
    ("class Bar; end; class Bar; end; baz", "TwiceDefined 22"),
    ("x = 1; Thread.new { x }; x = 2; baz", "UnsettledCapture 20"),
    ("baz; x = 1; Thread.new { x }; x = 2", "UnknownName 0"),
];

#[test]
fn each_rule_of_names_is_broken_where_it_says(rt: HostRuntime) -> Result<(), Fail> {
    for rows in [
        CALLS.as_slice(),
        OBJECTS.as_slice(),
        LEAVES.as_slice(),
        SELVES.as_slice(),
        DEFINED.as_slice(),
        FIRSTS.as_slice(),
        parts::ROWS.as_slice(),
        captures::ROWS.as_slice(),
        syntax::ROWS.as_slice(),
    ] {
        for (source, fault) in rows {
            let found = found(rt.alloc(), source)?;
            assert_eq!(rt; found.as_str(), *fault, "{source}");
        }
    }
    Ok(())
}
