// Scripts with what they print and how they end: the values of those that end well are Ruby's own.

mod classes;
mod collections;
mod mutexes;
mod object_texts;
mod objects;
mod threads;
mod wide;

use super::{Outcome, ran, ran_source, script};
use std::alloc::{AllocError, Global};
use std::process::{Abort, ExitCode};
use std::sync::Wait;
use std::test::Fail;
use std::thread::Threads;

/// A script, what it prints, and what its line on standard error says behind `rbso: `, empty where it ends well.
pub(super) type Row = (&'static str, &'static str, &'static str);

/// Sums, brackets and precedence.
const SUMS: [Row; 24] = [
    ("puts 1 + 2 * 3", "7\n", ""),
    ("puts((-7) / 2)\nputs((-7) % 3)", "-4\n2\n", ""),
    (
        "puts 7 / -2, 7 % -3, -7 / -2, -7 % -3",
        "-4\n-2\n3\n-1\n",
        "",
    ),
    ("puts (1 + 2) * 3 - -4", "13\n", ""),
    (
        "puts 2 - 3 - 4, 100 / 7 / 2, 2 * (3 + 4) % 5",
        "-5\n7\n4\n",
        "",
    ),
    ("x = 5\nputs -x, -(x + 1), - 3", "-5\n-6\n-3\n", ""),
    (
        "puts 9223372036854775807 + 1",
        "",
        "fault IntegerOverflow at 1:26",
    ),
    ("puts 9223372036854775807 - 1", "9223372036854775806\n", ""),
    (
        "m = -9223372036854775807 - 1\nputs m, m % -1, m / 1",
        "-9223372036854775808\n0\n-9223372036854775808\n",
        "",
    ),
    (
        "m = -9223372036854775807 - 1\nputs m / -1",
        "",
        "fault IntegerOverflow at 2:8",
    ),
    (
        "m = -9223372036854775807 - 1\nputs -m",
        "",
        "fault IntegerOverflow at 2:6",
    ),
    (
        "m = -9223372036854775807 - 2",
        "",
        "fault IntegerOverflow at 1:26",
    ),
    (
        "puts 3037000500 * 3037000500",
        "",
        "fault IntegerOverflow at 1:17",
    ),
    ("puts 5 / 0", "", "fault ZeroDivision at 1:8"),
    (
        "puts 1\nputs 5 % (2 - 2)",
        "1\n",
        "fault ZeroDivision at 2:8",
    ),
    ("a = 6\nputs a * 7\n", "42\n", ""),
    ("\n\n  \n", "", ""),
    ("a=1\nb=a\na=2\nputs a\nputs b", "2\n1\n", ""),
    ("puts 9223372036854775807", "9223372036854775807\n", ""),
    ("puts((1 +\n2))", "3\n", ""),
    (
        "puts 1
\n",
        "1\n",
        "",
    ),
    ("a =\n6\nputs a", "6\n", ""),
    ("puts 1_000", "1000\n", ""),
    ("b = b\np b", "nil\n", ""),
];

/// Comparisons, `!`, `&&` and `||`, and methods of any value.
const COMPARISONS: [Row; 25] = [
    (
        "puts 1 < 2, 2 <= 1, 3 > 3, 3 >= 3, 1 == 1, 1 != 1, nil == false, true == true",
        "true\nfalse\nfalse\ntrue\ntrue\nfalse\nfalse\ntrue\n",
        "",
    ),
    (
        "puts 1 == \"1\", \"a\" == \"a\", :a == :a, :a == \"a\"",
        "false\ntrue\ntrue\nfalse\n",
        "",
    ),
    ("p nil", "nil\n", ""),
    (
        "puts nil || 3, (false && 1) == false, nil && 1",
        "3\ntrue\n\n",
        "",
    ),
    ("puts !nil, !0, !\"\"", "true\nfalse\nfalse\n", ""),
    (
        "def f(x)\n  puts x\n  x\nend\nf(false) && f(1)\nf(2) || f(3)",
        "false\n2\n",
        "",
    ),
    (
        "puts nil.nil?, 0.nil?, nil.to_s == \"\", 12.to_s + \"3\", nil.inspect, \"a\".inspect",
        "true\nfalse\ntrue\n123\nnil\n\"a\"\n",
        "",
    ),
    ("1 + \"a\"", "", "fault TypeMismatch at 1:3"),
    ("1 < nil", "", "fault TypeMismatch at 1:3"),
    ("\"a\" + 1", "", "fault TypeMismatch at 1:5"),
    ("\"a\" < \"b\"", "", "fault NoMethod at 1:5"),
    ("nil.foo", "", "fault NoMethod at 1:5"),
    ("nil + 1", "", "fault NoMethod at 1:5"),
    ("1.foo(2)", "", "fault NoMethod at 1:3"),
    ("1.length", "", "fault NoMethod at 1:3"),
    ("x = 3\nx[0]", "", "fault NoMethod at 2:2"),
    ("x = 3\nx.y = 4", "", "fault NoMethod at 2:5"),
    (
        "x = \"ab\"\nx.length += (puts 1)",
        "1\n",
        "fault TypeMismatch at 2:10",
    ),
    ("1.to_s(2)", "", "fault ArgumentCount at 1:3"),
    ("\"a\".length(1)", "", "fault ArgumentCount at 1:5"),
    ("3.times", "", "fault ArgumentCount at 1:3"),
    (
        "3.times { |a, b| puts a }",
        "",
        "fault ArgumentCount at 1:3",
    ),
    ("1.upto { |a| puts a }", "", "fault ArgumentCount at 1:3"),
    (
        "1.upto(\"3\") { |a| puts a }",
        "",
        "fault TypeMismatch at 1:3",
    ),
    ("\"a\".times { |i| puts i }", "", "fault NoMethod at 1:5"),
];

/// Methods of the script.
const METHODS: [Row; 15] = [
    (
        "def sum(n)\n  if n == 0 then 0 else n + sum(n - 1) end\nend\nputs sum(300)",
        "45150\n",
        "",
    ),
    (
        "def f(n)\n  f(n + 1)\nend\nf(0)",
        "",
        "fault TooDeep at 2:5",
    ),
    ("def f(a)\nend\nf", "", "fault ArgumentCount at 3:1"),
    (
        "def f\nend\nputs 1\nf(puts(2))",
        "1\n2\n",
        "fault ArgumentCount at 4:1",
    ),
    ("def f\nend\np f", "nil\n", ""),
    (
        "def f(a, b, c)\n  a * 100 + b * 10 + c\nend\nputs f(1, 2, 3)",
        "123\n",
        "",
    ),
    (
        "def f(n)\n  return \"none\" if n < 0\n  return if n == 0\n  n\nend\np f(-1)\np f(0)\np f(5)",
        "\"none\"\nnil\n5\n",
        "",
    ),
    (
        "def f\n  10.times { |i| return i if i * i > 20 }\n  99\nend\nputs f",
        "5\n",
        "",
    ),
    (
        "def f\n  i = 0\n  while true\n    i += 1\n    return i if i == 7\n  end\nend\nputs f",
        "7\n",
        "",
    ),
    (
        "def a(x)\n  puts \"a\"\n  x\nend\ndef b(x)\n  puts \"b\"\n  x\nend\nputs a(1) + b(2) * a(3)",
        "a\nb\na\n7\n",
        "",
    ),
    (
        "def even(n)\n  n == 0 ? true : odd(n - 1)\nend\ndef odd(n)\n  n == 0 ? false : even(n - 1)\nend\nputs even(10), odd(7), even(3)",
        "true\ntrue\nfalse\n",
        "",
    ),
    (
        "def puts_twice(x)\n  puts x, x\nend\nputs_twice 4",
        "4\n4\n",
        "",
    ),
    (
        "def f(x)\n  x = x + 1\n  y = x\n  y\nend\nx = 1\nputs f(5), x",
        "6\n1\n",
        "",
    ),
    (
        "def f(n)\n  n == 0 || f(n - 1)\nend\nf(498)\nputs 1",
        "1\n",
        "",
    ),
    (
        "def f(n)\n  n == 0 || f(n - 1)\nend\nf(499)\nputs 1",
        "",
        "fault TooDeep at 2:15",
    ),
];

/// Branches and loops.
const FLOW: [Row; 11] = [
    ("x = 1 if false\np x", "nil\n", ""),
    (
        "i = 0\nwhile i < 3\n  puts i\n  i += 1\nend",
        "0\n1\n2\n",
        "",
    ),
    (
        "i = 3\nuntil i == 0\n  print i\n  i -= 1\nend\nputs",
        "321\n",
        "",
    ),
    (
        "i = 0\nwhile true\n  i += 1\n  next if i % 2 == 0\n  break if i > 7\n  print i, \" \"\nend\nputs",
        "1 3 5 7 \n",
        "",
    ),
    (
        "i = 0\nwhile i < 2\n  j = 0\n  while true\n    break if j == 2\n    puts i * 10 + j\n    j += 1\n  end\n  i += 1\nend",
        "0\n1\n10\n11\n",
        "",
    ),
    ("x = (1 if false)\np x", "nil\n", ""),
    (
        "puts (if 1 > 2 then 3 elsif nil then 4 else 5 end)",
        "5\n",
        "",
    ),
    ("x = unless true then 1 else 2 end\nputs x", "2\n", ""),
    (
        "puts 1 unless false\nputs 2 if nil\nputs 3 while false",
        "1\n",
        "",
    ),
    ("x = 4\nputs x > 3 ? \"big\" : \"small\"", "big\n", ""),
    ("i = 10\ni -= 1 while i > 5\nputs i", "5\n", ""),
];

/// Blocks.
const BLOCKS: [Row; 11] = [
    ("3.times { |i| print i }\nputs", "012\n", ""),
    ("puts 3.times { |i| 9 }", "3\n", ""),
    (
        "2.upto(4) { |i| print i }\nputs 2.upto(1) { |i| print i }",
        "2342\n",
        "",
    ),
    (
        "s = 0\n10.times { |i| next if i == 3\n break if i == 6\n s += i }\nputs s",
        "12\n",
        "",
    ),
    ("p 5.times { |i| break }", "nil\n", ""),
    (
        "s = 0\n3.times { |i| 3.times { |j| s += i * j } }\nputs s",
        "9\n",
        "",
    ),
    (
        "2.times do |i|\n  y = 1 if i == 0\n  p y\nend",
        "1\nnil\n",
        "",
    ),
    ("x = 0\n2.times { x = 2 }\nputs x", "2\n", ""),
    ("3.times { |i| i = 7\n print i }\nputs", "777\n", ""),
    (
        "2.times do |i|\n  2.times do |j|\n    next if j == 1\n    puts i + j\n  end\nend",
        "0\n1\n",
        "",
    ),
    ("puts 0.times { |i| puts i }", "0\n", ""),
];

/// How tightly operators, commands and choices bind.
const BINDING: [Row; 10] = [
    (
        "puts 6 % -3, 6 / -3, 5 - -1, 2 * 3 % 4 == 2",
        "0\n-2\n6\ntrue\n",
        "",
    ),
    (
        "puts 2 < 2, 2 <= 2, 2 > 2, 3 > 2, 2 >= 3",
        "false\ntrue\nfalse\ntrue\nfalse\n",
        "",
    ),
    (
        "puts \"ab\" == \"abc\", :a == :b, nil == nil, 1 == 2",
        "false\nfalse\ntrue\nfalse\n",
        "",
    ),
    (
        "p !1 == 2, true || nil && nil, nil && nil || 3",
        "false\ntrue\n3\n",
        "",
    ),
    (
        "p 1 ? 2 : 3 ? 4 : 5\np nil ? 2 : nil ? 4 : 5\np 1 ? nil ? 3 : 4 : 5",
        "2\n5\n4\n",
        "",
    ),
    ("p [] << 1 + 2\np -2.to_s", "[3]\n\"-2\"\n", ""),
    (
        "a = 5\np a -1\nputs (1) + 2\nx = 1\np((x = 2) + x)",
        "4\n3\n4\n",
        "",
    ),
    ("puts(1) + 2", "1\n", "fault NoMethod at 1:9"),
    (
        "p \"#{1 if \"a\"}\", [1, [2],\n], { a: 1, \"b\" => 2, }",
        "\"1\"\n[1, [2]]\n{:a=>1, \"b\"=>2}\n",
        "",
    ),
    ("p '\u{e9}\r'", "\"\u{e9}\r\"\n", ""),
];

/// Where locals and methods are known.
const SCOPES: [Row; 7] = [
    ("x = 1 if false\n3.times { x = 2 }\np x", "2\n", ""),
    ("3.times { x = 2 }\nx = 1\np x", "1\n", ""),
    (
        "2.times { x = 1 }\n2.times { y = 1; z = 2; p y + z }",
        "3\n3\n",
        "",
    ),
    ("x = 5\n2.times { |x| puts x }\nputs x", "0\n1\n5\n", ""),
    (
        "def f(n)\n  n.times { |i| n.upto(9) { |j| return i + j } }\nend\np f(4)",
        "4\n",
        "",
    ),
    (
        "class A\n  def f\n    2\n  end\n  def g\n    f\n  end\nend\ndef f\n  1\nend\nputs A.new.g, f",
        "2\n1\n",
        "",
    ),
    (
        "class A\n  def puts(x)\n    x\n  end\n  def g\n    puts 1\n  end\nend\np A.new.g",
        "1\n",
        "",
    ),
];

/// Assignments with operators.
const ASSIGNMENTS: [Row; 6] = [
    (
        "a = 7\na += 1\na -= 2\na *= 5\na /= 4\na %= 5\nputs a",
        "2\n",
        "",
    ),
    (
        "a = nil\na ||= 3\na ||= (puts 9)\na &&= a + 1\nputs a",
        "4\n",
        "",
    ),
    ("a = false\na &&= (puts 9)\np a", "false\n", ""),
    ("s = \"a\"\ns += \"b\"\nputs s", "ab\n", ""),
    (
        "a = 9223372036854775807\na += 1",
        "",
        "fault IntegerOverflow at 2:3",
    ),
    ("a += 1", "", "fault NoMethod at 1:3"),
];

/// Texts and prints.
const TEXTS: [Row; 15] = [
    (
        "puts \"a\" + \"b\", \"abc\".length, \"é\".length",
        "ab\n3\n1\n",
        "",
    ),
    (
        "x = 2\nputs \"x is #{x} and #{x * x}, #{nil}#{true}#{:s}\"",
        "x is 2 and 4, trues\n",
        "",
    ),
    (
        "puts \"a\\tb\\\"c\\\\d\\#{e}\\n\", 'it\\'s \\n \\\\'",
        "a\tb\"c\\d#{e}\nit's \\n \\\n",
        "",
    ),
    ("puts \"line\\n\", \"\", \"x\\n\\n\"", "line\n\nx\n\n", ""),
    ("print \"a\", 1, nil, :b, true\nputs", "a1btrue\n", ""),
    (
        "p \"a\\n\\t\\\"\\\\\"\np 'a#b'\np '#{x}'\np '#$x #@y'",
        "\"a\\n\\t\\\"\\\\\"\n\"a#b\"\n\"\\#{x}\"\n\"\\#$x \\#@y\"\n",
        "",
    ),
    ("p :a\np 1\np true\nputs :a", ":a\n1\ntrue\na\n", ""),
    ("puts", "\n", ""),
    ("print\nprint \"\"\np", "", ""),
    (
        "def f\n  puts 1\n  2\nend\nputs \"a#{f}b#{f}\"",
        "1\n1\na2b2\n",
        "",
    ),
    ("s = \"ab\"\nt = s\ns += \"c\"\nputs s, t", "abc\nab\n", ""),
    ("puts \"#{\"in #{1 + 1} side\"}\"", "in 2 side\n", ""),
    ("def puts(x)\n  print x, \"!\"\nend\nputs 3", "3!", ""),
    ("a = 6; puts a * 7 # comment", "42\n", ""),
    ("", "", ""),
];

/// Texts as long as a text may be.
const LONG_TEXTS: [Row; 2] = [
    (
        "s = \"0123456789abcdef\"\n20.times { s = s + s }\nputs s.length\nt = s + \"x\"",
        "16777216\n",
        "fault TextTooLong at 4:7",
    ),
    (
        "s = \"0123456789abcdef\"\n20.times { s = s + s }\nt = \"#{s}x\"",
        "",
        "fault TextTooLong at 3:5",
    ),
];

/// Arrays as long as an array may be.
const LONG_ARRAYS: [Row; 2] = [
    (
        "a = Array.new(16777216, 0)\nputs a.length\na << 1",
        "16777216\n",
        "fault ArrayTooLong at 3:3",
    ),
    (
        "a = []\na[16777215] = 1\nputs a.length\na.unshift(1)",
        "16777216\n",
        "fault ArrayTooLong at 4:3",
    ),
];

/// Arrays and hashes inside each other, as deep as their texts may be, and one deeper.
const NESTED: [Row; 6] = [
    (
        "a = []\n996.times { a = [a] }\nputs a.to_s.length",
        "1994\n",
        "",
    ),
    (
        "a = []\n997.times { a = [a] }\nputs a.to_s.length",
        "",
        "fault TooDeep at 3:8",
    ),
    (
        "h = {}\n997.times { h = { 1 => h } }\ns = h.inspect\nputs s.length",
        "4987\n",
        "",
    ),
    (
        "h = {}\n998.times { h = { 1 => h } }\ns = h.inspect\nputs s.length",
        "",
        "fault TooDeep at 3:7",
    ),
    ("a = [1]\n998.times { a = [a] }\nputs a", "1\n", ""),
    (
        "a = [1]\n999.times { a = [a] }\nputs a",
        "",
        "fault TooDeep at 3:1",
    ),
];

/// The line on standard error, whole.
fn line_of(alloc: Global, said: &str) -> Result<String, AllocError> {
    if said.is_empty() {
        return Ok(String::new(alloc));
    }
    format!(in alloc; "rbso: {said}\n")
}

/// Runs each script of a table.
pub(super) fn all_hold<R: Abort + Threads + Wait + Sync>(
    rt: &R,
    alloc: Global,
    rows: &[Row],
) -> Result<(), Fail> {
    for (source, output, said) in rows {
        let Outcome { report, err } = ran_source(rt, alloc, source.as_bytes())?;
        let line = line_of(alloc, said)?;
        let status = if said.is_empty() { 0 } else { 1 };
        assert_eq!(rt; report.out.bytes(), output.as_bytes(), "{source}");
        assert_eq!(rt; err.bytes(), line.as_bytes(), "{source}");
        assert_eq!(rt; report.status, status, "{source}");
        assert!(rt; report.front.is_some(), "{source}");
        assert!(rt; report.exit_code() == ExitCode::from(status), "{source}");
    }
    Ok(())
}

#[test]
fn scripts_print_what_they_should_and_end_so(rt: HostRuntime) -> Result<(), Fail> {
    let tables: [&[Row]; 9] = [
        &SUMS,
        &COMPARISONS,
        &BINDING,
        &SCOPES,
        &METHODS,
        &FLOW,
        &BLOCKS,
        &ASSIGNMENTS,
        &TEXTS,
    ];
    for rows in tables {
        all_hold(&rt, rt.alloc(), rows)?;
    }
    Ok(())
}

#[test]
fn scripts_with_classes_and_mutexes_print_what_they_should_and_end_so(
    rt: HostRuntime,
) -> Result<(), Fail> {
    let tables: [&[Row]; 5] = [
        &classes::CLASSES,
        &classes::ATTRIBUTES,
        &objects::OBJECTS,
        &object_texts::OBJECT_TEXTS,
        &mutexes::MUTEXES,
    ];
    for rows in tables {
        all_hold(&rt, rt.alloc(), rows)?;
    }
    Ok(())
}

#[test]
fn scripts_with_arrays_and_hashes_print_what_they_should_and_end_so(
    rt: HostRuntime,
) -> Result<(), Fail> {
    let tables: [&[Row]; 4] = [
        &collections::ARRAYS,
        &collections::ARRAY_BLOCKS,
        &collections::HASHES,
        &collections::COLLECTION_FAULTS,
    ];
    for rows in tables {
        all_hold(&rt, rt.alloc(), rows)?;
    }
    Ok(())
}

#[test]
fn an_array_has_at_most_16777216_elements(rt: HostRuntime) -> Result<(), Fail> {
    all_hold(&rt, rt.alloc(), &LONG_ARRAYS)
}

#[test]
fn texts_of_collections_are_at_most_1000_deep(rt: HostRuntime) -> Result<(), Fail> {
    all_hold(&rt, rt.alloc(), &NESTED)
}

#[test]
fn a_text_has_at_most_16777216_bytes(rt: HostRuntime) -> Result<(), Fail> {
    all_hold(&rt, rt.alloc(), &LONG_TEXTS)
}

/// A script, the steps that it makes in all, and what it has printed where it may make one less.
const COUNTED: [(&str, u32, &str); 19] = [
    ("puts 1", 2, ""),
    ("puts 1\nputs 2", 4, "1\n"),
    ("a = 6\nputs a * 7", 6, ""),
    ("3.times { |i| i }", 8, ""),
    ("i = 0\nwhile i < 2\n  i += 1\nend", 16, ""),
    ("def f(x)\n  x\nend\nputs f(2)", 4, ""),
    ("puts \"a#{1}b\"", 3, ""),
    ("nil && puts(1)\n1 || puts(1)", 4, ""),
    ("p [1, 2]", 6, ""),
    ("puts [1, [2]]", 8, ""),
    ("[1, 2].each { |v| v }", 8, ""),
    ("{ a: 1 }.each { |k, v| v }", 6, ""),
    ("a = [3]\na[0] += 1\na << 4", 10, ""),
    ("a = []\na[1] = 2\np a.map { |v| v }", 15, ""),
    ("class Foo\nend\nputs 1\nFoo.new", 3, "1\n"),
    (
        "class Foo\n  def initialize(n)\n    @n = n\n  end\nend\nputs 1\nFoo.new(1)",
        6,
        "1\n",
    ),
    (
        "class Foo\n  def to_s\n    \"foo\"\n  end\nend\nputs 1\nputs Foo.new",
        5,
        "1\n",
    ),
    (
        "class Foo\n  def to_s\n    \"foo\"\n  end\nend\nx = Foo.new\nputs x\n\"a#{x}\"",
        8,
        "foo\n",
    ),
    (
        "class Foo\n  attr_accessor :n\nend\nx = Foo.new\nx.n ||= 5\nputs x.n",
        12,
        "",
    ),
];

/// A run of a source with so many steps.
fn ran_with<R: Threads + Wait + Sync>(
    rt: &R,
    alloc: Global,
    source: &str,
    steps: u32,
) -> Result<Outcome, Fail> {
    let mut files = script(alloc, source.as_bytes(), Vec::new(alloc))?;
    let option = format!(in alloc; "--steps={steps}")?;
    let words = ["run", option.as_str(), "a.rb"];
    ran(rt, alloc, &words, &mut files, Vec::new(alloc))
}

#[test]
fn a_script_may_make_just_the_steps_that_it_needs(rt: HostRuntime) -> Result<(), Fail> {
    let alloc = rt.alloc();
    for (source, steps, printed) in COUNTED {
        let Outcome { report, err } = ran_with(&rt, alloc, source, steps)?;
        assert_eq!(rt; report.status, 0, "{source}");
        assert!(rt; err.bytes().is_empty(), "{source}");
        let fewer = steps - 1;
        let Outcome { report, err } = ran_with(&rt, alloc, source, fewer)?;
        let line = format!(in alloc; "rbso: steps {fewer}\n")?;
        assert_eq!(rt; report.status, 6, "{source}");
        assert_eq!(rt; report.out.bytes(), printed.as_bytes(), "{source}");
        assert_eq!(rt; err.bytes(), line.as_bytes(), "{source}");
    }
    Ok(())
}

#[test]
fn a_loop_without_end_runs_out_of_steps(rt: HostRuntime) -> Result<(), Fail> {
    let Outcome { report, err } = ran_with(&rt, rt.alloc(), "while true\nend", 1000)?;
    assert_eq!(rt; report.status, 6);
    assert_eq!(rt; err.bytes(), b"rbso: steps 1000\n".as_slice());
    Ok(())
}
