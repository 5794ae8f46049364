// What `shapes` writes behind what a script prints.

mod many;

use super::{Outcome, examples, ran, script};
use std::alloc::Global;
use std::sync::Wait;
use std::test::Fail;
use std::thread::Threads;

/// A script, what it prints, and the lines of its shapes.
type Row = (&'static str, &'static str, &'static str);

/// Two fields, of which one is first an integer and then a text.
const FOO: &str =
    "class Foo\n  attr_reader :x, :y\n  def initialize\n    @x = 1\n  end\n  def set\n    @x = \"a\"\n  end\nend\nf = Foo.new\nputs f.x\nf.set\nputs f.x\nputs f.y";

/// Scripts that end with a value.
const ENDED: [Row; 18] = [
    (
        examples::SHAPES,
        examples::SHAPES_PRINT,
        "Point\nPoint @x=0i\nPoint @x=0i @y=1i\nPoint @x=0i @y=1i @name=2a\nPoint @x=2a @y=1i\nSize\nSize @wide=0i\nSize @wide=0i @high=1i\nSize @high=0i\nSize @high=0i @wide=1i\n",
    ),
    (FOO, "1\na\n\n", "Foo\nFoo @x=0i\nFoo @x=1a\n"),
    // Nothing has a shape but objects.
    ("", "", ""),
    ("puts 1", "1\n", ""),
    ("x = \"a\"\ny = :b\nputs x", "a\n", ""),
    (
        "class Foo\n  def set\n    @x = 1\n  end\nend\nputs 1",
        "1\n",
        "",
    ),
    // A shape is there once, whoever has it.
    ("class Foo\nend\nFoo.new\nFoo.new", "", "Foo\n"),
    ("class Foo\n  attr_reader :x\nend\nFoo.new.x", "", "Foo\n"),
    // The order in which names are added makes the path.
    (
        "class A\n  def initialize\n    @x = 1\n    @y = \"s\"\n  end\nend\nclass B\n  def initialize\n    @y = \"s\"\n    @x = 1\n  end\nend\nA.new\nB.new",
        "",
        "A\nA @x=0i\nA @x=0i @y=1a\nB\nB @y=0a\nB @y=0a @x=1i\n",
    ),
    (
        "class B\n  attr_accessor :x, :y\nend\nclass A\nend\np = B.new\nq = B.new\nq.y = 1\nA.new\np.x = 1\np.y = 2\nq.x = 2\nr = B.new\nr.x = 7",
        "",
        "B\nB @y=0i\nA\nB @x=0i\nB @x=0i @y=1i\nB @y=0i @x=1i\n",
    ),
    // A name that is widened moves to a new place, and keeps its turn.
    (
        "class P\n  attr_accessor :x, :y, :z\nend\np = P.new\np.x = 1\np.y = 2\np.x = \"a\"\np.z = 3\np.y = nil\np.x = 5\np.z = 6",
        "",
        "P\nP @x=0i\nP @x=0i @y=1i\nP @x=2a @y=1i\nP @x=2a @y=1i @z=3i\nP @x=2a @y=4a @z=3i\n",
    ),
    // Only integers have a place for integers alone, and each of them has.
    (
        "class P\n  attr_accessor :a, :b, :c, :d, :e\nend\np = P.new\np.a = nil\np.b = true\np.c = :d\np.d = p\np.e = \"e\"",
        "",
        "P\nP @a=0a\nP @a=0a @b=1a\nP @a=0a @b=1a @c=2a\nP @a=0a @b=1a @c=2a @d=3a\nP @a=0a @b=1a @c=2a @d=3a @e=4a\n",
    ),
    (
        "class P\n  attr_accessor :a\nend\np = P.new\np.a = 9223372036854775807\np.a = -9223372036854775807 - 1\np.a += 1",
        "",
        "P\nP @a=0i\n",
    ),
    // A widened place stays one for any value.
    (
        "class P\n  attr_accessor :a\nend\np = P.new\np.a = 1\np.a = nil\np.a = 1\nq = P.new\nq.a = 2\nq.a = false",
        "",
        "P\nP @a=0i\nP @a=1a\n",
    ),
    // To read a name adds none.
    (
        "class P\n  attr_accessor :a, :b\nend\nq = P.new\np q.a\np q.b\nq.b ||= 1\nq.b ||= \"s\"\np q",
        "nil\nnil\n#<P>\n",
        "P\nP @b=0i\n",
    ),
    // An object that cannot be reached any more has had its shapes all the same.
    (
        "class P\n  attr_accessor :a\nend\n3.times { |i| P.new.a = i }",
        "",
        "P\nP @a=0i\n",
    ),
    // A shape is there from `new` on, before `initialize` runs.
    (
        "class A\n  def initialize\n    B.new\n    @a = 1\n  end\nend\nclass B\n  def initialize\n    @b = 1\n  end\nend\nA.new",
        "",
        "A\nB\nB @b=0i\nA @a=0i\n",
    ),
    // Names as they are written.
    (
        "class Long_Name2\n  def initialize\n    @_a1 = 1\n    @aB = 2\n  end\nend\nLong_Name2.new",
        "",
        "Long_Name2\nLong_Name2 @_a1=0i\nLong_Name2 @_a1=0i @aB=1i\n",
    ),
];

/// A command over a script, with options and with writes to `out` that fail at the listed numbers.
fn ran_command<R: Threads + Wait + Sync>(
    rt: &R,
    alloc: Global,
    words: &[&str],
    source: &str,
    failing: Vec<u64>,
) -> Result<Outcome, Fail> {
    let mut files = script(alloc, source.as_bytes(), Vec::new(alloc))?;
    ran(rt, alloc, words, &mut files, failing)
}

#[test]
fn the_lines_follow_what_is_printed(rt: HostRuntime) -> Result<(), Fail> {
    let alloc = rt.alloc();
    for (source, printed, lines) in ENDED {
        let plain = ran_command(&rt, alloc, &["run", "a.rb"], source, Vec::new(alloc))?;
        assert_eq!(rt; plain.report.out.bytes(), printed.as_bytes(), "{source}");
        let shown = ran_command(&rt, alloc, &["shapes", "a.rb"], source, Vec::new(alloc))?;
        let all = format!(in alloc; "{printed}{lines}")?;
        assert_eq!(rt; shown.report.out.bytes(), all.as_bytes(), "{source}");
        for Outcome { report, err } in [plain, shown] {
            assert_eq!(rt; report.status, 0, "{source}");
            assert!(rt; err.bytes().is_empty(), "{source}");
            assert!(rt; report.front.is_some(), "{source}");
        }
    }
    Ok(())
}

/// Words and a script, with the status, what is printed, and what standard error says: no line of a shape.
const OTHERWISE: [(&[&str], &str, u8, &str, &str); 9] = [
    (
        &["shapes", "a.rb"],
        "class Foo\nend\nFoo.new\nputs 1\n1 / 0",
        1,
        "1\n",
        "rbso: fault ZeroDivision at 5:3\n",
    ),
    // No option stands beside the FILE.
    (
        &["shapes", "--steps", "4", "a.rb"],
        "puts 1",
        2,
        "",
        "rbso: usage\n",
    ),
    (
        &["shapes", "a.rb", "--heap-words=4096"],
        "puts 1",
        2,
        "",
        "rbso: usage\n",
    ),
    (
        &["shapes", "a.rb"],
        "foo",
        3,
        "",
        "rbso: refused 9 UnknownName at 1:1\n",
    ),
    (
        &["shapes", "b.rb"],
        "puts 1",
        4,
        "",
        "rbso: source missing\n",
    ),
    (&["shapes"], "puts 1", 2, "", "rbso: usage\n"),
    (
        &["shapes", "a.rb", "b.rb"],
        "puts 1",
        2,
        "",
        "rbso: usage\n",
    ),
    (&["shape", "a.rb"], "puts 1", 2, "", "rbso: usage\n"),
    (&["run", "shapes", "a.rb"], "puts 1", 2, "", "rbso: usage\n"),
];

#[test]
fn what_ends_otherwise_has_no_lines(rt: HostRuntime) -> Result<(), Fail> {
    let alloc = rt.alloc();
    for (words, source, status, printed, said) in OTHERWISE {
        let Outcome { report, err } = ran_command(&rt, alloc, words, source, Vec::new(alloc))?;
        assert_eq!(rt; report.status, status, "{source}");
        assert_eq!(rt; report.out.bytes(), printed.as_bytes(), "{source}");
        assert_eq!(rt; err.bytes(), said.as_bytes(), "{source}");
    }
    Ok(())
}

/// The number of the write that fails, with what was written before it.
const FAILING: [(u64, &str, u8, &str); 7] = [
    (1, "", 5, "rbso: sink failed\n"),
    (3, "1\na\n", 5, "rbso: sink failed\n"),
    (4, "1\na\n\n", 5, "rbso: sink failed\n"),
    (5, "1\na\n\nFoo\n", 5, "rbso: sink failed\n"),
    (6, "1\na\n\nFoo\nFoo @x=0i\n", 5, "rbso: sink failed\n"),
    (7, "1\na\n\nFoo\nFoo @x=0i\nFoo @x=1a\n", 0, ""),
    (0, "1\na\n\nFoo\nFoo @x=0i\nFoo @x=1a\n", 0, ""),
];

#[test]
fn each_line_is_one_write(rt: HostRuntime) -> Result<(), Fail> {
    let alloc = rt.alloc();
    for (failing, written, status, said) in FAILING {
        let failing = vec![in alloc; failing]?;
        let Outcome { report, err } = ran_command(&rt, alloc, &["shapes", "a.rb"], FOO, failing)?;
        assert_eq!(rt; report.status, status);
        assert_eq!(rt; report.out.bytes(), written.as_bytes());
        assert_eq!(rt; err.bytes(), said.as_bytes());
        assert!(rt; report.front.is_some());
    }
    Ok(())
}
