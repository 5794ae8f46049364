// Scripts with threads and global variables, whose output is the same in every order of their threads' steps.

use super::super::{Outcome, ran, script};
use super::{Row, all_hold};
use std::alloc::Global;
use std::sync::Wait;
use std::test::Fail;
use std::thread::Threads;

/// Threads, what they give and are given, and global variables.
const THREADS: [Row; 22] = [
    // Global variables.
    ("puts $a", "\n", ""),
    ("$a = 1\n$a += 2\n$b ||= $a\nputs $a, $b", "3\n3\n", ""),
    ("def f\n  $a = 5\nend\nf\nputs $a", "5\n", ""),
    // What a thread gives, and what it is given.
    ("$x = 5\nputs Thread.new { $x + 1 }.value", "6\n", ""),
    (
        "a = 1\nt = Thread.new(2, \"c\") { |b, c| \"#{a}#{b}#{c}\" }\nputs t.value",
        "12c\n",
        "",
    ),
    (
        "t = Thread.new { nil }\np t.value\np Thread.new { :a }.value\np Thread.new { false }.value",
        "nil\n:a\nfalse\n",
        "",
    ),
    (
        "t = Thread.new { Thread.new { 7 }.value + 1 }\nt.join\nt.join\nputs t.value",
        "8\n",
        "",
    ),
    // Whoever joins a thread sees all that it did.
    (
        "$n = 0\nt = Thread.new { 100.times { $n += 1 } }\nt.join\nputs $n",
        "100\n",
        "",
    ),
    ("Thread.new { puts 1 }.join\nputs 2", "1\n2\n", ""),
    (
        "$a = 0\n$b = 0\nt = Thread.new { 50.times { $a += 1 } }\nu = Thread.new { 50.times { $b += 1 } }\nt.join\nu.join\nputs $a + $b",
        "100\n",
        "",
    ),
    (
        "$n = 0\n1000.times { |i| Thread.new { $n += i }.join }\nputs $n",
        "499500\n",
        "",
    ),
    // A thread that ends takes over the threads that it started, joined or not, and two may join one thread.
    (
        "$a = 0\n$b = 0\nt = Thread.new do\n  Thread.new { $a = 1 }\n  Thread.new { $b = 2 }\n  nil\nend\nt.join\nputs $a + $b",
        "3\n",
        "",
    ),
    (
        "$t = Thread.new { 5 }\nu = Thread.new { $t.value + 1 }\nv = Thread.new { $t.value + 2 }\nputs u.value + v.value + $t.value",
        "18\n",
        "",
    ),
    // Threads inside each other, as many as there may be, and one more.
    (
        "def f(n)\n  if n == 0\n    0\n  else\n    Thread.new { f(n - 1) }.value + 1\n  end\nend\nputs f(15)",
        "15\n",
        "",
    ),
    (
        "def f(n)\n  if n == 0\n    0\n  else\n    Thread.new { f(n - 1) }.value + 1\n  end\nend\nputs f(16)",
        "",
        "fault ThreadLimit at 5:12",
    ),
    // Fifteen threads beside the main one, and a sixteenth.
    ("15.times { Thread.new { 1 } }\nputs 1", "1\n", ""),
    (
        "16.times { Thread.new { 1 } }",
        "",
        "fault ThreadLimit at 1:19",
    ),
    // A fault goes over to whoever joins, and to nobody else.
    (
        "Thread.new { 1 / 0 }.join",
        "",
        "fault ZeroDivision at 1:16",
    ),
    ("Thread.new { 1 / 0 }\nputs 1", "1\n", ""),
    (
        "$t = Thread.new do\n  while $t == nil\n  end\n  $t.join\nend\n$t.join",
        "",
        "fault JoinSelf at 4:6",
    ),
    (
        "def f(n)\n  f(n + 1)\nend\nThread.new { f(0) }.join",
        "",
        "fault TooDeep at 2:5",
    ),
    (
        "t = Thread.new { Thread.new { 1 / 0 }.value }\nu = Thread.new { t.value }\nputs 1\nu.join",
        "1\n",
        "fault ZeroDivision at 1:33",
    ),
];

/// Things that go from one thread to another, with the call that hands them over.
const THINGS: [Row; 36] = [
    // Global variables hold things, also where no thread is.
    ("$g = [1, 2]\n$g << 3\np $g", "[1, 2, 3]\n", ""),
    (
        "$g = [1]\n$g[0] += 1\nh = $g\nh << $g\np h, h == $g",
        "[2, [...]]\ntrue\n",
        "",
    ),
    (
        "a = [1]\n$b = [a, a]\na << 2\np $b",
        "[[1, 2], [1, 2]]\n",
        "",
    ),
    (
        "$g = [3, 1]\ns = 0\n$g.each { |v| s += v }\np s, $g.map { |v| v * s }, $g.select { |v| v > 1 }\nputs $g",
        "4\n[12, 4]\n[3]\n3\n1\n",
        "",
    ),
    (
        "$h = { b: 1 }\n$h[:a] = [2]\n$h[:b] += 3\n$h.each { |k, v| puts \"#{k} #{v}\" }\np $h.keys, $h.values, $h.key?(:c), $h.delete(:b), $h",
        "b 4\na [2]\n[:b, :a]\n[4, [2]]\nfalse\n4\n{:a=>[2]}\n",
        "",
    ),
    (
        "class Foo\n  def initialize(n)\n    @n = n\n  end\n  def to_s\n    \"foo #{@n}\"\n  end\nend\n$o = Foo.new([1])\nputs $o, \"#{$o}!\"\np $o",
        "foo [1]\nfoo [1]!\n#<Foo>\n",
        "",
    ),
    ("$a = []\nx = []\nputs $a == x", "", "fault NoMethod at 3:9"),
    ("$a = [1]\n$a[-2] = 0", "", "fault IndexTooSmall at 2:8"),
    ("$h = {}\n$h[[1]] = 2", "", "fault BadKey at 2:9"),
    // Many threads change one thing, each under its mutex.
    (
        "$a = []\n$m = Mutex.new\nt = Thread.new { 100.times { |i| $m.synchronize { $a << i } } }\nu = Thread.new { 100.times { |i| $m.synchronize { $a << i } } }\nt.join\nu.join\ns = 0\n$a.each { |v| s += v }\nputs $a.length, s",
        "200\n9900\n",
        "",
    ),
    (
        "$h = {}\n$m = Mutex.new\ndef count(n)\n  $m.synchronize do\n    $h[n] ||= 0\n    $h[n] += 1\n  end\nend\nt = Thread.new { 50.times { |i| count(i % 3) } }\nu = Thread.new { 50.times { |i| count(i % 3) } }\nt.join\nu.join\np $h",
        "{0=>34, 1=>34, 2=>32}\n",
        "",
    ),
    (
        "m = Mutex.new\na = [0]\nts = Array.new(4, nil).map { Thread.new(a, m) { |b, l| 25.times { l.synchronize { b[0] += 1 } } } }\nts.each { |t| t.join }\np a",
        "[100]\n",
        "",
    ),
    (
        "class Counter\n  attr_reader :n\n  def initialize\n    @n = 0\n    @lock = Mutex.new\n  end\n  def add\n    @lock.synchronize { @n += 1 }\n  end\n  def run\n    t = Thread.new { 20.times { add } }\n    20.times { add }\n    t.join\n    @n\n  end\nend\nputs Counter.new.run",
        "40\n",
        "",
    ),
    // A mutex has one owner among all threads, and none behind the end of its owner.
    (
        "$m = Mutex.new\n$n = 0\n$m.lock\nt = Thread.new do\n  $m.lock\n  $n = 2\n  $m.unlock\nend\n$n = 1\n$m.unlock\nt.join\nputs $n",
        "2\n",
        "",
    ),
    (
        "$m = Mutex.new\n$m.lock\n$m.lock",
        "",
        "fault LockOwned at 3:4",
    ),
    (
        "m = Mutex.new\nt = Thread.new { m.lock\n m.lock }\nt.join",
        "",
        "fault LockOwned at 3:4",
    ),
    (
        "m = Mutex.new\nm.lock\nThread.new { m.unlock }.join",
        "",
        "fault UnlockForeign at 3:16",
    ),
    (
        "$m = Mutex.new\nt = Thread.new { $m.lock }\nt.join\n$m.unlock",
        "",
        "fault UnlockForeign at 4:4",
    ),
    (
        "m = Mutex.new\nThread.new { m.lock }.join\nm.lock\nputs m",
        "#<Mutex>\n",
        "",
    ),
    (
        "m = Mutex.new\nm.lock\na = [m]\nt = Thread.new(a) do |b|\n  b[0].lock\n  b << 2\n  b[0].unlock\nend\na << 1\nm.unlock\nt.join\np a[1], a[2], a.length",
        "1\n2\n3\n",
        "",
    ),
    // A thing goes to a thread as an argument or a captured local, with all that it reaches, and is one and the same there.
    (
        "class Point\n  attr_accessor :x, :y\nend\na = Point.new\na.x = 1\nt = Thread.new(a) { |b| b.x += 1\n b.y = \"two\" }\nt.join\nputs a.x, a.y",
        "2\ntwo\n",
        "",
    ),
    (
        "a = [{ 1 => [2, 3] }, { 4 => [5] }]\nt = Thread.new(a) { |b| b[0][1] << 6\n b[1][:all] = b\n b.length }\np t.value, a",
        "2\n[{1=>[2, 3, 6]}, {4=>[5], :all=>[...]}]\n",
        "",
    ),
    (
        "class Box\n  attr_accessor :held\nend\nb = Box.new\na = [b]\nb.held = a\nt = Thread.new(a) { |c| c[0].held == c }\np t.value, b.held == a, a",
        "true\ntrue\n[#<Box>]\n",
        "",
    ),
    (
        "a = [1, 2]\nb = { x: a }\nt = Thread.new { a << 3\n b[:x].length }\np t.value, b",
        "3\n{:x=>[1, 2, 3]}\n",
        "",
    ),
    (
        "class Cell\n  attr_reader :value, :rest\n  def initialize(value, behind)\n    @value = value\n    @rest = behind\n  end\nend\nlist = nil\n100.times { |i| list = Cell.new(i, list) }\nt = Thread.new(list) do |cell|\n  sum = 0\n  while cell\n    sum += cell.value\n    cell = cell.rest\n  end\n  sum\nend\nputs t.value",
        "4950\n",
        "",
    ),
    // So it does however it is stored.
    (
        "class Foo\n  attr_accessor :x, :y, :z, :w\nend\no = Foo.new\no.x = 1\no.x = \"a\"\no.y = 4611686018427387904\no.z = 2\no.w = :s\nh = {}\n12.times { |i| h[i] = i * i }\nh.delete(3)\nh[3] = nil\na = [[], [1, 2], [nil, true, false], [1, \"x\", :y, 9223372036854775807], h, o, Array.new(2, [o])]\nt = Thread.new(a) do |b|\n  b[0] << nil\n  b[1] << 3\n  b[2][1] = false\n  b[3] << 0 - 9223372036854775807\n  b[4].delete(5)\n  b[5].y += 1\n  b[5].z = \"zz\"\n  b[6][0] << 1\n  nil\nend\nt.join\np a[0], a[1], a[2], a[3], a[4], o.x, o.y, o.z, o.w, a[6]",
        "[nil]\n[1, 2, 3]\n[nil, false, false]\n[1, \"x\", :y, 9223372036854775807, -9223372036854775807]\n{0=>0, 1=>1, 2=>4, 4=>16, 6=>36, 7=>49, 8=>64, 9=>81, 10=>100, 11=>121, 3=>nil}\n\"a\"\n4611686018427387905\n\"zz\"\n:s\n[[#<Foo>, 1], [#<Foo>, 1]]\n",
        "",
    ),
    // Its maker goes on with it, before the thread ends and behind that, and hands it to others.
    (
        "a = [1]\nt = Thread.new(a) { |b| b << 2 }\nt.join\na << 3\np a.length, a",
        "3\n[1, 2, 3]\n",
        "",
    ),
    (
        "a = [1, 2]\nt = Thread.new(a) { |b| b.length }\na[0] = 5\na[1] += 5\np t.value, a",
        "2\n[5, 7]\n",
        "",
    ),
    (
        "a = []\nt = Thread.new(a) { |b| b << 1 }\nt.join\nu = Thread.new(a) { |b| b << 2 }\nu.join\np t.value == u.value, a",
        "true\n[1, 2]\n",
        "",
    ),
    (
        "$h = {}\nt = Thread.new { $h[:a] = [1]\n nil }\nt.join\nb = $h[:a]\nb << { 2 => b }\np $h",
        "{:a=>[1, {2=>[...]}]}\n",
        "",
    ),
    (
        "$d = []\nt = Thread.new([[1], [2]]) { |b| c = b[1]\n c << 3\n $d << c\n $d << b }\nt.join\np $d\n$d[0] << 4\np $d[1]",
        "[[2, 3], [[1], [2, 3]]]\n[[1], [2, 3, 4]]\n",
        "",
    ),
    (
        "class Foo\nend\no = Foo.new\nh = { o => 1 }\n$g = o\nputs h[o], h[$g], h.key?(o)\n$h = { $g => 2 }\nputs $h[o]\nq = Foo.new\n$h[q] = 3\np $h[q], $h.delete(o), $h.length, h.length",
        "1\n1\ntrue\n2\n3\n2\n1\n1\n",
        "",
    ),
    // A thread gives a thing to whoever asks for its value, and starts threads with things.
    (
        "a = Thread.new { [1, \"b\", nil] }.value\na << 4\np a",
        "[1, \"b\", nil, 4]\n",
        "",
    ),
    (
        "ts = []\n3.times { |i| ts << Thread.new(i) { |n| [n, { n => n * n }] } }\nts.each { |t| p t.value }",
        "[0, {0=>0}]\n[1, {1=>1}]\n[2, {2=>4}]\n",
        "",
    ),
    (
        "a = []\nt = Thread.new(a) do |b|\n  u = Thread.new(b, [1]) { |c, d| c << d }\n  u.value << 2\nend\nt.join\np a",
        "[[1], 2]\n",
        "",
    ),
    (
        "t = Thread.new { Thread.new { [7] }.value << 8 }\np t.value",
        "[7, 8]\n",
        "",
    ),
];

/// Threads that end early, with a thousand steps each: the script, the writes that fail, the status, what the line says, and how many bytes
/// are written.
const EARLY: [(&str, &[u64], u8, &str, usize); 4] = [
    (
        "t = Thread.new { while true\nend }\nputs 1",
        &[],
        6,
        "rbso: steps 1000\n",
        2,
    ),
    (
        "Thread.new { while true\nend }.join\nputs 1",
        &[],
        6,
        "rbso: steps 1000\n",
        0,
    ),
    (
        "t = Thread.new { puts 1 }\nt.join\nputs 2",
        &[1],
        5,
        "rbso: sink failed\n",
        0,
    ),
    (
        "3.times { |i| Thread.new { 20.times { puts i } } }",
        &[7],
        5,
        "rbso: sink failed\n",
        12,
    ),
];

/// Whether a script ends early as its row says.
fn ends_early<R: Threads + Wait + Sync>(
    rt: &R,
    alloc: Global,
    row: &(&str, &[u64], u8, &str, usize),
) -> Result<bool, Fail> {
    let (source, failing, status, line, written) = row;
    let mut files = script(alloc, source.as_bytes(), Vec::new(alloc))?;
    let words = ["run", "--steps=1000", "a.rb"];
    let failing = Vec::from_slice(alloc, failing)?;
    let Outcome { report, err } = ran(rt, alloc, &words, &mut files, failing)?;
    Ok(
        report.status == *status
            && err.bytes() == line.as_bytes()
            && report.out.bytes().len() == *written,
    )
}

#[test]
fn threads_that_end_early_end_the_run_so(rt: HostRuntime) -> Result<(), Fail> {
    for row in EARLY.iter() {
        let source = row.0;
        assert!(rt; ends_early(&rt, rt.alloc(), row)?, "{source}");
    }
    Ok(())
}

#[test]
fn threads_do_what_the_script_says(rt: HostRuntime) -> Result<(), Fail> {
    let tables: [&[Row]; 2] = [&THREADS, &THINGS];
    for rows in tables {
        all_hold(&rt, rt.alloc(), rows)?;
    }
    Ok(())
}
