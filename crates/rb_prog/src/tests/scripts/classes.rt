// Classes: new objects, calls of their methods, and attributes. In Ruby a class is not known before its text, `initialize` is not called from
// outside, and a block that a method does not take is let be.

use super::Row;

/// Classes, new objects and calls of their methods.
pub(super) const CLASSES: [Row; 30] = [
    (
        "class Counter\n  def initialize\n    @n = 0\n  end\n  def count\n    @n += 1\n  end\n  def n\n    @n\n  end\nend\nc = Counter.new\n3.times { c.count }\nputs c.n, c.count",
        "3\n4\n",
        "",
    ),
    (
        "class Foo\n  def initialize(a, b)\n    @a = a\n    @b = b\n  end\n  def sum\n    @a + @b\n  end\nend\nputs Foo.new(3, 4).sum",
        "7\n",
        "",
    ),
    (
        "class Foo\n  def bar\n    1\n  end\nend\nputs Foo.new.bar, Foo.new().bar()",
        "1\n1\n",
        "",
    ),
    (
        "puts Foo.new.bar\nclass Foo\n  def bar\n    1\n  end\nend",
        "1\n",
        "",
    ),
    (
        "class Foo\nend\nx = Foo.new\nputs x == nil, x.nil?, !x",
        "false\nfalse\nfalse\n",
        "",
    ),
    (
        "class Foo\nend\nFoo.new(puts(1))",
        "1\n",
        "fault ArgumentCount at 3:5",
    ),
    (
        "class Foo\n  def initialize\n    puts 2\n  end\nend\nFoo.new(puts(1))",
        "1\n",
        "fault ArgumentCount at 6:5",
    ),
    (
        "class Foo\n  def initialize(a)\n  end\nend\nFoo.new",
        "",
        "fault ArgumentCount at 5:5",
    ),
    (
        "class Foo\n  def initialize(a)\n    @a = a\n  end\n  def a\n    @a\n  end\nend\nputs Foo.new(7).a\nputs Foo.new(1, 2).a",
        "7\n",
        "fault ArgumentCount at 10:10",
    ),
    (
        "class Foo\n  def initialize\n    return 5\n  end\n  def bar\n    6\n  end\nend\nputs Foo.new.bar",
        "6\n",
        "",
    ),
    (
        "class Foo\n  def bar(a)\n    a\n  end\nend\nx = Foo.new\nputs x.bar(1)\nx.bar",
        "1\n",
        "fault ArgumentCount at 8:3",
    ),
    (
        "class Foo\n  def bar\n    @a\n  end\nend\np Foo.new.bar",
        "nil\n",
        "",
    ),
    (
        "class Foo\n  def bar\n    @a = @b\n    @b = 2\n    p @a\n    p @b\n  end\nend\nFoo.new.bar",
        "nil\n2\n",
        "",
    ),
    (
        "class Foo\n  def name\n    \"foo\"\n  end\n  def both\n    name + name\n  end\nend\nclass Bar\n  def name\n    \"bar\"\n  end\n  def both\n    name\n  end\nend\nputs Foo.new.both, Bar.new.both, Foo.new.name",
        "foofoo\nbar\nfoo\n",
        "",
    ),
    (
        "class Foo\n  def set(x)\n    @x = x\n    self\n  end\n  def get\n    @x\n  end\nend\nclass Bar\n  def set(x)\n    @x = x + 1\n    self\n  end\n  def get\n    @x\n  end\nend\na = Foo.new.set(1)\nb = Bar.new.set(1)\nc = Foo.new\nputs a.get, b.get, c.get.nil?",
        "1\n2\ntrue\n",
        "",
    ),
    (
        "def twice(n)\n  n * 2\nend\nclass Foo\n  def bar(n)\n    twice(n) + helper(n)\n  end\n  def helper(n)\n    twice(twice(n))\n  end\nend\nputs Foo.new.bar(1)",
        "6\n",
        "",
    ),
    (
        "def foo\n  \"top\"\nend\nclass Bar\n  def foo\n    \"own\"\n  end\n  def call\n    foo\n  end\nend\nclass Baz\n  def call\n    foo\n  end\nend\nputs Bar.new.call, Baz.new.call, foo",
        "own\ntop\ntop\n",
        "",
    ),
    (
        "class Foo\n  def puts(x)\n    print x, \"!\"\n  end\n  def bar\n    puts 1\n  end\nend\nFoo.new.bar\nFoo.new.puts(2)\nputs 3",
        "1!2!3\n",
        "",
    ),
    (
        "class Foo\n  def p\n    5\n  end\n  def print(a, b)\n    a + b\n  end\n  def bar\n    puts p, print(1, 2)\n  end\nend\nFoo.new.bar\np 6",
        "5\n3\n6\n",
        "",
    ),
    (
        "class Foo\n  def length\n    2\n  end\n  def to_s\n    \"foo\"\n  end\n  def nil?\n    true\n  end\n  def inspect\n    \"seen\"\n  end\n  def times\n    9\n  end\n  def all\n    puts length, to_s, nil?, inspect, times\n  end\nend\nx = Foo.new\nputs x.length, x.to_s, x.nil?, x.inspect, x.times\nx.all\nputs \"abc\".length, nil.nil?, 1.to_s, :a.inspect",
        "2\nfoo\ntrue\nseen\n9\n2\nfoo\ntrue\nseen\n9\n3\ntrue\n1\n:a\n",
        "",
    ),
    (
        "class Foo\n  def length(a)\n    a\n  end\nend\nx = Foo.new\nputs x.length(4)\nx.length",
        "4\n",
        "fault ArgumentCount at 8:3",
    ),
    (
        "class Foo\n  def times\n    1\n  end\nend\nx = Foo.new\nputs x.times\nx.times { 2 }",
        "1\n",
        "fault NoMethod at 8:3",
    ),
    (
        "class Foo\nend\nFoo.new.times { 1 }",
        "",
        "fault NoMethod at 3:9",
    ),
    (
        "class Foo\n  def bar\n    1\n  end\nend\nputs 1\n1.bar",
        "1\n",
        "fault NoMethod at 7:3",
    ),
    (
        "def foo\n  1\nend\nclass Foo\nend\nFoo.new.foo",
        "",
        "fault NoMethod at 6:9",
    ),
    (
        "class Foo\n  def empty\n  end\nend\np Foo.new.empty",
        "nil\n",
        "",
    ),
    (
        "class Foo\n  def initialize\n    @n = 1\n  end\n  def n\n    @n\n  end\nend\nx = Foo.new\nx.initialize\nputs x.n",
        "1\n",
        "",
    ),
    (
        "class A\n  def a(b)\n    b.b(self)\n  end\n  def c\n    \"A\"\n  end\nend\nclass B\n  def b(a)\n    a.c + \"B\"\n  end\nend\nputs A.new.a(B.new)",
        "AB\n",
        "",
    ),
    (
        "class A\n  def x\n    if true\n      y = @v\n    end\n    3.times { |i| @v = i }\n    p y\n    @v\n  end\nend\nputs A.new.x",
        "nil\n2\n",
        "",
    ),
    (
        "puts 1\nclass A\n  def b\n    2\n  end\nend\nputs A.new.b",
        "1\n2\n",
        "",
    ),
];

/// Attributes: read, written, and updated.
pub(super) const ATTRIBUTES: [Row; 24] = [
    (
        "class Foo\n  attr_reader :a, :b\n  def initialize\n    @a = 1\n  end\nend\nx = Foo.new\np x.a\np x.b",
        "1\nnil\n",
        "",
    ),
    (
        "class Foo\n  attr_writer :a\n  def get\n    @a\n  end\nend\nx = Foo.new\nputs x.a = 5\nputs x.get",
        "5\n5\n",
        "",
    ),
    (
        "class Foo\n  attr_writer :a\n  def get\n    @a\n  end\nend\nx = Foo.new\nputs (x.a = 5)\nputs x.get",
        "5\n5\n",
        "",
    ),
    (
        "class Foo\n  attr_accessor :a\nend\nx = Foo.new\nx.a = x.a.nil?\np x.a\ny = x.a = 3\nputs y, x.a",
        "true\n3\n3\n",
        "",
    ),
    (
        "class Foo\n  attr_reader :a\nend\nFoo.new.a(1)",
        "",
        "fault ArgumentCount at 4:9",
    ),
    (
        "class Foo\n  attr_accessor :a\n  def bar\n    a = 3\n    self.a = 4\n    a\n  end\n  def baz\n    a\n  end\nend\nx = Foo.new\nputs x.bar, x.baz",
        "3\n4\n",
        "",
    ),
    (
        "class Foo\n  def n=(v)\n    @n = v + 1\n    99\n  end\n  def n\n    @n\n  end\nend\nx = Foo.new\nputs (x.n = 3), x.n",
        "3\n4\n",
        "",
    ),
    (
        "class Foo\n  attr_accessor :n\nend\no = Foo.new\no.n = 1\no.n += 1\no.n *= 5\no.n -= 3\no.n /= 2\no.n %= 2\nputs o.n",
        "1\n",
        "",
    ),
    (
        "class Foo\n  attr_accessor :n\nend\no = Foo.new\no.n ||= 5\no.n ||= puts(9)\no.n &&= o.n + 1\nputs o.n\no.n = nil\no.n &&= puts(9)\np o.n",
        "6\nnil\n",
        "",
    ),
    (
        "class Foo\n  attr_accessor :n\nend\no = Foo.new\no.n = 1\nx = o.n += 4\ny = o.n ||= 8\nputs x, y, o.n",
        "5\n5\n5\n",
        "",
    ),
    (
        "class Foo\n  def initialize\n    @n = 1\n    @s = \"a\"\n  end\n  def bar\n    @n += 2\n    @n *= @n\n    @n -= 1\n    @n /= 3\n    @n %= 2\n    @s += \"b\"\n    @t ||= \"t\"\n    @t ||= puts(9)\n    @t &&= @t + \"u\"\n    @u &&= puts(9)\n    x = @n += 7\n    puts @n, @s, @t, @u.nil?, x\n  end\nend\nFoo.new.bar",
        "7\nab\ntu\ntrue\n7\n",
        "",
    ),
    (
        "class A\n  attr_accessor :b\nend\nclass B\n  attr_accessor :c\nend\na = A.new\na.b = B.new\na.b.c = 1\na.b.c += 1\nputs a.b.c\na.b.b = 3",
        "2\n",
        "fault NoMethod at 12:7",
    ),
    (
        "class A\n  attr_accessor :n, :rest\nend\na = A.new\na.rest = a\na.n = 1\na.rest.rest.rest.n += 5\nputs a.n",
        "6\n",
        "",
    ),
    (
        "class Foo\n  attr_accessor :n\n  def bar\n    self.n = 4\n    self.n += 1\n    self.n\n  end\nend\nputs Foo.new.bar",
        "5\n",
        "",
    ),
    (
        "class Foo\n  attr_accessor :n\nend\nFoo.new.n += 1",
        "",
        "fault NoMethod at 4:11",
    ),
    (
        "class Foo\n  def n\n    puts \"read\"\n    1\n  end\n  def two\n    puts \"right\"\n    2\n  end\nend\no = Foo.new\no.n += o.two",
        "read\nright\n",
        "fault NoMethod at 12:5",
    ),
    (
        "class Foo\n  attr_writer :n\nend\no = Foo.new\no.n = 1\no.n += 1",
        "",
        "fault NoMethod at 6:5",
    ),
    (
        "class Foo\n  attr_reader :n\nend\no = Foo.new\no.n = puts(1)",
        "1\n",
        "fault NoMethod at 5:5",
    ),
    (
        "class Foo\n  attr_writer :n\nend\no = Foo.new\no.n = 2\nputs o.n",
        "",
        "fault NoMethod at 6:8",
    ),
    (
        "def made\n  puts \"made\"\n  Foo.new\nend\nclass Foo\n  attr_accessor :n\nend\nmade.n ||= 1\nmade.n = puts(2)",
        "made\nmade\n2\n",
        "",
    ),
    (
        "class Foo\n  attr_reader :n\n  def fill\n    @n = 3\n  end\nend\no = Foo.new\no.fill\nputs \"#{o.n}\" + o.n.to_s",
        "33\n",
        "",
    ),
    ("x = nil\nx.n = 1", "", "fault NoMethod at 2:5"),
    ("x = nil\nputs x.n", "", "fault NoMethod at 2:8"),
    ("x = nil\nx.n ||= 1", "", "fault NoMethod at 2:5"),
];
