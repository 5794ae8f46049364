// Objects as values, and their methods as they call one another.

use super::Row;

/// Objects as values: they are the same where they are one, and are true.
pub(super) const OBJECTS: [Row; 29] = [
    (
        "class Foo\nend\na = Foo.new\nb = Foo.new\nc = a\nputs a == a, a == b, a == c, a != b, a != c, a == 1, nil == a, \"a\" == a",
        "true\nfalse\ntrue\ntrue\nfalse\nfalse\nfalse\nfalse\n",
        "",
    ),
    (
        "class Foo\nend\nputs Foo.new ? 1 : 2\nx = Foo.new && 3\nputs x\ny = Foo.new || puts(9)\nputs y == nil, !y\nwhile y\n  y = nil\nend\np y",
        "1\n3\nfalse\nfalse\nnil\n",
        "",
    ),
    (
        "class Foo\n  attr_accessor :n\nend\ndef change(foo)\n  foo.n = 5\n  foo = nil\nend\nx = Foo.new\nchange(x)\nputs x.n",
        "5\n",
        "",
    ),
    (
        "class Foo\n  attr_accessor :n\nend\na = Foo.new\nb = a\nb.n = 1\nputs a.n\nb = Foo.new\nb.n = 2\nputs a.n",
        "1\n1\n",
        "",
    ),
    (
        "class Foo\n  def me\n    self\n  end\n  def is(other)\n    self == other\n  end\nend\na = Foo.new\nputs a.me == a, a.is(a), a.is(Foo.new), a.me.me.is(a)",
        "true\ntrue\nfalse\ntrue\n",
        "",
    ),
    ("class Foo\nend\nFoo.new + 1", "", "fault NoMethod at 3:9"),
    (
        "class Foo\nend\n1 + Foo.new",
        "",
        "fault TypeMismatch at 3:3",
    ),
    (
        "class Foo\nend\n\"a\" + Foo.new",
        "",
        "fault TypeMismatch at 3:5",
    ),
    (
        "class Foo\nend\nFoo.new < Foo.new",
        "",
        "fault NoMethod at 3:9",
    ),
    ("class Foo\nend\n-Foo.new", "", "fault NoMethod at 3:1"),
    (
        "class Foo\nend\nx = Foo.new\nx[0]",
        "",
        "fault NoMethod at 4:2",
    ),
    (
        "class Foo\nend\nx = Foo.new\nx[0] = 1",
        "",
        "fault NoMethod at 4:6",
    ),
    (
        "class Foo\nend\nx = Foo.new\nx.bar",
        "",
        "fault NoMethod at 4:3",
    ),
    (
        "class Foo\n  def add(n)\n    @sum ||= 0\n    @sum += n\n    self\n  end\n  def sum\n    @sum\n  end\nend\nputs Foo.new.add(1).add(2).add(3).sum",
        "6\n",
        "",
    ),
    (
        "class Foo\n  def find(n)\n    10.times do |i|\n      return i if i * i > n\n    end\n    nil\n  end\n  def up(n)\n    i = 0\n    while true\n      i += 1\n      break if i > n\n      next if i % 2 == 0\n      print i\n    end\n    return\n  end\nend\nx = Foo.new\nputs x.find(20)\np x.find(100)\np x.up(5)",
        "5\nnil\n135nil\n",
        "",
    ),
    (
        "class Foo\n  def bar\n    3.times { |i| @last = i; break if i == 1 }\n    @last\n  end\nend\nputs Foo.new.bar",
        "1\n",
        "",
    ),
    (
        "class Node\n  attr_accessor :value, :rest\n  def initialize(value, behind)\n    @value = value\n    @rest = behind\n  end\nend\nlist = nil\n5.times { |i| list = Node.new(i, list) }\nsum = 0\nwhile list\n  sum = sum * 10 + list.value\n  list = list.rest\nend\nputs sum",
        "43210\n",
        "",
    ),
    (
        "class Tree\n  def initialize(depth)\n    if depth > 0\n      @left = Tree.new(depth - 1)\n      @right = Tree.new(depth - 1)\n    end\n  end\n  def size\n    return 1 if @left.nil?\n    1 + @left.size + @right.size\n  end\nend\nputs Tree.new(5).size",
        "63\n",
        "",
    ),
    (
        "class Foo\n  def fib(n)\n    n < 2 ? n : fib(n - 1) + fib(n - 2)\n  end\n  def even(n)\n    n == 0 || odd(n - 1)\n  end\n  def odd(n)\n    n != 0 && even(n - 1)\n  end\nend\nputs Foo.new.fib(12), Foo.new.even(40), Foo.new.odd(40)",
        "144\ntrue\nfalse\n",
        "",
    ),
    (
        "class Foo\n  def call\n    Foo.new.deep(3)\n  end\n  def deep(n)\n    n == 0 ? \"end\" : Foo.new.deep(n - 1)\n  end\nend\nputs Foo.new.call",
        "end\n",
        "",
    ),
    (
        "class Foo\n  def f(n)\n    f(n + 1)\n  end\nend\nFoo.new.f(0)",
        "",
        "fault TooDeep at 3:7",
    ),
    (
        "class Foo\n  def f(n)\n    self.f(n + 1)\n  end\nend\nFoo.new.f(0)",
        "",
        "fault TooDeep at 3:12",
    ),
    (
        "class Foo\n  def initialize\n    @next = Foo.new\n  end\nend\nFoo.new",
        "",
        "fault TooDeep at 3:17",
    ),
    (
        "class Foo\n  def f(n)\n    n == 0 || f(n - 1)\n  end\nend\nFoo.new.f(498)\nputs 1",
        "1\n",
        "",
    ),
    (
        "class Foo\n  def f(n)\n    n == 0 || f(n - 1)\n  end\nend\nFoo.new.f(499)\nputs 1",
        "",
        "fault TooDeep at 3:17",
    ),
    (
        "class Wide\n  def fill\n    @f0 = 0\n    @f1 = 1\n    @f2 = 2\n    @f3 = 3\n    @f4 = 4\n    @f5 = 5\n    @f6 = 6\n    @f7 = 7\n    @f8 = 8\n    @f9 = 9\n    @f10 = 10\n    @f11 = 11\n    @f12 = 12\n    @f13 = 13\n    @f14 = 14\n    @f15 = 15\n    @f16 = 16\n    @f17 = 17\n    @f18 = 18\n    @f19 = 19\n    @f20 = 20\n    @f21 = 21\n    @f22 = 22\n    @f23 = 23\n    @f24 = 24\n    @f25 = 25\n    @f26 = 26\n    @f27 = 27\n    @f28 = 28\n    @f29 = 29\n    @f30 = 30\n    @f31 = 31\n  end\n  def sum\n    @f0 + @f1 + @f2 + @f3 + @f4 + @f5 + @f6 + @f7 + @f8 + @f9 + @f10 + @f11 + @f12 + @f13 + @f14 + @f15 + @f16 + @f17 + @f18 + @f19 + @f20 + @f21 + @f22 + @f23 + @f24 + @f25 + @f26 + @f27 + @f28 + @f29 + @f30 + @f31\n  end\nend\nx = Wide.new\nx.fill\nputs x.sum",
        "496\n",
        "",
    ),
    (
        "class Foo\n  attr_accessor :a\nend\nx = Foo.new\nx.a = 9223372036854775807\nputs x.a\nx.a = -9223372036854775807 - 1\nputs x.a\nx.a = \"text\"\nputs x.a\nx.a = :name\nputs x.a\nx.a = 4611686018427387904\nputs x.a\nx.a = true\nputs x.a\nx.a = x\nputs x.a == x\nx.a += 1",
        "9223372036854775807\n-9223372036854775808\ntext\nname\n4611686018427387904\ntrue\ntrue\n",
        "fault NoMethod at 19:5",
    ),
    (
        "class A\n  def one\n    @a = 1\n    @b = 2\n    @c = 3\n  end\n  def two\n    @c = 30\n    @a = 10\n  end\n  def show\n    print @a.inspect, @b.inspect, @c.inspect\n    puts\n  end\nend\nx = A.new\ny = A.new\nx.one\ny.two\nx.show\ny.show\nx.two\ny.one\nx.show\ny.show",
        "123\n10nil30\n10230\n123\n",
        "",
    ),
    (
        "class Foo\n  def bar(n)\n    n / 0\n  end\nend\nputs 1\nFoo.new.bar(3)",
        "1\n",
        "fault ZeroDivision at 3:7",
    ),
];
