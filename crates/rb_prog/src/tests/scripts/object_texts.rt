// The texts of objects. An object without a text of its own is `#<Foo>` here, which in Ruby has an address too.

use super::Row;

/// Texts of objects: by `to_s` of their class, or by the name of the class alone.
pub(super) const OBJECT_TEXTS: [Row; 17] = [
    (
        "class Foo\n  def initialize(n)\n    @n = n\n  end\n  def to_s\n    \"foo #{@n}\"\n  end\nend\nx = Foo.new(1)\nputs x, Foo.new(2)\nprint x, x\nputs\nputs \"<#{x}>\", x.to_s + \"!\"\nputs \"#{x}#{x}\"",
        "foo 1\nfoo 2\nfoo 1foo 1\n<foo 1>\nfoo 1!\nfoo 1foo 1\n",
        "",
    ),
    (
        "class Foo\nend\nputs Foo.new\nprint Foo.new, 1\nputs\nputs \"<#{Foo.new}>\", Foo.new.to_s, Foo.new.inspect\np Foo.new",
        "#<Foo>\n#<Foo>1\n<#<Foo>>\n#<Foo>\n#<Foo>\n#<Foo>\n",
        "",
    ),
    (
        "class Foo\n  def to_s\n    5\n  end\nend\nputs Foo.new, \"#{Foo.new}\", Foo.new.to_s",
        "#<Foo>\n#<Foo>\n5\n",
        "",
    ),
    (
        "class Foo\n  def to_s\n  end\nend\nputs Foo.new\np Foo.new.to_s",
        "#<Foo>\nnil\n",
        "",
    ),
    (
        "class Foo\n  def to_s\n    self\n  end\nend\nputs \"#{Foo.new}\"",
        "#<Foo>\n",
        "",
    ),
    (
        "class Foo\n  def to_s(a)\n    \"foo\" + a\n  end\nend\nputs Foo.new.to_s(\"d\"), Foo.new\nFoo.new.to_s",
        "food\n#<Foo>\n",
        "fault ArgumentCount at 7:9",
    ),
    (
        "class Foo\n  attr_reader :to_s\n  def initialize(s)\n    @to_s = s\n  end\nend\nputs Foo.new(\"a\"), Foo.new(nil)",
        "a\n#<Foo>\n",
        "",
    ),
    (
        "class Foo\n  def to_s\n    \"line\\n\"\n  end\nend\nputs Foo.new, Foo.new\nprint Foo.new",
        "line\nline\nline\n",
        "",
    ),
    (
        "class Foo\n  def to_s\n    \"\"\n  end\nend\nputs Foo.new\nprint Foo.new\nputs \"a#{Foo.new}b\"",
        "\nab\n",
        "",
    ),
    (
        "class Foo\n  def to_s\n    puts \"asked\"\n    \"foo\"\n  end\nend\nputs 1, Foo.new, 2\nx = \"#{Foo.new} #{puts(3)}\"\nputs x",
        "asked\n1\nfoo\n2\nasked\n3\nfoo \n",
        "",
    ),
    (
        "class Foo\n  def inspect\n    \"seen\"\n  end\n  def to_s\n    \"text\"\n  end\nend\nx = Foo.new\np x\nputs x.inspect, x",
        "#<Foo>\nseen\ntext\n",
        "",
    ),
    (
        "class Foo\n  def to_s\n    \"foo\"\n  end\n  def bar\n    \"in #{self}\"\n  end\nend\nclass Bar\n  def to_s\n    \"bar of #{Foo.new}\"\n  end\nend\nputs Foo.new.bar, Bar.new",
        "in foo\nbar of foo\n",
        "",
    ),
    (
        "class Foo\n  def to_s\n    1 / 0\n  end\nend\nputs 1\nputs \"#{Foo.new}\"",
        "1\n",
        "fault ZeroDivision at 3:7",
    ),
    (
        "class Foo\n  def to_s\n    return \"early\" if true\n    \"late\"\n  end\nend\nputs Foo.new",
        "early\n",
        "",
    ),
    (
        "class Foo\n  def to_s\n    \"#{self}\"\n  end\nend\nputs Foo.new",
        "",
        "fault TooDeep at 3:8",
    ),
    (
        "class Foo\n  def to_s\n    \"foo\"\n  end\nend\ny = (p Foo.new)\nputs y",
        "#<Foo>\nfoo\n",
        "",
    ),
    (
        "class Foo\n  def to_s\n    3.times { |i| return \"at #{i}\" if i == 2 }\n  end\nend\nputs Foo.new",
        "at 2\n",
        "",
    ),
];
