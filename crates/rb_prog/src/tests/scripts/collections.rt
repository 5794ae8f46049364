// Scripts with arrays and hashes. The expected values are Ruby's, where docs/LANGUAGE.md names no difference.

use super::Row;

/// Arrays, their methods without a block, and their texts.
pub(super) const ARRAYS: [Row; 22] = [
    (
        "a = []\na[3] = 1\np a\np a[9]",
        "[nil, nil, nil, 1]\nnil\n",
        "",
    ),
    ("puts [1, [2, nil]], [[]], 3", "1\n2\n\n3\n", ""),
    ("puts []\nputs nil", "\n\n", ""),
    (
        "a = [1]\na << a\np a\nputs a\nputs \"#{a}\"",
        "[1, [...]]\n1\n[...]\n[1, [...]]\n",
        "",
    ),
    ("p 1, nil", "1\nnil\n", ""),
    ("x = p 1, [2]\np x", "1\n[2]\n[1, [2]]\n", ""),
    ("p(p)", "nil\n", ""),
    (
        "a = [1, 2, 3]\np a[0], a[-1], a[-3], a[3], a[-4]",
        "1\n3\n1\nnil\nnil\n",
        "",
    ),
    (
        "a = [1, 2]\na[-2] = 5\na[1] += 2\na[2] ||= 7\na[2] &&= 8\np a",
        "[5, 4, 8]\n",
        "",
    ),
    (
        "a = [1]\np((a << 2) == a, a.push(3) == a, a.unshift(0) == a, a)",
        "true\ntrue\ntrue\n[0, 1, 2, 3]\n",
        "",
    ),
    (
        "a = [1, 2, 3]\np a.pop, a.shift, a.delete_at(0), a.delete_at(4), a.pop, a.shift, a",
        "3\n1\n2\nnil\nnil\nnil\n[]\n",
        "",
    ),
    (
        "p [].first, [].last, [4, 5].first, [4, 5].last",
        "nil\nnil\n4\n5\n",
        "",
    ),
    (
        "a = [1, 2]\np a.length, a.size, a.empty?, a.clear, a.empty?, a.clear == a",
        "2\n2\nfalse\n[]\ntrue\ntrue\n",
        "",
    ),
    (
        "p Array.new, Array.new(2), Array.new(2, :x)",
        "[]\n[nil, nil]\n[:x, :x]\n",
        "",
    ),
    ("a = Array.new(2, [])\na[0] << 1\np a", "[[1], [1]]\n", ""),
    (
        "a = [1, \"a\\n\", :b, nil, true, [2.to_s]]\np a, a.to_s, a.inspect\nputs \"#{a}\", a",
        "[1, \"a\\n\", :b, nil, true, [\"2\"]]\n\"[1, \\\"a\\\\n\\\", :b, nil, true, [\\\"2\\\"]]\"\n\"[1, \\\"a\\\\n\\\", :b, nil, true, [\\\"2\\\"]]\"\n[1, \"a\\n\", :b, nil, true, [\"2\"]]\n1\na\nb\n\ntrue\n2\n",
        "",
    ),
    (
        "a = [1]\np a == a, a == [1].first, a != 1, a.nil?",
        "true\nfalse\ntrue\nfalse\n",
        "",
    ),
    (
        "def f(n)\n  puts n\n  n\nend\np [f(1), f(2)][f(1)]",
        "1\n2\n1\n2\n",
        "",
    ),
    (
        "a = [9223372036854775807, -9223372036854775807]\na << \"x\"\np a",
        "[9223372036854775807, -9223372036854775807, \"x\"]\n",
        "",
    ),
    (
        "class Foo\n  def to_s\n    \"foo\"\n  end\nend\nputs [Foo.new, [Foo.new]]",
        "foo\nfoo\n",
        "",
    ),
    (
        "class Foo\n  def to_s\n    \"foo\"\n  end\nend\np [Foo.new], { 1 => Foo.new }\nputs \"#{[Foo.new]}\"",
        "[#<Foo>]\n{1=>#<Foo>}\n[#<Foo>]\n",
        "",
    ),
    (
        "class Foo\n  def to_s\n    puts \"asked\"\n    \"foo\"\n  end\nend\nputs [Foo.new, 1]",
        "asked\nfoo\n1\n",
        "",
    ),
];

/// Blocks over the elements of arrays.
pub(super) const ARRAY_BLOCKS: [Row; 17] = [
    (
        "a = [1, 2]\na.each { |v| a << 9 if a.size < 4 }\np a",
        "[1, 2, 9, 9]\n",
        "",
    ),
    (
        "a = [1, 2, 3, 4]\na.each do |v|\n  puts v\n  a.pop\nend\np a",
        "1\n2\n[1, 2]\n",
        "",
    ),
    (
        "a = [3, 1, 2]\np a.each { |v| v } == a, a.map { |v| v * 2 }, a.select { |v| v > 1 }, a",
        "true\n[6, 2, 4]\n[3, 2]\n[3, 1, 2]\n",
        "",
    ),
    (
        "[7, 8].each_with_index { |v, i| puts \"#{i}: #{v}\" }\n[7].each_with_index { |v| p v }\n[7].each_with_index { puts 1 }",
        "0: 7\n1: 8\n7\n1\n",
        "",
    ),
    (
        "a = [1, 2]\np a.each_with_index { |v, i| i } == a",
        "true\n",
        "",
    ),
    (
        "p [1, 2, 3].map { |v| next if v == 2\nv }, [1, 2, 3].map { |v| next }",
        "[1, nil, 3]\n[nil, nil, nil]\n",
        "",
    ),
    (
        "p [1, 2, 3].each { |v| break if v == 2 }, [1, 2].map { |v| break }, [1].select { break }",
        "nil\nnil\nnil\n",
        "",
    ),
    (
        "p [nil, false, 1, true].select { |v| v }, [5, 6].select { nil }, [5, 6].select { 0 }",
        "[1, true]\n[]\n[5, 6]\n",
        "",
    ),
    ("p [5, 6].select { |v| next if v == 5\ntrue }", "[6]\n", ""),
    (
        "def f(values)\n  values.each { |v| return v if v > 1 }\n  :none\nend\np f([1, 2, 3]), f([1])",
        "2\n:none\n",
        "",
    ),
    (
        "sum = 0\n[1, 2].each { |v| [10, 20].each { |w| sum += v * w } }\np sum",
        "90\n",
        "",
    ),
    (
        "[1, 2].each do |v|\n  seen = v if v == 1\n  p seen\nend",
        "1\nnil\n",
        "",
    ),
    (
        "p [].map { |v| v }, [].select { |v| v }, [].each { |v| v }",
        "[]\n[]\n[]\n",
        "",
    ),
    (
        "a = [1]\np a.map { |v| a << 2 if a.length < 3\nv }",
        "[1, 2, 2]\n",
        "",
    ),
    (
        "p [[1, 2], [3]].map { |v| v.map { |w| w + 1 } }",
        "[[2, 3], [4]]\n",
        "",
    ),
    (
        "a = []\n3.times { |i| a << [i, i * i] }\np a",
        "[[0, 0], [1, 1], [2, 4]]\n",
        "",
    ),
    ("x = [1, 2].map do |v|\n  v + 1\nend\np x", "[2, 3]\n", ""),
];

/// Hashes, their methods, and blocks over their pairs.
pub(super) const HASHES: [Row; 17] = [
    (
        "h = {1=>2}\nh[:a] = 3\nh.delete(1)\nh[1] = 4\np h",
        "{:a=>3, 1=>4}\n",
        "",
    ),
    (
        "h = { \"a\" => 1, b: 2, nil => 3, true => 4 }\np h[\"a\"], h[:b], h[nil], h[true], h[:a], h",
        "1\n2\n3\n4\nnil\n{\"a\"=>1, :b=>2, nil=>3, true=>4}\n",
        "",
    ),
    ("p({ 1 => 2, 3 => 4, 1 => 5 })", "{1=>5, 3=>4}\n", ""),
    (
        "h = { a: 1 }\np h.key?(:a), h.key?(\"a\"), h.delete(:a), h.delete(:a), h",
        "true\nfalse\n1\nnil\n{}\n",
        "",
    ),
    (
        "h = { b: 2, a: 1 }\np h.keys, h.values, h.length, h.size, h.empty?",
        "[:b, :a]\n[2, 1]\n2\n2\nfalse\n",
        "",
    ),
    (
        "h = { a: 1 }\nh[:a] += 1\nh[:b] ||= 5\nh[:b] &&= 6\np h, (h[:c] = 7)",
        "{:a=>2, :b=>6, :c=>7}\n7\n",
        "",
    ),
    (
        "h = Hash.new\np h, h.empty?, h.clear == h, h == h, h == 1",
        "{}\ntrue\ntrue\ntrue\nfalse\n",
        "",
    ),
    (
        "h = { 1 => [2] }\nh[:h] = h\np h\nputs h, \"#{h}\", h.to_s, h.inspect",
        "{1=>[2], :h=>{...}}\n{1=>[2], :h=>{...}}\n{1=>[2], :h=>{...}}\n{1=>[2], :h=>{...}}\n{1=>[2], :h=>{...}}\n",
        "",
    ),
    (
        "o = { 1 => 2 }\nh = { o: o }\no[3] = 4\np h",
        "{:o=>{1=>2, 3=>4}}\n",
        "",
    ),
    (
        "class Foo\nend\nf = Foo.new\ng = Foo.new\nh = { f => 1, g => 2 }\np h[f], h[g], h.length",
        "1\n2\n2\n",
        "",
    ),
    (
        "p({ a: 1, b: 2 }.each { |k, v| puts k, v })",
        "a\n1\nb\n2\n{:a=>1, :b=>2}\n",
        "",
    ),
    (
        "h = { a: 1, b: 2 }\np h.each_pair { |k, v| break if v == 1 }, h.each { puts 0 } == h",
        "0\n0\nnil\ntrue\n",
        "",
    ),
    (
        "h = { a: 1, b: 2 }\nh.each { |k, v| h.delete(:b) }\np h",
        "{:a=>1}\n",
        "",
    ),
    (
        "h = { a: 1 }\nh.each { |k, v| h[:z] = v if h.length < 3 }\np h",
        "{:a=>1, :z=>1}\n",
        "",
    ),
    (
        "h = { a: 1, b: 2 }\nh.each do |k, v|\n  next if k == :a\n  puts v\nend",
        "2\n",
        "",
    ),
    (
        "def f(h)\n  h.each { |k, v| return k if v == 2 }\n  nil\nend\np f({ a: 1, b: 2 }), f({})",
        ":b\nnil\n",
        "",
    ),
    (
        "{ one: 1, two: 2 }.each { |name, n| puts \"#{name} is #{n}\" }",
        "one is 1\ntwo is 2\n",
        "",
    ),
];

/// Faults of arrays and hashes.
pub(super) const COLLECTION_FAULTS: [Row; 34] = [
    ("a = []\na[16777216] = 1", "", "fault ArrayTooLong at 2:13"),
    ("a = [1]\na[-2] = 0", "", "fault IndexTooSmall at 2:7"),
    ("h = {}\nh[[]] = 1", "", "fault BadKey at 2:7"),
    ("h = {}\nh[[1]]", "", "fault BadKey at 2:2"),
    ("h = {}\nh.key?({})", "", "fault BadKey at 2:3"),
    ("h = {}\nh.delete([])", "", "fault BadKey at 2:3"),
    (
        "puts 1\nh = { 1 => (puts 2), [1] => (puts 3) }",
        "1\n2\n3\n",
        "fault BadKey at 2:5",
    ),
    ("[1][\"a\"]", "", "fault TypeMismatch at 1:4"),
    ("[1][nil] = 1", "", "fault TypeMismatch at 1:10"),
    ("[1].delete_at(:a)", "", "fault TypeMismatch at 1:5"),
    ("[1].push(1, 2)", "", "fault ArgumentCount at 1:5"),
    ("[1].first(1)", "", "fault ArgumentCount at 1:5"),
    ("[1].each", "", "fault ArgumentCount at 1:5"),
    ("[1].map", "", "fault ArgumentCount at 1:5"),
    ("[1].each { |a, b| a }", "", "fault ArgumentCount at 1:5"),
    (
        "[1].each_with_index { |a, b, c| a }",
        "",
        "fault ArgumentCount at 1:5",
    ),
    (
        "{ 1 => 2 }.each { |a| a }",
        "",
        "fault ArgumentCount at 1:12",
    ),
    ("{ 1 => 2 }.each_pair", "", "fault ArgumentCount at 1:12"),
    ("[1] == [1]", "", "fault NoMethod at 1:5"),
    ("{} != {}", "", "fault NoMethod at 1:4"),
    ("[1] + [2]", "", "fault NoMethod at 1:5"),
    ("[1].keys", "", "fault NoMethod at 1:5"),
    ("{}.first", "", "fault NoMethod at 1:4"),
    ("{}.map { |a| a }", "", "fault NoMethod at 1:4"),
    ("5.each { |a| a }", "", "fault NoMethod at 1:3"),
    ("1.synchronize { 2 }", "", "fault NoMethod at 1:3"),
    (
        "[1].synchronize { |x| puts x }",
        "",
        "fault NoMethod at 1:5",
    ),
    ("nil[0]", "", "fault NoMethod at 1:4"),
    ("Array.new(-1)", "", "fault IndexTooSmall at 1:7"),
    ("Array.new(16777217)", "", "fault ArrayTooLong at 1:7"),
    ("Array.new(\"a\")", "", "fault TypeMismatch at 1:7"),
    ("Array.new(1, 2, 3)", "", "fault ArgumentCount at 1:7"),
    ("Hash.new(0)", "", "fault ArgumentCount at 1:6"),
    (
        "[1, 2].each { |v| puts v / (v - 2) }",
        "-1\n",
        "fault ZeroDivision at 1:26",
    ),
];
