// The scripts of `examples`, with what they print and how they end.

use super::scripts::{Row, all_hold};
use std::test::Fail;

/// `examples/answer.rb`.
const ANSWER: Row = ("a = 6\nputs a * 7\n", "42\n", "");

/// `examples/lines.rb`.
const LINES: Row = (
    "width = 12\nheight = 7\narea = width * height\nputs area\nputs area - 100\narea = area + 1\nputs area\n",
    "84\n-16\n85\n",
    "",
);

/// `examples/integers.rb`.
const INTEGERS: Row = (
    "# Integers have 64 bits. Division and remainder round down, as in Ruby.\nputs 7 + 3 * 2, (7 + 3) * 2\nputs 7 / 2, -7 / 2, 7 % -3, -7 % 3\nputs 1_000_000 * 1_000_000\nputs 3 < 4, 3 == 4, 3 != 4, -(2 - 5)\ntotal = 10\ntotal += 5\ntotal *= 2\nputs total\n",
    "13\n20\n3\n-4\n-2\n2\n1000000000000\ntrue\nfalse\ntrue\n3\n30\n",
    "",
);

/// `examples/branches.rb`.
const BRANCHES: Row = (
    "# Only nil and false are false. A branch that is not taken leaves nil.\ndef size_of(n)\n  if n < 10\n    \"small\"\n  elsif n < 100\n    \"middling\"\n  else\n    \"large\"\n  end\nend\n\nputs size_of(3), size_of(30), size_of(300)\nputs 5 > 3 ? \"yes\" : \"no\"\nputs \"not so\" unless 1 < 2\nx = 1 if false\np x\nname = nil\nname ||= \"nobody\"\nputs name && \"somebody\"\n",
    "small\nmiddling\nlarge\nyes\nnil\nsomebody\n",
    "",
);

/// `examples/loops.rb`.
const LOOPS: Row = (
    "# The primes below 50, by trial division.\nn = 2\nwhile n < 50\n  is_prime = true\n  divisor = 2\n  until divisor * divisor > n\n    if n % divisor == 0\n      is_prime = false\n      break\n    end\n    divisor += 1\n  end\n  print n, \" \" if is_prime\n  n += 1\nend\nputs\n\ni = 0\nwhile true\n  i += 1\n  next if i % 3 != 0\n  break if i > 9\n  puts i\nend\n",
    "2 3 5 7 11 13 17 19 23 29 31 37 41 43 47 \n3\n6\n9\n",
    "",
);

/// `examples/blocks.rb`.
const BLOCKS: Row = (
    "# A block sees the locals round it; its own are new at each turn.\nsum = 0\n5.times { |i| sum += i }\nputs sum\n\n1.upto(15) do |n|\n  text = \"\"\n  text += \"Fizz\" if n % 3 == 0\n  text += \"Buzz\" if n % 5 == 0\n  puts text == \"\" ? n : text\nend\n\n2.times do |turn|\n  seen = \"first\" if turn == 0\n  p seen\nend\np 9.times { |i| break if i == 4 }\n",
    "10\n1\n2\nFizz\n4\nBuzz\nFizz\n7\n8\nFizz\nBuzz\n11\nFizz\n13\n14\nFizzBuzz\n\"first\"\nnil\nnil\n",
    "",
);

/// `examples/methods.rb`.
const METHODS: Row = (
    "# Methods call one another, and themselves. The value is that of the last statement, or of a return.\ndef fibonacci(n)\n  return n if n < 2\n  fibonacci(n - 1) + fibonacci(n - 2)\nend\n\ndef moves(disks, from, to, over)\n  return 0 if disks == 0\n  before = moves(disks - 1, from, over, to)\n  puts \"disk #{disks}: #{from} to #{to}\"\n  before + 1 + moves(disks - 1, over, to, from)\nend\n\ndef first_square_above(limit)\n  1000.times { |i| return i * i if i * i > limit }\n  nil\nend\n\nputs fibonacci(20)\nputs moves(3, :left, :right, :middle)\nputs first_square_above(200)\n",
    "6765\ndisk 1: left to right\ndisk 2: left to middle\ndisk 1: right to middle\ndisk 3: left to right\ndisk 1: middle to left\ndisk 2: middle to right\ndisk 1: left to right\n7\n225\n",
    "",
);

/// `examples/texts.rb`.
const TEXTS: Row = (
    "# A text never changes; += makes another.\ngreeting = \"Hello\"\nother = greeting\ngreeting += \", world\"\nputs greeting, other\nputs \"1 + 2 is #{1 + 2}, and nil is '#{nil}'\"\nputs 'no #{code} and no \\n here'\np \"a line\\n\\tand \\\"more\\\"\"\np :name\nprint \"one\", \" \", \"line\\n\"\nputs 12.to_s + \"3\", nil.inspect, \"a\" == \"a\"\n",
    "Hello, world\nHello\n1 + 2 is 3, and nil is ''\nno #{code} and no \\n here\n\"a line\\n\\tand \\\"more\\\"\"\n:name\none line\n123\nnil\ntrue\n",
    "",
);

/// `examples/faults.rb`.
const FAULTS: Row = (
    "# A fault ends the script with the status 1, and a line on standard error tells its name and its place.\ndef half(n)\n  n / 2\nend\n\nputs half(10)\nputs half(\"ten\")\n",
    "5\n",
    "fault NoMethod at 3:5",
);

/// `examples/objects.rb`.
const OBJECTS: Row = (
    "# An object has its own instance variables; one that was never written is nil. Attributes are methods.\nclass Account\n  attr_reader :balance\n  attr_accessor :limit\n\n  def initialize(balance)\n    @balance = balance\n  end\n\n  def deposit(amount)\n    @balance += amount\n    self\n  end\n\n  def withdraw(amount)\n    return false if over?(amount)\n    @balance -= amount\n    true\n  end\n\n  def over?(amount)\n    @balance - amount < -(@limit || 0)\n  end\nend\n\nann = Account.new(50)\nben = Account.new(0)\nputs ann.deposit(10).deposit(20).balance\nputs ann.withdraw(100), ann.balance\np ann.limit\nann.limit ||= 40\nputs ann.withdraw(100), ann.balance, ben.balance\nsame = ann\nsame.limit += 10\nputs ann.limit, ann == same, ann == ben\n\n# A list: each cell knows the rest of it.\nclass Cell\n  attr_reader :value, :rest\n\n  def initialize(value, behind)\n    @value = value\n    @rest = behind\n  end\n\n  def sum\n    @rest ? @value + @rest.sum : @value\n  end\nend\n\nlist = nil\n1.upto(4) { |i| list = Cell.new(i * i, list) }\nputs list.sum, list.rest.rest.value\n",
    "80\nfalse\n80\nnil\ntrue\n-20\n0\n50\ntrue\nfalse\n30\n4\n",
    "",
);

/// `examples/to_s.rb`.
const TO_S: Row = (
    "# puts, print and code in a text ask an object for its text by its to_s. p and inspect tell its class alone.\nclass Point\n  attr_accessor :x, :y\n\n  def initialize(x, y)\n    @x = x\n    @y = y\n  end\n\n  def plus(other)\n    Point.new(@x + other.x, @y + other.y)\n  end\n\n  def to_s\n    \"(#{@x}, #{@y})\"\n  end\nend\n\nclass Line\n  def initialize(from, to)\n    @from = from\n    @to = to\n  end\n\n  def to_s\n    \"#{@from} to #{@to}\"\n  end\nend\n\nclass Plain\nend\n\na = Point.new(1, 2)\nb = a.plus(Point.new(10, -2))\nputs a, b\nb.x += 1\nputs \"from #{a} to #{b}: \" + Line.new(a, b).to_s\nprint Line.new(b, a), \"\\n\"\nputs Plain.new, \"#{Plain.new}\"\np a\nputs a.inspect\n",
    "(1, 2)\n(11, 0)\nfrom (1, 2) to (12, 0): (1, 2) to (12, 0)\n(12, 0) to (1, 2)\n#<Plain>\n#<Plain>\n#<Point>\n#<Point>\n",
    "",
);

/// `examples/arrays.rb`.
const ARRAYS: Row = (
    "# An array grows as it is written. An index counts from 0, a negative one from the end.\nprimes = []\nn = 2\nwhile primes.length < 10\n  i = 0\n  i += 1 while i < primes.length && n % primes[i] != 0\n  primes << n if i == primes.length\n  n += 1\nend\np primes, primes.first, primes[-2]\n\n# Where there is no element, it is nil. A write behind the last element fills up with nil.\nrow = [1, \"two\", :three]\nrow[4] = [5, nil]\np row, row[3], row[9]\nrow[0] += 10\nrow[1] += \"!\"\nrow[3] ||= 4\np row\n\n# A queue, and the same array under another name.\nline = Array.new\nline.push(\"ann\").push(\"ben\")\nline.unshift(\"eve\")\nsame = line\nputs line.shift, same.length, line.pop, line.pop\np line.pop, same, same.empty?, line == same\n\n# Sorting by insertion.\ndef sorted(values)\n  done = []\n  values.length.times do |i|\n    j = i\n    while j > 0 && values[i] < done[j - 1]\n      done[j] = done[j - 1]\n      j -= 1\n    end\n    done[j] = values[i]\n  end\n  done\nend\n\np sorted([3, 1, 2, 3, 0])\n\n# puts writes the elements one by one, those of arrays in an array too.\ngrid = Array.new(2)\n2.times { |y| grid[y] = Array.new(2, y) }\ngrid[1][0] = \"east\"\nputs grid\ngrid << grid\nputs \"#{grid}\"\n",
    "[2, 3, 5, 7, 11, 13, 17, 19, 23, 29]\n2\n23\n[1, \"two\", :three, nil, [5, nil]]\nnil\nnil\n[11, \"two!\", :three, 4, [5, nil]]\neve\n2\nben\nann\nnil\n[]\ntrue\ntrue\n[0, 1, 2, 3, 3]\n0\n0\neast\n1\n[[0, 0], [\"east\", 1], [...]]\n",
    "",
);

/// `examples/hashes.rb`.
const HASHES: Row = (
    "# How often each word stands there.\nwords = [\"red\", \"blue\", \"red\", \"green\", \"blue\", \"red\"]\ncounts = {}\nwords.length.times do |i|\n  counts[words[i]] ||= 0\n  counts[words[i]] += 1\nend\np counts, counts[\"red\"], counts[\"black\"]\n\n# Pairs stand in the order in which their keys came. A key that is there keeps its place.\nages = { ann: 31, ben: 25, \"eve\" => 40, 7 => nil }\nages[:zoe] = 3\nages[:ann] += 1\np ages.keys, ages.values\nputs ages.key?(7), ages.key?(8), ages.delete(:ben), ages.size\nages[:ben] = 26\nputs ages\n\n# What was worked out is kept.\ndef fibonacci(n, known)\n  return n if n < 2\n  known[n] ||= fibonacci(n - 1, known) + fibonacci(n - 2, known)\nend\n\nputs fibonacci(80, {})\n\n# Arrays as values, and a hash inside itself.\ngroups = Hash.new\n1.upto(9) do |n|\n  groups[n % 3] ||= []\n  groups[n % 3] << n\nend\np groups\nputs groups[0]\ngroups[:all] = groups\nputs \"#{groups}\"\ngroups.clear\nputs groups.empty?\n",
    "{\"red\"=>3, \"blue\"=>2, \"green\"=>1}\n3\nnil\n[:ann, :ben, \"eve\", 7, :zoe]\n[32, 25, 40, nil, 3]\ntrue\nfalse\n25\n4\n{:ann=>32, \"eve\"=>40, 7=>nil, :zoe=>3, :ben=>26}\n23416728348467685\n{1=>[1, 4, 7], 2=>[2, 5, 8], 0=>[3, 6, 9]}\n3\n6\n9\n{1=>[1, 4, 7], 2=>[2, 5, 8], 0=>[3, 6, 9], :all=>{...}}\ntrue\n",
    "",
);

/// `examples/word_count.rb`.
const WORD_COUNT: Row = (
    "# Counts the words of a few lines. A line is an array of words, as no text is taken apart here.\nlines = [\n  [\"a\", \"rose\", \"is\", \"a\", \"rose\", \"is\", \"a\", \"rose\"],\n  [\"the\", \"rose\", \"is\", \"red\"],\n  [\"and\", \"red\", \"is\", \"the\", \"evening\", \"sun\"]\n]\n\nclass WordCount\n  attr_reader :counts\n\n  def initialize\n    @counts = {}\n    @total = 0\n  end\n\n  def add(word)\n    @counts[word] ||= 0\n    @counts[word] += 1\n    @total += 1\n  end\n\n  # The words, those that stand there most often first. Words that stand there as often keep their order.\n  def ranking\n    ranked = []\n    @counts.each do |word, count|\n      place = ranked.length\n      while place > 0 && @counts[ranked[place - 1]] < count\n        ranked[place] = ranked[place - 1]\n        place -= 1\n      end\n      ranked[place] = word\n    end\n    ranked\n  end\n\n  # How much of all a word is, in tenths of a percent.\n  def share(word)\n    @counts[word] * 1000 / @total\n  end\n\n  def to_s\n    \"#{@total} words, #{@counts.length} different ones\"\n  end\nend\n\ndef padded(text, width)\n  text += \" \" while text.length < width\n  text\nend\n\ndef bar(length)\n  text = \"\"\n  length.times { text += \"*\" }\n  text\nend\n\nwords = WordCount.new\nlines.each do |line|\n  line.each { |word| words.add(word) }\nend\n\nputs words\nwords.ranking.each_with_index do |word, i|\n  break if i == 5\n  share = words.share(word)\n  puts \"#{i + 1}. #{padded(word, 6)}#{padded(bar(words.counts[word]), 6)}#{share / 10}.#{share % 10} %\"\nend\n\nletters = 0\nwords.counts.each { |word, count| letters += word.length * count }\nputs \"#{letters} letters\"\nputs \"once: #{words.counts.keys.select { |word| words.counts[word] == 1 }}\"\n",
    "18 words, 8 different ones\n1. rose  ****  22.2 %\n2. is    ****  22.2 %\n3. a     ***   16.6 %\n4. the   **    11.1 %\n5. red   **    11.1 %\n52 letters\nonce: [\"and\", \"evening\", \"sun\"]\n",
    "",
);

/// `examples/bank.rb`.
const BANK: Row = (
    "# A bank that counts in cents. Interest is told in hundredths of a percent a year, and rounded down to whole cents.\ndef money(cents)\n  return \"-\" + money(-cents) if cents < 0\n  rest = cents % 100\n  \"#{cents / 100}.#{rest < 10 ? \"0\" : \"\"}#{rest}\"\nend\n\nclass Account\n  attr_reader :balance, :entries\n\n  def initialize(name, rate)\n    @name = name\n    @rate = rate\n    @balance = 0\n    @entries = []\n  end\n\n  def deposit(cents)\n    return false if cents <= 0\n    book(:deposit, cents)\n  end\n\n  def withdraw(cents)\n    return false if cents <= 0 || cents > @balance\n    book(:withdrawal, -cents)\n  end\n\n  def add_interest\n    interest = @balance * @rate / 10_000\n    book(:interest, interest) if interest > 0\n    interest\n  end\n\n  def book(kind, cents)\n    @balance += cents\n    @entries << [kind, cents, @balance]\n    true\n  end\n\n  def to_s\n    \"#{@name}: #{money(@balance)}\"\n  end\nend\n\nclass Bank\n  def initialize\n    @accounts = {}\n  end\n\n  # The account of a name, which is opened where there is none.\n  def account(name, rate)\n    @accounts[name] ||= Account.new(name, rate)\n  end\n\n  def transfer(from, to, cents)\n    return \"no such account\" unless @accounts.key?(from) && @accounts.key?(to)\n    return \"refused\" unless @accounts[from].withdraw(cents)\n    @accounts[to].deposit(cents)\n    \"done\"\n  end\n\n  def close_year\n    paid = 0\n    @accounts.each { |name, account| paid += account.add_interest }\n    paid\n  end\n\n  def total\n    sum = 0\n    @accounts.values.each { |account| sum += account.balance }\n    sum\n  end\n\n  def accounts\n    @accounts.values\n  end\nend\n\nbank = Bank.new\nbank.account(:ann, 150).deposit(250_000)\nbank.account(:ben, 25).deposit(99_999)\nputs bank.transfer(:ann, :ben, 50_001), bank.transfer(:ben, :ann, 999_999), bank.transfer(:ann, :eve, 1)\n\n3.times do |year|\n  before = bank.total\n  paid = bank.close_year\n  puts \"year #{year + 1}: #{money(paid)} of interest, #{money(bank.total)} in all\"\n  puts \"something is lost\" if bank.total != before + paid\nend\n\nputs bank.accounts\nbank.account(:ann, 0).entries.each do |entry|\n  puts \"#{entry[0]} #{money(entry[1])}, then #{money(entry[2])}\"\nend\np bank.accounts.map { |account| account.entries.length }\n",
    "done\nrefused\nno such account\nyear 1: 33.74 of interest, 3533.73 in all\nyear 2: 34.19 of interest, 3567.92 in all\nyear 3: 34.66 of interest, 3602.58 in all\nann: 2091.32\nben: 1511.26\ndeposit 2500.00, then 2500.00\nwithdrawal -500.01, then 1999.99\ninterest 29.99, then 2029.98\ninterest 30.44, then 2060.42\ninterest 30.90, then 2091.32\n[5, 5]\n",
    "",
);

/// `examples/life.rb`.
const LIFE: Row = (
    "# The game of life, on a board whose edges touch the opposite ones. A cell with three neighbours lives, one with two stays as it is,\n# and every other one dies.\nclass Board\n  attr_reader :rows\n\n  def initialize(rows)\n    @rows = rows\n    @height = rows.length\n    @width = rows.first.length\n  end\n\n  def neighbours(y, x)\n    count = 0\n    [-1, 0, 1].each do |down|\n      row = @rows[(y + down) % @height]\n      [-1, 0, 1].each do |right|\n        next if down == 0 && right == 0\n        count += row[(x + right) % @width]\n      end\n    end\n    count\n  end\n\n  # What a cell is in the next generation: 1 where it lives, else 0.\n  def grown(cell, y, x)\n    count = neighbours(y, x)\n    return 1 if count == 3\n    count == 2 ? cell : 0\n  end\n\n  def next_board\n    rows = []\n    @rows.each_with_index do |row, y|\n      cells = []\n      row.each_with_index { |cell, x| cells << grown(cell, y, x) }\n      rows << cells\n    end\n    Board.new(rows)\n  end\n\n  def living\n    count = 0\n    @rows.each { |row| count += row.select { |cell| cell == 1 }.length }\n    count\n  end\n\n  def to_s\n    lines = \"\"\n    @rows.each do |row|\n      row.each { |cell| lines += cell == 1 ? \"#\" : \".\" }\n      lines += \"\\n\"\n    end\n    lines\n  end\nend\n\nrows = Array.new(6)\n6.times { |y| rows[y] = Array.new(6, 0) }\n\n# A glider.\n[[0, 1], [1, 2], [2, 0], [2, 1], [2, 2]].each { |place| rows[place[0]][place[1]] = 1 }\n\nboard = Board.new(rows)\n3.times do |generation|\n  puts \"generation #{generation}, #{board.living} living\"\n  puts board\n  board = board.next_board\nend\n\n# After 24 generations it has come round the board, to where it began.\n21.times { board = board.next_board }\nsame = true\nboard.rows.each_with_index do |row, y|\n  row.each_with_index { |cell, x| same = false if cell != rows[y][x] }\nend\nputs same ? \"back where it began\" : \"somewhere else\"\n",
    "generation 0, 5 living\n.#....\n..#...\n###...\n......\n......\n......\ngeneration 1, 5 living\n......\n#.#...\n.##...\n.#....\n......\n......\ngeneration 2, 5 living\n......\n..#...\n#.#...\n.##...\n......\n......\nback where it began\n",
    "",
);

/// `examples/threads.rb`.
const THREADS: Row = (
    "# Threads and the global variables that they share.\n$words = 0\n$letters = 0\n\ndef count(text)\n  $words += 1\n  $letters += text.length\nend\n\n# The second thread takes its turn behind the first, since it joins that one.\nfirst = Thread.new { count(\"one\") }\nsecond = Thread.new(first) do |before|\n  before.join\n  count(\"three\")\nend\nsecond.join\nputs \"#{$words} words, #{$letters} letters\"\n\n# The value of a thread is that of its last statement.\nsquare = Thread.new(12) { |n| n * n }\nroot = Thread.new { square.value / 12 }\nputs root.value\n",
    "2 words, 8 letters\n12\n",
    "",
);

/// `examples/shared.rb`.
const SHARED: Row = (
    "# Threads count words into one hash that they share. A mutex keeps each count whole.\nclass WordCount\n  def initialize\n    @counts = {}\n    @lock = Mutex.new\n  end\n\n  def add(word)\n    @lock.synchronize do\n      @counts[word] ||= 0\n      @counts[word] += 1\n    end\n  end\n\n  def count(word)\n    @counts[word]\n  end\nend\n\nlines = [[\"a\", \"rose\", \"is\", \"a\", \"rose\"], [\"the\", \"rose\", \"is\", \"red\"], [\"and\", \"red\", \"is\", \"the\", \"sun\"]]\ncounted = WordCount.new\n\n# Each thread is given a line of its own, and all of them the same counts.\nthreads = lines.map do |line|\n  Thread.new(line) { |words| words.each { |word| counted.add(word) } }\nend\nthreads.each { |thread| thread.join }\n[\"a\", \"and\", \"is\", \"red\", \"rose\", \"sun\", \"the\"].each { |word| puts \"#{word} #{counted.count(word)}\" }\n",
    "a 2\nand 1\nis 3\nred 2\nrose 3\nsun 1\nthe 2\n",
    "",
);

/// `examples/shapes.rb`, and what it prints.
pub(super) const SHAPES: &str =
    "# rbso shapes examples/shapes.rb tells the shapes of these objects behind what the script prints.\nclass Point\n  attr_accessor :x, :y, :name\n\n  def initialize(x, y)\n    @x = x\n    @y = y\n  end\nend\n\na = Point.new(1, 2)\nb = Point.new(3, 4)\nputs a.x + b.x\n\n# One name more is a step to another shape.\nb.name = \"b\"\n\n# A text does not fit a place for integers: x moves to a new place.\na.x = \"left\"\nputs a.x, b.name\n\n# The same names in another order are another path.\nclass Size\n  attr_accessor :wide, :high\nend\n\none = Size.new\none.wide = 1\none.high = 2\nother = Size.new\nother.high = 3\nother.wide = 4\nputs one.wide * other.high\n";

pub(super) const SHAPES_PRINT: &str = "4\nleft\nb\n3\n";

#[test]
fn examples_print_what_they_should(rt: HostRuntime) -> Result<(), Fail> {
    let all = [
        ANSWER,
        LINES,
        INTEGERS,
        BRANCHES,
        LOOPS,
        BLOCKS,
        METHODS,
        TEXTS,
        OBJECTS,
        TO_S,
        ARRAYS,
        HASHES,
        WORD_COUNT,
        BANK,
        LIFE,
        THREADS,
        SHARED,
        FAULTS,
        (SHAPES, SHAPES_PRINT, ""),
    ];
    all_hold(&rt, rt.alloc(), &all)
}
