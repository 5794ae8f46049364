// Mutexes of one thread.

use super::Row;

/// What a mutex does, whose it is, and how the block of `synchronize` is left.
pub(super) const MUTEXES: [Row; 14] = [
    (
        "m = Mutex.new\nputs m.lock == m, m.unlock == m\nm.lock\nm.unlock\nputs m",
        "true\ntrue\n#<Mutex>\n",
        "",
    ),
    (
        "m = Mutex.new\nm.lock\nputs 1\nm.lock",
        "1\n",
        "fault LockOwned at 4:3",
    ),
    ("Mutex.new.unlock", "", "fault UnlockForeign at 1:11"),
    (
        "m = Mutex.new\nputs(m.synchronize { x = 2\n x + 3 })\nm.lock",
        "5\n",
        "",
    ),
    (
        "m = Mutex.new\nm.synchronize { m.synchronize { 1 } }",
        "",
        "fault LockOwned at 2:19",
    ),
    (
        "m = Mutex.new\nm.synchronize { m.unlock }",
        "",
        "fault UnlockForeign at 2:3",
    ),
    (
        "m = Mutex.new\np(m.synchronize { break })\np(m.synchronize { next })\nm.lock",
        "nil\nnil\n",
        "",
    ),
    (
        "def f(m)\n  m.synchronize { return 7 }\n  8\nend\nm = Mutex.new\nputs f(m), f(m)\nm.lock",
        "7\n7\n",
        "",
    ),
    (
        "m = Mutex.new\n3.times { |i| m.synchronize { next if i == 1\n puts i } }\nm.lock",
        "0\n2\n",
        "",
    ),
    (
        "m = Mutex.new\nm.synchronize { 1 + nil }",
        "",
        "fault TypeMismatch at 2:19",
    ),
    (
        "m = Mutex.new\nm.synchronize { |a| a }",
        "",
        "fault ArgumentCount at 2:3",
    ),
    (
        "m = Mutex.new\nm.synchronize",
        "",
        "fault ArgumentCount at 2:3",
    ),
    ("Mutex.new(1)", "", "fault ArgumentCount at 1:7"),
    (
        "class Account\n  attr_reader :sum\n  def initialize\n    @lock = Mutex.new\n    @sum = 0\n  end\n  def add(n)\n    @lock.synchronize { @sum += n }\n  end\nend\na = Account.new\n5.times { |n| a.add(n) }\nputs a.sum",
        "10\n",
        "",
    ),
];
