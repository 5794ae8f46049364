// Locals of outside that threads use: settled where no assignment may still come.

pub(super) const ROWS: [(&str, &str); 48] = [
    ("x = 1; Thread.new { x }", "kept"),
    ("x = 1; Thread.new { x }; puts x", "kept"),
    ("x = 1; Thread.new { x }; x = 2", "UnsettledCapture 20"),
    ("x = 1; Thread.new { x }; x += 2", "UnsettledCapture 20"),
    (
        "x = 1; Thread.new { 3.times { x } }; x = 2",
        "UnsettledCapture 30",
    ),
    ("x = 1; y = 1; Thread.new { x }; y = 2", "kept"),
    (
        "x = 1; y = 1; Thread.new { x; y }; y = 2",
        "UnsettledCapture 30",
    ),
    ("x = 1; Thread.new { x }; def foo; x = 2; end", "kept"),
    // In its own value.
    ("x = Thread.new { x }", "UnsettledCapture 17"),
    ("x = [Thread.new { x }]", "UnsettledCapture 18"),
    ("x += Thread.new { x }", "UnsettledCapture 18"),
    ("x = 1; x = Thread.new { x }", "UnsettledCapture 24"),
    ("x = 1; y = Thread.new { x }", "kept"),
    ("x = []; x[0] = Thread.new { x }", "kept"),
    // In loops.
    (
        "while true; x = 1; Thread.new { x }; end",
        "UnsettledCapture 32",
    ),
    ("x = 1; while true; Thread.new { x }; end", "kept"),
    (
        "x = 1; while true; Thread.new { x }; x = 2; end",
        "UnsettledCapture 32",
    ),
    ("while true; x = 1; end; Thread.new { x }", "kept"),
    (
        "while true; x = 1; while true; Thread.new { x }; end; end",
        "UnsettledCapture 44",
    ),
    (
        "x = 0; while x = 1; Thread.new { x }; end",
        "UnsettledCapture 33",
    ),
    // In blocks: a local of the block is new at each iteration.
    ("3.times { |y| x = 1; Thread.new { x } }", "kept"),
    (
        "3.times { |y| x = 1; Thread.new { x }; x = 2 }",
        "UnsettledCapture 34",
    ),
    (
        "x = 1; 3.times { |y| x = 1; Thread.new { x } }",
        "UnsettledCapture 41",
    ),
    ("x = 1; 3.times { |y| Thread.new { x } }", "kept"),
    ("x = 1; 3.times { |x| x = 2; Thread.new { x } }", "kept"),
    ("3.times { |x| Thread.new { x } }", "kept"),
    (
        "3.times { |x| Thread.new { x }; x = 1 }",
        "UnsettledCapture 27",
    ),
    (
        "x = 1; Thread.new { x }; 3.times { x = 2 }",
        "UnsettledCapture 20",
    ),
    ("x = 1; Thread.new { x }; 3.times { |x| x = 2 }", "kept"),
    ("3.times { x = 1 }; x = 1; Thread.new { x }", "kept"),
    // In the thread itself.
    ("x = 1; Thread.new { x = 2 }", "UnsettledCapture 22"),
    ("x = 1; Thread.new { |x| x = 2 }", "kept"),
    ("Thread.new { x = 1; x }", "kept"),
    ("Thread.new { x = 1 }; x = 2; Thread.new { x }", "kept"),
    // In its arguments, which stand behind the start.
    ("Thread.new(x = 1) { x }", "UnsettledCapture 20"),
    ("x = 1; Thread.new(x) { |y| y }; x = 2", "kept"),
    // In a thread in a thread.
    ("x = 1; Thread.new { Thread.new { x } }", "kept"),
    (
        "x = 1; Thread.new { Thread.new { x }; x = 2 }",
        "UnsettledCapture 33",
    ),
    (
        "x = 1; Thread.new { Thread.new { x } }; x = 2",
        "UnsettledCapture 33",
    ),
    ("Thread.new { x = 1; Thread.new { x } }", "kept"),
    (
        "Thread.new { x = 1; Thread.new { x }; x = 2 }",
        "UnsettledCapture 33",
    ),
    // In methods.
    ("def foo(x); Thread.new { x }; end", "kept"),
    (
        "def foo(x); Thread.new { x }; x = 1; end",
        "UnsettledCapture 25",
    ),
    // A body stands before its modifier, a condition before the body, an index before the value.
    ("x = 1 if Thread.new { x }", "kept"),
    (
        "x = 0; y = Thread.new { x } if x = 1",
        "UnsettledCapture 24",
    ),
    ("if x = 1; Thread.new { x }; end", "kept"),
    ("x = []; x[x = 1] += Thread.new { x }", "kept"),
    (
        "x = []; x[Thread.new { x }] += (x = 1)",
        "UnsettledCapture 23",
    ),
];
