// A line of the table of threads.

/// A thread that has a line: its number, and whether it has ended.
#[derive(Clone, Copy)]
pub struct Line {
    pub number: u64,
    pub over: bool,
}
