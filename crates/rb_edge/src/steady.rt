// An outside that never fails, and a gate that does nothing.

ghost use Rattle.std.specs.Prelude.{◌≡◌, ◌≤◌, ℕ, List, None, length};
ghost use Rattle.rb_edge.specs.Edge.{Reads, Rose, Writes};
ghost use Rattle.rb_edge.specs.Memory.{answer_of, held_in, stored_in};

use crate::stored::read_stored;
use crate::traits::{Files, Gate, Read, Sink, Write};
use rb_tree::Text;

/// Files in memory, each a path and its bytes, whose reads never fail.
#[derive(Drop)]
pub struct NeverFailsFiles {
    /// The files. Where two have one path, the first counts.
    pub files: Vec<(Text, Text)>,
}

impl Files for NeverFailsFiles {
    ghost held = { λ it path. held_in path it.files.items };

    ghost faults = { λ _. 0 };

    fn read(&mut self, path: &str, at: u64, room: &mut [u8]) -> Read
        ensures held { (p : List ℕ) → held_in p self.new.files.items ≡ held_in p self.old.files.items }
        ensures reads { Reads (held_in path.now self.old.files.items) at (length room.old) room.new result }
        ensures rises { 0 ≤ 0 }
        ensures cause { result ≡ Read.Failed → Rose 0 0 }
        ensures answer { result ≡ answer_of (stored_in path.now self.old.files.items) at (length room.old) }
        ensures kept { self.new ≡ self.old }
    {
        read_stored(&self.files, path, at, room)
    }
}

/// A sink that drops what it takes, and never fails.
#[derive(Drop)]
pub struct NeverFailsSink {}

impl Sink for NeverFailsSink {
    ghost told = { λ _. None };

    ghost faults = { λ _. 0 };

    fn write(&mut self, bytes: &[u8]) -> Write
        ensures writes { Writes None None bytes.now result }
        ensures rises { 0 ≤ 0 }
        ensures cause { result ≡ Write.Failed → Rose 0 0 }
        ensures takes { result ≡ Write.Took (length bytes.now) }
    {
        Write::Took(bytes.len())
    }
}

/// A gate that does nothing.
#[derive(Drop)]
pub struct OpenGate {}

impl Gate for OpenGate {
    fn before(&self, _thread: u64, _step: u64) {}

    fn after(&self, _thread: u64, _step: u64) {}
}
