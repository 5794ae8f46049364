// What the program asks of its outside.

ghost use Rattle.std.specs.Prelude.{◌≡◌, ◌≤◌, ℕ, List, Option, length};
ghost use Rattle.rb_edge.specs.Edge.{Held, Rose, Reads, Writes};

/// What a read answers.
#[derive(Clone, Copy, Debug, PartialEq, Eq, Drop)]
pub enum Read {
    /// So many bytes stand at the front of the room.
    Got(usize),
    /// The file has no byte at this place or after it.
    End,
    /// There is no file under this path.
    Missing,
    /// The read failed.
    Failed,
}

/// What a write answers.
#[derive(Clone, Copy, Debug, PartialEq, Eq, Drop)]
pub enum Write {
    /// So many bytes were taken, from the front.
    Took(usize),
    /// Nothing was taken.
    Failed,
}

/// Files that may tell what they hold.
pub trait Files {
    /// What is held under a path.
    ghost held: { Self → List ℕ → Held };

    /// How often a call has failed.
    ghost faults: { Self → ℕ };

    /// Reads bytes of the file under `path`, from the place `at` on, into the front of `room`.
    fn read(&mut self, path: &str, at: u64, room: &mut [u8]) -> Read
        ensures held { (p : List ℕ) → held self.new p ≡ held self.old p }
        ensures reads { Reads (held self.old path.now) at (length room.old) room.new result }
        ensures rises { faults self.old ≤ faults self.new }
        ensures cause { result ≡ Read.Failed → Rose (faults self.old) (faults self.new) };
}

/// A sink that may tell what it has taken.
pub trait Sink {
    /// The bytes that it has taken.
    ghost told: { Self → Option (List ℕ) };

    /// How often a call has failed.
    ghost faults: { Self → ℕ };

    /// Takes bytes from the front of `bytes`.
    fn write(&mut self, bytes: &[u8]) -> Write
        ensures writes { Writes (told self.old) (told self.new) bytes.now result }
        ensures rises { faults self.old ≤ faults self.new }
        ensures cause { result ≡ Write.Failed → Rose (faults self.old) (faults self.new) };
}

/// What stands around each shared step of a thread. It may do anything that returns.
pub trait Gate {
    /// Is called before a step of a thread.
    fn before(&self, thread: u64, step: u64);

    /// Is called after a step of a thread.
    fn after(&self, thread: u64, step: u64);
}
