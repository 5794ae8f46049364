// Files and a sink in memory, whose calls fail where they are told to.

ghost use Rattle.std.specs.Prelude.{◌≡◌, ◌≤◌, ◌||◌, [], ℕ, List, Some, length, vec_len, vec_capacity, IfOk, if◌then◌else◌};
ghost use Rattle.rb_edge.specs.Edge.{Reads, Rose, Writes};
ghost use Rattle.rb_edge.specs.Memory.{files_answer, held_in, is_to_fail, is_too_long, one_more, sink_answer, stored_in};

use crate::stored::read_stored;
use crate::traits::{Files, Read, Sink, Write};
use rb_tree::Text;
use std::alloc::{AllocError, Global};

/// Files in memory, each a path and its bytes.
#[derive(Drop)]
pub struct MemoryFiles {
    /// The files. Where two have one path, the first counts.
    pub files: Vec<(Text, Text)>,
    /// The numbers of the calls that fail, from 1.
    pub failing: Vec<u64>,
    calls: u64,
    failed: u64,
}

impl MemoryFiles {
    /// Files that were not read yet.
    pub fn new(files: Vec<(Text, Text)>, failing: Vec<u64>) -> MemoryFiles
        ensures files { result.files ≡ files }
        ensures failing { result.failing ≡ failing }
        ensures fresh { (result.calls ≡ 0) × (result.failed ≡ 0) }
    {
        MemoryFiles {
            files,
            failing,
            calls: 0,
            failed: 0,
        }
    }
}

impl Files for MemoryFiles {
    ghost held = { λ it path. held_in path it.files.items };

    ghost faults = { λ it. it.failed };

    fn read(&mut self, path: &str, at: u64, room: &mut [u8]) -> Read
        ensures held { (p : List ℕ) → held_in p self.new.files.items ≡ held_in p self.old.files.items }
        ensures reads { Reads (held_in path.now self.old.files.items) at (length room.old) room.new result }
        ensures rises { self.old.failed ≤ self.new.failed }
        ensures cause { result ≡ Read.Failed → Rose self.old.failed self.new.failed }
        // A call fails where its number is listed, and only there.
        ensures answer { result ≡ files_answer (is_to_fail self.old.calls self.old.failing.items)
            (stored_in path.now self.old.files.items) at (length room.old) }
        ensures calls { self.new.calls ≡ one_more self.old.calls }
        ensures failed { self.new.failed ≡ (if is_to_fail self.old.calls self.old.failing.items
            then one_more self.old.failed else self.old.failed) }
        ensures kept { (self.new.files ≡ self.old.files) × (self.new.failing ≡ self.old.failing) }
    {
        self.calls = self.calls.saturating_add(1);
        if self.failing.contains(&self.calls) {
            self.failed = self.failed.saturating_add(1);
            return Read::Failed;
        }
        read_stored(&self.files, path, at, room)
    }
}

/// A sink that keeps what it takes, up to a size.
#[derive(Drop)]
pub struct MemorySink {
    told: Vec<u8>,
    room: usize,
    /// The numbers of the calls that fail, from 1.
    pub failing: Vec<u64>,
    calls: u64,
    failed: u64,
    ghost within: { vec_len told ≤ room },
    ghost spacious: { room ≤ vec_capacity told },
}

impl MemorySink {
    /// An empty sink for up to `room` bytes. The memory for all of them is taken here.
    pub fn new(alloc: Global, failing: Vec<u64>, room: usize) -> Result<MemorySink, AllocError>
        ensures told { IfOk result (λ it. it.told.items ≡ []) }
        ensures room { IfOk result (λ it. it.room ≡ room) }
        ensures failing { IfOk result (λ it. it.failing ≡ failing) }
        ensures fresh { IfOk result (λ it. (it.calls ≡ 0) × (it.failed ≡ 0)) }
    {
        Ok(MemorySink {
            told: Vec::with_capacity(alloc, room)?,
            room,
            failing,
            calls: 0,
            failed: 0,
        })
    }

    /// The bytes that were taken.
    pub fn bytes(&self) -> &[u8]
        ensures { result.now ≡ self.now.told.items }
    {
        self.told.as_slice()
    }

    /// Whether a further piece passes the room.
    fn is_too_long(&self, piece: &[u8]) -> bool
        ensures { result ≡ is_too_long self.now.room self.now.told.items piece.now }
    {
        piece.len() > self.room - self.told.len()
    }
}

impl Sink for MemorySink {
    ghost told = { λ it. Some it.told.items };

    ghost faults = { λ it. it.failed };

    fn write(&mut self, bytes: &[u8]) -> Write
        ensures writes { Writes (Some self.old.told.items) (Some self.new.told.items) bytes.now result }
        ensures rises { self.old.failed ≤ self.new.failed }
        ensures cause { result ≡ Write.Failed → Rose self.old.failed self.new.failed }
        // A call fails where its number is listed or the room would be passed; any other takes the whole piece.
        ensures answer { result ≡ sink_answer (is_to_fail self.old.calls self.old.failing.items
            || is_too_long self.old.room self.old.told.items bytes.now) bytes.now }
        ensures calls { self.new.calls ≡ one_more self.old.calls }
        ensures failed { self.new.failed ≡ (if is_to_fail self.old.calls self.old.failing.items
            || is_too_long self.old.room self.old.told.items bytes.now
            then one_more self.old.failed else self.old.failed) }
        ensures kept { (self.new.room ≡ self.old.room) × (self.new.failing ≡ self.old.failing) }
    {
        self.calls = self.calls.saturating_add(1);
        if self.failing.contains(&self.calls) || self.is_too_long(bytes) {
            self.failed = self.failed.saturating_add(1);
            return Write::Failed;
        }
        match self.told.extend_from_slice(bytes) {
            Ok(()) => Write::Took(bytes.len()),
            Err(_) => unreachable!(),
        }
    }
}
