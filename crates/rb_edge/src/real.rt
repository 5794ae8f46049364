// The files of the system, which tell no content.

ghost use Rattle.std.specs.Prelude.{◌≡◌, ◌≤◌, ◌+◌, ◌-◌, ◌^◌, ℕ, List, length, min, string_bytes, IfOk, IfSome, IsSomeAnd, IsTrue};
ghost use Rattle.std.specs.Io.KnownBytes.{ReadConsumes};
ghost use Rattle.rb_edge.specs.Edge.{Reads, Rose, Untold};

use crate::stream::{read_answer, read_some};
use crate::traits::{Files, Read};
use std::alloc::Global;
use std::fs::File;
use std::io;
use std::io::{Seek, SeekFrom};
use std::rt::Files as System;

/// A file that stays open between two reads. Where there was no memory for its path, it has none and serves one read.
#[derive(Drop)]
pub(super) struct Opened<F> {
    pub(super) path: Option<String>,
    pub(super) file: F,
    pub(super) at: u64,
}

impl<F> Opened<F> {
    /// Whether this is the file under a path, standing at a place.
    fn stands(&self, path: &str, at: u64) -> bool
        ensures path { IsTrue result → IfSome self.now.path (λ kept. string_bytes kept ≡ path.now) }
        ensures place { IsTrue result → self.now.at ≡ at }
    {
        match &self.path {
            Some(kept) => kept.as_str() == path && self.at == at,
            None => false,
        }
    }
}

impl<F: io::Read> Opened<F> {
    /// Reads on.
    pub(super) fn read(&mut self, room: &mut [u8]) -> io::Result<usize>
        ensures within { IfOk result (λ n. n ≤ length room.old) }
        ensures bytes { ReadConsumes (F.remaining self.old.file) (F.remaining self.new.file) result room.new }
        ensures place { IfOk result (λ n. self.new.at ≡ min (self.old.at + n) (2 ^ 64 - 1)) }
        ensures path { self.new.path ≡ self.old.path }
    {
        let count = read_some(&mut self.file, room)?;
        self.at = self.at.saturating_add(count as u64);
        Ok(count)
    }
}

/// The files of the system. The one that was read last stays open, so that reading on needs no seek.
#[derive(Drop)]
pub struct RealFiles<'a, R: System> {
    alloc: Global,
    system: &'a R,
    last: Option<Opened<R::File>>,
    failed: u64,
}

impl<'a, R: System> RealFiles<'a, R> {
    /// The files that `system` reaches. The path of the open file is kept in memory that `alloc` gives.
    pub fn new(alloc: Global, system: &'a R) -> RealFiles<'a, R>
        ensures { result.failed ≡ 0 }
    {
        RealFiles {
            alloc,
            system,
            last: None,
            failed: 0,
        }
    }

    /// The file under a path, standing at a place: the one that is open, where it stands there.
    fn opened(&mut self, path: &str, at: u64) -> io::Result<Opened<R::File>>
        ensures path { IfOk result (λ it. IfSome it.path (λ kept. string_bytes kept ≡ path.now)) }
        ensures place { IfOk result (λ it. it.at ≡ at) }
        ensures failed { self.new.failed ≡ self.old.failed }
    {
        if let Some(last) = self.last.take() {
            if last.stands(path, at) {
                return Ok(last);
            }
        }
        let mut file = File::open(self.system, path)?;
        if at > 0 {
            file.seek(SeekFrom::Start(at))?;
        }
        let path = String::from_str(self.alloc, path).ok();
        Ok(Opened { path, file, at })
    }

    /// Reads on in the open file or in one that is opened. After an error no file is open.
    fn read_at(&mut self, path: &str, at: u64, room: &mut [u8]) -> io::Result<usize>
        ensures within { IfOk result (λ n. n ≤ length room.old) }
        ensures stays_open { IfOk result (λ n. IsSomeAnd self.new.last (λ it. IfSome it.path (λ kept. string_bytes kept ≡ path.now))) }
        ensures place { IfOk result (λ n. IsSomeAnd self.new.last (λ it. it.at ≡ min (at + n) (2 ^ 64 - 1))) }
        ensures failed { self.new.failed ≡ self.old.failed }
    {
        let mut opened = self.opened(path, at)?;
        let count = opened.read(room)?;
        self.last = Some(opened);
        Ok(count)
    }
}

impl<R: System> Files for RealFiles<'_, R> {
    ghost held = { λ _ _. Untold };

    ghost faults = { λ it. it.failed };

    fn read(&mut self, path: &str, at: u64, room: &mut [u8]) -> Read
        ensures held { (p : List ℕ) → Untold ≡ Untold }
        ensures reads { Reads Untold at (length room.old) room.new result }
        ensures rises { self.old.failed ≤ self.new.failed }
        ensures cause { result ≡ Read.Failed → Rose self.old.failed self.new.failed }
        // Behind the bytes that were got stands the open file.
        ensures place { (n : ℕ) → result ≡ Read.Got n → IsSomeAnd self.new.last (λ it. it.at ≡ min (at + n) (2 ^ 64 - 1)) }
    {
        let size = room.len();
        let answer = read_answer(size, self.read_at(path, at, room));
        if let Read::Failed = answer {
            self.failed = self.failed.saturating_add(1);
        }
        answer
    }
}
