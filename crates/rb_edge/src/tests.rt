// What the system and its streams answer, and reading and writing in several turns.

ghost use Rattle.std.specs.Prelude.{◌≤◌, IfOk, Some};

use super::*;
use crate::real::Opened;
use crate::stream::read_answer;
use std::alloc::{AllocError, Global};
use std::test::Fail;
use std::{fs, io};

/// Path, place, answer, and what stands at the front of the four bytes of room.
const READS: [(&str, u64, Read, &str); 10] = [
    ("song.txt", 0, Read::Got(4), "hell"),
    ("song.txt", 4, Read::Got(4), "o wo"),
    ("short.txt", 1, Read::Got(2), "bc"),
    ("song.txt", 8, Read::Got(3), "rld"),
    ("song.txt", 11, Read::End, ""),
    ("song.txt", 1, Read::Got(4), "ello"),
    ("no such file", 0, Read::Missing, ""),
    (".", 0, Read::Failed, ""),
    ("short.txt", 9, Read::End, ""),
    ("short.txt", 0, Read::Got(3), "abc"),
];

/// The number of the first read that is answered otherwise.
fn first_wrong_read<F: Files>(files: &mut F) -> Option<usize> {
    for (number, (path, at, answer, front)) in READS.iter().enumerate() {
        let mut room = [0u8; 4];
        let found = files.read(path, *at, &mut room);
        if found != *answer || !room.starts_with(front.as_bytes()) {
            return Some(number);
        }
    }
    None
}

/// Whether a sink takes a line, and no bytes.
fn takes_a_line<K: Sink>(sink: &mut K) -> bool {
    sink.write(b"line\n") == Write::Took(5) && sink.write(b"") == Write::Took(0)
}

/// What a stream does at one step.
#[derive(Clone, Copy, Drop)]
enum Step {
    /// It moves so many bytes at most.
    Moves(usize),
    /// It fails.
    Fails(io::ErrorKind),
}

/// A stream that does as listed and then moves nothing, and the bytes that it was given.
#[derive(Drop)]
struct Listed {
    next: usize,
    given: Vec<u8>,
}

impl Listed {
    /// How many of so many bytes the next step moves.
    fn count(&mut self, most: usize) -> io::Result<usize>
        ensures { IfOk result (λ n. n ≤ most) }
    {
        let step = match STEPS.get(self.next) {
            Some(step) => *step,
            None => Step::Moves(0),
        };
        self.next = self.next.saturating_add(1);
        match step {
            Step::Moves(count) => Ok(count.min(most)),
            Step::Fails(kind) => Err(io::Error::from(kind)),
        }
    }
}

impl io::Write for Listed {
    fn write(&mut self, bytes: &[u8]) -> io::Result<usize> {
        let count = self.count(bytes.len())?;
        self.given.extend_from_slice(&bytes[..count])?;
        Ok(count)
    }

    fn flush(&mut self) -> io::Result<()> {
        Ok(())
    }
}

impl io::Read for Listed {
    fn read(&mut self, room: &mut [u8]) -> io::Result<usize> {
        let count = self.count(room.len())?;
        room[..count].fill(b'x');
        Ok(count)
    }
}

/// Steps, each a call but for the interrupted ones, which are tried again.
const STEPS: [Step; 7] = [
    Step::Moves(2),
    Step::Fails(io::ErrorKind::Interrupted),
    Step::Moves(1),
    Step::Fails(io::ErrorKind::BrokenPipe),
    Step::Fails(io::ErrorKind::NotFound),
    Step::Moves(0),
    Step::Moves(0),
];

/// Bytes that are written to that stream, and the answer.
const WRITES: [(&str, Write); 6] = [
    ("abc", Write::Took(2)),
    ("c", Write::Took(1)),
    ("def", Write::Failed),
    ("def", Write::Failed),
    ("def", Write::Failed),
    ("", Write::Took(0)),
];

/// Whether they are answered so, and the fronts that were taken are all that was given.
fn takes_fronts(alloc: Global) -> bool {
    let given = Vec::new(alloc);
    let mut sink = StreamSink::new(Listed { next: 0, given });
    for (piece, answer) in WRITES {
        if sink.write(piece.as_bytes()) != answer {
            return false;
        }
    }
    sink.output.given.as_slice() == b"abc".as_slice()
}

/// How much room that stream is read into, and the answer.
const ROOMS: [(usize, Read); 6] = [
    (3, Read::Got(2)),
    (3, Read::Got(1)),
    (3, Read::Failed),
    (3, Read::Missing),
    (3, Read::End),
    (0, Read::Got(0)),
];

/// Whether they are answered so.
fn gives_fronts(alloc: Global) -> bool {
    let given = Vec::new(alloc);
    let mut opened = Opened {
        path: None,
        file: Listed { next: 0, given },
        at: 5,
    };
    let mut room = [0u8; 3];
    for (size, answer) in ROOMS {
        let read = opened.read(&mut room[..size]);
        if read_answer(size, read) != answer {
            return false;
        }
    }
    opened.at == 8
}

/// A sink that takes up to three bytes at once.
#[derive(Drop)]
struct Narrow {
    inner: MemorySink,
}

impl Sink for Narrow {
    ghost told = { λ it. Some it.inner.told.items };

    ghost faults = { λ it. it.inner.failed };

    fn write(&mut self, bytes: &[u8]) -> Write {
        let count = bytes.len().min(3);
        self.inner.write(&bytes[..count])
    }
}

/// Whether a text of eight bytes is written in three turns, and the failure at the second one is told.
fn is_written(alloc: Global, failing: u64) -> Result<Result<(), SinkFailed>, AllocError> {
    let inner = MemorySink::new(alloc, vec![in alloc; failing]?, 8)?;
    let mut sink = Narrow { inner };
    Ok(write_all(&mut sink, b"abcdefgh"))
}

#[test]
fn the_system_answers(rt: HostRuntime) -> Result<(), Fail> {
    fs::write(&rt, "song.txt", "hello world")?;
    fs::write(&rt, "short.txt", "abc")?;
    let wrong = first_wrong_read(&mut RealFiles::new(rt.alloc(), &rt));
    assert_eq!(rt; wrong, None);
    let lines = takes_a_line(&mut StreamSink::new(rt.stdout()))
        && takes_a_line(&mut StreamSink::new(rt.stderr()))
        && takes_a_line(&mut NeverFailsSink {});
    assert!(rt; lines);
    Ok(())
}

#[test]
fn turns_that_move_a_part_or_fail_are_told(rt: HostRuntime) -> Result<(), Fail> {
    let alloc = rt.alloc();
    let fronts = takes_fronts(alloc) && gives_fronts(alloc);
    assert!(rt; fronts);
    let written = (is_written(alloc, 9)?, is_written(alloc, 2)?);
    assert!(rt; written == (Ok(()), Err(SinkFailed { taken: 3 })));
    Ok(())
}
