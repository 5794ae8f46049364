// One step of a writer or a reader of the system, and the sink over a writer.

ghost use Rattle.std.specs.Prelude.{◌≡◌, ◌≢◌, ◌≤◌, None, length, IfOk, IfErr};
ghost use Rattle.std.specs.Io.{WritesAtMost};
ghost use Rattle.std.specs.Io.KnownBytes.{ReadConsumes, WriteAppends};
ghost use Rattle.std.specs.IoError.{error_kind};
ghost use Rattle.rb_edge.specs.Edge.{Rose, Writes};
ghost use Rattle.rb_edge.specs.Stream.{failed_after, read_count, write_answer, Takes};

use crate::traits::{Read, Sink, Write};
use std::io;
use std::io::ErrorKind;

/// Reads once, and again where a signal came in between.
pub(super) fn read_some<F: io::Read>(file: &mut F, room: &mut [u8]) -> io::Result<usize>
    ensures within { IfOk result (λ n. n ≤ length room.old) }
    ensures bytes { ReadConsumes (F.remaining file.old) (F.remaining file.new) result room.new }
{
    'tries: for _ in 0..u64::MAX {
        match file.read(room) {
            Err(error) if error.kind() == ErrorKind::Interrupted => {}
            answer => return answer,
        }
    }
    Err(io::Error::from(ErrorKind::Interrupted))
}

/// The answer to a read into so much room.
pub(super) fn read_answer(room: usize, answer: io::Result<usize>) -> Read
    ensures count { IfOk answer (λ n. result ≡ read_count room n) }
    ensures missing { IfErr answer (λ e. error_kind e ≡ ErrorKind.NotFound → result ≡ Read.Missing) }
    ensures failed { IfErr answer (λ e. error_kind e ≢ ErrorKind.NotFound → result ≡ Read.Failed) }
{
    match answer {
        Ok(count) if count > 0 || room == 0 => Read::Got(count),
        Ok(_) => Read::End,
        Err(error) => failed_read(error.kind()),
    }
}

/// The answer where a read failed.
fn failed_read(kind: ErrorKind) -> Read
    ensures missing { kind ≡ ErrorKind.NotFound → result ≡ Read.Missing }
    ensures failed { kind ≢ ErrorKind.NotFound → result ≡ Read.Failed }
{
    match kind {
        ErrorKind::NotFound => Read::Missing,
        _ => Read::Failed,
    }
}

/// Writes once, and again where a signal came in between.
fn write_some<W: io::Write>(output: &mut W, bytes: &[u8]) -> io::Result<usize>
    ensures bound { WritesAtMost result bytes.now }
    ensures bytes { WriteAppends (W.contents output.old) (W.contents output.new) result bytes.now }
{
    'tries: for _ in 0..u64::MAX {
        match output.write(bytes) {
            Err(error) if error.kind() == ErrorKind::Interrupted => {}
            answer => return answer,
        }
    }
    Err(io::Error::from(ErrorKind::Interrupted))
}

/// The answer to a write of so many bytes.
fn write_answer(asked: usize, answer: io::Result<usize>) -> Write
    ensures { result ≡ write_answer asked answer }
{
    match answer {
        Ok(count) if count > 0 || asked == 0 => Write::Took(count),
        _ => Write::Failed,
    }
}

/// One step of a writer, from the front of bytes.
fn take_some<W: io::Write>(output: &mut W, bytes: &[u8]) -> Write
    ensures writes { Writes None None bytes.now result }
    ensures taken { Takes (W.contents output.old) (W.contents output.new) bytes.now result }
{
    let answer = write_some(output, bytes);
    write_answer(bytes.len(), answer)
}

/// The sink over a writer, as over the standard output. A write goes straight out.
#[derive(Drop)]
pub struct StreamSink<W> {
    pub(super) output: W,
    pub(super) failed: u64,
}

impl<W> StreamSink<W> {
    /// The sink over this writer.
    pub fn new(output: W) -> StreamSink<W>
        ensures output { result.output ≡ output }
        ensures failed { result.failed ≡ 0 }
    {
        StreamSink { output, failed: 0 }
    }
}

impl<W: io::Write> Sink for StreamSink<W> {
    ghost told = { λ _. None };

    ghost faults = { λ it. it.failed };

    fn write(&mut self, bytes: &[u8]) -> Write
        ensures writes { Writes None None bytes.now result }
        ensures rises { self.old.failed ≤ self.new.failed }
        ensures cause { result ≡ Write.Failed → Rose self.old.failed self.new.failed }
        // Where the writer tells what it holds, the answer is what was added to it.
        ensures taken { Takes (W.contents self.old.output) (W.contents self.new.output) bytes.now result }
        ensures failed { self.new.failed ≡ failed_after result self.old.failed }
    {
        let answer = take_some(&mut self.output, bytes);
        if let Write::Failed = answer {
            self.failed = self.failed.saturating_add(1);
        }
        answer
    }
}
