//! Reading a whole source and writing a whole text, in turns.

ghost use Rattle.std.specs.Prelude.{◌≡◌, ◌≤◌, ◌<◌, ℕ, List, IsErrOf, IfOk, IfErr, OnOk, OnErr, length, take};
ghost use Rattle.rb_edge.specs.Edge.{Adds, Rose};
ghost use Rattle.rb_edge.specs.Transfer.{NotHeld, ReadOf};

use crate::{Files, Read, Sink, Write};
use std::alloc::Global;

/// The bytes that are read at most: one more than a source may have, so that a longer one shows.
const MOST: usize = 1_048_577;

/// The bytes that are read in one turn.
const ROOM: usize = 4096;

/// Why no source was read.
#[derive(Clone, Copy, Debug, PartialEq, Eq, Drop)]
pub enum ReadFault {
    /// There is no file under the path.
    Missing,
    /// A read failed.
    Failed,
    /// There was no memory for the bytes.
    Memory,
}

/// The sink failed before it had taken all of a text.
#[derive(Clone, Copy, Debug, PartialEq, Eq, Drop)]
pub struct SinkFailed {
    /// How many bytes it had taken, from the front.
    pub taken: usize,
}

/// Reads a file to its end, or 1,048,577 bytes of it.
pub fn read_source<F: Files>(alloc: Global, files: &mut F, path: &str) -> Result<Vec<u8>, ReadFault>
    ensures read { IfOk result (λ bytes. ReadOf (F.held files.old path.now) bytes.items) }
    ensures short { IfOk result (λ bytes. length bytes.items ≤ 1048577) }
    ensures missing { IsErrOf result ReadFault.Missing → NotHeld (F.held files.old path.now) }
    ensures failed { IsErrOf result ReadFault.Failed → Rose (F.faults files.old) (F.faults files.new) }
    ensures rises { F.faults files.old ≤ F.faults files.new }
    ensures held { (p : List ℕ) → F.held files.new p ≡ F.held files.old p }
{
    let mut bytes = Vec::new(alloc);
    let mut room = [0u8; ROOM];
    'turns: while bytes.len() < MOST {
        let wanted = (MOST - bytes.len()).min(ROOM);
        match files.read(path, bytes.len() as u64, &mut room[..wanted]) {
            Read::Got(0) => return Ok(bytes),
            Read::End => return Ok(bytes),
            Read::Got(count) => {
                let Ok(()) = bytes.extend_from_slice(&room[..count]) else {
                    return Err(ReadFault::Memory);
                };
            }
            Read::Missing => return Err(ReadFault::Missing),
            Read::Failed => return Err(ReadFault::Failed),
        }
    }
    Ok(bytes)
}

/// Writes all of a text. Each turn hands over what was not yet taken. Where it fails, a front of the text was taken.
pub fn write_all<K: Sink>(sink: &mut K, text: &[u8]) -> Result<(), SinkFailed>
    ensures all { OnOk result (Adds (K.told sink.old) (K.told sink.new) text.now) }
    ensures front { OnErr result ((n : ℕ) × (n < length text.now) × Adds (K.told sink.old) (K.told sink.new) (take n text.now)) }
    ensures taken { IfErr result (λ failed. (failed.taken < length text.now) × Adds (K.told sink.old) (K.told sink.new) (take failed.taken text.now)) }
    ensures cause { OnErr result (Rose (K.faults sink.old) (K.faults sink.new)) }
    ensures rises { K.faults sink.old ≤ K.faults sink.new }
{
    let mut taken = 0;
    'turns: while taken < text.len() {
        match sink.write(&text[taken..]) {
            Write::Took(count) => taken += count,
            Write::Failed => return Err(SinkFailed { taken }),
        }
    }
    Ok(())
}
