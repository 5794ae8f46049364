//! The outside of the program: the files that it reads, the sinks that it writes to, the gates of its threads; and reading and writing in turns.
#![tactic(auto)]

mod memory;
mod real;
mod steady;
mod stored;
mod stream;
#[cfg(test)]
mod tests;
mod traits;
mod transfer;

pub use memory::{MemoryFiles, MemorySink};
pub use real::RealFiles;
pub use steady::{NeverFailsFiles, NeverFailsSink, OpenGate};
pub use stream::StreamSink;
pub use traits::{Files, Gate, Read, Sink, Write};
pub use transfer::{ReadFault, SinkFailed, read_source, write_all};
