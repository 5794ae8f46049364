// What a thread asks of the outside, and how it ends.

use crate::act::{Act, Reply};
use crate::fault::Fault;
use crate::shared_text::SharedText;
use crate::value::{Id, Ref, Value};
use rb_tree::Span;

/// How a thread ends.
#[derive(Drop)]
pub enum End {
    /// With the value of its last statement; the main thread with nil.
    Value(Value),
    /// With a fault, at the place of the node that raised it.
    Raised(Fault, Span),
    /// It needed a step more than it may make.
    Steps,
    /// The shared heap had no room: the words in use, and those that were asked for.
    Full { used: u64, asked: u64 },
    /// The sink failed.
    Sink,
    /// Want of memory.
    Memory,
}

/// A call that a thread makes on what is shared.
#[derive(Drop)]
pub enum Call {
    /// Asks something of a shared thing.
    On(Ref, Act),
    /// Starts a thread whose thing has this id. It runs the body of this number, which is given these values.
    Start(Id, u32, Vec<Value>),
    /// Takes over the end of a thread that the caller started, at the caller's own end.
    Gather(Ref),
    /// Writes these bytes to the sink.
    Print(SharedText),
    /// The last call of a thread.
    End(End),
}

/// What a store answers to a call.
#[derive(Clone, Copy, Debug, PartialEq, Eq)]
pub enum Answer {
    /// The call is an entry of the history.
    Done,
    /// The sink failed. There is no entry.
    SinkFailed,
    /// Want of memory. There is no entry.
    Memory,
}

/// How the outside served what a thread asked of a thing that is not its own, or the start of a thread.
#[derive(Drop)]
pub enum Served {
    /// It is an entry of the history, with this reply. A reply that is a fault is one as well.
    Done(Reply),
    /// The shared heap had no room: the words in use, and those that were asked for. There is no entry.
    Full { used: u64, asked: u64 },
    /// Want of memory. There is no entry.
    Memory,
}
