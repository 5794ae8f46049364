// What a shared store answers.

use rb_model::Reply;

/// What a store answers to a call.
#[derive(Drop)]
pub enum Answer {
    /// The call is an entry of the history. A reply that is a fault is one as well.
    Done(Reply),
    /// The shared heap had no room: the words in use, and those that were asked for. There is no entry.
    Full { used: u64, asked: u64 },
    /// The sink failed. There is no entry.
    SinkFailed,
    /// Want of memory. There is no entry.
    Memory,
}

/// What a store answers to a call that is to wait for nobody.
#[derive(Drop)]
pub enum Quick {
    /// The call is an entry of the history.
    Done(Reply),
    /// Another thread changes the thing; the call may be tried again, or made as one that may wait.
    Again,
    /// The call needs more than a read or a write in place.
    NotQuick,
}

/// What is left of a store: the run's history, and the sink that it was made with.
#[derive(Drop)]
pub struct Closed<F, K> {
    pub front: F,
    pub out: K,
}
