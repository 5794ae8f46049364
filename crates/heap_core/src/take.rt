//! What taking words answers.

/// The place from which on the words are the pass's own, or the words that were in use where there was no room.
#[derive(Clone, Copy, Debug, PartialEq, Eq)]
pub enum Take {
    Got(u64),
    Full(u64),
}
