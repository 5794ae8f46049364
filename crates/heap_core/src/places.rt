// Where the words of the opening stand.

pub(crate) const USED_WORD: usize = 14;

pub(crate) const TURN_WORD: usize = 15;

pub(crate) const OPENING_WORDS: u64 = 128;

pub(crate) const FIRST_ROOT: u64 = 17;

pub(crate) const FIRST_SHARED: u64 = 24;

/// The word of the sort of an object of the class of the globals; so is that of their shared shape.
pub(crate) const GLOBALS_TAG: u64 = 34359738361;
/// The word of the class of a shape that is not shared.
pub(crate) const ROOT_TAG: u64 = 34359738360;
/// The word of the edge that shares.
pub(crate) const SHARE: u64 = 4;
