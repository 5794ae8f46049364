//! What a word names.

use rb_model::Id;

/// A general value as it is loaded: of a text the place of its block, of a thing its id and its place.
#[derive(Clone, Copy, Debug, PartialEq, Eq)]
pub enum Loaded {
    Nil,
    False,
    True,
    Int(i64),
    /// A symbol, by its number.
    Sym(u32),
    /// The place of a text.
    Text(u64),
    Thing(Id, u64),
}
