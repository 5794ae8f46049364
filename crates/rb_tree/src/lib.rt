//! The syntax tree of a script, the places of its nodes and the names in it.
#![tactic(auto)]

mod measure;
mod names;
mod node;
mod place;
mod span;
#[cfg(test)]
mod tests;

pub use measure::height;
pub use names::Names;
pub use node::{AssignOp, Block, Class, Method, Node, Param, Piece, Program, Target};
pub use place::{line_column, place_of};
pub use span::{NameId, Span};
pub use sqlite_items::{Boxed, Items};

/// Bytes of a script, which contracts see as a list.
pub type Text = Items<u8>;
