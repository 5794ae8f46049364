//! Where a parser stands among the tokens of a script: the tokens that are left, as the grammar sees them, and which
//! identifiers are locals there.
#![tactic(auto)]

mod class;
mod cursor;
mod fault;
mod scope;
mod word;

pub use class::{ATTR_READER, ATTR_WRITER, Class, class_of, is_marked};
pub use cursor::Cursor;
pub use fault::ParseFault;
pub use word::{Word, text_of};
