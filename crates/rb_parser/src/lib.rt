//! From the tokens of a script to its program, on two walks: the first gathers its names and its threads, the second makes
//! its nodes with their numbers.
#![tactic(auto)]

mod parser;

pub use parser::parse;
pub use rb_cursor::ParseFault;
