//! The grammar of the language as a relation between tokens and trees, a reader of it on lists, and the laws that make a
//! parser right that reads as this reader does. Nothing here runs: the definitions stand in `specs/`, and each function is
//! a law, which is its contract.
#![tactic(auto)]

pub mod laws;
