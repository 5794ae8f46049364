//! The words of the command line: what the program is asked to do.
#![tactic(auto)]

mod hyphens;
mod line;
mod numbers;
#[cfg(test)]
mod tests;
mod told;
mod words;

pub use told::WorkWords;
pub use words::{Command, RunWords, command_of};
