//! The blocks of values that do not fit a word: texts and wide integers.
#![tactic(auto)]

mod bytes;
#[cfg(test)]
mod heap_tests;
mod laying;
mod loaded;
mod loading;
mod mutex;
mod size;
#[cfg(test)]
mod tests;
mod text;

pub use laying::build;
pub use loaded::Loaded;
pub use loading::load;
pub use mutex::lay_mutex;
pub use size::words_for;
pub use text::read_text;
