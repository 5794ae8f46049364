//! The script that the command `work` runs: four threads fill an array side by side, and add to a sum under a mutex.
#![tactic(auto)]

#[cfg(test)]
mod tests;
mod text;

pub use text::script;
