//! The program: its words, its script, the run and what the run shows.
#![tactic(auto)]

mod refusal;
mod remarks;
mod running;
mod shapes;
mod source;
#[cfg(test)]
mod tests;
mod top;

pub use refusal::Refusal;
pub use top::{Report, run};
pub use turn_store::TurnFront;
