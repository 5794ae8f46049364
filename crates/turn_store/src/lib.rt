//! A store of plain things and one sink, which its threads call by turns: whoever takes the turn word has both to itself.
#![tactic(auto)]

mod close;
mod passes;
mod pause;
mod rule;
mod shared;
mod slot;
mod store;

pub use close::TurnFront;
pub use store::{TurnPass, TurnStore};
