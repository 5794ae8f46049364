//! What threads share: the plain step on shared things, the run's history and when it is legal, what a thread knows, and the store that
//! threads call, as a trait with its whole contract. The definitions in `specs/` are those that every store is proved against.
#![tactic(auto)]

mod answer;
pub mod laws;
mod store;

pub use answer::{Answer, Closed, Quick};
pub use store::{ClosingStore, SharedStore};
