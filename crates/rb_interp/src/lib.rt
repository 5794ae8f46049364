//! The walk of one thread over the resolved tree, step by step that of the reference machine.
#![tactic(auto)]

mod walker;

pub use walker::{Context, run_body, run_main};
