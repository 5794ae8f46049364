//! A script, run with all threads that it starts, over any shared store that can be closed.
#![tactic(auto)]

mod row;
mod run;
mod scripted;
mod task;
mod threads;
mod walk;
mod work;

pub use run::{SharedRun, run_shared};
pub use scripted::Scripted;
