//! The resolver: makes of a program the resolved tree that stands for it.
#![tactic(auto)]

mod calls;
mod dispatch;
mod fault;
mod frame;
mod known;
mod nodes;
mod script;
mod stores;
mod threads;

pub use fault::ResolveFault;
pub use script::resolve;
