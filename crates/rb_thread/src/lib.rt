//! What one thread has while others run: its pass of a shared store, its private things, which move with the calls that hand them over,
//! the references that it knows, and the threads that it started.
#![tactic(auto)]

mod asks;
mod begin;
mod ends;
mod finish;
mod handing;
mod job;
mod kids;
mod seat;
mod starts;
mod store;
mod telling;
mod threaded;
mod whose;

pub use begin::give_up;
pub use finish::Finished;
pub use job::Job;
pub use kids::Kids;
pub use seat::{Seat, Seated};
pub use threaded::Threaded;
pub use whose::Whose;
