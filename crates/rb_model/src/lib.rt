//! Values, things, what is asked of them and what they answer, faults and ends, and the log of what a thread asked of the
//! outside. The definitions in `specs/` are those that the reference machine and every store speak of.
#![tactic(auto)]

mod act;
mod call;
mod fault;
mod immediate;
mod item;
mod moved;
mod shared_text;
mod store;
#[cfg(test)]
mod tests;
mod thing;
mod value;

pub use act::{Act, Make, Reply, Side};
pub use call::{Answer, Call, End, Served};
pub use fault::Fault;
pub use immediate::Immediate;
pub use moved::{Moved, MovedItem};
pub use shared_text::SharedText;
pub use store::ThreadStore;
pub use thing::{Field, Thing, ThreadState};
pub use value::{Id, Ref, Sort, Value};
