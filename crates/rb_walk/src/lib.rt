//! What the walk of a thread works with: how a node came out, the slots of a frame, leaves, the targets of calls, iterations, the store of a
//! thread that goes on, and the end of a run. The definitions in `specs/` say how a part of the walk goes beside the reference machine, and
//! `proofs/` has their laws.
#![tactic(auto)]

pub mod asked;
pub mod bodies;
pub mod bytes;
pub mod came;
pub mod dispatch;
pub mod ending;
pub mod gathering;
pub mod leaf;
pub mod live;
pub mod questions;
pub mod ready;
pub mod rounds;
pub mod shared;
pub mod slots;
pub mod target;

/// How many nodes may be under evaluation at once. A recursion to this depth takes up to some 1,300 KiB of the machine's stack, so what
/// runs a script needs 2 MiB of it: the main thread's has more.
pub const MAX_DEPTH: u32 = 1000;
