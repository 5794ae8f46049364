//! The private things of a thread: objects, each as a shape of a shape store and a list of words, one a place, lists, which hold integers
//! raw for as long as they hold nothing else, hashes, whose pairs stand in the order in which their keys came, and mutexes.
#![tactic(auto)]

mod cells;
mod heap;
mod list;
mod mutex;
mod object;
mod pairs;
mod row;
mod slot;
mod told;

pub use heap::LocalHeap;
// Things that threads share are kept as lists, hashes and mutexes of the same kind.
pub use list::{List, apply as apply_to_list, made as list_of};
pub use mutex::apply as apply_to_mutex;
pub use pairs::{apply as apply_to_pairs, made as pairs_of};
