//! A list that stores its items as raw integers, or as flags of a byte each, for as long as it holds nothing else.
#![tactic(auto)]

mod array;
mod fault;
mod flags;
mod growth;
mod place;
mod storage;

pub use array::{LocalArray, MAX_LEN};
pub use fault::PutFault;
// A crate can name an array in a contract only if the types of its fields are exported.
#[doc(hidden)]
pub use storage::Store;
pub use storage::{Peeked, Strategy};
