//! The pairs of a hash in the order in which their keys came. Few of them stand in one row that is searched from the front; more are found
//! by the hash of their key, and taken out, in constant time.
#![tactic(auto)]

mod few;
mod indexed;
mod pairs;

// A crate can name pairs in a contract only if the types of their fields are exported.
#[doc(hidden)]
pub use few::FewPairs;
#[doc(hidden)]
pub use indexed::IndexedPairs;
#[doc(hidden)]
pub use pairs::Form;
pub use pairs::{MAX_PAIRS, OrderedPairs, PutFault};
