//! The things that threads share, as one owner holds them: each call of a thread is the plain step, exactly.
#![tactic(auto)]

mod copies;
mod hashes;
mod kept;
mod lists;
mod mutexes;
mod objects;
mod store;
mod table;
mod threads;

// A crate can name a store in a contract only if the types of its fields are exported.
#[doc(hidden)]
pub use kept::Kept;
pub use store::ThingStore;
#[doc(hidden)]
pub use table::{Key, Things};
#[doc(hidden)]
pub use threads::{Row, Started};
