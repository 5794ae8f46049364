//! Shapes of objects on the word heap: each is one block of it, found by walking links without a lock, and made under the lock of the tree.
#![tactic(auto)]

mod counting;
mod finding;
mod laying;
mod lock;
mod looking;
mod making;
mod seeking;
mod telling;
mod words;

pub use counting::missing;
pub use finding::find;
pub use lock::{lock_tree, unlock_tree};
pub use making::{follow, root};
pub use seeking::child;
pub use telling::{ShapeFacts, facts};
