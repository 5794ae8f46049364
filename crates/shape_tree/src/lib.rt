//! A store of shapes in memory: `Tree`, in which a look at a name walks no path, and a chain of shapes shares one table.
#![tactic(auto)]

mod guesses;
mod index;
mod key;
mod rows;
mod table;
mod tables;
mod tree;

pub use shape_core::{Edge, Kind, NameId, Place, ShapeFacts, ShapeId, ShapeStore};
pub use tree::Tree;
