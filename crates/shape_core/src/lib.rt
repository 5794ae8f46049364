//! Shapes of objects: what a shape says of the names and places of its objects, the trait of a store of shapes, and the
//! laws of both. The definitions stand in `specs/`, in the words of the object storage model.
#![tactic(auto)]

mod edge;
mod facts;
pub mod laws;
mod store;
#[cfg(test)]
mod tests;

pub use edge::{Edge, Kind};
pub use facts::{Place, ShapeFacts, ShapeId};
pub use rb_tree::NameId;
pub use store::{ShapeStore, may_follow};
