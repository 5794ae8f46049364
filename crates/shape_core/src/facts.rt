// What is told of a shape.

use crate::edge::Edge;

/// A place in the storage of an object, by its number from 0.
#[derive(Clone, Copy, Debug, PartialEq, Eq, Hash)]
pub struct Place(pub u64);

/// A shape of one store, by its number from 0 in the order of making.
#[derive(Clone, Copy, Debug, PartialEq, Eq, Hash)]
pub struct ShapeId(pub u64);

/// What a shape is: its class, the shape that it was made from and by which edge (neither at a root), how many places its
/// objects have, and whether several threads may use them.
#[derive(Clone, Copy, Debug, PartialEq, Eq)]
pub struct ShapeFacts {
    pub class: u32,
    pub parent: Option<ShapeId>,
    pub edge: Option<Edge>,
    pub places: u64,
    pub shared: bool,
}
