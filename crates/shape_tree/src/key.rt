// By what a shape is known, and what is kept of it.

ghost use Rattle.std.specs.Prelude.{◌≡◌};
ghost use Rattle.shape_tree.specs.Keys.{edge_of, parent_of};

use crate::table::Layout;
use shape_core::{Edge, ShapeId};

/// By what a shape is known: a root by its class, another by its parent and its newest edge.
#[derive(Clone, Copy, PartialEq, Eq, Hash)]
pub enum Key {
    Root(u32),
    Child(ShapeId, Edge),
}

/// What is kept of a shape beside its key.
#[derive(Clone, Copy)]
pub struct Row {
    pub class: u32,
    pub shared: bool,
    pub layout: Layout,
}

impl Key {
    /// The parent, if it is no root's.
    pub fn parent(&self) -> Option<ShapeId>
        ensures { result ≡ parent_of self.now }
    {
        match self {
            Key::Root(_) => None,
            Key::Child(parent, _) => Some(*parent),
        }
    }

    /// The newest edge, if it is no root's.
    pub fn edge(&self) -> Option<Edge>
        ensures { result ≡ edge_of self.now }
    {
        match self {
            Key::Root(_) => None,
            Key::Child(_, edge) => Some(*edge),
        }
    }
}
