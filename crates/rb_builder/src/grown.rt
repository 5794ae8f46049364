// Trees and rows of trees.

ghost use Rattle.std.specs.Prelude.{◌≤◌};

use crate::said::Said;
use rb_tree::{Boxed, Items, Node, Span};

/// A node with its place, its height and what its text says.
#[derive(Drop)]
pub struct Grown<'t> {
    pub at: Span,
    pub height: u32,
    pub node: Boxed<Node>,
    pub said: Said<'t>,
    pub ghost low: { height ≤ 64 },
}

/// Nodes that stand one behind the other, with the height of the highest and what their text says.
#[derive(Drop)]
pub struct Row<'t> {
    pub height: u32,
    pub nodes: Items<Node>,
    pub said: Said<'t>,
}
