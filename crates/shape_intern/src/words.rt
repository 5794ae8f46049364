// The words by which a shape is told.

ghost use Rattle.std.specs.Prelude.{◌≡◌, ◌<◌, ◌∷◌, ℕ};
ghost use Rattle.shape_core.specs.Path.{Path, is_shared, places_of};
ghost use Rattle.heap_core.specs.Shapes as shapes;

use shape_core::{Edge, Kind};

/// The word of the edge that leads to a shape.
pub(crate) fn edge_word(edge: &Edge) -> u64
    ensures word { result ≡ shapes.edge_word edge.now }
    ensures narrow { shapes.IsNarrowEdge edge.now }
{
    match edge {
        Edge::Add(name, Kind::IntLoc) => u64::from(name.0) * 8 + 1,
        Edge::Add(name, Kind::AnyLoc) => u64::from(name.0) * 8 + 2,
        Edge::Widen(name) => u64::from(name.0) * 8 + 3,
        Edge::Share => 4,
    }
}

/// The word of class and flag of the shape to which an edge leads, from that of the shape before it.
pub(crate) fn tag_behind(tag: u64, edge: &Edge) -> u64
    ensures { (class : ℕ) (path : Path) → tag ≡ shapes.flagged class (is_shared path) → result ≡ shapes.flagged class (is_shared (edge.now ∷ path)) }
{
    match edge {
        Edge::Add(_, _) | Edge::Widen(_) => tag,
        Edge::Share => tag / 8 * 8 + 1,
    }
}

/// How many places there are behind an edge.
pub(crate) fn places_behind(places: u64, edge: &Edge) -> u64
    requires few { places < 18446744073709551615 }
    ensures { (path : Path) → places ≡ places_of path → result ≡ places_of (edge.now ∷ path) }
{
    match edge {
        Edge::Add(_, _) | Edge::Widen(_) => places + 1,
        Edge::Share => places,
    }
}
