// Stores of shapes.

ghost use Rattle.std.specs.Prelude.{◌≡◌, ◌<◌, ◌↔◌, List, length, Contains, IsTrue, IfOk, IsOk, OnErr};
ghost use Rattle.std.specs.Option.{option_map};
ghost use Rattle.shape_core.specs.Path.{find_on, is_shared, places_of, last_edge, MayFollow};
ghost use Rattle.shape_core.specs.Shape.{Shape, IsStore, Has, Gains, IsParent, child_of, path_at, root_of, shape_at};

use crate::edge::{Edge, Kind};
use crate::facts::{Place, ShapeFacts, ShapeId};
use rb_tree::NameId;
use std::alloc::AllocError;

/// A store of shapes, each of which is made once. Contracts see it as the list of its shapes in the order of making, in
/// which the number of a shape is its place.
pub trait ShapeStore {
    // the shapes of the store, in the order of making
    ghost shapes: { Self → List Shape };

    /// The root of a class, which is made where there is none. Only that can fail, for want of memory.
    fn root(&mut self, class: u32) -> Result<ShapeId, AllocError>
        ensures answer { IfOk result (λ id. Has (shapes self.new) id (root_of class)) }
        ensures made { IfOk result (λ _. Gains (shapes self.old) (root_of class) (shapes self.new)) }
        ensures there { Contains (shapes self.old) (root_of class) → IsOk result }
        ensures err { OnErr result (shapes self.new ≡ shapes self.old) }
        ensures valid { IsStore (shapes self.new) };

    /// The shape that an edge leads to, which is made where there is none. Only that can fail, for want of memory.
    fn follow(&mut self, shape: ShapeId, edge: Edge) -> Result<ShapeId, AllocError>
        requires known { shape.0 < length (shapes self.old) }
        requires allowed { MayFollow (path_at (shapes self.old) shape) edge }
        ensures answer { IfOk result (λ id. Has (shapes self.new) id (child_of (shape_at (shapes self.old) shape) edge)) }
        ensures made { IfOk result (λ _. Gains (shapes self.old) (child_of (shape_at (shapes self.old) shape) edge) (shapes self.new)) }
        ensures there { Contains (shapes self.old) (child_of (shape_at (shapes self.old) shape) edge) → IsOk result }
        ensures err { OnErr result (shapes self.new ≡ shapes self.old) }
        ensures valid { IsStore (shapes self.new) };

    /// The place of a name and what it holds, where the path adds the name.
    fn find(&self, shape: ShapeId, name: NameId) -> Option<(Place, Kind)>
        requires { shape.0 < length (shapes self.now) }
        ensures { result ≡ find_on (path_at (shapes self.now) shape) name };

    /// What the shape is.
    fn facts(&self, shape: ShapeId) -> ShapeFacts
        requires { shape.0 < length (shapes self.now) }
        ensures class { result.class ≡ (shape_at (shapes self.now) shape).class }
        ensures edge { result.edge ≡ last_edge (path_at (shapes self.now) shape) }
        ensures parent { IsParent (shapes self.now) (shape_at (shapes self.now) shape) result.parent }
        ensures places { result.places ≡ places_of (path_at (shapes self.now) shape) }
        ensures shared { result.shared ≡ is_shared (path_at (shapes self.now) shape) }
        ensures valid { IsStore (shapes self.now) };
}

/// Whether an edge may follow a shape.
pub fn may_follow<S: ShapeStore>(store: &S, shape: ShapeId, edge: Edge) -> bool
    requires { shape.0 < length (S.shapes store.now) }
    ensures { IsTrue result ↔ MayFollow (path_at (S.shapes store.now) shape) edge }
{
    match edge {
        Edge::Add(name, _) => store.find(shape, name).is_none(),
        Edge::Widen(name) => holds_integers(store.find(shape, name)),
        Edge::Share => !store.facts(shape).shared,
    }
}

/// Whether a name was found at a place for integers alone.
fn holds_integers(found: Option<(Place, Kind)>) -> bool
    ensures { IsTrue result ↔ (option_map (λ f. f.1) found ≡ Some Kind.IntLoc) }
{
    matches!(found, Some((_, Kind::IntLoc)))
}
