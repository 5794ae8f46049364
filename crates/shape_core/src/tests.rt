// A caller of any store.

ghost use Rattle.std.specs.Prelude.{◌≡◌, ◌<◌, length, IfOk, Some, None};
ghost use Rattle.shape_core.specs.Path.{find_on};
ghost use Rattle.shape_core.specs.Shape.{path_at};

use crate::{Edge, Kind, NameId, Place, ShapeId, ShapeStore};
use std::alloc::AllocError;

/// Where a new field of an object goes: the shape that the object has then, and the place.
fn place_of_new<S: ShapeStore>(
    store: &mut S,
    shape: ShapeId,
    name: NameId,
    kind: Kind,
) -> Result<(ShapeId, Place), AllocError>
    requires known { shape.0 < length (S.shapes store.old) }
    requires new { find_on (path_at (S.shapes store.old) shape) name ≡ None }
    ensures known { IfOk result (λ to. to.0.0 < length (S.shapes store.new)) }
    ensures stands { IfOk result (λ to. find_on (path_at (S.shapes store.new) to.0) name ≡ Some (to.1, kind)) }
{
    let place = Place(store.facts(shape).places);
    let to = store.follow(shape, Edge::Add(name, kind))?;
    Ok((to, place))
}
