// Shapes: that they are made where memory is there, in tables of each size, and a caller.

ghost use Rattle.std.specs.Prelude.{◌≡◌, ◌<◌, length};
ghost use Rattle.std.specs.Option.{option_map};
ghost use Rattle.shape_core.specs.Path.{find_on};
ghost use Rattle.shape_core.specs.Shape.{path_at};

use rb_tree::NameId;
use shape_core::{Edge, Kind, Place, ShapeId, ShapeStore, may_follow};
use shape_tree::Tree;
use std::alloc::{AllocError, Global};
use std::test::Fail;

/// The shape behind an edge of a shape, where it may follow.
fn step(tree: &mut Tree, shape: ShapeId, edge: Edge) -> Result<Option<ShapeId>, AllocError> {
    if shape.0 >= tree.len() as u64 {
        return Ok(None);
    }
    if !may_follow(tree, shape, edge) {
        return Ok(None);
    }
    Ok(Some(tree.follow(shape, edge)?))
}

/// The place of a field for a read, where the object has the field.
fn place_to_read(tree: &Tree, shape: ShapeId, name: NameId) -> Option<Place>
    requires { shape.0 < length tree.now }
    ensures { result ≡ option_map (λ found. found.0) (find_on (path_at tree.now shape) name) }
{
    tree.find(shape, name).map(|(place, _)| place)
}

/// More names than are looked through one by one.
const NAMES: u32 = 100;

/// Whether a class has a chain of so many names, of which the first is widened and the last shape shared, and the same again makes no shape.
fn grows(tree: &mut Tree, class: u32) -> Result<bool, AllocError> {
    let mut shape = tree.root(class)?;
    for name in 0..NAMES {
        let Some(next) = step(tree, shape, Edge::Add(NameId(name), Kind::IntLoc))? else {
            return Ok(false);
        };
        shape = next;
    }
    let Some(wide) = step(tree, shape, Edge::Widen(NameId(0)))? else {
        return Ok(false);
    };
    Ok(step(tree, wide, Edge::Share)?.is_some())
}

/// Whether the same steps lead to the same shapes, and others to others, each of which is listed.
fn are_made_once(alloc: Global) -> Result<bool, AllocError> {
    let mut tree = Tree::new(alloc)?;
    let made = grows(&mut tree, 7)? && grows(&mut tree, 7)? && grows(&mut tree, 8)?;
    let last = ShapeId(NAMES as u64 + 1);
    let place = match last.0 < tree.len() as u64 {
        true => place_to_read(&tree, last, NameId(0)),
        false => None,
    };
    let listed = tree.list().len();
    Ok(made && place == Some(Place(NAMES as u64)) && listed == 206)
}

#[test]
fn shapes_are_made_where_memory_is_there(rt: HostRuntime) -> Result<(), Fail> {
    let fine = are_made_once(rt.alloc())?;
    assert!(rt; fine);
    Ok(())
}
