// What an object is, told as a thing.

ghost use Rattle.std.specs.Prelude.{◌≡◌, ◌<◌, ◌++◌, length, IfOk, OnOk};
ghost use Rattle.rb_model.specs.Doing.{seen, slot};
ghost use Rattle.shape_core.specs.Path.{names_on};
ghost use Rattle.shape_core.specs.Shape.{path_at};
ghost use Rattle.local_heap.specs.Slots.{slot_at};
ghost use Rattle.local_heap.specs.Fields.{field_of, given_name};
ghost use Rattle.local_heap.specs.Cells.{AreKnown, IsObject, IsSound, home_of, thing_in};

use crate::cells::Cells;
use crate::object::Object;
use rb_model::{Field, Thing, Value};
use rb_tree::NameId;
use shape_core::{Edge, Kind, ShapeId, ShapeStore};
use std::alloc::{AllocError, Global};

impl Cells {
    /// A copy of an object.
    pub fn told<S: ShapeStore>(
        &self,
        alloc: Global,
        shapes: &S,
        object: &Object,
    ) -> Result<Thing, AllocError>
        requires known { AreKnown (S.shapes shapes.now) self.now.items.items }
        requires object { IsObject (S.shapes shapes.now) object.now }
        requires sound { IsSound (S.shapes shapes.now) (home_of (S.shapes shapes.now) self.now) object.now }
        ensures { IfOk result (λ thing. seen thing ≡ thing_in (S.shapes shapes.now) (home_of (S.shapes shapes.now) self.now) object.now) }
    {
        let names = names_of(alloc, shapes, object.shape)?;
        let mut fields = Vec::new(alloc);
        for name in &names {
            fields.push(self.field(shapes, object, *name)?)?;
        }
        Ok(Thing::Object(shapes.facts(object.shape).class, fields))
    }

    /// A copy of a field.
    fn field<S: ShapeStore>(
        &self,
        shapes: &S,
        object: &Object,
        name: NameId,
    ) -> Result<Field, AllocError>
        requires known { AreKnown (S.shapes shapes.now) self.now.items.items }
        requires object { IsObject (S.shapes shapes.now) object.now }
        requires sound { IsSound (S.shapes shapes.now) (home_of (S.shapes shapes.now) self.now) object.now }
        ensures { IfOk result (λ field. slot field ≡ field_of (home_of (S.shapes shapes.now) self.now) (path_at (S.shapes shapes.now) object.now.shape) (slot_at object.now) name) }
    {
        let Some((place, kind)) = shapes.find(object.shape, name) else {
            return Ok(Field {
                name,
                value: Value::Nil,
                wide: false,
            });
        };
        let value = self.read_at(shapes, object, place, kind)?;
        Ok(Field {
            name,
            value,
            wide: kind == Kind::AnyLoc,
        })
    }
}

/// The names of a shape, in the order in which its path adds them.
fn names_of<S: ShapeStore>(
    alloc: Global,
    shapes: &S,
    shape: ShapeId,
) -> Result<Vec<NameId>, AllocError>
    requires { shape.0 < length (S.shapes shapes.now) }
    ensures { IfOk result (λ names. names.items ≡ names_on (path_at (S.shapes shapes.now) shape)) }
{
    let mut names = Vec::new(alloc);
    let mut at = Some(shape);
    while let Some(id) = at {
        let facts = shapes.facts(id);
        note(&mut names, facts.edge)?;
        at = facts.parent;
    }
    names.as_mut_slice().reverse();
    Ok(names)
}

/// Puts the name behind the others that an edge adds, if it adds one.
fn note(names: &mut Vec<NameId>, edge: Option<Edge>) -> Result<(), AllocError>
    ensures { OnOk result (names.new.items ≡ names.old.items ++ given_name edge) }
{
    if let Some(Edge::Add(name, _)) = edge {
        names.push(name)?;
    }
    Ok(())
}
