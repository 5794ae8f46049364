// The lines that tell the shapes of objects.

ghost use Rattle.std.specs.Prelude.{◌≡◌, ◌≤◌, ◌<◌, ◌++◌, ℕ, Some, IsErrOf, OnOk, length};
ghost use Rattle.std.specs.List.{concat};
ghost use Rattle.rb_edge.specs.Edge.{Adds, Rose};
ghost use Rattle.shape_core.specs.Path.{names_on, find_on};
ghost use Rattle.shape_core.specs.Shape.{path_at, shape_at};
ghost use Rattle.rb_machine.specs.Scopes as scope;
ghost use Rattle.rb_prog.specs.Shapes as spec;
ghost use Rattle.rb_prog.specs.Shapes.{BreaksOff};
ghost use Rattle.rb_prog.specs.Added.{added_by};

use itoa::Buffer;
use rb_edge::{Sink, write_all};
use rb_render::{class_text, name_text};
use rb_tree::{NameId, Program};
use shape_core::{Edge, Kind, Place, ShapeId, ShapeStore};
use shape_tree::Tree;
use std::alloc::{AllocError, Global};

/// Why not all lines were written.
#[derive(Clone, Copy, Debug, PartialEq, Eq)]
pub(crate) enum Untold {
    /// The sink failed in a line.
    Sink,
    /// There was no memory for a line.
    Memory,
}

/// The letter of what a place holds.
fn kind_letter(kind: Kind) -> &'static str
    ensures { result.now ≡ spec.kind_letter kind }
{
    match kind {
        Kind::IntLoc => "i",
        Kind::AnyLoc => "a",
    }
}

/// Adds a name with where it stands.
fn add_field(line: &mut Vec<u8>, name: &[u8], place: Place, kind: Kind) -> Result<(), AllocError>
    ensures { OnOk result (line.new.items ≡ line.old.items ++ spec.field_text name.now (Some (place, kind))) }
{
    let mut digits = Buffer::new();
    line.extend_from_slice(b" ")?;
    line.extend_from_slice(name)?;
    line.extend_from_slice(b"=")?;
    line.extend_from_slice(digits.format(place.0).as_bytes())?;
    line.extend_from_slice(kind_letter(kind).as_bytes())?;
    Ok(())
}

/// Adds a name with where it stands in a shape.
fn add_name(
    line: &mut Vec<u8>,
    program: &Program,
    shapes: &Tree,
    shape: ShapeId,
    name: NameId,
) -> Result<(), AllocError>
    requires { shape.0 < length shapes.now }
    ensures { OnOk result (line.new.items ≡ line.old.items ++ spec.field_text (scope.name_text program.now.names name) (find_on (path_at shapes.now shape) name)) }
{
    match shapes.find(shape, name) {
        Some((place, kind)) => add_field(line, name_text(&program.names, name), place, kind),
        None => Ok(()),
    }
}

/// Adds the name that an edge adds, with where it stands in a shape.
fn add_added(
    line: &mut Vec<u8>,
    program: &Program,
    shapes: &Tree,
    shape: ShapeId,
    edge: Option<Edge>,
) -> Result<(), AllocError>
    requires { shape.0 < length shapes.now }
    ensures { OnOk result (line.new.items ≡ line.old.items ++ spec.field_texts program.now (path_at shapes.now shape) (added_by edge)) }
{
    match edge {
        Some(Edge::Add(name, _)) => add_name(line, program, shapes, shape, name),
        Some(Edge::Widen(_) | Edge::Share) | None => Ok(()),
    }
}

/// Adds the names of a shape in the order in which they were added, each with where it stands in another shape.
fn add_names(
    line: &mut Vec<u8>,
    program: &Program,
    shapes: &Tree,
    shape: ShapeId,
    named: ShapeId,
) -> Result<(), AllocError>
    requires known { shape.0 < length shapes.now }
    requires named { named.0 < length shapes.now }
    ensures { OnOk result (line.new.items ≡ line.old.items ++ spec.field_texts program.now (path_at shapes.now shape) (names_on (path_at shapes.now named))) }
{
    let facts = shapes.facts(named);
    match facts.parent {
        None => Ok(()),
        Some(parent) => {
            add_names(line, program, shapes, shape, parent)?;
            add_added(line, program, shapes, shape, facts.edge)
        }
    }
}

/// Adds the line of a shape.
fn add_line(
    line: &mut Vec<u8>,
    program: &Program,
    shapes: &Tree,
    shape: ShapeId,
) -> Result<(), AllocError>
    requires { shape.0 < length shapes.now }
    ensures { OnOk result (line.new.items ≡ line.old.items ++ spec.shape_line program.now (shape_at shapes.now shape)) }
{
    let class = shapes.facts(shape).class;
    line.extend_from_slice(class_text(program, class))?;
    add_names(line, program, shapes, shape, shape)?;
    line.extend_from_slice(b"\n")?;
    Ok(())
}

/// Writes the lines of all shapes, each by a write of its own.
pub(crate) fn tell_shapes<K: Sink>(
    alloc: Global,
    program: &Program,
    shapes: &Tree,
    out: &mut K,
) -> Result<(), Untold>
    ensures all { OnOk result (Adds (K.told out.old) (K.told out.new) (concat (spec.shape_lines program.now shapes.now))) }
    ensures sink { IsErrOf result Untold.Sink → (taken : ℕ) × BreaksOff (K.told out.old) (K.told out.new) (spec.shape_lines program.now shapes.now) taken }
    ensures memory { IsErrOf result Untold.Memory → BreaksOff (K.told out.old) (K.told out.new) (spec.shape_lines program.now shapes.now) 0 }
    ensures cause { IsErrOf result Untold.Sink → Rose (K.faults out.old) (K.faults out.new) }
    ensures rises { K.faults out.old ≤ K.faults out.new }
{
    let mut line = Vec::new(alloc);
    'shapes: for number in 0..shapes.len() {
        line.clear();
        if let Err(_) = add_line(&mut line, program, shapes, ShapeId(number as u64)) {
            return Err(Untold::Memory);
        }
        if let Err(_) = write_all(out, line.as_slice()) {
            return Err(Untold::Sink);
        }
    }
    Ok(())
}
