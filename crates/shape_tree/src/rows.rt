// The rows of a tree, over the parts of it.

ghost use Rattle.std.specs.Prelude.{◌≡◌, ◌<◌, IfOk, IfSome, None, length};
ghost use Rattle.indexmap.specs.IndexMap.{keys, values, index_map_len};
ghost use Rattle.shape_core.specs.Path.{MayFollow};
ghost use Rattle.shape_core.specs.Shape.{child_of, path_at, shape_at};
ghost use Rattle.shape_tree.specs.Shapes.{IsRow, IsTree, key_at, row_at, shapes_of};

use crate::key::{Key, Row};
use crate::table::{Layout, slot_of};
use crate::tables::Tables;
use indexmap::IndexMap;
use shape_core::{Edge, ShapeId};
use std::alloc::AllocError;

/// The keys of the shapes in the order of making, each with its row.
pub type Nodes = IndexMap<Key, Row>;

/// The row of a shape.
#[inline(always)]
pub fn row_of(nodes: &Nodes, shape: ShapeId) -> Row
    requires { shape.0 < index_map_len nodes.now }
    ensures { result ≡ row_at (values nodes.now) shape.0 }
{
    nodes[shape.0 as usize]
}

/// The key of a shape.
pub fn key_of(nodes: &Nodes, shape: ShapeId) -> Key
    requires { shape.0 < index_map_len nodes.now }
    ensures { result ≡ key_at (keys nodes.now) shape.0 }
{
    *nodes.get_index(shape.0 as usize).unwrap().0
}

/// The shape of a key, where the guess is right.
#[inline(always)]
pub fn guessed(nodes: &Nodes, guess: ShapeId, key: Key) -> Option<ShapeId>
    ensures { IfSome result (λ id. (id.0 < length (keys nodes.now)) × (key_at (keys nodes.now) id.0 ≡ key)) }
{
    let found = nodes.get_index(guess.0 as usize)?;
    if *found.0 == key { Some(guess) } else { None }
}

/// The layout of a shape once it is settled: one with no slot of its own.
pub fn settle(nodes: &mut Nodes, tables: &mut Tables, shape: ShapeId) -> Result<Layout, AllocError>
    requires tree { IsTree (keys nodes.old) (values nodes.old) tables.old }
    requires known { shape.0 < index_map_len nodes.old }
    ensures keys { keys nodes.new ≡ keys nodes.old }
    ensures tree { IsTree (keys nodes.new) (values nodes.new) tables.new }
    ensures settled { IfOk result (λ layout. layout.own ≡ None) }
    ensures row { IfOk result (λ layout. (row_at (values nodes.new) shape.0).layout ≡ layout) }
{
    let row = row_of(nodes, shape);
    let layout = tables.settle(row.layout)?;
    nodes[shape.0 as usize] = Row { layout, ..row };
    Ok(layout)
}

/// The row of the shape to which an edge leads.
pub fn grow(
    nodes: &mut Nodes,
    tables: &mut Tables,
    shape: ShapeId,
    edge: Edge,
) -> Result<Row, AllocError>
    requires tree { IsTree (keys nodes.old) (values nodes.old) tables.old }
    requires known { shape.0 < index_map_len nodes.old }
    ensures keys { keys nodes.new ≡ keys nodes.old }
    ensures tree { IsTree (keys nodes.new) (values nodes.new) tables.new }
    ensures row { IfOk result (λ row. IsRow tables.new (child_of (shape_at (shapes_of (keys nodes.old)) shape) edge) row) }
{
    let row = row_of(nodes, shape);
    let Some(slot) = slot_of(edge) else {
        return Ok(Row {
            shared: true,
            ..row
        });
    };
    let settled = settle(nodes, tables, shape)?;
    let layout = tables.extend(settled, slot)?;
    Ok(Row { layout, ..row })
}
