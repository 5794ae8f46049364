// The tree of shapes.

ghost use Rattle.std.specs.Prelude.{◌≡◌, ◌<◌, [], length, Contains, IfOk, IsOk, OnErr};
ghost use Rattle.shape_core.specs.Path.{MayFollow};
ghost use Rattle.shape_core.specs.Shape.{IsStore, Has, Gains, child_of, path_at, shape_at};

use crate::guesses::Guesses;
use crate::key::{Key, Row};
use crate::rows::{Nodes, grow, guessed, key_of, row_of};
use crate::tables::Tables;
use indexmap::IndexMap;
use shape_core::{Edge, Kind, NameId, Place, ShapeFacts, ShapeId, ShapeStore};
use std::alloc::{AllocError, Global};
use std::marker::Model;
use std::ops::Range;

/// A store of shapes in memory. Contracts see it as the list of its shapes in the order of making.
#[derive(Drop)]
pub struct Tree {
    nodes: Nodes,
    tables: Tables,
    guesses: Guesses,
}

impl Model for Tree {
    ghost use Rattle.std.specs.Prelude.{List};
    ghost use Rattle.indexmap.specs.IndexMap.{keys, values};
    ghost use Rattle.shape_core.specs.Shape.{Shape};
    ghost use Rattle.shape_tree.specs.Shapes.{shapes_of, IsTree};

    ghost Value = { List Shape };

    ghost view = { λ t. shapes_of (keys t.nodes) };

    ghost invariant = { λ t. IsTree (keys t.nodes) (values t.nodes) t.tables };
}

impl Tree {
    /// A store with no shape, whose memory `alloc` gives.
    pub fn new(alloc: Global) -> Result<Tree, AllocError>
        ensures { IfOk result (λ t. t ≡ []) }
    {
        Ok(Tree {
            nodes: IndexMap::new(alloc),
            tables: Tables::new(alloc)?,
            guesses: Guesses::new(),
        })
    }

    /// How many shapes there are.
    pub fn len(&self) -> usize
        ensures { result ≡ length self.now }
    {
        self.nodes.len()
    }

    /// The numbers of the shapes, in the order of making.
    pub fn list(&self) -> Range<usize>
        ensures first { result.start ≡ 0 }
        ensures end { result.end ≡ length self.now }
    {
        0..self.len()
    }

    /// The shape that an edge leads to, where none was guessed.
    // It stands apart, so that what follows a known edge needs no room for what makes one.
    #[inline(never)]
    fn follow_unguessed(&mut self, shape: ShapeId, edge: Edge) -> Result<ShapeId, AllocError>
        requires known { shape.0 < length self.old }
        requires allowed { MayFollow (path_at self.old shape) edge }
        ensures answer { IfOk result (λ id. Has self.new id (child_of (shape_at self.old shape) edge)) }
        ensures made { IfOk result (λ _. Gains self.old (child_of (shape_at self.old shape) edge) self.new) }
        ensures there { Contains self.old (child_of (shape_at self.old shape) edge) → IsOk result }
        ensures err { OnErr result (self.new ≡ self.old) }
        ensures valid { IsStore self.new }
    {
        let key = Key::Child(shape, edge);
        if let Some(at) = self.nodes.get_index_of(&key) {
            self.guesses.tell_child(shape, ShapeId(at as u64));
            return Ok(ShapeId(at as u64));
        }
        let row = grow(&mut self.nodes, &mut self.tables, shape, edge)?;
        let id = ShapeId(self.nodes.len() as u64);
        self.nodes.insert(key, row)?;
        Ok(id)
    }
}

impl ShapeStore for Tree {
    ghost use Rattle.shape_core.specs.Shape.{Shape};

    ghost shapes = { λ t. t };

    fn root(&mut self, class: u32) -> Result<ShapeId, AllocError> {
        let key = Key::Root(class);
        if let Some(known) = guessed(&self.nodes, self.guesses.root(class), key) {
            return Ok(known);
        }
        if let Some(at) = self.nodes.get_index_of(&key) {
            self.guesses.tell_root(class, ShapeId(at as u64));
            return Ok(ShapeId(at as u64));
        }
        let id = ShapeId(self.nodes.len() as u64);
        let layout = self.tables.root();
        let row = Row {
            class,
            shared: false,
            layout,
        };
        self.nodes.insert(key, row)?;
        Ok(id)
    }

    fn follow(&mut self, shape: ShapeId, edge: Edge) -> Result<ShapeId, AllocError> {
        let key = Key::Child(shape, edge);
        if let Some(known) = guessed(&self.nodes, self.guesses.child(shape), key) {
            return Ok(known);
        }
        self.follow_unguessed(shape, edge)
    }

    #[inline(always)]
    fn find(&self, shape: ShapeId, name: NameId) -> Option<(Place, Kind)> {
        let row = row_of(&self.nodes, shape);
        self.tables.find(row.layout, name)
    }

    fn facts(&self, shape: ShapeId) -> ShapeFacts {
        let row = row_of(&self.nodes, shape);
        let key = key_of(&self.nodes, shape);
        ShapeFacts {
            class: row.class,
            parent: key.parent(),
            edge: key.edge(),
            places: row.layout.places as u64,
            shared: row.shared,
        }
    }
}
