// The tables of a tree, which shapes share.

ghost use Rattle.std.specs.Prelude.{◌≡◌, ◌++◌, [], ◌∷◌, None, length, IfOk};
ghost use Rattle.shape_tree.specs.Slots.{latest};
ghost use Rattle.shape_tree.specs.Layouts.{Fits, slots_of, Keeps, Extends, root_layout, tables_settled, tables_extended};

use crate::table::{Layout, Slot, Table};
use shape_core::{Kind, NameId, Place};
use std::alloc::{AllocError, Global};
use std::marker::Model;

/// Tables, of which the first is there from the beginning. Contracts see the list of their slots.
#[derive(Drop)]
pub struct Tables {
    alloc: Global,
    tables: Vec<Table>,
}

impl Model for Tables {
    ghost use Rattle.std.specs.Prelude.{List, ◌<◌, length};
    ghost use Rattle.shape_tree.specs.declared.table.Slot.{Slot};

    ghost Value = { List (List Slot) };

    ghost view = { λ t. t.tables.items };

    ghost invariant = { λ t. 0 < length t.tables.items };
}

impl Tables {
    /// One table with no place.
    pub fn new(alloc: Global) -> Result<Tables, AllocError>
        ensures { IfOk result (λ t. t ≡ [] ∷ []) }
    {
        let mut tables = Vec::new(alloc);
        tables.push(Table::new(alloc))?;
        Ok(Tables { alloc, tables })
    }

    /// The layout of a shape with no place.
    pub fn root(&self) -> Layout
        ensures layout { result ≡ root_layout }
        ensures fits { Fits self.now result }
    {
        let _ = &self.tables;
        Layout {
            table: 0,
            places: 0,
            own: None,
        }
    }

    /// The place of a name in a layout, and what it holds.
    #[inline(always)]
    pub fn find(&self, layout: Layout, name: NameId) -> Option<(Place, Kind)>
        requires { Fits self.now layout }
        ensures { result ≡ latest (slots_of self.now layout) name }
    {
        let table = &self.tables[layout.table];
        let Some(own) = layout.own else {
            return table.find(layout.places, name);
        };
        if own.name == name {
            return Some((Place(layout.places as u64 - 1), own.kind));
        }
        table.find(layout.places - 1, name)
    }

    /// A layout of the same slots that has none of its own.
    pub fn settle(&mut self, layout: Layout) -> Result<Layout, AllocError>
        requires { Fits self.old layout }
        ensures kept { Keeps self.old self.new }
        ensures settled { IfOk result (λ to. to.own ≡ None) }
        ensures same { IfOk result (λ to. Extends self.old layout [] self.new to) }
        ensures after { IfOk result (λ _. self.new ≡ tables_settled self.old layout layout.own) }
    {
        let Some(own) = layout.own else {
            return Ok(layout);
        };
        let mut table = self.tables[layout.table].front(self.alloc, layout.places - 1)?;
        table.push(self.alloc, own)?;
        let at = self.tables.len();
        self.tables.push(table)?;
        Ok(Layout {
            table: at,
            places: layout.places,
            own: None,
        })
    }

    /// The layout with one slot more: in its table where that ends with the layout, and else its own.
    pub fn extend(&mut self, layout: Layout, slot: Slot) -> Result<Layout, AllocError>
        requires fits { Fits self.old layout }
        requires settled { layout.own ≡ None }
        ensures kept { Keeps self.old self.new }
        ensures extended { IfOk result (λ to. Extends self.old layout (slot ∷ []) self.new to) }
        ensures after { IfOk result (λ _. self.new ≡ tables_extended self.old layout slot) }
    {
        if layout.places < self.tables[layout.table].len() {
            return Ok(Layout {
                table: layout.table,
                places: layout.places + 1,
                own: Some(slot),
            });
        }
        self.tables[layout.table].push(self.alloc, slot)?;
        Ok(Layout {
            table: layout.table,
            places: self.tables[layout.table].len(),
            own: None,
        })
    }
}
