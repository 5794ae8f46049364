// Tables of names by place.

ghost use Rattle.std.specs.Prelude.{◌≡◌, ◌≤◌, ◌++◌, [], ◌∷◌, length, take, IfOk, is_ok, if◌then◌else◌};
ghost use Rattle.shape_tree.specs.Slots.{found_below, slot_of_edge};
ghost use Rattle.shape_tree.specs.declared.index.TheConstants.{SHORT};

use crate::index::{Index, SHORT, index_of, tell};
use shape_core::{Edge, Kind, NameId, Place};
use std::alloc::{AllocError, Global};
use std::marker::Model;

/// The name that a place was given to, and what it holds.
#[derive(Clone, Copy)]
pub struct Slot {
    pub name: NameId,
    pub kind: Kind,
}

/// Where the names of a shape stand: the first of the places of a table, and the last in the shape itself where it is its own.
#[derive(Clone, Copy)]
pub struct Layout {
    pub table: usize,
    pub places: usize,
    pub own: Option<Slot>,
}

/// The slot that an edge gives, with the next place.
pub fn slot_of(edge: Edge) -> Option<Slot>
    ensures { result ≡ slot_of_edge edge }
{
    match edge {
        Edge::Add(name, kind) => Some(Slot { name, kind }),
        Edge::Widen(name) => Some(Slot {
            name,
            kind: Kind::AnyLoc,
        }),
        Edge::Share => None,
    }
}

/// A table: the slot of each place, to which later ones are added. Contracts see the list of its slots.
#[derive(Drop)]
pub struct Table {
    slots: Vec<Slot>,
    index: Option<Box<Index>>,
}

impl Model for Table {
    ghost use Rattle.std.specs.Prelude.{List};
    ghost use Rattle.shape_tree.specs.declared.table.Slot.{Slot};
    ghost use Rattle.shape_tree.specs.Indexes.{HasIndex};

    ghost Value = { List Slot };

    ghost view = { λ t. t.slots.items };

    ghost invariant = { λ t. HasIndex t.slots.items t.index };
}

impl Table {
    /// A table with no place.
    pub fn new(alloc: Global) -> Table
        ensures { result ≡ [] }
    {
        Table {
            slots: Vec::new(alloc),
            index: None,
        }
    }

    /// A table of the first places of this one.
    pub fn front(&self, alloc: Global, places: usize) -> Result<Table, AllocError>
        requires { places ≤ length self.now }
        ensures { IfOk result (λ t. t ≡ take places self.now) }
    {
        let slots = Vec::from_slice(alloc, &self.slots[..places])?;
        let index = index_of(alloc, &slots)?;
        Ok(Table { slots, index })
    }

    /// How many places it has.
    pub fn len(&self) -> usize
        ensures { result ≡ length self.now }
    {
        self.slots.len()
    }

    /// Adds the next place.
    pub fn push(&mut self, alloc: Global, slot: Slot) -> Result<(), AllocError>
        ensures { self.new ≡ (if is_ok result then self.old ++ slot ∷ [] else self.old) }
    {
        // Room comes first, so that nothing fails once the index has the place.
        self.slots.reserve(1)?;
        tell(alloc, &mut self.index, &self.slots, slot)?;
        self.slots.push(slot)?;
        Ok(())
    }

    /// The newest of the first places that was given to the name.
    #[inline(always)]
    pub fn find(&self, places: usize, name: NameId) -> Option<(Place, Kind)>
        requires { places ≤ length self.now }
        ensures { result ≡ found_below self.now name places }
    {
        match &self.index {
            Some(index) if places > SHORT => {
                let place = index.find(&self.slots, places, name)?;
                Some((Place(place as u64), self.slots[place].kind))
            }
            _ => newest(&self.slots, places, name),
        }
    }
}

/// The newest of the first places that was given to the name, by a look through them.
#[inline(always)]
fn newest(slots: &[Slot], places: usize, name: NameId) -> Option<(Place, Kind)>
    requires within { places ≤ length slots.now }
    requires short { places ≤ SHORT }
    ensures { result ≡ found_below slots.now name places }
{
    for place in (0..places).rev() {
        let slot = &slots[place];
        if slot.name == name {
            return Some((Place(place as u64), slot.kind));
        }
    }
    None
}
