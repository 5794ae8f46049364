// Where the names of a long table stand.

ghost use Rattle.std.specs.Prelude.{◌≡◌, ◌<◌, ◌≤◌, ◌++◌, [], ◌∷◌, length, IfSome, IfOk, OnOk, OnErr};
ghost use Rattle.shape_tree.specs.Indexes.{Gains, HasIndex, IsIndex, StaysIndex, place_below};

use crate::table::Slot;
use shape_core::NameId;
use std::alloc::{AllocError, Global};
use std::collections::HashMap;

/// How many places a table has at most without an index: a look through so few is as fast.
pub const SHORT: usize = 16;

/// The newest place of each name, and at each place the one before it of the same name.
#[derive(Drop)]
pub struct Index {
    newest: HashMap<u32, usize>,
    earlier: Vec<Option<usize>>,
}

impl Index {
    /// The index of slots.
    pub fn of(alloc: Global, slots: &[Slot]) -> Result<Index, AllocError>
        ensures { IfOk result (λ index. IsIndex slots.now index) }
    {
        let mut index = Index {
            newest: HashMap::new(alloc),
            earlier: Vec::new(alloc),
        };
        for slot in slots {
            index.push(*slot)?;
        }
        Ok(index)
    }

    /// Adds the next place.
    pub fn push(&mut self, slot: Slot) -> Result<(), AllocError>
        ensures gains { OnOk result (Gains self.old slot self.new) }
        ensures err { OnErr result (StaysIndex self.old self.new) }
    {
        // Room for the link comes first, so that nothing fails once the name has its place.
        self.earlier.reserve(1)?;
        let before = self.newest.insert(slot.name.0, self.earlier.len())?;
        self.earlier.push(before)?;
        Ok(())
    }

    /// The newest of the first places that was given to the name. A place alone is answered in registers.
    #[inline(never)]
    pub fn find(&self, slots: &[Slot], places: usize, name: NameId) -> Option<usize>
        requires index { IsIndex slots.now self.now }
        requires within { places ≤ length slots.now }
        ensures newest { result ≡ place_below slots.now name.0 places }
        ensures below { IfSome result (λ place. place < places) }
    {
        // The slots say which index it is, and are not read.
        let _ = slots;
        let mut at = self.newest.get(&name.0).copied();
        while let Some(place) = at {
            if place < places {
                return Some(place);
            }
            at = self.earlier[place];
        }
        None
    }
}

/// Tells the index of a table of the next place, and begins one where that place makes the table a long one.
pub fn tell(
    alloc: Global,
    index: &mut Option<Box<Index>>,
    slots: &[Slot],
    slot: Slot,
) -> Result<(), AllocError>
    requires { HasIndex slots.now index.old }
    ensures told { OnOk result (HasIndex (slots.now ++ slot ∷ []) index.new) }
    ensures err { OnErr result (HasIndex slots.now index.new) }
{
    if let Some(index) = index {
        return index.push(slot);
    }
    if slots.len() == SHORT {
        let mut begun = Box::new(alloc, Index::of(alloc, slots)?)?;
        begun.push(slot)?;
        *index = Some(begun);
    }
    Ok(())
}

/// The index of slots, where they are too many for a short table.
pub fn index_of(alloc: Global, slots: &[Slot]) -> Result<Option<Box<Index>>, AllocError>
    ensures { IfOk result (λ index. HasIndex slots.now index) }
{
    if slots.len() <= SHORT {
        return Ok(None);
    }
    let index = Index::of(alloc, slots)?;
    Ok(Some(Box::new(alloc, index)?))
}
