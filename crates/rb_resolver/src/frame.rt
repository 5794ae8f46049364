// The names in scope, and how many slots the frame has.

ghost use Rattle.std.specs.Prelude.{◌≡◌, ◌≤◌, ◌+◌, ◌++◌, true, Some, length, take, if◌then◌else◌, IfErr, IfOk, OnOk};
ghost use Rattle.rb_accepted.specs.Coded.{is_seen};
ghost use Rattle.rb_code.specs.Layout.{slot_of, has_slot};
ghost use Rattle.rb_resolver.specs.declared.fault.ResolveFault.TheVariants.{Memory};

use crate::fault::ResolveFault;
use rb_tree::{NameId, Span};
use std::alloc::AllocError;

/// The slot of a name among the names in scope: its last place.
fn find(name: NameId, names: &[NameId]) -> Option<usize>
    ensures { result ≡ slot_of name names.now }
{
    let mut left = names.len();
    'backwards: while left > 0 {
        left -= 1;
        if names[left].0 == name.0 {
            return Some(left);
        }
    }
    None
}

/// The names in scope at a node, the innermost last, and how many slots its frame needs so far.
#[derive(Drop)]
pub(crate) struct Frame {
    pub names: Vec<NameId>,
    pub size: usize,
    /// How many arguments wait behind the frame while this node is evaluated, and how many have done so at most.
    pub waiting: usize,
    pub most: usize,
}

impl Frame {
    /// The frame of a text whose own names are these, with so many slots at least.
    pub(crate) fn of(names: Vec<NameId>, least: usize) -> Frame
        ensures names { result.names ≡ names }
        ensures room { length names.items ≤ result.size }
        ensures least { least ≤ result.size }
    {
        let size = names.len().max(least);
        Frame {
            names,
            size,
            waiting: 0,
            most: 0,
        }
    }

    /// So many arguments more may wait from now on.
    pub(crate) fn wait(&mut self, count: usize)
        ensures names { self.new.names ≡ self.old.names }
        ensures size { self.new.size ≡ self.old.size }
    {
        self.waiting = self.waiting.saturating_add(count);
        self.most = self.most.max(self.waiting);
    }

    /// So many of them wait no more.
    pub(crate) fn pass(&mut self, count: usize)
        ensures names { self.new.names ≡ self.old.names }
        ensures size { self.new.size ≡ self.old.size }
    {
        self.waiting = self.waiting.saturating_sub(count);
    }

    /// The slot of a local, which stands at this place.
    pub(crate) fn slot(&self, name: NameId, at: Span) -> Result<u32, ResolveFault>
        ensures has { IfOk result (λ slot. has_slot name self.now.names.items slot ≡ true) }
        ensures built { is_seen name self.now.names.items ≡ true → IfErr result (λ e. e ≡ Memory) }
    {
        let Some(place) = find(name, self.names.as_slice()) else {
            return Err(ResolveFault::NotBuilt(at));
        };
        let Ok(slot) = u32::try_from(place) else {
            return Err(ResolveFault::Memory);
        };
        Ok(slot)
    }

    /// Makes room for names that lie behind those in scope. Answers their first slot.
    fn first_slot(&mut self, own: &[NameId]) -> Result<u32, AllocError>
        ensures from { IfOk result (λ from. from ≡ length self.old.names.items) }
        ensures names { self.new.names ≡ self.old.names }
        ensures room { OnOk result (length self.old.names.items + length own.now ≤ self.new.size) }
        ensures rises { self.old.size ≤ self.new.size }
    {
        let Ok(from) = u32::try_from(self.names.len()) else {
            return Err(AllocError);
        };
        let Some(end) = self.names.len().checked_add(own.len()) else {
            return Err(AllocError);
        };
        self.size = self.size.max(end);
        Ok(from)
    }

    /// Goes into a block with these names of its own. Answers their first slot, and how many there are.
    pub(crate) fn enter(&mut self, own: &[NameId]) -> Result<(u32, u32), AllocError>
        ensures from { IfOk result (λ slots. slots.0 ≡ length self.old.names.items) }
        ensures count { IfOk result (λ slots. slots.1 ≡ length own.now) }
        ensures names { OnOk result (self.new.names.items ≡ self.old.names.items ++ own.now) }
        ensures room { OnOk result (length self.old.names.items + length own.now ≤ self.new.size) }
        ensures rises { self.old.size ≤ self.new.size }
    {
        let from = self.first_slot(own)?;
        let Ok(count) = u32::try_from(own.len()) else {
            return Err(AllocError);
        };
        self.names.extend_from_slice(own)?;
        Ok((from, count))
    }

    /// Goes out of a block whose own names lie from this slot on.
    pub(crate) fn leave(&mut self, from: u32)
        ensures names { self.new.names.items ≡ take from self.old.names.items }
        ensures size { self.new.size ≡ self.old.size }
    {
        self.names.truncate(from as usize);
    }
}
