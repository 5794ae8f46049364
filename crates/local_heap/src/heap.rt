// The private heap.

ghost use Rattle.std.specs.Prelude.{◌≡◌, [], IsSome, is_some, Some, IfOk, OnOk, OnErr};
ghost use Rattle.rb_model.specs.Private.{Becomes, Gives, bare, entered, held, left, next_id};
ghost use Rattle.rb_model.specs.Doing.{doing, said, made, seen, sort_of};
ghost use Rattle.local_heap.specs.Memory.{MayWant};
ghost use Rattle.local_heap.specs.Agreement.{AgreesAt};
ghost use Rattle.local_heap.specs.Limits.{IsWithinAt};

mod acts;
mod makes;
mod quick;

use crate::cells::{Cell, Cells};
use crate::list::told as told_list;
use crate::pairs::told as told_pairs;
use rb_model::{Act, Id, Make, Ref, Reply, Thing};
use shape_core::ShapeStore;
use std::alloc::{AllocError, Global};
use std::marker::Model;

/// The things that one thread made, by their serial numbers, over a store of shapes. Contracts see the private store.
#[derive(Drop)]
pub struct LocalHeap<S: ShapeStore> {
    alloc: Global,
    shapes: S,
    cells: Cells,
}

impl<S: ShapeStore> Model for LocalHeap<S> {
    ghost use Rattle.rb_model.specs.Private.{Private};

    ghost Value = { Private };

    ghost use Rattle.local_heap.specs.Cells.{private_of, AreCells};

    ghost view = { λ h. private_of (S.shapes h.shapes) h.cells };

    ghost invariant = { λ h. AreCells (S.shapes h.shapes) h.cells };
}

impl<S: ShapeStore> LocalHeap<S> {
    /// The heap of a thread that has made nothing, over a store with no shapes.
    pub fn new(alloc: Global, thread: u64, shapes: S) -> Result<LocalHeap<S>, AllocError>
    where
        S: Drop,
        requires { S.shapes shapes ≡ [] }
        ensures { IfOk result (λ heap. heap ≡ bare thread) }
    {
        let mut items = Vec::new(alloc);
        items.push(Cell::Empty(None))?;
        Ok(LocalHeap {
            alloc,
            shapes,
            cells: Cells { thread, items },
        })
    }

    /// The store of shapes.
    pub fn shapes(&self) -> &S
        ensures { S.shapes result.now ≡ self.now.shapes }
    {
        &self.shapes
    }

    /// Gives the store of shapes back, and drops all things.
    pub fn into_shapes(self) -> S
        ensures { S.shapes result ≡ self.shapes }
    {
        let LocalHeap { shapes, .. } = self;
        shapes
    }

    /// Whether the thing of an id is private here.
    #[inline(always)]
    pub fn holds(&self, id: Id) -> bool
        ensures { result ≡ is_some (held self.now id) }
    {
        if id.thread != self.cells.thread {
            return false;
        }
        match self.cells.items.get(id.serial as usize) {
            Some(cell) => match cell {
                Cell::Object(_) => true,
                Cell::List(_) => true,
                Cell::Pairs(_) => true,
                Cell::Mutex(_) => true,
                Cell::Empty(_) => false,
            },
            None => false,
        }
    }

    /// Makes a thing, under the next number.
    #[inline(always)]
    pub fn make(&mut self, make: Make) -> Result<Ref, AllocError>
        ensures id { IfOk result (λ thing. thing.id ≡ next_id self.old) }
        ensures sort { IfOk result (λ thing. thing.sort ≡ sort_of make) }
        ensures private { OnOk result (self.new ≡ entered self.old (made make)) }
        ensures err { OnErr result (self.new ≡ self.old) }
    {
        match make {
            Make::Object(class) => self.make_object(class),
            Make::Elements(values) => self.make_list(values),
            Make::Filled(count, value) => self.make_filled(count, value),
            Make::Pairs(given) => self.make_pairs(given),
            Make::Mutex => self.make_mutex(),
        }
    }

    /// Does what is asked of a thing that is held.
    #[inline(always)]
    pub fn apply(&mut self, id: Id, act: Act) -> Result<Reply, AllocError>
        requires { IsSome (held self.old id) }
        ensures reply { IfOk result (λ reply. Gives self.old id (doing act) (said reply)) }
        ensures private { OnOk result (Becomes self.old id (doing act) self.new) }
        ensures err { OnErr result (self.new ≡ self.old) }
        ensures refused { OnErr result (MayWant self.old id (doing act)) }
    {
        match act {
            Act::GetField(name) => self.read(id, name),
            Act::SetField(name, value) => self.write(id, name, value),
            other => self.apply_within(id, other),
        }
    }

    /// A copy of a thing that is held.
    pub fn thing(&self, id: Id) -> Result<Thing, AllocError>
        requires { IsSome (held self.now id) }
        ensures { IfOk result (λ thing. held self.now id ≡ Some (seen thing)) }
    {
        match &self.cells.items[id.serial as usize] {
            // Never, as the thing is held.
            Cell::Empty(_) => Err(AllocError),
            Cell::Object(object) => self.cells.told(self.alloc, &self.shapes, object),
            Cell::List(list) => told_list(list),
            Cell::Pairs(pairs) => told_pairs(pairs, self.alloc),
            Cell::Mutex(owner) => Ok(Thing::Mutex(*owner)),
        }
    }

    /// A thing leaves. References to it stay what they are. Takes no memory.
    pub fn leave(&mut self, id: Id)
        requires { IsSome (held self.old id) }
        ensures { self.new ≡ left self.old id }
    {
        let class = self.cells.class_of(&self.shapes, id.serial);
        self.cells.items[id.serial as usize] = Cell::Empty(class);
    }

    /// A law, which runs nothing: the shape of each object says of it what its fields say.
    pub fn shapes_agree(&self)
        ensures { (id : Id) → AgreesAt self.now id }
    {
        let _ = &self.cells;
    }

    /// A law, which runs nothing: no list has more elements, and no hash more pairs, than it may have, no key of a hash stands twice, and a
    /// mutex is owned by nobody or by the thread of the heap.
    pub fn things_are_within_limits(&self)
        ensures { (id : Id) → IsWithinAt self.now id }
    {
        let _ = &self.cells;
    }
}
