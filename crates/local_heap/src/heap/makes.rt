// New things.

ghost use Rattle.std.specs.Prelude.{◌≡◌, Some, IfOk, OnOk, OnErr};
ghost use Rattle.std.specs.Option.{option_map};
ghost use Rattle.rb_model.specs.Private.{entered, next_id};
ghost use Rattle.rb_model.specs.Doing.{made};
ghost use Rattle.local_heap.specs.Cells.{IsContents, contents};

use super::LocalHeap;
use crate::cells::Cell;
use crate::object::Object;
use crate::{list, pairs};
use rb_model::{Id, Make, Ref, Sort, Value};
use shape_core::ShapeStore;
use smallvec::SmallVec;
use std::alloc::AllocError;

impl<S: ShapeStore> LocalHeap<S> {
    /// Makes an object with no fields.
    #[inline(always)]
    pub(super) fn make_object(&mut self, class: u32) -> Result<Ref, AllocError>
        ensures id { IfOk result (λ thing. thing.id ≡ next_id self.old) }
        ensures sort { IfOk result (λ thing. thing.sort ≡ Sort.Object class) }
        ensures private { OnOk result (self.new ≡ entered self.old (made (Make.Object class))) }
        ensures err { OnErr result (self.new ≡ self.old) }
    {
        let serial = self.cells.items.len() as u64;
        // Room comes first, so that nothing fails once the shape is there.
        self.cells.items.reserve(1)?;
        let shape = self.shapes.root(class)?;
        self.cells.items.push_reserved(Cell::Object(Object {
            shape,
            words: SmallVec::new(self.alloc),
            whole: Vec::new(self.alloc),
        }));
        let id = Id {
            thread: self.cells.thread,
            serial,
        };
        Ok(Ref {
            sort: Sort::Object(class),
            id,
            at: 0,
        })
    }

    /// Makes a list of these elements.
    pub(super) fn make_list(&mut self, values: Vec<Value>) -> Result<Ref, AllocError>
        ensures id { IfOk result (λ thing. thing.id ≡ next_id self.old) }
        ensures sort { IfOk result (λ thing. thing.sort ≡ Sort.List) }
        ensures private { OnOk result (self.new ≡ entered self.old (made (Make.Elements values))) }
        ensures err { OnErr result (self.new ≡ self.old) }
    {
        let list = list::made(self.alloc, values)?;
        self.enter(Cell::List(list), Sort::List)
    }

    /// Makes a list of so many times a value.
    #[tactic(auto, using(crate::proofs::Listing::plain_repeated))]
    pub(super) fn make_filled(&mut self, count: usize, value: Value) -> Result<Ref, AllocError>
        ensures id { IfOk result (λ thing. thing.id ≡ next_id self.old) }
        ensures sort { IfOk result (λ thing. thing.sort ≡ Sort.List) }
        ensures private { OnOk result (self.new ≡ entered self.old (made (Make.Filled count value))) }
        ensures err { OnErr result (self.new ≡ self.old) }
    {
        let list = list::filled(self.alloc, count, value)?;
        self.enter(Cell::List(list), Sort::List)
    }

    /// Makes a hash of these pairs.
    pub(super) fn make_pairs(&mut self, given: Vec<(Value, Value)>) -> Result<Ref, AllocError>
        ensures id { IfOk result (λ thing. thing.id ≡ next_id self.old) }
        ensures sort { IfOk result (λ thing. thing.sort ≡ Sort.Pairs) }
        ensures private { OnOk result (self.new ≡ entered self.old (made (Make.Pairs given))) }
        ensures err { OnErr result (self.new ≡ self.old) }
    {
        let pairs = pairs::made(self.alloc, given)?;
        self.enter(Cell::Pairs(pairs), Sort::Pairs)
    }

    /// Makes a mutex that no thread owns.
    pub(super) fn make_mutex(&mut self) -> Result<Ref, AllocError>
        ensures id { IfOk result (λ thing. thing.id ≡ next_id self.old) }
        ensures sort { IfOk result (λ thing. thing.sort ≡ Sort.Mutex) }
        ensures private { OnOk result (self.new ≡ entered self.old (made Make.Mutex)) }
        ensures err { OnErr result (self.new ≡ self.old) }
    {
        self.enter(Cell::Mutex(None), Sort::Mutex)
    }

    /// Puts a thing that is no object behind the others.
    fn enter(&mut self, cell: Cell, sort: Sort) -> Result<Ref, AllocError>
        requires { IsContents self.old.thread cell }
        ensures id { IfOk result (λ thing. thing.id ≡ next_id self.old) }
        ensures sort { IfOk result (λ thing. thing.sort ≡ sort) }
        ensures private { OnOk result (option_map (entered self.old) (contents cell) ≡ Some self.new) }
        ensures err { OnErr result (self.new ≡ self.old) }
    {
        let serial = self.cells.items.len() as u64;
        self.cells.items.push(cell)?;
        let id = Id {
            thread: self.cells.thread,
            serial,
        };
        Ok(Ref { sort, id, at: 0 })
    }
}
