// What is asked of things.

ghost use Rattle.std.specs.Prelude.{◌≡◌, IsSome, false, IfOk, OnOk, OnErr};
ghost use Rattle.rb_model.specs.Values.{plain};
ghost use Rattle.rb_model.specs.Acts.{Failed, GetField, SetField};
ghost use Rattle.rb_model.specs.Private.{Becomes, Gives, held};
ghost use Rattle.rb_model.specs.Doing.{doing, said};
ghost use Rattle.local_heap.specs.Memory.{MayWant};
ghost use Rattle.local_heap.specs.Contents.{is_of_field};

use super::LocalHeap;
use crate::cells::Cell;
use rb_model::{Act, Fault, Id, Reply, Value};
use rb_tree::NameId;
use shape_core::ShapeStore;
use std::alloc::AllocError;

impl<S: ShapeStore> LocalHeap<S> {
    /// Does what is asked of a thing, other than of its fields.
    #[inline(always)]
    pub(super) fn apply_within(&mut self, id: Id, act: Act) -> Result<Reply, AllocError>
        requires held { IsSome (held self.old id) }
        requires other { is_of_field (doing act) ≡ false }
        ensures reply { IfOk result (λ reply. Gives self.old id (doing act) (said reply)) }
        ensures private { OnOk result (Becomes self.old id (doing act) self.new) }
        ensures err { OnErr result (self.new ≡ self.old) }
        ensures refused { OnErr result (MayWant self.old id (doing act)) }
    {
        let thread = self.cells.thread;
        self.cells.items[id.serial as usize].apply(self.alloc, thread, act)
    }

    /// The value of a field.
    #[inline(always)]
    pub(super) fn read(&self, id: Id, name: NameId) -> Result<Reply, AllocError>
        requires { IsSome (held self.now id) }
        ensures reply { IfOk result (λ reply. Gives self.now id (GetField name) (said reply)) }
        ensures private { OnOk result (Becomes self.now id (GetField name) self.now) }
        ensures refused { OnErr result (MayWant self.now id (GetField name)) }
    {
        match &self.cells.items[id.serial as usize] {
            // Never, as the thing is held.
            Cell::Empty(_) => Err(AllocError),
            Cell::Object(object) => self.cells.give(&self.shapes, object, name),
            Cell::List(_) => Ok(Reply::Failed(Fault::NoMethod)),
            Cell::Pairs(_) => Ok(Reply::Failed(Fault::NoMethod)),
            Cell::Mutex(_) => Ok(Reply::Failed(Fault::NoMethod)),
        }
    }

    /// Gives a field a value.
    #[inline(always)]
    pub(super) fn write(&mut self, id: Id, name: NameId, value: Value) -> Result<Reply, AllocError>
        requires { IsSome (held self.old id) }
        ensures reply { IfOk result (λ reply. Gives self.old id (SetField name (plain value)) (said reply)) }
        ensures private { OnOk result (Becomes self.old id (SetField name (plain value)) self.new) }
        ensures err { OnErr result (self.new ≡ self.old) }
        ensures refused { OnErr result (MayWant self.old id (SetField name (plain value))) }
    {
        let whose = self.cells.whose(&self.shapes, &value);
        match &mut self.cells.items[id.serial as usize] {
            // Never, as the thing is held.
            Cell::Empty(_) => Err(AllocError),
            Cell::Object(object) => object.set(&mut self.shapes, name, value, whose),
            Cell::List(_) => Ok(no_method(value)),
            Cell::Pairs(_) => Ok(no_method(value)),
            Cell::Mutex(_) => Ok(no_method(value)),
        }
    }
}

/// The answer to a write to a field of what has none.
fn no_method(value: Value) -> Reply
    ensures { said result ≡ Failed Fault.NoMethod }
{
    let _ = value;
    Reply::Failed(Fault::NoMethod)
}
