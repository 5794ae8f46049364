// The things of a heap by serial number.

ghost use Rattle.std.specs.Prelude.{◌≡◌, ◌<◌, length, is_some, pos, IfSome, IsSomeAnd, IfOk, OnErr, true, false};
ghost use Rattle.std.specs.Option.{option_copied, option_map};
ghost use Rattle.rb_model.specs.Values.{Int, is_text, plain};
ghost use Rattle.rb_model.specs.Acts.{At, KGet, Len, Push, Put};
ghost use Rattle.rb_model.specs.Acts as answer;
ghost use Rattle.rb_model.specs.Doing.{doing, said};
ghost use Rattle.rb_model.specs.Things.{field, gives};
ghost use Rattle.rb_model.specs.Immediates.{list_answered, reference, taking, told, told_answer, value_told};
ghost use Rattle.local_heap.specs.Memory.{may_want};
ghost use Rattle.local_heap.specs.Contents.{has_length, is_list, was_done};
ghost use Rattle.local_heap.specs.Slots.{IsOwnBy, IsWord, class_at, meaning, own, slot_at};
ghost use Rattle.local_heap.specs.Words.{any_of};
ghost use Rattle.local_heap.specs.Fields.{value_by};
ghost use Rattle.local_heap.specs.Cells.{AreKnown, CellDoes, CellRefuses, CellTakes, CellWrites, IsObject, IsSound, cell_at, contents, fields_in, home_of};

use crate::list::{self, List};
use crate::object::Object;
use crate::row::value_at;
use crate::slot::Whose;
use crate::{mutex, pairs};
use ordered_pairs::OrderedPairs;
use rb_model::{Act, Fault, Id, Immediate, Ref, Reply, Side, Sort, Value};
use rb_tree::NameId;
use shape_core::{Kind, Place, ShapeStore};
use std::alloc::{AllocError, Global};
use typed_location::{Any, from_any_word, from_int_word};

/// What stands at a serial number.
#[derive(Drop)]
pub enum Cell {
    /// No thing: number 0 is that of none, and a thing that left stands here no more. The class of an object that left stays, for the
    /// references to it.
    Empty(Option<u32>),
    Object(Object),
    List(List),
    Pairs(OrderedPairs),
    /// A mutex with the number of the thread that owns it.
    Mutex(Option<u64>),
}

impl Cell {
    /// Does what a thread asks of a thing of its own, other than of its fields.
    #[inline(always)]
    pub fn apply(&mut self, alloc: Global, thread: u64, act: Act) -> Result<Reply, AllocError>
        ensures { CellDoes thread self.old (doing act) result self.new }
    {
        match self {
            Cell::Empty(_) => Err(AllocError),
            Cell::Object(_) => Ok(Reply::Failed(Fault::NoMethod)),
            Cell::List(list) => list::apply(list, act),
            Cell::Pairs(pairs) => pairs::apply(pairs, alloc, act),
            Cell::Mutex(owner) => Ok(mutex::apply(owner, thread, act)),
        }
    }

    /// The element at an index, if this is a list.
    #[inline(always)]
    pub fn element(&self, index: i64) -> Result<Option<Value>, AllocError>
        ensures list { IfOk result (λ found. is_some found ≡ is_list (contents self.now)) }
        ensures value { IfOk result (λ found. IfSome found (λ value. IsSomeAnd (contents self.now) (λ thing. answer.Value (plain value) ≡ gives thing (At index)))) }
        ensures refused { OnErr result (IsSomeAnd (contents self.now) (λ thing. may_want thing (At index) ≡ true)) }
    {
        match self {
            Cell::List(list) => Ok(Some(list::at(list, index)?)),
            _ => Ok(None),
        }
    }

    /// The element at an index, told where this is a list and the element an immediate value.
    #[inline(always)]
    pub fn immediate(&self, index: i64) -> Immediate
        ensures { result ≡ told_answer (contents self.now) (At index) }
    {
        match self {
            Cell::List(list) => list::immediate(list, index),
            _ => Immediate::Other,
        }
    }

    /// The list that the element at an index is, if this is a list and the element one.
    #[inline(always)]
    pub fn list_element(&self, index: i64) -> Option<Ref>
        ensures { option_map reference result ≡ list_answered (contents self.now) (At index) }
    {
        match self {
            Cell::List(list) => list::list_at(list, index),
            _ => None,
        }
    }

    /// The value of a key, told where this is a hash and the value an immediate one.
    #[inline(always)]
    pub fn immediate_value(&self, key: &Value) -> Immediate
        ensures { result ≡ told_answer (contents self.now) (KGet (plain key.now)) }
    {
        match self {
            Cell::Pairs(pairs) => pairs::immediate(pairs, key),
            _ => Immediate::Other,
        }
    }

    /// Gives an element an immediate value, where this is a list that has the element and it fits where it stands. Else nothing is done.
    #[inline(always)]
    pub fn put_immediate(&mut self, index: i64, value: Immediate) -> bool
        ensures does { CellWrites result self.old (Put index) (value_told value) self.new }
        ensures refused { result ≡ false → IfSome (value_told value) (λ v. CellRefuses self.old (Put index v)) }
    {
        match self {
            Cell::Empty(_) => false,
            Cell::Object(_) => false,
            Cell::List(list) => list::put_immediate(list, index, value),
            Cell::Pairs(_) => false,
            Cell::Mutex(_) => false,
        }
    }

    /// Puts an immediate value behind the last element, where this is a list that may have one more and it fits to the others. Else nothing is
    /// done.
    #[inline(always)]
    pub fn push_immediate(&mut self, value: Immediate) -> Result<bool, AllocError>
        ensures does { CellWrites (was_done result) self.old Push (value_told value) self.new }
        ensures refused { IfOk result (λ done. done ≡ false → IfSome (value_told value) (λ v. CellRefuses self.old (Push v))) }
    {
        match self {
            Cell::Empty(_) => Ok(false),
            Cell::Object(_) => Ok(false),
            Cell::List(list) => list::push_immediate(list, value),
            Cell::Pairs(_) => Ok(false),
            Cell::Mutex(_) => Ok(false),
        }
    }

    /// Takes an element that is an immediate value out at an end, where this is a list. Of any other nothing is done.
    #[inline(always)]
    pub fn take_immediate(&mut self, side: Side) -> Immediate
        ensures told { result ≡ told_answer (contents self.old) (taking side) }
        ensures does { CellTakes (value_told result) self.old (taking side) self.new }
    {
        match self {
            Cell::Empty(_) => Immediate::Other,
            Cell::Object(_) => Immediate::Other,
            Cell::List(list) => list::take_immediate(list, side),
            Cell::Pairs(_) => Immediate::Other,
            Cell::Mutex(_) => Immediate::Other,
        }
    }

    /// How many elements this list has, or pairs this hash, if it is one.
    pub fn length(&self) -> Option<usize>
        ensures held { is_some result ≡ has_length (contents self.now) }
        ensures value { IfSome result (λ count. IsSomeAnd (contents self.now) (λ thing. answer.Value (Int (pos count)) ≡ gives thing Len)) }
    {
        match self {
            Cell::List(list) => Some(list.len()),
            Cell::Pairs(pairs) => Some(pairs.len()),
            _ => None,
        }
    }
}

/// A cell has the size of an object and a tag.
const _: () = prove!(size_of::<Cell>() == 80);

/// The things that a thread made, by serial number.
#[derive(Drop)]
pub struct Cells {
    pub thread: u64,
    pub items: Vec<Cell>,
}

impl Cells {
    /// What stands at an id.
    #[inline(always)]
    pub fn cell(&self, id: Id) -> Option<&Cell>
        ensures { option_copied result ≡ cell_at self.now.thread self.now.items.items id }
    {
        if id.thread != self.thread {
            return None;
        }
        self.items.get(id.serial as usize)
    }

    /// The class of the object at a serial number, also of one that left.
    pub fn class_of<S: ShapeStore>(&self, shapes: &S, serial: u64) -> Option<u32>
        requires { AreKnown (S.shapes shapes.now) self.now.items.items }
        ensures { result ≡ class_at (home_of (S.shapes shapes.now) self.now) serial }
    {
        match self.items.get(serial as usize) {
            None => None,
            Some(cell) => match cell {
                Cell::Empty(class) => *class,
                Cell::Object(object) => Some(shapes.facts(object.shape).class),
                Cell::List(_) => None,
                Cell::Pairs(_) => None,
                Cell::Mutex(_) => None,
            },
        }
    }

    /// Where the thing of a value is, if the value is a reference.
    #[inline(always)]
    pub fn whose<S: ShapeStore>(&self, shapes: &S, value: &Value) -> Whose
        requires { AreKnown (S.shapes shapes.now) self.now.items.items }
        ensures { IsOwnBy (home_of (S.shapes shapes.now) self.now) result (plain value.now) }
    {
        match value {
            Value::Ref(thing) => self.whose_thing(shapes, *thing),
            _ => Whose::Others,
        }
    }

    /// Where the thing of a reference is.
    fn whose_thing<S: ShapeStore>(&self, shapes: &S, thing: Ref) -> Whose
        requires { AreKnown (S.shapes shapes.now) self.now.items.items }
        ensures { IsOwnBy (home_of (S.shapes shapes.now) self.now) result (plain (Value.Ref thing)) }
    {
        if thing.id.thread != self.thread {
            return Whose::Others;
        }
        let Sort::Object(class) = thing.sort else {
            return Whose::Others;
        };
        match self.class_of(shapes, thing.id.serial) {
            None => Whose::Others,
            Some(own) => {
                if own == class {
                    Whose::Own
                } else {
                    Whose::Others
                }
            }
        }
    }

    /// The reference to the thing at a serial number.
    fn own<S: ShapeStore>(&self, shapes: &S, serial: u64) -> Value
        requires { AreKnown (S.shapes shapes.now) self.now.items.items }
        ensures { plain result ≡ own (home_of (S.shapes shapes.now) self.now) serial }
    {
        match self.class_of(shapes, serial) {
            None => Value::Nil,
            Some(class) => Value::Ref(Ref {
                sort: Sort::Object(class),
                id: Id {
                    thread: self.thread,
                    serial,
                },
                at: 0,
            }),
        }
    }

    /// The value of a field of an object; nil where the shape has no such name.
    #[inline(always)]
    pub fn read<S: ShapeStore>(
        &self,
        shapes: &S,
        object: &Object,
        name: NameId,
    ) -> Result<Value, AllocError>
        requires known { AreKnown (S.shapes shapes.now) self.now.items.items }
        requires object { IsObject (S.shapes shapes.now) object.now }
        requires sound { IsSound (S.shapes shapes.now) (home_of (S.shapes shapes.now) self.now) object.now }
        ensures value { IfOk result (λ value. plain value ≡ field name (fields_in (S.shapes shapes.now) (home_of (S.shapes shapes.now) self.now) object.now)) }
        ensures refused { OnErr result (is_text (field name (fields_in (S.shapes shapes.now) (home_of (S.shapes shapes.now) self.now) object.now)) ≡ true) }
    {
        match shapes.find(object.shape, name) {
            None => Ok(Value::Nil),
            Some((place, kind)) => self.read_at(shapes, object, place, kind),
        }
    }

    /// What an object answers to a read of a field.
    #[inline(always)]
    pub fn give<S: ShapeStore>(
        &self,
        shapes: &S,
        object: &Object,
        name: NameId,
    ) -> Result<Reply, AllocError>
        requires known { AreKnown (S.shapes shapes.now) self.now.items.items }
        requires object { IsObject (S.shapes shapes.now) object.now }
        requires sound { IsSound (S.shapes shapes.now) (home_of (S.shapes shapes.now) self.now) object.now }
        ensures value { IfOk result (λ reply. said reply ≡ answer.Value (field name (fields_in (S.shapes shapes.now) (home_of (S.shapes shapes.now) self.now) object.now))) }
        ensures refused { OnErr result (is_text (field name (fields_in (S.shapes shapes.now) (home_of (S.shapes shapes.now) self.now) object.now)) ≡ true) }
    {
        Ok(Reply::Value(self.read(shapes, object, name)?))
    }

    /// A field of an object, told where it is an immediate value. Nothing is copied or shared.
    #[inline(always)]
    pub fn immediate_field<S: ShapeStore>(
        &self,
        shapes: &S,
        object: &Object,
        name: NameId,
    ) -> Immediate
        requires known { AreKnown (S.shapes shapes.now) self.now.items.items }
        requires object { IsObject (S.shapes shapes.now) object.now }
        requires sound { IsSound (S.shapes shapes.now) (home_of (S.shapes shapes.now) self.now) object.now }
        ensures { result ≡ told (field name (fields_in (S.shapes shapes.now) (home_of (S.shapes shapes.now) self.now) object.now)) }
    {
        match shapes.find(object.shape, name) {
            None => Immediate::Nil,
            Some((place, Kind::IntLoc)) => {
                Immediate::Int(from_int_word(object.words[place.0 as usize]))
            }
            Some((place, Kind::AnyLoc)) => self.told_at(shapes, object, place),
        }
    }

    /// What stands at a place for any value, told where it is an immediate value.
    #[cold]
    #[inline(never)]
    fn told_at<S: ShapeStore>(&self, shapes: &S, object: &Object, place: Place) -> Immediate
        requires known { AreKnown (S.shapes shapes.now) self.now.items.items }
        requires within { place.0 < length object.now.words.items }
        requires sound { IsWord (home_of (S.shapes shapes.now) self.now) (slot_at object.now place.0) }
        ensures { result ≡ told (value_by (home_of (S.shapes shapes.now) self.now) Kind.AnyLoc (slot_at object.now place.0)) }
    {
        match self.read_at(shapes, object, place, Kind::AnyLoc) {
            Ok(value) => list::immediate_of(&value),
            // Only for a text is memory wanted.
            Err(_) => Immediate::Other,
        }
    }

    /// The value at a place of this kind.
    #[inline(always)]
    pub fn read_at<S: ShapeStore>(
        &self,
        shapes: &S,
        object: &Object,
        place: Place,
        kind: Kind,
    ) -> Result<Value, AllocError>
        requires known { AreKnown (S.shapes shapes.now) self.now.items.items }
        requires within { place.0 < length object.now.words.items }
        requires sound { kind ≡ Kind.AnyLoc → IsWord (home_of (S.shapes shapes.now) self.now) (slot_at object.now place.0) }
        ensures value { IfOk result (λ value. plain value ≡ value_by (home_of (S.shapes shapes.now) self.now) kind (slot_at object.now place.0)) }
        ensures refused { OnErr result (is_text (value_by (home_of (S.shapes shapes.now) self.now) kind (slot_at object.now place.0)) ≡ true) }
    {
        let at = place.0 as usize;
        let word = object.words[at];
        match kind {
            Kind::IntLoc => Ok(Value::Int(from_int_word(word))),
            Kind::AnyLoc => {
                let any = from_any_word(word).unwrap();
                self.meant(shapes, object, at, any)
            }
        }
    }

    /// The value of what stands in the word of a place.
    #[inline(always)]
    fn meant<S: ShapeStore>(
        &self,
        shapes: &S,
        object: &Object,
        at: usize,
        any: Any,
    ) -> Result<Value, AllocError>
        requires { AreKnown (S.shapes shapes.now) self.now.items.items }
        ensures value { IfOk result (λ value. plain value ≡ meaning (home_of (S.shapes shapes.now) self.now) (slot_at object.now at).whole any) }
        ensures refused { OnErr result (is_text (meaning (home_of (S.shapes shapes.now) self.now) (slot_at object.now at).whole any) ≡ true) }
    {
        match any {
            Any::Nil => Ok(Value::Nil),
            Any::False => Ok(Value::False),
            Any::True => Ok(Value::True),
            Any::Small(n) => Ok(Value::Int(n)),
            Any::Sym(number) => Ok(Value::Sym(NameId(number))),
            Any::Text(_) => value_at(&object.whole, at),
            Any::Boxed(_) => value_at(&object.whole, at),
            Any::Thing(serial) => self.thing_meant(shapes, object, at, serial),
        }
    }

    /// The value of a word that speaks of a thing: what is kept whole at its place, or else the thing of this heap.
    #[inline(always)]
    fn thing_meant<S: ShapeStore>(
        &self,
        shapes: &S,
        object: &Object,
        at: usize,
        serial: u64,
    ) -> Result<Value, AllocError>
        requires { AreKnown (S.shapes shapes.now) self.now.items.items }
        ensures value { IfOk result (λ value. plain value ≡ meaning (home_of (S.shapes shapes.now) self.now) (slot_at object.now at).whole (Any.Thing serial)) }
        ensures refused { OnErr result (is_text (meaning (home_of (S.shapes shapes.now) self.now) (slot_at object.now at).whole (Any.Thing serial)) ≡ true) }
    {
        let value = value_at(&object.whole, at)?;
        match value {
            Value::Nil => Ok(self.own(shapes, serial)),
            whole => Ok(whole),
        }
    }
}
