// Reads of lists and hashes, and writes, that look up nothing but the thing and its shape.

ghost use Rattle.std.specs.Prelude.{◌≡◌, ◌↔◌, ◌-ℤ◌, None, is_some, pos, true, false, IfSome, IsSomeAnd, IfOk, OnErr};
ghost use Rattle.rb_model.specs.Values.{Int, plain};
ghost use Rattle.rb_model.specs.Acts.{At, GetField, KGet, Len, Push, Put, SetField};
ghost use Rattle.rb_model.specs.Acts as answer;
ghost use Rattle.rb_model.specs.Immediates.{list_answered, reference, taking, told_answer, value_told};
ghost use Rattle.std.specs.Option.{option_map};
ghost use Rattle.rb_model.specs.Private.{Becomes, Gives, held};
ghost use Rattle.local_heap.specs.Memory.{HasSum, MayWant, NotAtOnce};
ghost use Rattle.local_heap.specs.Contents.{has_length, is_list, was_done};

use super::LocalHeap;
use crate::cells::Cell;
use rb_model::{Id, Immediate, Ref, Side, Value};
use rb_tree::NameId;
use shape_core::ShapeStore;
use std::alloc::AllocError;

impl<S: ShapeStore> LocalHeap<S> {
    /// The element at an index of a list that is private here; `None` where the id is of no such list.
    #[inline(always)]
    pub fn element(&self, id: Id, index: i64) -> Result<Option<Value>, AllocError>
        ensures list { IfOk result (λ found. is_some found ≡ is_list (held self.now id)) }
        ensures value { IfOk result (λ found. IfSome found (λ value. Gives self.now id (At index) (answer.Value (plain value)))) }
        ensures private { Becomes self.now id (At index) self.now }
        ensures refused { OnErr result (MayWant self.now id (At index)) }
    {
        match self.cells.cell(id) {
            Some(cell) => cell.element(index),
            None => Ok(None),
        }
    }

    /// The element at an index of a list that is private here, told where it is an immediate value. Nothing is copied or shared.
    #[inline(always)]
    pub fn immediate_element(&self, id: Id, index: i64) -> Immediate
        ensures told { result ≡ told_answer (held self.now id) (At index) }
        ensures private { Becomes self.now id (At index) self.now }
    {
        match self.cells.cell(id) {
            Some(cell) => cell.immediate(index),
            None => Immediate::Other,
        }
    }

    /// The list that the element at an index is, of a list that is private here.
    #[inline(always)]
    pub fn list_element(&self, id: Id, index: i64) -> Option<Ref>
        ensures list { option_map reference result ≡ list_answered (held self.now id) (At index) }
        ensures private { Becomes self.now id (At index) self.now }
    {
        match self.cells.cell(id) {
            Some(cell) => cell.list_element(index),
            None => None,
        }
    }

    /// The value of a key of a hash that is private here, told where it is an immediate value. Nothing is copied or shared.
    #[inline(always)]
    pub fn immediate_value(&self, id: Id, key: &Value) -> Immediate
        ensures told { result ≡ told_answer (held self.now id) (KGet (plain key.now)) }
        ensures private { Becomes self.now id (KGet (plain key.now)) self.now }
    {
        match self.cells.cell(id) {
            Some(cell) => cell.immediate_value(key),
            None => Immediate::Other,
        }
    }

    /// A field of an object that is private here, told where it is an immediate value. Nothing is copied or shared.
    #[inline(always)]
    pub fn immediate_field(&self, id: Id, name: NameId) -> Immediate
        ensures told { result ≡ told_answer (held self.now id) (GetField name) }
        ensures private { Becomes self.now id (GetField name) self.now }
    {
        if self.cells.thread != id.thread {
            return Immediate::Other;
        }
        let at = id.serial as usize;
        if at >= self.cells.items.len() {
            return Immediate::Other;
        }
        match &self.cells.items[at] {
            Cell::Object(object) => self.cells.immediate_field(&self.shapes, object, name),
            _ => Immediate::Other,
        }
    }

    /// Gives an element of a list that is private here an immediate value, where the list has the element and it fits where it stands. Else
    /// nothing is done. Nothing is allocated or copied.
    #[inline(always)]
    pub fn put_immediate(&mut self, id: Id, index: i64, value: Immediate) -> bool
        ensures there { result ≡ true → is_some (held self.old id) ≡ true }
        ensures gives { result ≡ true → IfSome (value_told value) (λ v. Gives self.old id (Put index v) answer.Done) }
        ensures private { result ≡ true → IfSome (value_told value) (λ v. Becomes self.old id (Put index v) self.new) }
        ensures told { result ≡ true → is_some (value_told value) ≡ true }
        ensures kept { result ≡ false → self.new ≡ self.old }
        ensures refused { result ≡ false → IfSome (value_told value) (λ v. NotAtOnce self.old id (Put index v)) }
    {
        if id.thread != self.cells.thread {
            return false;
        }
        let at = id.serial as usize;
        if at >= self.cells.items.len() {
            return false;
        }
        self.cells.items[at].put_immediate(index, value)
    }

    /// Puts an immediate value behind the last element of a list that is private here, where the list may have one more and it fits to the
    /// others. Else nothing is done.
    #[inline(always)]
    pub fn push_immediate(&mut self, id: Id, value: Immediate) -> Result<bool, AllocError>
        ensures there { was_done result ≡ true → is_some (held self.old id) ≡ true }
        ensures gives { was_done result ≡ true → IfSome (value_told value) (λ v. Gives self.old id (Push v) answer.Done) }
        ensures private { was_done result ≡ true → IfSome (value_told value) (λ v. Becomes self.old id (Push v) self.new) }
        ensures told { was_done result ≡ true → is_some (value_told value) ≡ true }
        ensures kept { was_done result ≡ false → self.new ≡ self.old }
        ensures refused { IfOk result (λ done. done ≡ false → IfSome (value_told value) (λ v. NotAtOnce self.old id (Push v))) }
    {
        if id.thread != self.cells.thread {
            return Ok(false);
        }
        let at = id.serial as usize;
        if at >= self.cells.items.len() {
            return Ok(false);
        }
        self.cells.items[at].push_immediate(value)
    }

    /// Takes an element that is an immediate value out at an end of a list that is private here. Of any other nothing is done. Nothing is
    /// allocated or copied.
    #[inline(always)]
    pub fn take_immediate(&mut self, id: Id, side: Side) -> Immediate
        ensures told { result ≡ told_answer (held self.old id) (taking side) }
        ensures private { IfSome (value_told result) (λ v. Becomes self.old id (taking side) self.new) }
        ensures kept { result ≡ Immediate.Other → self.new ≡ self.old }
    {
        if id.thread != self.cells.thread {
            return Immediate::Other;
        }
        let at = id.serial as usize;
        if at >= self.cells.items.len() {
            return Immediate::Other;
        }
        self.cells.items[at].take_immediate(side)
    }

    /// Adds an integer to a field of an object that is private here, where its place holds integers alone and the sum is one. Else nothing is
    /// done. Answers the sum. Nothing is allocated.
    #[inline(always)]
    pub fn add_to_field(&mut self, id: Id, name: NameId, n: i64) -> Option<i64>
        ensures there { IfSome result (λ sum. is_some (held self.old id) ≡ true) }
        ensures gave { IfSome result (λ sum. Gives self.old id (GetField name) (answer.Value (Int (sum -ℤ n)))) }
        ensures read { Becomes self.old id (GetField name) self.old }
        ensures gives { IfSome result (λ sum. Gives self.old id (SetField name (Int sum)) answer.Done) }
        ensures private { IfSome result (λ sum. Becomes self.old id (SetField name (Int sum)) self.new) }
        ensures none { result ≡ None → self.new ≡ self.old }
        ensures exact { (is_some result ≡ true) ↔ IsSomeAnd (held self.old id) (λ thing. HasSum thing name n) }
    {
        if self.cells.thread != id.thread {
            return None;
        }
        let at = id.serial as usize;
        if at >= self.cells.items.len() {
            return None;
        }
        match &mut self.cells.items[at] {
            Cell::Object(object) => object.add_to_field(&self.shapes, name, n),
            _ => None,
        }
    }

    /// How many elements a list has, or how many pairs a hash, that is private here; `None` where the id is of no such thing.
    pub fn length(&self, id: Id) -> Option<usize>
        ensures held { is_some result ≡ has_length (held self.now id) }
        ensures value { IfSome result (λ count. Gives self.now id Len (answer.Value (Int (pos count)))) }
        ensures private { Becomes self.now id Len self.now }
    {
        match self.cells.cell(id) {
            Some(cell) => cell.length(),
            None => None,
        }
    }
}
