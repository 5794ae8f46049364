// Literals of arrays and hashes, new ones by `new`, and assignments with an operator to elements.

ghost use Rattle.std.specs.Prelude.{◌≡◌, false, [], ◌∷◌, map, Some, IfSome};
ghost use Rattle.rb_tree.specs.declared.span.Span.{Span as At};
ghost use Rattle.rb_model.specs.Values.{plain};
ghost use Rattle.rb_model.specs.Immediates.{value_told};
ghost use Rattle.rb_machine.specs.Control.{On, Then, Give, Passing, Creating, Listing, Pairing, IndexedBy, ReadOf, WriteTo, OfElement};
ghost use Rattle.rb_code.specs.Erase.{erase};
ghost use Rattle.rb_walk.specs.Outcome.{is_left, value_of};
ghost use Rattle.rb_walk.specs.Carries.{both, built_by, me_of};
ghost use Rattle.rb_walk.specs.Answers.{IsGiven, steps_of};
ghost use Rattle.rb_walk.specs.Methods.{HasNoMethods};
ghost use Rattle.rb_walk.specs.Elements.{IsElementAt, IsToldBy, IsToldOf};

use super::Walker;
use rb_builtin::Builtin;
use rb_code::{BuiltinClass, Code};
use rb_model::{Immediate, Ref, ThreadStore, Value};
use rb_tree::{AssignOp, NameId, Span};
use rb_walk::came::{Came, Cut, is_left};
use rb_walk::leaf::{computed, local_at, small};
use rb_walk::questions::{is_element, is_value};
use rb_walk::slots::passed;
use rb_walk::target::local_collection;

impl<'p, O: ThreadStore + Drop> Walker<'p, O> {
    ghost use Rattle.rb_interp.specs.Walks.{Walked, Walks, at_node_then, node_fits, nodes_fit};

    /// The list that an element of the array of a local is, at an index that is a leaf. Nothing is done for it, and no step is counted.
    #[inline(always)]
    fn row_at(&self, code: &Code, room: &[Value]) -> Option<Ref>
        ensures given { IfSome result (λ row. IsGiven 3 code.now room.now (O.private self.now.store) (me_of (Some row))) }
        ensures unnamed { IfSome result (λ row. HasNoMethods (me_of (Some row))) }
    {
        let Code::Operate(method, _, left, right, _) = code else {
            return None;
        };
        let rows = local_collection(left.get(), room)?;
        if !is_element(rows, *method) {
            return None;
        }
        let index = small(right.get(), room)?;
        self.store.list_element(rows.id, index)
    }

    /// The array of an operand, taken for an element of another array or for a local.
    #[inline(always)]
    fn array_at(&self, code: &Code, is_row: bool, room: &[Value]) -> Option<Ref>
        ensures given { IfSome result (λ array. IsGiven (steps_of is_row) code.now room.now (O.private self.now.store) (me_of (Some array))) }
        ensures unnamed { IfSome result (λ array. HasNoMethods (me_of (Some array))) }
    {
        if is_row {
            self.row_at(code, room)
        } else {
            local_collection(code, room)
        }
    }

    /// What a hash answers to a method with this key, where that is its value and an immediate one. Nothing is done for it.
    #[inline(always)]
    pub(super) fn key_told(&self, hash: Ref, method: Option<Builtin>, key: &Value) -> Immediate
        ensures { IfSome (value_told result) (λ v. IsToldOf (O.private self.now.store) hash method (plain key.now) v) }
    {
        if !is_value(hash, method, key) {
            return Immediate::Other;
        }
        self.store.immediate_value(hash.id, key)
    }

    /// The value of a hash that a call asks for, where the key is a local's or computed at once and the value is an immediate one.
    #[inline(always)]
    fn value_of_key(
        &self,
        hash: Ref,
        method: Option<Builtin>,
        key: &Code,
        is_over: bool,
        room: &[Value],
    ) -> Immediate
        ensures { IfSome (value_told result) (λ v. IsToldBy (O.private self.now.store) hash method key.now (steps_of is_over) room.now v) }
    {
        if let Some(n) = computed(key, is_over, room) {
            return self.key_told(hash, method, &Value::Int(n));
        }
        if is_over {
            return Immediate::Other;
        }
        match local_at(key, room) {
            Some(key) => self.key_told(hash, method, key),
            None => Immediate::Other,
        }
    }

    /// The value of a hash that a call asks for, where the hash is a local's or an element of an array, and key and value are as above. It
    /// takes what `element_at` takes, so that this can go on with it in place.
    #[inline(never)]
    fn value_at(
        &self,
        method: Option<Builtin>,
        left: &Code,
        is_row: bool,
        right: &Code,
        is_over: bool,
        room: &[Value],
    ) -> Immediate
        ensures { IfSome (value_told result) (λ v. IsElementAt (O.private self.now.store) method left.now (steps_of is_row) right.now (steps_of is_over) room.now v) }
    {
        match self.array_at(left, is_row, room) {
            Some(hash) => self.value_of_key(hash, method, right, is_over, room),
            None => Immediate::Other,
        }
    }

    /// The element of an array or a hash that a call asks for, where that is a local's or an element of an array, the index or the key is
    /// computed at once and the element is an immediate value. Nothing is done for it, and no step is counted.
    #[inline(never)]
    pub(super) fn element_at(
        &self,
        method: Option<Builtin>,
        left: &Code,
        is_row: bool,
        right: &Code,
        is_over: bool,
        room: &[Value],
    ) -> Immediate
        ensures { IfSome (value_told result) (λ v. IsElementAt (O.private self.now.store) method left.now (steps_of is_row) right.now (steps_of is_over) room.now v) }
    {
        let Some(array) = self.array_at(left, is_row, room) else {
            return Immediate::Other;
        };
        if !is_element(array, method) {
            return self.value_at(method, left, is_row, right, is_over, room);
        }
        let Some(index) = computed(right, is_over, room) else {
            return Immediate::Other;
        };
        self.store.immediate_element(array.id, index)
    }

    /// The literal of an array.
    #[cycle(walk)]
    pub(super) fn array(&mut self, items: &'p [Code], depth: u32, room: &mut [Value]) -> Came
        ensures stays { Walked self.old self.new room.old room.new }
        ensures came { (at : At) → Walks (nodes_fit items.now) (λ S k sc d n. On (Passing Listing [] (map erase items.now) at) k sc d n) self.old self.new room.old room.new depth result }
    {
        let before = self.base;
        let came = self.arguments(items, depth, room);
        self.base = before;
        if is_left(came) {
            return came;
        }
        self.list(passed(room, before, items.len()))
    }

    /// The literal of a hash, whose keys and values stand by turns.
    #[cycle(walk)]
    pub(super) fn hash(
        &mut self,
        items: &'p [Code],
        at: Span,
        depth: u32,
        room: &mut [Value],
    ) -> Came
        ensures stays { Walked self.old self.new room.old room.new }
        ensures came { Walks (nodes_fit items.now) (λ S k sc d n. On (Passing Pairing [] (map erase items.now) at) k sc d n) self.old self.new room.old room.new depth result }
    {
        let before = self.base;
        let came = self.arguments(items, depth, room);
        self.base = before;
        if is_left(came) {
            return came;
        }
        self.pairs(passed(room, before, items.len()), at)
    }

    /// A new array or a new hash.
    #[cycle(walk)]
    pub(super) fn create_builtin(
        &mut self,
        class: BuiltinClass,
        name: NameId,
        args: &'p [Code],
        at: Span,
        depth: u32,
        room: &mut [Value],
    ) -> Came
        ensures stays { Walked self.old self.new room.old room.new }
        ensures came { Walks (built_by class name (nodes_fit args.now)) (λ S k sc d n. On (Passing (Creating name) [] (map erase args.now) at) k sc d n) self.old self.new room.old room.new depth result }
    {
        let before = self.base;
        let came = self.arguments(args, depth, room);
        self.base = before;
        if is_left(came) {
            return came;
        }
        self.build(class, passed(room, before, args.len()), at)
    }

    /// An assignment with an operator to an element.
    #[cycle(walk)]
    pub(super) fn update_element(
        &mut self,
        receiver: &'p Code,
        index: &'p Code,
        op: AssignOp,
        value: &'p Code,
        at: Span,
        depth: u32,
        room: &mut [Value],
    ) -> Came
        ensures stays { Walked self.old self.new room.old room.new }
        ensures came { Walks (both (node_fits receiver.now) (both (node_fits index.now) (node_fits value.now))) (at_node_then receiver.now (λ S. IndexedBy (erase index.now) op (erase value.now) at)) self.old self.new room.old room.new depth result }
    {
        let came = self.walk(receiver, depth, room);
        if is_left(came) {
            return came;
        }
        let receiver = self.take(came);
        let came = self.walk(index, depth, room);
        if is_left(came) {
            return came;
        }
        let index = self.take(came);
        let Ok(copy) = index.share() else {
            return self.over(Cut::Memory);
        };
        let current = self.call_with(&receiver, Some(Builtin::Index), copy, at, depth);
        if is_left(current) {
            return current;
        }
        self.update_at(current, &receiver, index, op, value, at, depth, room)
    }

    /// What is behind the reading of an element.
    #[cycle(walk)]
    pub(super) fn update_at(
        &mut self,
        current: Came,
        receiver: &Value,
        index: Value,
        op: AssignOp,
        value: &'p Code,
        at: Span,
        depth: u32,
        room: &mut [Value],
    ) -> Came
        requires came { is_left current ≡ false }
        ensures stays { Walked self.old self.new room.old room.new }
        ensures came { Walks (node_fits value.now) (λ S k sc d n. On (Give (value_of current self.old.value)) (Then (ReadOf (OfElement (plain receiver.now) (plain index)) op (erase value.now) at) ∷ k) sc d n) self.old self.new room.old room.new depth result }
    {
        match op {
            AssignOp::OrElse => {
                if self.is_true_now(current) {
                    return current;
                }
                self.set_element(receiver, index, value, at, depth, room)
            }
            AssignOp::AndThen => {
                if !self.is_true_now(current) {
                    return current;
                }
                self.set_element(receiver, index, value, at, depth, room)
            }
            _ => {
                let made = self.combine(current, op, value, at, depth, room);
                if is_left(made) {
                    return made;
                }
                self.write_element(made, receiver, index, at, depth)
            }
        }
    }

    /// An assignment to an element whose receiver and index are evaluated.
    #[cycle(walk)]
    pub(super) fn set_element(
        &mut self,
        receiver: &Value,
        index: Value,
        value: &'p Code,
        at: Span,
        depth: u32,
        room: &mut [Value],
    ) -> Came
        ensures stays { Walked self.old self.new room.old room.new }
        ensures came { Walks (node_fits value.now) (at_node_then value.now (λ S. WriteTo (OfElement (plain receiver.now) (plain index)) at)) self.old self.new room.old room.new depth result }
    {
        let came = self.walk(value, depth, room);
        if is_left(came) {
            return came;
        }
        self.write_element(came, receiver, index, at, depth)
    }
}
