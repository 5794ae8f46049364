// Assignments with operators, and operators on values.

ghost use Rattle.std.specs.Prelude.{◌≡◌, ◌<◌, ℕ, false, [], ◌∷◌, slice_get, Some, None};
ghost use Rattle.rb_model.specs.Values.{Int, plain};
ghost use Rattle.rb_machine.specs.Scopes.{text_of};
ghost use Rattle.rb_machine.specs.Control.{On, Then, Give, Step, MemberOf, ReadOf, RightOf, WriteTo, OfLocal, OfAttribute};
ghost use Rattle.rb_machine.specs.Call.{read_place};
ghost use Rattle.rb_code.specs.Erase.{erase};
ghost use Rattle.rb_walk.specs.Outcome.{is_left, value_of};
ghost use Rattle.rb_walk.specs.Carries.{both, at_slot, attribute, written_by, Assigns};
ghost use Rattle.rb_walk.specs.Answers.{method_of};

use super::Walker;
use rb_builtin::Builtin;
use rb_code::Code;
use rb_model::{Fault, ThreadStore, Value};
use rb_tree::{AssignOp, NameId, Span};
use rb_walk::came::{Came, Cut, is_left};
use rb_walk::leaf::{method_of, operation_by, operation_on};
use rb_walk::target::writer_of;

impl<'p, O: ThreadStore + Drop> Walker<'p, O> {
    ghost use Rattle.rb_interp.specs.Answers.{AnswersBy};
    ghost use Rattle.rb_interp.specs.Calls.{Writing};
    ghost use Rattle.rb_interp.specs.Walks.{Kept, Untouched, Walked, Walks, WalksTo, at_node_then, node_fits};

    /// An assignment to a local.
    #[cycle(walk)]
    #[inline(always)]
    pub(super) fn set_local(
        &mut self,
        slot: u32,
        value: &'p Code,
        depth: u32,
        room: &mut [Value],
    ) -> Came
        ensures stays { Walked self.old self.new room.old room.new }
        ensures kept { (name : NameId) → Kept (at_slot slot name (node_fits value.now)) self.old room.old room.new }
        ensures came { (name : NameId) (step : Step) → Assigns name step → WalksTo (at_slot slot name (node_fits value.now)) (at_node_then value.now (λ S. step)) self.old self.new room.old room.new depth result }
    {
        let came = self.evaluate_call(value, depth, room);
        if is_left(came) {
            return came;
        }
        self.write(slot, came, room)
    }

    /// An assignment with an operator to a local.
    #[cycle(walk)]
    #[inline(always)]
    pub(super) fn update_local(
        &mut self,
        slot: u32,
        op: AssignOp,
        value: &'p Code,
        at: Span,
        depth: u32,
        room: &mut [Value],
    ) -> Came
        ensures stays { Walked self.old self.new room.old room.new }
        ensures came { (name : NameId) → Walks (at_slot slot name (node_fits value.now)) (λ S k sc d n. read_place S (OfLocal name) op (erase value.now) at k sc d n) self.old self.new room.old room.new depth result }
    {
        let current = self.read(slot, room);
        if is_left(current) {
            return current;
        }
        match op {
            AssignOp::OrElse => {
                if self.is_true_now(current) {
                    return current;
                }
                self.set_local(slot, value, depth, room)
            }
            AssignOp::AndThen => {
                if !self.is_true_now(current) {
                    return current;
                }
                self.set_local(slot, value, depth, room)
            }
            _ => {
                let made = self.combine(current, op, value, at, depth, room);
                if is_left(made) {
                    return made;
                }
                self.write(slot, made, room)
            }
        }
    }

    /// What the operator of an assignment makes of the value that its target has.
    #[cycle(walk)]
    #[inline(always)]
    pub(super) fn combine(
        &mut self,
        current: Came,
        op: AssignOp,
        value: &'p Code,
        at: Span,
        depth: u32,
        room: &mut [Value],
    ) -> Came
        requires came { is_left current ≡ false }
        ensures stays { Walked self.old self.new room.old room.new }
        ensures came { Walks (node_fits value.now) (at_node_then value.now (λ S. RightOf (value_of current self.old.value) op at)) self.old self.new room.old room.new depth result }
    {
        match current {
            Came::Int(m) => self.combine_integer(m, op, value, at, depth, room),
            _ => self.combine_value(current, op, value, at, depth, room),
        }
    }

    /// What the operator of an assignment makes of an integer that its target has.
    #[cycle(walk)]
    #[inline(always)]
    pub(super) fn combine_integer(
        &mut self,
        m: i64,
        op: AssignOp,
        value: &'p Code,
        at: Span,
        depth: u32,
        room: &mut [Value],
    ) -> Came
        ensures stays { Walked self.old self.new room.old room.new }
        ensures came { Walks (node_fits value.now) (at_node_then value.now (λ S. RightOf (Int m) op at)) self.old self.new room.old room.new depth result }
    {
        let came = self.evaluate(value, depth, room);
        if is_left(came) {
            return came;
        }
        self.operated_by(method_of(op), m, came, at)
    }

    /// What the operator of an assignment makes of any value that its target has.
    #[cycle(walk)]
    #[inline(never)]
    pub(super) fn combine_value(
        &mut self,
        current: Came,
        op: AssignOp,
        value: &'p Code,
        at: Span,
        depth: u32,
        room: &mut [Value],
    ) -> Came
        requires came { is_left current ≡ false }
        ensures stays { Walked self.old self.new room.old room.new }
        ensures came { Walks (node_fits value.now) (at_node_then value.now (λ S. RightOf (value_of current self.old.value) op at)) self.old self.new room.old room.new depth result }
    {
        let method = method_of(op);
        let receiver = self.take(current);
        let came = self.walk(value, depth, room);
        if is_left(came) {
            return came;
        }
        let arg = self.take(came);
        self.call_with(&receiver, method, arg, at, depth)
    }

    /// A call of a method of an integer with one argument that came.
    #[inline(always)]
    pub(super) fn operated_by(
        &mut self,
        method: Option<Builtin>,
        m: i64,
        came: Came,
        at: Span,
    ) -> Came
        ensures gives { AnswersBy method (Int m) (value_of came self.old.value ∷ []) at self.old self.new result }
        ensures stays { Untouched self.old self.new }
    {
        match came {
            Came::Int(n) => match operation_by(method, m, n) {
                Some(answer) => self.answer(answer, at),
                None => self.operated_any(method, m, came, at),
            },
            _ => self.operated_any(method, m, came, at),
        }
    }

    /// The same by the operator of an assignment, which is most often a sum.
    #[inline(always)]
    pub(super) fn operated_with(&mut self, op: AssignOp, m: i64, came: Came, at: Span) -> Came
        ensures gives { AnswersBy (method_of op) (Int m) (value_of came self.old.value ∷ []) at self.old self.new result }
        ensures stays { Untouched self.old self.new }
    {
        match op {
            AssignOp::Plus => self.operated_by(Some(Builtin::Plus), m, came, at),
            _ => self.operated_apart(method_of(op), m, came, at),
        }
    }

    /// The same of any method, apart.
    #[inline(never)]
    fn operated_apart(&mut self, method: Option<Builtin>, m: i64, came: Came, at: Span) -> Came
        ensures gives { AnswersBy method (Int m) (value_of came self.old.value ∷ []) at self.old self.new result }
        ensures stays { Untouched self.old self.new }
    {
        self.operated_by(method, m, came, at)
    }

    /// Any call of a method of an integer with one argument that came.
    #[inline(never)]
    pub(super) fn operated_any(
        &mut self,
        method: Option<Builtin>,
        m: i64,
        came: Came,
        at: Span,
    ) -> Came
        ensures gives { AnswersBy method (Int m) (value_of came self.old.value ∷ []) at self.old self.new result }
        ensures stays { Untouched self.old self.new }
    {
        let arg = self.take(came);
        self.operated(method, &Value::Int(m), arg, at)
    }

    /// A call with one argument that is evaluated.
    #[inline(never)]
    pub(super) fn operated(
        &mut self,
        method: Option<Builtin>,
        receiver: &Value,
        arg: Value,
        at: Span,
    ) -> Came
        ensures gives { AnswersBy method (plain receiver.now) (plain arg ∷ []) at self.old self.new result }
        ensures stays { Untouched self.old self.new }
    {
        match operation_on(method, receiver, &arg) {
            Some(answer) => self.answer(answer, at),
            None => {
                let args = [arg];
                self.call_held(receiver, method, args.as_slice(), at)
            }
        }
    }

    /// An assignment with an operator to an attribute.
    #[cycle(walk)]
    pub(super) fn update_attribute(
        &mut self,
        number: Option<Builtin>,
        writer: Option<NameId>,
        name: NameId,
        receiver: &'p Code,
        op: AssignOp,
        value: &'p Code,
        at: Span,
        depth: u32,
        room: &mut [Value],
    ) -> Came
        ensures stays { Walked self.old self.new room.old room.new }
        ensures came { Walks (attribute number writer name (both (node_fits receiver.now) (node_fits value.now))) (at_node_then receiver.now (λ S. MemberOf (text_of S name) op (erase value.now) at)) self.old self.new room.old room.new depth result }
    {
        let came = self.walk(receiver, depth, room);
        if is_left(came) {
            return came;
        }
        let receiver = self.take(came);
        let current = self.invoke(&receiver, number, name, 0, at, depth, room);
        if is_left(current) {
            return current;
        }
        self.update_member(current, &receiver, writer, op, value, at, depth, room)
    }

    /// What is behind the reading of an attribute.
    #[cycle(walk)]
    pub(super) fn update_member(
        &mut self,
        current: Came,
        receiver: &Value,
        writer: Option<NameId>,
        op: AssignOp,
        value: &'p Code,
        at: Span,
        depth: u32,
        room: &mut [Value],
    ) -> Came
        requires came { is_left current ≡ false }
        ensures stays { Walked self.old self.new room.old room.new }
        ensures kept { Kept (node_fits value.now) self.old room.old room.new }
        ensures came { (name : NameId) → WalksTo (written_by writer name (node_fits value.now)) (λ S k sc d n. On (Give (value_of current self.old.value)) (Then (ReadOf (OfAttribute (plain receiver.now) (text_of S name)) op (erase value.now) at) ∷ k) sc d n) self.old self.new room.old room.new depth result }
    {
        match op {
            AssignOp::OrElse => {
                if self.is_true_now(current) {
                    return current;
                }
                self.set_member(receiver, writer, value, at, depth, room)
            }
            AssignOp::AndThen => {
                if !self.is_true_now(current) {
                    return current;
                }
                self.set_member(receiver, writer, value, at, depth, room)
            }
            _ => {
                let made = self.combine(current, op, value, at, depth, room);
                if is_left(made) {
                    return made;
                }
                self.write_member(made, receiver, writer, at, depth, room)
            }
        }
    }

    /// An assignment to an attribute whose receiver is evaluated.
    #[cycle(walk)]
    pub(super) fn set_member(
        &mut self,
        receiver: &Value,
        writer: Option<NameId>,
        value: &'p Code,
        at: Span,
        depth: u32,
        room: &mut [Value],
    ) -> Came
        ensures stays { Walked self.old self.new room.old room.new }
        ensures kept { Kept (node_fits value.now) self.old room.old room.new }
        ensures came { (name : NameId) → WalksTo (written_by writer name (node_fits value.now)) (at_node_then value.now (λ S. WriteTo (OfAttribute (plain receiver.now) (text_of S name)) at)) self.old self.new room.old room.new depth result }
    {
        let came = self.walk(value, depth, room);
        if is_left(came) {
            return came;
        }
        self.write_member(came, receiver, writer, at, depth, room)
    }

    /// Writes the value that came to an attribute by the method of the script that does it, and gives it on.
    #[cycle(walk)]
    pub(super) fn write_member(
        &mut self,
        came: Came,
        receiver: &Value,
        writer: Option<NameId>,
        at: Span,
        depth: u32,
        room: &mut [Value],
    ) -> Came
        requires came { is_left came ≡ false }
        ensures stays { Walked self.old self.new room.old room.new }
        ensures kept { (i : ℕ) → i < self.old.base → slice_get room.new i ≡ slice_get room.old i }
        ensures came { Writing (plain receiver.now) writer (value_of came self.old.value) at self.old self.new room.old room.new depth result }
    {
        let Some(target) = writer_of(self.context.script, receiver, writer) else {
            return self.raise(Fault::NoMethod, at);
        };
        if let Some(done) = self.entered_writing(target, came, depth) {
            if is_left(done) {
                return done;
            }
            return came;
        }
        if let Some(done) = self.entered_giving(target, came, depth) {
            return done;
        }
        let value = self.take(came);
        let Ok(copy) = value.share() else {
            return self.over(Cut::Memory);
        };
        let came = self.enter_storing_with(target, copy, at, depth, room);
        if is_left(came) {
            return came;
        }
        self.give(value)
    }
}
