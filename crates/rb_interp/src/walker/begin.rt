// The starts of nodes whose steps are counted.

ghost use Rattle.std.specs.Prelude.{◌≡◌, [], None, IfSome, IfErr};
ghost use Rattle.rb_walk.specs.Outcome.{IsOver, fetched, outcome};

use super::Walker;
use rb_builtin::Builtin;
use rb_code::Code;
use rb_model::{Act, ThreadStore, Value};
use rb_tree::{NameId, Span};
use rb_walk::MAX_DEPTH;
use rb_walk::came::{Came, Cut, Leave, is_left};
use rb_walk::leaf::{
    has_read, held_alone, held_at, integer_at, is_combining, is_deep, is_object_at, is_operate,
    is_send, local_at, method_of, quick, quick_update, update_over,
};
use rb_walk::ready::{answering, compared};
use rb_walk::target::{local_collection, local_target, reader_of};

impl<'p, O: ThreadStore + Drop> Walker<'p, O> {
    ghost use Rattle.rb_interp.specs.Calls.{EvaluatesTo, SendsTo};
    ghost use Rattle.rb_interp.specs.Walks.{Stepped, Walked, Walks, begun, node_fits};

    /// An assignment to a local whose step is counted.
    #[cycle(walk)]
    #[inline(never)]
    pub(super) fn begin_set(&mut self, code: &'p Code, depth: u32, room: &mut [Value]) -> Came
        ensures stays { Walked self.old self.new room.old room.new }
        ensures came { Walks (node_fits code.now) (begun code.now) self.old self.new room.old room.new depth result }
    {
        match code {
            Code::SetLocal(slot, _, value, _) => self.set_local(*slot, value.get(), depth, room),
            _ => self.over(Cut::Memory),
        }
    }

    /// An assignment with an operator to a local. Over an integer and a leaf that is one it calls nothing of the walk.
    #[cycle(walk)]
    #[inline(never)]
    pub(super) fn begin_update(&mut self, code: &'p Code, depth: u32, room: &mut [Value]) -> Came
        ensures stays { Walked self.old self.new room.old room.new }
        ensures came { Walks (node_fits code.now) (begun code.now) self.old self.new room.old room.new depth result }
    {
        match code {
            Code::UpdateLocal(slot, _, op, value, _) => {
                let value = value.get();
                if is_deep(value) {
                    return self.begin_slow_update(code, depth, room);
                }
                if is_operate(value) {
                    return self.begin_update_over(code, depth, room);
                }
                if is_send(value) {
                    return self.begin_update_sent(code, depth, room);
                }
                if self.left > 0 && depth < MAX_DEPTH {
                    if let Some(n) = quick_update(*slot, *op, value, room) {
                        self.left -= 1;
                        return Came::Int(n);
                    }
                }
                self.begin_slow_update(code, depth, room)
            }
            _ => self.over(Cut::Memory),
        }
    }

    /// An assignment with an operator and an operation to a local. Over integers it calls nothing of the walk.
    #[cycle(walk)]
    #[inline(never)]
    fn begin_update_over(&mut self, code: &'p Code, depth: u32, room: &mut [Value]) -> Came
        ensures stays { Walked self.old self.new room.old room.new }
        ensures came { Walks (node_fits code.now) (begun code.now) self.old self.new room.old room.new depth result }
    {
        match code {
            Code::UpdateLocal(slot, _, op, value, _) => {
                if self.left > 2 && depth < MAX_DEPTH - 1 {
                    if let Some(n) = update_over(*slot, *op, value.get(), room) {
                        self.left -= 3;
                        return Came::Int(n);
                    }
                }
                self.begin_slow_update(code, depth, room)
            }
            _ => self.over(Cut::Memory),
        }
    }

    /// An assignment with an operator and a call with a receiver to a local. Over an integer the call stands here.
    #[cycle(walk)]
    #[inline(never)]
    fn begin_update_sent(&mut self, code: &'p Code, depth: u32, room: &mut [Value]) -> Came
        ensures stays { Walked self.old self.new room.old room.new }
        ensures came { Walks (node_fits code.now) (begun code.now) self.old self.new room.old room.new depth result }
    {
        match code {
            Code::UpdateLocal(slot, _, op, value, at) => {
                if is_combining(*op) {
                    if let Some(m) = integer_at(room, *slot) {
                        let came = self.evaluate_sent(value.get(), depth, room);
                        if is_left(came) {
                            return came;
                        }
                        let made = self.operated_with(*op, m, came, *at);
                        if is_left(made) {
                            return made;
                        }
                        return self.write(*slot, made, room);
                    }
                }
                self.begin_slow_update(code, depth, room)
            }
            _ => self.over(Cut::Memory),
        }
    }

    /// Any assignment with an operator to a local.
    #[cycle(walk)]
    #[inline(never)]
    fn begin_slow_update(&mut self, code: &'p Code, depth: u32, room: &mut [Value]) -> Came
        ensures stays { Walked self.old self.new room.old room.new }
        ensures came { Walks (node_fits code.now) (begun code.now) self.old self.new room.old room.new depth result }
    {
        match code {
            Code::UpdateLocal(slot, _, op, value, at) => {
                self.update_local(*slot, *op, value.get(), *at, depth, room)
            }
            _ => self.over(Cut::Memory),
        }
    }

    /// A call with one argument. Over two leaves that are integers it calls nothing of the walk.
    #[cycle(walk)]
    #[inline(never)]
    pub(super) fn begin_operate(&mut self, code: &'p Code, depth: u32, room: &mut [Value]) -> Came
        ensures stays { Walked self.old self.new room.old room.new }
        ensures came { Walks (node_fits code.now) (begun code.now) self.old self.new room.old room.new depth result }
    {
        match code {
            Code::Operate(method, _, left, right, at) => {
                let left = left.get();
                let right = right.get();
                if self.left > 1 && depth < MAX_DEPTH {
                    if let Some(answer) = quick(*method, left, right, room) {
                        self.left -= 2;
                        return self.answer(answer, *at);
                    }
                }
                if is_object_at(left, room) {
                    return self.begin_object_operate(code, depth, room);
                }
                if has_read(left, right) {
                    return self.begin_read_operate(code, depth, room);
                }
                self.begin_slow_operate(code, depth, room)
            }
            _ => self.over(Cut::Memory),
        }
    }

    /// A call with one argument to the object of a local, whose class has the method.
    #[cycle(walk)]
    #[inline(never)]
    fn begin_object_operate(&mut self, code: &'p Code, depth: u32, room: &mut [Value]) -> Came
        ensures stays { Walked self.old self.new room.old room.new }
        ensures came { Walks (node_fits code.now) (begun code.now) self.old self.new room.old room.new depth result }
    {
        match code {
            Code::Operate(_, name, left, right, at) => {
                let left = left.get();
                let right = right.get();
                if self.left > 0 && depth < MAX_DEPTH {
                    if let Some(target) = local_target(self.context.script, left, *name, room) {
                        self.left -= 1;
                        return self.operate_target(target, *name, right, *at, depth, room);
                    }
                }
                self.begin_slow_operate(code, depth, room)
            }
            _ => self.over(Cut::Memory),
        }
    }

    /// Any call with one argument. Over two locals it takes no values out of their slots.
    #[cycle(walk)]
    #[inline(never)]
    pub(super) fn begin_slow_operate(
        &mut self,
        code: &'p Code,
        depth: u32,
        room: &mut [Value],
    ) -> Came
        ensures stays { Walked self.old self.new room.old room.new }
        ensures came { Walks (node_fits code.now) (begun code.now) self.old self.new room.old room.new depth result }
    {
        match code {
            Code::Operate(method, name, left, right, at) => {
                let left = left.get();
                let right = right.get();
                if self.left > 1 && depth < MAX_DEPTH {
                    if let Some(answer) = compared(
                        self.context.script,
                        *method,
                        *name,
                        left,
                        right,
                        room,
                    ) {
                        self.left -= 2;
                        return self.answer(answer, *at);
                    }
                    if let Some(thing) = local_collection(left, room) {
                        self.left -= 1;
                        return self.operate_collection(
                            thing, *method, *name, right, *at, depth, room,
                        );
                    }
                    if let Some(receiver) = held_at(left, room) {
                        if let Some(arg) = held_alone(right, room) {
                            self.left -= 2;
                            return self.call_held(receiver, *method, arg, *at);
                        }
                    }
                    if let Some(target) = local_target(self.context.script, left, *name, room) {
                        self.left -= 1;
                        return self.operate_target(target, *name, right, *at, depth, room);
                    }
                }
                self.operate(*method, *name, left, right, *at, depth, room)
            }
            _ => self.over(Cut::Memory),
        }
    }

    /// What comes of a method that is sent without arguments to an object and only reads an instance variable, where the object is a
    /// local's. Else nothing is done.
    #[inline(always)]
    fn sent_reader(
        &mut self,
        method: Option<Builtin>,
        name: NameId,
        receiver: &Code,
        args: &[Code],
        at: Span,
        depth: u32,
        room: &[Value],
    ) -> Option<Came>
        ensures none { result ≡ None → self.new ≡ self.old }
        ensures empty { IfSome result (λ _. args.now ≡ []) }
        ensures stays { Stepped self.old self.new }
        ensures came { IfSome result (λ came. SendsTo receiver.now method name at self.old self.new room.now depth came) }
    {
        if !args.is_empty() {
            return None;
        }
        if self.left < 2 || depth >= MAX_DEPTH {
            return None;
        }
        let reader = reader_of(self.context.script, local_at(receiver, room)?, name)?;
        self.left -= 2;
        let came = self.ask(reader.object, Act::GetField(reader.field), reader.at);
        Some(self.out_of_call(came))
    }

    /// The value of a call without arguments of a method that only reads an instance variable of a local's object; the walker does not keep
    /// it. Of other code nothing is done.
    #[inline(always)]
    pub(super) fn sent_value(
        &mut self,
        code: &Code,
        depth: u32,
        room: &[Value],
    ) -> Option<Result<Value, Came>>
        ensures none { result ≡ None → self.new ≡ self.old }
        ensures stays { Stepped self.old self.new }
        ensures over { IfSome result (λ sent. IfErr sent (λ came. IsOver (outcome came self.new.value self.new.leave))) }
        ensures came { IfSome result (λ sent. EvaluatesTo code.now self.old self.new room.now depth (fetched sent self.new.value self.new.leave)) }
    {
        let Code::Send(_, name, receiver, args, _) = code else {
            return None;
        };
        if !args.is_empty() {
            return None;
        }
        if self.left < 3 || depth >= MAX_DEPTH - 1 {
            return None;
        }
        let reader = reader_of(self.context.script, local_at(receiver.get(), room)?, *name)?;
        self.left -= 3;
        Some(self.fetch(reader.object, Act::GetField(reader.field), reader.at))
    }

    /// What comes of a method that is sent without arguments, where the receiver is a local that holds no thing, or an array or a hash. Else
    /// nothing is done.
    #[inline(always)]
    fn sent(
        &mut self,
        method: Option<Builtin>,
        name: NameId,
        receiver: &Code,
        args: &[Code],
        at: Span,
        depth: u32,
        room: &[Value],
    ) -> Option<Came>
        ensures none { result ≡ None → self.new ≡ self.old }
        ensures empty { IfSome result (λ _. args.now ≡ []) }
        ensures stays { Stepped self.old self.new }
        ensures came { IfSome result (λ came. SendsTo receiver.now method name at self.old self.new room.now depth came) }
    {
        if !args.is_empty() {
            return None;
        }
        if self.left < 2 || depth >= MAX_DEPTH {
            return None;
        }
        if let Some(thing) = local_collection(receiver, room) {
            self.left -= 1;
            return Some(self.asked_alone(thing, method, at, depth));
        }
        let held = answering(self.context.script, method, name, receiver, room)?;
        self.left -= 1;
        Some(self.call_held(held, method, &[], at))
    }

    /// A call with a receiver, without a block.
    #[cycle(walk)]
    #[inline(always)]
    pub(super) fn begin_send(&mut self, code: &'p Code, depth: u32, room: &mut [Value]) -> Came
        ensures stays { Walked self.old self.new room.old room.new }
        ensures came { Walks (node_fits code.now) (begun code.now) self.old self.new room.old room.new depth result }
    {
        match code {
            Code::Send(_, _, receiver, _, _) => {
                if is_object_at(receiver.get(), room) {
                    return self.begin_read(code, depth, room);
                }
                self.begin_slow_send(code, depth, room)
            }
            _ => self.over(Cut::Memory),
        }
    }

    /// A call with a receiver, without a block. What only reads an instance variable of a local's object is done here.
    #[cycle(walk)]
    #[inline(always)]
    pub(super) fn read_attribute(&mut self, code: &'p Code, depth: u32, room: &mut [Value]) -> Came
        ensures stays { Walked self.old self.new room.old room.new }
        ensures came { Walks (node_fits code.now) (begun code.now) self.old self.new room.old room.new depth result }
    {
        match code {
            Code::Send(method, name, receiver, args, at) => {
                let receiver = receiver.get();
                let args = args.as_slice();
                match self.sent_reader(*method, *name, receiver, args, *at, depth, room) {
                    Some(came) => came,
                    None => self.begin_slow_send(code, depth, room),
                }
            }
            _ => self.over(Cut::Memory),
        }
    }

    /// The same apart.
    #[cycle(walk)]
    #[inline(never)]
    pub(super) fn begin_read(&mut self, code: &'p Code, depth: u32, room: &mut [Value]) -> Came
        ensures stays { Walked self.old self.new room.old room.new }
        ensures came { Walks (node_fits code.now) (begun code.now) self.old self.new room.old room.new depth result }
    {
        self.read_attribute(code, depth, room)
    }

    /// A call with a receiver, without a block, where the receiver is evaluated as any node is.
    #[cycle(walk)]
    #[inline(never)]
    pub(super) fn begin_far_send(&mut self, code: &'p Code, depth: u32, room: &mut [Value]) -> Came
        ensures stays { Walked self.old self.new room.old room.new }
        ensures came { Walks (node_fits code.now) (begun code.now) self.old self.new room.old room.new depth result }
    {
        match code {
            Code::Send(method, name, receiver, args, at) => {
                let receiver = receiver.get();
                let args = args.as_slice();
                self.send(*method, *name, receiver, args, *at, depth, room)
            }
            _ => self.over(Cut::Memory),
        }
    }

    /// Any call with a receiver, without a block. What an object of a local has a method for is entered here; to another local without
    /// arguments it takes no value out of its slot.
    #[cycle(walk)]
    #[inline(never)]
    fn begin_slow_send(&mut self, code: &'p Code, depth: u32, room: &mut [Value]) -> Came
        ensures stays { Walked self.old self.new room.old room.new }
        ensures came { Walks (node_fits code.now) (begun code.now) self.old self.new room.old room.new depth result }
    {
        match code {
            Code::Send(method, name, receiver, args, at) => {
                let receiver = receiver.get();
                let args = args.as_slice();
                if self.left > 0 && depth < MAX_DEPTH {
                    if let Some(target) = local_target(self.context.script, receiver, *name, room) {
                        self.left -= 1;
                        return self.send_target(target, *name, args, *at, depth, room);
                    }
                }
                match self.sent(*method, *name, receiver, args, *at, depth, room) {
                    Some(came) => came,
                    None => self.begin_far_send(code, depth, room),
                }
            }
            _ => self.over(Cut::Memory),
        }
    }

    /// A call by a name alone of a method of the script that has a number: one of the class of `self` goes before it.
    #[cycle(walk)]
    #[inline(never)]
    pub(super) fn begin_function(&mut self, code: &'p Code, depth: u32, room: &mut [Value]) -> Came
        ensures stays { Walked self.old self.new room.old room.new }
        ensures came { Walks (node_fits code.now) (begun code.now) self.old self.new room.old room.new depth result }
    {
        match code {
            Code::Function(number, name, args, at) => {
                let args = args.as_slice();
                match self.own_target(*name) {
                    Some(target) => self.own(target, *name, args, *at, depth, room),
                    None => self.function(*number, *name, args, *at, depth, room),
                }
            }
            _ => self.over(Cut::Memory),
        }
    }

    /// A local, an instance variable, a truth value or a call with a receiver, whose step is counted.
    #[cycle(walk)]
    #[inline(always)]
    pub(super) fn begin_operand(&mut self, code: &'p Code, depth: u32, room: &mut [Value]) -> Came
        ensures stays { Walked self.old self.new room.old room.new }
        ensures came { Walks (node_fits code.now) (begun code.now) self.old self.new room.old room.new depth result }
    {
        match code {
            Code::Field(name, at) => self.field_apart(*name, *at),
            Code::Local(slot, _, _) => self.read(*slot, room),
            Code::False(_) => Came::False,
            Code::True(_) => Came::True,
            _ => self.begin_send(code, depth, room),
        }
    }

    /// A choice between two bodies.
    #[cycle(walk)]
    #[inline(never)]
    pub(super) fn begin_choice(&mut self, code: &'p Code, depth: u32, room: &mut [Value]) -> Came
        ensures stays { Walked self.old self.new room.old room.new }
        ensures came { Walks (node_fits code.now) (begun code.now) self.old self.new room.old room.new depth result }
    {
        match code {
            Code::If(condition, first, second, _) => self.choose(
                condition.get(),
                first.as_slice(),
                second.as_slice(),
                depth,
                room,
            ),
            _ => self.over(Cut::Memory),
        }
    }

    /// A node that combines truth values, whose step is counted.
    #[cycle(walk)]
    #[inline(never)]
    pub(super) fn begin_logic(&mut self, code: &'p Code, depth: u32, room: &mut [Value]) -> Came
        ensures stays { Walked self.old self.new room.old room.new }
        ensures came { Walks (node_fits code.now) (begun code.now) self.old self.new room.old room.new depth result }
    {
        match code {
            Code::And(first, second, _) => self.both(first.get(), second.get(), depth, room),
            Code::Or(first, second, _) => self.either(first.get(), second.get(), depth, room),
            Code::Not(value, _) => self.negate(value.get(), depth, room),
            _ => self.over(Cut::Memory),
        }
    }

    /// An assignment to an instance variable.
    #[cycle(walk)]
    #[inline(never)]
    pub(super) fn begin_set_field(&mut self, code: &'p Code, depth: u32, room: &mut [Value]) -> Came
        ensures stays { Walked self.old self.new room.old room.new }
        ensures came { Walks (node_fits code.now) (begun code.now) self.old self.new room.old room.new depth result }
    {
        match code {
            Code::SetField(name, value, at) => {
                self.set_field(self.context.me, *name, value.get(), *at, depth, room)
            }
            _ => self.over(Cut::Memory),
        }
    }

    /// An assignment with an operator to an instance variable. A sum of integers is done at once.
    #[cycle(walk)]
    #[inline(never)]
    pub(super) fn begin_update_field(
        &mut self,
        code: &'p Code,
        depth: u32,
        room: &mut [Value],
    ) -> Came
        ensures stays { Walked self.old self.new room.old room.new }
        ensures came { Walks (node_fits code.now) (begun code.now) self.old self.new room.old room.new depth result }
    {
        match code {
            Code::UpdateField(name, op, value, at) => {
                let value = value.get();
                match self.added(*name, *op, value, depth, room) {
                    Some(sum) => Came::Int(sum),
                    None => {
                        let me = self.context.me;
                        self.update_field(me, *name, *op, value, *at, depth, room)
                    }
                }
            }
            _ => self.over(Cut::Memory),
        }
    }

    /// An assignment by the call of a method.
    #[cycle(walk)]
    #[inline(never)]
    pub(super) fn begin_store(&mut self, code: &'p Code, depth: u32, room: &mut [Value]) -> Came
        ensures stays { Walked self.old self.new room.old room.new }
        ensures came { Walks (node_fits code.now) (begun code.now) self.old self.new room.old room.new depth result }
    {
        match code {
            Code::Store(method, receiver, name, args, at) => {
                let receiver = receiver.get();
                let args = args.as_slice();
                if self.left > 0 && depth < MAX_DEPTH {
                    if let [only] = args {
                        if let Some(target) = local_target(
                            self.context.script,
                            receiver,
                            *name,
                            room,
                        ) {
                            self.left -= 1;
                            return self.store_target(target, *name, only, *at, depth, room);
                        }
                    }
                    if let [index, value] = args {
                        if let Some(thing) = local_collection(receiver, room) {
                            self.left -= 1;
                            return self.store_element(
                                thing, *method, *name, index, value, *at, depth, room,
                            );
                        }
                    }
                }
                self.store_by(*method, receiver, *name, args, *at, depth, room)
            }
            _ => self.over(Cut::Memory),
        }
    }

    /// A new object.
    #[cycle(walk)]
    #[inline(never)]
    pub(super) fn begin_new(&mut self, code: &'p Code, depth: u32, room: &mut [Value]) -> Came
        ensures stays { Walked self.old self.new room.old room.new }
        ensures came { Walks (node_fits code.now) (begun code.now) self.old self.new room.old room.new depth result }
    {
        match code {
            Code::New(class, first, name, args, at) => self.create(
                *class,
                *first,
                *name,
                args.as_slice(),
                *at,
                depth,
                room,
            ),
            _ => self.over(Cut::Memory),
        }
    }

    /// A node of the other kinds whose step is counted.
    #[cycle(walk)]
    #[inline(never)]
    pub(super) fn begin_other(&mut self, code: &'p Code, depth: u32, room: &mut [Value]) -> Came
        ensures stays { Walked self.old self.new room.old room.new }
        ensures came { Walks (node_fits code.now) (begun code.now) self.old self.new room.old room.new depth result }
    {
        match code {
            Code::Sym(name, _) => self.give(Value::Sym(*name)),
            Code::Str(pieces, at) => self.literal(pieces.as_slice(), *at, depth, room),
            Code::Array(items, _) => self.array(items.as_slice(), depth, room),
            Code::Hash(items, at) => self.hash(items.as_slice(), *at, depth, room),
            Code::UpdateElement(receiver, index, op, value, at) => self.update_element(
                receiver.get(),
                index.get(),
                *op,
                value.get(),
                *at,
                depth,
                room,
            ),
            Code::UpdateAttribute(number, writer, name, receiver, op, value, at) =>
                self.update_attribute(
                    *number,
                    *writer,
                    *name,
                    receiver.get(),
                    *op,
                    value.get(),
                    *at,
                    depth,
                    room,
                ),
            Code::Walk(method, name, receiver, args, block, at) => self.send_block(
                *method,
                *name,
                receiver.get(),
                args.as_slice(),
                block.get(),
                *at,
                depth,
                room,
            ),
            Code::Print(form, name, args, at) => {
                self.begin_print(*form, *name, args.as_slice(), *at, depth, room)
            }
            Code::Own(name, args, at) => self.begin_own(*name, args.as_slice(), *at, depth, room),
            Code::SelfRef(_) => self.give_self(),
            Code::NewBuiltin(class, name, args, at) => {
                self.create_builtin(*class, *name, args.as_slice(), *at, depth, room)
            }
            Code::Start(args, body, slots, at) => self.begin_thread(
                args.as_slice(),
                *body,
                slots.as_slice(),
                *at,
                depth,
                room,
            ),
            Code::Global(_, _) => self.begin_global(code, depth, room),
            Code::SetGlobal(_, _, _) => self.begin_global(code, depth, room),
            Code::UpdateGlobal(_, _, _, _) => self.begin_global(code, depth, room),
            Code::While(condition, body, _) => {
                self.repeat(condition.get(), body.as_slice(), depth, room)
            }
            Code::Return(value, _) => self.leave_method(value, depth, room),
            Code::Break(_) => {
                self.leave = Leave::Break;
                Came::Left
            }
            Code::Next(_) => {
                self.leave = Leave::Next;
                Came::Left
            }
            _ => self.over(Cut::Memory),
        }
    }
}
