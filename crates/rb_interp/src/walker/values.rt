// Values as they come, and what is done with one.

ghost use Rattle.std.specs.Prelude.{◌≡◌, ◌≤◌, ◌<◌, true, false, length, map, take, slice_get, Some, None};
ghost use Rattle.rb_model.specs.Values.{Nil, Int, Str, plain, truthy};
ghost use Rattle.rb_model.specs.declared.value.Value.{Value as Held};
ghost use Rattle.rb_model.specs.Ends.{Raised, Sink, over};
ghost use Rattle.rb_machine.specs.Control.{Give};
ghost use Rattle.rb_machine.specs.Texts.{max_bytes};
ghost use Rattle.rb_builtin.specs.Integers as integers;
ghost use Rattle.rb_walk.specs.Outcome.{end_by, is_left, value_of, outcome, Gave, Over};
ghost use Rattle.rb_walk.specs.Carries.{Shows, me_of};
ghost use Rattle.rb_walk.specs.Answers.{OrMemory, Passed, Writes, outcome_of};
ghost use Rattle.rb_walk.specs.Texts.{ShowsBytes, is_text};

use super::Walker;
use rb_builtin::{Builtin, Deed, IntegerAnswer, deed_of};
use rb_model::{Answer, End, Fault, Ref, SharedText, ThreadStore, Value};
use rb_render::{Form, RenderFault, render};
use rb_tree::Span;
use rb_walk::asked::is_text;
use rb_walk::came::{Came, Cut, Leave, end_by};
use rb_walk::leaf::is_true;
use rb_walk::ready::ready_answer;
use rb_walk::slots::put;
use std::mem;

impl<'p, O: ThreadStore + Drop> Walker<'p, O> {
    ghost use Rattle.rb_interp.specs.Walks.{Unstepped, Untouched};
    ghost use Rattle.rb_interp.specs.Answers.{AnswersBy};

    /// The value that came. It is taken out of the walker.
    pub(super) fn take(&mut self, came: Came) -> Value
        ensures value { plain result ≡ value_of came self.old.value }
        ensures stays { Untouched self.old self.new }
        ensures leave { self.new.leave ≡ self.old.leave }
    {
        match came {
            Came::Nil => Value::Nil,
            Came::False => Value::False,
            Came::True => Value::True,
            Came::Int(n) => Value::Int(n),
            Came::Other | Came::Left => mem::replace(&mut self.value, Value::Nil),
        }
    }

    /// Whether the value that came is true.
    pub(super) fn is_true_now(&self, came: Came) -> bool
        ensures { is_left came ≡ false → result ≡ truthy (value_of came self.now.value) }
    {
        match came {
            Came::Nil | Came::False | Came::Left => false,
            Came::True | Came::Int(_) => true,
            Came::Other => is_true(&self.value),
        }
    }

    /// Whether the value that came is a string.
    pub(super) fn is_text_now(&self, came: Came) -> bool
        ensures { is_left came ≡ false → result ≡ is_text (value_of came self.now.value) }
    {
        match came {
            Came::Nil | Came::False | Came::True | Came::Int(_) | Came::Left => false,
            Came::Other => is_text(&self.value),
        }
    }

    /// Gives a value.
    #[inline(never)]
    pub(super) fn give(&mut self, value: Value) -> Came
        ensures gives { outcome result self.new.value self.new.leave ≡ Gave (plain value) }
        ensures stays { Untouched self.old self.new }
    {
        match value {
            Value::Nil => Came::Nil,
            Value::False => Came::False,
            Value::True => Came::True,
            Value::Int(n) => Came::Int(n),
            value => {
                self.value = value;
                Came::Other
            }
        }
    }

    /// Gives a value that may well be an integer or a thing.
    #[inline(always)]
    pub(super) fn hand(&mut self, value: Value) -> Came
        ensures gives { outcome result self.new.value self.new.leave ≡ Gave (plain value) }
        ensures stays { Untouched self.old self.new }
    {
        match value {
            Value::Int(n) => Came::Int(n),
            Value::Ref(thing) => self.give_thing(thing),
            value => self.give(value),
        }
    }

    /// Gives a thing.
    #[inline(always)]
    pub(super) fn give_thing(&mut self, thing: Ref) -> Came
        ensures gives { outcome result self.new.value self.new.leave ≡ Gave (me_of (Some thing)) }
        ensures stays { Untouched self.old self.new }
    {
        self.value = Value::Ref(thing);
        Came::Other
    }

    /// The thread is cut.
    #[inline(never)]
    pub(super) fn over(&mut self, cut: Cut) -> Came
        ensures gives { outcome result self.new.value self.new.leave ≡ Over (end_by cut) }
        ensures stays { Untouched self.old self.new }
    {
        self.leave = Leave::Over(end_by(cut));
        Came::Left
    }

    /// The thread ends with a fault.
    #[inline(never)]
    pub(super) fn raise(&mut self, fault: Fault, at: Span) -> Came
        ensures gives { outcome result self.new.value self.new.leave ≡ Over (Raised fault at) }
        ensures stays { Untouched self.old self.new }
    {
        self.leave = Leave::Over(End::Raised(fault, at));
        Came::Left
    }

    /// Gives the value of a slot.
    #[inline(always)]
    pub(super) fn read(&mut self, slot: u32, room: &[Value]) -> Came
        ensures gives { (v : Held) → slice_get room.now slot ≡ Some v → OrMemory (Gave (plain v)) (outcome result self.new.value self.new.leave) }
        ensures stays { Untouched self.old self.new }
    {
        match room.get(slot as usize) {
            None | Some(Value::Nil) => Came::Nil,
            Some(Value::False) => Came::False,
            Some(Value::True) => Came::True,
            Some(Value::Int(n)) => Came::Int(*n),
            Some(Value::Ref(thing)) => self.give_thing(*thing),
            Some(Value::Str(text)) => self.share_text(text),
            Some(value) => self.read_shared(value),
        }
    }

    /// Gives a value that another place has as well.
    #[inline(never)]
    pub(super) fn read_shared(&mut self, value: &Value) -> Came
        ensures gives { OrMemory (Gave (plain value.now)) (outcome result self.new.value self.new.leave) }
        ensures stays { Untouched self.old self.new }
    {
        match value.share() {
            Ok(value) => self.give(value),
            Err(_) => self.over(Cut::Memory),
        }
    }

    /// Gives a text that another place has as well.
    #[inline(never)]
    pub(super) fn share_text(&mut self, text: &SharedText) -> Came
        ensures gives { OrMemory (Gave (Str text.now)) (outcome result self.new.value self.new.leave) }
        ensures stays { Untouched self.old self.new }
    {
        match text.share() {
            Ok(copy) => {
                self.value = Value::Str(copy);
                Came::Other
            }
            Err(_) => self.over(Cut::Memory),
        }
    }

    /// Writes the value that came into a slot, and gives it on.
    #[inline(always)]
    pub(super) fn write(&mut self, slot: u32, came: Came, room: &mut [Value]) -> Came
        requires came { is_left came ≡ false }
        ensures written { Writes slot (value_of came self.old.value) room.old room.new (outcome result self.new.value self.new.leave) }
        ensures stays { Untouched self.old self.new }
    {
        if slot as usize >= room.len() {
            return self.over(Cut::Memory);
        }
        match came {
            Came::Int(n) => {
                put(room, slot as usize, n);
                came
            }
            _ => self.write_any(slot, came, room),
        }
    }

    /// Writes any value that came into a slot, and gives it on.
    #[inline(never)]
    pub(super) fn write_any(&mut self, slot: u32, came: Came, room: &mut [Value]) -> Came
        requires came { is_left came ≡ false }
        ensures written { Writes slot (value_of came self.old.value) room.old room.new (outcome result self.new.value self.new.leave) }
        ensures stays { Untouched self.old self.new }
    {
        if slot as usize >= room.len() {
            return self.over(Cut::Memory);
        }
        match came {
            Came::Other => {
                let Ok(copy) = self.value.share() else {
                    return self.over(Cut::Memory);
                };
                room[slot as usize] = copy;
                Came::Other
            }
            came => {
                room[slot as usize] = self.take(came);
                came
            }
        }
    }

    /// Moves the value that came into a slot.
    #[inline(always)]
    pub(super) fn move_to(&mut self, slot: usize, came: Came, room: &mut [Value])
        requires within { slot < length room.old }
        ensures passed { Passed slot (value_of came self.old.value) room.old room.new }
        ensures stays { Untouched self.old self.new }
    {
        match came {
            Came::Int(n) => put(room, slot, n),
            _ => self.move_any(slot, came, room),
        }
    }

    /// Moves any value that came into a slot.
    #[inline(never)]
    fn move_any(&mut self, slot: usize, came: Came, room: &mut [Value])
        requires within { slot < length room.old }
        ensures passed { Passed slot (value_of came self.old.value) room.old room.new }
        ensures stays { Untouched self.old self.new }
    {
        match came {
            Came::Other => match &self.value {
                Value::Ref(thing) => room[slot] = Value::Ref(*thing),
                _ => mem::swap(&mut room[slot], &mut self.value),
            },
            _ => room[slot] = self.take(came),
        }
    }

    /// What an operation on two integers gives.
    #[inline(always)]
    pub(super) fn answer(&mut self, answer: IntegerAnswer, at: Span) -> Came
        ensures gives { outcome result self.new.value self.new.leave ≡ outcome_of (integers.answer_of answer) at }
        ensures stays { Untouched self.old self.new }
    {
        match answer {
            IntegerAnswer::Int(n) => Came::Int(n),
            IntegerAnswer::False => Came::False,
            IntegerAnswer::True => Came::True,
            IntegerAnswer::Overflow => self.raise(Fault::IntegerOverflow, at),
            IntegerAnswer::ByZero => self.raise(Fault::ZeroDivision, at),
            IntegerAnswer::NoOperation => self.raise(Fault::NoMethod, at),
        }
    }

    /// What a value that is no array and no hash answers to a method without a block.
    pub(super) fn call_method(
        &mut self,
        receiver: &Value,
        method: Option<Builtin>,
        args: &[Value],
        at: Span,
    ) -> Came
        ensures gives { AnswersBy method (plain receiver.now) (map plain args.now) at self.old self.new result }
        ensures stays { Untouched self.old self.new }
    {
        match deed_of(
            self.context.alloc,
            self.context.program,
            receiver,
            method,
            args,
            None,
        ) {
            Ok(Deed::Give(value)) => self.give(value),
            Ok(Deed::Raise(fault)) => self.raise(fault, at),
            Ok(Deed::Walk(_) | Deed::WalkOver(_, _) | Deed::WalkPairs(_) | Deed::Synchronize(_)) =>
                self.raise(Fault::ArgumentCount, at),
            // Only arrays and hashes answer so, and they are called by `call_any`.
            Ok(Deed::Ask(_, _, _) | Deed::Read(_, _) | Deed::Inspect(_)) => {
                self.over(Cut::Memory)
            }
            Err(_) => self.over(Cut::Memory),
        }
    }

    /// What a value answers to a method without a block, where the answer may well need no memory.
    #[inline(always)]
    pub(super) fn call_held(
        &mut self,
        receiver: &Value,
        method: Option<Builtin>,
        args: &[Value],
        at: Span,
    ) -> Came
        ensures gives { AnswersBy method (plain receiver.now) (map plain args.now) at self.old self.new result }
        ensures stays { Untouched self.old self.new }
    {
        match ready_answer(method, receiver, args) {
            Some(answer) => self.answer(answer, at),
            None => self.call_method(receiver, method, args, at),
        }
    }

    /// Shows bytes by one print, where there are any, and gives nil or a value.
    pub(super) fn show(&mut self, form: Form, args: &[Value], at: Span) -> Came
        ensures stays { Unstepped self.old self.new }
        ensures private { O.private self.new.store ≡ O.private self.old.store }
        ensures came { Shows self.old.context.program.now self.old.context.steps form (map plain args.now) at self.old.left (O.log self.old.store) (O.log self.new.store) (outcome result self.new.value self.new.leave) }
    {
        match render(self.context.alloc, self.context.program, form, args) {
            Ok(bytes) => self.show_bytes(bytes),
            Err(RenderFault::TooLong) => self.raise(Fault::TextTooLong, at),
            Err(RenderFault::Memory) => self.over(Cut::Memory),
        }
    }

    /// Shows bytes, which are not too many, by one print, where there are any.
    pub(super) fn show_bytes(&mut self, bytes: Vec<u8>) -> Came
        requires fits { length bytes.items ≤ max_bytes }
        ensures stays { Unstepped self.old self.new }
        ensures private { O.private self.new.store ≡ O.private self.old.store }
        ensures came { ShowsBytes self.old.context.steps bytes.items self.old.left (O.log self.old.store) (O.log self.new.store) (outcome result self.new.value self.new.leave) }
    {
        if bytes.is_empty() {
            return Came::Nil;
        }
        let Ok(text) = SharedText::from_vec(self.context.alloc, bytes) else {
            return self.over(Cut::Memory);
        };
        match self.store.print(self.context.steps - self.left, text) {
            Answer::Done => Came::Nil,
            Answer::SinkFailed => self.over(Cut::Sink),
            Answer::Memory => self.over(Cut::Memory),
        }
    }
}
