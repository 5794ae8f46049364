// Branches, loops and bodies, and how they are left.

ghost use Rattle.std.specs.Prelude.{◌≡◌, ◌<◌, true, false, map, Some};
ghost use Rattle.std.specs.Option.{option_map};
ghost use Rattle.rb_tree.specs.declared.span.NameId.{NameId};
ghost use Rattle.rb_model.specs.Values.{Nil};
ghost use Rattle.rb_machine.specs.Control.{On, Following, Looping, AssignTo, RightOfAnd, RightOfOr, Negate, Choose, ReturnOf};
ghost use Rattle.rb_machine.specs.Begin.{begin_return};
ghost use Rattle.rb_code.specs.Erase.{erase};
ghost use Rattle.rb_code.specs.Resolved.{fits, if_some};
ghost use Rattle.rb_walk.specs.Outcome.{is_left, outcome, Over};
ghost use Rattle.rb_walk.specs.Carries.{at_slot, both, goes_on, loop_exit, call_exit};

use super::Walker;
use rb_code::Code;
use rb_model::{ThreadStore, Value};
use rb_tree::Boxed;
use rb_walk::MAX_DEPTH;
use rb_walk::came::{Came, Cut, Leave, is_left};
use rb_walk::leaf::{copy_of, is_local, tested};
use rb_walk::slots::place;
use std::mem;

impl<'p, O: ThreadStore + Drop> Walker<'p, O> {
    ghost use Rattle.rb_interp.specs.Walks.{Kept, Untouched, Walked, Walks, WalksTested, WalksUnread, at_node, at_node_then, node_fits, nodes_fit};

    /// `first && second`
    #[cycle(walk)]
    #[inline(always)]
    pub(super) fn both(
        &mut self,
        first: &'p Code,
        second: &'p Code,
        depth: u32,
        room: &mut [Value],
    ) -> Came
        ensures stays { Walked self.old self.new room.old room.new }
        ensures came { Walks (both (node_fits first.now) (node_fits second.now)) (at_node_then first.now (λ S. RightOfAnd (erase second.now))) self.old self.new room.old room.new depth result }
    {
        let came = self.evaluate_call(first, depth, room);
        if is_left(came) {
            return came;
        }
        if !self.is_true_now(came) {
            return came;
        }
        self.evaluate_call(second, depth, room)
    }

    /// `first || second`
    #[cycle(walk)]
    #[inline(always)]
    pub(super) fn either(
        &mut self,
        first: &'p Code,
        second: &'p Code,
        depth: u32,
        room: &mut [Value],
    ) -> Came
        ensures stays { Walked self.old self.new room.old room.new }
        ensures came { Walks (both (node_fits first.now) (node_fits second.now)) (at_node_then first.now (λ S. RightOfOr (erase second.now))) self.old self.new room.old room.new depth result }
    {
        let came = self.evaluate_call(first, depth, room);
        if is_left(came) {
            return came;
        }
        if self.is_true_now(came) {
            return came;
        }
        self.evaluate_call(second, depth, room)
    }

    /// `!value`
    #[cycle(walk)]
    #[inline(always)]
    pub(super) fn negate(&mut self, value: &'p Code, depth: u32, room: &mut [Value]) -> Came
        ensures stays { Walked self.old self.new room.old room.new }
        ensures came { Walks (node_fits value.now) (at_node_then value.now (λ S. Negate)) self.old self.new room.old room.new depth result }
    {
        let came = self.evaluate_call(value, depth, room);
        if is_left(came) {
            return came;
        }
        if self.is_true_now(came) {
            Came::False
        } else {
            Came::True
        }
    }

    /// Evaluates a condition, of which no one reads more than whether it is true. Of a local nothing is copied.
    #[cycle(walk)]
    #[inline(always)]
    fn test(&mut self, code: &'p Code, depth: u32, room: &mut [Value]) -> Came
        ensures counted { goes_on (outcome result self.new.value self.new.leave) ≡ true → self.new.left < self.old.left }
        ensures stays { Walked self.old self.new room.old room.new }
        ensures kept { Kept (node_fits code.now) self.old room.old room.new }
        ensures came { WalksTested (node_fits code.now) (at_node code.now) self.old self.new room.old room.new depth result }
    {
        if let Some(truth) = tested(code, room, self.left, depth) {
            self.left -= 1;
            return truth;
        }
        self.evaluate_call(code, depth, room)
    }

    /// A choice between two bodies.
    #[cycle(walk)]
    #[inline(always)]
    pub(super) fn choose(
        &mut self,
        condition: &'p Code,
        first: &'p [Code],
        second: &'p [Code],
        depth: u32,
        room: &mut [Value],
    ) -> Came
        ensures stays { Walked self.old self.new room.old room.new }
        ensures came { Walks (both (node_fits condition.now) (both (nodes_fit first.now) (nodes_fit second.now))) (at_node_then condition.now (λ S. Choose (map erase first.now) (map erase second.now))) self.old self.new room.old room.new depth result }
    {
        let came = self.test(condition, depth, room);
        if is_left(came) {
            return came;
        }
        let chosen = if self.is_true_now(came) {
            first
        } else {
            second
        };
        self.body(chosen, depth, room)
    }

    /// The statements of a body, one after another.
    #[cycle(walk)]
    #[inline(always)]
    pub(super) fn body(&mut self, nodes: &'p [Code], depth: u32, room: &mut [Value]) -> Came
        ensures stays { Walked self.old self.new room.old room.new }
        ensures came { Walks (nodes_fit nodes.now) (λ S k sc d n. On (Following Nil (map erase nodes.now)) k sc d n) self.old self.new room.old room.new depth result }
    {
        let Some((last, before)) = nodes.split_last() else {
            return Came::Nil;
        };
        'nodes: for node in before {
            let came = self.statement(node, depth, room);
            if is_left(came) {
                return came;
            }
        }
        self.walk_here(last, depth, room)
    }

    /// The statements of a body whose value no one reads, one after another.
    #[cycle(walk)]
    #[inline(always)]
    pub(super) fn passage(&mut self, nodes: &'p [Code], depth: u32, room: &mut [Value]) -> Came
        ensures stays { Walked self.old self.new room.old room.new }
        ensures kept { Kept (nodes_fit nodes.now) self.old room.old room.new }
        ensures came { WalksUnread (nodes_fit nodes.now) (λ S k sc d n. On (Following Nil (map erase nodes.now)) k sc d n) self.old self.new room.old room.new depth result }
    {
        'nodes: for node in nodes {
            let came = self.statement(node, depth, room);
            if is_left(came) {
                return came;
            }
        }
        Came::Nil
    }

    /// A statement whose value no one reads, as others follow it or a loop does. An assignment to a local keeps what came for the local alone.
    #[cycle(walk)]
    #[inline(always)]
    fn statement(&mut self, code: &'p Code, depth: u32, room: &mut [Value]) -> Came
        ensures stays { Walked self.old self.new room.old room.new }
        ensures kept { Kept (node_fits code.now) self.old room.old room.new }
        ensures came { WalksUnread (node_fits code.now) (at_node code.now) self.old self.new room.old room.new depth result }
    {
        if let Code::SetLocal(slot, _, value, _) = code {
            if self.left > 0 && depth < MAX_DEPTH {
                self.left -= 1;
                return self.keep_local(*slot, value.get(), depth + 1, room);
            }
        }
        self.walk_here(code, depth, room)
    }

    /// An assignment to a local, which is not given on. What an attribute of a local's object has goes into the slot at once.
    #[cycle(walk)]
    #[inline(never)]
    fn keep_local(&mut self, slot: u32, value: &'p Code, depth: u32, room: &mut [Value]) -> Came
        ensures stays { Walked self.old self.new room.old room.new }
        ensures kept { (name : NameId) → Kept (at_slot slot name (node_fits value.now)) self.old room.old room.new }
        ensures came { (name : NameId) → WalksUnread (at_slot slot name (node_fits value.now)) (at_node_then value.now (λ S. AssignTo name)) self.old self.new room.old room.new depth result }
    {
        if slot as usize >= room.len() {
            return self.keep_any(slot, value, depth, room);
        }
        if is_local(value) {
            return self.keep_copy(slot, value, depth, room);
        }
        match self.sent_value(value, depth, room) {
            Some(Ok(sent)) => {
                place(room, slot as usize, sent);
                Came::Nil
            }
            Some(Err(came)) => came,
            None => self.keep_any(slot, value, depth, room),
        }
    }

    /// The same of the value of another local, which is copied from slot to slot.
    #[cycle(walk)]
    #[inline(never)]
    fn keep_copy(&mut self, slot: u32, value: &'p Code, depth: u32, room: &mut [Value]) -> Came
        ensures stays { Walked self.old self.new room.old room.new }
        ensures kept { (name : NameId) → Kept (at_slot slot name (node_fits value.now)) self.old room.old room.new }
        ensures came { (name : NameId) → WalksUnread (at_slot slot name (node_fits value.now)) (at_node_then value.now (λ S. AssignTo name)) self.old self.new room.old room.new depth result }
    {
        if self.left > 0 && depth < MAX_DEPTH && (slot as usize) < room.len() {
            if let Some(copy) = copy_of(value, room) {
                self.left -= 1;
                place(room, slot as usize, copy);
                return Came::Nil;
            }
        }
        self.keep_any(slot, value, depth, room)
    }

    /// The same of any value.
    #[cycle(walk)]
    #[inline(never)]
    fn keep_any(&mut self, slot: u32, value: &'p Code, depth: u32, room: &mut [Value]) -> Came
        ensures stays { Walked self.old self.new room.old room.new }
        ensures kept { (name : NameId) → Kept (at_slot slot name (node_fits value.now)) self.old room.old room.new }
        ensures came { (name : NameId) → WalksUnread (at_slot slot name (node_fits value.now)) (at_node_then value.now (λ S. AssignTo name)) self.old self.new room.old room.new depth result }
    {
        let came = self.evaluate_call(value, depth, room);
        if is_left(came) {
            return came;
        }
        if slot as usize >= room.len() {
            return self.over(Cut::Memory);
        }
        self.move_to(slot as usize, came, room);
        Came::Nil
    }

    /// A loop. It stands apart, so that what it needs in each turn has registers.
    #[cycle(walk)]
    #[inline(never)]
    pub(super) fn repeat(
        &mut self,
        condition: &'p Code,
        body: &'p [Code],
        depth: u32,
        room: &mut [Value],
    ) -> Came
        ensures stays { Walked self.old self.new room.old room.new }
        ensures came { Walks (both (node_fits condition.now) (nodes_fit body.now)) (λ S k sc d n. On (Looping (erase condition.now) (map erase body.now)) k sc d n) self.old self.new room.old room.new depth result }
    {
        'turns: loop {
            let came = self.test(condition, depth, room);
            if is_left(came) {
                if !self.goes_on(came) {
                    return self.out_of_loop(came);
                }
                continue 'turns;
            }
            if !self.is_true_now(came) {
                return Came::Nil;
            }
            let came = self.passage(body, depth, room);
            if !self.goes_on(came) {
                return self.out_of_loop(came);
            }
        }
    }

    /// A return, whose value is nil where none is given.
    #[cycle(walk)]
    pub(super) fn leave_method(
        &mut self,
        value: &'p Option<Boxed<Code>>,
        depth: u32,
        room: &mut [Value],
    ) -> Came
        ensures stays { Walked self.old self.new room.old room.new }
        ensures came { Walks (λ S. if_some (option_map (fits S) value.now)) (λ S k sc d n. begin_return S (option_map erase value.now) k sc d n) self.old self.new room.old room.new depth result }
    {
        let Some(value) = value else {
            self.value = Value::Nil;
            self.leave = Leave::Return;
            return Came::Left;
        };
        self.leave_with(value.get(), depth, room)
    }

    /// A return with a value.
    #[cycle(walk)]
    pub(super) fn leave_with(&mut self, value: &'p Code, depth: u32, room: &mut [Value]) -> Came
        ensures stays { Walked self.old self.new room.old room.new }
        ensures came { Walks (node_fits value.now) (at_node_then value.now (λ S. ReturnOf)) self.old self.new room.old room.new depth result }
    {
        let came = self.walk(value, depth, room);
        if is_left(came) {
            return came;
        }
        self.value = self.take(came);
        self.leave = Leave::Return;
        Came::Left
    }

    /// Whether a loop goes on behind its body: a `next` is done with.
    pub(super) fn goes_on(&self, came: Came) -> bool
        ensures { result ≡ goes_on (outcome came self.now.value self.now.leave) }
    {
        if !is_left(came) {
            return true;
        }
        match self.leave {
            Leave::Next => true,
            _ => false,
        }
    }

    /// What a loop gives that does not go on: a `break` is done with.
    pub(super) fn out_of_loop(&self, came: Came) -> Came
        ensures { goes_on (outcome came self.now.value self.now.leave) ≡ false → outcome result self.now.value self.now.leave ≡ loop_exit (outcome came self.now.value self.now.leave) }
    {
        match self.leave {
            Leave::Break => Came::Nil,
            _ => came,
        }
    }

    /// What a call gives behind its body.
    #[inline(always)]
    pub(super) fn out_of_call(&mut self, came: Came) -> Came
        ensures gives { outcome result self.new.value self.new.leave ≡ call_exit (outcome came self.old.value self.old.leave) }
        ensures stays { Untouched self.old self.new }
    {
        if !is_left(came) {
            return came;
        }
        self.out_of_exit(came)
    }

    /// The same of a body that was left.
    #[inline(never)]
    fn out_of_exit(&mut self, came: Came) -> Came
        ensures gives { is_left came ≡ true → outcome result self.new.value self.new.leave ≡ call_exit (outcome came self.old.value self.old.leave) }
        ensures stays { Untouched self.old self.new }
    {
        match self.leave {
            Leave::Break | Leave::Next => Came::Nil,
            Leave::Return => {
                let value = mem::replace(&mut self.value, Value::Nil);
                self.give(value)
            }
            Leave::Over(_) => came,
        }
    }
}
