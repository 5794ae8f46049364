// Objects: `self`, instance variables and new objects.

ghost use Rattle.std.specs.Prelude.{◌≡◌, ◌<◌, ℕ, false, [], map, slice_get, Some, None, IfErr, IfSome};
ghost use Rattle.rb_model.specs.Values.{Int};
ghost use Rattle.rb_model.specs.Doing.{doing};
ghost use Rattle.rb_model.specs.Acts.{At, GetField};
ghost use Rattle.rb_machine.specs.Control.{On, Step, Place, Passing, Creating};
ghost use Rattle.rb_machine.specs.Call.{read_place};
ghost use Rattle.rb_code.specs.Erase.{erase};
ghost use Rattle.rb_walk.specs.Outcome.{Gave, IsOver, Settles, fetched, is_left, value_of, outcome};
ghost use Rattle.rb_walk.specs.Carries.{made_by, me_of};
ghost use Rattle.rb_walk.specs.Objects.{Asks, Fields, IsVariable, UpdatesField};

use super::Walker;
use rb_code::Code;
use rb_model::{Act, Fault, Make, Ref, Reply, Sort, ThreadStore, Value};
use rb_tree::{AssignOp, NameId, Span};
use rb_walk::MAX_DEPTH;
use rb_walk::came::{Came, Cut, immediate, is_left, is_told};
use rb_walk::leaf::small;

impl<'p, O: ThreadStore + Drop> Walker<'p, O> {
    ghost use Rattle.rb_interp.specs.Answers.{AsksTo, WritesField};
    ghost use Rattle.rb_interp.specs.Calls.{Creates};
    ghost use Rattle.rb_interp.specs.Walks.{Kept, Stepped, Unstepped, Untouched, Walked, Walks, WalksTo, at_node_then, node_fits, nodes_fit};

    /// Gives `self`.
    pub(super) fn give_self(&mut self) -> Came
        ensures gives { outcome result self.new.value self.new.leave ≡ Gave (me_of self.old.context.me) }
        ensures stays { Untouched self.old self.new }
    {
        match self.context.me {
            None => Came::Nil,
            Some(object) => self.give_thing(object),
        }
    }

    /// Asks something of a thing.
    #[inline(always)]
    pub(super) fn ask(&mut self, thing: Ref, act: Act, at: Span) -> Came
        ensures stays { Unstepped self.old self.new }
        ensures came { AsksTo (me_of (Some thing)) (doing act) at self.old self.new result }
    {
        if !self.store.holds(thing.id) {
            return self.ask_shared(thing, act, at);
        }
        match self.store.apply(thing.id, act) {
            Ok(Reply::Value(value)) => self.hand(value),
            Ok(Reply::Done) => Came::Nil,
            Ok(Reply::Elements(_)) => Came::Nil,
            Ok(Reply::Pairs(_)) => Came::Nil,
            // A thing of one's own starts and ends no thread.
            Ok(Reply::Started(_, _)) => unreachable!(),
            Ok(Reply::Ended(_)) => unreachable!(),
            Ok(Reply::Failed(fault)) => self.raise(fault, at),
            Err(_) => self.over(Cut::Memory),
        }
    }

    /// Asks a thing for a value, which the walker does not keep. Where none comes the thread ends.
    // It stands beside `ask`, since a value that goes from one to the other takes more instructions than one that is kept where it comes.
    #[inline(always)]
    pub(super) fn fetch(&mut self, thing: Ref, act: Act, at: Span) -> Result<Value, Came>
        ensures stays { Unstepped self.old self.new }
        ensures over { IfErr result (λ came. IsOver (outcome came self.new.value self.new.leave)) }
        ensures came { Asks self.old.context.steps (me_of (Some thing)) (doing act) at self.old.left (O.log self.old.store) (O.log self.new.store) (O.private self.old.store) (O.private self.new.store) (fetched result self.new.value self.new.leave) }
    {
        if !self.store.holds(thing.id) {
            return self.fetch_shared(thing, act, at);
        }
        match self.store.apply(thing.id, act) {
            Ok(Reply::Value(value)) => Ok(value),
            Ok(Reply::Done) => Ok(Value::Nil),
            Ok(Reply::Elements(_)) => Ok(Value::Nil),
            Ok(Reply::Pairs(_)) => Ok(Value::Nil),
            Ok(Reply::Started(_, _)) => unreachable!(),
            Ok(Reply::Ended(_)) => unreachable!(),
            Ok(Reply::Failed(fault)) => Err(self.raise(fault, at)),
            Err(_) => Err(self.over(Cut::Memory)),
        }
    }

    /// The same apart, where what is asked is known only then.
    #[inline(never)]
    pub(super) fn ask_apart(&mut self, thing: Ref, act: Act, at: Span) -> Came
        ensures stays { Unstepped self.old self.new }
        ensures came { AsksTo (me_of (Some thing)) (doing act) at self.old self.new result }
    {
        self.ask(thing, act, at)
    }

    /// Asks an array for the element at an index.
    #[inline(always)]
    pub(super) fn element(&mut self, array: Ref, index: i64, at: Span) -> Came
        ensures stays { Unstepped self.old self.new }
        ensures came { AsksTo (me_of (Some array)) (At index) at self.old self.new result }
    {
        let element = self.store.immediate_element(array.id, index);
        if is_told(element) {
            return immediate(element);
        }
        self.element_apart(array, index, at)
    }

    /// The same of any element.
    #[inline(never)]
    fn element_apart(&mut self, array: Ref, index: i64, at: Span) -> Came
        ensures stays { Unstepped self.old self.new }
        ensures came { AsksTo (me_of (Some array)) (At index) at self.old self.new result }
    {
        match self.store.element(array.id, index) {
            Some(value) => self.hand(value),
            None => self.ask_apart(array, Act::At(index), at),
        }
    }

    /// An instance variable of an object, if it is one.
    #[inline(always)]
    pub(super) fn field(&mut self, owner: Option<Ref>, name: NameId, at: Span) -> Came
        ensures stays { Unstepped self.old self.new }
        ensures came { AsksTo (me_of owner) (GetField name) at self.old self.new result }
    {
        match owner {
            None => self.raise(Fault::NoMethod, at),
            Some(object) => self.ask(object, Act::GetField(name), at),
        }
    }

    /// An instance variable of `self`.
    #[inline(never)]
    pub(super) fn field_apart(&mut self, name: NameId, at: Span) -> Came
        ensures stays { Unstepped self.old self.new }
        ensures came { AsksTo (me_of self.old.context.me) (GetField name) at self.old self.new result }
    {
        self.field(self.context.me, name, at)
    }

    /// Writes the value that came to an instance variable of an object, if it is one, and gives it on.
    #[inline(always)]
    pub(super) fn write_field(
        &mut self,
        owner: Option<Ref>,
        name: NameId,
        came: Came,
        at: Span,
    ) -> Came
        requires came { is_left came ≡ false }
        ensures stays { Unstepped self.old self.new }
        ensures came { WritesField (me_of owner) name (value_of came self.old.value) at self.old self.new result }
    {
        let Some(object) = owner else {
            return self.raise(Fault::NoMethod, at);
        };
        match came {
            Came::Int(n) => self.write_integer(object, name, n, at),
            _ => self.write_value(object, name, came, at),
        }
    }

    /// Writes an integer to an instance variable of an object, and gives it on.
    #[inline(always)]
    pub(super) fn write_integer(&mut self, object: Ref, name: NameId, n: i64, at: Span) -> Came
        ensures stays { Unstepped self.old self.new }
        ensures came { WritesField (me_of (Some object)) name (Int n) at self.old self.new result }
    {
        let done = self.ask(object, Act::SetField(name, Value::Int(n)), at);
        if is_left(done) {
            return done;
        }
        Came::Int(n)
    }

    /// Writes any value that came to an instance variable of an object, and gives it on.
    #[inline(never)]
    pub(super) fn write_value(&mut self, object: Ref, name: NameId, came: Came, at: Span) -> Came
        requires came { is_left came ≡ false }
        ensures stays { Unstepped self.old self.new }
        ensures settled { Settles (value_of came self.old.value) (outcome result self.new.value self.new.leave) }
        ensures came { WritesField (me_of (Some object)) name (value_of came self.old.value) at self.old self.new result }
    {
        let value = self.take(came);
        let Ok(copy) = value.share() else {
            return self.over(Cut::Memory);
        };
        match self.fetch(object, Act::SetField(name, copy), at) {
            Ok(_) => self.give(value),
            Err(came) => came,
        }
    }

    /// An assignment to an instance variable of `self`, or to a global variable, which is one of the thing that has them.
    #[cycle(walk)]
    #[inline(always)]
    pub(super) fn set_field(
        &mut self,
        owner: Option<Ref>,
        name: NameId,
        value: &'p Code,
        at: Span,
        depth: u32,
        room: &mut [Value],
    ) -> Came
        ensures stays { Walked self.old self.new room.old room.new }
        ensures kept { Kept (node_fits value.now) self.old room.old room.new }
        ensures came { (step : Step) → Fields (me_of self.old.context.me) (me_of owner) name at step → WalksTo (node_fits value.now) (at_node_then value.now (λ S. step)) self.old self.new room.old room.new depth result }
    {
        let came = self.evaluate_leaf(value, depth, room);
        if is_left(came) {
            return came;
        }
        self.write_field(owner, name, came, at)
    }

    /// The sum that an instance variable of `self` gets, where it holds integers alone and a leaf that is one is added. Else nothing is done.
    #[inline(always)]
    pub(super) fn added(
        &mut self,
        name: NameId,
        op: AssignOp,
        value: &Code,
        depth: u32,
        room: &[Value],
    ) -> Option<i64>
        ensures still { result ≡ None → self.new.left ≡ self.old.left }
        ensures kept { result ≡ None → O.private self.new.store ≡ O.private self.old.store }
        ensures stays { Stepped self.old self.new }
        ensures log { O.log self.new.store ≡ O.log self.old.store }
        ensures came { IfSome result (λ sum. UpdatesField self.old.context.script.now self.old.context.steps (me_of self.old.context.me) name op value.now depth self.old.left self.new.left room.now (O.log self.old.store) (O.private self.old.store) (O.private self.new.store) (Int sum)) }
    {
        let AssignOp::Plus = op else {
            return None;
        };
        if self.left == 0 || depth >= MAX_DEPTH {
            return None;
        }
        let object = self.context.me?;
        let n = small(value, room)?;
        let sum = self.store.add_to_field(object.id, name, n)?;
        self.left -= 1;
        Some(sum)
    }

    /// An assignment with an operator to an instance variable of `self`, or to a global variable.
    #[cycle(walk)]
    #[inline(never)]
    pub(super) fn update_field(
        &mut self,
        owner: Option<Ref>,
        name: NameId,
        op: AssignOp,
        value: &'p Code,
        at: Span,
        depth: u32,
        room: &mut [Value],
    ) -> Came
        ensures stays { Walked self.old self.new room.old room.new }
        ensures came { (place : Place) → IsVariable (me_of self.old.context.me) (me_of owner) name place → Walks (node_fits value.now) (λ S k sc d n. read_place S place op (erase value.now) at k sc d n) self.old self.new room.old room.new depth result }
    {
        let current = self.field(owner, name, at);
        if is_left(current) {
            return current;
        }
        match op {
            AssignOp::OrElse => {
                if self.is_true_now(current) {
                    return current;
                }
                self.set_field(owner, name, value, at, depth, room)
            }
            AssignOp::AndThen => {
                if !self.is_true_now(current) {
                    return current;
                }
                self.set_field(owner, name, value, at, depth, room)
            }
            _ => {
                let made = self.combine(current, op, value, at, depth, room);
                if is_left(made) {
                    return made;
                }
                self.write_field(owner, name, made, at)
            }
        }
    }

    /// A new object of a class.
    #[cycle(walk)]
    pub(super) fn create(
        &mut self,
        class: u32,
        first: Option<u32>,
        name: NameId,
        args: &'p [Code],
        at: Span,
        depth: u32,
        room: &mut [Value],
    ) -> Came
        ensures stays { Walked self.old self.new room.old room.new }
        ensures came { Walks (made_by class first name (nodes_fit args.now)) (λ S k sc d n. On (Passing (Creating name) [] (map erase args.now) at) k sc d n) self.old self.new room.old room.new depth result }
    {
        let before = self.base;
        let came = self.arguments(args, depth, room);
        self.base = before;
        if is_left(came) {
            return came;
        }
        let Ok(object) = self.store.make(Make::Object(class)) else {
            return self.over(Cut::Memory);
        };
        self.initialize(object, class, first, args.len(), at, depth, room)
    }

    /// The call of `initialize` of a new object, where its class has one.
    #[cycle(walk)]
    pub(super) fn initialize(
        &mut self,
        object: Ref,
        class: u32,
        first: Option<u32>,
        count: usize,
        at: Span,
        depth: u32,
        room: &mut [Value],
    ) -> Came
        requires class { object.sort ≡ Sort.Object class }
        ensures stays { Walked self.old self.new room.old room.new }
        ensures kept { (i : ℕ) → i < self.old.base → slice_get room.new i ≡ slice_get room.old i }
        ensures came { Creates (me_of (Some object)) class first count at self.old self.new room.old room.new depth result }
    {
        let Some(number) = first else {
            if count > 0 {
                return self.raise(Fault::ArgumentCount, at);
            }
            return self.give_thing(object);
        };
        let Some(method) = self.context.script.script().method_at(class, number) else {
            return self.over(Cut::Memory);
        };
        let came = self.enter_first(method, object, count, at, depth, room);
        if is_left(came) {
            return came;
        }
        self.give_thing(object)
    }
}
