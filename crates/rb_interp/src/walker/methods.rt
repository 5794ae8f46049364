// Methods of the script: which one a call finds, and how it is entered.

ghost use Rattle.std.specs.Prelude.{◌≡◌, ◌≤◌, ◌<◌, ◌*◌, ℕ, false, [], ◌∷◌, length, map, slice_get, IfSome, Some, None};
ghost use Rattle.rb_model.specs.Values.{Int, plain};
ghost use Rattle.rb_model.specs.declared.value.Value.{Value as Held};
ghost use Rattle.rb_model.specs.Acts.{SetField};
ghost use Rattle.rb_machine.specs.Control.{On, Passing, ByName};
ghost use Rattle.rb_code.specs.Erase.{erase};
ghost use Rattle.rb_walk.specs.Outcome.{Gave, Settles, is_left, value_of, outcome};
ghost use Rattle.rb_walk.specs.Carries.{unnamed, me_of};
ghost use Rattle.rb_walk.specs.Methods.{IsTarget, HasNone};
ghost use Rattle.rb_walk.specs.Readers.{OnlyAssigns};

use super::Walker;
use rb_builtin::Builtin;
use rb_code::{Code, CodeMethod};
use rb_model::{Act, Fault, Ref, ThreadStore, Value};
use rb_tree::{NameId, Span};
use rb_walk::MAX_DEPTH;
use rb_walk::came::{Came, Cut, is_left};
use rb_walk::slots::{SPARE_SLOTS, clear, only_integer, passed, row_behind};
use rb_walk::target::{
    Assignment, Target, added_by, assigned_by, only_assigns, read_by, target_of, written_by,
};

impl<'p, O: ThreadStore + Drop> Walker<'p, O> {
    ghost use Rattle.rb_interp.specs.Answers.{AsksTo};
    ghost use Rattle.rb_interp.specs.Calls.{AssignsAtOnce, Enters, EntersApart, EntersAtOnce, EntersUnread, EntersWith, Invokes, RunsIn};
    ghost use Rattle.rb_interp.specs.Walks.{Stepped, Unstepped, Walked, Walks, nodes_fit};

    /// The method of the class of `self` that a name finds.
    #[inline(always)]
    pub(super) fn own_target(&self, name: NameId) -> Option<Target<'p>>
        ensures some { IfSome result (λ t. IsTarget self.now.context.script.now (me_of self.now.context.me) name t.object t.method.now) }
        ensures none { result ≡ None → HasNone self.now.context.script.now (me_of self.now.context.me) name }
    {
        match self.context.me {
            None => None,
            Some(object) => target_of(self.context.script, &Value::Ref(object), name),
        }
    }

    /// The method of its class that a name finds for what came.
    #[inline(always)]
    pub(super) fn target_now(&self, came: Came, name: NameId) -> Option<Target<'p>>
        ensures value { IfSome result (λ t. value_of came self.now.value ≡ me_of (Some t.object)) }
        ensures target { IfSome result (λ t. IsTarget self.now.context.script.now (me_of (Some t.object)) name t.object t.method.now) }
        ensures none { is_left came ≡ false → result ≡ None → HasNone self.now.context.script.now (value_of came self.now.value) name }
    {
        let Came::Other = came else {
            return None;
        };
        let target = target_of(self.context.script, &self.value, name)?;
        Some(target)
    }

    /// Runs a method in a frame that its arguments lie in.
    #[cycle(walk)]
    #[inline(always)]
    fn run_in(
        &mut self,
        method: &'p CodeMethod,
        me: Option<Ref>,
        depth: u32,
        frame: &mut [Value],
    ) -> Came
        ensures stays { Stepped self.old self.new }
        ensures room { length frame.new ≡ length frame.old }
        ensures came { RunsIn (me_of me) method.now frame.old self.old self.new depth result }
    {
        let before = self.base;
        let caller = self.context.me;
        self.context.me = me;
        self.base = method.size as usize;
        let came = self.body(method.body.as_slice(), depth, frame);
        self.base = before;
        self.context.me = caller;
        self.out_of_call(came)
    }

    /// Enters a method in a row of its own, where the row of its caller is too short for it. The new row has slots for the frames of many
    /// calls behind it, so that it is seldom that one is made.
    #[cycle(walk)]
    #[inline(never)]
    fn enter_apart(
        &mut self,
        method: &'p CodeMethod,
        me: Option<Ref>,
        args: &[Value],
        depth: u32,
    ) -> Came
        ensures stays { Stepped self.old self.new }
        ensures came { EntersApart (me_of me) method.now (map plain args.now) self.old self.new depth result }
    {
        let slots = method.size as usize + method.waits as usize + SPARE_SLOTS;
        let Ok(mut row) = row_behind(self.context.alloc, args, slots) else {
            return self.over(Cut::Memory);
        };
        self.run_in(method, me, depth, row.as_mut_slice())
    }

    /// Enters a method with arguments, of which there are so many behind the frame.
    #[cycle(walk)]
    #[inline(always)]
    pub(super) fn enter(
        &mut self,
        method: &'p CodeMethod,
        me: Option<Ref>,
        count: usize,
        at: Span,
        depth: u32,
        room: &mut [Value],
    ) -> Came
        ensures stays { Walked self.old self.new room.old room.new }
        ensures kept { (i : ℕ) → i < self.old.base → slice_get room.new i ≡ slice_get room.old i }
        ensures came { Enters (me_of me) method.now count at self.old self.new room.old room.new depth result }
    {
        if count != method.params.len() {
            return self.raise(Fault::ArgumentCount, at);
        }
        let before = self.base;
        let size = method.size as usize;
        if room.len() < before || room.len() - before < size + method.waits as usize {
            return self.enter_apart(method, me, passed(room, before, count), depth);
        }
        let frame = room.split_at_mut(before).1;
        clear(frame, count, size);
        self.run_in(method, me, depth, frame)
    }

    /// Enters a method that was found with one argument.
    #[cycle(walk)]
    #[inline(always)]
    pub(super) fn enter_with(
        &mut self,
        target: Target<'p>,
        arg: Value,
        at: Span,
        depth: u32,
        room: &mut [Value],
    ) -> Came
        ensures stays { Walked self.old self.new room.old room.new }
        ensures kept { (i : ℕ) → i < self.old.base → slice_get room.new i ≡ slice_get room.old i }
        ensures came { EntersWith (me_of (Some target.entry.object)) target.entry.method.now (plain arg) at self.old self.new room.old room.new depth result }
    {
        if self.base >= room.len() {
            return self.over(Cut::Memory);
        }
        room[self.base] = arg;
        self.enter(target.method, Some(target.object), 1, at, depth, room)
    }

    /// What comes of a method that was found, where it is entered without arguments and only reads an instance variable. Else nothing is done.
    #[inline(always)]
    pub(super) fn entered_reader(
        &mut self,
        target: Target<'p>,
        count: usize,
        depth: u32,
    ) -> Option<Came>
        ensures none { result ≡ None → self.new ≡ self.old }
        ensures count { IfSome result (λ _. count ≡ 0) }
        ensures stays { Stepped self.old self.new }
        ensures came { IfSome result (λ came. EntersAtOnce (me_of (Some target.entry.object)) target.entry.method.now [] self.old self.new depth (outcome came self.new.value self.new.leave)) }
    {
        if count != 0 || self.left == 0 || depth >= MAX_DEPTH {
            return None;
        }
        let (field, at) = read_by(target.method)?;
        self.left -= 1;
        let came = self.ask(target.object, Act::GetField(field), at);
        Some(self.out_of_call(came))
    }

    /// What comes of a method that was found, where it is entered with one integer and only gives it to an instance variable. Else nothing
    /// is done.
    #[inline(always)]
    fn entered_writer(&mut self, target: Target<'p>, args: &[Value], depth: u32) -> Option<Came>
        ensures none { result ≡ None → self.new ≡ self.old }
        ensures stays { Stepped self.old self.new }
        ensures came { IfSome result (λ came. EntersAtOnce (me_of (Some target.entry.object)) target.entry.method.now (map plain args.now) self.old self.new depth (outcome came self.new.value self.new.leave)) }
    {
        let n = only_integer(args)?;
        let came = self.entered_writing(target, Came::Int(n), depth)?;
        Some(came)
    }

    /// What comes of a method that was found, where it is entered with what came, this is an integer and it is only given to an instance
    /// variable. Else nothing is done.
    #[inline(always)]
    pub(super) fn entered_writing(
        &mut self,
        target: Target<'p>,
        came: Came,
        depth: u32,
    ) -> Option<Came>
        ensures none { result ≡ None → self.new ≡ self.old }
        ensures stays { Stepped self.old self.new }
        ensures integer { IfSome result (λ _. (v w : Held) → value_of came v ≡ value_of came w) }
        ensures came { IfSome result (λ done. (v : Held) → EntersAtOnce (me_of (Some target.entry.object)) target.entry.method.now (value_of came v ∷ []) self.old self.new depth (outcome done self.new.value self.new.leave)) }
    {
        let Came::Int(n) = came else {
            return None;
        };
        if self.left < 2 || depth >= MAX_DEPTH - 1 {
            return None;
        }
        let (field, at) = written_by(target.method)?;
        self.left -= 2;
        let done = self.write_integer(target.object, field, n, at);
        Some(self.out_of_call(done))
    }

    /// What comes of a method that was found for an assignment, where it is entered with what came and only gives it to an instance variable.
    /// Else nothing is done.
    #[inline(always)]
    pub(super) fn entered_giving(
        &mut self,
        target: Target<'p>,
        came: Came,
        depth: u32,
    ) -> Option<Came>
        requires came { is_left came ≡ false }
        ensures none { result ≡ None → self.new ≡ self.old }
        ensures stays { Stepped self.old self.new }
        ensures settled { IfSome result (λ done. Settles (value_of came self.old.value) (outcome done self.new.value self.new.leave)) }
        ensures came { IfSome result (λ done. EntersAtOnce (me_of (Some target.entry.object)) target.entry.method.now (value_of came self.old.value ∷ []) self.old self.new depth (outcome done self.new.value self.new.leave)) }
    {
        if self.left < 2 || depth >= MAX_DEPTH - 1 {
            return None;
        }
        let (field, at) = written_by(target.method)?;
        self.left -= 2;
        Some(self.write_value(target.object, field, came, at))
    }

    /// The sum that comes of a method that was found, where it is entered with what came, this is an integer and it is only added to an
    /// instance variable, which holds integers alone. Else nothing is done.
    #[inline(always)]
    pub(super) fn entered_adding(
        &mut self,
        target: Target<'p>,
        came: Came,
        depth: u32,
    ) -> Option<i64>
        ensures still { result ≡ None → self.new.left ≡ self.old.left }
        ensures kept { result ≡ None → O.private self.new.store ≡ O.private self.old.store }
        ensures value { self.new.value ≡ self.old.value }
        ensures stays { Stepped self.old self.new }
        ensures log { O.log self.new.store ≡ O.log self.old.store }
        ensures came { IfSome result (λ sum. (v : Held) → EntersAtOnce (me_of (Some target.entry.object)) target.entry.method.now (value_of came v ∷ []) self.old self.new depth (Gave (Int sum))) }
    {
        let Came::Int(n) = came else {
            return None;
        };
        if self.left < 2 || depth >= MAX_DEPTH - 1 {
            return None;
        }
        let (field, _) = added_by(target.method)?;
        let sum = self.store.add_to_field(target.object.id, field, n)?;
        self.left -= 2;
        Some(sum)
    }

    /// Enters a method that was found for an assignment, with arguments of which there are so many behind the frame. What only gives an
    /// integer to an instance variable is done at once.
    #[cycle(walk)]
    #[inline(always)]
    pub(super) fn enter_storing(
        &mut self,
        target: Target<'p>,
        count: usize,
        at: Span,
        depth: u32,
        room: &mut [Value],
    ) -> Came
        ensures stays { Walked self.old self.new room.old room.new }
        ensures kept { (i : ℕ) → i < self.old.base → slice_get room.new i ≡ slice_get room.old i }
        ensures came { Enters (me_of (Some target.entry.object)) target.entry.method.now count at self.old self.new room.old room.new depth result }
    {
        match self.entered_writer(target, passed(room, self.base, count), depth) {
            Some(came) => came,
            None => self.enter(target.method, Some(target.object), count, at, depth, room),
        }
    }

    /// The same with one argument.
    #[cycle(walk)]
    #[inline(always)]
    pub(super) fn enter_storing_with(
        &mut self,
        target: Target<'p>,
        arg: Value,
        at: Span,
        depth: u32,
        room: &mut [Value],
    ) -> Came
        ensures stays { Walked self.old self.new room.old room.new }
        ensures kept { (i : ℕ) → i < self.old.base → slice_get room.new i ≡ slice_get room.old i }
        ensures came { EntersWith (me_of (Some target.entry.object)) target.entry.method.now (plain arg) at self.old self.new room.old room.new depth result }
    {
        if self.base >= room.len() {
            return self.over(Cut::Memory);
        }
        room[self.base] = arg;
        self.enter_storing(target, 1, at, depth, room)
    }

    /// Gives a value to an instance variable of an object.
    #[inline(always)]
    fn assign(&mut self, object: Ref, assignment: Assignment, value: &Value) -> Came
        ensures stays { Unstepped self.old self.new }
        ensures came { AsksTo (me_of (Some object)) (SetField assignment.field (plain value.now)) assignment.at self.old self.new result }
    {
        let Value::Int(n) = value else {
            return self.assign_any(object, assignment, value);
        };
        self.ask(
            object,
            Act::SetField(assignment.field, Value::Int(*n)),
            assignment.at,
        )
    }

    /// The same of any value.
    #[inline(never)]
    fn assign_any(&mut self, object: Ref, assignment: Assignment, value: &Value) -> Came
        ensures stays { Unstepped self.old self.new }
        ensures came { AsksTo (me_of (Some object)) (SetField assignment.field (plain value.now)) assignment.at self.old self.new result }
    {
        let Ok(copy) = value.share() else {
            return self.over(Cut::Memory);
        };
        self.ask(object, Act::SetField(assignment.field, copy), assignment.at)
    }

    /// What comes of a method that only gives its parameters to instance variables of an object. No one reads its value.
    fn assignments(
        &mut self,
        object: Ref,
        method: &'p CodeMethod,
        args: &[Value],
        depth: u32,
    ) -> Came
        requires assigns { OnlyAssigns (length args.now) method.now }
        requires steps { 2 * length method.now.body ≤ self.old.left }
        requires depth { depth < 999 }
        ensures stays { Stepped self.old self.new }
        ensures came { AssignsAtOnce (me_of (Some object)) method.now (map plain args.now) self.old self.new depth result }
    {
        let statements = method.body.as_slice();
        'statements: for code in statements {
            let Some(assignment) = assigned_by(code, args.len()) else {
                unreachable!()
            };
            self.left -= 2;
            let came = self.assign(object, assignment, &args[assignment.slot as usize]);
            if is_left(came) {
                return self.out_of_call(came);
            }
        }
        Came::Nil
    }

    /// What comes of a method, where it is entered with as many arguments as it has parameters and only gives these to instance variables.
    /// Else nothing is done. No one reads its value.
    #[inline(always)]
    fn entered_assigning(
        &mut self,
        object: Ref,
        method: &'p CodeMethod,
        args: &[Value],
        depth: u32,
    ) -> Option<Came>
        ensures none { result ≡ None → self.new ≡ self.old }
        ensures stays { Stepped self.old self.new }
        ensures came { IfSome result (λ came. AssignsAtOnce (me_of (Some object)) method.now (map plain args.now) self.old self.new depth came) }
    {
        if self.left / 2 < method.body.len() as u64 || depth >= MAX_DEPTH - 1 {
            return None;
        }
        if !only_assigns(method, args.len()) {
            return None;
        }
        Some(self.assignments(object, method, args, depth))
    }

    /// Enters the method that a new object is initialized by, with arguments of which there are so many behind the frame. No one reads its
    /// value. What only gives its parameters to instance variables is done at once.
    #[cycle(walk)]
    #[inline(always)]
    pub(super) fn enter_first(
        &mut self,
        method: &'p CodeMethod,
        object: Ref,
        count: usize,
        at: Span,
        depth: u32,
        room: &mut [Value],
    ) -> Came
        ensures stays { Walked self.old self.new room.old room.new }
        ensures kept { (i : ℕ) → i < self.old.base → slice_get room.new i ≡ slice_get room.old i }
        ensures came { EntersUnread (me_of (Some object)) method.now count at self.old self.new room.old room.new depth result }
    {
        match self.entered_assigning(object, method, passed(room, self.base, count), depth) {
            Some(came) => came,
            None => self.enter(method, Some(object), count, at, depth, room),
        }
    }

    /// A call of a method of a value, with arguments of which there are so many behind the frame: one of its class, or one that is built in.
    #[cycle(walk)]
    #[inline(never)]
    pub(super) fn invoke(
        &mut self,
        receiver: &Value,
        method: Option<Builtin>,
        name: NameId,
        count: usize,
        at: Span,
        depth: u32,
        room: &mut [Value],
    ) -> Came
        ensures stays { Walked self.old self.new room.old room.new }
        ensures kept { (i : ℕ) → i < self.old.base → slice_get room.new i ≡ slice_get room.old i }
        ensures came { Invokes (plain receiver.now) method name count at self.old self.new room.old room.new depth result }
    {
        match target_of(self.context.script, receiver, name) {
            Some(target) => match self.entered_reader(target, count, depth) {
                Some(came) => came,
                None => self.enter(target.method, Some(target.object), count, at, depth, room),
            },
            None => { self.call_any(receiver, method, passed(room, self.base, count), at, depth) }
        }
    }

    /// A call by its name alone of a method of the class of `self`.
    #[cycle(walk)]
    #[inline(never)]
    pub(super) fn own(
        &mut self,
        target: Target<'p>,
        name: NameId,
        args: &'p [Code],
        at: Span,
        depth: u32,
        room: &mut [Value],
    ) -> Came
        requires target { IsTarget self.old.context.script.now (me_of self.old.context.me) name target.object target.method.now }
        ensures stays { Walked self.old self.new room.old room.new }
        ensures came { Walks (nodes_fit args.now) (λ S k sc d n. On (Passing (ByName name) [] (map erase args.now) at) k sc d n) self.old self.new room.old room.new depth result }
    {
        let before = self.base;
        let came = self.arguments(args, depth, room);
        self.base = before;
        if is_left(came) {
            return came;
        }
        self.enter(
            target.method,
            Some(target.object),
            args.len(),
            at,
            depth,
            room,
        )
    }

    /// A call by its name alone of a method that only classes have.
    #[cycle(walk)]
    pub(super) fn begin_own(
        &mut self,
        name: NameId,
        args: &'p [Code],
        at: Span,
        depth: u32,
        room: &mut [Value],
    ) -> Came
        ensures stays { Walked self.old self.new room.old room.new }
        ensures came { Walks (unnamed name (nodes_fit args.now)) (λ S k sc d n. On (Passing (ByName name) [] (map erase args.now) at) k sc d n) self.old self.new room.old room.new depth result }
    {
        if let Some(target) = self.own_target(name) {
            return self.own(target, name, args, at, depth, room);
        }
        let before = self.base;
        let came = self.arguments(args, depth, room);
        self.base = before;
        if is_left(came) {
            return came;
        }
        self.raise(Fault::NoMethod, at)
    }
}
