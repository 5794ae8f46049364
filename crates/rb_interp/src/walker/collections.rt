// Arrays and hashes: new ones, what they answer without a block, and how they are written.

ghost use Rattle.std.specs.Prelude.{◌≡◌, ◌∷◌, [], List, None, Some, pos, false, map, IfOk, IfErr, IfSome};
ghost use Rattle.rb_tree.specs.declared.span.NameId.{NameId};
ghost use Rattle.rb_model.specs.Values.{Int, To, plain, same, truth};
ghost use Rattle.rb_model.specs.Things.{Elements};
ghost use Rattle.rb_model.specs.Doing.{doing, made, said};
ghost use Rattle.rb_machine.specs.Methods as table;
ghost use Rattle.rb_machine.specs.Methods.{deed};
ghost use Rattle.rb_builtin.specs.Deeds.{answer_of, step_of, thing_of, use_of};
ghost use Rattle.rb_walk.specs.Outcome.{Gave, IsOver, is_left, outcome, value_of};
ghost use Rattle.rb_walk.specs.Methods.{HasNone};
ghost use Rattle.rb_walk.specs.Carries.{me_of};
ghost use Rattle.rb_walk.specs.Collections.{Reads, ReadsNone, answering, building, filling, keeping, making, pairing, putting, writing_element};

use super::Walker;
use rb_builtin::{Behind, Builtin, Deed, Purpose, deed_of};
use rb_code::BuiltinClass;
use rb_model::{Act, Fault, Make, Ref, Reply, Sort, ThreadStore, Value};
use rb_tree::Span;
use rb_walk::came::{Came, Cut, immediate, immediate_of, is_left, is_told};
use rb_walk::gathering::{collection_of, copies, has_bad_key, pairs_in, parts_of};
use rb_walk::questions::{
    index_for, is_element, is_key_put, is_push, place_for, put_of, question_of, side_for,
};
use rb_walk::ready::ready_answer;
use rb_walk::slots::last_of;

/// How many elements an array may have.
const MAX_ELEMENTS: i64 = 16_777_216;

impl<'p, O: ThreadStore + Drop> Walker<'p, O> {
    ghost use Rattle.rb_interp.specs.Walks.{Stepped, Unstepped};
    ghost use Rattle.rb_interp.specs.Answers.{CallsBuiltin, ComesAtOnce, ComesTo, StoresBy};

    /// Makes a thing, and gives a reference to it.
    pub(super) fn make(&mut self, make: Make) -> Came
        ensures stays { Unstepped self.old self.new }
        ensures log { O.log self.new.store ≡ O.log self.old.store }
        ensures came { ComesAtOnce (making (made make)) self.old self.new result }
    {
        match self.store.make(make) {
            Ok(thing) => self.give(Value::Ref(thing)),
            Err(_) => self.over(Cut::Memory),
        }
    }

    /// A new array of these values.
    pub(super) fn list(&mut self, values: &[Value]) -> Came
        ensures stays { Unstepped self.old self.new }
        ensures log { O.log self.new.store ≡ O.log self.old.store }
        ensures came { ComesAtOnce (making (Elements (map plain values.now))) self.old self.new result }
    {
        match copies(self.context.alloc, values) {
            Ok(values) => self.make(Make::Elements(values)),
            Err(_) => self.over(Cut::Memory),
        }
    }

    /// A new hash of keys and values by turns.
    pub(super) fn pairs(&mut self, values: &[Value], at: Span) -> Came
        ensures stays { Unstepped self.old self.new }
        ensures log { O.log self.new.store ≡ O.log self.old.store }
        ensures came { ComesAtOnce (pairing (map plain values.now) at) self.old self.new result }
    {
        let Ok(pairs) = pairs_in(self.context.alloc, values) else {
            return self.over(Cut::Memory);
        };
        if has_bad_key(pairs.as_slice()) {
            return self.raise(Fault::BadKey, at);
        }
        self.make(Make::Pairs(pairs))
    }

    /// A new array of so many times a value.
    pub(super) fn fill(&mut self, count: &Value, value: &Value, at: Span) -> Came
        ensures stays { Unstepped self.old self.new }
        ensures log { O.log self.new.store ≡ O.log self.old.store }
        ensures came { ComesAtOnce (filling (plain count.now) (plain value.now) at) self.old self.new result }
    {
        let Value::Int(count) = count else {
            return self.raise(Fault::TypeMismatch, at);
        };
        if *count < 0 {
            return self.raise(Fault::IndexTooSmall, at);
        }
        if *count > MAX_ELEMENTS {
            return self.raise(Fault::ArrayTooLong, at);
        }
        match value.share() {
            Ok(copy) => self.make(Make::Filled(*count as usize, copy)),
            Err(_) => self.over(Cut::Memory),
        }
    }

    /// A new thing of a class that is built in.
    pub(super) fn build(&mut self, class: BuiltinClass, args: &[Value], at: Span) -> Came
        ensures stays { Unstepped self.old self.new }
        ensures log { O.log self.new.store ≡ O.log self.old.store }
        ensures came { ComesAtOnce (building class (map plain args.now) at) self.old self.new result }
    {
        match (class, args) {
            (BuiltinClass::Array, []) => self.make(Make::Elements(Vec::new(self.context.alloc))),
            (BuiltinClass::Array, [count]) => self.fill(count, &Value::Nil, at),
            (BuiltinClass::Array, [count, value]) => self.fill(count, value, at),
            (BuiltinClass::Hash, []) => self.make(Make::Pairs(Vec::new(self.context.alloc))),
            (BuiltinClass::Mutex, []) => self.make(Make::Mutex),
            _ => self.raise(Fault::ArgumentCount, at),
        }
    }

    /// Reads a collection by one copy. Where none comes the thread ends.
    pub(super) fn copied(&mut self, thing: Ref) -> Result<Reply, Came>
        ensures stays { Unstepped self.old self.new }
        ensures reads { IfOk result (λ reply. Reads self.old.context.steps thing (said reply) self.old.left (O.log self.old.store) (O.log self.new.store) (O.private self.old.store) (O.private self.new.store)) }
        ensures ends { IfErr result (λ came. ReadsNone self.old.context.steps thing self.old.left (O.log self.old.store) (O.log self.new.store) (O.private self.old.store) (O.private self.new.store) (outcome came self.new.value self.new.leave)) }
        ensures over { IfErr result (λ came. IsOver (outcome came self.new.value self.new.leave)) }
    {
        if !self.store.holds(thing.id) {
            return self.reply_of(thing, Act::Copy);
        }
        match self.store.apply(thing.id, Act::Copy) {
            Ok(reply) => Ok(reply),
            Err(_) => Err(self.over(Cut::Memory)),
        }
    }

    /// An array of the keys or the values of a hash.
    fn read_hash(&mut self, thing: Ref, purpose: Purpose, at: Span) -> Came
        ensures stays { Unstepped self.old self.new }
        ensures came { ComesAtOnce (answering (table.Reads (thing_of thing) (use_of purpose)) at) self.old self.new result }
    {
        match self.copied(thing) {
            Ok(Reply::Pairs(pairs)) => match parts_of(self.context.alloc, pairs, purpose) {
                Ok(values) => self.make(Make::Elements(values)),
                Err(_) => self.over(Cut::Memory),
            },
            // Never, as a hash answers with its pairs.
            Ok(_) => self.over(Cut::Memory),
            Err(came) => came,
        }
    }

    /// What is answered behind the reply of a thing.
    fn ask_behind(&mut self, thing: Ref, act: Act, behind: Behind, at: Span) -> Came
        ensures stays { Unstepped self.old self.new }
        ensures came { ComesAtOnce (answering (table.Asks (thing_of thing) (doing act) (step_of behind thing)) at) self.old self.new result }
    {
        let came = self.ask_apart(thing, act, at);
        if is_left(came) {
            return came;
        }
        match behind {
            Behind::Reply => came,
            Behind::Receiver => self.give(Value::Ref(thing)),
            Behind::IsZero => self.is_zero(came),
        }
    }

    /// Whether the value that came is zero.
    fn is_zero(&self, came: Came) -> Came
        requires came { is_left came ≡ false }
        ensures { outcome result self.now.value self.now.leave ≡ Gave (truth (same (value_of came self.now.value) (Int (pos 0)))) }
    {
        match came {
            Came::Int(0) => Came::True,
            Came::Other => match self.value {
                Value::Int(0) => Came::True,
                _ => Came::False,
            },
            _ => Came::False,
        }
    }

    /// What a method without a block answers.
    fn do_deed(&mut self, deed: Deed, at: Span, depth: u32) -> Came
        ensures stays { Stepped self.old self.new }
        ensures came { ComesTo (answering (answer_of deed) at) self.old self.new depth result }
    {
        match deed {
            Deed::Give(value) => self.give(value),
            Deed::Raise(fault) => self.raise(fault, at),
            Deed::Walk(_) | Deed::WalkOver(_, _) | Deed::WalkPairs(_) | Deed::Synchronize(_) =>
                self.raise(Fault::ArgumentCount, at),
            Deed::Ask(thing, act, behind) => self.ask_behind(thing, act, behind, at),
            Deed::Read(thing, purpose) => self.read_hash(thing, purpose, at),
            Deed::Inspect(thing) => self.inspected(thing, at, depth),
        }
    }

    /// The call of a built-in method of any value, without a block.
    pub(super) fn call_any(
        &mut self,
        receiver: &Value,
        method: Option<Builtin>,
        args: &[Value],
        at: Span,
        depth: u32,
    ) -> Came
        ensures stays { Stepped self.old self.new }
        ensures came { CallsBuiltin method (plain receiver.now) (map plain args.now) at self.old self.new depth result }
    {
        if let Some(answer) = ready_answer(method, receiver, args) {
            return self.answer(answer, at);
        }
        match question_of(receiver, method, args) {
            Some(question) => self.ask_behind(question.thing, question.act, question.behind, at),
            None => self.call_by_table(receiver, method, args, at, depth),
        }
    }

    /// Any call of a built-in method, without a block, as the table of methods says.
    #[inline(never)]
    fn call_by_table(
        &mut self,
        receiver: &Value,
        method: Option<Builtin>,
        args: &[Value],
        at: Span,
        depth: u32,
    ) -> Came
        ensures stays { Stepped self.old self.new }
        ensures came { CallsBuiltin method (plain receiver.now) (map plain args.now) at self.old self.new depth result }
    {
        match deed_of(
            self.context.alloc,
            self.context.program,
            receiver,
            method,
            args,
            None,
        ) {
            Ok(deed) => self.do_deed(deed, at, depth),
            Err(_) => self.over(Cut::Memory),
        }
    }

    /// The call of a built-in method of any value, with one argument.
    pub(super) fn call_with(
        &mut self,
        receiver: &Value,
        method: Option<Builtin>,
        arg: Value,
        at: Span,
        depth: u32,
    ) -> Came
        ensures stays { Stepped self.old self.new }
        ensures came { CallsBuiltin method (plain receiver.now) (plain arg ∷ []) at self.old self.new depth result }
    {
        match collection_of(receiver) {
            Some(thing) => self.asked_value(thing, method, arg, at, depth),
            None => self.operated(method, receiver, arg, at),
        }
    }

    /// What came, where it is an array or a hash. No name finds a method of a class for it.
    #[inline(always)]
    pub(super) fn collection_now(&self, came: Came) -> Option<Ref>
        ensures value { IfSome result (λ thing. value_of came self.now.value ≡ me_of (Some thing)) }
        ensures alone { IfSome result (λ thing. (name : NameId) → HasNone self.now.context.script.now (me_of (Some thing)) name) }
    {
        let Came::Other = came else {
            return None;
        };
        let Value::Ref(thing) = &self.value else {
            return None;
        };
        match thing.sort {
            Sort::List | Sort::Pairs => Some(*thing),
            _ => None,
        }
    }

    /// The call of a built-in method of a thing, with the integer that came for its one argument.
    #[inline(always)]
    fn asked_integer(
        &mut self,
        thing: Ref,
        method: Option<Builtin>,
        index: i64,
        at: Span,
        depth: u32,
    ) -> Came
        ensures stays { Stepped self.old self.new }
        ensures came { CallsBuiltin method (To (thing_of thing)) (Int index ∷ []) at self.old self.new depth result }
    {
        if is_element(thing, method) {
            return self.element(thing, index, at);
        }
        self.asked_any(thing, method, Came::Int(index), at, depth)
    }

    /// The call of a built-in method of an array or a hash, with what came for its one argument.
    #[inline(always)]
    pub(super) fn asked_with(
        &mut self,
        thing: Ref,
        method: Option<Builtin>,
        came: Came,
        at: Span,
        depth: u32,
    ) -> Came
        requires came { is_left came ≡ false }
        ensures stays { Stepped self.old self.new }
        ensures came { CallsBuiltin method (To (thing_of thing)) (value_of came self.old.value ∷ []) at self.old self.new depth result }
    {
        match came {
            Came::Int(index) => self.asked_integer(thing, method, index, at, depth),
            _ => self.asked_any(thing, method, came, at, depth),
        }
    }

    /// The call of a built-in method of an array or a hash without arguments. An immediate value is taken out of an array at once.
    #[inline(never)]
    pub(super) fn asked_alone(
        &mut self,
        thing: Ref,
        method: Option<Builtin>,
        at: Span,
        depth: u32,
    ) -> Came
        ensures stays { Stepped self.old self.new }
        ensures came { CallsBuiltin method (To (thing_of thing)) [] at self.old self.new depth result }
    {
        let Some(side) = side_for(thing, method) else {
            return self.call_any(&Value::Ref(thing), method, &[], at, depth);
        };
        let told = self.store.take_immediate(thing.id, side);
        if is_told(told) {
            return immediate(told);
        }
        self.call_any(&Value::Ref(thing), method, &[], at, depth)
    }

    /// The same with any value that came. An immediate one is put behind the elements of an array at once.
    #[inline(never)]
    fn asked_any(
        &mut self,
        thing: Ref,
        method: Option<Builtin>,
        came: Came,
        at: Span,
        depth: u32,
    ) -> Came
        requires came { is_left came ≡ false }
        ensures stays { Stepped self.old self.new }
        ensures came { CallsBuiltin method (To (thing_of thing)) (value_of came self.old.value ∷ []) at self.old self.new depth result }
    {
        if is_push(thing, method) && self.store.push_immediate(thing.id, immediate_of(came)) {
            return self.give_thing(thing);
        }
        let arg = self.take(came);
        self.asked_value(thing, method, arg, at, depth)
    }

    /// The same with a value. The element at an index and the value of a key are found beside the table of methods.
    fn asked_value(
        &mut self,
        thing: Ref,
        method: Option<Builtin>,
        arg: Value,
        at: Span,
        depth: u32,
    ) -> Came
        ensures stays { Stepped self.old self.new }
        ensures came { CallsBuiltin method (To (thing_of thing)) (plain arg ∷ []) at self.old self.new depth result }
    {
        if let Some(index) = index_for(thing, method, &arg) {
            return self.element(thing, index, at);
        }
        let told = self.key_told(thing, method, &arg);
        if is_told(told) {
            return immediate(told);
        }
        let args = [arg];
        self.call_any(&Value::Ref(thing), method, args.as_slice(), at, depth)
    }

    /// Gives an element of an array a value, and gives the value on.
    #[inline(always)]
    fn put(&mut self, array: Ref, index: i64, value: &Value, at: Span) -> Came
        ensures stays { Unstepped self.old self.new }
        ensures came { ComesAtOnce (putting (thing_of array) index (plain value.now) at) self.old self.new result }
    {
        let Ok(last) = value.share() else {
            return self.over(Cut::Memory);
        };
        let Ok(copy) = value.share() else {
            return self.over(Cut::Memory);
        };
        let came = self.ask(array, Act::Put(index, copy), at);
        if is_left(came) {
            return came;
        }
        self.hand(last)
    }

    /// Gives an element of an array the value that came, and gives the value on.
    #[inline(always)]
    fn put_came(&mut self, array: Ref, index: i64, came: Came, at: Span) -> Came
        requires came { is_left came ≡ false }
        ensures stays { Unstepped self.old self.new }
        ensures came { ComesAtOnce (putting (thing_of array) index (value_of came self.old.value) at) self.old self.new result }
    {
        if self
            .store
            .put_immediate(array.id, index, immediate_of(came))
        {
            return came;
        }
        let value = self.take(came);
        self.put_own(array, index, value, at)
    }

    /// Gives an element of an array a value that nobody else has, and gives the value on.
    #[inline(never)]
    fn put_own(&mut self, array: Ref, index: i64, value: Value, at: Span) -> Came
        ensures stays { Unstepped self.old self.new }
        ensures came { ComesAtOnce (putting (thing_of array) index (plain value) at) self.old self.new result }
    {
        let Ok(copy) = value.share() else {
            return self.over(Cut::Memory);
        };
        let came = self.ask(array, Act::Put(index, copy), at);
        if is_left(came) {
            return came;
        }
        self.hand(value)
    }

    /// Gives a key of a hash the value that came, and gives the value on.
    #[inline(never)]
    fn put_pair(&mut self, hash: Ref, key: Value, came: Came, at: Span) -> Came
        requires came { is_left came ≡ false }
        ensures stays { Unstepped self.old self.new }
        ensures came { ComesAtOnce (keeping (thing_of hash) (plain key) (value_of came self.old.value) at) self.old self.new result }
    {
        let value = self.take(came);
        let Ok(copy) = value.share() else {
            return self.over(Cut::Memory);
        };
        let done = self.ask(hash, Act::KPut(key, copy), at);
        if is_left(done) {
            return done;
        }
        self.hand(value)
    }

    /// An assignment by the call of a method of an array or a hash, with an index or a key and the value that came.
    #[inline(always)]
    pub(super) fn stored(
        &mut self,
        thing: Ref,
        method: Option<Builtin>,
        index: Value,
        came: Came,
        at: Span,
        depth: u32,
    ) -> Came
        requires came { is_left came ≡ false }
        ensures stays { Stepped self.old self.new }
        ensures came { StoresBy method (To (thing_of thing)) (plain index ∷ value_of came self.old.value ∷ []) at self.old self.new depth result }
    {
        if let Some(place) = place_for(thing, method, &index) {
            return self.put_came(thing, place, came, at);
        }
        if is_key_put(thing, method, &index) {
            return self.put_pair(thing, index, came, at);
        }
        let value = self.take(came);
        self.stored_any(thing, method, index, value, at, depth)
    }

    /// The same of any thing.
    #[inline(never)]
    fn stored_any(
        &mut self,
        thing: Ref,
        method: Option<Builtin>,
        index: Value,
        value: Value,
        at: Span,
        depth: u32,
    ) -> Came
        ensures stays { Stepped self.old self.new }
        ensures came { StoresBy method (To (thing_of thing)) (plain index ∷ plain value ∷ []) at self.old self.new depth result }
    {
        let args = [index, value];
        self.store_builtin(&Value::Ref(thing), method, args.as_slice(), at, depth)
    }

    /// An assignment by the call of a built-in method, whose value is the last argument.
    pub(super) fn store_builtin(
        &mut self,
        receiver: &Value,
        method: Option<Builtin>,
        args: &[Value],
        at: Span,
        depth: u32,
    ) -> Came
        ensures stays { Stepped self.old self.new }
        ensures came { StoresBy method (plain receiver.now) (map plain args.now) at self.old self.new depth result }
    {
        if let Some((array, index, value)) = put_of(receiver, method, args) {
            return self.put(array, index, value, at);
        }
        let Ok(last) = last_of(args) else {
            return self.over(Cut::Memory);
        };
        let came = self.call_any(receiver, method, args, at, depth);
        if is_left(came) {
            return came;
        }
        self.give(last)
    }

    /// Writes the value that came to an element, and gives it on.
    pub(super) fn write_element(
        &mut self,
        came: Came,
        receiver: &Value,
        index: Value,
        at: Span,
        depth: u32,
    ) -> Came
        requires came { is_left came ≡ false }
        ensures stays { Stepped self.old self.new }
        ensures came { ComesTo (writing_element (value_of came self.old.value) (plain receiver.now) (plain index) at) self.old self.new depth result }
    {
        if let Some(thing) = collection_of(receiver) {
            return self.stored(thing, Some(Builtin::SetIndex), index, came, at, depth);
        }
        let value = self.take(came);
        let Ok(copy) = value.share() else {
            return self.over(Cut::Memory);
        };
        let args = [index, copy];
        let done = self.call_any(
            receiver,
            Some(Builtin::SetIndex),
            args.as_slice(),
            at,
            depth,
        );
        if is_left(done) {
            return done;
        }
        self.give(value)
    }
}
