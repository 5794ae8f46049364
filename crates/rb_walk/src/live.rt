// The store of a thread that goes on.

ghost use Rattle.std.specs.Prelude.{◌≡◌, ◌-ℤ◌, None, true, false, is_some, IsSome, IfSome, IfOk, OnOk, OnErr};
ghost use Rattle.std.specs.Option.{option_map};
ghost use Rattle.rb_model.specs.Values.{Int, plain};
ghost use Rattle.rb_model.specs.Acts.{At, GetField, KGet, Push, Put, SetField};
ghost use Rattle.rb_model.specs.Acts as answer;
ghost use Rattle.rb_model.specs.Doing.{doing, said, made, sort_of};
ghost use Rattle.rb_model.specs.Immediates.{told_answer, list_answered, reference, taking, value_told};
ghost use Rattle.rb_model.specs.Private.{Gives, Becomes, held, entered, next_id};
ghost use Rattle.rb_model.specs.Log.{Answers, On, Print};
ghost use Rattle.rb_model.specs.Outside.{IsServed, starting};

use rb_model::{
    Act, Answer, Id, Immediate, Make, Ref, Reply, Served, SharedText, Side, ThreadStore, Value,
};
use rb_tree::NameId;
use std::alloc::AllocError;
use std::marker::Model;

/// What a thread works on, while it goes on.
#[derive(Drop)]
pub struct Live<O: ThreadStore + Drop> {
    store: O,
}

impl<O: ThreadStore + Drop> Model for Live<O> {
    ghost Value = { O };

    ghost view = { λ it. it.store };

    ghost invariant = { λ it. O.live it.store };
}

impl<O: ThreadStore + Drop> Live<O> {
    /// The store of a thread that has not ended.
    pub fn of(store: O) -> Self
        requires { O.live store }
        ensures { result ≡ store }
    {
        Live { store }
    }

    /// The store, to be ended.
    pub fn into_store(self) -> O
        ensures same { result ≡ self }
        ensures live { O.live result }
    {
        let Live { store } = self;
        store
    }

    /// Prints a text, exactly where it answers `Done`.
    #[inline(always)]
    pub fn print(&mut self, step: u64, text: SharedText) -> Answer
        ensures answers { Answers result step (Print text) (O.log self.old) (O.log self.new) }
        ensures private { O.private self.new ≡ O.private self.old }
    {
        self.store.print(step, text)
    }

    /// Asks something of a thing that is not private here, exactly where it answers `Done`.
    pub fn ask(&mut self, step: u64, thing: Ref, act: Act) -> Served
        requires { held (O.private self.old) thing.id ≡ None }
        ensures { IsServed result step (On (reference thing) (doing act)) (O.log self.old) (O.log self.new) (O.private self.old) (O.private self.new) }
    {
        self.store.ask(step, thing, act)
    }

    /// Starts a thread, exactly where it answers `Done`.
    pub fn start(&mut self, step: u64, body: u32, values: Vec<Value>) -> Served
        ensures { IsServed result step (starting (O.private self.old) (O.log self.old) body values.items) (O.log self.old) (O.log self.new) (O.private self.old) (O.private self.new) }
    {
        self.store.start(step, body, values)
    }

    /// Lets others change what is fixed while a thread runs.
    pub fn poll(&mut self)
        ensures log { O.log self.new ≡ O.log self.old }
        ensures private { O.private self.new ≡ O.private self.old }
    {
        self.store.poll();
    }

    /// Makes a thing, under the next number.
    #[inline(always)]
    pub fn make(&mut self, make: Make) -> Result<Ref, AllocError>
        ensures id { IfOk result (λ thing. thing.id ≡ next_id (O.private self.old)) }
        ensures sort { IfOk result (λ thing. thing.sort ≡ sort_of make) }
        ensures private { OnOk result (O.private self.new ≡ entered (O.private self.old) (made make)) }
        ensures err { OnErr result (O.private self.new ≡ O.private self.old) }
        ensures log { O.log self.new ≡ O.log self.old }
    {
        self.store.make(make)
    }

    /// Whether the thing of an id is private here.
    #[inline(always)]
    pub fn holds(&self, id: Id) -> bool
        ensures { result ≡ is_some (held (O.private self.now) id) }
    {
        self.store.holds(id)
    }

    /// The element at an index of a list that is private here, read at once.
    #[inline(always)]
    pub fn element(&self, id: Id, index: i64) -> Option<Value>
        ensures held { IfSome result (λ value. is_some (held (O.private self.now) id) ≡ true) }
        ensures value { IfSome result (λ value. Gives (O.private self.now) id (At index) (answer.Value (plain value))) }
        ensures private { IfSome result (λ value. Becomes (O.private self.now) id (At index) (O.private self.now)) }
    {
        self.store.element(id, index)
    }

    /// The element at an index of a list that is private here, where it is an immediate value.
    #[inline(always)]
    pub fn immediate_element(&self, id: Id, index: i64) -> Immediate
        ensures told { result ≡ told_answer (held (O.private self.now) id) (At index) }
        ensures private { Becomes (O.private self.now) id (At index) (O.private self.now) }
    {
        self.store.immediate_element(id, index)
    }

    /// The list that the element at an index is, of a list that is private here.
    #[inline(always)]
    pub fn list_element(&self, id: Id, index: i64) -> Option<Ref>
        ensures list { option_map reference result ≡ list_answered (held (O.private self.now) id) (At index) }
        ensures private { Becomes (O.private self.now) id (At index) (O.private self.now) }
    {
        self.store.list_element(id, index)
    }

    /// The value of a key of a hash that is private here, where it is an immediate value.
    #[inline(always)]
    pub fn immediate_value(&self, id: Id, key: &Value) -> Immediate
        ensures told { result ≡ told_answer (held (O.private self.now) id) (KGet (plain key.now)) }
        ensures private { Becomes (O.private self.now) id (KGet (plain key.now)) (O.private self.now) }
    {
        self.store.immediate_value(id, key)
    }

    /// A field of an object that is private here, where it is an immediate value.
    #[inline(always)]
    pub fn immediate_field(&self, id: Id, name: NameId) -> Immediate
        ensures told { result ≡ told_answer (held (O.private self.now) id) (GetField name) }
        ensures private { Becomes (O.private self.now) id (GetField name) (O.private self.now) }
    {
        self.store.immediate_field(id, name)
    }

    /// Gives an element of a list that is private here an immediate value, where the list has the element and it fits where it stands. Else
    /// nothing is done.
    #[inline(always)]
    pub fn put_immediate(&mut self, id: Id, index: i64, value: Immediate) -> bool
        ensures there { result ≡ true → is_some (held (O.private self.old) id) ≡ true }
        ensures gives { result ≡ true → IfSome (value_told value) (λ v. Gives (O.private self.old) id (Put index v) answer.Done) }
        ensures private { result ≡ true → IfSome (value_told value) (λ v. Becomes (O.private self.old) id (Put index v) (O.private self.new)) }
        ensures told { result ≡ true → is_some (value_told value) ≡ true }
        ensures kept { result ≡ false → O.private self.new ≡ O.private self.old }
        ensures log { O.log self.new ≡ O.log self.old }
    {
        self.store.put_immediate(id, index, value)
    }

    /// Puts an immediate value behind the last element of a list that is private here, where it fits to the others. Else, and where memory is
    /// wanted, nothing is done.
    #[inline(always)]
    pub fn push_immediate(&mut self, id: Id, value: Immediate) -> bool
        ensures there { result ≡ true → is_some (held (O.private self.old) id) ≡ true }
        ensures gives { result ≡ true → IfSome (value_told value) (λ v. Gives (O.private self.old) id (Push v) answer.Done) }
        ensures private { result ≡ true → IfSome (value_told value) (λ v. Becomes (O.private self.old) id (Push v) (O.private self.new)) }
        ensures told { result ≡ true → is_some (value_told value) ≡ true }
        ensures kept { result ≡ false → O.private self.new ≡ O.private self.old }
        ensures log { O.log self.new ≡ O.log self.old }
    {
        self.store.push_immediate(id, value)
    }

    /// Takes an element that is an immediate value out at an end of a list that is private here. Of any other nothing is done.
    #[inline(always)]
    pub fn take_immediate(&mut self, id: Id, side: Side) -> Immediate
        ensures told { result ≡ told_answer (held (O.private self.old) id) (taking side) }
        ensures private { IfSome (value_told result) (λ v. Becomes (O.private self.old) id (taking side) (O.private self.new)) }
        ensures kept { result ≡ Immediate.Other → O.private self.new ≡ O.private self.old }
        ensures log { O.log self.new ≡ O.log self.old }
    {
        self.store.take_immediate(id, side)
    }

    /// Adds an integer to a field of an object that is private here, where its place holds integers alone and the sum is one. Else nothing is
    /// done. Answers the sum.
    #[inline(always)]
    pub fn add_to_field(&mut self, id: Id, name: NameId, n: i64) -> Option<i64>
        ensures there { IfSome result (λ sum. is_some (held (O.private self.old) id) ≡ true) }
        ensures gave { IfSome result (λ sum. Gives (O.private self.old) id (GetField name) (answer.Value (Int (sum -ℤ n)))) }
        ensures read { Becomes (O.private self.old) id (GetField name) (O.private self.old) }
        ensures gives { IfSome result (λ sum. Gives (O.private self.old) id (SetField name (Int sum)) answer.Done) }
        ensures private { IfSome result (λ sum. Becomes (O.private self.old) id (SetField name (Int sum)) (O.private self.new)) }
        ensures none { result ≡ None → O.private self.new ≡ O.private self.old }
        ensures log { O.log self.new ≡ O.log self.old }
    {
        self.store.add_to_field(id, name, n)
    }

    /// Does what is asked of a thing that is private here.
    #[inline(always)]
    pub fn apply(&mut self, id: Id, act: Act) -> Result<Reply, AllocError>
        requires { IsSome (held (O.private self.old) id) }
        ensures reply { IfOk result (λ reply. Gives (O.private self.old) id (doing act) (said reply)) }
        ensures private { OnOk result (Becomes (O.private self.old) id (doing act) (O.private self.new)) }
        ensures err { OnErr result (O.private self.new ≡ O.private self.old) }
        ensures log { O.log self.new ≡ O.log self.old }
    {
        self.store.apply(id, act)
    }
}
