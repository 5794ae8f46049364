// What one thread works on.

ghost use Rattle.std.specs.Prelude.{◌≡◌, ◌-ℤ◌, None, true, false, is_some, IsSome, IfSome, IfOk, OnOk, OnErr};
ghost use Rattle.rb_model.specs.Values.{Int, plain};
ghost use Rattle.rb_model.specs.Acts.{At, GetField, KGet, Push, Put, SetField};
ghost use Rattle.rb_model.specs.Acts as answer;
ghost use Rattle.rb_model.specs.Doing.{doing, said, made, sort_of};
ghost use Rattle.rb_model.specs.Immediates.{told_answer, list_answered, reference, taking, value_told};
ghost use Rattle.std.specs.Option.{option_map};
ghost use Rattle.rb_model.specs.Private.{Private, Gives, Becomes, held, entered, next_id};
ghost use Rattle.rb_model.specs.Log.{Log as Calls, Answers, On, Print};
ghost use Rattle.rb_model.specs.Outside.{IsServed, starting};

use crate::act::{Act, Make, Reply, Side};
use crate::call::{Answer, Served};
use crate::immediate::Immediate;
use crate::shared_text::SharedText;
use crate::value::{Id, Ref, Value};
use rb_tree::NameId;
use std::alloc::AllocError;

/// What one thread has: the things that it made and that are still its own, and what it asks of the outside.
pub trait ThreadStore {
    /// What the outside was asked, and what it refused.
    ghost log: { Self → Calls };

    /// The private things.
    ghost private: { Self → Private };

    /// The thread goes on: all that a store needs for its next call, and nothing that the walk looks into.
    ghost live: { Self → Type 0 };

    /// Prints a text: one entry at this step, exactly where it answers `Done`.
    fn print(&mut self, step: u64, text: SharedText) -> Answer
        requires live { live self.old }
        ensures live { live self.new }
        ensures private { private self.new ≡ private self.old }
        ensures answers { Answers result step (Print text) (log self.old) (log self.new) };

    /// Asks something of a thing that is not private here: one entry at this step, exactly where it answers `Done`.
    fn ask(&mut self, step: u64, thing: Ref, act: Act) -> Served
        requires live { live self.old }
        requires shared { held (private self.old) thing.id ≡ None }
        ensures live { live self.new }
        ensures served { IsServed result step (On (reference thing) (doing act)) (log self.old) (log self.new) (private self.old) (private self.new) };

    /// Starts a thread that runs the body of this number with these values: one entry at this step, exactly where it answers `Done`.
    fn start(&mut self, step: u64, body: u32, values: Vec<Value>) -> Served
        requires live { live self.old }
        ensures live { live self.new }
        ensures served { IsServed result step (starting (private self.old) (log self.old) body values.items) (log self.old) (log self.new) (private self.old) (private self.new) };

    /// Lets others change what is fixed while a thread runs. May wait; makes no entry.
    fn poll(&mut self)
        requires live { live self.old }
        ensures live { live self.new }
        ensures log { log self.new ≡ log self.old }
        ensures private { private self.new ≡ private self.old };

    /// Makes a thing, under the next number.
    fn make(&mut self, make: Make) -> Result<Ref, AllocError>
        requires live { live self.old }
        ensures live { live self.new }
        ensures id { IfOk result (λ thing. thing.id ≡ next_id (private self.old)) }
        ensures sort { IfOk result (λ thing. thing.sort ≡ sort_of make) }
        ensures private { OnOk result (private self.new ≡ entered (private self.old) (made make)) }
        ensures err { OnErr result (private self.new ≡ private self.old) }
        ensures log { log self.new ≡ log self.old };

    /// Whether the thing of an id is private here.
    fn holds(&self, id: Id) -> bool
        ensures { result ≡ is_some (held (private self.now) id) };

    /// The element at an index of a list that is private here, read at once. None is there where the list, or room for a copy, is not.
    fn element(&self, id: Id, index: i64) -> Option<Value>
        ensures held { IfSome result (λ value. is_some (held (private self.now) id) ≡ true) }
        ensures value { IfSome result (λ value. Gives (private self.now) id (At index) (answer.Value (plain value))) }
        ensures private { IfSome result (λ value. Becomes (private self.now) id (At index) (private self.now)) };

    /// The element at an index of a list that is private here, where it is an immediate value.
    fn immediate_element(&self, id: Id, index: i64) -> Immediate
        ensures told { result ≡ told_answer (held (private self.now) id) (At index) }
        ensures private { Becomes (private self.now) id (At index) (private self.now) };

    /// The list that the element at an index is, of a list that is private here.
    fn list_element(&self, id: Id, index: i64) -> Option<Ref>
        ensures list { option_map reference result ≡ list_answered (held (private self.now) id) (At index) }
        ensures private { Becomes (private self.now) id (At index) (private self.now) };

    /// The value of a key of a hash that is private here, where it is an immediate value.
    fn immediate_value(&self, id: Id, key: &Value) -> Immediate
        ensures told { result ≡ told_answer (held (private self.now) id) (KGet (plain key.now)) }
        ensures private { Becomes (private self.now) id (KGet (plain key.now)) (private self.now) };

    /// A field of an object that is private here, where it is an immediate value.
    fn immediate_field(&self, id: Id, name: NameId) -> Immediate
        ensures told { result ≡ told_answer (held (private self.now) id) (GetField name) }
        ensures private { Becomes (private self.now) id (GetField name) (private self.now) };

    /// Gives an element of a list that is private here an immediate value, where the list has the element and it fits where it stands. Else
    /// nothing is done.
    fn put_immediate(&mut self, id: Id, index: i64, value: Immediate) -> bool
        requires live { live self.old }
        ensures live { live self.new }
        ensures there { result ≡ true → is_some (held (private self.old) id) ≡ true }
        ensures gives { result ≡ true → IfSome (value_told value) (λ v. Gives (private self.old) id (Put index v) answer.Done) }
        ensures private { result ≡ true → IfSome (value_told value) (λ v. Becomes (private self.old) id (Put index v) (private self.new)) }
        ensures told { result ≡ true → is_some (value_told value) ≡ true }
        ensures kept { result ≡ false → private self.new ≡ private self.old }
        ensures log { log self.new ≡ log self.old };

    /// Puts an immediate value behind the last element of a list that is private here, where it fits to the others. Else, and where memory is
    /// wanted, nothing is done.
    fn push_immediate(&mut self, id: Id, value: Immediate) -> bool
        requires live { live self.old }
        ensures live { live self.new }
        ensures there { result ≡ true → is_some (held (private self.old) id) ≡ true }
        ensures gives { result ≡ true → IfSome (value_told value) (λ v. Gives (private self.old) id (Push v) answer.Done) }
        ensures private { result ≡ true → IfSome (value_told value) (λ v. Becomes (private self.old) id (Push v) (private self.new)) }
        ensures told { result ≡ true → is_some (value_told value) ≡ true }
        ensures kept { result ≡ false → private self.new ≡ private self.old }
        ensures log { log self.new ≡ log self.old };

    /// Takes an element that is an immediate value out at an end of a list that is private here. Of any other nothing is done.
    fn take_immediate(&mut self, id: Id, side: Side) -> Immediate
        requires live { live self.old }
        ensures live { live self.new }
        ensures told { result ≡ told_answer (held (private self.old) id) (taking side) }
        ensures private { IfSome (value_told result) (λ v. Becomes (private self.old) id (taking side) (private self.new)) }
        ensures kept { result ≡ Immediate.Other → private self.new ≡ private self.old }
        ensures log { log self.new ≡ log self.old };

    /// Adds an integer to a field of an object that is private here, where its place holds integers alone and the sum is one. Else nothing is
    /// done. Answers the sum.
    fn add_to_field(&mut self, id: Id, name: NameId, n: i64) -> Option<i64>
        requires live { live self.old }
        ensures live { live self.new }
        ensures there { IfSome result (λ sum. is_some (held (private self.old) id) ≡ true) }
        ensures gave { IfSome result (λ sum. Gives (private self.old) id (GetField name) (answer.Value (Int (sum -ℤ n)))) }
        ensures read { Becomes (private self.old) id (GetField name) (private self.old) }
        ensures gives { IfSome result (λ sum. Gives (private self.old) id (SetField name (Int sum)) answer.Done) }
        ensures private { IfSome result (λ sum. Becomes (private self.old) id (SetField name (Int sum)) (private self.new)) }
        ensures none { result ≡ None → private self.new ≡ private self.old }
        ensures log { log self.new ≡ log self.old };

    /// Does what is asked of a thing that is private here.
    fn apply(&mut self, id: Id, act: Act) -> Result<Reply, AllocError>
        requires live { live self.old }
        requires there { IsSome (held (private self.old) id) }
        ensures live { live self.new }
        ensures reply { IfOk result (λ reply. Gives (private self.old) id (doing act) (said reply)) }
        ensures private { OnOk result (Becomes (private self.old) id (doing act) (private self.new)) }
        ensures err { OnErr result (private self.new ≡ private self.old) }
        ensures log { log self.new ≡ log self.old };
}
