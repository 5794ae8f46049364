// What a seat knows, the rule of the turn word and its slot, and what each step tells.

use crate::slot::Slot;
use atomic_table::{Join, Play, Split, TableRule};
use rb_edge::Sink;
use std::marker::{Brand, Model, PhantomData};
use std::snapshot::Snapshot;

/// What a seat knows. No value of it is made, so it takes no bytes.
pub struct Known {}

impl Model for Known {
    ghost use Rattle.turn_store.specs.Holding.{Holder, spent_holder};

    ghost Value = { Holder };

    ghost view = { λ _. spent_holder };
}

/// What is fixed when a store is made: the sink as it was then, and how many slots for threads there are.
#[derive(Drop)]
pub struct Made<K> {
    pub out: Snapshot<K>,
    pub slots: u64,
}

/// The rule of the turn word and its slot.
pub struct Law;

impl<K: Sink> TableRule<Slot<K>, Known, Made<K>> for Law {
    ghost use Rattle.turn_store.specs.Holding.{main_holder};
    ghost use Rattle.turn_store.specs.Slot.{begun_of, sunk_of, things_of};
    ghost use Rattle.turn_store.specs.Turns.{Kept};

    ghost holds = { λ made s. Kept things_of (sunk_of K.told K.faults) made.slots (begun_of K.told K.faults made.out.value) s };

    ghost first = { λ made. main_holder made.slots };
}

/// How many slots a step's table has been made with, for what the step tells.
pub trait Counting {
    ghost use Rattle.std.specs.Prelude.{ℕ};

    ghost slots: { ℕ };
}

impl Counting for Brand {
    ghost slots = { 0 };
}

/// The entry that a step makes, and the references that it tells.
pub trait Naming {
    ghost use Rattle.std.specs.Prelude.{List};
    ghost use Rattle.rb_model.specs.declared.value.Ref.{Ref};
    ghost use Rattle.rb_model.specs.Log.{Entry};

    ghost entry: { Entry };

    ghost refs: { List Ref };
}

impl Naming for Brand {
    ghost use Rattle.std.specs.Prelude.{[]};
    ghost use Rattle.rb_model.specs.Log.{Print, plain_entry};

    ghost entry = { plain_entry 0 (Print []) };

    ghost refs = { [] };
}

/// The call that a step refuses, and what would have moved with it.
pub trait Refusing {
    ghost use Rattle.std.specs.Prelude.{List};
    ghost use Rattle.rb_model.specs.Log.{Call};
    ghost use Rattle.rb_model.specs.Private.{Item};

    ghost call: { Call };

    ghost moved: { List Item };
}

impl Refusing for Brand {
    ghost use Rattle.std.specs.Prelude.{[]};
    ghost use Rattle.rb_model.specs.Log.{Print};

    ghost call = { Print [] };

    ghost moved = { [] };
}

/// The call that is noted.
pub trait Asking {
    ghost use Rattle.rb_shared.specs.View.{Asked};

    ghost ask: { Asked };
}

impl Asking for Brand {
    ghost use Rattle.std.specs.Prelude.{[]};
    ghost use Rattle.rb_model.specs.Log.{Print};
    ghost use Rattle.rb_shared.specs.View.{ask_of};

    ghost ask = { ask_of 0 (Print []) };
}

/// The turn word is tried.
pub struct Take<J> {
    counting: PhantomData<J>,
}

impl<K: Sink, J: Counting> Play<Slot<K>, Known> for Take<J> {
    ghost use Rattle.turn_store.specs.Slot.{sunk_of, things_of};
    ghost use Rattle.turn_store.specs.Turns.{Takes};

    ghost then = { λ _ m n m'. Takes things_of (sunk_of K.told K.faults) J.slots m n m' };
}

/// The turn word is released, with an entry.
pub struct Leave<J> {
    naming: PhantomData<J>,
}

impl<K: Sink, J: Naming> Play<Slot<K>, Known> for Leave<J> {
    ghost use Rattle.turn_store.specs.Turns.{Makes};

    ghost then = { λ _ m _ m'. Makes J.entry J.refs m m' };
}

/// The turn word is released, with a refusal.
pub struct Refuse<J> {
    refusing: PhantomData<J>,
}

impl<K: Sink, J: Refusing> Play<Slot<K>, Known> for Refuse<J> {
    ghost use Rattle.turn_store.specs.Turns.{Refuses};

    ghost then = { λ _ m _ m'. Refuses J.call J.moved m m' };
}

/// The turn word is released, with neither, and the call is tried again.
pub struct GiveUp;

impl<K: Sink> Play<Slot<K>, Known> for GiveUp {
    ghost use Rattle.turn_store.specs.Turns.{GivesUp};

    ghost then = { λ _ m _ m'. GivesUp m.0.view m m' };
}

/// The turn word is released, with neither, and the call is over.
pub struct Forget;

impl<K: Sink> Play<Slot<K>, Known> for Forget {
    ghost use Rattle.rb_shared.specs.View.{unasked};
    ghost use Rattle.turn_store.specs.Turns.{GivesUp};

    ghost then = { λ _ m _ m'. GivesUp (unasked m.0.view) m m' };
}

/// The pass is polled.
pub struct Poll;

impl<K: Sink> Play<Slot<K>, Known> for Poll {
    ghost use Rattle.rb_shared.specs.View.{polled_view};
    ghost use Rattle.turn_store.specs.Turns.{Noted};

    ghost then = { λ _ m _ m'. Noted (polled_view m.0.view) m m' };
}

/// The pass steps aside.
pub struct Rest;

impl<K: Sink> Play<Slot<K>, Known> for Rest {
    ghost use Rattle.rb_shared.specs.View.{rested_view};
    ghost use Rattle.turn_store.specs.Turns.{Noted};

    ghost then = { λ _ m _ m'. Noted (rested_view m.0.view) m m' };
}

/// A call is noted, of which it was said that it can not be done at once.
pub struct Ask<J> {
    asking: PhantomData<J>,
}

impl<K: Sink, J: Asking> Play<Slot<K>, Known> for Ask<J> {
    ghost use Rattle.rb_shared.specs.View.{asking};
    ghost use Rattle.turn_store.specs.Turns.{Noted};

    ghost then = { λ _ m _ m'. Noted (asking m.0.view J.ask) m m' };
}

/// How passes are split and joined.
pub struct Passes;

impl Split<Known> for Passes {
    ghost use Rattle.turn_store.specs.Holding.{child, maker};

    ghost left = { maker };

    ghost right = { child };
}

impl Join<Known> for Passes {
    ghost use Rattle.turn_store.specs.Holding.{joined, spent_holder};

    ghost both = { joined };

    ghost spent = { spent_holder };
}

/// The history is shown, when all threads have ended.
pub struct Show<J> {
    counting: PhantomData<J>,
}

impl<K: Sink, J: Counting> Play<Slot<K>, Known> for Show<J> {
    ghost use Rattle.turn_store.specs.Fronts.{ShowsNow};

    ghost then = { λ _ m _ m'. ShowsNow J.slots m m' };
}

/// The front is split off.
pub struct Shown;

impl Split<Known> for Shown {
    ghost use Rattle.turn_store.specs.Holding.{front_holder};

    ghost left = { λ k. k };

    ghost right = { front_holder };
}
