// Mutexes, which are taken and given back in turn.

ghost use Rattle.std.specs.Prelude.{◌≡◌, ◌<◌, true, false, []};
ghost use Rattle.rb_model.specs.Moving.{items_of};
ghost use Rattle.heap_core.specs.Blocks.{MutexAt};
ghost use Rattle.heap_core.specs.Heaps.{AllowsExchange, IsOf, SameHeap, holder};
ghost use Rattle.heap_core.specs.Mutexes.{owner_of};
ghost use Rattle.heap_core.specs.Owning.{IsOwning, LooksOwner, OwningAnswers, SetsOwner, entry_on};
ghost use Rattle.heap_core.specs.Passes.{asking};
ghost use Rattle.heap_core.specs.Turning.{IsBare, with_plain};
ghost use Rattle.heap_core.specs.Turns.{HasTurn};
ghost use Rattle.heap_core.specs.View.{Knows};

use crate::act::Act;
use crate::deed::{deed_of, owner_word};
use crate::pass::{Heap, HeapPass};
use crate::prints::Making;
use crate::telling::Tells;
use crate::turn::Turn;
use rb_edge::Sink;
use rb_model::{Act as Asked, Call, Ref, Reply};
use rb_shared::Answer;
use std::marker::{Brand, PhantomData};
use std::sync::Wait;

/// The owner word of a mutex is loaded.
pub struct LookOwner;

impl Tells for LookOwner {
    ghost use Rattle.heap_core.specs.Owning.{LooksOwner};

    ghost tells = { LooksOwner };
}

/// It is exchanged, with an entry.
pub struct SetOwner<J> {
    making: PhantomData<J>,
}

impl<J: Making> Tells for SetOwner<J> {
    ghost use Rattle.heap_core.specs.Owning.{SetsOwner};

    ghost tells = { SetsOwner J.entry };
}

impl<K: Sink> Heap<K> {
    // Loads the owner word of a mutex.
    fn look_owner(&self, pass: &mut HeapPass, thing: &Ref) -> u64
        requires of { IsOf self.now pass.old }
        requires known { Knows (holder pass.old) (MutexAt thing.now.id thing.now.at) }
        ensures of { SameHeap pass.old pass.new }
        ensures told { LooksOwner (MutexAt thing.now.id thing.now.at) (owner_of thing.now.at) 0 0 (holder pass.old) result (holder pass.new) }
    {
        self.load::<LookOwner>(pass, thing.at + 3)
    }

    // Exchanges it, with the entry of an act. Whether it was still the word that was loaded.
    fn set_owner<J: Making>(
        &self,
        pass: &mut HeapPass,
        word: u64,
        new: u64,
        step: u64,
        thing: &Ref,
        act: &Asked,
        reply: &Reply,
    ) -> bool
        requires of { IsOf self.now pass.old }
        requires known { Knows (holder pass.old) (MutexAt thing.now.id thing.now.at) }
        requires entry { J.entry ≡ entry_on step thing.now act.now reply.now }
        requires allows { AllowsExchange (SetsOwner J.entry) self.now pass.old (owner_of thing.now.at) word new }
        ensures of { SameHeap pass.old pass.new }
        ensures set { result ≡ true → holder pass.new ≡ with_plain (holder pass.old) (entry_on step thing.now act.now reply.now) }
        ensures not_set { result ≡ false → holder pass.new ≡ holder pass.old }
    {
        self.compare_exchange::<SetOwner<J>>(pass, thing.at + 3, word, new) == word
    }

    /// Takes or gives back a mutex, and gives the turn back. None where another thread owns the mutex that goes on: the call has to wait, and
    /// there is no entry. Else it is Done, with the plain reply.
    pub fn turn_mutex<R: Wait>(
        &self,
        rt: &R,
        pass: &mut HeapPass,
        turn: Turn<K>,
        thread: u64,
        act: &Act,
    ) -> Option<Answer>
        requires of { IsOf self.now pass.old }
        requires thread { thread ≡ (holder pass.old).view.thread }
        requires few { thread < 18446744073709551615 }
        requires mutex { IsOwning (holder pass.old) act.now.call.now }
        requires moves_none { items_of act.now.moved.now ≡ [] }
        requires bare { IsBare (holder pass.old) }
        requires has { HasTurn (holder pass.old) turn false }
        ensures of { SameHeap pass.old pass.new }
        ensures answers { OwningAnswers (asking act.now) act.now.step result (holder pass.old) (holder pass.new) }
    {
        let Call::On(thing, asked) = act.call else {
            unreachable!()
        };
        'tries: for _ in rt.forever() {
            let word = self.look_owner(pass, thing);
            let Some(deed) = deed_of(thread, asked, turn.owner(word)) else {
                self.turn_out(pass, turn);
                return None;
            };
            let new = owner_word(deed.owner);
            if self.set_owner::<Brand>(pass, word, new, act.step, thing, asked, &deed.reply) {
                self.turn_out(pass, turn);
                return Some(Answer::Done(deed.reply));
            }
        }
        unreachable!()
    }
}
