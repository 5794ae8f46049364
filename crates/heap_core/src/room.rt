// Words are taken; a pass loads and stores its own, and loads what never changes.

ghost use Rattle.std.specs.Prelude.{◌≡◌, ◌⊎◌, ◌-◌, ℕ, [], false, get_or, Some, None, IsSome};
ghost use Rattle.heap_core.specs.Blocks.{Block, Inside};
ghost use Rattle.heap_core.specs.Heaps.{IsOf, SameHeap, asking_of, holder};
ghost use Rattle.heap_core.specs.Passes.{FixedIs, asking};
ghost use Rattle.heap_core.specs.Room.{OwnIs, Took, Tried};
ghost use Rattle.heap_core.specs.Telling.{CanName};
ghost use Rattle.heap_core.specs.View.{InOwn, Knows, with_stored};

use crate::act::Act;
use crate::pass::{Heap, HeapPass, Place};
use crate::places::USED_WORD;
use crate::plays::{FixedLoad, Look, OwnLoad, OwnStore, StillLoad, TakeWords, Wanting};
use crate::take::Take;
use atomic_table::Badge;
use crossbeam_utils::Backoff;
use rb_edge::Sink;
use std::marker::Brand;
use std::mem;
use std::sync::Wait;

impl<K: Sink> Heap<K> {
    // One try: `None` where another thread took words in between.
    fn try_take<J: Wanting>(&self, pass: &mut HeapPass, wanted: u64) -> Option<Take>
        requires of { IsOf self.now pass.old }
        requires named { J.wanted ≡ wanted }
        requires going { IsSome J.asking → (holder pass.old).view.ended ≡ false }
        ensures of { SameHeap pass.old pass.new }
        ensures tried { Tried J.asking wanted result (holder pass.old) (holder pass.new) }
    {
        let badge = mem::replace(&mut pass.badge, Badge::blank());
        let mut seat: Place<K> = badge.into_seat();
        let used = self.table.shared.load::<Look<J>>(&mut seat, USED_WORD);
        let words = self.table.word_count() as u64;
        if wanted > words - used {
            pass.badge = seat.into_badge();
            return Some(Take::Full(used));
        }
        let found = self
            .table
            .shared
            .compare_exchange::<TakeWords>(&mut seat, USED_WORD, used, used + wanted);
        pass.badge = seat.into_badge();
        if found == used {
            Some(Take::Got(used))
        } else {
            None
        }
    }

    // Picks the call that is refused where there is no room.
    fn take_for<J: Wanting>(&self, pass: &mut HeapPass, wanted: u64, act: &Act) -> Option<Take>
        requires of { IsOf self.now pass.old }
        requires asking { J.asking ≡ Some (asking act.now) }
        requires wanted { J.wanted ≡ wanted }
        requires going { (holder pass.old).view.ended ≡ false }
        ensures of { SameHeap pass.old pass.new }
        ensures tried { Tried (Some (asking act.now)) wanted result (holder pass.old) (holder pass.new) }
    {
        self.try_take::<J>(pass, wanted)
    }

    // Picks that no call is refused.
    fn take_plain<J: Wanting>(&self, pass: &mut HeapPass, wanted: u64) -> Option<Take>
        requires of { IsOf self.now pass.old }
        requires asking { J.asking ≡ None }
        requires wanted { J.wanted ≡ wanted }
        ensures of { SameHeap pass.old pass.new }
        ensures tried { Tried None wanted result (holder pass.old) (holder pass.new) }
    {
        self.try_take::<J>(pass, wanted)
    }

    /// Takes words. Full exactly where the words in use and those that are wanted are more than the heap has; where they are wanted for a call,
    /// that call is refused. May wait, since other threads may take words at the same time.
    pub fn take<R: Wait>(&self, rt: &R, pass: &mut HeapPass, wanted: u64, act: Option<&Act>) -> Take
        requires of { IsOf self.now pass.old }
        requires going { IsSome act → (holder pass.old).view.ended ≡ false }
        ensures of { SameHeap pass.old pass.new }
        ensures took { Took (asking_of act.entry) wanted result (holder pass.old) (holder pass.new) }
    {
        let backoff = Backoff::new();
        'tries: for _ in rt.forever() {
            let tried = match act {
                Some(act) => self.take_for::<Brand>(pass, wanted, act),
                None => self.take_plain::<Brand>(pass, wanted),
            };
            if let Some(take) = tried {
                return take;
            }
            backoff.snooze();
        }
        unreachable!()
    }

    /// Loads a word of the pass's own.
    pub fn load_own(&self, pass: &mut HeapPass, at: u64) -> u64
        requires of { IsOf self.now pass.old }
        requires own { InOwn at (holder pass.old) }
        ensures of { SameHeap pass.old pass.new }
        ensures word { OwnIs (holder pass.old) at result }
        ensures same { holder pass.new ≡ holder pass.old }
    {
        let badge = mem::replace(&mut pass.badge, Badge::blank());
        let mut seat: Place<K> = badge.into_seat();
        let word = self.table.shared.load::<OwnLoad>(&mut seat, at as usize);
        pass.badge = seat.into_badge();
        word
    }

    /// Stores a word of the pass's own.
    pub fn store_own(&self, pass: &mut HeapPass, at: u64, word: u64)
        requires of { IsOf self.now pass.old }
        requires own { InOwn at (holder pass.old) }
        ensures of { SameHeap pass.old pass.new }
        ensures stored { holder pass.new ≡ with_stored (holder pass.old) at word }
    {
        let badge = mem::replace(&mut pass.badge, Badge::blank());
        let mut seat: Place<K> = badge.into_seat();
        self.table
            .shared
            .store::<OwnStore>(&mut seat, at as usize, word);
        pass.badge = seat.into_badge();
    }

    /// Loads a word that never changes of a block that the pass can name.
    pub fn load_fixed(&self, pass: &mut HeapPass, at: u64) -> u64
        requires of { IsOf self.now pass.old }
        requires known { (b : Block) × Knows (holder pass.old) b × Inside at b }
        ensures of { SameHeap pass.old pass.new }
        ensures word { FixedIs (holder pass.old) at result }
        ensures same { holder pass.new ≡ holder pass.old }
    {
        let badge = mem::replace(&mut pass.badge, Badge::blank());
        let mut seat: Place<K> = badge.into_seat();
        let word = self.table.shared.load::<FixedLoad>(&mut seat, at as usize);
        pass.badge = seat.into_badge();
        word
    }

    /// Loads a word that stays as it is: one of the pass's own, or one that never changes of a block that the pass can name.
    pub fn load_still(&self, pass: &mut HeapPass, at: u64) -> u64
        requires of { IsOf self.now pass.old }
        requires still { InOwn at (holder pass.old) ⊎ CanName (holder pass.old) at }
        ensures of { SameHeap pass.old pass.new }
        ensures own { OwnIs (holder pass.old) at result }
        ensures fixed { FixedIs (holder pass.old) at result }
        ensures same { holder pass.new ≡ holder pass.old }
    {
        let badge = mem::replace(&mut pass.badge, Badge::blank());
        let mut seat: Place<K> = badge.into_seat();
        let word = self.table.shared.load::<StillLoad>(&mut seat, at as usize);
        pass.badge = seat.into_badge();
        word
    }
}
