// How the heap is closed.

ghost use Rattle.std.specs.Prelude.{◌≡◌, ◌≤◌, true};
ghost use Rattle.rb_shared.specs.Closing.{AreFull, Caused, Written};
ghost use Rattle.rb_shared.specs.Threads.{AllGathered};
ghost use Rattle.rb_shared.specs.View.{known_logs};
ghost use Rattle.shared_run.specs.Closing.{ShowsAll};
ghost use Rattle.heap_core.specs.Closing.{Overflows, ShowsNow, history_in};
ghost use Rattle.heap_core.specs.Heaps.{IsOf, holder};

use crate::holder::Known;
use crate::pass::{Heap, HeapPass, Place};
use crate::places::TURN_WORD;
use crate::turn::Turn;
use atomic_table::{Badge, Play, Split};
use rb_edge::Sink;
use rb_shared::Closed;

/// The history is shown, once all threads have ended.
pub struct ShowHistory;

impl<K: Sink> Play<Option<Turn<K>>, Known> for ShowHistory {
    ghost then = { λ _ m _ m'. ShowsNow m m' };
}

/// What shows the history is split off.
pub struct Shown;

impl Split<Known> for Shown {
    ghost use Rattle.heap_core.specs.View.{front_holder, maker};

    ghost left = { maker };

    ghost right = { front_holder };
}

/// What is left of a heap: it shows the history, and takes no bytes.
#[derive(Drop)]
pub struct HeapFront {
    pub badge: Badge<Known>,
}

impl<K: Sink> Heap<K> {
    // Shows the history to the pass of the main thread.
    fn show(&self, seat: &mut Place<K>)
        requires of { seat.old.table_id ≡ self.now.table.shared.table_id }
        requires live { seat.old.me.0.live ≡ true }
        requires main { seat.old.me.0.view.thread ≡ 0 }
        requires ended { seat.old.me.0.view.ended ≡ true }
        requires gathered { AllGathered (known_logs seat.old.me.0.view) }
        ensures of { seat.new.table_id ≡ seat.old.table_id }
        ensures shows { ShowsNow seat.old.me seat.new.me }
    {
        self.table.shared.load::<ShowHistory>(seat, TURN_WORD);
    }

    /// Ends the heap once all threads have ended, and gives its sink back. The history is legal, and shows the very logs and refusals of all
    /// threads. What the sink tells beyond what it told before are the prints, and, where a print was refused, a front of one of those. It
    /// failed where a print was refused, and words were refused where there were too few.
    pub fn close(self, pass: HeapPass) -> Closed<HeapFront, K>
        requires of { IsOf self pass }
        requires main { (holder pass).view.thread ≡ 0 }
        requires ended { (holder pass).view.ended ≡ true }
        requires gathered { AllGathered (known_logs (holder pass).view) }
        ensures shows { ShowsAll (holder pass).view.slots (known_logs (holder pass).view) (history_in result.front.badge.views) }
        ensures written { Written self.table.shared.key.begun.told (K.told result.out) (history_in result.front.badge.views) }
        ensures rises { self.table.shared.key.begun.faults ≤ K.faults result.out }
        ensures cause { Caused self.table.shared.key.begun.faults (K.faults result.out) (history_in result.front.badge.views) }
        ensures full { AreFull (Overflows self.table.shared.table_id.words) (history_in result.front.badge.views) }
    {
        let HeapPass { badge } = pass;
        let mut seat: Place<K> = badge.into_seat();
        self.show(&mut seat);
        let front = self
            .table
            .shared
            .split_seat::<Shown>(&mut seat)
            .into_badge();
        let Heap { table } = self;
        let mut closed = table.close_with(seat);
        let Some(turn) = closed.take(0) else {
            unreachable!()
        };
        closed.free();
        Closed {
            front: HeapFront { badge: front },
            out: turn.into_out(),
        }
    }
}
