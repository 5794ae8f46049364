// How the store is closed.

ghost use Rattle.std.specs.Prelude.{◌≡◌, ◌≤◌, true};
ghost use Rattle.rb_shared.specs.Closing.{AreFull, Caused, Written};
ghost use Rattle.rb_shared.specs.Threads.{AllGathered};
ghost use Rattle.rb_shared.specs.View.{known_logs};
ghost use Rattle.shared_run.specs.Closing.{ShowsAll};
ghost use Rattle.turn_store.specs.Turns.{Never};
ghost use Rattle.turn_store.specs.Fronts.{ShowsNow};
ghost use Rattle.turn_store.specs.Passes.{history_in, view_of};

use crate::rule::{Counting, Known, Show, Shown};
use crate::store::{Place, TurnPass, TurnStore};
use atomic_table::Badge;
use rb_edge::Sink;
use rb_shared::Closed;
use std::marker::Brand;

/// What a run shows of its history, once all its threads have ended. It takes no bytes.
#[derive(Drop)]
pub struct TurnFront {
    pub badge: Badge<Known>,
}

impl<K: Sink> TurnStore<K> {
    /// Shows the history to the pass of the main thread.
    fn show<J: Counting>(&self, seat: &mut Place<K>)
        requires store { seat.old.table_id ≡ self.now.table.shared.table_id }
        requires counts { J.slots ≡ self.now.table.shared.key.slots }
        requires live { seat.old.me.0.live ≡ true }
        requires main { seat.old.me.0.view.thread ≡ 0 }
        requires ended { seat.old.me.0.view.ended ≡ true }
        requires gathered { AllGathered (known_logs seat.old.me.0.view) }
        ensures same { seat.new.table_id ≡ seat.old.table_id }
        ensures shows { ShowsNow self.now.table.shared.key.slots seat.old.me seat.new.me }
    {
        self.table.shared.load::<Show<J>>(seat, 0);
    }

    /// Gives the front and the sink.
    pub(crate) fn finish(self, pass: TurnPass) -> Closed<TurnFront, K>
        requires store { pass.badge.table_id ≡ self.table.shared.table_id }
        requires main { (view_of pass.badge.views).thread ≡ 0 }
        requires ended { (view_of pass.badge.views).ended ≡ true }
        requires gathered { AllGathered (known_logs (view_of pass.badge.views)) }
        ensures shows { ShowsAll self.table.shared.key.slots (known_logs (view_of pass.badge.views)) (history_in result.front.badge.views) }
        ensures written { Written (K.told self.table.shared.key.out.value) (K.told result.out) (history_in result.front.badge.views) }
        ensures rises { K.faults self.table.shared.key.out.value ≤ K.faults result.out }
        ensures cause { Caused (K.faults self.table.shared.key.out.value) (K.faults result.out) (history_in result.front.badge.views) }
        ensures full { AreFull Never (history_in result.front.badge.views) }
    {
        let TurnPass {
            badge,
            thread: _,
            unsplit: _,
        } = pass;
        let mut seat: Place<K> = badge.into_seat();
        self.show::<Brand>(&mut seat);
        let front = self
            .table
            .shared
            .split_seat::<Shown>(&mut seat)
            .into_badge();
        let TurnStore { table, slots: _ } = self;
        let mut closed = table.close_with(seat);
        let slot = closed.take(0);
        closed.free();
        Closed {
            front: TurnFront { badge: front },
            out: slot.into_out(),
        }
    }
}
