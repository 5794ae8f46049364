// What a pass is for: notes, calls, and being split and joined.

ghost use Rattle.std.specs.Prelude.{◌≡◌, false, IsSome};
ghost use Rattle.rb_model.specs.Log.{asked};
ghost use Rattle.rb_shared.specs.Asking.{MayAsk};
ghost use Rattle.rb_shared.specs.View.{ask_of, asking, joined_view, polled_view, rested_view, split_view};
ghost use Rattle.turn_store.specs.Calls.{started_in};
ghost use Rattle.turn_store.specs.Passes.{HasAnswered, HasChild, view_of};

use crate::rule::{Ask, Asking, Passes, Poll, Rest};
use crate::store::{Place, TurnPass, TurnStore};
use atomic_table::Badge;
use rb_edge::Sink;
use rb_model::{Call, Moved, Reply};
use rb_shared::Answer;
use std::mem;
use std::sync::Wait;

/// The number of the thread that an answer says was started.
fn number_of(answer: &Answer) -> Option<u64>
    ensures { result ≡ started_in answer.now }
{
    match answer {
        Answer::Done(Reply::Started(number, _)) => Some(*number),
        _ => None,
    }
}

impl<K: Sink> TurnStore<K> {
    /// Marks a pass as polled.
    pub(crate) fn mark_polled(&self, pass: &mut TurnPass)
        requires store { pass.old.badge.table_id ≡ self.now.table.shared.table_id }
        ensures same { pass.new.badge.table_id ≡ pass.old.badge.table_id }
        ensures view { view_of pass.new.badge.views ≡ polled_view (view_of pass.old.badge.views) }
    {
        let badge = mem::replace(&mut pass.badge, Badge::blank());
        let mut seat: Place<K> = badge.into_seat();
        self.table.shared.load::<Poll>(&mut seat, 0);
        pass.badge = seat.into_badge();
    }

    /// Takes the mark away.
    pub(crate) fn mark_rested(&self, pass: &mut TurnPass)
        requires store { pass.old.badge.table_id ≡ self.now.table.shared.table_id }
        ensures same { pass.new.badge.table_id ≡ pass.old.badge.table_id }
        ensures view { view_of pass.new.badge.views ≡ rested_view (view_of pass.old.badge.views) }
    {
        let badge = mem::replace(&mut pass.badge, Badge::blank());
        let mut seat: Place<K> = badge.into_seat();
        self.table.shared.load::<Rest>(&mut seat, 0);
        pass.badge = seat.into_badge();
    }

    /// Notes a call that can not be done at once.
    pub(crate) fn note<J: Asking>(&self, pass: &mut TurnPass, step: u64, call: &Call)
        requires store { pass.old.badge.table_id ≡ self.now.table.shared.table_id }
        requires asks { J.ask ≡ ask_of step (asked call.now) }
        ensures same { pass.new.badge.table_id ≡ pass.old.badge.table_id }
        ensures view { view_of pass.new.badge.views ≡ asking (view_of pass.old.badge.views) (ask_of step (asked call.now)) }
    {
        let badge = mem::replace(&mut pass.badge, Badge::blank());
        let mut seat: Place<K> = badge.into_seat();
        self.table.shared.load::<Ask<J>>(&mut seat, 0);
        pass.unsplit = None;
        pass.badge = seat.into_badge();
    }

    /// Makes a call.
    pub(crate) fn make<R: Wait>(
        &self,
        rt: &R,
        pass: &mut TurnPass,
        step: u64,
        call: &Call,
        moved: &Moved,
    ) -> Answer
        requires store { pass.old.badge.table_id ≡ self.now.table.shared.table_id }
        requires going { (view_of pass.old.badge.views).ended ≡ false }
        requires may { MayAsk (view_of pass.old.badge.views) call.now moved.now }
        ensures same { pass.new.badge.table_id ≡ pass.old.badge.table_id }
        ensures answers { HasAnswered pass.old.badge.views step call.now moved.now result pass.new.badge.views }
    {
        let badge = mem::replace(&mut pass.badge, Badge::blank());
        let (seat, answer) = self.call_at(rt, badge.into_seat(), pass.thread, step, call, moved);
        pass.unsplit = number_of(&answer);
        pass.badge = seat.into_badge();
        answer
    }

    /// The pass of the thread that the last call started.
    pub(crate) fn split_off(&self, pass: &mut TurnPass) -> TurnPass
        requires store { pass.old.badge.table_id ≡ self.now.table.shared.table_id }
        requires started { IsSome (view_of pass.old.badge.views).unsplit }
        ensures same { pass.new.badge.table_id ≡ pass.old.badge.table_id }
        ensures maker { view_of pass.new.badge.views ≡ split_view (view_of pass.old.badge.views) }
        ensures made_of { result.badge.table_id ≡ pass.old.badge.table_id }
        ensures made { HasChild pass.old.badge.views result.badge.views }
    {
        let Some(thread) = pass.unsplit else {
            unreachable!()
        };
        let badge = mem::replace(&mut pass.badge, Badge::blank());
        let mut seat: Place<K> = badge.into_seat();
        let child = self.table.shared.split_seat::<Passes>(&mut seat);
        pass.unsplit = None;
        pass.badge = seat.into_badge();
        TurnPass {
            badge: child.into_badge(),
            thread,
            unsplit: None,
        }
    }

    /// Tells a pass all that another knew.
    pub(crate) fn take_in(&self, pass: &mut TurnPass, other: TurnPass)
        requires store { pass.old.badge.table_id ≡ self.now.table.shared.table_id }
        requires other { other.badge.table_id ≡ self.now.table.shared.table_id }
        ensures same { pass.new.badge.table_id ≡ pass.old.badge.table_id }
        ensures told { view_of pass.new.badge.views ≡ joined_view (view_of pass.old.badge.views) (view_of other.badge.views) }
    {
        let TurnPass {
            badge: other,
            thread: _,
            unsplit: _,
        } = other;
        let badge = mem::replace(&mut pass.badge, Badge::blank());
        let mut seat: Place<K> = badge.into_seat();
        self.table
            .shared
            .join_seat::<Passes>(&mut seat, other.into_seat());
        pass.badge = seat.into_badge();
    }
}
