// What a thread hands over to what is shared.

ghost use Rattle.std.specs.Prelude.{◌≡◌, ◌≤◌, ◌↔◌, true, false, length, IfNone, IfSome, IsTrue};
ghost use Rattle.rb_model.specs.Doing.{doing};
ghost use Rattle.rb_model.specs.Moving.{items_of};
ghost use Rattle.rb_shared.specs.Asking.{MayAsk};
ghost use Rattle.rb_shared.specs.Replies.{Serves};
ghost use Rattle.publish_barrier.specs.Leaving.{ArePrivate};
ghost use Rattle.rb_thread.specs.Asking.{is_done as done, is_join};
ghost use Rattle.rb_thread.specs.Handing.{HasNoReceiver, IsReceiver};
ghost use Rattle.rb_thread.specs.Seats.{Hands};

use crate::seat::Seat;
use local_heap::LocalHeap;
use publish_barrier::{Known, commit};
use rb_model::{Act, Call, Moved, Ref, Sort};
use rb_shared::Answer;
use shape_core::ShapeStore;

/// Whether an act is for things of a sort.
fn serves(sort: Sort, act: &Act) -> bool
    ensures { IsTrue result ↔ Serves sort (doing act.now) }
{
    match act {
        Act::GetField(_) | Act::SetField(_, _) => matches!(sort, Sort::Object(_)),
        Act::At(_) => matches!(sort, Sort::List),
        Act::Put(_, _) => matches!(sort, Sort::List),
        Act::Push(_) => matches!(sort, Sort::List),
        Act::Unshift(_) => matches!(sort, Sort::List),
        Act::Pop => matches!(sort, Sort::List),
        Act::Shift => matches!(sort, Sort::List),
        Act::DeleteAt(_) => matches!(sort, Sort::List),
        Act::KGet(_) => matches!(sort, Sort::Pairs),
        Act::KHas(_) => matches!(sort, Sort::Pairs),
        Act::KPut(_, _) => matches!(sort, Sort::Pairs),
        Act::KDelete(_) => matches!(sort, Sort::Pairs),
        Act::Clear => matches!(sort, Sort::List | Sort::Pairs),
        Act::Len => matches!(sort, Sort::List | Sort::Pairs),
        Act::Copy => matches!(sort, Sort::List | Sort::Pairs),
        Act::Join => matches!(sort, Sort::Thread),
        Act::Lock => matches!(sort, Sort::Mutex),
        Act::Unlock => matches!(sort, Sort::Mutex),
    }
}

/// The noted reference to the same thing, where there is one and the act is for it.
pub(crate) fn receiver_of(known: &Known, thing: Ref, act: &Act) -> Option<Ref>
    ensures some { IfSome result (λ r. IsReceiver known.now.refs thing (doing act.now) r) }
    ensures none { IfNone result (HasNoReceiver known.now.refs thing (doing act.now)) }
{
    let found = known.find_same(thing)?;
    if serves(found.sort, act) {
        Some(found)
    } else {
        None
    }
}

/// Whether an act waits for the end of a thread.
pub(crate) fn is_joining(act: &Act) -> bool
    ensures { result ≡ is_join (doing act.now) }
{
    match act {
        Act::Join => true,
        _ => false,
    }
}

/// Whether a call was done.
fn is_done(answer: &Answer) -> bool
    ensures { result ≡ done answer.now }
{
    match answer {
        Answer::Done(_) => true,
        _ => false,
    }
}

/// Makes a call with the things that move with it. Where it is done, they leave the heap, and references to them are noted.
pub(crate) fn hand_over<K: Seat, T: ShapeStore>(
    seat: &mut K,
    things: &mut LocalHeap<T>,
    known: &mut Known,
    step: u64,
    call: &Call,
    mut moved: Moved,
) -> Answer
    requires going { (K.view seat.old).ended ≡ false }
    requires polled { (K.view seat.old).polled ≡ true }
    requires may { MayAsk (K.view seat.old) call.now moved }
    requires private { ArePrivate things.old (items_of moved) }
    requires room { length moved ≤ known.old.room }
    ensures home { K.home seat.new ≡ K.home seat.old }
    ensures hands { Hands (K.view seat.old) step call.now moved things.old known.old.refs
        result (K.view seat.new) things.new known.new.refs }
{
    let answer = seat.hand(step, call, &mut moved);
    if !is_done(&answer) {
        return answer;
    }
    commit(things, known, &moved);
    answer
}
