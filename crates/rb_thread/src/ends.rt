// Ends of threads.

ghost use Rattle.std.specs.Prelude.{◌≡◌, ◌||◌};
ghost use Rattle.rb_model.specs.Ends.{over, is_early as early, later as the_later, closing as the_closing};
ghost use Rattle.rb_model.specs.Ends as ending;
ghost use Rattle.rb_model.specs.Log.{asked};
ghost use Rattle.rb_model.specs.Log as log;
ghost use Rattle.rb_thread.specs.Asking.{ended_in};

use rb_model::{Call, End, Reply};
use rb_shared::Answer;

/// Whether an end is neither a value nor a fault.
fn is_early(end: &End) -> bool
    ensures { result ≡ early (over end.now) }
{
    match end {
        End::Value(_) => false,
        End::Raised(_, _) => false,
        End::Steps => true,
        End::Full { .. } => true,
        End::Sink => true,
        End::Memory => true,
    }
}

/// The first of two ends that is neither a value nor a fault; where both are, the first.
pub(crate) fn later(own: End, other: End) -> End
    ensures { over result ≡ the_later (over own) (over other) }
{
    if is_early(&own) {
        return own;
    }
    if is_early(&other) {
        return other;
    }
    own
}

/// The end of a thread that came so far, where memory kept it from taking one over, or did not.
pub(crate) fn closing(end: End, lacking: bool) -> End
    ensures { over result ≡ the_closing (over end) lacking }
{
    if lacking {
        return later(end, End::Memory);
    }
    end
}

/// Whether one of two holds.
pub(crate) fn either(a: bool, b: bool) -> bool
    ensures { result ≡ (a || b) }
{
    a || b
}

/// The end of a thread that an answer tells.
pub(crate) fn end_told(answer: Answer) -> Option<End>
    ensures { result ≡ ended_in answer }
{
    match answer {
        Answer::Done(Reply::Ended(how)) => Some(how),
        _ => None,
    }
}

/// The end that a call tells.
pub(crate) fn end_in(call: Call) -> End
    ensures { (e : ending.End) → asked call ≡ log.End e → over result ≡ e }
{
    match call {
        Call::End(end) => end,
        _ => End::Memory,
    }
}
