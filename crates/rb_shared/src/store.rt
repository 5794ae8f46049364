// The store that threads share.

ghost use Rattle.std.specs.Prelude.{◌≡◌, ◌≤◌, ◌<◌, ℕ, true, false, List, [], Option, Some, None, IfSome, IsSome};
ghost use Rattle.atomic_table.specs.Seated.{TableId};
ghost use Rattle.rb_model.specs.Log.{asked};
ghost use Rattle.rb_shared.specs.History.{History, IsLegal};
ghost use Rattle.rb_shared.specs.Threads.{AllGathered};
ghost use Rattle.rb_shared.specs.View.{View, known_logs, polled_view, rested_view, split_view, newborn, joined_view};
ghost use Rattle.rb_shared.specs.Asking.{MayAsk, WasQuick};
ghost use Rattle.rb_shared.specs.Answers.{AnswersIn, QuickIn};
ghost use Rattle.rb_shared.specs.Closing.{Shows, Written, Caused, AreFull};

use crate::answer::{Answer, Closed, Quick};
use rb_edge::Sink;
use rb_model::{Call, Moved};
use std::sync::Wait;

/// Things that many threads share. Each thread has a pass, by which it makes its calls. After a call, whatever of a pass its clauses do not
/// name is as it was before.
pub trait SharedStore: Sync {
    /// What a thread calls by.
    type Pass: Send + Drop + 'static;

    /// Which store it is.
    ghost id: { Self → TableId };

    /// Which store a pass belongs to.
    ghost of: { Self.Pass → TableId };

    /// What a pass shows.
    ghost view: { Self.Pass → View };

    /// Whether so many words in use and so many that are asked for are more than the store has.
    ghost overflows: { Self → ℕ → ℕ → Type 0 };

    /// Lets others change what is fixed while a thread runs. May wait; makes no entry.
    fn poll<R: Wait>(&self, rt: &R, pass: &mut Self::Pass)
        requires of { of pass.old ≡ id self.now }
        requires going { (view pass.old).ended ≡ false }
        ensures of { of pass.new ≡ id self.now }
        ensures view { view pass.new ≡ polled_view (view pass.old) };

    /// Steps aside before the thread waits outside the store. Waits for nobody, takes no memory, makes no entry.
    fn rest(&self, pass: &mut Self::Pass)
        requires of { of pass.old ≡ id self.now }
        ensures of { of pass.new ≡ id self.now }
        ensures view { view pass.new ≡ rested_view (view pass.old) };

    /// Makes a call that moves nothing, where that can be done at once. Waits for nobody, takes no memory.
    fn quick(&self, pass: &mut Self::Pass, step: u64, call: &Call) -> Quick
        requires of { of pass.old ≡ id self.now }
        requires going { (view pass.old).ended ≡ false }
        requires polled { (view pass.old).polled ≡ true }
        requires may { MayAsk (view pass.old) call.now [] }
        ensures of { of pass.new ≡ id self.now }
        ensures quick { QuickIn (view pass.old) step call.now result (view pass.new) };

    /// Makes a call with the things that move with it. May wait.
    fn call<R: Wait>(
        &self,
        rt: &R,
        pass: &mut Self::Pass,
        step: u64,
        call: &Call,
        moved: &mut Moved,
    ) -> Answer
        requires of { of pass.old ≡ id self.now }
        requires going { (view pass.old).ended ≡ false }
        requires polled { (view pass.old).polled ≡ true }
        requires may { MayAsk (view pass.old) call.now moved.old }
        requires quick { WasQuick (view pass.old) step (asked call.now) moved.old }
        ensures of { of pass.new ≡ id self.now }
        ensures answers { AnswersIn (overflows self.now) (view pass.old) step call.now moved.old result moved.new (view pass.new) };

    /// The pass of the thread that the last call started.
    fn split(&self, pass: &mut Self::Pass) -> Self::Pass
        requires of { of pass.old ≡ id self.now }
        requires started { IsSome (view pass.old).unsplit }
        ensures of { of pass.new ≡ id self.now }
        ensures maker { view pass.new ≡ split_view (view pass.old) }
        ensures made_of { of result ≡ id self.now }
        ensures made { IfSome (view pass.old).unsplit (λ n. view result ≡ newborn (view pass.old) n) };

    /// Takes in the pass of a thread that has ended: this one then knows what that one knew.
    fn join(&self, pass: &mut Self::Pass, other: Self::Pass)
        requires of { of pass.old ≡ id self.now }
        requires other { of other ≡ id self.now }
        requires ended { (view other).ended ≡ true }
        ensures of { of pass.new ≡ id self.now }
        ensures told { view pass.new ≡ joined_view (view pass.old) (view other) };
}

/// How a store is closed once all its threads have ended. It stands apart, so that a promise about passes names the passes alone.
pub trait ClosingStore: SharedStore {
    /// What the run shows of its history.
    type Front: Send + Drop + 'static;

    /// The sink that the store was made with.
    type Out: Sink + Send + Drop + 'static;

    ghost history: { Self.Front → History };

    /// How many slots for threads the store has.
    ghost slots: { Self → ℕ };

    /// What the sink told when the store was made.
    ghost told_before: { Self → Option (List ℕ) };

    /// How often the sink had failed then.
    ghost faults_before: { Self → ℕ };

    /// Ends the store, and gives its sink back. The history is legal, and shows the very logs and refusals of all threads. What the sink tells
    /// beyond what it told before are the prints, and, where a print was refused, a front of one of those. It refuses none but for the
    /// sink's failure, and finds the heap full only where that is so.
    fn close(self, pass: Self::Pass) -> Closed<Self::Front, Self::Out>
        requires of { Self.of pass ≡ Self.id self }
        requires main { (Self.view pass).thread ≡ 0 }
        requires ended { (Self.view pass).ended ≡ true }
        requires gathered { AllGathered (known_logs (Self.view pass)) }
        ensures legal { IsLegal (slots self) (history result.front) }
        ensures shows { Shows (history result.front) (known_logs (Self.view pass)) }
        ensures written { Written (told_before self) (Self.Out.told result.out) (history result.front) }
        ensures rises { faults_before self ≤ Self.Out.faults result.out }
        ensures cause { Caused (faults_before self) (Self.Out.faults result.out) (history result.front) }
        ensures full { AreFull (Self.overflows self) (history result.front) };
}
