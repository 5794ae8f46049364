// A pass with its store.

ghost use Rattle.std.specs.Prelude.{◌≡◌, true, false, [], IfSome, IsSome};
ghost use Rattle.atomic_table.specs.Seated.{TableId};
ghost use Rattle.rb_shared.specs.View.{View, joined_view, newborn, polled_view, rested_view, split_view};
ghost use Rattle.rb_shared.specs.Asking.{MayAsk};
ghost use Rattle.rb_thread.specs.Seats.{Answered};

use rb_edge::Gate;
use rb_model::{Call, Moved};
use rb_shared::{Answer, Quick, SharedStore};
use std::alloc::Global;
use std::sync::Wait;

/// A pass with its store. Where a thread's store speaks of no more, it speaks of nothing that is sent to threads.
pub trait Seat {
    /// The passes of its store.
    type Pass;

    /// Which store it belongs to.
    ghost home: { Self → TableId };

    /// What its pass shows.
    ghost view: { Self → View };

    /// Which store a pass belongs to.
    ghost of: { Self.Pass → TableId };

    /// What a pass shows.
    ghost seen: { Self.Pass → View };

    /// Makes a call that moves nothing: at once where that can be, and else by the store's own call, which may wait. The gate stands round
    /// it.
    fn ask(&mut self, step: u64, call: &Call) -> Answer
        requires going { (view self.old).ended ≡ false }
        requires polled { (view self.old).polled ≡ true }
        requires may { MayAsk (view self.old) call.now [] }
        ensures home { home self.new ≡ home self.old }
        ensures answered { Answered (view self.old) step call.now [] result [] (view self.new) };

    /// Makes a call with the things that move with it, which are laid where it is done. The gate stands round it.
    fn hand(&mut self, step: u64, call: &Call, moved: &mut Moved) -> Answer
        requires going { (view self.old).ended ≡ false }
        requires polled { (view self.old).polled ≡ true }
        requires may { MayAsk (view self.old) call.now moved.old }
        ensures home { home self.new ≡ home self.old }
        ensures answered { Answered (view self.old) step call.now moved.old result moved.new (view self.new) };

    /// Lets others change what is fixed while a thread runs. May wait; makes no entry.
    fn poll(&mut self)
        requires going { (view self.old).ended ≡ false }
        ensures home { home self.new ≡ home self.old }
        ensures view { view self.new ≡ polled_view (view self.old) };

    /// Steps aside before the thread waits outside the store.
    fn rest(&mut self)
        ensures home { home self.new ≡ home self.old }
        ensures view { view self.new ≡ rested_view (view self.old) };

    /// The pass of the thread that the last call started.
    fn split(&mut self) -> Self::Pass
        requires started { IsSome (view self.old).unsplit }
        ensures home { home self.new ≡ home self.old }
        ensures maker { view self.new ≡ split_view (view self.old) }
        ensures made_of { of result ≡ home self.old }
        ensures made { IfSome (view self.old).unsplit (λ n. seen result ≡ newborn (view self.old) n) };

    /// Takes in the pass of a thread that has ended.
    fn join(&mut self, other: Self::Pass)
        requires other { of other ≡ home self.old }
        requires ended { (seen other).ended ≡ true }
        ensures home { home self.new ≡ home self.old }
        ensures told { view self.new ≡ joined_view (view self.old) (seen other) };
}

/// A pass of a shared store, beside what it is called with.
#[derive(Drop)]
pub struct Seated<'e, S: SharedStore, R, G> {
    pub rt: &'e R,
    pub alloc: Global,
    pub store: &'e S,
    pub gate: &'e G,
    /// The number of the thread, as the gate is told it.
    pub thread: u64,
    pub pass: S::Pass,
    pub ghost here: { S.of pass ≡ S.id store.now },
}

impl<'e, S: SharedStore, R: Wait, G: Gate> Seat for Seated<'e, S, R, G> {
    type Pass = S::Pass;

    ghost home = { λ s. S.id s.store.now };

    ghost view = { λ s. S.view s.pass };

    ghost of = { λ p. S.of p };

    ghost seen = { λ p. S.view p };

    fn ask(&mut self, step: u64, call: &Call) -> Answer {
        self.gate.before(self.thread, step);
        if let Quick::Done(reply) = self.store.quick(&mut self.pass, step, call) {
            self.gate.after(self.thread, step);
            return Answer::Done(reply);
        }
        // The call may wait.
        self.store.poll(self.rt, &mut self.pass);
        let mut moved = Moved::new(self.alloc);
        let answer = self
            .store
            .call(self.rt, &mut self.pass, step, call, &mut moved);
        self.gate.after(self.thread, step);
        answer
    }

    fn hand(&mut self, step: u64, call: &Call, moved: &mut Moved) -> Answer {
        if moved.is_empty() {
            return self.ask(step, call);
        }
        self.gate.before(self.thread, step);
        let answer = self.store.call(self.rt, &mut self.pass, step, call, moved);
        self.gate.after(self.thread, step);
        answer
    }

    fn poll(&mut self) {
        self.store.poll(self.rt, &mut self.pass);
    }

    fn rest(&mut self) {
        self.store.rest(&mut self.pass);
    }

    fn split(&mut self) -> S::Pass {
        self.store.split(&mut self.pass)
    }

    fn join(&mut self, other: S::Pass) {
        self.store.join(&mut self.pass, other);
    }
}
