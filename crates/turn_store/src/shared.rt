// The store as threads call it, and as it is closed.

use crate::close::TurnFront;
use crate::store::{TurnPass, TurnStore};
use rb_edge::Sink;
use rb_model::{Call, Moved};
use rb_shared::{Answer, Closed, ClosingStore, Quick, SharedStore};
use std::marker::Brand;
use std::sync::Wait;

impl<K: Sink + Send> SharedStore for TurnStore<K> {
    ghost use Rattle.turn_store.specs.Turns.{Never};
    ghost use Rattle.turn_store.specs.Passes.{view_of};

    type Pass = TurnPass;

    ghost id = { λ s. s.table.shared.table_id };

    ghost of = { λ p. p.badge.table_id };

    ghost view = { λ p. view_of p.badge.views };

    ghost overflows = { λ _. Never };

    fn poll<R: Wait>(&self, rt: &R, pass: &mut TurnPass) {
        let _ = rt;
        self.mark_polled(pass);
    }

    fn rest(&self, pass: &mut TurnPass) {
        self.mark_rested(pass);
    }

    fn quick(&self, pass: &mut TurnPass, step: u64, call: &Call) -> Quick {
        self.note::<Brand>(pass, step, call);
        Quick::NotQuick
    }

    fn call<R: Wait>(
        &self,
        rt: &R,
        pass: &mut TurnPass,
        step: u64,
        call: &Call,
        moved: &mut Moved,
    ) -> Answer {
        self.make(rt, pass, step, call, moved)
    }

    fn split(&self, pass: &mut TurnPass) -> TurnPass {
        self.split_off(pass)
    }

    fn join(&self, pass: &mut TurnPass, other: TurnPass) {
        self.take_in(pass, other);
    }
}

impl<K: Sink + Send + Drop + 'static> ClosingStore for TurnStore<K> {
    ghost use Rattle.turn_store.specs.Passes.{history_in};

    type Front = TurnFront;

    type Out = K;

    ghost history = { λ f. history_in f.badge.views };

    ghost slots = { λ s. s.table.shared.key.slots };

    ghost told_before = { λ s. K.told s.table.shared.key.out.value };

    ghost faults_before = { λ s. K.faults s.table.shared.key.out.value };

    fn close(self, pass: TurnPass) -> Closed<TurnFront, K> {
        self.finish(pass)
    }
}
