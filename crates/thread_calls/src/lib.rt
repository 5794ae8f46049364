//! Threads that are started in a scope with a promise about what they give back, and gathered. Where no thread can be made, the caller does
//! the work itself.
#![tactic(auto)]

ghost use Rattle.std.specs.Prelude.{◌≡◌, MatchResult};

#[cfg(test)]
mod tests;

use std::marker::Model;
use std::snapshot::Snapshot;
use std::thread::{Promise, PromisedHandle, Scope, Threads};

/// A thread that was started, or what its body gave where none could be made. Contracts see it as its promise.
#[derive(Drop)]
pub struct Child<P, Q: Promise<P>> {
    state: Result<PromisedHandle<P, Q>, P>,
    promise: Snapshot<Q>,
}

impl<P, Q: Promise<P>> Model for Child<P, Q> {
    ghost Value = { Q };

    ghost view = { λ c. c.promise.value };

    ghost invariant = { λ c. MatchResult c.state (λ h. h.promise ≡ c.promise.value) (λ p. Q.kept_by c.promise.value p) };
}

/// Runs the body in a thread of the scope, or at once where no thread can be made. `again` is handed to the body: what it needs to start threads
/// in its turn.
pub fn start<
    's,
    'e,
    Z: Send + Drop + 's,
    P: Send + Drop + 's,
    F: FnOnce(Z, P) -> P + Send + 's,
    Q: Promise<P> + Drop,
>(scope: &'s Scope<'s, &'e ()>, promise: Q, again: Z, pass: P, body: F) -> Child<P, Q>
    requires may_go { F.pre body again pass }
    requires keeps { (p : P) → F.post body again pass p → Q.kept_by promise p }
    ensures promises { result ≡ promise }
{
    let kept = Snapshot::of(&promise);
    let state = match scope.spawn_with(
        promise,
        move || -> P
            requires { F.pre body again pass }
            ensures { F.post body again pass result }
        { body(again, pass) },
    ) {
        Ok(handle) => Ok(handle),
        Err(refused) => Err((refused.value)()),
    };
    Child {
        state,
        promise: kept,
    }
}

/// Waits for the thread, and gives what its body gave.
pub fn gather_child<P, Q: Promise<P>, R: Threads>(rt: &R, child: Child<P, Q>) -> P
    ensures kept { Q.kept_by child result }
{
    let Child { state, promise: _ } = child;
    match state {
        Ok(handle) => handle.join(rt),
        Err(pass) => pass,
    }
}

/// What is due from a thread that was started. By this trait one who starts threads through a closure need not name their promise.
pub trait Due<P> {
    /// What is promised of it.
    ghost keeps: { Self → P → Type 0 };

    /// Waits for the thread, and gives what its body gave.
    fn gather<R: Threads>(self, rt: &R) -> P
        ensures kept { keeps self result };
}

impl<P, Q: Promise<P>> Due<P> for Child<P, Q> {
    ghost keeps = { λ c p. Q.kept_by c p };

    fn gather<R: Threads>(self, rt: &R) -> P {
        gather_child(rt, self)
    }
}
