// What an act makes of the owner of a mutex.

ghost use Rattle.std.specs.Prelude.{◌≡◌, ◌<◌, ◌⊎◌, true, Some, None, IfSome};
ghost use Rattle.rb_model.specs.Acts.{Lock, Unlock};
ghost use Rattle.rb_model.specs.Doing.{doing};
ghost use Rattle.rb_model.specs.Things.{Mutex};
ghost use Rattle.rb_shared.specs.Step.{waits_on};
ghost use Rattle.heap_core.specs.Owning.{IsDeed, IsOwningAct};
ghost use Rattle.heap_core.specs.Owning as owning;

use rb_model::{Act, Fault, Reply};

/// The owner of a mutex behind an act, and the reply to it.
#[derive(Drop)]
pub struct Deed {
    pub owner: Option<u64>,
    pub reply: Reply,
}

/// What a thread takes a mutex to, where it need not wait.
fn locked(thread: u64, owner: Option<u64>) -> Option<Deed>
    ensures deed { IfSome result (λ d. IsDeed thread Lock owner d) }
    ensures few { IfSome result (λ d. IfSome d.owner (λ t. (t ≡ thread) ⊎ (owner ≡ Some t))) }
    ensures waits { result ≡ None → waits_on thread (Mutex owner) Lock ≡ true }
{
    match owner {
        None => Some(Deed {
            owner: Some(thread),
            reply: Reply::Done,
        }),
        Some(other) if other == thread => Some(Deed {
            owner,
            reply: Reply::Failed(Fault::LockOwned),
        }),
        Some(_) => None,
    }
}

/// What a thread gives a mutex back to.
fn unlocked(thread: u64, owner: Option<u64>) -> Deed
    ensures deed { IsDeed thread Unlock owner result }
    ensures few { IfSome result.owner (λ t. owner ≡ Some t) }
{
    match owner {
        Some(other) if other == thread => Deed {
            owner: None,
            reply: Reply::Done,
        },
        _ => Deed {
            owner,
            reply: Reply::Failed(Fault::UnlockForeign),
        },
    }
}

/// What an act of a thread does to a mutex of this owner. None where it has to wait.
pub(crate) fn deed_of(thread: u64, act: &Act, owner: Option<u64>) -> Option<Deed>
    requires owning { IsOwningAct (doing act.now) }
    ensures deed { IfSome result (λ d. IsDeed thread (doing act.now) owner d) }
    ensures few { IfSome result (λ d. IfSome d.owner (λ t. (t ≡ thread) ⊎ (owner ≡ Some t))) }
    ensures waits { result ≡ None → waits_on thread (Mutex owner) (doing act.now) ≡ true }
{
    match act {
        Act::Lock => locked(thread, owner),
        Act::Unlock => Some(unlocked(thread, owner)),
        _ => unreachable!(),
    }
}

/// The word that names an owner.
pub fn owner_word(owner: Option<u64>) -> u64
    requires few { IfSome owner (λ t. t < 18446744073709551615) }
    ensures { result ≡ owning.owner_word owner }
{
    match owner {
        None => 0,
        Some(thread) => thread + 1,
    }
}
