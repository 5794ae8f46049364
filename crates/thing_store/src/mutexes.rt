// One mutex.

ghost use Rattle.std.specs.Prelude.{◌≡◌};
ghost use Rattle.rb_model.specs.Acts.{Lock, Unlock};
ghost use Rattle.rb_model.specs.Doing.{doing, said};
ghost use Rattle.rb_model.specs.Things.{Mutex, mutex_gives, owner_behind};
ghost use Rattle.thing_store.specs.Kept.{Acts};
ghost use Rattle.thing_store.specs.Counted.{freed, is_owned};

use rb_model::{Act, Fault, Reply};
use std::alloc::AllocError;

/// Does what a thread asks of a mutex.
pub fn apply(owner: &mut Option<u64>, thread: u64, act: Act) -> Result<Reply, AllocError>
    ensures { Acts thread (Mutex owner.old) (doing act) result (Mutex owner.new) }
{
    match act {
        Act::Lock => Ok(lock(owner, thread)),
        Act::Unlock => Ok(unlock(owner, thread)),
        _ => Ok(Reply::Failed(Fault::NoMethod)),
    }
}

/// Takes a mutex, where nobody owns it.
fn lock(owner: &mut Option<u64>, thread: u64) -> Reply
    ensures reply { said result ≡ mutex_gives thread Lock owner.old }
    ensures owner { owner.new ≡ owner_behind thread Lock owner.old }
{
    match owner {
        Some(_) => Reply::Failed(Fault::LockOwned),
        None => {
            *owner = Some(thread);
            Reply::Done
        }
    }
}

/// Gives a mutex back, where the thread owns it.
fn unlock(owner: &mut Option<u64>, thread: u64) -> Reply
    ensures reply { said result ≡ mutex_gives thread Unlock owner.old }
    ensures owner { owner.new ≡ owner_behind thread Unlock owner.old }
{
    if is_owned_by(owner, thread) {
        *owner = None;
        return Reply::Done;
    }
    Reply::Failed(Fault::UnlockForeign)
}

/// Frees a mutex at the end of a thread, where that owns it.
pub fn free(owner: &mut Option<u64>, thread: u64)
    ensures { owner.new ≡ freed thread owner.old }
{
    if is_owned_by(owner, thread) {
        *owner = None;
    }
}

/// Whether a thread owns a mutex.
fn is_owned_by(owner: &Option<u64>, thread: u64) -> bool
    ensures { result ≡ is_owned thread owner.now }
{
    match owner {
        Some(number) => *number == thread,
        None => false,
    }
}
