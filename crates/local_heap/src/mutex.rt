// One mutex.

ghost use Rattle.std.specs.Prelude.{◌≡◌};
ghost use Rattle.rb_model.specs.Acts.{Lock, Unlock};
ghost use Rattle.rb_model.specs.Doing.{doing, said};
ghost use Rattle.rb_model.specs.Things.{mutex_gives, owner_behind};

use rb_model::{Act, Fault, Reply};

/// Does what a thread asks of a mutex with this owner. Never waits: a mutex that any thread owns is not locked again.
pub fn apply(owner: &mut Option<u64>, thread: u64, act: Act) -> Reply
    ensures reply { said result ≡ mutex_gives thread (doing act) owner.old }
    ensures owner { owner.new ≡ owner_behind thread (doing act) owner.old }
{
    match act {
        Act::Lock => lock(owner, thread),
        Act::Unlock => unlock(owner, thread),
        _ => Reply::Failed(Fault::NoMethod),
    }
}

/// Takes a mutex, where nobody owns it.
fn lock(owner: &mut Option<u64>, thread: u64) -> Reply
    ensures reply { said result ≡ mutex_gives thread Lock owner.old }
    ensures owner { owner.new ≡ owner_behind thread Lock owner.old }
{
    match owner {
        Some(_) => Reply::Failed(Fault::LockOwned),
        None => {
            *owner = Some(thread);
            Reply::Done
        }
    }
}

/// Gives a mutex back, where the thread owns it.
fn unlock(owner: &mut Option<u64>, thread: u64) -> Reply
    ensures reply { said result ≡ mutex_gives thread Unlock owner.old }
    ensures owner { owner.new ≡ owner_behind thread Unlock owner.old }
{
    match owner {
        Some(number) => {
            if *number == thread {
                *owner = None;
                Reply::Done
            } else {
                Reply::Failed(Fault::UnlockForeign)
            }
        }
        None => Reply::Failed(Fault::UnlockForeign),
    }
}
