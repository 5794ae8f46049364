// How a call waits.

use crossbeam_utils::Backoff;
use std::sync::Wait;
use std::thread::Parker;
use std::time::Duration;

/// How long a call sleeps at once, in microseconds.
const SLEEP: u64 = 200;

/// How a call waits for what another thread has to do first: it spins a few times, then yields the processor a few times, and from then on
/// sleeps between its looks.
#[derive(Drop)]
pub(crate) struct Pause {
    backoff: Backoff,
    parker: Parker,
}

impl Pause {
    /// Nothing was waited for yet.
    pub(crate) fn new() -> Pause {
        Pause {
            backoff: Backoff::new(),
            parker: Parker::new(),
        }
    }

    /// Waits once more.
    pub(crate) fn take<R: Wait>(&self, rt: &R) {
        if self.backoff.is_completed() {
            self.parker.park_timeout(rt, Duration::from_micros(SLEEP));
        } else {
            self.backoff.snooze();
        }
    }
}
