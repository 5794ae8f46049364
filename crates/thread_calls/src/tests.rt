// Threads that really run.

ghost use Rattle.std.specs.Prelude.{◌≡◌, ◌<◌, ◌*◌, ◌^◌};
ghost use Rattle.std.specs.Thread.{IsSync};

use crate::{Due, start};
use std::sync::Wait;
use std::test::Fail;
use std::thread;
use std::thread::{Promise, Threads};

/// The promise of the double of a number.
#[derive(Drop)]
struct Double {
    of: u64,
}

impl Promise<u64> for Double {
    ghost kept_by = { λ q n. n ≡ 2 * q.of };
}

/// The double of a number, by a thread of its own.
fn doubled<R: Threads + Wait + Sync>(rt: &R, number: u64) -> u64
    requires { number < 2 ^ 63 }
    ensures { result ≡ 2 * number }
{
    thread::scope(
        thread::scope_env(),
        rt,
        move |scope| -> u64
            requires { IsSync R.row × (number < 2 ^ 63) }
            ensures { result ≡ 2 * number }
        {
            let promise = Double { of: number };
            let child = start(
                scope,
                promise,
                (),
                number,
                move |_again: (), n: u64| -> u64
                    requires { n < 2 ^ 63 }
                    ensures { result ≡ 2 * n }
                { 2 * n },
            );
            child.gather(rt)
        },
    )
}

#[test]
fn a_thread_gives_back_what_was_promised(rt: HostRuntime) -> Result<(), Fail> {
    let twice = doubled(&rt, 21);
    assert_eq!(rt; twice, 42);
    Ok(())
}
