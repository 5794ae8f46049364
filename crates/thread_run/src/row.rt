// The first row of slots of a thread, in which its frames lie.

ghost use Rattle.std.specs.Prelude.{◌≡◌, ◌+◌, map, replicate, IfOk};
ghost use Rattle.rb_model.specs.Values.{Nil, plain};
ghost use Rattle.thread_run.specs.Slots.{slots_of_body};

use rb_code::CodeScript;
use rb_model::Value;
use rb_walk::slots::row_behind;
use std::alloc::{AllocError, Global};

/// How many slots it has beside those that its first frame needs: enough for a thousand calls of methods with sixteen locals each. A call that
/// finds too few makes a row of its own.
const SPARE: usize = 16_384;

/// A row for a first frame of this size, behind which so many arguments may wait.
pub(crate) fn row_of(alloc: Global, size: u32, waits: u32) -> Result<Vec<Value>, AllocError>
    ensures { IfOk result (λ row. map plain row.items ≡ replicate (size + waits + 16384) Nil) }
{
    let count = size as usize + waits as usize + SPARE;
    row_behind(alloc, &[], count)
}

/// A row for the body of this number. One that is not there needs none.
pub(crate) fn row_of_body(
    alloc: Global,
    script: &CodeScript,
    number: u32,
) -> Result<Vec<Value>, AllocError>
    ensures { IfOk result (λ row. map plain row.items ≡ replicate (slots_of_body script.now number) Nil) }
{
    match script.bodies.get(number as usize) {
        Some(body) => row_of(alloc, body.size, body.waits),
        None => Ok(Vec::new(alloc)),
    }
}
