// The iterations of a block.

ghost use Rattle.std.specs.Prelude.{◌≡◌, ◌+ℤ◌, pos, IfSome, IfOk, IfErr};
ghost use Rattle.rb_model.specs.Values.{Int};
ghost use Rattle.rb_machine.specs.Control.{Counting};
ghost use Rattle.rb_builtin.specs.Deeds.{turns_of};
ghost use Rattle.rb_walk.specs.Answers.{IsDone};
ghost use Rattle.rb_walk.specs.Walks.{Counts};

use crate::came::Came;
use rb_builtin::{Loop, Pass};
use rb_model::Ref;

/// The iterations of a block: the integers from the first up to the last, and the answer behind them.
#[derive(Clone, Copy)]
pub struct Rounds {
    pub first: i64,
    pub last: i64,
    pub answer: i64,
}

/// What a call with a block comes to before an iteration.
#[derive(Clone, Copy)]
pub enum Iterations {
    Counting(Rounds),
    /// The elements of an array.
    Elements(Ref, Pass),
    /// The pairs of a hash.
    Pairs(Ref),
    /// One, while a mutex is owned.
    Owned(Ref),
    /// There are none: the call is done.
    Done(Came),
}

/// The iterations of a loop, or its answer where it makes none.
fn rounds_of(turns: Loop) -> Result<Rounds, i64>
    ensures some { IfOk result (λ r. turns_of turns ≡ Counting r.first (r.last +ℤ pos 1) (Int r.answer)) }
    ensures none { IfErr result (λ n. IsDone n (turns_of turns)) }
{
    match turns {
        Loop::Times(count) => {
            if count <= 0 {
                return Err(count);
            }
            Ok(Rounds {
                first: 0,
                last: count - 1,
                answer: count,
            })
        }
        Loop::Upto(first, last) => Ok(Rounds {
            first,
            last,
            answer: first,
        }),
    }
}

/// A count in 32 bits; none where it has more.
pub fn count_of(count: usize) -> Option<u32>
    ensures { IfSome result (λ n. n ≡ count) }
{
    if count > 0xffff_ffff {
        return None;
    }
    Some(count as u32)
}

/// The iterations of a loop over integers.
pub fn iterations_of(turns: Loop) -> Iterations
    ensures { Counts (turns_of turns) result }
{
    match rounds_of(turns) {
        Ok(rounds) => Iterations::Counting(rounds),
        Err(answer) => Iterations::Done(Came::Int(answer)),
    }
}
