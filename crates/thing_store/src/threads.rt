// One thread, and what is counted of all.

ghost use Rattle.std.specs.Prelude.{◌≡◌, ◌<◌, ◌^◌, ◌+◌, ◌++◌, ◌∷◌, [], slice_get, Some, IfOk, OnOk, vec_len};
ghost use Rattle.std.specs.Vec.{vec_capacity};
ghost use Rattle.rb_model.specs.Acts.{Join};
ghost use Rattle.rb_model.specs.Doing.{doing, state_of};
ghost use Rattle.rb_model.specs.Ends.{over};
ghost use Rattle.rb_model.specs.Things.{Thread};
ghost use Rattle.thing_store.specs.Kept.{Acts};
ghost use Rattle.thing_store.specs.Counted.{generation_in, is_full_by, places_of, row_of, with_end, gathers as gathers_by};

use crate::copies::copied_end;
use rb_model::{Act, End, Fault, Reply, ThreadState};
use std::alloc::{AllocError, Global};

/// Does what a thread asks of another, or of itself.
pub fn apply(state: &mut ThreadState, thread: u64, act: Act) -> Result<Reply, AllocError>
    ensures { Acts thread (Thread (state_of state.old)) (doing act) result (Thread (state_of state.new)) }
{
    match act {
        Act::Join => join(state, thread),
        _ => Ok(Reply::Failed(Fault::NoMethod)),
    }
}

/// Tells how a thread ended. Its maker has then gathered it.
fn join(state: &mut ThreadState, thread: u64) -> Result<Reply, AllocError>
    ensures { Acts thread (Thread (state_of state.old)) Join result (Thread (state_of state.new)) }
{
    let Some(how) = &state.end else {
        return Ok(Reply::Failed(Fault::JoinSelf));
    };
    if state.number == thread {
        return Ok(Reply::Failed(Fault::JoinSelf));
    }
    let copy = copied_end(how)?;
    if state.maker == thread {
        state.gathered = true;
    }
    Ok(Reply::Ended(copy))
}

/// Whether a Join of a thread gathers one that was not gathered.
pub fn gathers(state: &ThreadState, thread: u64) -> bool
    ensures { result ≡ gathers_by thread (Some (Thread (state_of state.now))) Join }
{
    state.end.is_some() && state.number != thread && state.maker == thread && !state.gathered
}

/// Notes how a thread ended, where the state is its own.
pub fn end(state: &mut ThreadState, thread: u64, how: End)
    ensures { Thread (state_of state.new) ≡ with_end thread (over how) (Thread (state_of state.old)) }
{
    if state.number == thread {
        state.end = Some(how);
    }
}

/// Of one thread: how many threads it stands behind, and where its thing stands.
#[derive(Clone, Copy)]
pub struct Row {
    pub generation: u64,
    pub place: usize,
}

/// The threads by their numbers, and how many were not gathered yet.
#[derive(Drop)]
pub struct Started {
    pub rows: Vec<Row>,
    pub ungathered: u64,
}

impl Started {
    /// The main thread alone, which has no thing.
    pub fn new(alloc: Global) -> Result<Started, AllocError>
        ensures rows { IfOk result (λ started. started.rows.items ≡ row_of 0 0 ∷ []) }
        ensures ungathered { IfOk result (λ started. started.ungathered ≡ 0) }
    {
        let mut rows = Vec::new(alloc);
        rows.push(Row {
            generation: 0,
            place: 0,
        })?;
        Ok(Started {
            rows,
            ungathered: 0,
        })
    }

    /// Where the thing of a thread stands. The place of the main thread is that of no thread.
    pub fn place(&self, thread: u64) -> Option<usize>
        ensures { result ≡ slice_get (places_of self.now.rows.items) thread }
    {
        match self.rows.get(thread as usize) {
            Some(row) => Some(row.place),
            None => None,
        }
    }

    /// How many threads a thread stands behind.
    pub fn generation(&self, thread: u64) -> u64
        ensures { result ≡ generation_in self.now.rows.items thread }
    {
        match self.rows.get(thread as usize) {
            Some(row) => row.generation,
            None => 0,
        }
    }

    /// Whether a thread may start no other, over so many slots.
    pub fn is_full(&self, slots: u64, thread: u64) -> bool
        ensures { result ≡ is_full_by slots self.now.rows.items self.now.ungathered thread }
    {
        let most = slots.saturating_sub(1);
        most <= self.ungathered || most <= self.generation(thread)
    }

    /// Takes room for one thread more.
    pub fn reserve(&mut self) -> Result<(), AllocError>
        ensures room { OnOk result (vec_len self.new.rows < vec_capacity self.new.rows) }
        ensures rows { self.new.rows.items ≡ self.old.rows.items }
        ensures ungathered { self.new.ungathered ≡ self.old.ungathered }
    {
        self.rows.reserve(1)
    }

    /// Counts a thread that another starts, with its thing at a place.
    pub fn add(&mut self, maker: u64, place: usize)
        requires room { vec_len self.old.rows < vec_capacity self.old.rows }
        requires generation { generation_in self.old.rows.items maker + 1 < 2 ^ 64 }
        requires ungathered { self.old.ungathered + 1 < 2 ^ 64 }
        ensures rows { self.new.rows.items ≡ self.old.rows.items ++ row_of (generation_in self.old.rows.items maker + 1) place ∷ [] }
        ensures ungathered { self.new.ungathered ≡ self.old.ungathered + 1 }
    {
        let generation = self.generation(maker) + 1;
        self.rows.push_reserved(Row { generation, place });
        self.ungathered += 1;
    }
}
