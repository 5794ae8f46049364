// The events of a text and of the bodies of the threads that it starts.

ghost use Rattle.std.specs.Prelude.{◌≡◌, ℕ, List, map, IfOk};
ghost use Rattle.rb_checker.specs.declared.event.Event.{Event as Seen};
ghost use Rattle.rb_checker.specs.Events.{bodies_from, block_part, events_in};
ghost use Rattle.rb_checker.specs.Bodies.{kept_at, Tells};

use crate::event::Event;
use crate::gather::{add_all, add_params};
use rb_tree::{Block, Node, Param};
use std::alloc::{AllocError, Global};

/// The events of the bodies of threads. Of so many bodies those of the last ones are kept, from the last on, since a body
/// may start only threads of later ones.
#[derive(Drop)]
pub(crate) struct Bodies {
    total: usize,
    kept: Vec<Vec<Event>>,
}

impl Bodies {
    /// Gathers the events of the bodies of a script's threads.
    pub(crate) fn new(alloc: Global, blocks: &[Block]) -> Result<Bodies, AllocError>
        ensures { IfOk result (λ it. Tells it.total (map (λ e. e.items) it.kept.items) (bodies_from 0 blocks.now)) }
    {
        let mut left = blocks.len();
        let mut bodies = Bodies {
            total: left,
            kept: Vec::new(alloc),
        };
        'backwards: while left > 0 {
            left -= 1;
            let events = bodies.events_of_block(alloc, &blocks[left])?;
            bodies.kept.push(events)?;
        }
        Ok(bodies)
    }

    /// The events of parameters and of the statements behind them, with those of the threads that they start.
    pub(crate) fn events(
        &self,
        alloc: Global,
        params: &[Param],
        body: &[Node],
    ) -> Result<Vec<Event>, AllocError>
        ensures { IfOk result (λ v. (b : ℕ → List Seen) → Tells self.now.total (map (λ e. e.items) self.now.kept.items) b → v.items ≡ events_in b params.now body.now) }
    {
        let mut events = Vec::new(alloc);
        add_params(&mut events, params)?;
        add_all(&mut events, self, body)?;
        Ok(events)
    }

    /// The events of a body, none where they are not kept.
    pub(crate) fn of(&self, number: u32) -> &[Event]
        ensures { result.now ≡ kept_at self.now.total (map (λ e. e.items) self.now.kept.items) number }
    {
        let number = number as usize;
        if number >= self.total {
            return &[];
        }
        match self.kept.get(self.total - (number + 1)) {
            Some(events) => events.as_slice(),
            None => &[],
        }
    }

    fn events_of_block(&self, alloc: Global, block: &Block) -> Result<Vec<Event>, AllocError>
        ensures { IfOk result (λ v. (b : ℕ → List Seen) → Tells self.now.total (map (λ e. e.items) self.now.kept.items) b → v.items ≡ (block_part b block.now).events) }
    {
        self.events(alloc, block.params.as_slice(), block.body.as_slice())
    }
}
