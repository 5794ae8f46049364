// Calls with a block: what they come to before an iteration, and iterations over arrays and hashes.

ghost use Rattle.std.specs.Prelude.{◌≡◌, ◌<◌, true, false, [], ◌∷◌, length, map, None, IfSome};
ghost use Rattle.rb_model.specs.Values.{Value as Val, To, plain};
ghost use Rattle.rb_model.specs.Doing.{pair};
ghost use Rattle.rb_machine.specs.Control.{On, Turning, Reading, Walking, EachPair, ForEach};
ghost use Rattle.rb_machine.specs.Turns.{is_below};
ghost use Rattle.rb_builtin.specs.Deeds.{answer_of, thing_of, walk_of};
ghost use Rattle.rb_code.specs.Erase.{erase_block};
ghost use Rattle.rb_code.specs.Resolved.{block_fits};
ghost use Rattle.rb_walk.specs.Outcome.{is_left, value_of, outcome};
ghost use Rattle.rb_walk.specs.Carries.{goes_on};
ghost use Rattle.rb_walk.specs.Walks.{FindsElement, FindsNone, Opens, OpensBy, finishing, second_value, value_on, walking};

use super::Walker;
use rb_builtin::{Builtin, Deed, Pass, deed_of};
use rb_code::CodeBlock;
use rb_model::{Act, Make, Ref, Reply, ThreadStore, Value};
use rb_tree::Span;
use rb_walk::came::{Came, Cut, is_left};
use rb_walk::gathering::{gather, held};
use rb_walk::rounds::{Iterations, count_of, iterations_of};
use rb_walk::slots::open_block;

/// The second value that a walk gives its block: the index, or nil where it gives none.
#[inline(always)]
fn second_value(pass: Pass, index: u32) -> Value
    ensures { plain result ≡ second_value pass index }
{
    match pass {
        Pass::WithIndex => Value::Int(index as i64),
        Pass::Each | Pass::Map | Pass::Select => Value::Nil,
    }
}

impl<'p, O: ThreadStore + Drop> Walker<'p, O> {
    ghost use Rattle.rb_interp.specs.Answers.{ComesAtOnce};
    ghost use Rattle.rb_interp.specs.Calls.{Iterates};
    ghost use Rattle.rb_interp.specs.Walks.{Kept, Unstepped, Untouched, Walked, Walks};

    /// What the call of a method of a value with a block comes to before an iteration.
    pub(super) fn iterations(
        &mut self,
        receiver: &Value,
        method: Option<Builtin>,
        args: &[Value],
        params: usize,
        at: Span,
    ) -> Iterations
        ensures opens { Opens self.old.context.program.now self.old.context.steps method (plain receiver.now) (map plain args.now) params at self.old.left (O.log self.old.store) result self.new.value self.new.leave }
        ensures stays { Untouched self.old self.new }
    {
        let Some(count) = count_of(params) else {
            return Iterations::Done(self.over(Cut::Memory));
        };
        match deed_of(
            self.context.alloc,
            self.context.program,
            receiver,
            method,
            args,
            Some(count),
        ) {
            Ok(deed) => self.opened(deed, at),
            Err(_) => Iterations::Done(self.over(Cut::Memory)),
        }
    }

    /// What a call with a block comes to that is answered so.
    fn opened(&mut self, deed: Deed, at: Span) -> Iterations
        ensures opens { OpensBy (answer_of deed) self.old.context.steps at self.old.left (O.log self.old.store) result self.new.value self.new.leave }
        ensures stays { Untouched self.old self.new }
    {
        match deed {
            Deed::Give(value) => Iterations::Done(self.give(value)),
            Deed::Raise(fault) => Iterations::Done(self.raise(fault, at)),
            Deed::Walk(turns) => iterations_of(turns),
            Deed::WalkOver(array, pass) => Iterations::Elements(array, pass),
            Deed::WalkPairs(hash) => Iterations::Pairs(hash),
            Deed::Synchronize(mutex) => Iterations::Owned(mutex),
            // No method with a block is answered so.
            Deed::Ask(_, _, _) | Deed::Read(_, _) | Deed::Inspect(_) => {
                Iterations::Done(self.over(Cut::Memory))
            }
        }
    }

    /// The value that an iteration gave which goes on: nil where `next` left it.
    #[inline(always)]
    fn value_on(&mut self, came: Came) -> Value
        ensures value { plain result ≡ value_on (outcome came self.old.value self.old.leave) }
        ensures stays { Untouched self.old self.new }
    {
        if is_left(came) {
            return Value::Nil;
        }
        self.take(came)
    }

    /// An iteration of a block that is given these two values. It begins with a step, where one is left.
    #[cycle(walk)]
    #[inline(always)]
    pub(super) fn iteration(
        &mut self,
        first: Value,
        second: Value,
        block: &'p CodeBlock,
        depth: u32,
        room: &mut [Value],
    ) -> Came
        ensures counted { goes_on (outcome result self.new.value self.new.leave) ≡ true → self.new.left < self.old.left }
        ensures stays { Walked self.old self.new room.old room.new }
        ensures kept { Kept (λ S. block_fits S block.now) self.old room.old room.new }
        ensures came { Iterates block.now (plain first ∷ plain second ∷ []) self.old self.new room.old room.new depth result }
    {
        if self.left == 0 {
            return self.over(Cut::Steps);
        }
        self.left -= 1;
        let from = block.from as usize;
        let count = block.count as usize;
        if room.len() < from || room.len() - from < count {
            return self.over(Cut::Memory);
        }
        let takes = block.params.len();
        open_block(room, from, count, takes, first, second);
        self.body(block.body.as_slice(), depth, room)
    }

    /// Whether the value that came is an integer above a place.
    #[inline(always)]
    fn is_above(&self, came: Came, place: u32) -> bool
        ensures { is_left came ≡ false → result ≡ is_below place (value_of came self.now.value) }
    {
        match came {
            Came::Int(n) => n > place as i64,
            Came::Other => match self.value {
                Value::Int(n) => n > place as i64,
                _ => false,
            },
            _ => false,
        }
    }

    /// The element of an array at the next place of a walk; none behind the last. The length is asked before.
    #[inline(always)]
    fn next_element(&mut self, array: Ref, next: u32, at: Span) -> Option<Came>
        ensures some { IfSome result (λ came. FindsElement self.old.context.steps array next at self.old.left (O.log self.old.store) (O.log self.new.store) (O.private self.old.store) (O.private self.new.store) came (outcome came self.new.value self.new.leave)) }
        ensures none { result ≡ None → FindsNone self.old.context.steps array next at self.old.left (O.log self.old.store) (O.log self.new.store) (O.private self.old.store) (O.private self.new.store) }
        ensures stays { Unstepped self.old self.new }
    {
        let length = self.ask(array, Act::Len, at);
        if is_left(length) {
            return Some(length);
        }
        if !self.is_above(length, next) {
            return None;
        }
        Some(self.element(array, next as i64, at))
    }

    /// What a walk over an array answers in the end: the array, or what it made.
    fn finish(&mut self, array: Ref, pass: Pass, made: Vec<Value>) -> Came
        ensures stays { Unstepped self.old self.new }
        ensures log { O.log self.new.store ≡ O.log self.old.store }
        ensures came { (last : Val) → ComesAtOnce (finishing array (walking pass (map plain made.items) last)) self.old self.new result }
    {
        match pass {
            Pass::Each | Pass::WithIndex => self.give(Value::Ref(array)),
            Pass::Map | Pass::Select => self.make(Make::Elements(made)),
        }
    }

    /// The iterations of a block with the elements of an array, and then what they make.
    #[cycle(walk)]
    #[inline(never)]
    pub(super) fn walk_elements(
        &mut self,
        array: Ref,
        pass: Pass,
        block: &'p CodeBlock,
        at: Span,
        depth: u32,
        room: &mut [Value],
    ) -> Came
        ensures stays { Walked self.old self.new room.old room.new }
        ensures came { Walks (λ S. block_fits S block.now) (λ S k sc d n. On (Turning (Walking (thing_of array) 0 (walk_of pass) at) (erase_block block.now)) k sc d n) self.old self.new room.old room.new depth result }
    {
        let mut made = Vec::new(self.context.alloc);
        let mut next = 0;
        'elements: loop {
            let Some(found) = self.next_element(array, next, at) else {
                return self.finish(array, pass, made);
            };
            if is_left(found) {
                return found;
            }
            let element = self.take(found);
            let Ok(last) = held(pass, &element) else {
                return self.over(Cut::Memory);
            };
            let came = self.iteration(element, second_value(pass, next), block, depth, room);
            if !self.goes_on(came) {
                return self.out_of_loop(came);
            }
            let given = self.value_on(came);
            if let Err(_) = gather(pass, &mut made, given, last) {
                return self.over(Cut::Memory);
            }
            // Never, as no array has so many elements.
            if next == u32::MAX {
                return self.over(Cut::Memory);
            }
            next += 1;
        }
    }

    /// The iterations of a block with pairs, and then the hash that had them.
    #[cycle(walk)]
    #[inline(never)]
    pub(super) fn pair_turns(
        &mut self,
        pairs: Vec<(Value, Value)>,
        hash: Ref,
        block: &'p CodeBlock,
        depth: u32,
        room: &mut [Value],
    ) -> Came
        ensures stays { Walked self.old self.new room.old room.new }
        ensures came { Walks (λ S. block_fits S block.now) (λ S k sc d n. On (Turning (EachPair (map pair pairs.items) (To (thing_of hash))) (erase_block block.now)) k sc d n) self.old self.new room.old room.new depth result }
    {
        'pairs: for (key, value) in pairs {
            let came = self.iteration(key, value, block, depth, room);
            if !self.goes_on(came) {
                return self.out_of_loop(came);
            }
        }
        self.give(Value::Ref(hash))
    }

    /// The iterations of a block with the pairs of one copy of a hash.
    #[cycle(walk)]
    pub(super) fn walk_pairs(
        &mut self,
        hash: Ref,
        block: &'p CodeBlock,
        at: Span,
        depth: u32,
        room: &mut [Value],
    ) -> Came
        ensures stays { Walked self.old self.new room.old room.new }
        ensures came { Walks (λ S. block_fits S block.now) (λ S k sc d n. On (Reading (thing_of hash) (ForEach (To (thing_of hash)) (erase_block block.now)) at) k sc d n) self.old self.new room.old room.new depth result }
    {
        match self.copied(hash) {
            Ok(Reply::Pairs(pairs)) => self.pair_turns(pairs, hash, block, depth, room),
            // Never, as a hash answers with its pairs.
            Ok(_) => self.over(Cut::Memory),
            Err(came) => came,
        }
    }
}
