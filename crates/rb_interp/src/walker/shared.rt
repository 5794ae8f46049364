// What is shared: things that are not the thread's own, global variables, and threads that are started. The ways here are said to be cold, so that what
// is private costs less beside them.

ghost use Rattle.std.specs.Prelude.{◌≡◌, [], map, Some, None, IfErr, IfOk};
ghost use Rattle.rb_model.specs.Values.{plain};
ghost use Rattle.rb_model.specs.Doing.{doing, said};
ghost use Rattle.rb_model.specs.Ends.{over};
ghost use Rattle.rb_model.specs.Immediates.{reference};
ghost use Rattle.rb_model.specs.Private.{held};
ghost use Rattle.rb_machine.specs.Control.{On, Passing, Threading};
ghost use Rattle.rb_machine.specs.Move.{Ask, Begin};
ghost use Rattle.rb_builtin.specs.Deeds.{thing_of};
ghost use Rattle.rb_code.specs.Erase.{erase, erase_block};
ghost use Rattle.rb_code.specs.Resolved.{block_fits};
ghost use Rattle.rb_walk.specs.Outcome.{IsOver, Over, Settles, fetched, outcome};
ghost use Rattle.rb_walk.specs.Carries.{me_of};
ghost use Rattle.rb_walk.specs.Objects.{Asks};
ghost use Rattle.rb_walk.specs.Owning.{GivesBack, Unlocks, locking};
ghost use Rattle.rb_walk.specs.Shared.{Replied, Starts, Unreplied, capturing, outcome_by};

use super::Walker;
use rb_code::{Code, CodeBlock};
use rb_model::{Act, End, Fault, Ref, Reply, Served, ThreadStore, Value};
use rb_tree::Span;
use rb_walk::came::{Came, Cut, Leave, is_left};
use rb_walk::shared::{given_to, globals};
use rb_walk::slots::{open_block, passed};
use std::mem;

impl<'p, O: ThreadStore + Drop> Walker<'p, O> {
    ghost use Rattle.rb_interp.specs.Answers.{AsksTo};
    ghost use Rattle.rb_interp.specs.Calls.{Owns};
    ghost use Rattle.rb_interp.specs.Walks.{Kept, Unstepped, Untouched, Walked, Walks, begun, node_fits, nodes_fit};

    /// The thread ends so.
    fn end(&mut self, how: End) -> Came
        ensures gives { outcome result self.new.value self.new.leave ≡ Over (over how) }
        ensures stays { Untouched self.old self.new }
    {
        self.leave = Leave::Over(how);
        Came::Left
    }

    /// What the end of another thread gives: its value, or no value, since the thread ends so as well.
    fn took_over(&mut self, how: End, at: Span) -> Result<Value, Came>
        ensures gives { fetched result self.new.value self.new.leave ≡ outcome_by (said (Reply.Ended how)) at }
        ensures over { IfErr result (λ came. IsOver (outcome came self.new.value self.new.leave)) }
        ensures stays { Untouched self.old self.new }
    {
        match how {
            End::Value(value) => Ok(value),
            how => Err(self.end(how)),
        }
    }

    /// What a reply gives. Where it gives no value the thread ends.
    fn taken(&mut self, reply: Reply, at: Span) -> Result<Value, Came>
        ensures gives { fetched result self.new.value self.new.leave ≡ outcome_by (said reply) at }
        ensures over { IfErr result (λ came. IsOver (outcome came self.new.value self.new.leave)) }
        ensures stays { Untouched self.old self.new }
    {
        match reply {
            Reply::Value(value) => Ok(value),
            Reply::Elements(_) | Reply::Pairs(_) | Reply::Done => Ok(Value::Nil),
            Reply::Started(_, thread) => Ok(Value::Ref(thread)),
            Reply::Ended(how) => self.took_over(how, at),
            Reply::Failed(fault) => Err(self.raise(fault, at)),
        }
    }

    /// What a thing replies that is not the thread's own. Where no reply comes the thread ends.
    #[cold]
    #[inline(never)]
    pub(super) fn reply_of(&mut self, thing: Ref, act: Act) -> Result<Reply, Came>
        requires shared { held (O.private self.old.store) thing.id ≡ None }
        ensures stays { Unstepped self.old self.new }
        ensures over { IfErr result (λ came. IsOver (outcome came self.new.value self.new.leave)) }
        ensures replies { IfOk result (λ reply. Replied self.old.context.steps (Ask (reference thing) (doing act)) (said reply) self.old.left (O.log self.old.store) (O.log self.new.store) (O.private self.old.store) (O.private self.new.store)) }
        ensures ends { IfErr result (λ came. Unreplied self.old.context.steps (Ask (reference thing) (doing act)) self.old.left (O.log self.old.store) (O.log self.new.store) (O.private self.old.store) (O.private self.new.store) (outcome came self.new.value self.new.leave)) }
    {
        match self.store.ask(self.context.steps - self.left, thing, act) {
            Served::Done(reply) => Ok(reply),
            Served::Full { used, asked } => Err(self.end(End::Full { used, asked })),
            Served::Memory => Err(self.over(Cut::Memory)),
        }
    }

    /// Asks a thing that is not the thread's own for a value, which the walker does not keep.
    #[cold]
    #[inline(never)]
    pub(super) fn fetch_shared(&mut self, thing: Ref, act: Act, at: Span) -> Result<Value, Came>
        requires shared { held (O.private self.old.store) thing.id ≡ None }
        ensures stays { Unstepped self.old self.new }
        ensures over { IfErr result (λ came. IsOver (outcome came self.new.value self.new.leave)) }
        ensures came { Asks self.old.context.steps (me_of (Some thing)) (doing act) at self.old.left (O.log self.old.store) (O.log self.new.store) (O.private self.old.store) (O.private self.new.store) (fetched result self.new.value self.new.leave) }
    {
        match self.reply_of(thing, act) {
            Ok(reply) => self.taken(reply, at),
            Err(came) => Err(came),
        }
    }

    /// Asks something of a thing that is not the thread's own.
    #[cold]
    #[inline(never)]
    pub(super) fn ask_shared(&mut self, thing: Ref, act: Act, at: Span) -> Came
        requires shared { held (O.private self.old.store) thing.id ≡ None }
        ensures stays { Unstepped self.old self.new }
        ensures came { AsksTo (me_of (Some thing)) (doing act) at self.old self.new result }
    {
        match self.fetch_shared(thing, act, at) {
            Ok(value) => self.hand(value),
            Err(came) => came,
        }
    }

    /// A global variable, or an assignment to one, whose step is counted.
    #[cycle(walk)]
    #[cold]
    #[inline(never)]
    pub(super) fn begin_global(&mut self, code: &'p Code, depth: u32, room: &mut [Value]) -> Came
        ensures stays { Walked self.old self.new room.old room.new }
        ensures came { Walks (node_fits code.now) (begun code.now) self.old self.new room.old room.new depth result }
    {
        match code {
            Code::Global(name, at) => self.ask_apart(globals(), Act::GetField(*name), *at),
            Code::SetGlobal(name, value, at) => {
                self.set_field(Some(globals()), *name, value.get(), *at, depth, room)
            }
            Code::UpdateGlobal(name, op, value, at) => {
                self.update_field(Some(globals()), *name, *op, value.get(), *at, depth, room)
            }
            _ => self.over(Cut::Memory),
        }
    }

    /// The start of a thread, whose step is counted: its arguments first.
    #[cycle(walk)]
    #[cold]
    #[inline(never)]
    pub(super) fn begin_thread(
        &mut self,
        args: &'p [Code],
        body: u32,
        slots: &'p [u32],
        at: Span,
        depth: u32,
        room: &mut [Value],
    ) -> Came
        ensures stays { Walked self.old self.new room.old room.new }
        ensures came { Walks (capturing body slots.now (nodes_fit args.now)) (λ S k sc d n. On (Passing (Threading body) [] (map erase args.now) at) k sc d n) self.old self.new room.old room.new depth result }
    {
        let before = self.base;
        let came = self.arguments(args, depth, room);
        self.base = before;
        if is_left(came) {
            return came;
        }
        self.start(passed(room, before, args.len()), body, slots, at, room)
    }

    /// Starts a thread with these arguments.
    fn start(&mut self, args: &[Value], body: u32, slots: &[u32], at: Span, room: &[Value]) -> Came
        ensures stays { Unstepped self.old self.new }
        ensures came { Starts self.old.context.program.now self.old.context.steps (me_of self.old.context.me) body slots.now (map plain args.now) at self.old.left room.now (O.log self.old.store) (O.log self.new.store) (O.private self.old.store) (O.private self.new.store) (outcome result self.new.value self.new.leave) }
    {
        // Never none, as each start has its body.
        let Some(block) = self.context.program.bodies.as_slice().get(body as usize) else {
            return self.raise(Fault::NoMethod, at);
        };
        if args.len() != block.params.len() {
            return self.raise(Fault::ArgumentCount, at);
        }
        let Ok(values) = given_to(self.context.alloc, args, self.context.me, slots, room) else {
            return self.over(Cut::Memory);
        };
        match self.started(body, values) {
            Ok(reply) => match self.taken(reply, at) {
                Ok(value) => self.hand(value),
                Err(came) => came,
            },
            Err(came) => came,
        }
    }

    /// What is replied to the start of a thread. Where no reply comes this thread ends.
    fn started(&mut self, body: u32, values: Vec<Value>) -> Result<Reply, Came>
        ensures stays { Unstepped self.old self.new }
        ensures replies { IfOk result (λ reply. Replied self.old.context.steps (Begin body (map plain values.items)) (said reply) self.old.left (O.log self.old.store) (O.log self.new.store) (O.private self.old.store) (O.private self.new.store)) }
        ensures ends { IfErr result (λ came. Unreplied self.old.context.steps (Begin body (map plain values.items)) self.old.left (O.log self.old.store) (O.log self.new.store) (O.private self.old.store) (O.private self.new.store) (outcome came self.new.value self.new.leave)) }
    {
        match self
            .store
            .start(self.context.steps - self.left, body, values)
        {
            Served::Done(reply) => Ok(reply),
            Served::Full { used, asked } => Err(self.end(End::Full { used, asked })),
            Served::Memory => Err(self.over(Cut::Memory)),
        }
    }

    /// The block of `synchronize`: its mutex is taken first, and given back behind it.
    #[cycle(walk)]
    #[cold]
    #[inline(never)]
    pub(super) fn synchronize(
        &mut self,
        mutex: Ref,
        block: &'p CodeBlock,
        at: Span,
        depth: u32,
        room: &mut [Value],
    ) -> Came
        ensures stays { Walked self.old self.new room.old room.new }
        ensures came { Walks (λ S. block_fits S block.now) (locking (thing_of mutex) (erase_block block.now) at) self.old self.new room.old room.new depth result }
    {
        let taken = self.ask_apart(mutex, Act::Lock, at);
        if is_left(taken) {
            return taken;
        }
        let came = self.owning(block, depth, room);
        self.give_back(mutex, came, at)
    }

    /// The body of a block that owns a mutex. It begins with a step, where one is left.
    #[cycle(walk)]
    fn owning(&mut self, block: &'p CodeBlock, depth: u32, room: &mut [Value]) -> Came
        ensures stays { Walked self.old self.new room.old room.new }
        ensures kept { Kept (λ S. block_fits S block.now) self.old room.old room.new }
        ensures came { Owns block.now self.old self.new room.old room.new depth result }
    {
        if self.left == 0 {
            return self.over(Cut::Steps);
        }
        self.left -= 1;
        let from = block.from as usize;
        let count = block.count as usize;
        if room.len() < from || room.len() - from < count {
            return self.over(Cut::Memory);
        }
        open_block(room, from, count, 0, Value::Nil, Value::Nil);
        self.body(block.body.as_slice(), depth, room)
    }

    /// Gives a mutex back behind its block, and gives on what came of that.
    fn give_back(&mut self, mutex: Ref, came: Came, at: Span) -> Came
        ensures stays { Unstepped self.old self.new }
        ensures came { GivesBack self.old.context.steps (thing_of mutex) at self.old.left (O.log self.old.store) (O.log self.new.store) (O.private self.old.store) (O.private self.new.store) (outcome came self.old.value self.old.leave) (outcome result self.new.value self.new.leave) }
    {
        if !is_left(came) {
            let value = self.take(came);
            return self.unlock(mutex, value, at);
        }
        match self.leave {
            Leave::Break => self.unlock(mutex, Value::Nil, at),
            Leave::Next => self.unlock(mutex, Value::Nil, at),
            Leave::Return => {
                let value = mem::replace(&mut self.value, Value::Nil);
                let came = self.unlock(mutex, value, at);
                if is_left(came) {
                    return came;
                }
                self.value = self.take(came);
                self.leave = Leave::Return;
                Came::Left
            }
            Leave::Over(_) => came,
        }
    }

    /// Gives a mutex back, and a value on.
    fn unlock(&mut self, mutex: Ref, value: Value, at: Span) -> Came
        ensures stays { Unstepped self.old self.new }
        ensures settled { Settles (plain value) (outcome result self.new.value self.new.leave) }
        ensures came { Unlocks self.old.context.steps (thing_of mutex) at (plain value) self.old.left (O.log self.old.store) (O.log self.new.store) (O.private self.old.store) (O.private self.new.store) (outcome result self.new.value self.new.leave) }
    {
        match self.fetch(mutex, Act::Unlock, at) {
            Ok(_) => self.give(value),
            Err(came) => came,
        }
    }
}
