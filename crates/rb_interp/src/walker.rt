// The walk.

ghost use Rattle.std.specs.Prelude.{◌≡◌, ◌≤◌, ◌<◌, ◌+◌, true, [], length, Some, None};
ghost use Rattle.rb_model.specs.Values.{Nil, Int};
ghost use Rattle.rb_model.specs.Ends.{over};
ghost use Rattle.rb_model.specs.Log as log;
ghost use Rattle.rb_model.specs.Private.{bare};
ghost use Rattle.rb_interp.specs.Going.{MainGoes};
ghost use Rattle.rb_machine.specs.Begin.{begin};
ghost use Rattle.rb_walk.specs.Outcome.{outcome};
ghost use Rattle.rb_walk.specs.Carries.{goes_on};

mod assign;
mod begin;
mod bodies;
mod calls;
mod collections;
mod drafts;
mod elements;
mod flow;
mod lines;
mod methods;
mod objects;
mod operands;
mod shared;
mod texts;
mod values;
mod walks;

pub use bodies::run_body;
use rb_builtin::Builtin;
use rb_code::{Code, CodeScript};
use rb_model::{End, Fault, Ref, ThreadStore, Value};
use rb_tree::Program;
use rb_walk::MAX_DEPTH;
use rb_walk::came::{Came, Cut, Leave, immediate, is_told};
use rb_walk::dispatch::Methods;
use rb_walk::ending::end_of;
use rb_walk::leaf::{has_read, is_leaf, is_operate, place_of, quick, quick_twice, small, steps_of};
use rb_walk::live::Live;
use rb_walk::slots::clear;
use std::alloc::Global;

/// What a walk runs.
#[derive(Clone, Copy)]
pub struct Context<'p> {
    pub alloc: Global,
    pub program: &'p Program,
    pub script: &'p CodeScript,
    /// How many steps the thread may make.
    pub steps: u64,
}

/// What a walk runs, and the `self` of the running method.
#[derive(Clone, Copy)]
struct Running<'p> {
    alloc: Global,
    program: &'p Program,
    script: &'p Methods<'p>,
    steps: u64,
    /// None at the top level and in its methods.
    me: Option<Ref>,
}

/// The walk of the main thread of a script over its store.
#[derive(Drop)]
struct Walker<'p, O: ThreadStore + Drop> {
    context: Running<'p>,
    store: Live<O>,
    /// Where the frame of the running method ends, and what is free begins.
    base: usize,
    /// How many steps are left.
    left: u64,
    /// The value that came, where registers do not hold it.
    value: Value,
    /// How a node was left.
    leave: Leave,
    ghost within: { left ≤ context.steps },
}

impl<'p, O: ThreadStore + Drop> Walker<'p, O> {
    ghost use Rattle.rb_interp.specs.Top.{RunsTop};
    ghost use Rattle.rb_interp.specs.Walks.{Walked, Walks, at_node, begun, node_fits};

    /// Evaluates a node.
    #[cycle(walk)]
    #[inline(never)]
    fn walk(&mut self, code: &'p Code, depth: u32, room: &mut [Value]) -> Came
        ensures counted { goes_on (outcome result self.new.value self.new.leave) ≡ true → self.new.left < self.old.left }
        ensures stays { Walked self.old self.new room.old room.new }
        ensures came { Walks (node_fits code.now) (at_node code.now) self.old self.new room.old room.new depth result }
    {
        self.walk_here(code, depth, room)
    }

    /// Evaluates a node, where it is worth the room.
    #[cycle(walk)]
    #[inline(always)]
    fn walk_here(&mut self, code: &'p Code, depth: u32, room: &mut [Value]) -> Came
        ensures counted { goes_on (outcome result self.new.value self.new.leave) ≡ true → self.new.left < self.old.left }
        ensures stays { Walked self.old self.new room.old room.new }
        ensures came { Walks (node_fits code.now) (at_node code.now) self.old self.new room.old room.new depth result }
    {
        if self.left == 0 {
            return self.over(Cut::Steps);
        }
        if depth >= MAX_DEPTH {
            return self.raise(Fault::TooDeep, place_of(code));
        }
        self.left -= 1;
        self.begin(code, depth + 1, room)
    }

    /// Evaluates a node that may well be a leaf. Where it is an integer it calls nothing of the walk.
    #[cycle(walk)]
    #[inline(always)]
    fn evaluate(&mut self, code: &'p Code, depth: u32, room: &mut [Value]) -> Came
        ensures counted { goes_on (outcome result self.new.value self.new.leave) ≡ true → self.new.left < self.old.left }
        ensures stays { Walked self.old self.new room.old room.new }
        ensures came { Walks (node_fits code.now) (at_node code.now) self.old self.new room.old room.new depth result }
    {
        if self.left > 0 && depth < MAX_DEPTH {
            if let Some(n) = small(code, room) {
                self.left -= 1;
                return Came::Int(n);
            }
        }
        self.evaluate_call(code, depth, room)
    }

    /// Evaluates a node that is a leaf most of the time. What else it is is evaluated apart, so that little stands here.
    #[cycle(walk)]
    #[inline(always)]
    fn evaluate_leaf(&mut self, code: &'p Code, depth: u32, room: &mut [Value]) -> Came
        ensures counted { goes_on (outcome result self.new.value self.new.leave) ≡ true → self.new.left < self.old.left }
        ensures stays { Walked self.old self.new room.old room.new }
        ensures came { Walks (node_fits code.now) (at_node code.now) self.old self.new room.old room.new depth result }
    {
        if self.left > 0 && depth < MAX_DEPTH {
            if let Some(n) = small(code, room) {
                self.left -= 1;
                return Came::Int(n);
            }
        }
        self.evaluate_apart(code, depth, room)
    }

    /// Evaluates any node apart.
    #[cycle(walk)]
    #[inline(never)]
    fn evaluate_apart(&mut self, code: &'p Code, depth: u32, room: &mut [Value]) -> Came
        ensures counted { goes_on (outcome result self.new.value self.new.leave) ≡ true → self.new.left < self.old.left }
        ensures stays { Walked self.old self.new room.old room.new }
        ensures came { Walks (node_fits code.now) (at_node code.now) self.old self.new room.old room.new depth result }
    {
        self.evaluate_call(code, depth, room)
    }

    /// Evaluates a node that may well be a call with one argument, which is looked into here.
    #[cycle(walk)]
    #[inline(always)]
    fn evaluate_call(&mut self, code: &'p Code, depth: u32, room: &mut [Value]) -> Came
        ensures counted { goes_on (outcome result self.new.value self.new.leave) ≡ true → self.new.left < self.old.left }
        ensures stays { Walked self.old self.new room.old room.new }
        ensures came { Walks (node_fits code.now) (at_node code.now) self.old self.new room.old room.new depth result }
    {
        match code {
            Code::Operate(method, _, left, right, at) => {
                let left = left.get();
                let right = right.get();
                if self.left > 6 && depth < MAX_DEPTH - 2 {
                    if let Some(answer) = quick(*method, left, right, room) {
                        self.left -= 3;
                        return self.answer(answer, *at);
                    }
                    if let Some(answer) = quick_twice(*method, left, right, room) {
                        self.left -= 5;
                        return self.answer(answer, *at);
                    }
                    if let Some(Builtin::Index) = method {
                        let is_row = is_operate(left);
                        let is_over = is_operate(right);
                        let element = self.element_at(*method, left, is_row, right, is_over, room);
                        if is_told(element) {
                            self.left -= 1 + steps_of(is_row) + steps_of(is_over);
                            return immediate(element);
                        }
                    }
                    self.left -= 1;
                    if has_read(left, right) {
                        return self.begin_read_operate(code, depth + 1, room);
                    }
                    return self.begin_slow_operate(code, depth + 1, room);
                }
                self.walk(code, depth, room)
            }
            Code::Function(_, _, _, _) => {
                if self.left > 0 && depth < MAX_DEPTH {
                    self.left -= 1;
                    return self.begin_function(code, depth + 1, room);
                }
                self.walk(code, depth, room)
            }
            Code::Send(_, _, receiver, _, _) => {
                if self.left > 0 && depth < MAX_DEPTH {
                    self.left -= 1;
                    if is_leaf(receiver.get()) {
                        return self.begin_read(code, depth + 1, room);
                    }
                    return self.begin_far_send(code, depth + 1, room);
                }
                self.walk(code, depth, room)
            }
            Code::Field(name, at) => {
                if self.left > 0 && depth < MAX_DEPTH {
                    self.left -= 1;
                    return self.field_apart(*name, *at);
                }
                self.walk(code, depth, room)
            }
            Code::Local(_, _, _) => self.evaluate_operand(code, depth, room),
            Code::False(_) => self.evaluate_operand(code, depth, room),
            Code::True(_) => self.evaluate_operand(code, depth, room),
            Code::And(_, _, _) => self.evaluate_logic(code, depth, room),
            Code::Or(_, _, _) => self.evaluate_logic(code, depth, room),
            Code::Not(_, _) => self.evaluate_logic(code, depth, room),
            _ => self.walk(code, depth, room),
        }
    }

    /// Evaluates a node that combines truth values.
    #[cycle(walk)]
    #[inline(never)]
    fn evaluate_logic(&mut self, code: &'p Code, depth: u32, room: &mut [Value]) -> Came
        ensures counted { goes_on (outcome result self.new.value self.new.leave) ≡ true → self.new.left < self.old.left }
        ensures stays { Walked self.old self.new room.old room.new }
        ensures came { Walks (node_fits code.now) (at_node code.now) self.old self.new room.old room.new depth result }
    {
        if self.left > 0 && depth < MAX_DEPTH {
            self.left -= 1;
            return self.begin_logic(code, depth + 1, room);
        }
        self.walk(code, depth, room)
    }

    /// Evaluates a local, an instance variable or a truth value.
    #[cycle(walk)]
    #[inline(never)]
    fn evaluate_operand(&mut self, code: &'p Code, depth: u32, room: &mut [Value]) -> Came
        ensures counted { goes_on (outcome result self.new.value self.new.leave) ≡ true → self.new.left < self.old.left }
        ensures stays { Walked self.old self.new room.old room.new }
        ensures came { Walks (node_fits code.now) (at_node code.now) self.old self.new room.old room.new depth result }
    {
        if self.left > 0 && depth < MAX_DEPTH {
            self.left -= 1;
            return self.begin_operand(code, depth + 1, room);
        }
        self.walk(code, depth, room)
    }

    /// Evaluates a call with a receiver, without a block, where it stands: what only reads an instance variable of a local's object is done
    /// here.
    #[cycle(walk)]
    #[inline(always)]
    fn evaluate_sent(&mut self, code: &'p Code, depth: u32, room: &mut [Value]) -> Came
        ensures counted { goes_on (outcome result self.new.value self.new.leave) ≡ true → self.new.left < self.old.left }
        ensures stays { Walked self.old self.new room.old room.new }
        ensures came { Walks (node_fits code.now) (at_node code.now) self.old self.new room.old room.new depth result }
    {
        if self.left > 0 && depth < MAX_DEPTH {
            self.left -= 1;
            return self.read_attribute(code, depth + 1, room);
        }
        self.walk(code, depth, room)
    }

    /// A node whose step is counted.
    #[cycle(walk)]
    #[inline(always)]
    fn begin(&mut self, code: &'p Code, depth: u32, room: &mut [Value]) -> Came
        ensures stays { Walked self.old self.new room.old room.new }
        ensures came { Walks (node_fits code.now) (begun code.now) self.old self.new room.old room.new depth result }
    {
        match code {
            Code::Nil(_) => Came::Nil,
            Code::False(_) => Came::False,
            Code::True(_) => Came::True,
            Code::Int(n, _) => Came::Int(*n),
            Code::Local(slot, _, _) => self.read(*slot, room),
            Code::SetLocal(_, _, _, _) => self.begin_set(code, depth, room),
            Code::UpdateLocal(_, _, _, _, _) => self.begin_update(code, depth, room),
            Code::Operate(_, _, _, _, _) => self.begin_operate(code, depth, room),
            Code::Send(_, _, _, _, _) => self.begin_send(code, depth, room),
            Code::Function(_, _, _, _) => self.begin_function(code, depth, room),
            Code::If(_, _, _, _) => self.begin_choice(code, depth, room),
            Code::Field(name, at) => self.field_apart(*name, *at),
            Code::SetField(_, _, _) => self.begin_set_field(code, depth, room),
            Code::UpdateField(_, _, _, _) => self.begin_update_field(code, depth, room),
            Code::New(_, _, _, _, _) => self.begin_new(code, depth, room),
            Code::Store(_, _, _, _, _) => self.begin_store(code, depth, room),
            Code::And(_, _, _) => self.begin_logic(code, depth, room),
            Code::Or(_, _, _) => self.begin_logic(code, depth, room),
            Code::Not(_, _) => self.begin_logic(code, depth, room),
            _ => self.begin_other(code, depth, room),
        }
    }

    /// The top level of the script, whose locals are nil in the beginning.
    fn top(&mut self, room: &mut [Value]) -> Came
        requires room { self.old.base ≤ length room.old }
        requires base { self.old.base ≡ self.old.context.script.now.main_size }
        requires me { self.old.context.me ≡ None }
        ensures context { self.new.context ≡ self.old.context }
        ensures less { self.new.left ≤ self.old.left }
        ensures came { RunsTop self.old self.new room.new result }
    {
        let script = self.context.script.script();
        let size = script.main_size as usize;
        clear(room, 0, size);
        self.body(script.main.as_slice(), 0, room)
    }
}

/// Runs the top level of a script, in this row of slots, which has those of its frame. Answers the store, how many steps were begun, and how
/// the work went out: its end entry is still to be made.
pub fn run_main<'p, O: ThreadStore + Drop>(
    context: Context<'p>,
    store: O,
    room: &mut [Value],
) -> (O, u64, End)
    requires live { O.live store }
    requires begun { O.log store ≡ log.fresh }
    requires made { O.private store ≡ bare 0 }
    requires room { context.script.now.main_size ≤ length room.old }
    ensures live { O.live result.0 }
    ensures goes { MainGoes context.entry.script.now context.entry.program.now context.entry.steps
        (O.log result.0) (O.private result.0) (over result.2) result.1 }
{
    let Context {
        alloc,
        program,
        script,
        steps,
    } = context;
    let methods = Methods::of(alloc, script);
    run_by(alloc, program, &methods, steps, store, room)
}

/// The same with the table of the methods of the script.
fn run_by<O: ThreadStore + Drop>(
    alloc: Global,
    program: &Program,
    methods: &Methods,
    steps: u64,
    store: O,
    room: &mut [Value],
) -> (O, u64, End)
    requires live { O.live store }
    requires begun { O.log store ≡ log.fresh }
    requires made { O.private store ≡ bare 0 }
    requires room { methods.now.main_size ≤ length room.old }
    ensures live { O.live result.0 }
    ensures goes { MainGoes methods.now program.now steps (O.log result.0) (O.private result.0) (over result.2) result.1 }
{
    let mut walker = Walker {
        context: Running {
            alloc,
            program,
            script: methods,
            steps,
            me: None,
        },
        store: Live::of(store),
        base: methods.script().main_size as usize,
        left: steps,
        value: Value::Nil,
        leave: Leave::Break,
    };
    let came = walker.top(room);
    let Walker {
        store,
        left,
        leave,
        ..
    } = walker;
    (store.into_store(), steps - left, end_of(came, leave))
}
