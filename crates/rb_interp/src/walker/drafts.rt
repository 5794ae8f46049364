// Texts of collections, and what `p` writes: nothing of them calls a method of the script.

ghost use Rattle.std.specs.Prelude.{◌≡◌, ◌≤◌, ◌<◌, ◌+◌, [], true, false, length, map, Err, OnOk};
ghost use Rattle.rb_model.specs.Values.{Value as Val, Str, To, plain};
ghost use Rattle.rb_model.specs.Doing.{said};
ghost use Rattle.rb_machine.specs.Control.{On, Drafting, Inspected};
ghost use Rattle.rb_machine.specs.Call.{raised};
ghost use Rattle.rb_machine.specs.Drafts.{draft_of, is_collection};
ghost use Rattle.rb_machine.specs.Texts.{max_bytes};
ghost use Rattle.rb_builtin.specs.Deeds.{thing_of};
ghost use Rattle.rb_walk.specs.Answers.{OrMemory};
ghost use Rattle.rb_walk.specs.Outcome.{Gave, is_left, outcome, value_of};
ghost use Rattle.rb_walk.specs.Texts.{as_text};
ghost use Rattle.rb_walk.specs.Collections.{Advances, InspectsOne, Opens, ReadsTo, Shortens, drafting, inspecting_behind, is_finished, showing, text_end, valuing, work_of};

use super::Walker;
use rb_model::{Fault, Ref, Reply, SharedText, ThreadStore, Value};
use rb_render::{Draft, RenderFault, TextForm, Want};
use rb_tree::Span;
use rb_walk::bytes::{add_inspected_line, add_string_line};
use rb_walk::came::{Came, Cut, is_left};
use rb_walk::gathering::collection_of;

/// How many nodes may be under evaluation at once, and collections whose text is being made.
const MAX_DEPTH: usize = 1000;

/// Gives what was copied of a collection to a text.
fn give_copy(draft: &mut Draft, thing: Ref, reply: Reply) -> Result<(), RenderFault>
    ensures given { OnOk result (ReadsTo (thing_of thing) (said reply) draft.old (λ at k sc d left. On (Drafting draft.new at) k sc d left)) }
    ensures too_long { result ≡ Err RenderFault.TooLong → ReadsTo (thing_of thing) (said reply) draft.old (λ at k sc d left. raised Fault.TextTooLong at left) }
    ensures work { OnOk result (work_of draft.new ≤ 1 + length draft.old.begun) }
{
    match reply {
        Reply::Elements(values) => draft.give_elements(thing, values),
        Reply::Pairs(pairs) => draft.give_pairs(thing, pairs),
        // Never, as a collection answers with what is in it.
        _ => Err(RenderFault::Memory),
    }
}

/// Whether so many nodes under evaluation and collections that are begun are as many as there may be.
fn is_too_deep(depth: u32, begun: usize) -> bool
    ensures deep { result ≡ true → 1000 ≤ depth + begun }
    ensures fits { result ≡ false → depth + begun < 1000 }
{
    if depth as usize >= MAX_DEPTH {
        return true;
    }
    begun >= MAX_DEPTH - depth as usize
}

/// Whether a text needs nothing more.
pub(super) fn is_finished(want: &Want) -> bool
    ensures { result ≡ is_finished want.now }
{
    match want {
        Want::Finished => true,
        _ => false,
    }
}

impl<'p, O: ThreadStore + Drop> Walker<'p, O> {
    ghost use Rattle.rb_interp.specs.Walks.{Stepped, Unstepped, Untouched};
    ghost use Rattle.rb_interp.specs.Answers.{ComesAtOnce, ComesOut, ComesTo};

    /// Gives bytes as a text.
    pub(super) fn give_bytes(&mut self, bytes: Vec<u8>) -> Came
        ensures gives { OrMemory (Gave (Str bytes.items)) (outcome result self.new.value self.new.leave) }
        ensures stays { Untouched self.old self.new }
    {
        match SharedText::from_vec(self.context.alloc, bytes) {
            Ok(text) => self.give(Value::Str(text)),
            Err(_) => self.over(Cut::Memory),
        }
    }

    /// The thread ends since there is no text.
    pub(super) fn end_text(&mut self, fault: RenderFault, at: Span) -> Came
        ensures gives { outcome result self.new.value self.new.leave ≡ text_end fault at }
        ensures stays { Untouched self.old self.new }
    {
        match fault {
            RenderFault::TooLong => self.raise(Fault::TextTooLong, at),
            RenderFault::Memory => self.over(Cut::Memory),
        }
    }

    /// Opens a collection in a text that is made, by one copy of it.
    fn open(&mut self, draft: &mut Draft, thing: Ref, at: Span) -> Came
        ensures stays { Unstepped self.old self.new }
        ensures work { is_left result ≡ false → work_of draft.new ≤ 1 + length draft.old.begun }
        ensures opens { Opens self.old.context.steps (thing_of thing) draft.old draft.new at self.old.left (O.log self.old.store) (O.log self.new.store) (O.private self.old.store) (O.private self.new.store) result (outcome result self.new.value self.new.leave) }
    {
        match self.copied(thing) {
            Ok(reply) => match give_copy(draft, thing, reply) {
                Ok(()) => Came::Nil,
                Err(fault) => self.end_text(fault, at),
            },
            Err(came) => came,
        }
    }

    /// Does what a text needs next.
    pub(super) fn advance(&mut self, draft: &mut Draft, want: &Want, at: Span, depth: u32) -> Came
        ensures stays { Stepped self.old self.new }
        ensures shortens { Shortens self.old.context.program.now want.now draft.old draft.new self.old.left self.new.left result }
        ensures came { Advances self.old.context.steps self.old.context.program.now want.now draft.old draft.new at depth self.old.left self.new.left (O.log self.old.store) (O.log self.new.store) (O.private self.old.store) (O.private self.new.store) result (outcome result self.new.value self.new.leave) }
    {
        match want {
            Want::More => Came::Nil,
            Want::Element => {
                if self.left == 0 {
                    return self.over(Cut::Steps);
                }
                self.left -= 1;
                Came::Nil
            }
            Want::Copy(thing) => {
                if is_too_deep(depth, draft.depth()) {
                    return self.raise(Fault::TooDeep, at);
                }
                self.open(draft, *thing, at)
            }
            // Never, as only lines ask for texts, and a finished text needs nothing.
            _ => self.over(Cut::Memory),
        }
    }

    /// The inspected form of a collection, as a text.
    pub(super) fn inspected(&mut self, thing: Ref, at: Span, depth: u32) -> Came
        ensures text { as_text self.old.context.program.now (outcome result self.new.value self.new.leave) ≡ outcome result self.new.value self.new.leave }
        ensures stays { Stepped self.old self.new }
        ensures came { ComesTo (drafting (draft_of Inspected (To (thing_of thing))) at) self.old self.new depth result }
    {
        let mut draft = Draft::new(self.context.alloc, TextForm::Inspected, Value::Ref(thing));
        'text: loop {
            let want = match draft.ask(self.context.program) {
                Ok(want) => want,
                Err(fault) => return self.end_text(fault, at),
            };
            if is_finished(&want) {
                return self.give_bytes(draft.into_bytes());
            }
            let came = self.advance(&mut draft, &want, at, depth);
            if is_left(came) {
                return came;
            }
        }
    }

    /// The value that came, as its text is told where no method is asked for it.
    pub(super) fn told_plain(&mut self, came: Came, at: Span, depth: u32) -> Came
        requires came { is_left came ≡ false }
        ensures stays { Stepped self.old self.new }
        ensures came { ComesOut (showing (value_of came self.old.value) at) self.old self.new depth (as_text self.old.context.program.now (outcome result self.new.value self.new.leave)) }
    {
        let Came::Other = came else {
            return came;
        };
        let Some(thing) = collection_of(&self.value) else {
            return came;
        };
        self.inspected(thing, at, depth)
    }

    /// The value of a call of `p`: nil, its one argument, or an array of them.
    fn value_of_p(&mut self, values: &[Value]) -> Came
        ensures stays { Unstepped self.old self.new }
        ensures log { O.log self.new.store ≡ O.log self.old.store }
        ensures came { (shown : Val) → ComesAtOnce (valuing shown (map plain values.now)) self.old self.new result }
    {
        match values {
            [] => Came::Nil,
            [value] => self.read_shared(value),
            _ => self.list(values),
        }
    }

    /// Adds the inspected form of a collection as a line.
    fn add_collection(&mut self, bytes: &mut Vec<u8>, thing: Ref, at: Span, depth: u32) -> Came
        requires collection { is_collection (To (thing_of thing)) ≡ true }
        ensures stays { Stepped self.old self.new }
        ensures fits { is_left result ≡ false → length bytes.new.items ≤ max_bytes }
        ensures came { InspectsOne self.old.context.steps self.old.context.program.now (To (thing_of thing)) bytes.old.items bytes.new.items at depth self.old.left self.new.left (O.log self.old.store) (O.log self.new.store) (O.private self.old.store) (O.private self.new.store) result (outcome result self.new.value self.new.leave) }
    {
        let came = self.inspected(thing, at, depth);
        if is_left(came) {
            return came;
        }
        let text = self.take(came);
        match add_string_line(bytes, &text) {
            Ok(()) => Came::Nil,
            Err(fault) => self.end_text(fault, at),
        }
    }

    /// Adds the inspected form of a value as a line.
    fn add_inspected(&mut self, bytes: &mut Vec<u8>, value: &Value, at: Span, depth: u32) -> Came
        ensures stays { Stepped self.old self.new }
        ensures fits { is_left result ≡ false → length bytes.new.items ≤ max_bytes }
        ensures came { InspectsOne self.old.context.steps self.old.context.program.now (plain value.now) bytes.old.items bytes.new.items at depth self.old.left self.new.left (O.log self.old.store) (O.log self.new.store) (O.private self.old.store) (O.private self.new.store) result (outcome result self.new.value self.new.leave) }
    {
        if let Some(thing) = collection_of(value) {
            return self.add_collection(bytes, thing, at, depth);
        }
        match add_inspected_line(self.context.alloc, bytes, self.context.program, value) {
            Ok(()) => Came::Nil,
            Err(fault) => self.end_text(fault, at),
        }
    }

    /// Prints the inspected forms of values.
    pub(super) fn inspect_values(&mut self, values: &[Value], at: Span, depth: u32) -> Came
        ensures stays { Stepped self.old self.new }
        ensures came { ComesTo (inspecting_behind (map plain values.now) [] (map plain values.now) at) self.old self.new depth result }
    {
        let mut bytes = Vec::new(self.context.alloc);
        'values: for value in values {
            let came = self.add_inspected(&mut bytes, value, at, depth);
            if is_left(came) {
                return came;
            }
        }
        let shown = self.show_bytes(bytes);
        if is_left(shown) {
            return shown;
        }
        self.value_of_p(values)
    }
}
