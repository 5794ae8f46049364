// Arrays that are written line by line: values are asked for their texts.

ghost use Rattle.std.specs.Prelude.{◌≡◌, ◌≤◌, ◌<◌, ◌+◌, ℕ, false, length, slice_get, Some, None, Err, OnOk, IfSome};
ghost use Rattle.rb_model.specs.Values.{plain};
ghost use Rattle.rb_machine.specs.Drafts.{with_line};
ghost use Rattle.rb_machine.specs.Texts.{shown};
ghost use Rattle.rb_walk.specs.Outcome.{is_left, outcome, value_of};
ghost use Rattle.rb_walk.specs.Collections.{Shortens, work_of};
ghost use Rattle.rb_walk.specs.Lines.{JoinsLine};
ghost use Rattle.rb_walk.specs.Texts.{as_text};

use super::Walker;
use super::drafts::is_finished;
use rb_model::{Ref, ThreadStore, Value};
use rb_render::{Draft, RenderFault, TextForm, Want, add_shown};
use rb_tree::{Program, Span};
use rb_walk::came::{Came, Cut, is_left};
use rb_walk::rounds::count_of;
use std::alloc::Global;

/// Gives the text of a value to a text, as a line.
fn give_line(
    alloc: Global,
    program: &Program,
    draft: &mut Draft,
    value: Value,
) -> Result<(), RenderFault>
    ensures given { OnOk result (with_line draft.old (shown program.now (plain value)) ≡ Some draft.new) }
    ensures too_long { result ≡ Err RenderFault.TooLong → with_line draft.old (shown program.now (plain value)) ≡ None }
{
    let mut text = Vec::new(alloc);
    if let Err(_) = add_shown(alloc, &mut text, program, &value) {
        return Err(RenderFault::Memory);
    }
    draft.give_text(text.as_slice())
}

/// The depth inside so many collections that are begun; none where it is no number of 32 bits.
fn depth_inside(depth: u32, begun: usize) -> Option<u32>
    ensures { IfSome result (λ inside. inside ≡ depth + begun) }
{
    let begun = count_of(begun)?;
    depth.checked_add(begun)
}

impl<'p, O: ThreadStore + Drop> Walker<'p, O> {
    ghost use Rattle.rb_interp.specs.Walks.{Untouched, Walked};
    ghost use Rattle.rb_interp.specs.Texts.{AdvancesLine, AsksLine, GivesLines};

    /// Adds the text of the value that came to a text, as a line.
    fn add_line(&mut self, draft: &mut Draft, came: Came, at: Span) -> Came
        ensures stays { Untouched self.old self.new }
        ensures work { is_left result ≡ false → work_of draft.new ≤ length draft.old.begun }
        ensures came { JoinsLine self.old.context.steps (shown self.old.context.program.now (value_of came self.old.value)) draft.old draft.new at self.old.left (O.log self.old.store) (O.private self.old.store) result (outcome result self.new.value self.new.leave) }
    {
        let value = self.take(came);
        match give_line(self.context.alloc, self.context.program, draft, value) {
            Ok(()) => Came::Nil,
            Err(fault) => self.end_text(fault, at),
        }
    }

    /// Asks a value for its text, which is a line of a text.
    #[cycle(walk)]
    #[inline(never)]
    fn line(
        &mut self,
        draft: &mut Draft,
        value: &Value,
        at: Span,
        depth: u32,
        room: &mut [Value],
    ) -> Came
        ensures stays { Walked self.old self.new room.old room.new }
        ensures kept { (i : ℕ) → i < self.old.base → slice_get room.new i ≡ slice_get room.old i }
        ensures work { is_left result ≡ false → work_of draft.new ≤ length draft.old.begun }
        ensures came { AsksLine (plain value.now) draft.old draft.new at self.old self.new room.old room.new depth result }
    {
        // Always a number, as depths stay far below.
        let Some(inside) = depth_inside(depth, draft.depth()) else {
            return self.over(Cut::Memory);
        };
        let shared = self.read_shared(value);
        if is_left(shared) {
            return shared;
        }
        let came = self.told(shared, at, inside, room);
        if is_left(came) {
            return came;
        }
        self.add_line(draft, came, at)
    }

    /// Does what a text needs next that is made line by line.
    #[cycle(walk)]
    fn advance_line(
        &mut self,
        draft: &mut Draft,
        want: &Want,
        at: Span,
        depth: u32,
        room: &mut [Value],
    ) -> Came
        ensures stays { Walked self.old self.new room.old room.new }
        ensures kept { (i : ℕ) → i < self.old.base → slice_get room.new i ≡ slice_get room.old i }
        ensures shortens { Shortens self.old.context.program.now want.now draft.old draft.new self.old.left self.new.left result }
        ensures came { AdvancesLine want.now draft.old draft.new at self.old self.new room.old room.new depth result }
    {
        match want {
            Want::Text(value) => self.line(draft, value, at, depth, room),
            _ => self.advance(draft, want, at, depth),
        }
    }

    /// The text of an array line by line.
    #[cycle(walk)]
    #[inline(never)]
    pub(super) fn lines(&mut self, array: Ref, at: Span, depth: u32, room: &mut [Value]) -> Came
        ensures stays { Walked self.old self.new room.old room.new }
        ensures kept { (i : ℕ) → i < self.old.base → slice_get room.new i ≡ slice_get room.old i }
        ensures text { as_text self.old.context.program.now (outcome result self.new.value self.new.leave) ≡ outcome result self.new.value self.new.leave }
        ensures came { GivesLines array at self.old self.new room.old room.new depth result }
    {
        let mut draft = Draft::new(self.context.alloc, TextForm::Lined, Value::Ref(array));
        'text: loop {
            let want = match draft.ask(self.context.program) {
                Ok(want) => want,
                Err(fault) => return self.end_text(fault, at),
            };
            if is_finished(&want) {
                return self.give_bytes(draft.into_bytes());
            }
            let came = self.advance_line(&mut draft, &want, at, depth, room);
            if is_left(came) {
                return came;
            }
        }
    }
}
