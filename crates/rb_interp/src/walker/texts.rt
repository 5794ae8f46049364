// Texts of values, for which the `to_s` of their class may be asked.

ghost use Rattle.std.specs.Prelude.{◌≡◌, ◌≤◌, ◌<◌, ◌+◌, ◌++◌, ℕ, false, length, slice_get, Err, OnOk};
ghost use Rattle.rb_model.specs.Values.{plain};
ghost use Rattle.rb_machine.specs.Texts.{max_bytes, shown, styled};
ghost use Rattle.rb_render.specs.Forms.{style_of};
ghost use Rattle.rb_walk.specs.Outcome.{is_left, value_of, outcome};
ghost use Rattle.rb_walk.specs.Lines.{JoinsText};

use super::Walker;
use rb_model::{Ref, ThreadStore, Value};
use rb_render::{RenderFault, Style, add_value};
use rb_tree::{Program, Span};
use rb_walk::asked::{asked_of, lined};
use rb_walk::came::{Came, Cut, is_left};
use std::alloc::Global;

/// Adds the text of a value, which is let go, behind what is printed.
fn add_taken(
    alloc: Global,
    out: &mut Vec<u8>,
    program: &Program,
    style: Style,
    value: Value,
) -> Result<(), RenderFault>
    ensures text { OnOk result (out.new.items ≡ out.old.items ++ styled (style_of style) (shown program.now (plain value))) }
    ensures fits { OnOk result (length out.new.items ≤ max_bytes) }
    ensures too_long { result ≡ Err RenderFault.TooLong → max_bytes < length (out.old.items ++ styled (style_of style) (shown program.now (plain value))) }
{
    add_value(alloc, out, program, style, &value)
}

impl<'p, O: ThreadStore + Drop> Walker<'p, O> {
    ghost use Rattle.rb_interp.specs.Walks.{Untouched, Walked};
    ghost use Rattle.rb_interp.specs.Texts.{Tells, TellsSlot, WritesArray, WritesOne, WritesTexts};

    /// A value that came, as its text is told: what `to_s` of its class answers, where that is a string, and else the value as it is.
    #[cycle(walk)]
    #[inline(never)]
    pub(super) fn told(&mut self, came: Came, at: Span, depth: u32, room: &mut [Value]) -> Came
        requires came { is_left came ≡ false }
        ensures stays { Walked self.old self.new room.old room.new }
        ensures kept { (i : ℕ) → i < self.old.base → slice_get room.new i ≡ slice_get room.old i }
        ensures came { Tells (value_of came self.old.value) at self.old self.new room.old room.new depth result }
    {
        let Came::Other = came else {
            return came;
        };
        let Some(target) = asked_of(self.context.program, self.context.script, &self.value) else {
            return self.told_plain(came, at, depth);
        };
        let answer = self.enter(target.method, Some(target.object), 0, at, depth, room);
        if is_left(answer) {
            return answer;
        }
        if self.is_text_now(answer) {
            return answer;
        }
        self.give(Value::Ref(target.object))
    }

    /// The value of a slot, as its text is told.
    #[cycle(walk)]
    pub(super) fn told_at(&mut self, slot: usize, at: Span, depth: u32, room: &mut [Value]) -> Came
        ensures stays { Walked self.old self.new room.old room.new }
        ensures kept { (i : ℕ) → i < self.old.base → slice_get room.new i ≡ slice_get room.old i }
        ensures came { TellsSlot slot at self.old self.new room.old room.new depth result }
    {
        let Some(value) = room.get(slot) else {
            return self.over(Cut::Memory);
        };
        let came = self.read_shared(value);
        if is_left(came) {
            return came;
        }
        self.told(came, at, depth, room)
    }

    /// Prints values, of which there are so many behind the frame, text by text.
    #[cycle(walk)]
    #[inline(never)]
    pub(super) fn print_texts(
        &mut self,
        style: Style,
        count: usize,
        at: Span,
        depth: u32,
        room: &mut [Value],
    ) -> Came
        ensures stays { Walked self.old self.new room.old room.new }
        ensures kept { (i : ℕ) → i < self.old.base → slice_get room.new i ≡ slice_get room.old i }
        ensures came { WritesTexts (style_of style) self.old.base count at self.old self.new room.old room.new depth result }
    {
        let first = self.base;
        if room.len() < first || room.len() - first < count {
            return self.over(Cut::Memory);
        }
        self.base = first + count;
        let came = self.print_from(style, first, count, at, depth, room);
        self.base = first;
        came
    }

    /// Prints the values from a slot on up to what is free, of which there are so many, text by text.
    #[cycle(walk)]
    pub(super) fn print_from(
        &mut self,
        style: Style,
        first: usize,
        count: usize,
        at: Span,
        depth: u32,
        room: &mut [Value],
    ) -> Came
        requires behind { self.old.base ≡ first + count }
        requires within { first + count ≤ length room.old }
        ensures stays { Walked self.old self.new room.old room.new }
        ensures kept { (i : ℕ) → i < self.old.base → slice_get room.new i ≡ slice_get room.old i }
        ensures came { WritesTexts (style_of style) first count at self.old self.new room.old room.new depth result }
    {
        let mut bytes = Vec::new(self.context.alloc);
        'values: for index in 0..count {
            let came = self.write_one(style, first + index, &mut bytes, at, depth, room);
            if is_left(came) {
                return came;
            }
        }
        let shown = self.show_bytes(bytes);
        if is_left(shown) {
            return shown;
        }
        Came::Nil
    }

    /// Writes the value of a slot behind what is printed; nil where it goes on.
    #[cycle(walk)]
    fn write_one(
        &mut self,
        style: Style,
        slot: usize,
        bytes: &mut Vec<u8>,
        at: Span,
        depth: u32,
        room: &mut [Value],
    ) -> Came
        ensures stays { Walked self.old self.new room.old room.new }
        ensures kept { (i : ℕ) → i < self.old.base → slice_get room.new i ≡ slice_get room.old i }
        ensures fits { is_left result ≡ false → length bytes.new.items ≤ max_bytes }
        ensures came { WritesOne (style_of style) slot bytes.old.items bytes.new.items at self.old self.new room.old room.new depth result }
    {
        if let Some(array) = lined(style, room, slot) {
            return self.write_array(array, bytes, at, depth, room);
        }
        let came = self.told_at(slot, at, depth, room);
        if is_left(came) {
            return came;
        }
        self.add_came(style, came, bytes, at)
    }

    /// Writes an array line by line behind what is printed; nil where it goes on.
    #[cycle(walk)]
    fn write_array(
        &mut self,
        array: Ref,
        bytes: &mut Vec<u8>,
        at: Span,
        depth: u32,
        room: &mut [Value],
    ) -> Came
        ensures stays { Walked self.old self.new room.old room.new }
        ensures kept { (i : ℕ) → i < self.old.base → slice_get room.new i ≡ slice_get room.old i }
        ensures fits { is_left result ≡ false → length bytes.new.items ≤ max_bytes }
        ensures came { WritesArray array bytes.old.items bytes.new.items at self.old self.new room.old room.new depth result }
    {
        let came = self.lines(array, at, depth, room);
        if is_left(came) {
            return came;
        }
        self.add_came(Style::Plain, came, bytes, at)
    }

    /// Adds the text of the value that came behind what is printed; nil where it goes on.
    fn add_came(&mut self, style: Style, came: Came, bytes: &mut Vec<u8>, at: Span) -> Came
        ensures stays { Untouched self.old self.new }
        ensures fits { is_left result ≡ false → length bytes.new.items ≤ max_bytes }
        ensures came { JoinsText self.old.context.steps (styled (style_of style) (shown self.old.context.program.now (value_of came self.old.value))) bytes.old.items bytes.new.items at self.old.left (O.log self.old.store) (O.private self.old.store) result (outcome result self.new.value self.new.leave) }
    {
        let value = self.take(came);
        match add_taken(
            self.context.alloc,
            bytes,
            self.context.program,
            style,
            value,
        ) {
            Ok(()) => Came::Nil,
            Err(fault) => self.end_text(fault, at),
        }
    }
}
