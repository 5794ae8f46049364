// The bytes of a text so far.

ghost use Rattle.std.specs.Prelude.{◌≡◌, ◌≤◌, ◌+◌, ◌++◌, length, OnOk, vec_len, vec_capacity};
ghost use Rattle.rb_model.specs.Values.{plain};
ghost use Rattle.rb_machine.specs.Texts.{inspected, line_of};
ghost use Rattle.rb_render.specs.Drafting.{mark_text, Joins};

use crate::draft::marks::Mark;
use crate::show::{MAX_BYTES, RenderFault, ends_line};
use crate::text::{add, add_inspected};
use rb_model::Value;
use rb_tree::Program;
use std::alloc::{AllocError, Global};

/// The bytes of a text so far, which do not grow too long. Beside them stands a text that joins them: what fails while that is made
/// leaves the bytes as they are.
#[derive(Drop)]
pub(crate) struct Written {
    pub(crate) alloc: Global,
    pub(crate) bytes: Vec<u8>,
    pub(crate) joining: Vec<u8>,
}

/// Adds bytes for which there is room.
fn add_within(bytes: &mut Vec<u8>, more: &[u8])
    requires { vec_len bytes.old + length more.now ≤ vec_capacity bytes.old }
    ensures items { bytes.new.items ≡ bytes.old.items ++ more.now }
    ensures len { vec_len bytes.new ≡ vec_len bytes.old + length more.now }
    ensures capacity { vec_capacity bytes.old ≤ vec_capacity bytes.new }
{
    if let Err(_) = bytes.extend_from_slice(more) {}
}

/// Adds two texts behind bytes, where those do not grow too long.
fn join(bytes: &mut Vec<u8>, lead: &[u8], more: &[u8]) -> Result<(), RenderFault>
    ensures { Joins bytes.old.items (lead.now ++ more.now) result bytes.new.items }
{
    let added = lead.len().saturating_add(more.len());
    if bytes.len().saturating_add(added) > MAX_BYTES {
        return Err(RenderFault::TooLong);
    }
    if let Err(_) = bytes.try_reserve(added) {
        return Err(RenderFault::Memory);
    }
    add_within(bytes, lead);
    add_within(bytes, more);
    Ok(())
}

/// Adds a key, as it stands before its value.
fn add_key(
    alloc: Global,
    out: &mut Vec<u8>,
    program: &Program,
    key: &Value,
) -> Result<(), AllocError>
    ensures { OnOk result (out.new.items ≡ out.old.items ++ (inspected program.now (plain key.now) ++ mark_text Mark.Arrow)) }
{
    add_inspected(alloc, out, program, key)?;
    add(out, Mark::Arrow.text())
}

impl Written {
    /// Adds bytes that stand round values.
    pub(crate) fn add_mark(&mut self, lead: Mark, mark: Mark) -> Result<(), RenderFault>
        ensures { Joins self.old.bytes.items (mark_text lead ++ mark_text mark) result self.new.bytes.items }
    {
        join(&mut self.bytes, lead.text(), mark.text())
    }

    /// Adds the inspected form of a value.
    pub(crate) fn add_value(
        &mut self,
        program: &Program,
        lead: Mark,
        value: &Value,
    ) -> Result<(), RenderFault>
        ensures { Joins self.old.bytes.items (mark_text lead ++ inspected program.now (plain value.now)) result self.new.bytes.items }
    {
        self.joining.clear();
        if let Err(_) = add_inspected(self.alloc, &mut self.joining, program, value) {
            return Err(RenderFault::Memory);
        }
        join(&mut self.bytes, lead.text(), self.joining.as_slice())
    }

    /// Adds a key, as it stands before its value.
    pub(crate) fn add_key(
        &mut self,
        program: &Program,
        lead: Mark,
        key: &Value,
    ) -> Result<(), RenderFault>
        ensures { Joins self.old.bytes.items (mark_text lead ++ (inspected program.now (plain key.now) ++ mark_text Mark.Arrow)) result self.new.bytes.items }
    {
        self.joining.clear();
        if let Err(_) = add_key(self.alloc, &mut self.joining, program, key) {
            return Err(RenderFault::Memory);
        }
        join(&mut self.bytes, lead.text(), self.joining.as_slice())
    }

    /// Adds a text as a line.
    pub(crate) fn add_line(&mut self, text: &[u8]) -> Result<(), RenderFault>
        ensures { Joins self.old.bytes.items (line_of text.now) result self.new.bytes.items }
    {
        if ends_line(text) {
            join(&mut self.bytes, text, Mark::Nothing.text())
        } else {
            join(&mut self.bytes, text, Mark::Feed.text())
        }
    }
}
