// The texts that `puts` and `print` write, one by one.

ghost use Rattle.std.specs.Prelude.{◌≡◌, ◌≤◌, ◌<◌, ◌++◌, Err, OnOk, length};
ghost use Rattle.rb_model.specs.Values.{plain};
ghost use Rattle.rb_machine.specs.Texts.{shown, styled, max_bytes};
ghost use Rattle.rb_render.specs.Forms as spec;

use crate::show::{MAX_BYTES, RenderFault, add_feed, add_line, ends_line};
use crate::text::{add, add_shown};
use rb_model::Value;
use rb_tree::Program;
use std::alloc::{AllocError, Global};

/// How texts are printed one by one.
#[derive(Clone, Copy, Debug, PartialEq, Eq)]
pub enum Style {
    /// `puts` makes a line of each.
    Lines,
    /// `print` writes them as they are.
    Plain,
}

/// Adds a text as a style wants it.
fn add_styled(out: &mut Vec<u8>, style: Style, text: &[u8]) -> Result<(), AllocError>
    ensures { OnOk result (out.new.items ≡ out.old.items ++ styled (spec.style_of style) text.now) }
{
    add(out, text)?;
    match style {
        Style::Lines if !ends_line(text) => add_feed(out),
        Style::Lines | Style::Plain => Ok(()),
    }
}

/// Adds the text of a value as a style wants it.
fn add_styled_value(
    alloc: Global,
    out: &mut Vec<u8>,
    program: &Program,
    style: Style,
    value: &Value,
) -> Result<(), AllocError>
    ensures { OnOk result (out.new.items ≡ out.old.items ++ styled (spec.style_of style) (shown program.now (plain value.now))) }
{
    match style {
        Style::Lines => add_line(alloc, out, program, value),
        Style::Plain => add_shown(alloc, out, program, value),
    }
}

/// Adds a text that is printed behind bytes, which may not grow too long.
pub fn add_text(out: &mut Vec<u8>, style: Style, text: &[u8]) -> Result<(), RenderFault>
    ensures text { OnOk result (out.new.items ≡ out.old.items ++ styled (spec.style_of style) text.now) }
    ensures fits { OnOk result (length out.new.items ≤ max_bytes) }
    ensures too_long { result ≡ Err RenderFault.TooLong → max_bytes < length (out.old.items ++ styled (spec.style_of style) text.now) }
{
    if let Err(_) = add_styled(out, style, text) {
        return Err(RenderFault::Memory);
    }
    if out.len() > MAX_BYTES {
        return Err(RenderFault::TooLong);
    }
    Ok(())
}

/// Adds the text of a value that is printed behind bytes, which may not grow too long. No `to_s` of a script is asked for it.
pub fn add_value(
    alloc: Global,
    out: &mut Vec<u8>,
    program: &Program,
    style: Style,
    value: &Value,
) -> Result<(), RenderFault>
    ensures text { OnOk result (out.new.items ≡ out.old.items ++ styled (spec.style_of style) (shown program.now (plain value.now))) }
    ensures fits { OnOk result (length out.new.items ≤ max_bytes) }
    ensures too_long { result ≡ Err RenderFault.TooLong → max_bytes < length (out.old.items ++ styled (spec.style_of style) (shown program.now (plain value.now))) }
{
    if let Err(_) = add_styled_value(alloc, out, program, style, value) {
        return Err(RenderFault::Memory);
    }
    if out.len() > MAX_BYTES {
        return Err(RenderFault::TooLong);
    }
    Ok(())
}
