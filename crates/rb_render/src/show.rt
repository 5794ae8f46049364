// What the calls that show values write.

ghost use Rattle.std.specs.Prelude.{◌≡◌, ◌≤◌, ◌<◌, ◌++◌, ◌∷◌, [], List, Err, IfOk, OnOk, OnErr, map, length};
ghost use Rattle.std.specs.List.{flat_map};
ghost use Rattle.rb_model.specs.Values.{plain};
ghost use Rattle.rb_machine.specs.Texts.{ends_line, line_of, shown, max_bytes};
ghost use Rattle.rb_render.specs.Forms as spec;

use crate::text::{add_inspected, add_shown};
use rb_model::Value;
use rb_tree::Program;
use std::alloc::{AllocError, Global};

/// How many bytes one print has at most, and one text.
pub const MAX_BYTES: usize = 16_777_216;

/// The calls that show values.
#[derive(Clone, Copy, Debug, PartialEq, Eq)]
pub enum Form {
    /// `puts`
    Puts,
    /// `print`
    Print,
    /// `p`
    Inspect,
}

/// Why there is no text.
#[derive(Clone, Copy, Debug, PartialEq, Eq)]
pub enum RenderFault {
    /// It has more than 16,777,216 bytes.
    TooLong,
    Memory,
}

/// Adds a line feed.
pub(crate) fn add_feed(out: &mut Vec<u8>) -> Result<(), AllocError>
    ensures { OnOk result (out.new.items ≡ out.old.items ++ 10 ∷ []) }
{
    out.push(b'\n')?;
    Ok(())
}

/// Whether bytes end with a line feed.
pub(crate) fn ends_line(bytes: &[u8]) -> bool
    ensures { result ≡ ends_line bytes.now }
{
    match bytes.last() {
        None => false,
        Some(last) => *last == b'\n',
    }
}

/// Adds the line of a value: its text, and a line feed unless that ends with one.
pub(crate) fn add_line(
    alloc: Global,
    out: &mut Vec<u8>,
    program: &Program,
    value: &Value,
) -> Result<(), AllocError>
    ensures { OnOk result (out.new.items ≡ out.old.items ++ line_of (shown program.now (plain value.now))) }
{
    let start = out.len();
    add_shown(alloc, out, program, value)?;
    if !ends_line(&out.as_slice()[start..]) {
        add_feed(out)?;
    }
    Ok(())
}

/// Adds what a call writes of one value.
fn add_part(
    alloc: Global,
    out: &mut Vec<u8>,
    program: &Program,
    form: Form,
    value: &Value,
) -> Result<(), AllocError>
    ensures { OnOk result (out.new.items ≡ out.old.items ++ spec.part program.now form (plain value.now)) }
{
    match form {
        Form::Puts => add_line(alloc, out, program, value),
        Form::Print => add_shown(alloc, out, program, value),
        Form::Inspect => {
            add_inspected(alloc, out, program, value)?;
            add_feed(out)
        }
    }
}

/// What a call writes of values one by one.
fn render_all(
    alloc: Global,
    program: &Program,
    form: Form,
    values: &[Value],
) -> Result<Vec<u8>, RenderFault>
    ensures text { IfOk result (λ text. text.items ≡ spec.parts program.now form (map plain values.now)) }
    ensures fits { IfOk result (λ text. length text.items ≤ max_bytes) }
    ensures too_long { result ≡ Err RenderFault.TooLong → max_bytes < length (spec.parts program.now form (map plain values.now)) }
{
    let mut out = Vec::new(alloc);
    'values: for value in values {
        if let Err(_) = add_part(alloc, &mut out, program, form, value) {
            return Err(RenderFault::Memory);
        }
        if out.len() > MAX_BYTES {
            return Err(RenderFault::TooLong);
        }
    }
    Ok(out)
}

/// Whether a call is `puts` without values.
fn is_blank(form: Form, values: &[Value]) -> bool
    ensures { result ≡ spec.is_blank form (map plain values.now) }
{
    match form {
        Form::Puts => values.is_empty(),
        Form::Print | Form::Inspect => false,
    }
}

/// What a call writes of values of which no `to_s` is asked, where that is not too long.
#[tactic(auto, using(crate::proofs::Writing::written_is))]
pub fn render(
    alloc: Global,
    program: &Program,
    form: Form,
    values: &[Value],
) -> Result<Vec<u8>, RenderFault>
    ensures text { IfOk result (λ text. text.items ≡ spec.written program.now form (map plain values.now)) }
    ensures fits { IfOk result (λ text. length text.items ≤ max_bytes) }
    ensures too_long { result ≡ Err RenderFault.TooLong → max_bytes < length (spec.written program.now form (map plain values.now)) }
{
    if !is_blank(form, values) {
        return render_all(alloc, program, form, values);
    }
    let mut out = Vec::new(alloc);
    if let Err(_) = add_feed(&mut out) {
        return Err(RenderFault::Memory);
    }
    Ok(out)
}
