// The bytes of a text.

ghost use Rattle.std.specs.Prelude.{◌≡◌, ◌≤◌, ◌<◌, ◌++◌, ◌∷◌, [], length, Err, OnOk};
ghost use Rattle.rb_model.specs.Values.{plain};
ghost use Rattle.rb_machine.specs.Scopes.{Script};
ghost use Rattle.rb_machine.specs.Call.{bytes_of};
ghost use Rattle.rb_machine.specs.Texts.{inspected, max_bytes, shown};

use rb_model::Value;
use rb_render::{RenderFault, Style, add_inspected, add_shown, add_text};
use rb_tree::Program;
use std::alloc::{AllocError, Global};

/// Adds bytes behind others.
pub fn add_bytes(out: &mut Vec<u8>, bytes: &[u8]) -> Result<(), AllocError>
    ensures { OnOk result (out.new.items ≡ out.old.items ++ bytes.now) }
{
    out.extend_from_slice(bytes)?;
    Ok(())
}

/// Adds the text of a value behind bytes.
pub fn add_value(
    alloc: Global,
    out: &mut Vec<u8>,
    program: &Program,
    value: Value,
) -> Result<(), AllocError>
    ensures { OnOk result (out.new.items ≡ out.old.items ++ shown program.now (plain value)) }
{
    add_shown(alloc, out, program, &value)
}

/// Adds a text and a line feed behind bytes that are printed, which may not grow too long.
fn add_line(out: &mut Vec<u8>, text: &[u8]) -> Result<(), RenderFault>
    ensures text { OnOk result (out.new.items ≡ out.old.items ++ (text.now ++ 10 ∷ [])) }
    ensures fits { OnOk result (length out.new.items ≤ max_bytes) }
    ensures too_long { result ≡ Err RenderFault.TooLong → max_bytes < length (out.old.items ++ (text.now ++ 10 ∷ [])) }
{
    if let Err(_) = add_bytes(out, text) {
        return Err(RenderFault::Memory);
    }
    add_text(out, Style::Plain, b"\n".as_slice())
}

/// Adds a string as a line; another value is written as none.
pub fn add_string_line(out: &mut Vec<u8>, value: &Value) -> Result<(), RenderFault>
    ensures text { (S : Script) → OnOk result (out.new.items ≡ out.old.items ++ (bytes_of S (plain value.now) ++ 10 ∷ [])) }
    ensures fits { OnOk result (length out.new.items ≤ max_bytes) }
    ensures too_long { (S : Script) → result ≡ Err RenderFault.TooLong → max_bytes < length (out.old.items ++ (bytes_of S (plain value.now) ++ 10 ∷ [])) }
{
    match value {
        Value::Str(text) => add_line(out, text.as_slice()),
        _ => add_line(out, b"".as_slice()),
    }
}

/// Adds the inspected form of a value that is not read for it, as a line.
pub fn add_inspected_line(
    alloc: Global,
    out: &mut Vec<u8>,
    program: &Program,
    value: &Value,
) -> Result<(), RenderFault>
    ensures text { OnOk result (out.new.items ≡ out.old.items ++ (inspected program.now (plain value.now) ++ 10 ∷ [])) }
    ensures fits { OnOk result (length out.new.items ≤ max_bytes) }
    ensures too_long { result ≡ Err RenderFault.TooLong → max_bytes < length (out.old.items ++ (inspected program.now (plain value.now) ++ 10 ∷ [])) }
{
    if let Err(_) = add_inspected(alloc, out, program, value) {
        return Err(RenderFault::Memory);
    }
    add_text(out, Style::Plain, b"\n".as_slice())
}
