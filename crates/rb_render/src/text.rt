// The texts of values.

ghost use Rattle.std.specs.Prelude.{◌≡◌, ◌++◌, ◌∷◌, [], List, OnOk, slice_get, unwrap_or};
ghost use Rattle.std.specs.Fmt.{signed_decimal};
ghost use Rattle.rb_model.specs.Values.{plain};
ghost use Rattle.rb_machine.specs.Texts as spec;

use rb_model::{Sort, Value};
use rb_tree::{NameId, Names, Program};
use std::alloc::{AllocError, Global};

/// The text of a name, empty where there is no such name.
pub fn name_text(names: &Names, name: NameId) -> &[u8]
    ensures { result.now ≡ unwrap_or (slice_get names.now name.0) [] }
{
    if (name.0 as usize) < names.len() {
        names.text(name)
    } else {
        b"".as_slice()
    }
}

/// The name of the class of this number, empty where there is no such class.
pub fn class_text(program: &Program, class: u32) -> &[u8]
    ensures { result.now ≡ spec.class_text program.now (slice_get program.now.classes class) }
{
    match program.classes.get(class as usize) {
        None => b"".as_slice(),
        Some(class) => name_text(&program.names, class.name),
    }
}

/// Adds bytes behind others.
pub(crate) fn add(out: &mut Vec<u8>, bytes: &[u8]) -> Result<(), AllocError>
    ensures { OnOk result (out.new.items ≡ out.old.items ++ bytes.now) }
{
    out.extend_from_slice(bytes)?;
    Ok(())
}

/// Adds the decimal form of an integer.
fn add_integer(alloc: Global, out: &mut Vec<u8>, n: i64) -> Result<(), AllocError>
    ensures { OnOk result (out.new.items ≡ out.old.items ++ signed_decimal n) }
{
    let digits = format!(in alloc; "{n}")?;
    add(out, digits.as_bytes())
}

/// Adds how a thing is told by its class.
fn add_told(out: &mut Vec<u8>, program: &Program, sort: Sort) -> Result<(), AllocError>
    ensures { OnOk result (out.new.items ≡ out.old.items ++ spec.told program.now sort) }
{
    match sort {
        Sort::Object(class) => {
            add(out, b"#<".as_slice())?;
            add(out, class_text(program, class))?;
            add(out, b">".as_slice())
        }
        Sort::Thread => add(out, b"#<Thread>".as_slice()),
        Sort::Mutex => add(out, b"#<Mutex>".as_slice()),
        Sort::List | Sort::Pairs => Ok(()),
    }
}

/// Adds the text of a value, as the table's `to_s` gives it: a thing is told by its class, whatever its class says of it.
pub fn add_shown(
    alloc: Global,
    out: &mut Vec<u8>,
    program: &Program,
    value: &Value,
) -> Result<(), AllocError>
    ensures { OnOk result (out.new.items ≡ out.old.items ++ spec.shown program.now (plain value.now)) }
{
    match value {
        Value::Nil => Ok(()),
        Value::False => add(out, b"false".as_slice()),
        Value::True => add(out, b"true".as_slice()),
        Value::Int(n) => add_integer(alloc, out, *n),
        Value::Sym(name) => add(out, name_text(&program.names, *name)),
        Value::Str(text) => add(out, text.as_slice()),
        Value::Ref(thing) => add_told(out, program, thing.sort),
    }
}

/// Whether bytes begin code or a variable behind a `#`.
fn begins_code(behind: &[u8]) -> bool
    ensures { result ≡ spec.begins_code behind.now }
{
    match behind {
        [] => false,
        [first, ..] => *first == b'{' || *first == b'$' || *first == b'@',
    }
}

/// Adds a byte as it stands in an inspected text, by what stands behind it.
fn add_escaped_byte(out: &mut Vec<u8>, byte: u8, behind: &[u8]) -> Result<(), AllocError>
    ensures { OnOk result (out.new.items ≡ out.old.items ++ spec.escaped_byte byte behind.now) }
{
    match byte {
        b'\n' => add(out, b"\\n".as_slice()),
        b'\t' => add(out, b"\\t".as_slice()),
        b'"' => add(out, b"\\\"".as_slice()),
        b'\\' => add(out, b"\\\\".as_slice()),
        b'#' if begins_code(behind) => add(out, b"\\#".as_slice()),
        _ => {
            out.push(byte)?;
            Ok(())
        }
    }
}

/// Adds bytes as they stand in an inspected text.
fn add_escaped(out: &mut Vec<u8>, bytes: &[u8]) -> Result<(), AllocError>
    ensures { OnOk result (out.new.items ≡ out.old.items ++ spec.escaped bytes.now) }
{
    out.try_reserve(bytes.len())?;
    let mut rest = bytes;
    'bytes: while let [byte, behind @ ..] = rest {
        add_escaped_byte(out, *byte, behind)?;
        rest = behind;
    }
    Ok(())
}

/// Adds the inspected form of a value, as `p` and `inspect` give it.
pub fn add_inspected(
    alloc: Global,
    out: &mut Vec<u8>,
    program: &Program,
    value: &Value,
) -> Result<(), AllocError>
    ensures { OnOk result (out.new.items ≡ out.old.items ++ spec.inspected program.now (plain value.now)) }
{
    match value {
        Value::Nil => add(out, b"nil".as_slice()),
        Value::False => add(out, b"false".as_slice()),
        Value::True => add(out, b"true".as_slice()),
        Value::Int(n) => add_integer(alloc, out, *n),
        Value::Sym(name) => {
            add(out, b":".as_slice())?;
            add(out, name_text(&program.names, *name))
        }
        Value::Str(text) => {
            add(out, b"\"".as_slice())?;
            add_escaped(out, text.as_slice())?;
            add(out, b"\"".as_slice())
        }
        Value::Ref(thing) => add_told(out, program, thing.sort),
    }
}
