// One object.

ghost use Rattle.std.specs.Prelude.{◌≡◌, ◌||◌, ℕ, not, map, false, IfOk, OnOk, OnErr, IfSome, None};
ghost use Rattle.rb_model.specs.Values.{plain};
ghost use Rattle.rb_model.specs.Doing.{doing, slot};
ghost use Rattle.rb_model.specs.Things.{field, with_field, is_integer as is_integer_value};
ghost use Rattle.thing_store.specs.Kept.{Acts};
ghost use Rattle.thing_store.specs.Fields.{StandsAt, has_field, object_of};

use rb_model::{Act, Fault, Field, Reply, Value};
use rb_tree::NameId;
use std::alloc::AllocError;

/// Does what is asked of an object of a class, whoever asks.
pub fn apply(class: u32, fields: &mut Vec<Field>, act: Act) -> Result<Reply, AllocError>
    ensures { (thread : ℕ) → Acts thread (object_of class fields.old.items) (doing act) result (object_of class fields.new.items) }
{
    let _ = class;
    match act {
        Act::GetField(name) => Ok(Reply::Value(read(fields, name)?)),
        Act::SetField(name, value) => {
            write(fields, name, value)?;
            Ok(Reply::Done)
        }
        _ => Ok(Reply::Failed(Fault::NoMethod)),
    }
}

/// The value of a field, nil where it was never written.
fn read(fields: &[Field], name: NameId) -> Result<Value, AllocError>
    ensures { IfOk result (λ value. plain value ≡ field name (map slot fields.now)) }
{
    'fields: for found in fields {
        if found.name.0 == name.0 {
            return found.value.share();
        }
    }
    Ok(Value::Nil)
}

/// Gives a field a value: in its place, or behind all others where its name is new.
fn write(fields: &mut Vec<Field>, name: NameId, value: Value) -> Result<(), AllocError>
    ensures done { OnOk result (map slot fields.new.items ≡ with_field name (plain value) (map slot fields.old.items)) }
    ensures kept { OnErr result (map slot fields.new.items ≡ map slot fields.old.items) }
{
    if let Some(place) = place_of(fields, name) {
        let found = &mut fields[place];
        found.wide = widened(found.wide, &value);
        found.value = value;
        return Ok(());
    }
    let wide = widened(false, &value);
    fields.push(Field { name, value, wide })?;
    Ok(())
}

/// Where the field of a name stands.
fn place_of(fields: &[Field], name: NameId) -> Option<usize>
    ensures there { IfSome result (λ place. StandsAt name place (map slot fields.now)) }
    ensures none { result ≡ None → has_field name (map slot fields.now) ≡ false }
{
    'fields: for (place, found) in fields.iter().enumerate() {
        if found.name.0 == name.0 {
            return Some(place);
        }
    }
    None
}

/// Whether a field is wide behind a write, that was so or was not.
fn widened(was: bool, value: &Value) -> bool
    ensures { result ≡ (was || not (is_integer_value (plain value.now))) }
{
    was || !is_integer(value)
}

fn is_integer(value: &Value) -> bool
    ensures { result ≡ is_integer_value (plain value.now) }
{
    match value {
        Value::Int(_) => true,
        _ => false,
    }
}
