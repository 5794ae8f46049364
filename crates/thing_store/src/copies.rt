// Copies of values that stay where they are. No bytes are copied.

ghost use Rattle.std.specs.Prelude.{◌≡◌, IfOk, true};
ghost use Rattle.std.specs.Result.{IsOk};
ghost use Rattle.rb_model.specs.Doing.{doing};
ghost use Rattle.rb_model.specs.Ends.{over};
ghost use Rattle.rb_model.specs.Log.{End as Last, is_sure};

use rb_model::{Act, End, Field, Value};
use std::alloc::{AllocError, Global};

/// The same values.
pub fn copied_values(alloc: Global, values: &[Value]) -> Result<Vec<Value>, AllocError>
    ensures { IfOk result (λ copies. copies.items ≡ values.now) }
{
    let mut copies = Vec::with_capacity(alloc, values.len())?;
    'values: for value in values {
        copies.push(value.share()?)?;
    }
    Ok(copies)
}

/// The same pairs.
pub fn copied_pairs(
    alloc: Global,
    pairs: &[(Value, Value)],
) -> Result<Vec<(Value, Value)>, AllocError>
    ensures { IfOk result (λ copies. copies.items ≡ pairs.now) }
{
    let mut copies = Vec::with_capacity(alloc, pairs.len())?;
    'pairs: for pair in pairs {
        copies.push((pair.0.share()?, pair.1.share()?))?;
    }
    Ok(copies)
}

/// The same fields.
pub fn copied_fields(alloc: Global, fields: &[Field]) -> Result<Vec<Field>, AllocError>
    ensures { IfOk result (λ copies. copies.items ≡ fields.now) }
{
    let mut copies = Vec::with_capacity(alloc, fields.len())?;
    'fields: for field in fields {
        copies.push(copied_field(field)?)?;
    }
    Ok(copies)
}

fn copied_field(field: &Field) -> Result<Field, AllocError>
    ensures { IfOk result (λ copy. copy ≡ field.now) }
{
    Ok(Field {
        name: field.name,
        value: field.value.share()?,
        wide: field.wide,
    })
}

/// How a thread ends. An end that is no value wants no memory.
pub fn copied_end(how: &End) -> Result<End, AllocError>
    ensures same { IfOk result (λ copy. over copy ≡ over how.now) }
    ensures sure { is_sure (Last (over how.now)) ≡ true → IsOk result }
{
    Ok(match how {
        End::Value(value) => End::Value(value.share()?),
        End::Raised(fault, at) => End::Raised(*fault, *at),
        End::Steps => End::Steps,
        End::Full { used, asked } => End::Full {
            used: *used,
            asked: *asked,
        },
        End::Sink => End::Sink,
        End::Memory => End::Memory,
    })
}

/// What is asked of a thing.
pub fn copied_act(act: &Act) -> Result<Act, AllocError>
    ensures { IfOk result (λ copy. doing copy ≡ doing act.now) }
{
    Ok(match act {
        Act::GetField(name) => Act::GetField(*name),
        Act::SetField(name, value) => Act::SetField(*name, value.share()?),
        Act::At(index) => Act::At(*index),
        Act::Put(index, value) => Act::Put(*index, value.share()?),
        Act::Push(value) => Act::Push(value.share()?),
        Act::Unshift(value) => Act::Unshift(value.share()?),
        Act::Pop => Act::Pop,
        Act::Shift => Act::Shift,
        Act::DeleteAt(index) => Act::DeleteAt(*index),
        Act::KGet(key) => Act::KGet(key.share()?),
        Act::KHas(key) => Act::KHas(key.share()?),
        Act::KPut(key, value) => Act::KPut(key.share()?, value.share()?),
        Act::KDelete(key) => Act::KDelete(key.share()?),
        Act::Clear => Act::Clear,
        Act::Len => Act::Len,
        Act::Copy => Act::Copy,
        Act::Join => Act::Join,
        Act::Lock => Act::Lock,
        Act::Unlock => Act::Unlock,
    })
}
