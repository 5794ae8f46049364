// The method that an object is asked for its text.

ghost use Rattle.std.specs.Prelude.{◌≡◌, false, map, slice_get, IfSome, None};
ghost use Rattle.std.specs.List.{list_any};
ghost use Rattle.std.specs.Option.{option_map};
ghost use Rattle.rb_model.specs.Values.{plain};
ghost use Rattle.rb_render.specs.Forms.{style_of};
ghost use Rattle.rb_walk.specs.Answers.{is_thing};
ghost use Rattle.rb_walk.specs.Texts.{IsAsked, IsUnasked, WritesBy, is_asking, is_text};
ghost use Rattle.rb_walk.specs.Lines.{IsLined, IsUnlined};

use crate::dispatch::Methods;
use crate::target::{Target, target_of};
use rb_model::{Ref, Sort, Value};
use rb_render::{Form, Style};
use rb_tree::Program;

/// The method that a value is asked for its text: `to_s` of its class, where that has no parameters.
pub fn asked_of<'p>(program: &Program, script: &Methods<'p>, value: &Value) -> Option<Target<'p>>
    ensures some { IfSome result (λ t. IsAsked script.now program.now (plain value.now) t.object t.method.now) }
    ensures none { result ≡ None → IsUnasked script.now program.now (plain value.now) }
{
    let Value::Ref(_) = value else {
        return None;
    };
    let name = program.names.find(b"to_s".as_slice())?;
    let target = target_of(script, value, name)?;
    if !target.method.params.is_empty() {
        return None;
    }
    Some(target)
}

/// Whether a value is a string.
pub fn is_text(value: &Value) -> bool
    ensures { result ≡ is_text (plain value.now) }
{
    match value {
        Value::Str(_) => true,
        _ => false,
    }
}

/// Whether one of values is a thing.
pub fn has_thing(values: &[Value]) -> bool
    ensures { result ≡ list_any is_thing (map plain values.now) }
{
    'values: for value in values {
        if let Value::Ref(_) = value {
            return true;
        }
    }
    false
}

/// The array that is written line by line, where it is the value of a slot.
pub fn lined(style: Style, room: &[Value], slot: usize) -> Option<Ref>
    ensures some { IfSome result (λ array. IsLined array (style_of style) (option_map plain (slice_get room.now slot))) }
    ensures none { result ≡ None → IsUnlined (style_of style) (option_map plain (slice_get room.now slot)) }
{
    match (style, room.get(slot)) {
        (Style::Lines, Some(Value::Ref(thing))) => match thing.sort {
            Sort::List => Some(*thing),
            _ => None,
        },
        _ => None,
    }
}

/// How a call writes its values one by one, where one of them is a thing that may be asked for its text.
pub fn style_by(form: Form, values: &[Value]) -> Option<Style>
    ensures some { IfSome result (λ style. WritesBy (style_of style) form (map plain values.now)) }
    ensures none { result ≡ None → is_asking form (map plain values.now) ≡ false }
{
    if !has_thing(values) {
        return None;
    }
    match form {
        Form::Puts => Some(Style::Lines),
        Form::Print => Some(Style::Plain),
        Form::Inspect => None,
    }
}
