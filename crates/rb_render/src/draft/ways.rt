// What a value needs before its text is there.

ghost use Rattle.rb_model.specs.Values.{To, plain};
ghost use Rattle.rb_machine.specs.Control.{Inspected, Lined};
ghost use Rattle.rb_render.specs.Drafting.{form_of, reference, IsWay};

use crate::draft::TextForm;
use rb_model::{Ref, Sort, Value};

/// What a value needs.
#[derive(Clone, Copy)]
pub(crate) enum Way {
    /// Nothing: its text is known.
    Known,
    /// A collection is read.
    Read(Ref),
    /// Its text is asked for.
    Asked,
}

/// What a thing needs for its inspected text.
fn inspected_way(thing: Ref) -> Way
    ensures { IsWay Inspected (To (reference thing)) result }
{
    match thing.sort {
        Sort::List | Sort::Pairs => Way::Read(thing),
        Sort::Object(_) | Sort::Mutex | Sort::Thread => Way::Known,
    }
}

/// What a thing needs for its line.
fn lined_way(thing: Ref) -> Way
    ensures { IsWay Lined (To (reference thing)) result }
{
    match thing.sort {
        Sort::List => Way::Read(thing),
        Sort::Object(_) | Sort::Pairs | Sort::Mutex | Sort::Thread => Way::Asked,
    }
}

/// What a value needs.
pub(crate) fn way_of(form: TextForm, value: &Value) -> Way
    ensures { IsWay (form_of form) (plain value.now) result }
{
    match form {
        TextForm::Inspected => match value {
            Value::Ref(thing) => inspected_way(*thing),
            _ => Way::Known,
        },
        TextForm::Lined => match value {
            Value::Ref(thing) => lined_way(*thing),
            _ => Way::Asked,
        },
    }
}
