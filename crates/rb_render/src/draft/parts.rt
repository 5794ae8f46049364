// Collections whose text is begun, and what comes next in them.

ghost use Rattle.std.specs.Prelude.{◌≡◌, [], map};
ghost use Rattle.rb_model.specs.Values.{plain, same_id};
ghost use Rattle.rb_machine.specs.Control.{OfArray, OfHash};
ghost use Rattle.rb_machine.specs.Drafts as spec;
ghost use Rattle.rb_render.specs.Drafting.{form_of, mark_text, reference, plain_pair, coming_of, after_key, open_of, opens, Takes, GoesOn};

use crate::draft::TextForm;
use crate::draft::marks::{Mark, closing, comma};
use rb_model::{Id, Ref, Value};
use std::collections::VecDeque;

/// What comes next in a text: what is left of the innermost collection; or a value, or a pair, behind these bytes.
#[derive(Drop)]
pub(crate) enum Coming {
    Between,
    OfValue(Mark, Value),
    OfPair(Mark, Value, Value),
}

/// The bytes before a value.
pub(crate) fn lead_of(coming: &Coming) -> Mark
    ensures { mark_text result ≡ spec.lead_of (coming_of coming.now) }
{
    match coming {
        Coming::OfValue(lead, _) => *lead,
        Coming::Between | Coming::OfPair(..) => Mark::Nothing,
    }
}

/// What comes next behind the key of a pair: its value.
pub(crate) fn behind_key(coming: Coming) -> Coming
    ensures { coming_of result ≡ after_key (coming_of coming) }
{
    match coming {
        Coming::OfPair(_, _, value) => Coming::OfValue(Mark::Nothing, value),
        Coming::Between => Coming::Between,
        Coming::OfValue(lead, value) => Coming::OfValue(lead, value),
    }
}

/// What is left of a collection.
#[derive(Drop)]
pub(crate) enum Left {
    Values(VecDeque<Value>),
    Pairs(VecDeque<(Value, Value)>),
}

/// A collection whose text is begun, with the bytes before what comes next in it.
#[derive(Drop)]
pub(crate) struct Begun {
    pub(crate) thing: Ref,
    pub(crate) lead: Mark,
    pub(crate) left: Left,
}

/// What comes next in a collection: an element or a pair, or its end with these bytes.
#[derive(Drop)]
pub(crate) enum Next {
    Comes(Coming),
    Ends(Mark),
}

impl Begun {
    /// An array, as it begins.
    pub(crate) fn of_elements(thing: Ref, values: Vec<Value>) -> Begun
        ensures { open_of result ≡ OfArray (reference thing) [] (map plain values.items) }
    {
        Begun {
            thing,
            lead: Mark::Nothing,
            left: Left::Values(VecDeque::from(values)),
        }
    }

    /// A hash, as it begins.
    pub(crate) fn of_pairs(thing: Ref, pairs: Vec<(Value, Value)>) -> Begun
        ensures { open_of result ≡ OfHash (reference thing) [] (map plain_pair pairs.items) }
    {
        Begun {
            thing,
            lead: Mark::Nothing,
            left: Left::Pairs(VecDeque::from(pairs)),
        }
    }

    /// Takes what comes next out of a collection.
    pub(crate) fn next(&mut self, form: TextForm) -> Next
        ensures { Takes (form_of form) (open_of self.old) result (open_of self.new) }
    {
        let lead = self.lead;
        match &mut self.left {
            Left::Values(values) => match values.pop_front() {
                None => Next::Ends(closing(form)),
                Some(value) => {
                    self.lead = comma(form);
                    Next::Comes(Coming::OfValue(lead, value))
                }
            },
            Left::Pairs(pairs) => match pairs.pop_front() {
                None => Next::Ends(Mark::CloseBrace),
                Some((key, value)) => {
                    self.lead = Mark::Comma;
                    Next::Comes(Coming::OfPair(lead, key, value))
                }
            },
        }
    }
}

/// Takes what comes next out of the innermost collection.
pub(crate) fn next_in(begun: &mut Vec<Begun>, form: TextForm) -> Option<Next>
    ensures { GoesOn (form_of form) (opens begun.old.items) result (opens begun.new.items) }
{
    let innermost = begun.last_mut()?;
    Some(innermost.next(form))
}

/// What is written of an array without elements.
pub(crate) fn no_elements(begun: &[Begun]) -> Mark
    ensures { mark_text result ≡ spec.empty_lines (opens begun.now) }
{
    if begun.is_empty() {
        Mark::Feed
    } else {
        Mark::Nothing
    }
}

/// Whether two numbers are those of one thing.
fn is_one(a: Id, b: Id) -> bool
    ensures { result ≡ same_id a b }
{
    a.thread == b.thread && a.serial == b.serial
}

/// Whether the text of a collection is begun.
pub(crate) fn is_begun(begun: &[Begun], thing: Ref) -> bool
    ensures { result ≡ spec.is_open (reference thing) (opens begun.now) }
{
    let id = thing.id;
    begun.iter().any(|open| is_one(id, open.thing.id))
}
