// What there may only be so many of: variables and classes.

ghost use Rattle.std.specs.Prelude.{◌≡◌, ◌++◌, ◌∷◌, [], ℕ, List, map, IfOk, OnOk};
ghost use Rattle.rb_tree.specs.declared.span.NameId.{NameId as Id};
ghost use Rattle.rb_tree.specs.declared.node.Class.{Class as Kind};
ghost use Rattle.rb_checker.specs.Crowd as spec;
ghost use Rattle.rb_checker.specs.Crowded.{IsCrowd};
ghost use Rattle.rb_checker.specs.Fault.{first_of};

use crate::event::{Event, Sight};
use crate::fault::CheckFault;
use crate::first::first_of_two;
use crate::sets::{add, has};
use rb_tree::{Class, NameId, Span};
use std::alloc::{AllocError, Global};
use std::collections::HashSet;

/// How many instance variables a class may have.
pub(crate) const MAX_FIELDS: usize = 32;

/// How many global variables a script may have.
pub(crate) const MAX_GLOBALS: usize = 256;

/// How many classes a script may have.
const MAX_CLASSES: usize = 256;

/// Adds the instance variable of an event.
fn add_field(uses: &mut Vec<(NameId, Span)>, event: &Event) -> Result<(), AllocError>
    ensures { OnOk result (uses.new.items ≡ uses.old.items ++ spec.field_use event.now.sight event.now.at) }
{
    if let Sight::Field(name) = event.sight {
        uses.push((name, event.at))?;
    }
    Ok(())
}

/// Adds the instance variables of a text, each where it stands.
pub(crate) fn add_fields(uses: &mut Vec<(NameId, Span)>, events: &[Event]) -> Result<(), AllocError>
    ensures { OnOk result (uses.new.items ≡ uses.old.items ++ spec.fields_in events.now) }
{
    'events: for event in events {
        add_field(uses, event)?;
    }
    Ok(())
}

/// Adds the global variable of an event.
fn add_global(uses: &mut Vec<(NameId, Span)>, event: &Event) -> Result<(), AllocError>
    ensures { OnOk result (uses.new.items ≡ uses.old.items ++ spec.global_use event.now.sight event.now.at) }
{
    if let Sight::Global(name) = event.sight {
        uses.push((name, event.at))?;
    }
    Ok(())
}

/// Adds the global variables of a text, each where it stands.
pub(crate) fn add_globals(
    uses: &mut Vec<(NameId, Span)>,
    events: &[Event],
) -> Result<(), AllocError>
    ensures { OnOk result (uses.new.items ≡ uses.old.items ++ spec.globals_in events.now) }
{
    'events: for event in events {
        add_global(uses, event)?;
    }
    Ok(())
}

/// Puts uses in the order of the text.
pub(crate) fn sort_by_place(uses: &mut Vec<(NameId, Span)>) -> Result<(), AllocError>
    ensures { OnOk result (uses.new.items ≡ spec.by_place uses.old.items) }
{
    uses.sort_by_key(|place| place.1.from)
}

/// The names that were seen, and how many more there may be.
#[derive(Drop)]
struct Crowd {
    seen: HashSet<u32>,
    left: usize,
}

impl Crowd {
    /// The fault at a name that is new where there may be no more. It is seen from then on.
    fn see(&mut self, name: NameId, at: Span) -> Result<Option<CheckFault>, AllocError>
        ensures fault { IfOk result (λ found. (limit : ℕ) (before : List Id) → IsCrowd self.old limit before → found ≡ first_of (spec.crowded_behind limit before ((name, at) ∷ []))) }
        ensures kept { OnOk result ((limit : ℕ) (before : List Id) → IsCrowd self.old limit before → IsCrowd self.new limit (spec.seen_behind before ((name, at) ∷ []))) }
    {
        if has(&self.seen, name) {
            return Ok(None);
        }
        add(&mut self.seen, name)?;
        if self.left == 0 {
            return Ok(Some(CheckFault::TooManyFields(at)));
        }
        self.left -= 1;
        Ok(None)
    }
}

/// The first variable that is one too many.
pub(crate) fn crowded(
    alloc: Global,
    limit: usize,
    uses: &[(NameId, Span)],
) -> Result<Option<CheckFault>, AllocError>
    ensures { IfOk result (λ found. found ≡ first_of (spec.crowded limit uses.now)) }
{
    let mut crowd = Crowd {
        seen: HashSet::new(alloc),
        left: limit,
    };
    let mut found = None;
    'uses: for place in uses {
        let next = crowd.see(place.0, place.1)?;
        found = first_of_two(found, next);
    }
    Ok(found)
}

/// The first of these classes, which are too many.
fn first_class(classes: &[Class]) -> Option<CheckFault>
    ensures { result ≡ first_of (map (λ (c : Kind). CheckFault.TooManyClasses c.at) classes.now) }
{
    let mut found = None;
    'classes: for class in classes {
        found = first_of_two(found, Some(CheckFault::TooManyClasses(class.at)));
    }
    found
}

/// The first class behind those that there may be.
pub(crate) fn crowded_class(classes: &[Class]) -> Option<CheckFault>
    ensures { result ≡ first_of (spec.classes_crowded classes.now) }
{
    if classes.len() <= MAX_CLASSES {
        return None;
    }
    first_class(&classes[MAX_CLASSES..])
}
