// Locals of outside that a thread uses and that may still be assigned.

ghost use Rattle.std.specs.Prelude.{◌≡◌, List, [], reverse, IfOk};
ghost use Rattle.std.specs.List.{list_any, flat_map};
ghost use Rattle.rb_checker.specs.Around.{placed};
ghost use Rattle.rb_checker.specs.Assigned as table;
ghost use Rattle.rb_checker.specs.Fault.{first_of};
ghost use Rattle.rb_checker.specs.Settled as spec;
ghost use Rattle.rb_checker.specs.Settling as quick;
ghost use Rattle.rb_checker.specs.Walked.{Knows, uses_as};
ghost use Rattle.rb_checker.specs.declared.event.Event.{Event as Seen};
ghost use Rattle.rb_checker.specs.declared.locals.Local.{Local as Named};

use crate::event::{Around, Event, Sight};
use crate::fault::CheckFault;
use crate::first::first_of_two;
use crate::locals::{Local, Used};
use crate::settling::{Assignments, Held, enclosure_of, is_key};
use crate::walking::{Walk, known_in};
use rb_tree::{NameId, Span};
use std::alloc::{AllocError, Global};
use std::collections::{HashMap, HashSet};

/// Whether this opens the scope of a local.
pub(crate) fn opens(scope: Option<u32>, around: Around, at: Span) -> bool
    ensures { result ≡ spec.opens scope (around, at) }
{
    let Some(from) = scope else {
        return false;
    };
    match around {
        Around::Block | Around::Thread => from == at.from,
        Around::Loop | Around::Value(_) => false,
    }
}

/// Whether it is noted that this stands round an assignment to a local.
fn has_held(set: &HashSet<Held>, local: Local, around: Around, at: Span) -> bool
    ensures { result ≡ table.has_held set.now local (around, at) }
{
    let Some(enclosure) = enclosure_of(around) else {
        return false;
    };
    is_key(
        set,
        Held {
            local,
            enclosure,
            from: at.from,
        },
    )
}

/// Whether one of those that stand round, inside the scope of a local, stands round an assignment to it too. The innermost is last.
fn is_held(set: &HashSet<Held>, local: Local, round: &[(Around, Span)]) -> bool
    ensures { result ≡ list_any (table.has_held set.now local) (spec.within local.scope (reverse round.now)) }
{
    let [outer @ .., (innermost, at)] = round else {
        return false;
    };
    if opens(local.scope, *innermost, *at) {
        return false;
    }
    has_held(set, local, *innermost, *at) || is_held(set, local, outer)
}

/// Whether the value of an assignment to this name, where these stand round, is one to a local.
fn is_value_of(known: &HashSet<Local>, local: Local, name: NameId, round: &[(Around, Span)]) -> bool
    ensures { (locals : List Named) → Knows known.now locals → result ≡ quick.is_value_of locals local name (reverse round.now) }
{
    if name.0 != local.name {
        return false;
    }
    match known_in(known, name, round) {
        Some(other) => other == local,
        None => false,
    }
}

/// Whether the right side of an assignment to a local is among what stands round. The innermost is last.
fn in_value_of(known: &HashSet<Local>, local: Local, round: &[(Around, Span)]) -> bool
    ensures { (locals : List Named) → Knows known.now locals → result ≡ quick.in_value_of locals local (reverse round.now) }
{
    let [outer @ .., (innermost, _)] = round else {
        return false;
    };
    match innermost {
        Around::Value(name) => {
            is_value_of(known, local, *name, outer) || in_value_of(known, local, outer)
        }
        Around::Loop | Around::Block | Around::Thread => in_value_of(known, local, outer),
    }
}

/// Behind how many uses the last assignment to a local stands.
fn end_of(ends: &HashMap<Local, usize>, local: Local) -> usize
    ensures { result ≡ table.end_of ends.now local }
{
    match ends.get(&local) {
        Some(end) => *end,
        None => 0,
    }
}

impl Assignments {
    /// Whether a local is assigned behind the word that starts a thread at a place.
    fn is_assigned_behind(&self, local: Local, start: u32) -> bool
        ensures { result ≡ quick.is_assigned_behind self.now local start }
    {
        match self.starts.get(&start) {
            Some(before) => *before < end_of(&self.ends, local),
            None => false,
        }
    }

    /// Whether this is a thread that starts before an assignment to a local.
    fn is_early(&self, local: Local, around: Around, at: Span) -> bool
        ensures { result ≡ quick.is_early self.now local (around, at) }
    {
        match around {
            Around::Thread => self.is_assigned_behind(local, at.from),
            Around::Loop | Around::Block | Around::Value(_) => false,
        }
    }

    /// Whether each thread that stands round, inside the scope of a local, starts behind all assignments to it. The innermost is last.
    fn starts_behind(&self, local: Local, round: &[(Around, Span)]) -> bool
        ensures { result ≡ quick.starts_behind self.now local (reverse round.now) }
    {
        let [outer @ .., (innermost, at)] = round else {
            return true;
        };
        if opens(local.scope, *innermost, *at) {
            return true;
        }
        !self.is_early(local, *innermost, *at) && self.starts_behind(local, outer)
    }

    /// Whether a local that is used where these stand round is settled for each thread inside its scope. The innermost is last.
    fn is_settled(&self, local: Local, round: &[(Around, Span)]) -> bool
        ensures { (locals : List Named) → Knows self.now.known locals → result ≡ quick.is_settled self.now locals local (reverse round.now) }
    {
        let [outer @ .., (innermost, at)] = round else {
            return true;
        };
        if opens(local.scope, *innermost, *at) {
            return true;
        }
        match innermost {
            // What stands round a thread further out stands round this one too.
            Around::Thread => {
                !is_held(&self.held, local, outer)
                    && !in_value_of(&self.known, local, outer)
                    && self.starts_behind(local, round)
            }
            Around::Loop | Around::Block | Around::Value(_) => self.is_settled(local, outer),
        }
    }

    /// The fault at a use of a local, where that is not settled.
    fn unsettled_use(
        &self,
        round: &[(Around, Span)],
        used: Option<Used>,
        at: Span,
    ) -> Option<CheckFault>
        ensures { (locals : List Named) → Knows self.now.known locals
            → result ≡ first_of (flat_map (quick.unsettled_at self.now locals) (uses_as used (reverse round.now) at)) }
    {
        let used = used?;
        if self.is_settled(used.local, round) {
            None
        } else {
            Some(CheckFault::UnsettledCapture(at))
        }
    }
}

/// Whether a thread begins at an event.
fn begins_thread(event: &Event) -> bool
    ensures { result ≡ quick.begins_thread event.now.sight }
{
    match event.sight {
        Sight::Begins(Around::Thread) => true,
        _ => false,
    }
}

/// Whether a text starts a thread.
fn starts_thread(events: &[Event]) -> bool
    ensures { result ≡ list_any (λ (e : Seen). quick.begins_thread e.sight) events.now }
{
    'events: for event in events {
        if begins_thread(event) {
            return true;
        }
    }
    false
}

/// The first use, in a thread, of a local of outside that may still be assigned.
pub(crate) fn find_unsettled(
    alloc: Global,
    events: &[Event],
) -> Result<Option<CheckFault>, AllocError>
    ensures { IfOk result (λ found. found ≡ first_of (spec.unsettled (placed [] events.now))) }
{
    if !starts_thread(events) {
        return Ok(None);
    }
    let noted = Assignments::new(alloc, events)?;
    let mut walk = Walk::new(alloc);
    let mut found = None;
    'events: for event in events {
        let used = walk.used_at(event);
        let next = noted.unsettled_use(walk.round.as_slice(), used, event.at);
        found = first_of_two(found, next);
        walk.go_on(event, used)?;
    }
    Ok(found)
}
