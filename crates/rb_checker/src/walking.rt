// A walk through the events of a text.

ghost use Rattle.std.specs.Prelude.{◌≡◌, List, [], ◌∷◌, reverse, OnOk};
ghost use Rattle.rb_checker.specs.Around as around;
ghost use Rattle.rb_checker.specs.Locals as spec;
ghost use Rattle.rb_checker.specs.Walked.{Knows, uses_as};
ghost use Rattle.rb_checker.specs.declared.locals.Local.{Local as Named};

use crate::event::{Around, Event, Sight};
use crate::locals::{Local, Usage, Used, add_local, has_local};
use crate::rules::go_behind;
use rb_tree::{NameId, Span};
use std::alloc::{AllocError, Global};
use std::collections::HashSet;

/// The innermost scope. What stands round is given, the innermost last.
pub(crate) fn innermost_scope(round: &[(Around, Span)]) -> Option<u32>
    ensures { result ≡ spec.innermost (spec.scopes_of (reverse round.now)) }
{
    let [outer @ .., (innermost, at)] = round else {
        return None;
    };
    match innermost {
        Around::Block | Around::Thread => Some(at.from),
        Around::Loop | Around::Value(_) => innermost_scope(outer),
    }
}

/// The local of a name, in the innermost scope in which it is known.
pub(crate) fn known_in(
    known: &HashSet<Local>,
    name: NameId,
    round: &[(Around, Span)],
) -> Option<Local>
    ensures { (locals : List Named) → Knows known.now locals → result ≡ spec.known_in locals name (spec.scopes_of (reverse round.now)) }
{
    let [outer @ .., (innermost, at)] = round else {
        return if_known(known, name, None);
    };
    match innermost {
        Around::Block | Around::Thread => match if_known(known, name, Some(at.from)) {
            Some(local) => Some(local),
            None => known_in(known, name, outer),
        },
        Around::Loop | Around::Value(_) => known_in(known, name, outer),
    }
}

/// The local of a name and a scope, where it is known.
fn if_known(known: &HashSet<Local>, name: NameId, scope: Option<u32>) -> Option<Local>
    ensures { (locals : List Named) → Knows known.now locals → result ≡ spec.known_in locals name (scope ∷ []) }
{
    let local = Local {
        name: name.0,
        scope,
    };
    if has_local(known, local) {
        Some(local)
    } else {
        None
    }
}

/// A walk through the events of a text: what stands round, the innermost last, and the locals that are known.
#[derive(Drop)]
pub(crate) struct Walk {
    pub round: Vec<(Around, Span)>,
    pub known: HashSet<Local>,
}

impl Walk {
    /// Before the first event.
    pub(crate) fn new(alloc: Global) -> Walk
        ensures round { result.round.items ≡ [] }
        ensures known { Knows result.known [] }
    {
        Walk {
            round: Vec::new(alloc),
            known: HashSet::new(alloc),
        }
    }

    /// The local that is used by an event.
    pub(crate) fn used_at(&self, event: &Event) -> Option<Used>
        ensures { (locals : List Named) → Knows self.now.known locals
            → spec.use_of locals (reverse self.now.round.items) event.now.sight event.now.at ≡ uses_as result (reverse self.now.round.items) event.now.at }
    {
        match event.sight {
            Sight::Assigns(name) => Some(Used {
                usage: Usage::Assigned,
                local: self.assigned_local(name),
            }),
            Sight::Param(name) => Some(Used {
                usage: Usage::Param,
                local: self.new_local(name),
            }),
            Sight::Reads(name) => match known_in(&self.known, name, self.round.as_slice()) {
                Some(local) => Some(Used {
                    usage: Usage::Read,
                    local,
                }),
                None => None,
            },
            _ => None,
        }
    }

    /// Goes behind an event, which uses this local.
    pub(crate) fn go_on(&mut self, event: &Event, used: Option<Used>) -> Result<(), AllocError>
        ensures round { OnOk result (reverse self.new.round.items ≡ around.behind (reverse self.old.round.items) event.now.sight event.now.at) }
        ensures known { OnOk result ((locals : List Named) → Knows self.old.known locals
            → Knows self.new.known (spec.known_behind locals (uses_as used (reverse self.old.round.items) event.now.at))) }
    {
        go_behind(&mut self.round, event)?;
        if let Some(used) = used
            && used.usage.assigns()
        {
            add_local(&mut self.known, used.local)?;
        }
        Ok(())
    }

    /// The local of a name in the innermost scope.
    fn new_local(&self, name: NameId) -> Local
        ensures name { result.name ≡ name.0 }
        ensures scope { result.scope ≡ spec.innermost (spec.scopes_of (reverse self.now.round.items)) }
    {
        Local {
            name: name.0,
            scope: innermost_scope(self.round.as_slice()),
        }
    }

    /// The local of a name that is assigned: a new one where the name is not known.
    fn assigned_local(&self, name: NameId) -> Local
        ensures { (locals : List Named) → Knows self.now.known locals → result ≡ spec.assigned_local locals name (reverse self.now.round.items) }
    {
        match known_in(&self.known, name, self.round.as_slice()) {
            Some(local) => local,
            None => self.new_local(name),
        }
    }
}
