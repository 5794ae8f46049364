// Parameters that stand twice in their method or block.

ghost use Rattle.std.specs.Prelude.{◌≡◌, List, reverse, IfOk, OnOk};
ghost use Rattle.rb_checker.specs.declared.locals.Local.{Local as Named};
ghost use Rattle.rb_checker.specs.Around.{Open};
ghost use Rattle.rb_checker.specs.Fault.{first_of};
ghost use Rattle.rb_checker.specs.Locals.{param_of, uses_in};
ghost use Rattle.rb_checker.specs.Twice as spec;
ghost use Rattle.rb_checker.specs.Walked.{Knows, params_as};

use crate::event::{Around, Event, Sight};
use crate::fault::CheckFault;
use crate::first::first_of_two;
use crate::locals::{Local, add_local, has_local};
use crate::rules::go_behind;
use crate::walking::innermost_scope;
use rb_tree::Span;
use std::alloc::{AllocError, Global};
use std::collections::HashSet;

/// The parameter that stands at an event. What stands round it is given, the innermost last.
fn param_at(round: &[(Around, Span)], event: &Event) -> Option<Local>
    ensures { param_of (reverse round.now) event.now.sight event.now.at ≡ params_as result (reverse round.now) event.now.at }
{
    let Sight::Param(name) = event.sight else {
        return None;
    };
    Some(Local {
        name: name.0,
        scope: innermost_scope(round),
    })
}

/// The fault at a parameter that is in the set. It is in the set from then on.
fn see_param(
    params: &mut HashSet<Local>,
    param: Option<Local>,
    at: Span,
) -> Result<Option<CheckFault>, AllocError>
    ensures fault { IfOk result (λ found. (before : List Named) (round : Open) → Knows params.old before → found ≡ first_of (spec.params_behind before (params_as param round at))) }
    ensures kept { OnOk result ((before : List Named) (round : Open) → Knows params.old before → Knows params.new (spec.params_of before (params_as param round at))) }
{
    let Some(param) = param else {
        return Ok(None);
    };
    let is_there = has_local(params, param);
    add_local(params, param)?;
    if is_there {
        Ok(Some(CheckFault::TwiceDefined(at)))
    } else {
        Ok(None)
    }
}

/// The first parameter of a text that has the name of one before it in its method or block.
pub(crate) fn repeated_param(
    alloc: Global,
    events: &[Event],
) -> Result<Option<CheckFault>, AllocError>
    ensures { IfOk result (λ found. found ≡ first_of (spec.params_twice (uses_in events.now))) }
{
    let mut round = Vec::new(alloc);
    let mut params = HashSet::new(alloc);
    let mut found = None;
    'events: for event in events {
        let param = param_at(round.as_slice(), event);
        let next = see_param(&mut params, param, event.at)?;
        found = first_of_two(found, next);
        go_behind(&mut round, event)?;
    }
    Ok(found)
}
