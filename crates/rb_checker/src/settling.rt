// Where the locals of a text are assigned, and where its threads start.

ghost use Rattle.std.specs.Prelude.{◌≡◌, ◌||◌, ◌&&◌, ◌+◌, ◌^◌, ◌<◌, ◌≤◌, ℕ, List, [], ◌∷◌, nat_eq, length, reverse, if◌then◌else◌, IfOk, OnOk};
ghost use Rattle.std.specs.HashMap as map;
ghost use Rattle.rb_tree.specs.declared.span.Span.{Span as Place};
ghost use Rattle.rb_checker.specs.Around.{placed};
ghost use Rattle.rb_checker.specs.Assigned as spec;
ghost use Rattle.rb_checker.specs.Locals.{same_local, starts_at};
ghost use Rattle.rb_checker.specs.Settled.{holds};
ghost use Rattle.rb_checker.specs.Walked.{is_known, uses_as};
ghost use Rattle.rb_checker.specs.declared.event.Around.{Around as Enclosing};
ghost use Rattle.rb_checker.specs.declared.locals.Local.{Local as Named};
ghost use Rattle.rb_checker.specs.declared.settling.Held.{Held as Key};

use crate::event::{Around, Event, Sight};
use crate::locals::{Local, Used, add_local};
use crate::walking::Walk;
use rb_tree::Span;
use std::alloc::{AllocError, Global};
use std::collections::{HashMap, HashSet};

/// What may hold both an assignment and the start of a thread.
#[derive(Clone, Copy, Debug, PartialEq, Eq, Hash)]
pub(crate) enum Enclosure {
    Loop,
    Block,
    Thread,
}

/// A local, and what stands round an assignment to it.
#[derive(Clone, Copy, Debug, PartialEq, Eq, Hash)]
pub(crate) struct Held {
    pub local: Local,
    pub enclosure: Enclosure,
    pub from: u32,
}

/// Adds what stands round an assignment, where it is not there.
#[tactic(auto, using(crate::proofs::Holding::same_held_swapped))]
fn add_held(set: &mut HashSet<Held>, key: Held) -> Result<(), AllocError>
    ensures { OnOk result ((other : Key) → spec.is_key set.new other ≡ (spec.same_held other key || spec.is_key set.old other)) }
{
    if let Err(_) = set.insert(key) {
        return Err(AllocError);
    }
    Ok(())
}

/// Whether a key is in a set.
pub(crate) fn is_key(set: &HashSet<Held>, key: Held) -> bool
    ensures { result ≡ spec.is_key set.now key }
{
    set.contains(&key)
}

/// The enclosure that this is, where it is one.
pub(crate) fn enclosure_of(around: Around) -> Option<Enclosure>
    ensures { result ≡ spec.enclosure_of around }
{
    match around {
        Around::Loop => Some(Enclosure::Loop),
        Around::Block => Some(Enclosure::Block),
        Around::Thread => Some(Enclosure::Thread),
        Around::Value(_) => None,
    }
}

/// Notes one of those that stand round an assignment to a local.
fn note_around(
    held: &mut HashSet<Held>,
    local: Local,
    around: Around,
    at: Span,
) -> Result<(), AllocError>
    ensures { OnOk result ((v : Named) (e : Enclosing × Place) → spec.has_held held.new v e ≡ ((same_local v local && holds ((around, at) ∷ []) e) || spec.has_held held.old v e)) }
{
    let Some(enclosure) = enclosure_of(around) else {
        return Ok(());
    };
    let key = Held {
        local,
        enclosure,
        from: at.from,
    };
    add_held(held, key)
}

/// Notes what stands round an assignment to a local, the innermost last.
fn note_round(
    held: &mut HashSet<Held>,
    local: Local,
    round: &[(Around, Span)],
) -> Result<(), AllocError>
    ensures { OnOk result ((v : Named) (e : Enclosing × Place) → spec.has_held held.new v e ≡ ((same_local v local && holds (reverse round.now) e) || spec.has_held held.old v e)) }
{
    let [outer @ .., (innermost, at)] = round else {
        return Ok(());
    };
    note_around(held, local, *innermost, *at)?;
    note_round(held, local, outer)
}

/// Notes how many uses of locals stand before the first start of a thread at a place.
fn note_start(
    starts: &mut HashMap<u32, usize>,
    uses: usize,
    event: &Event,
) -> Result<(), AllocError>
    ensures { OnOk result ((place : ℕ) → map.get nat_eq starts.new place ≡ spec.start_behind (map.get nat_eq starts.old place) (starts_at place event.now.sight event.now.at) uses) }
{
    let Sight::Starts(_) = event.sight else {
        return Ok(());
    };
    if starts.contains_key(&event.at.from) {
        return Ok(());
    }
    if let Err(_) = starts.insert(event.at.from, uses) {
        return Err(AllocError);
    }
    Ok(())
}

/// Notes behind how many uses of locals a local is assigned.
fn note_end(ends: &mut HashMap<Local, usize>, local: Local, uses: usize) -> Result<(), AllocError>
    ensures { OnOk result ((v : Named) → spec.end_of ends.new v ≡ (if same_local v local then uses else spec.end_of ends.old v)) }
{
    if let Err(_) = ends.insert(local, uses) {
        return Err(AllocError);
    }
    Ok(())
}

/// Where the locals of a text are assigned, and where its threads start.
#[derive(Drop)]
pub(crate) struct Assignments {
    /// How many uses of locals there are.
    pub uses: usize,
    /// The locals.
    pub known: HashSet<Local>,
    /// Behind how many uses the last assignment to a local stands.
    pub ends: HashMap<Local, usize>,
    /// How many uses stand before the first start of a thread at a place.
    pub starts: HashMap<u32, usize>,
    /// What stands round the assignments to a local.
    pub held: HashSet<Held>,
}

impl Assignments {
    /// Notes an assignment to a local. What stands round it is given, the innermost last.
    fn note_assignment(&mut self, local: Local, round: &[(Around, Span)]) -> Result<(), AllocError>
        ensures uses { self.new.uses ≡ self.old.uses }
        ensures known { OnOk result ((v : Named) → is_known self.new.known v ≡ (same_local v local || is_known self.old.known v)) }
        ensures ends { OnOk result ((v : Named) → spec.end_of self.new.ends v ≡ (if same_local v local then self.old.uses else spec.end_of self.old.ends v)) }
        ensures starts { self.new.starts ≡ self.old.starts }
        ensures held { OnOk result ((v : Named) (e : Enclosing × Place) → spec.has_held self.new.held v e ≡ ((same_local v local && holds (reverse round.now) e) || spec.has_held self.old.held v e)) }
    {
        add_local(&mut self.known, local)?;
        note_end(&mut self.ends, local, self.uses)?;
        note_round(&mut self.held, local, round)
    }

    /// Notes an event, which uses this local. What stands round it is given, the innermost last.
    fn note(
        &mut self,
        round: &[(Around, Span)],
        event: &Event,
        used: Option<Used>,
    ) -> Result<(), AllocError>
        requires { self.old.uses + 1 < 2 ^ 64 }
        ensures counted { OnOk result (self.new.uses ≤ self.old.uses + 1) }
        ensures uses { OnOk result (self.new.uses ≡ self.old.uses + length (uses_as used (reverse round.now) event.now.at)) }
        ensures known { OnOk result ((v : Named) → is_known self.new.known v
            ≡ (spec.is_assigned_by v (uses_as used (reverse round.now) event.now.at) || is_known self.old.known v)) }
        ensures ends { OnOk result ((v : Named) → spec.end_of self.new.ends v
            ≡ (if spec.is_assigned_by v (uses_as used (reverse round.now) event.now.at) then self.new.uses else spec.end_of self.old.ends v)) }
        ensures starts { OnOk result ((place : ℕ) → map.get nat_eq self.new.starts place ≡ spec.start_behind (map.get nat_eq self.old.starts place) (starts_at place event.now.sight event.now.at) self.old.uses) }
        ensures held { OnOk result ((v : Named) (e : Enclosing × Place) → spec.has_held self.new.held v e
            ≡ (spec.is_assigned_inside v e (uses_as used (reverse round.now) event.now.at) || spec.has_held self.old.held v e)) }
    {
        note_start(&mut self.starts, self.uses, event)?;
        let Some(used) = used else {
            return Ok(());
        };
        self.uses += 1;
        if !used.usage.assigns() {
            return Ok(());
        }
        self.note_assignment(used.local, round)
    }
}

impl Assignments {
    /// Before the first event.
    fn none(alloc: Global) -> Assignments
        ensures { spec.IsNoted result [] }
    {
        Assignments {
            uses: 0,
            known: HashSet::new(alloc),
            ends: HashMap::new(alloc),
            starts: HashMap::new(alloc),
            held: HashSet::new(alloc),
        }
    }

    /// Notes the events of a text.
    pub(crate) fn new(alloc: Global, events: &[Event]) -> Result<Assignments, AllocError>
        ensures { IfOk result (λ it. spec.IsNoted it (placed [] events.now)) }
    {
        let mut walk = Walk::new(alloc);
        let mut noted = Assignments::none(alloc);
        'events: for event in events {
            let used = walk.used_at(event);
            noted.note(walk.round.as_slice(), event, used)?;
            walk.go_on(event, used)?;
        }
        Ok(noted)
    }
}
