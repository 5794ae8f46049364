// The names that the bodies of threads capture, and those of their frames.

ghost use Rattle.std.specs.Prelude.{◌≡◌, ◌++◌, ℕ, List, [], map, nat_eq, reverse, IfOk, OnOk};
ghost use Rattle.std.specs.HashMap as hash;
ghost use Rattle.std.specs.List.{flat_map};
ghost use Rattle.std.specs.Option.{option_or};
ghost use Rattle.rb_checker.specs.Around.{Open};
ghost use Rattle.rb_checker.specs.Bodies.{Tells};
ghost use Rattle.rb_checker.specs.Captured as spec;
ghost use Rattle.rb_checker.specs.Check as check;
ghost use Rattle.rb_checker.specs.Locals.{Use, uses_in};
ghost use Rattle.rb_checker.specs.Scoped as scoped;
ghost use Rattle.rb_checker.specs.Settled.{within};
ghost use Rattle.rb_checker.specs.Texts.{method_events};
ghost use Rattle.rb_checker.specs.Threads as threads;
ghost use Rattle.rb_checker.specs.Walked.{uses_as};
ghost use Rattle.rb_checker.specs.declared.event.Event.{Event as Seen};
ghost use Rattle.rb_tree.specs.declared.node.Class.{Class as Kind};
ghost use Rattle.rb_tree.specs.declared.span.Span.{Span as Place};

use crate::bodies::Bodies;
use crate::event::{Around, Event, Sight};
use crate::locals::{Local, Usage, Used};
use crate::naming::{add_made, names_of_blocks};
use crate::unsettled::opens;
use crate::walking::Walk;
use rb_tree::{Class, Items, Method, NameId, Program, Span};
use std::alloc::{AllocError, Global};
use std::collections::HashMap;

/// Adds a local that is used to those of each thread that stands round inside its scope. The innermost is last.
fn add_handed(
    captured: &mut Vec<Local>,
    local: Local,
    round: &[(Around, Span)],
) -> Result<(), AllocError>
    ensures { OnOk result (captured.new.items ≡ captured.old.items ++ spec.handed local.name (within local.scope (reverse round.now))) }
{
    let [outer @ .., (innermost, at)] = round else {
        return Ok(());
    };
    if opens(local.scope, *innermost, *at) {
        return Ok(());
    }
    match innermost {
        Around::Thread => {
            captured.push(Local {
                name: local.name,
                scope: Some(at.from),
            })?;
            add_handed(captured, local, outer)
        }
        Around::Loop | Around::Block | Around::Value(_) => add_handed(captured, local, outer),
    }
}

/// Adds what an event captures. What stands round it is given, the innermost last.
fn add_captured(
    captured: &mut Vec<Local>,
    used: Option<Used>,
    round: &[(Around, Span)],
) -> Result<(), AllocError>
    ensures { OnOk result ((at : Place) → captured.new.items ≡ captured.old.items ++ spec.captured_in (uses_as used (reverse round.now) at)) }
{
    match used {
        Some(used) => add_handed(captured, used.local, round),
        None => Ok(()),
    }
}

/// Adds the parameter that an event gives a value to.
fn add_param(params: &mut Vec<Local>, used: Option<Used>) -> Result<(), AllocError>
    ensures { OnOk result ((round : Open) (at : Place) → params.new.items ≡ params.old.items ++ spec.params_in (uses_as used round at)) }
{
    let Some(used) = used else {
        return Ok(());
    };
    match used.usage {
        Usage::Param => {
            params.push(used.local)?;
            Ok(())
        }
        Usage::Assigned | Usage::Read => Ok(()),
    }
}

/// Notes the place of an event that starts a body, where none is noted of that number.
fn note_start(starts: &mut HashMap<u32, u32>, event: &Event) -> Result<(), AllocError>
    ensures { OnOk result ((number : ℕ) → hash.get nat_eq starts.new number ≡ option_or (hash.get nat_eq starts.old number) (spec.started_by number event.now.sight event.now.at)) }
{
    let Sight::Starts(body) = event.sight else {
        return Ok(());
    };
    if starts.contains_key(&body) {
        return Ok(());
    }
    if let Err(_) = starts.insert(body, event.at.from) {
        return Err(AllocError);
    }
    Ok(())
}

/// What is noted of the threads of texts: all parameters, the locals that are handed to threads, the locals that are given values, and
/// the place where each body is started first.
#[derive(Drop)]
pub(crate) struct Noted {
    params: Vec<Local>,
    captured: Vec<Local>,
    made: Vec<Local>,
    starts: HashMap<u32, u32>,
}

impl Noted {
    /// Before the first text.
    fn none(alloc: Global) -> Noted
        ensures { threads.Notes result [] [] }
    {
        Noted {
            params: Vec::new(alloc),
            captured: Vec::new(alloc),
            made: Vec::new(alloc),
            starts: HashMap::new(alloc),
        }
    }

    /// Notes an event, which uses this local. What stands round it is given, the innermost last.
    fn note(
        &mut self,
        round: &[(Around, Span)],
        event: &Event,
        used: Option<Used>,
    ) -> Result<(), AllocError>
        ensures params { OnOk result (self.new.params.items ≡ self.old.params.items ++ spec.params_in (uses_as used (reverse round.now) event.now.at)) }
        ensures captured { OnOk result (self.new.captured.items ≡ self.old.captured.items ++ spec.captured_in (uses_as used (reverse round.now) event.now.at)) }
        ensures made { OnOk result (self.new.made.items ≡ self.old.made.items ++ scoped.made_in (uses_as used (reverse round.now) event.now.at)) }
        ensures starts { OnOk result ((number : ℕ) → hash.get nat_eq self.new.starts number ≡ option_or (hash.get nat_eq self.old.starts number) (spec.started_by number event.now.sight event.now.at)) }
    {
        add_param(&mut self.params, used)?;
        add_captured(&mut self.captured, used, round)?;
        add_made(&mut self.made, used)?;
        note_start(&mut self.starts, event)
    }

    /// Notes the events of a text.
    fn note_text(&mut self, alloc: Global, events: &[Event]) -> Result<(), AllocError>
        ensures { OnOk result ((uses : List Use) (before : List Seen) → threads.Notes self.old uses before → threads.Notes self.new (uses ++ uses_in events.now) (before ++ events.now)) }
    {
        let mut walk = Walk::new(alloc);
        'events: for event in events {
            let used = walk.used_at(event);
            self.note(walk.round.as_slice(), event, used)?;
            walk.go_on(event, used)?;
        }
        Ok(())
    }

    /// Notes the events of texts.
    fn new(alloc: Global, texts: &[Items<Event>]) -> Result<Noted, AllocError>
        ensures { IfOk result (λ it. threads.Notes it (flat_map uses_in texts.now) (flat_map (λ (es : List Seen). es) texts.now)) }
    {
        let mut noted = Noted::none(alloc);
        'texts: for events in texts {
            noted.note_text(alloc, events.as_slice())?;
        }
        Ok(noted)
    }
}

/// Adds the events of each method.
fn add_methods(
    alloc: Global,
    texts: &mut Items<Items<Event>>,
    bodies: &Bodies,
    methods: &[Method],
) -> Result<(), AllocError>
    ensures { OnOk result ((b : ℕ → List Seen) → Tells bodies.now.total (map (λ e. e.items) bodies.now.kept.items) b → texts.new ≡ texts.old ++ map (method_events b) methods.now) }
{
    'methods: for method in methods {
        let events = bodies.events(alloc, method.params.as_slice(), method.body.as_slice())?;
        texts.push(Items::from_vec(events))?;
    }
    Ok(())
}

/// Adds the events of each method of each class.
fn add_classes(
    alloc: Global,
    texts: &mut Items<Items<Event>>,
    bodies: &Bodies,
    classes: &[Class],
) -> Result<(), AllocError>
    ensures { OnOk result ((b : ℕ → List Seen) → Tells bodies.now.total (map (λ e. e.items) bodies.now.kept.items) b → texts.new ≡ texts.old ++ flat_map (λ (k : Kind). map (method_events b) k.methods) classes.now) }
{
    'classes: for class in classes {
        add_methods(alloc, texts, bodies, class.methods.as_slice())?;
    }
    Ok(())
}

/// The events of the texts of a program.
fn texts_of(alloc: Global, program: &Program) -> Result<Items<Items<Event>>, AllocError>
    ensures { IfOk result (λ texts. texts ≡ check.texts program.now) }
{
    let bodies = Bodies::new(alloc, program.bodies.as_slice())?;
    let mut texts = Items::new(alloc);
    add_classes(alloc, &mut texts, &bodies, program.classes.as_slice())?;
    add_methods(alloc, &mut texts, &bodies, program.functions.as_slice())?;
    let main = bodies.events(alloc, &[], program.main.as_slice())?;
    texts.push(Items::from_vec(main))?;
    Ok(texts)
}

/// The names of the frames at places: parameters first, then what is handed to threads, then all other locals.
fn frames_of(alloc: Global, noted: &Noted) -> Result<HashMap<u32, Items<NameId>>, AllocError>
    ensures { IfOk result (λ frames. (uses : List Use) (events : List Seen) → threads.Notes noted.now uses events → (place : ℕ) → scoped.names_at frames place ≡ spec.frame_at uses place) }
{
    let mut locals = Vec::from_slice(alloc, noted.params.as_slice())?;
    locals.extend_from_slice(noted.captured.as_slice())?;
    locals.extend_from_slice(noted.made.as_slice())?;
    names_of_blocks(alloc, locals.as_slice())
}

/// The place where the body of each number is started, and by these places the names that the bodies capture and those of their frames.
#[derive(Drop)]
pub struct ThreadNames {
    pub starts: HashMap<u32, u32>,
    pub captured: HashMap<u32, Items<NameId>>,
    pub frames: HashMap<u32, Items<NameId>>,
}

/// The names at a place.
fn names_from(names: &HashMap<u32, Items<NameId>>, place: u32) -> &[NameId]
    ensures { result.now ≡ scoped.names_at names.now place }
{
    match names.get(&place) {
        Some(names) => names.as_slice(),
        None => &[],
    }
}

impl ThreadNames {
    /// The names that the body of a number captures, in the order of their first use.
    pub fn captured_of(&self, number: u32) -> &[NameId]
        ensures { result.now ≡ threads.captured_of self.now number }
    {
        match self.starts.get(&number) {
            Some(place) => names_from(&self.captured, *place),
            None => &[],
        }
    }

    /// The names of the frame of the body of a number: its parameters, the names that it captures, and its other locals.
    pub fn frame_of(&self, number: u32) -> &[NameId]
        ensures { result.now ≡ threads.frame_of self.now number }
    {
        match self.starts.get(&number) {
            Some(place) => names_from(&self.frames, *place),
            None => &[],
        }
    }
}

/// The names of the bodies of a program's threads.
///
/// # Errors
/// Memory is refused.
pub fn names_of_threads(alloc: Global, program: &Program) -> Result<ThreadNames, AllocError>
    ensures captured { IfOk result (λ it. (number : ℕ) → threads.captured_of it number ≡ spec.captured_names program.now number) }
    ensures frames { IfOk result (λ it. (number : ℕ) → threads.frame_of it number ≡ spec.thread_names program.now number) }
{
    let texts = texts_of(alloc, program)?;
    let noted = Noted::new(alloc, texts.as_slice())?;
    let captured = names_of_blocks(alloc, noted.captured.as_slice())?;
    let frames = frames_of(alloc, &noted)?;
    Ok(ThreadNames {
        starts: noted.starts,
        captured,
        frames,
    })
}
