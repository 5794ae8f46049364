// The names of the scopes of a program.

ghost use Rattle.std.specs.Prelude.{◌≡◌, ◌==◌, ◌++◌, ◌∷◌, [], ℕ, List, Some, None, map, IfOk, OnOk, if◌then◌else◌};
ghost use Rattle.std.specs.List.{flat_map};
ghost use Rattle.rb_checker.specs.Around.{Open};
ghost use Rattle.rb_checker.specs.Bodies.{Tells};
ghost use Rattle.rb_checker.specs.Events.{events_in};
ghost use Rattle.rb_checker.specs.Locals.{uses_in};
ghost use Rattle.rb_checker.specs.Scoped as spec;
ghost use Rattle.rb_checker.specs.Texts.{method_events};
ghost use Rattle.rb_checker.specs.Walked.{Knows, uses_as};
ghost use Rattle.rb_checker.specs.declared.event.Event.{Event as Seen};
ghost use Rattle.rb_checker.specs.declared.locals.Local.{Local as Named};
ghost use Rattle.rb_tree.specs.declared.node.Class.{Class as Kind};
ghost use Rattle.rb_tree.specs.declared.node.Method.{Method as Function};
ghost use Rattle.rb_tree.specs.declared.span.Span.{Span as Place};

use crate::bodies::Bodies;
use crate::event::Event;
use crate::locals::{Local, Used, add_local, has_local};
use crate::walking::Walk;
use rb_tree::{Class, Items, Method, NameId, Node, Param, Program, Span};
use std::alloc::{AllocError, Global};
use std::collections::{HashMap, HashSet};

/// Adds the local that an event gives a value to.
pub(crate) fn add_made(made: &mut Vec<Local>, used: Option<Used>) -> Result<(), AllocError>
    ensures { OnOk result ((round : Open) (at : Place) → made.new.items ≡ made.old.items ++ spec.made_in (uses_as used round at)) }
{
    let Some(used) = used else {
        return Ok(());
    };
    if !used.usage.assigns() {
        return Ok(());
    }
    made.push(used.local)?;
    Ok(())
}

/// The locals that a text gives values to.
fn locals_made(alloc: Global, events: &[Event]) -> Result<Vec<Local>, AllocError>
    ensures { IfOk result (λ made. made.items ≡ spec.made_in (uses_in events.now)) }
{
    let mut walk = Walk::new(alloc);
    let mut made = Vec::new(alloc);
    'events: for event in events {
        let used = walk.used_at(event);
        add_made(&mut made, used)?;
        walk.go_on(event, used)?;
    }
    Ok(made)
}

/// Adds the name of a local of the scope of the text itself, where the local is not known. It is known from then on.
fn add_own(
    known: &mut HashSet<Local>,
    names: &mut Items<NameId>,
    local: Local,
) -> Result<(), AllocError>
    ensures names { OnOk result ((before : List Named) → Knows known.old before → names.new ≡ names.old ++ spec.new_name before None local) }
    ensures known { OnOk result ((before : List Named) → Knows known.old before → Knows known.new (local ∷ before)) }
{
    let is_known = has_local(known, local);
    add_local(known, local)?;
    if is_known {
        return Ok(());
    }
    match local.scope {
        Some(_) => Ok(()),
        None => names.push(NameId(local.name)),
    }
}

/// The names of these locals in the scope of the text itself.
fn own_names(alloc: Global, made: &[Local]) -> Result<Items<NameId>, AllocError>
    ensures { IfOk result (λ names. names ≡ spec.names_behind [] None made.now) }
{
    let mut known = HashSet::new(alloc);
    let mut names = Items::new(alloc);
    'made: for local in made {
        add_own(&mut known, &mut names, *local)?;
    }
    Ok(names)
}

/// Takes the names of a place out of a table.
fn take_names(alloc: Global, blocks: &mut HashMap<u32, Items<NameId>>, from: u32) -> Items<NameId>
    ensures names { result ≡ spec.names_at blocks.old from }
    ensures others { (place : ℕ) → spec.names_at blocks.new place ≡ (if from == place then [] else spec.names_at blocks.old place) }
{
    match blocks.remove(&from) {
        Some(names) => names,
        None => Items::new(alloc),
    }
}

/// Adds a name behind those of a place.
fn add_at(
    alloc: Global,
    blocks: &mut HashMap<u32, Items<NameId>>,
    from: u32,
    name: NameId,
) -> Result<(), AllocError>
    ensures { OnOk result ((place : ℕ) → spec.names_at blocks.new place ≡ spec.names_at blocks.old place ++ (if from == place then name ∷ [] else [])) }
{
    let mut names = take_names(alloc, blocks, from);
    names.push(name)?;
    if let Err(_) = blocks.insert(from, names) {
        return Err(AllocError);
    }
    Ok(())
}

/// Adds the name of a local of a block to the names of its place, where the local is not known. It is known from then on.
fn add_to_block(
    alloc: Global,
    known: &mut HashSet<Local>,
    blocks: &mut HashMap<u32, Items<NameId>>,
    local: Local,
) -> Result<(), AllocError>
    ensures names { OnOk result ((before : List Named) (place : ℕ) → Knows known.old before → spec.names_at blocks.new place ≡ spec.names_at blocks.old place ++ spec.new_name before (Some place) local) }
    ensures known { OnOk result ((before : List Named) → Knows known.old before → Knows known.new (local ∷ before)) }
{
    let is_known = has_local(known, local);
    add_local(known, local)?;
    if is_known {
        return Ok(());
    }
    match local.scope {
        Some(from) => add_at(alloc, blocks, from, NameId(local.name)),
        None => Ok(()),
    }
}

/// The names of these locals in the scopes of blocks, by their places.
pub(crate) fn names_of_blocks(
    alloc: Global,
    made: &[Local],
) -> Result<HashMap<u32, Items<NameId>>, AllocError>
    ensures { IfOk result (λ blocks. (place : ℕ) → spec.names_at blocks place ≡ spec.names_behind [] (Some place) made.now) }
{
    let mut known = HashSet::new(alloc);
    let mut blocks = HashMap::new(alloc);
    'made: for local in made {
        add_to_block(alloc, &mut known, &mut blocks, *local)?;
    }
    Ok(blocks)
}

/// The names that a text makes known in its own scope. The locals that it gives values to are added.
fn names_of_text(
    alloc: Global,
    bodies: &Bodies,
    params: &[Param],
    body: &[Node],
    made: &mut Vec<Local>,
) -> Result<Items<NameId>, AllocError>
    ensures names { IfOk result (λ names. (b : ℕ → List Seen) → Tells bodies.now.total (map (λ e. e.items) bodies.now.kept.items) b → names ≡ spec.names_in (uses_in (events_in b params.now body.now)) None) }
    ensures made { OnOk result ((b : ℕ → List Seen) → Tells bodies.now.total (map (λ e. e.items) bodies.now.kept.items) b → made.new.items ≡ made.old.items ++ spec.made_in (uses_in (events_in b params.now body.now))) }
{
    let events = bodies.events(alloc, params, body)?;
    let here = locals_made(alloc, events.as_slice())?;
    made.extend_from_slice(here.as_slice())?;
    own_names(alloc, here.as_slice())
}

/// The names that each method makes known in its own scope. The locals that they give values to are added.
fn names_of_methods(
    alloc: Global,
    bodies: &Bodies,
    methods: &[Method],
    made: &mut Vec<Local>,
) -> Result<Items<Items<NameId>>, AllocError>
    ensures names { IfOk result (λ all. (b : ℕ → List Seen) → Tells bodies.now.total (map (λ e. e.items) bodies.now.kept.items) b → all ≡ map (λ (m : Function). spec.names_in (uses_in (method_events b m)) None) methods.now) }
    ensures made { OnOk result ((b : ℕ → List Seen) → Tells bodies.now.total (map (λ e. e.items) bodies.now.kept.items) b → made.new.items ≡ made.old.items ++ flat_map (λ (m : Function). spec.made_in (uses_in (method_events b m))) methods.now) }
{
    let mut all = Items::new(alloc);
    'methods: for method in methods {
        let names = names_of_text(
            alloc,
            bodies,
            method.params.as_slice(),
            method.body.as_slice(),
            made,
        )?;
        all.push(names)?;
    }
    Ok(all)
}

/// The names that each method of each class makes known in its own scope. The locals that they give values to are added.
fn names_of_classes(
    alloc: Global,
    bodies: &Bodies,
    classes: &[Class],
    made: &mut Vec<Local>,
) -> Result<Items<Items<Items<NameId>>>, AllocError>
    ensures names { IfOk result (λ all. (b : ℕ → List Seen) → Tells bodies.now.total (map (λ e. e.items) bodies.now.kept.items) b → all ≡ map (λ (k : Kind). map (λ (m : Function). spec.names_in (uses_in (method_events b m)) None) k.methods) classes.now) }
    ensures made { OnOk result ((b : ℕ → List Seen) → Tells bodies.now.total (map (λ e. e.items) bodies.now.kept.items) b → made.new.items ≡ made.old.items ++ flat_map (λ (k : Kind). flat_map (λ (m : Function). spec.made_in (uses_in (method_events b m))) k.methods) classes.now) }
{
    let mut all = Items::new(alloc);
    'classes: for class in classes {
        let names = names_of_methods(alloc, bodies, class.methods.as_slice(), made)?;
        all.push(names)?;
    }
    Ok(all)
}

/// The names that the text of a program makes known in its scopes: those of each block and thread by its place, those of each method of
/// each class, those of each top-level method, and those of the top level.
#[derive(Drop)]
pub struct ScopeNames {
    pub blocks: HashMap<u32, Items<NameId>>,
    pub classes: Items<Items<Items<NameId>>>,
    pub functions: Items<Items<NameId>>,
    pub main: Items<NameId>,
}

impl ScopeNames {
    /// The names of the block or thread at a place.
    pub fn of_block(&self, at: Span) -> &[NameId]
        ensures { result.now ≡ spec.names_at self.now.blocks at.from }
    {
        match self.blocks.get(&at.from) {
            Some(names) => names.as_slice(),
            None => &[],
        }
    }
}

/// The names of the scopes of a program.
///
/// # Errors
/// Memory is refused.
pub fn names_of_scopes(alloc: Global, program: &Program) -> Result<ScopeNames, AllocError>
    ensures blocks { IfOk result (λ it. (at : Place) → spec.names_at it.blocks at.from ≡ spec.block_names program.now at) }
    ensures classes { IfOk result (λ it. it.classes ≡ map (λ (k : Kind). map (spec.method_names program.now) k.methods) program.now.classes) }
    ensures functions { IfOk result (λ it. it.functions ≡ map (spec.method_names program.now) program.now.functions) }
    ensures main { IfOk result (λ it. it.main ≡ spec.main_names program.now) }
{
    let bodies = Bodies::new(alloc, program.bodies.as_slice())?;
    let mut made = Vec::new(alloc);
    let classes = names_of_classes(alloc, &bodies, program.classes.as_slice(), &mut made)?;
    let functions = names_of_methods(alloc, &bodies, program.functions.as_slice(), &mut made)?;
    let main = names_of_text(alloc, &bodies, &[], program.main.as_slice(), &mut made)?;
    let blocks = names_of_blocks(alloc, made.as_slice())?;
    Ok(ScopeNames {
        blocks,
        classes,
        functions,
        main,
    })
}
