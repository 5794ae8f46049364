// What is defined twice.

ghost use Rattle.std.specs.Prelude.{◌≡◌, ◌||◌, ◌==◌, List, IfOk, OnOk, nat_eq};
ghost use Rattle.std.specs.HashSet.{contains};
ghost use Rattle.std.specs.List.{flat_map};
ghost use Rattle.rb_tree.specs.declared.node.Class.{Class as Kind};
ghost use Rattle.rb_tree.specs.declared.span.NameId.{NameId as Id};
ghost use Rattle.rb_checker.specs.Fault.{first_of};
ghost use Rattle.rb_checker.specs.Names.{is_among};
ghost use Rattle.rb_checker.specs.Sets.{Holds};
ghost use Rattle.rb_checker.specs.Twice as spec;

use crate::fault::CheckFault;
use crate::first::first_of_two;
use crate::rules::{is_built_in_class, is_value_class, text_of};
use crate::sets::{add, has};
use rb_tree::{Class, Method, NameId, Names, Program, Span};
use std::alloc::{AllocError, Global};
use std::collections::HashSet;

/// The fault at a name that is defined at a place, where it is taken or in the set. It is in the set from then on.
fn define(
    set: &mut HashSet<u32>,
    is_taken: bool,
    name: NameId,
    at: Span,
) -> Result<Option<CheckFault>, AllocError>
    ensures fault { IfOk result (λ found. (before : List Id) → Holds set.old before → found ≡ first_of (spec.twice_if (is_taken || is_among name before) at)) }
    ensures kept { OnOk result ((other : Id) → contains nat_eq set.new other.0 ≡ (name.0 == other.0 || contains nat_eq set.old other.0)) }
{
    let is_there = is_taken || has(set, name);
    add(set, name)?;
    if is_there {
        Ok(Some(CheckFault::TwiceDefined(at)))
    } else {
        Ok(None)
    }
}

/// Whether a class of the script has a name that none may have.
fn is_taken(names: &Names, class: NameId) -> bool
    ensures { result ≡ spec.is_taken names.now class }
{
    match text_of(names, class) {
        Some(text) => is_built_in_class(text) || is_value_class(text),
        None => false,
    }
}

/// The first method that has the name of one before it.
fn repeated_method(alloc: Global, methods: &[Method]) -> Result<Option<CheckFault>, AllocError>
    ensures { IfOk result (λ found. found ≡ first_of (spec.methods_twice methods.now)) }
{
    let mut set = HashSet::new(alloc);
    let mut found = None;
    'methods: for method in methods {
        let next = define(&mut set, false, method.name, method.at)?;
        found = first_of_two(found, next);
    }
    Ok(found)
}

/// The first class that has the name of one before it, or one that is taken.
fn repeated_class(
    alloc: Global,
    names: &Names,
    classes: &[Class],
) -> Result<Option<CheckFault>, AllocError>
    ensures { IfOk result (λ found. found ≡ first_of (spec.classes_twice names.now classes.now)) }
{
    let mut set = HashSet::new(alloc);
    let mut found = None;
    'classes: for class in classes {
        let next = define(&mut set, is_taken(names, class.name), class.name, class.at)?;
        found = first_of_two(found, next);
    }
    Ok(found)
}

/// The first method of a class that has the name of one before it in its class.
fn repeated_in_classes(alloc: Global, classes: &[Class]) -> Result<Option<CheckFault>, AllocError>
    ensures { IfOk result (λ found. found ≡ first_of (flat_map (λ (c : Kind). spec.methods_twice c.methods) classes.now)) }
{
    let mut found = None;
    'classes: for class in classes {
        let next = repeated_method(alloc, class.methods.as_slice())?;
        found = first_of_two(found, next);
    }
    Ok(found)
}

/// The first class, method of one class or method of the top level of a program that has a name that was given before, or a class
/// that has the name of one that is there.
pub(crate) fn find_repeated(
    alloc: Global,
    program: &Program,
) -> Result<Option<CheckFault>, AllocError>
    ensures { IfOk result (λ found. found ≡ first_of (spec.repeated_in program.now)) }
{
    let in_program = repeated_class(alloc, &program.names, program.classes.as_slice())?;
    let in_functions = repeated_method(alloc, program.functions.as_slice())?;
    let in_classes = repeated_in_classes(alloc, program.classes.as_slice())?;
    Ok(first_of_two(in_program, first_of_two(in_functions, in_classes)))
}
