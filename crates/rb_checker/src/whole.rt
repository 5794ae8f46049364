// All the rules of names.

ghost use Rattle.std.specs.Prelude.{◌≡◌, ◌++◌, [], Err, Some, None, IfOk, OnOk};
ghost use Rattle.std.specs.List.{flat_map};
ghost use Rattle.rb_checker.specs.Check.{texts, fault_of};
ghost use Rattle.rb_checker.specs.Crowd.{globals_in};
ghost use Rattle.rb_checker.specs.Findings.{firsts};
ghost use Rattle.rb_checker.specs.Scripts.{script_faults, script_events};
ghost use Rattle.rb_checker.specs.declared.fault.CheckFault.{CheckFault as Broken};

use crate::bodies::Bodies;
use crate::crowds::{MAX_GLOBALS, crowded, crowded_class, sort_by_place};
use crate::fault::CheckFault;
use crate::first::first_of_two;
use crate::found::Found;
use crate::repeated::find_repeated;
use crate::rules::{Given, Owner};
use crate::sets::{class_names, names_of};
use crate::texts::{Texts, Variables};
use rb_tree::Program;
use std::alloc::{AllocError, Global};

/// Why a program is not accepted.
#[derive(Clone, Copy, Debug, PartialEq, Eq)]
pub enum CheckError {
    /// It breaks a rule of names.
    Fault(CheckFault),
    /// Memory is refused.
    Memory,
}

/// The first faults of the texts of a program, whose variables are added.
fn found_in_texts(
    alloc: Global,
    program: &Program,
    variables: &mut Variables,
) -> Result<Found, AllocError>
    ensures found { IfOk result (λ found. found ≡ firsts (script_faults program.now)) }
    ensures globals { OnOk result (variables.new.globals.items ≡ variables.old.globals.items ++ globals_in (script_events program.now)) }
{
    let bodies = Bodies::new(alloc, program.bodies.as_slice())?;
    let functions = names_of(alloc, program.functions.as_slice())?;
    let classes = class_names(alloc, program.classes.as_slice())?;
    let texts = Texts {
        alloc,
        bodies: &bodies,
        given: Given {
            names: &program.names,
            functions: &functions,
            classes: &classes,
        },
    };
    let top_level_method = Owner {
        methods: None,
        in_method: true,
    };
    let top_level = Owner {
        methods: None,
        in_method: false,
    };
    let in_classes = texts.in_classes(program.classes.as_slice(), variables)?;
    let in_functions = texts.in_methods(top_level_method, program.functions.as_slice(), variables)?;
    let in_main = texts.in_text(top_level, &[], program.main.as_slice(), variables)?;
    Ok(in_classes.and(in_functions.and(in_main)))
}

/// The fault of a program that counts.
fn find_fault(alloc: Global, program: &Program) -> Result<Option<CheckFault>, AllocError>
    ensures { IfOk result (λ found. found ≡ fault_of program.now) }
{
    let mut variables = Variables::none(alloc);
    let found = found_in_texts(alloc, program, &mut variables)?;
    let repeated = find_repeated(alloc, program)?;
    sort_by_place(&mut variables.globals)?;
    let globals = crowded(alloc, MAX_GLOBALS, variables.globals.as_slice())?;
    let classes = crowded_class(program.classes.as_slice());
    let crowds = first_of_two(found.fields, first_of_two(globals, classes));
    let locals = first_of_two(found.params, first_of_two(found.unsettled, crowds));
    Ok(first_of_two(found.misplaced, first_of_two(repeated, locals)))
}

/// Checks the rules of names: what a program may call, make, leave, define and capture, and how many variables and classes it may
/// have.
///
/// # Errors
/// `Fault` with the first place at which a rule is broken, and at one place the rule of the lower number in the list of refusals.
/// `Memory` where memory is refused.
pub fn check(alloc: Global, program: &Program) -> Result<(), CheckError>
    ensures accepts { OnOk result (fault_of program.now ≡ None) }
    ensures refuses { (fault : Broken) → result ≡ Err (CheckError.Fault fault) → fault_of program.now ≡ Some fault }
{
    match find_fault(alloc, program) {
        Ok(None) => Ok(()),
        Ok(Some(fault)) => Err(CheckError::Fault(fault)),
        Err(_) => Err(CheckError::Memory),
    }
}
