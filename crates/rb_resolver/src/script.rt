// The resolved script of a program.

ghost use Rattle.std.specs.Prelude.{◌≡◌, ◌≤◌, ℕ, true, length, map, IfErr, IfOk};
ghost use Rattle.std.specs.List.{list_all};
ghost use Rattle.rb_code.specs.Erase.{erase, erase_method, erase_class};
ghost use Rattle.rb_code.specs.Resolved.{body_fits, method_fits, class_fits};
ghost use Rattle.rb_code.specs.Stands.{StandsFor};
ghost use Rattle.rb_machine.specs.Scopes.{Script};
ghost use Rattle.rb_accepted.specs.Coded.{has_code};
ghost use Rattle.rb_resolver.specs.Built.{Builds, body_built, method_built, methods_built, classes_built};
ghost use Rattle.rb_resolver.specs.Known as spec;
ghost use Rattle.rb_resolver.specs.declared.fault.ResolveFault.TheVariants.{Memory};
ghost use Rattle.rb_resolver.specs.Names.{script_of};
ghost use Rattle.rb_resolver.specs.Rows.{all_plain};
ghost use Rattle.rb_tree.specs.Texts.{AreDifferent};
ghost use Rattle.rb_tree.specs.declared.node.Class.{Class as Kind};

use crate::dispatch::dispatch_of;
use crate::fault::ResolveFault;
use crate::frame::Frame;
use crate::known::{Known, firsts_of, numbers_of, numbers_of_classes};
use crate::nodes::body;
use crate::threads::bodies;
use rb_checker::{names_of_scopes, names_of_threads};
use rb_code::{Code, CodeClass, CodeMethod, CodeScript};
use rb_tree::{Class, Items, Method, NameId, Names, Node, Program};
use std::alloc::Global;

/// Resolves the statements of a text whose own names are these. Answers the size of its frame too, which is at least this, and how many
/// arguments may wait behind it: an assignment with an operator to an attribute has one beside those that the text counts.
pub(crate) fn text(
    known: &Known,
    names: &Names,
    own: &[NameId],
    nodes: &[Node],
    least: usize,
) -> Result<(Items<Code>, u32, u32), ResolveFault>
    ensures built { Builds known.now names.now (λ S. body_built S nodes.now own.now) result }
    ensures erases { IfOk result (λ it. map erase it.0 ≡ nodes.now) }
    ensures fits { IfOk result (λ it. (S : Script) → spec.IsKnown known.now names.now S → body_fits S it.0 own.now it.1 ≡ true) }
    ensures room { IfOk result (λ it. length own.now ≤ it.1) }
    ensures least { IfOk result (λ it. least ≤ it.1) }
{
    let mut frame = Frame::of(Vec::from_slice(known.alloc, own)?, least);
    let codes = body(known, names, nodes, &mut frame)?;
    let Ok(size) = u32::try_from(frame.size) else {
        return Err(ResolveFault::Memory);
    };
    let Ok(waits) = u32::try_from(frame.most.saturating_add(1)) else {
        return Err(ResolveFault::Memory);
    };
    Ok((codes, size, waits))
}

/// Resolves a method whose names are these.
fn method(
    known: &Known,
    names: &Names,
    own: &[NameId],
    source: &Method,
) -> Result<CodeMethod, ResolveFault>
    ensures built { (S : Script) → spec.IsKnown known.now names.now S → S.method_names source.now ≡ own.now → method_built S source.now ≡ true → IfErr result (λ e. e ≡ Memory) }
    ensures erases { IfOk result (λ method. erase_method method ≡ source.now) }
    ensures fits { IfOk result (λ method. (S : Script) → spec.IsKnown known.now names.now S → S.method_names source.now ≡ own.now → method_fits S method ≡ true) }
{
    let Method {
        name,
        params,
        body: nodes,
        at,
    } = source;
    let (codes, size, waits) = text(known, names, own, nodes.as_slice(), params.len())?;
    let params = Items::from_slice(known.alloc, params.as_slice())?;
    Ok(CodeMethod {
        name: *name,
        params,
        size,
        waits,
        body: codes,
        at: *at,
    })
}

/// Resolves methods, whose names are given in their order.
fn methods(
    known: &Known,
    names: &Names,
    own: &[Items<NameId>],
    sources: &[Method],
) -> Result<Items<CodeMethod>, ResolveFault>
    requires { length own.now ≡ length sources.now }
    ensures built { (S : Script) → spec.IsKnown known.now names.now S → own.now ≡ map S.method_names sources.now → methods_built S sources.now ≡ true → IfErr result (λ e. e ≡ Memory) }
    ensures erases { IfOk result (λ methods. map erase_method methods ≡ sources.now) }
    ensures fits { IfOk result (λ methods. (S : Script) → spec.IsKnown known.now names.now S → own.now ≡ map S.method_names sources.now → list_all (method_fits S) methods ≡ true) }
{
    let mut codes = Items::new(known.alloc);
    'methods: for (i, source) in sources.iter().enumerate() {
        let code = method(known, names, own[i].as_slice(), source)?;
        codes.push(code)?;
    }
    Ok(codes)
}

/// Resolves classes, the names of whose methods are given in their order.
fn classes(
    known: &Known,
    names: &Names,
    own: &[Items<Items<NameId>>],
    sources: &[Class],
) -> Result<Items<CodeClass>, ResolveFault>
    requires { map length own.now ≡ map (λ (k : Kind). length k.methods) sources.now }
    ensures built { (S : Script) → spec.IsKnown known.now names.now S → own.now ≡ map (λ (k : Kind). map S.method_names k.methods) sources.now → classes_built S sources.now ≡ true
        → IfErr result (λ e. e ≡ Memory) }
    ensures erases { IfOk result (λ classes. map erase_class classes ≡ sources.now) }
    ensures fits { IfOk result (λ classes. (S : Script) → spec.IsKnown known.now names.now S → own.now ≡ map (λ (k : Kind). map S.method_names k.methods) sources.now → list_all (class_fits S) classes ≡ true) }
{
    let mut codes = Items::new(known.alloc);
    'classes: for (i, source) in sources.iter().enumerate() {
        let Class { name, methods, at } = source;
        let methods = self::methods(known, names, own[i].as_slice(), methods.as_slice())?;
        codes.push(CodeClass {
            name: *name,
            methods,
            at: *at,
        })?;
    }
    Ok(codes)
}

/// What is known of a program whose names differ, and whose classes have methods with plain names alone.
fn known_of(alloc: Global, program: &Program) -> Result<Known, ResolveFault>
    requires plain { all_plain program.now.names program.now.classes ≡ true }
    requires different { AreDifferent program.now.names }
    ensures built { IfErr result (λ e. e ≡ Memory) }
    ensures known { IfOk result (λ known. spec.IsKnown known program.now.names (script_of program.now)) }
    ensures classes { IfOk result (λ known. known.scopes.classes ≡ map (λ (k : Kind). map (script_of program.now).method_names k.methods) program.now.classes) }
    ensures functions { IfOk result (λ known. known.scopes.functions ≡ map (script_of program.now).method_names program.now.functions) }
    ensures main { IfOk result (λ known. known.scopes.main ≡ (script_of program.now).main_names) }
{
    let firsts = firsts_of(alloc, &program.names, program.classes.as_slice())?;
    let numbers = numbers_of_classes(alloc, program.classes.as_slice())?;
    let functions = numbers_of(alloc, program.functions.as_slice())?;
    let scopes = names_of_scopes(alloc, program)?;
    let threads = names_of_threads(alloc, program)?;
    Ok(Known {
        alloc,
        functions,
        classes: numbers,
        firsts,
        scopes,
        threads,
    })
}

/// Resolves a program. What comes stands for that very program, whose locals lie in the scopes that its text gives them.
///
/// # Errors
/// `NotBuilt` with the place of something that has no code, which no program has that is accepted; `Memory`.
pub fn resolve(alloc: Global, program: &Program) -> Result<CodeScript, ResolveFault>
    ensures built { has_code program.now ≡ true → IfErr result (λ e. e ≡ Memory) }
    ensures stands { IfOk result (λ script. StandsFor script (script_of program.now)) }
{
    let names = &program.names;
    let dispatch = dispatch_of(alloc, names, program.classes.as_slice())?;
    let known = known_of(alloc, program)?;
    let own = known.scopes.classes.as_slice();
    let classes = classes(&known, names, own, program.classes.as_slice())?;
    let own = known.scopes.functions.as_slice();
    let functions = methods(&known, names, own, program.functions.as_slice())?;
    let bodies = bodies(&known, names, program.bodies.as_slice())?;
    let own = known.scopes.main.as_slice();
    let (main, main_size, main_waits) = text(&known, names, own, program.main.as_slice(), 0)?;
    Ok(CodeScript {
        functions,
        classes,
        bodies,
        dispatch,
        main,
        main_size,
        main_waits,
    })
}
