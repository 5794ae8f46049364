// Which code a call or a new object becomes, once its parts are resolved.

ghost use Rattle.std.specs.Prelude.{◌≡◌, ℕ, List, Some, None, true, is_some, false, map, IfErr, IfOk};
ghost use Rattle.std.specs.Option.{option_map};
ghost use Rattle.rb_code.specs.Erase.{erase, erase_block};
ghost use Rattle.rb_code.specs.Resolved.{every, if_some, fits, block_fits};
ghost use Rattle.rb_builtin.specs.Names as builtin;
ghost use Rattle.rb_machine.specs.Scopes.{Script, name_text};
ghost use Rattle.rb_accepted.specs.Unbuilt.{is_built_class, is_call};
ghost use Rattle.rb_resolver.specs.Built.{Builds};
ghost use Rattle.rb_resolver.specs.Known as spec;
ghost use Rattle.rb_resolver.specs.declared.fault.ResolveFault.TheVariants.{Memory};
ghost use Rattle.rb_tree.specs.declared.node.Node.TheVariants as tree;
ghost use Rattle.rb_tree.specs.declared.span.NameId.{NameId as Id};

use crate::fault::ResolveFault;
use crate::known::Known;
use rb_builtin::{Builtin, builtin_of};
use rb_code::{BuiltinClass, Code, CodeBlock};
use rb_render::{Form, name_text};
use rb_tree::{Boxed, Items, NameId, Names, Span};
use std::alloc::Global;

/// The number of the built-in methods of a name, where there are some.
pub(crate) fn number_of(names: &Names, name: NameId) -> Option<Builtin>
    ensures { result ≡ builtin.builtin_of (name_text names.now name) }
{
    builtin_of(name_text(names, name))
}

/// The form of printing that a text calls.
fn form_of(text: &[u8]) -> Option<Form>
    ensures { result ≡ spec.form_of text.now }
{
    match text {
        _ if text == b"puts".as_slice() => Some(Form::Puts),
        _ if text == b"print".as_slice() => Some(Form::Print),
        _ if text == b"p".as_slice() => Some(Form::Inspect),
        _ => None,
    }
}

/// The class of a name that is built in and has `new`.
fn builtin_class_of(text: &[u8]) -> Option<BuiltinClass>
    ensures { result ≡ spec.builtin_class_of text.now }
{
    match text {
        _ if text == b"Array".as_slice() => Some(BuiltinClass::Array),
        _ if text == b"Hash".as_slice() => Some(BuiltinClass::Hash),
        _ if text == b"Mutex".as_slice() => Some(BuiltinClass::Mutex),
        _ => None,
    }
}

/// A call without receiver and without a block.
fn named(known: &Known, names: &Names, name: NameId, args: Items<Code>, at: Span) -> Code
    ensures erases { erase result ≡ tree.Call None name (map erase args) None at }
    ensures fits { (S : Script) (scope : List Id) (size : ℕ) → spec.IsKnown known.now names.now S → every (map (fits S) args) scope size ≡ true → fits S result scope size ≡ true }
{
    if let Some(number) = known.function(name) {
        return Code::Function(number, name, args, at);
    }
    let Some(form) = form_of(name_text(names, name)) else {
        return Code::Own(name, args, at);
    };
    Code::Print(form, name, args, at)
}

/// A call with a receiver and without a block.
fn sent(
    alloc: Global,
    names: &Names,
    name: NameId,
    receiver: Boxed<Code>,
    mut args: Items<Code>,
    at: Span,
) -> Result<Code, ResolveFault>
    ensures built { IfErr result (λ e. e ≡ Memory) }
    ensures erases { IfOk result (λ code. erase code ≡ tree.Call (Some (erase receiver)) name (map erase args) None at) }
    ensures fits { IfOk result (λ code. (S : Script) (scope : List Id) (size : ℕ) → S.program.names ≡ names.now → fits S receiver scope size ≡ true → every (map (fits S) args) scope size ≡ true → fits S code scope size ≡ true) }
{
    let number = number_of(names, name);
    if args.len() != 1 {
        return Ok(Code::Send(number, name, receiver, args, at));
    }
    let Some(right) = args.pop() else {
        return Ok(Code::Send(number, name, receiver, args, at));
    };
    Ok(Code::Operate(number, name, receiver, Boxed::new(alloc, right)?, at))
}

/// A call whose parts are resolved.
pub(crate) fn called(
    known: &Known,
    names: &Names,
    receiver: Option<Boxed<Code>>,
    name: NameId,
    args: Items<Code>,
    block: Option<Boxed<CodeBlock>>,
    at: Span,
) -> Result<Code, ResolveFault>
    ensures built { is_call (is_some receiver) (is_some block) ≡ false → IfErr result (λ e. e ≡ Memory) }
    ensures erases { IfOk result (λ code. erase code ≡ tree.Call (option_map erase receiver) name (map erase args) (option_map erase_block block) at) }
    ensures fits { IfOk result (λ code. (S : Script) (scope : List Id) (size : ℕ) → spec.IsKnown known.now names.now S
        → if_some (option_map (fits S) receiver) scope size ≡ true → every (map (fits S) args) scope size ≡ true → if_some (option_map (block_fits S) block) scope size ≡ true
        → fits S code scope size ≡ true) }
{
    match (receiver, block) {
        (None, None) => Ok(named(known, names, name, args, at)),
        (None, Some(_)) => Err(ResolveFault::NotBuilt(at)),
        (Some(receiver), None) => sent(known.alloc, names, name, receiver, args, at),
        (Some(receiver), Some(block)) => {
            let number = number_of(names, name);
            Ok(Code::Walk(number, name, receiver, args, block, at))
        }
    }
}

/// A new object of a class of the script, or of one that is built in.
pub(crate) fn made(
    known: &Known,
    names: &Names,
    class: NameId,
    args: Items<Code>,
    at: Span,
) -> Result<Code, ResolveFault>
    ensures built { Builds known.now names.now (λ S. is_built_class S.program.names S.program.classes class) result }
    ensures erases { IfOk result (λ code. erase code ≡ tree.New class (map erase args) at) }
    ensures fits { IfOk result (λ code. (S : Script) (scope : List Id) (size : ℕ) → spec.IsKnown known.now names.now S → every (map (fits S) args) scope size ≡ true → fits S code scope size ≡ true) }
{
    if let Some(number) = known.class(class) {
        let first = known.first(number);
        return Ok(Code::New(number, first, class, args, at));
    }
    let Some(builtin) = builtin_class_of(name_text(names, class)) else {
        return Err(ResolveFault::NotBuilt(at));
    };
    Ok(Code::NewBuiltin(builtin, class, args, at))
}
