// Which code an assignment by the call of a method becomes, once its parts are resolved.

ghost use Rattle.std.specs.Prelude.{◌≡◌, ◌++◌, ℕ, List, codes, true, map, IfErr, IfOk};
ghost use Rattle.rb_code.specs.Erase.{erase};
ghost use Rattle.rb_code.specs.Resolved.{every, fits};
ghost use Rattle.rb_code.specs.Resolved as resolved;
ghost use Rattle.rb_machine.specs.Scopes.{Script, name_text};
ghost use Rattle.rb_accepted.specs.Coded.{begins_word};
ghost use Rattle.rb_resolver.specs.Known as spec;
ghost use Rattle.rb_resolver.specs.declared.fault.ResolveFault.TheVariants.{Memory};
ghost use Rattle.rb_tree.specs.Texts.{number_of as numbered};
ghost use Rattle.rb_tree.specs.declared.node.Node.TheVariants as tree;
ghost use Rattle.rb_tree.specs.declared.node.Target.TheVariants as target;
ghost use Rattle.rb_tree.specs.declared.span.NameId.{NameId as Id};

use crate::calls::number_of;
use crate::fault::ResolveFault;
use crate::known::Known;
use rb_code::Code;
use rb_render::name_text;
use rb_tree::{AssignOp, Boxed, Items, NameId, Names, Span};
use std::alloc::{AllocError, Global};

/// Whether a text with `=` behind it is the name of no built-in method: `==`, `<=`, `>=` and `[]=` are all that end so.
#[tactic(auto, using(crate::proofs::Numbered::writer_is))]
fn is_writer_free(text: &[u8]) -> bool
    ensures { result ≡ resolved.is_free (text.now ++ codes "=") }
{
    match text {
        _ if text == b"=".as_slice() => false,
        _ if text == b"<".as_slice() => false,
        _ if text == b">".as_slice() => false,
        _ if text == b"[]".as_slice() => false,
        _ => true,
    }
}

/// An assignment by the call of a method.
pub(crate) fn stored(
    names: &Names,
    name: NameId,
    receiver: Boxed<Code>,
    args: Items<Code>,
    at: Span,
) -> Code
    ensures erases { erase result ≡ tree.Store (erase receiver) name (map erase args) at }
    ensures fits { (S : Script) (scope : List Id) (size : ℕ) → S.program.names ≡ names.now → fits S receiver scope size ≡ true → every (map (fits S) args) scope size ≡ true → fits S result scope size ≡ true }
{
    Code::Store(number_of(names, name), receiver, name, args, at)
}

/// The name of the methods that write an attribute, where there is one.
fn writer_of(alloc: Global, names: &Names, name: NameId) -> Result<Option<NameId>, AllocError>
    ensures { IfOk result (λ writer. writer ≡ numbered (name_text names.now name ++ codes "=") names.now) }
{
    let mut text = Vec::from_slice(alloc, name_text(names, name))?;
    text.push(b'=')?;
    Ok(names.find(text.as_slice()))
}

/// An assignment with an operator to an attribute. The name of an attribute is a word, so that with `=` behind it it is never that of a
/// built-in method.
pub(crate) fn attribute_updated(
    known: &Known,
    names: &Names,
    name: NameId,
    receiver: Boxed<Code>,
    op: AssignOp,
    value: Boxed<Code>,
    at: Span,
) -> Result<Code, ResolveFault>
    ensures built { begins_word (name_text names.now name) ≡ true → IfErr result (λ e. e ≡ Memory) }
    ensures erases { IfOk result (λ code. erase code ≡ tree.OpAssign (target.Attribute (erase receiver) name) op (erase value) at) }
    ensures fits { IfOk result (λ code. (S : Script) (scope : List Id) (size : ℕ) → spec.IsKnown known.now names.now S → fits S receiver scope size ≡ true → fits S value scope size ≡ true → fits S code scope size ≡ true) }
{
    if !is_writer_free(name_text(names, name)) {
        return Err(ResolveFault::NotBuilt(at));
    }
    let number = number_of(names, name);
    let writer = writer_of(known.alloc, names, name)?;
    Ok(Code::UpdateAttribute(number, writer, name, receiver, op, value, at))
}
