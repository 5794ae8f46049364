// The starts of threads, and their bodies.

ghost use Rattle.std.specs.Prelude.{◌≡◌, ℕ, List, true, Some, map, slice_get, IfErr, IfOk};
ghost use Rattle.rb_code.specs.Erase.{erase, erase_body};
ghost use Rattle.rb_code.specs.Layout.{have_slots};
ghost use Rattle.rb_code.specs.Resolved.{every, fits};
ghost use Rattle.rb_code.specs.Stands.{IsBody};
ghost use Rattle.rb_code.specs.declared.scripted.CodeBody.{CodeBody as Body};
ghost use Rattle.rb_machine.specs.Scopes.{Script, Text};
ghost use Rattle.rb_accepted.specs.Coded.{are_seen};
ghost use Rattle.rb_resolver.specs.Built.{Builds, body_built, bodies_built};
ghost use Rattle.rb_resolver.specs.Known as spec;
ghost use Rattle.rb_resolver.specs.declared.fault.ResolveFault.TheVariants.{Memory};
ghost use Rattle.rb_tree.specs.declared.node.Node.TheVariants as tree;

use crate::fault::ResolveFault;
use crate::frame::Frame;
use crate::known::Known;
use crate::script::text;
use rb_code::{Code, CodeBody};
use rb_tree::{Block, Items, NameId, Names, Span};
use std::alloc::Global;

/// The slots of names in a frame, one of each. They are used at this place.
fn slots_of(
    alloc: Global,
    frame: &Frame,
    used: &[NameId],
    at: Span,
) -> Result<Items<u32>, ResolveFault>
    ensures built { are_seen used.now frame.now.names.items ≡ true → IfErr result (λ e. e ≡ Memory) }
    ensures has { IfOk result (λ slots. have_slots used.now frame.now.names.items slots ≡ true) }
{
    let mut slots = Items::new(alloc);
    'used: for name in used {
        let slot = frame.slot(*name, at)?;
        slots.push(slot)?;
    }
    Ok(slots)
}

/// The start of a thread whose body has this number, once its arguments are resolved.
pub(crate) fn started(
    known: &Known,
    frame: &Frame,
    args: Items<Code>,
    body: u32,
    at: Span,
) -> Result<Code, ResolveFault>
    ensures built { (S : Script) (names : List Text) → spec.IsKnown known.now names S → are_seen (S.captured_names body) frame.now.names.items ≡ true → IfErr result (λ e. e ≡ Memory) }
    ensures erases { IfOk result (λ code. erase code ≡ tree.ThreadNew (map erase args) body at) }
    ensures fits { IfOk result (λ code. (S : Script) (names : List Text) (size : ℕ) → spec.IsKnown known.now names S → every (map (fits S) args) frame.now.names.items size ≡ true → fits S code frame.now.names.items size ≡ true) }
{
    let slots = slots_of(known.alloc, frame, known.threads.captured_of(body), at)?;
    Ok(Code::Start(args, body, slots, at))
}

/// Resolves the body of a thread, which has this number.
fn body(known: &Known, names: &Names, number: u32, source: &Block) -> Result<CodeBody, ResolveFault>
    ensures built { Builds known.now names.now (λ S. body_built S source.now.body (S.thread_names number)) result }
    ensures erases { IfOk result (λ body. erase_body body ≡ source.now) }
    ensures fits { IfOk result (λ body. (S : Script) → spec.IsKnown known.now names.now S → IsBody S number body) }
{
    let Block {
        params,
        body: nodes,
        at,
    } = source;
    let captured = known.threads.captured_of(number);
    let Some(least) = params.len().checked_add(captured.len()) else {
        return Err(ResolveFault::Memory);
    };
    let own = known.threads.frame_of(number);
    let (codes, size, waits) = text(known, names, own, nodes.as_slice(), least)?;
    let captured = Items::from_slice(known.alloc, captured)?;
    let params = Items::from_slice(known.alloc, params.as_slice())?;
    Ok(CodeBody {
        params,
        captured,
        size,
        waits,
        body: codes,
        at: *at,
    })
}

/// Resolves the bodies of threads, which are numbered in their order.
pub(crate) fn bodies(
    known: &Known,
    names: &Names,
    sources: &[Block],
) -> Result<Items<CodeBody>, ResolveFault>
    ensures built { Builds known.now names.now (λ S. bodies_built S 0 sources.now) result }
    ensures erases { IfOk result (λ bodies. map erase_body bodies ≡ sources.now) }
    ensures fits { IfOk result (λ bodies. (S : Script) → spec.IsKnown known.now names.now S → (number : ℕ) (it : Body) → slice_get bodies number ≡ Some it → IsBody S number it) }
{
    let mut codes = Items::new(known.alloc);
    'bodies: for (i, source) in sources.iter().enumerate() {
        let Ok(number) = u32::try_from(i) else {
            return Err(ResolveFault::Memory);
        };
        let code = body(known, names, number, source)?;
        codes.push(code)?;
    }
    Ok(codes)
}
