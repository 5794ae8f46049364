// The resolved nodes of a tree.

ghost use Rattle.std.specs.Prelude.{◌≡◌, ◌≤◌, ℕ, true, map, IfOk, OnOk};
ghost use Rattle.std.specs.Option.{option_map};
ghost use Rattle.rb_code.specs.Erase.{erase, erase_piece, erase_block, paired};
ghost use Rattle.rb_code.specs.Resolved.{every, if_some, fits, piece_fits, block_fits, body_fits, is_even};
ghost use Rattle.rb_machine.specs.Scopes.{Script};
ghost use Rattle.rb_accepted.specs.Coded as coded;
ghost use Rattle.rb_resolver.specs.Built.{Builds, node_built, body_built, pairs_built, piece_built, text_built, block_built};
ghost use Rattle.rb_resolver.specs.Known as spec;

use crate::calls::{called, made};
use crate::fault::ResolveFault;
use crate::frame::Frame;
use crate::known::Known;
use crate::stores::{attribute_updated, stored};
use crate::threads::started;
use rb_code::{Code, CodeBlock, CodePiece};
use rb_model::SharedText;
use rb_tree::{Block, Boxed, Items, Names, Node, Piece, Target};

/// Resolves a node.
#[cycle(resolving)]
#[tactic(auto, using(crate::proofs::Layers::erasing))]
fn node(
    known: &Known,
    names: &Names,
    source: &Node,
    frame: &mut Frame,
) -> Result<Code, ResolveFault>
    ensures erases { IfOk result (λ code. erase code ≡ source.now) }
    ensures fits { IfOk result (λ code. (S : Script) → spec.IsKnown known.now names.now S → (size : ℕ) → frame.new.size ≤ size → fits S code frame.old.names.items size ≡ true) }
    ensures built { Builds known.now names.now (λ S. node_built S source.now frame.old.names.items) result }
    ensures names { OnOk result (frame.new.names.items ≡ frame.old.names.items) }
    ensures rises { frame.old.size ≤ frame.new.size }
{
    match source {
        Node::Nil(at) => Ok(Code::Nil(*at)),
        Node::False(at) => Ok(Code::False(*at)),
        Node::True(at) => Ok(Code::True(*at)),
        Node::SelfRef(at) => Ok(Code::SelfRef(*at)),
        Node::Int(n, at) => Ok(Code::Int(*n, *at)),
        Node::Sym(name, at) => Ok(Code::Sym(*name, *at)),
        Node::Str(pieces, at) => {
            let pieces = text(known, names, pieces.as_slice(), frame)?;
            Ok(Code::Str(pieces, *at))
        }
        Node::Array(items, at) => {
            let items = arguments(known, names, items.as_slice(), frame)?;
            Ok(Code::Array(items, *at))
        }
        Node::Hash(sources, at) => {
            let items = pairs(known, names, sources.as_slice(), frame)?;
            Ok(Code::Hash(items, *at))
        }
        Node::Local(name, at) => {
            let slot = frame.slot(*name, *at)?;
            Ok(Code::Local(slot, *name, *at))
        }
        Node::SetLocal(name, value, at) => {
            let slot = frame.slot(*name, *at)?;
            let value = boxed(known, names, value.get(), frame)?;
            Ok(Code::SetLocal(slot, *name, value, *at))
        }
        Node::Field(name, at) => Ok(Code::Field(*name, *at)),
        Node::SetField(name, value, at) => {
            let value = boxed(known, names, value.get(), frame)?;
            Ok(Code::SetField(*name, value, *at))
        }
        Node::Global(name, at) => Ok(Code::Global(*name, *at)),
        Node::SetGlobal(name, value, at) => {
            let value = boxed(known, names, value.get(), frame)?;
            Ok(Code::SetGlobal(*name, value, *at))
        }
        Node::Store {
            receiver,
            name,
            args,
            at,
        } => {
            let receiver = boxed(known, names, receiver.get(), frame)?;
            let args = arguments(known, names, args.as_slice(), frame)?;
            Ok(stored(names, *name, receiver, args, *at))
        }
        Node::OpAssign {
            target,
            op,
            value,
            at,
        } => match target {
            Target::Local(name) => {
                let slot = frame.slot(*name, *at)?;
                let value = boxed(known, names, value.get(), frame)?;
                Ok(Code::UpdateLocal(slot, *name, *op, value, *at))
            }
            Target::Field(name) => {
                let value = boxed(known, names, value.get(), frame)?;
                Ok(Code::UpdateField(*name, *op, value, *at))
            }
            Target::Index(receiver, index) => {
                let receiver = boxed(known, names, receiver.get(), frame)?;
                let index = boxed(known, names, index.get(), frame)?;
                let value = boxed(known, names, value.get(), frame)?;
                Ok(Code::UpdateElement(receiver, index, *op, value, *at))
            }
            Target::Attribute(receiver, name) => {
                let receiver = boxed(known, names, receiver.get(), frame)?;
                let value = boxed(known, names, value.get(), frame)?;
                attribute_updated(known, names, *name, receiver, *op, value, *at)
            }
            Target::Global(name) => {
                let value = boxed(known, names, value.get(), frame)?;
                Ok(Code::UpdateGlobal(*name, *op, value, *at))
            }
        },
        Node::Call {
            receiver,
            name,
            args,
            block,
            at,
        } => {
            let receiver = optional(known, names, receiver, frame)?;
            let args = arguments(known, names, args.as_slice(), frame)?;
            let block = optional_block(known, names, block, frame)?;
            called(known, names, receiver, *name, args, block, *at)
        }
        Node::New { class, args, at } => {
            let args = arguments(known, names, args.as_slice(), frame)?;
            made(known, names, *class, args, *at)
        }
        Node::ThreadNew {
            args,
            body: number,
            at,
        } => {
            let args = arguments(known, names, args.as_slice(), frame)?;
            started(known, frame, args, *number, *at)
        }
        Node::And(left, right, at) => {
            let left = boxed(known, names, left.get(), frame)?;
            let right = boxed(known, names, right.get(), frame)?;
            Ok(Code::And(left, right, *at))
        }
        Node::Or(left, right, at) => {
            let left = boxed(known, names, left.get(), frame)?;
            let right = boxed(known, names, right.get(), frame)?;
            Ok(Code::Or(left, right, *at))
        }
        Node::Not(value, at) => {
            let value = boxed(known, names, value.get(), frame)?;
            Ok(Code::Not(value, *at))
        }
        Node::If(condition, first, second, at) => {
            let condition = boxed(known, names, condition.get(), frame)?;
            let first = body(known, names, first.as_slice(), frame)?;
            let second = body(known, names, second.as_slice(), frame)?;
            Ok(Code::If(condition, first, second, *at))
        }
        Node::While(condition, nodes, at) => {
            let condition = boxed(known, names, condition.get(), frame)?;
            let nodes = body(known, names, nodes.as_slice(), frame)?;
            Ok(Code::While(condition, nodes, *at))
        }
        Node::Return(value, at) => {
            let value = optional(known, names, value, frame)?;
            Ok(Code::Return(value, *at))
        }
        Node::Break(at) => Ok(Code::Break(*at)),
        Node::Next(at) => Ok(Code::Next(*at)),
    }
}

/// Resolves a node that stands in another.
#[cycle(resolving)]
#[tactic(auto, using(crate::proofs::Layers::erasing))]
fn boxed(
    known: &Known,
    names: &Names,
    source: &Node,
    frame: &mut Frame,
) -> Result<Boxed<Code>, ResolveFault>
    ensures erases { IfOk result (λ code. erase code ≡ source.now) }
    ensures fits { IfOk result (λ code. (S : Script) → spec.IsKnown known.now names.now S → (size : ℕ) → frame.new.size ≤ size → fits S code frame.old.names.items size ≡ true) }
    ensures built { Builds known.now names.now (λ S. node_built S source.now frame.old.names.items) result }
    ensures names { OnOk result (frame.new.names.items ≡ frame.old.names.items) }
    ensures rises { frame.old.size ≤ frame.new.size }
{
    let code = node(known, names, source, frame)?;
    Ok(Boxed::new(known.alloc, code)?)
}

/// Resolves a node that may be there.
#[cycle(resolving)]
#[tactic(auto, using(crate::proofs::Layers::erasing))]
fn optional(
    known: &Known,
    names: &Names,
    source: &Option<Boxed<Node>>,
    frame: &mut Frame,
) -> Result<Option<Boxed<Code>>, ResolveFault>
    ensures erases { IfOk result (λ code. option_map erase code ≡ source.now) }
    ensures fits { IfOk result (λ code. (S : Script) → spec.IsKnown known.now names.now S → (size : ℕ) → frame.new.size ≤ size → if_some (option_map (fits S) code) frame.old.names.items size ≡ true) }
    ensures built { Builds known.now names.now (λ S. coded.if_some (option_map (node_built S) source.now) frame.old.names.items) result }
    ensures names { OnOk result (frame.new.names.items ≡ frame.old.names.items) }
    ensures rises { frame.old.size ≤ frame.new.size }
{
    match source {
        None => Ok(None),
        Some(source) => {
            let code = boxed(known, names, source.get(), frame)?;
            Ok(Some(code))
        }
    }
}

/// Resolves nodes, one behind the other.
#[cycle(resolving)]
#[tactic(auto, using(crate::proofs::Layers::erasing))]
pub(crate) fn body(
    known: &Known,
    names: &Names,
    nodes: &[Node],
    frame: &mut Frame,
) -> Result<Items<Code>, ResolveFault>
    ensures erases { IfOk result (λ codes. map erase codes ≡ nodes.now) }
    ensures fits { IfOk result (λ codes. (S : Script) → spec.IsKnown known.now names.now S → (size : ℕ) → frame.new.size ≤ size → body_fits S codes frame.old.names.items size ≡ true) }
    ensures built { Builds known.now names.now (λ S. body_built S nodes.now frame.old.names.items) result }
    ensures names { OnOk result (frame.new.names.items ≡ frame.old.names.items) }
    ensures rises { frame.old.size ≤ frame.new.size }
{
    let mut codes = Items::new(known.alloc);
    'nodes: for source in nodes {
        let code = node(known, names, source, frame)?;
        codes.push(code)?;
    }
    Ok(codes)
}

/// Resolves the arguments of a call, or the elements of a list: while one is evaluated, those before it wait.
#[cycle(resolving)]
#[tactic(auto, using(crate::proofs::Layers::erasing))]
fn arguments(
    known: &Known,
    names: &Names,
    nodes: &[Node],
    frame: &mut Frame,
) -> Result<Items<Code>, ResolveFault>
    ensures erases { IfOk result (λ codes. map erase codes ≡ nodes.now) }
    ensures fits { IfOk result (λ codes. (S : Script) → spec.IsKnown known.now names.now S → (size : ℕ) → frame.new.size ≤ size → body_fits S codes frame.old.names.items size ≡ true) }
    ensures built { Builds known.now names.now (λ S. body_built S nodes.now frame.old.names.items) result }
    ensures names { OnOk result (frame.new.names.items ≡ frame.old.names.items) }
    ensures rises { frame.old.size ≤ frame.new.size }
{
    frame.wait(nodes.len());
    let codes = body(known, names, nodes, frame)?;
    frame.pass(nodes.len());
    Ok(codes)
}

/// Resolves the pairs of a hash, whose keys and values then stand by turns.
#[cycle(resolving)]
#[tactic(auto, using(crate::proofs::Layers::erasing))]
fn pairs(
    known: &Known,
    names: &Names,
    sources: &[(Node, Node)],
    frame: &mut Frame,
) -> Result<Items<Code>, ResolveFault>
    ensures erases { IfOk result (λ codes. paired (map erase codes) ≡ sources.now) }
    ensures even { IfOk result (λ codes. is_even codes ≡ true) }
    ensures fits { IfOk result (λ codes. (S : Script) → spec.IsKnown known.now names.now S → (size : ℕ) → frame.new.size ≤ size → body_fits S codes frame.old.names.items size ≡ true) }
    ensures built { Builds known.now names.now (λ S. pairs_built S sources.now frame.old.names.items) result }
    ensures names { OnOk result (frame.new.names.items ≡ frame.old.names.items) }
    ensures rises { frame.old.size ≤ frame.new.size }
{
    let count = sources.len().saturating_mul(2);
    frame.wait(count);
    let mut codes = Items::new(known.alloc);
    'pairs: for pair in sources {
        let key = node(known, names, &pair.0, frame)?;
        codes.push(key)?;
        let value = node(known, names, &pair.1, frame)?;
        codes.push(value)?;
    }
    frame.pass(count);
    Ok(codes)
}

/// Resolves a piece of a text.
#[cycle(resolving)]
#[tactic(auto, using(crate::proofs::Layers::erasing))]
fn piece(
    known: &Known,
    names: &Names,
    source: &Piece,
    frame: &mut Frame,
) -> Result<CodePiece, ResolveFault>
    ensures erases { IfOk result (λ part. erase_piece part ≡ source.now) }
    ensures fits { IfOk result (λ part. (S : Script) → spec.IsKnown known.now names.now S → (size : ℕ) → frame.new.size ≤ size → piece_fits S part frame.old.names.items size ≡ true) }
    ensures built { Builds known.now names.now (λ S. piece_built S source.now frame.old.names.items) result }
    ensures names { OnOk result (frame.new.names.items ≡ frame.old.names.items) }
    ensures rises { frame.old.size ≤ frame.new.size }
{
    match source {
        Piece::Text(bytes) => {
            let bytes = SharedText::from_slice(known.alloc, bytes.as_slice())?;
            Ok(CodePiece::Text(bytes))
        }
        Piece::Code(source) => {
            let code = node(known, names, source, frame)?;
            Ok(CodePiece::Code(code))
        }
    }
}

/// Resolves the pieces of a text.
#[cycle(resolving)]
#[tactic(auto, using(crate::proofs::Layers::erasing))]
fn text(
    known: &Known,
    names: &Names,
    pieces: &[Piece],
    frame: &mut Frame,
) -> Result<Items<CodePiece>, ResolveFault>
    ensures erases { IfOk result (λ parts. map erase_piece parts ≡ pieces.now) }
    ensures fits { IfOk result (λ parts. (S : Script) → spec.IsKnown known.now names.now S → (size : ℕ) → frame.new.size ≤ size → every (map (piece_fits S) parts) frame.old.names.items size ≡ true) }
    ensures built { Builds known.now names.now (λ S. text_built S pieces.now frame.old.names.items) result }
    ensures names { OnOk result (frame.new.names.items ≡ frame.old.names.items) }
    ensures rises { frame.old.size ≤ frame.new.size }
{
    let mut parts = Items::new(known.alloc);
    'pieces: for source in pieces {
        let part = piece(known, names, source, frame)?;
        parts.push(part)?;
    }
    Ok(parts)
}

/// Resolves a block, whose own names lie behind those in scope.
#[cycle(resolving)]
#[tactic(auto, using(crate::proofs::Layers::erasing))]
fn block(
    known: &Known,
    names: &Names,
    source: &Block,
    frame: &mut Frame,
) -> Result<Boxed<CodeBlock>, ResolveFault>
    ensures erases { IfOk result (λ block. erase_block block ≡ source.now) }
    ensures fits { IfOk result (λ block. (S : Script) → spec.IsKnown known.now names.now S → (size : ℕ) → frame.new.size ≤ size → block_fits S block frame.old.names.items size ≡ true) }
    ensures built { Builds known.now names.now (λ S. block_built S source.now frame.old.names.items) result }
    ensures names { OnOk result (frame.new.names.items ≡ frame.old.names.items) }
    ensures rises { frame.old.size ≤ frame.new.size }
{
    let Block {
        params,
        body: nodes,
        at,
    } = source;
    let (from, count) = frame.enter(known.scopes.of_block(*at))?;
    let nodes = body(known, names, nodes.as_slice(), frame)?;
    frame.leave(from);
    let params = Items::from_slice(known.alloc, params.as_slice())?;
    let code = CodeBlock {
        params,
        from,
        count,
        body: nodes,
        at: *at,
    };
    Ok(Boxed::new(known.alloc, code)?)
}

/// Resolves a block that may be there.
#[cycle(resolving)]
#[tactic(auto, using(crate::proofs::Layers::erasing))]
fn optional_block(
    known: &Known,
    names: &Names,
    source: &Option<Boxed<Block>>,
    frame: &mut Frame,
) -> Result<Option<Boxed<CodeBlock>>, ResolveFault>
    ensures erases { IfOk result (λ code. option_map erase_block code ≡ source.now) }
    ensures fits { IfOk result (λ code. (S : Script) → spec.IsKnown known.now names.now S → (size : ℕ) → frame.new.size ≤ size → if_some (option_map (block_fits S) code) frame.old.names.items size ≡ true) }
    ensures built { Builds known.now names.now (λ S. coded.if_some (option_map (block_built S) source.now) frame.old.names.items) result }
    ensures names { OnOk result (frame.new.names.items ≡ frame.old.names.items) }
    ensures rises { frame.old.size ≤ frame.new.size }
{
    match source {
        None => Ok(None),
        Some(source) => {
            let code = block(known, names, source.get(), frame)?;
            Ok(Some(code))
        }
    }
}
