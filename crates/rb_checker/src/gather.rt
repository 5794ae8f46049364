// The events of a text.

ghost use Rattle.std.specs.Prelude.{◌≡◌, ℕ, List, ◌∷◌, [], ◌++◌, map, OnOk};
ghost use Rattle.std.specs.Option.{option_map};
ghost use Rattle.rb_checker.specs.declared.event.Event.{Event as Seen};
ghost use Rattle.rb_checker.specs.Events as spec;
ghost use Rattle.rb_tree.specs.Place.{place};
ghost use Rattle.rb_tree.specs.declared.node.Node.{out-Node};
ghost use Rattle.rb_checker.specs.Bodies.{Tells};

use crate::bodies::Bodies;
use crate::event::{Around, Event, Sight};
use rb_tree::{Block, Boxed, NameId, Node, Param, Piece, Span, Target, place_of};
use std::alloc::AllocError;

/// Adds an event behind others.
fn add_event(events: &mut Vec<Event>, sight: Sight, at: Span) -> Result<(), AllocError>
    ensures { OnOk result (events.new.items ≡ events.old.items ++ spec.event sight at ∷ []) }
{
    events.push(Event { sight, at })?;
    Ok(())
}

/// Adds the parameters of a method or a block.
pub(crate) fn add_params(events: &mut Vec<Event>, params: &[Param]) -> Result<(), AllocError>
    ensures { OnOk result (events.new.items ≡ events.old.items ++ spec.params_of params.now) }
{
    'params: for param in params {
        add_event(events, Sight::Param(param.name), param.at)?;
    }
    Ok(())
}

/// Adds the events of a body that is known.
fn add_body(events: &mut Vec<Event>, bodies: &Bodies, number: u32) -> Result<(), AllocError>
    ensures { OnOk result ((b : ℕ → List Seen) → Tells bodies.now.total (map (λ e. e.items) bodies.now.kept.items) b → events.new.items ≡ events.old.items ++ b number) }
{
    events.extend_from_slice(bodies.of(number))?;
    Ok(())
}

/// Whether a body stands before the word of its choice or loop, as it does with a modifier.
fn is_behind(at: Span, body: &[Node]) -> bool
    ensures { result ≡ spec.is_behind at (map (λ n. place (out-Node n)) body.now) }
{
    match body {
        [] => false,
        [first, ..] => place_of(first).from < at.from,
    }
}

/// Adds the events of a node.
#[cycle(gathering)]
#[tactic(auto, using(crate::proofs::Parts::parts))]
pub(crate) fn add_node(
    events: &mut Vec<Event>,
    bodies: &Bodies,
    node: &Node,
) -> Result<(), AllocError>
    ensures { OnOk result ((b : ℕ → List Seen) → Tells bodies.now.total (map (λ e. e.items) bodies.now.kept.items) b → events.new.items ≡ events.old.items ++ spec.events_of b node.now) }
{
    match node {
        Node::Nil(_) | Node::False(_) | Node::True(_) | Node::Int(_, _) | Node::Sym(_, _) => Ok(()),
        Node::SelfRef(at) => add_event(events, Sight::SelfRef, *at),
        Node::Str(pieces, _) => add_pieces(events, bodies, pieces.as_slice()),
        Node::Array(items, _) => add_all(events, bodies, items.as_slice()),
        Node::Hash(pairs, _) => add_pairs(events, bodies, pairs.as_slice()),
        Node::Local(name, at) => add_event(events, Sight::Reads(*name), *at),
        Node::Field(name, at) => add_event(events, Sight::Field(*name), *at),
        Node::Global(name, at) => add_event(events, Sight::Global(*name), *at),
        Node::SetLocal(name, value, at) => {
            add_assignment(events, bodies, *name, *at, value.get())
        }
        Node::SetField(name, value, at) => {
            add_event(events, Sight::Field(*name), *at)?;
            add_node(events, bodies, value.get())
        }
        Node::SetGlobal(name, value, at) => {
            add_event(events, Sight::Global(*name), *at)?;
            add_node(events, bodies, value.get())
        }
        Node::Store { receiver, args, .. } => {
            add_node(events, bodies, receiver.get())?;
            add_all(events, bodies, args.as_slice())
        }
        Node::OpAssign {
            target,
            value,
            at,
            ..
        } => match target {
            Target::Local(name) => add_assignment(events, bodies, *name, *at, value.get()),
            Target::Field(name) => {
                add_event(events, Sight::Field(*name), *at)?;
                add_node(events, bodies, value.get())
            }
            Target::Global(name) => {
                add_event(events, Sight::Global(*name), *at)?;
                add_node(events, bodies, value.get())
            }
            Target::Index(receiver, index) => {
                add_node(events, bodies, receiver.get())?;
                add_node(events, bodies, index.get())?;
                add_node(events, bodies, value.get())
            }
            Target::Attribute(receiver, _) => {
                add_node(events, bodies, receiver.get())?;
                add_node(events, bodies, value.get())
            }
        },
        Node::Call {
            receiver,
            name,
            args,
            block,
            at,
        } => {
            add_receiver(events, bodies, receiver, *name, *at)?;
            add_all(events, bodies, args.as_slice())?;
            add_block(events, bodies, block)
        }
        Node::New { class, args, at } => {
            add_event(events, Sight::Makes(*class), *at)?;
            add_all(events, bodies, args.as_slice())
        }
        Node::ThreadNew { args, body, at } => {
            add_event(events, Sight::Starts(*body), *at)?;
            add_all(events, bodies, args.as_slice())?;
            add_event(events, Sight::Begins(Around::Thread), *at)?;
            add_body(events, bodies, *body)?;
            add_event(events, Sight::Ends, *at)
        }
        Node::And(left, right, _) | Node::Or(left, right, _) => {
            add_node(events, bodies, left.get())?;
            add_node(events, bodies, right.get())
        }
        Node::Not(value, _) => add_node(events, bodies, value.get()),
        Node::If(condition, first, second, at) => {
            if is_behind(*at, first.as_slice()) {
                add_all(events, bodies, first.as_slice())?;
                add_node(events, bodies, condition.get())?;
                return add_all(events, bodies, second.as_slice());
            }
            add_node(events, bodies, condition.get())?;
            add_all(events, bodies, first.as_slice())?;
            add_all(events, bodies, second.as_slice())
        }
        Node::While(condition, body, at) => {
            add_event(events, Sight::Begins(Around::Loop), *at)?;
            if is_behind(*at, body.as_slice()) {
                add_all(events, bodies, body.as_slice())?;
                add_node(events, bodies, condition.get())?;
                return add_event(events, Sight::Ends, *at);
            }
            add_node(events, bodies, condition.get())?;
            add_all(events, bodies, body.as_slice())?;
            add_event(events, Sight::Ends, *at)
        }
        Node::Return(value, at) => {
            add_event(events, Sight::Returns, *at)?;
            add_if_some(events, bodies, value)
        }
        Node::Break(at) | Node::Next(at) => add_event(events, Sight::Leaves, *at),
    }
}

/// Adds an assignment to a local, whose right side follows.
#[cycle(gathering)]
fn add_assignment(
    events: &mut Vec<Event>,
    bodies: &Bodies,
    name: NameId,
    at: Span,
    value: &Node,
) -> Result<(), AllocError>
    ensures { OnOk result ((b : ℕ → List Seen) → Tells bodies.now.total (map (λ e. e.items) bodies.now.kept.items) b → events.new.items ≡ events.old.items ++ (spec.event (Sight.Assigns name) at ∷ spec.inside (Around.Value name) at (spec.events_of b value.now))) }
{
    add_event(events, Sight::Assigns(name), at)?;
    add_event(events, Sight::Begins(Around::Value(name)), at)?;
    add_node(events, bodies, value)?;
    add_event(events, Sight::Ends, at)
}

/// Adds the events of nodes, one behind the other.
#[cycle(gathering)]
pub(crate) fn add_all(
    events: &mut Vec<Event>,
    bodies: &Bodies,
    nodes: &[Node],
) -> Result<(), AllocError>
    ensures { OnOk result ((b : ℕ → List Seen) → Tells bodies.now.total (map (λ e. e.items) bodies.now.kept.items) b → events.new.items ≡ events.old.items ++ spec.events_of_all b nodes.now) }
{
    'nodes: for node in nodes {
        add_node(events, bodies, node)?;
    }
    Ok(())
}

/// Adds the events of the pairs of a hash.
#[cycle(gathering)]
fn add_pairs(
    events: &mut Vec<Event>,
    bodies: &Bodies,
    pairs: &[(Node, Node)],
) -> Result<(), AllocError>
    ensures { OnOk result ((b : ℕ → List Seen) → Tells bodies.now.total (map (λ e. e.items) bodies.now.kept.items) b → events.new.items ≡ events.old.items ++ spec.pairs_of (map (spec.pair_parts b) pairs.now)) }
{
    'pairs: for pair in pairs {
        add_node(events, bodies, &pair.0)?;
        add_node(events, bodies, &pair.1)?;
    }
    Ok(())
}

/// Adds the events of the pieces of a text.
#[cycle(gathering)]
fn add_pieces(events: &mut Vec<Event>, bodies: &Bodies, pieces: &[Piece]) -> Result<(), AllocError>
    ensures { OnOk result ((b : ℕ → List Seen) → Tells bodies.now.total (map (λ e. e.items) bodies.now.kept.items) b → events.new.items ≡ events.old.items ++ spec.pieces_of (map (spec.piece_events b) pieces.now)) }
{
    'pieces: for piece in pieces {
        add_piece(events, bodies, piece)?;
    }
    Ok(())
}

/// Adds the events of a piece of a text.
#[cycle(gathering)]
#[tactic(auto, using(crate::proofs::Parts::parts))]
fn add_piece(events: &mut Vec<Event>, bodies: &Bodies, piece: &Piece) -> Result<(), AllocError>
    ensures { OnOk result ((b : ℕ → List Seen) → Tells bodies.now.total (map (λ e. e.items) bodies.now.kept.items) b → events.new.items ≡ events.old.items ++ spec.piece_events b piece.now) }
{
    match piece {
        Piece::Text(_) => Ok(()),
        Piece::Code(node) => add_node(events, bodies, node),
    }
}

/// Adds the events of a receiver; or, where there is none, a call by name.
#[cycle(gathering)]
fn add_receiver(
    events: &mut Vec<Event>,
    bodies: &Bodies,
    receiver: &Option<Boxed<Node>>,
    name: NameId,
    at: Span,
) -> Result<(), AllocError>
    ensures { OnOk result ((b : ℕ → List Seen) → Tells bodies.now.total (map (λ e. e.items) bodies.now.kept.items) b → events.new.items ≡ events.old.items ++ spec.receiver_step (option_map (spec.part_of b) receiver.now) name at) }
{
    match receiver {
        None => add_event(events, Sight::Calls(name), at),
        Some(node) => add_node(events, bodies, node.get()),
    }
}

/// Adds the events of a block that may be there.
#[cycle(gathering)]
#[tactic(auto, using(crate::proofs::Parts::parts))]
fn add_block(
    events: &mut Vec<Event>,
    bodies: &Bodies,
    block: &Option<Boxed<Block>>,
) -> Result<(), AllocError>
    ensures { OnOk result ((b : ℕ → List Seen) → Tells bodies.now.total (map (λ e. e.items) bodies.now.kept.items) b → events.new.items ≡ events.old.items ++ spec.called_block (option_map (spec.block_part b) block.now)) }
{
    let Some(block) = block else {
        return Ok(());
    };
    let Block { params, body, at } = block.get();
    add_event(events, Sight::Begins(Around::Block), *at)?;
    add_params(events, params.as_slice())?;
    add_all(events, bodies, body.as_slice())?;
    add_event(events, Sight::Ends, *at)
}

/// Adds the events of a node that may be there.
#[cycle(gathering)]
fn add_if_some(
    events: &mut Vec<Event>,
    bodies: &Bodies,
    node: &Option<Boxed<Node>>,
) -> Result<(), AllocError>
    ensures { OnOk result ((b : ℕ → List Seen) → Tells bodies.now.total (map (λ e. e.items) bodies.now.kept.items) b → events.new.items ≡ events.old.items ++ spec.if_some (option_map (spec.part_of b) node.now)) }
{
    match node {
        None => Ok(()),
        Some(node) => add_node(events, bodies, node.get()),
    }
}
