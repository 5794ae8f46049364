// How high a tree is.

ghost use Rattle.std.specs.Prelude.{◌≡◌, min, map, suc};
ghost use Rattle.std.specs.Option.{option_map};
ghost use Rattle.rb_tree.specs.Height as spec;

use crate::node::{Block, Node, Piece, Target};
use sqlite_items::Boxed;

/// How high a node is: a leaf is 1 high, and another node one higher than the highest of its children.
/// Counting ends at the greatest `u64`.
#[cycle(measuring)]
#[tactic(auto, using(crate::proofs::Heights::heights))]
pub fn height(node: &Node) -> u64
    ensures { result ≡ min (spec.height node.now) 18446744073709551615 }
{
    match node {
        Node::Nil(_)
        | Node::False(_)
        | Node::True(_)
        | Node::SelfRef(_)
        | Node::Int(_, _)
        | Node::Sym(_, _)
        | Node::Local(_, _)
        | Node::Field(_, _)
        | Node::Global(_, _)
        | Node::Break(_)
        | Node::Next(_) => 1,
        Node::Str(pieces, _) => above(highest_piece(pieces.as_slice())),
        Node::Array(items, _) => above(highest(items.as_slice())),
        Node::Hash(pairs, _) => above(highest_pair(pairs.as_slice())),
        Node::SetLocal(_, value, _)
        | Node::SetField(_, value, _)
        | Node::SetGlobal(_, value, _)
        | Node::Not(value, _) => above(height(value.get())),
        Node::Store { receiver, args, .. } => {
            above(height(receiver.get()).max(highest(args.as_slice())))
        }
        Node::OpAssign { target, value, .. } => {
            above(height_of_target(target).max(height(value.get())))
        }
        Node::Call {
            receiver,
            args,
            block,
            ..
        } => {
            let inner = highest(args.as_slice()).max(height_of_block(block));
            above(height_if_some(receiver).max(inner))
        }
        Node::New { args, .. } | Node::ThreadNew { args, .. } => above(highest(args.as_slice())),
        Node::And(left, right, _) | Node::Or(left, right, _) => {
            above(height(left.get()).max(height(right.get())))
        }
        Node::If(condition, first, second, _) => {
            let bodies = highest(first.as_slice()).max(highest(second.as_slice()));
            above(height(condition.get()).max(bodies))
        }
        Node::While(condition, body, _) => {
            above(height(condition.get()).max(highest(body.as_slice())))
        }
        Node::Return(value, _) => above(height_if_some(value)),
    }
}

/// The height of a node whose highest child is this high.
fn above(inner: u64) -> u64
    ensures { result ≡ min (suc inner) 18446744073709551615 }
{
    inner.saturating_add(1)
}

/// The height of the highest of nodes, 0 where there are none.
#[cycle(measuring)]
fn highest(nodes: &[Node]) -> u64
    ensures { result ≡ min (spec.highest (map spec.height nodes.now)) 18446744073709551615 }
{
    let mut most = 0;
    'nodes: for node in nodes {
        most = height(node).max(most);
    }
    most
}

/// The height of the highest node of a text's parts.
#[cycle(measuring)]
fn highest_piece(pieces: &[Piece]) -> u64
    ensures { result ≡ min (spec.highest (map spec.piece_height pieces.now)) 18446744073709551615 }
{
    let mut most = 0;
    'pieces: for piece in pieces {
        most = height_of_piece(piece).max(most);
    }
    most
}

#[cycle(measuring)]
#[tactic(auto, using(crate::proofs::Heights::heights))]
fn height_of_piece(piece: &Piece) -> u64
    ensures { result ≡ min (spec.piece_height piece.now) 18446744073709551615 }
{
    match piece {
        Piece::Text(_) => 0,
        Piece::Code(node) => height(node),
    }
}

/// The height of the highest node of pairs.
#[cycle(measuring)]
fn highest_pair(pairs: &[(Node, Node)]) -> u64
    ensures { result ≡ min (spec.highest_pair (map spec.pair_heights pairs.now)) 18446744073709551615 }
{
    let mut most = 0;
    'pairs: for pair in pairs {
        most = height(&pair.0).max(height(&pair.1)).max(most);
    }
    most
}

#[cycle(measuring)]
#[tactic(auto, using(crate::proofs::Heights::heights))]
fn height_of_target(target: &Target) -> u64
    ensures { result ≡ min (spec.target_height target.now) 18446744073709551615 }
{
    match target {
        Target::Local(_) | Target::Field(_) | Target::Global(_) => 0,
        Target::Index(receiver, index) => height(receiver.get()).max(height(index.get())),
        Target::Attribute(receiver, _) => height(receiver.get()),
    }
}

/// The height of a node that may be there, or 0.
#[cycle(measuring)]
fn height_if_some(node: &Option<Boxed<Node>>) -> u64
    ensures { result ≡ min (spec.or_none (option_map spec.height node.now)) 18446744073709551615 }
{
    match node {
        None => 0,
        Some(inner) => height(inner.get()),
    }
}

/// The height of the highest node of a block that may be there, or 0.
#[cycle(measuring)]
#[tactic(auto, using(crate::proofs::Heights::heights))]
fn height_of_block(block: &Option<Boxed<Block>>) -> u64
    ensures { result ≡ min (spec.or_none (option_map spec.block_height block.now)) 18446744073709551615 }
{
    match block {
        None => 0,
        Some(inner) => highest(inner.get().body.as_slice()),
    }
}
