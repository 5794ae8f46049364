// Where nodes and bytes stand.

ghost use Rattle.std.specs.Prelude.{◌≡◌, ◌≤◌, ◌<◌, length, take};
ghost use Rattle.rb_tree.specs.declared.node.Node.{out-Node};
ghost use Rattle.rb_tree.specs.Place.{line_of, column_of, place};

use crate::node::Node;
use crate::span::Span;

/// The line and the column of a byte of a source, or of its end. Both count from 1, and the column counts bytes.
pub fn line_column(source: &[u8], at: u32) -> (u32, u32)
    requires inside { at ≤ length source.now }
    requires numbered { at < 4294967295 }
    ensures line { result.0 ≡ line_of source.now at }
    ensures column { result.1 ≡ column_of source.now at }
{
    let mut line = 1;
    let mut column = 1;
    'bytes: for i in 0..at {
        if source[i as usize] == b'\n' {
            line += 1;
            column = 1;
        } else {
            column += 1;
        }
    }
    (line, column)
}

/// The place of a node.
pub fn place_of(node: &Node) -> Span
    ensures { result ≡ place (out-Node node.now) }
{
    match node {
        Node::Nil(at)
        | Node::False(at)
        | Node::True(at)
        | Node::SelfRef(at)
        | Node::Break(at)
        | Node::Next(at) => *at,
        Node::Int(_, at) => *at,
        Node::Sym(_, at) | Node::Local(_, at) | Node::Field(_, at) | Node::Global(_, at) => *at,
        Node::Str(_, at) => *at,
        Node::Array(_, at) => *at,
        Node::Hash(_, at) => *at,
        Node::SetLocal(_, _, at) | Node::SetField(_, _, at) | Node::SetGlobal(_, _, at) => *at,
        Node::Store { at, .. }
        | Node::OpAssign { at, .. }
        | Node::Call { at, .. }
        | Node::New { at, .. }
        | Node::ThreadNew { at, .. } => *at,
        Node::And(_, _, at) | Node::Or(_, _, at) => *at,
        Node::Not(_, at) => *at,
        Node::If(_, _, _, at) => *at,
        Node::While(_, _, at) => *at,
        Node::Return(_, at) => *at,
    }
}
