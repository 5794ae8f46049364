// The nodes of the tree.

use crate::Text;
use crate::names::Names;
use crate::span::{NameId, Span};
use sqlite_items::{Boxed, Items};

/// A parameter of a method or a block, with its place.
#[derive(Clone, Copy, Debug, PartialEq, Eq)]
pub struct Param {
    pub name: NameId,
    pub at: Span,
}

/// A block of a call, or the body of a thread. Its place is that of its opening `{` or `do`.
#[cycle(tree)]
#[derive(Drop)]
pub struct Block {
    pub params: Items<Param>,
    pub body: Items<Node>,
    pub at: Span,
}

/// A part of a text: bytes as they are, or code whose value is put in.
#[cycle(tree)]
#[derive(Drop)]
pub enum Piece {
    Text(Text),
    Code(Node),
}

/// What an assignment with an operator reads and writes.
#[cycle(tree)]
#[derive(Drop)]
pub enum Target {
    Local(NameId),
    Field(NameId),
    Global(NameId),
    /// `receiver[index]`
    Index(Boxed<Node>, Boxed<Node>),
    /// `receiver.name`
    Attribute(Boxed<Node>, NameId),
}

/// The operator of an assignment such as `+=`.
#[derive(Clone, Copy, Debug, PartialEq, Eq)]
pub enum AssignOp {
    Plus,
    Minus,
    Times,
    Over,
    Modulo,
    /// `||=`, which writes only where the target is false or nil.
    OrElse,
    /// `&&=`, which writes only where the target is true.
    AndThen,
}

/// A node of the syntax tree. Its span is that of its operator, of the name of its call, of its assignment mark,
/// or of its first token.
#[cycle(tree)]
#[derive(Drop)]
pub enum Node {
    Nil(Span),
    False(Span),
    True(Span),
    SelfRef(Span),
    Int(i64, Span),
    /// A symbol.
    Sym(NameId, Span),
    /// A text.
    Str(Items<Piece>, Span),
    Array(Items<Node>, Span),
    /// The pairs of a hash literal.
    Hash(Items<(Node, Node)>, Span),
    /// A local variable that is read.
    Local(NameId, Span),
    /// An instance variable that is read.
    Field(NameId, Span),
    /// A global variable that is read.
    Global(NameId, Span),
    SetLocal(NameId, Boxed<Node>, Span),
    SetField(NameId, Boxed<Node>, Span),
    SetGlobal(NameId, Boxed<Node>, Span),
    /// An assignment through a call, as `a[i] = v` or `o.x = v`. Its value is the last argument.
    Store {
        receiver: Boxed<Node>,
        name: NameId,
        args: Items<Node>,
        at: Span,
    },
    /// An assignment with an operator. Receiver and index of the target are evaluated once.
    OpAssign {
        target: Target,
        op: AssignOp,
        value: Boxed<Node>,
        at: Span,
    },
    /// A method call. An operator is a call that is named as it is written, and unary minus is named `-@`.
    Call {
        receiver: Option<Boxed<Node>>,
        name: NameId,
        args: Items<Node>,
        block: Option<Boxed<Block>>,
        at: Span,
    },
    /// The making of an object, as `Foo.new`.
    New {
        class: NameId,
        args: Items<Node>,
        at: Span,
    },
    /// The start of a thread, whose body is the program's block of this number.
    ThreadNew {
        args: Items<Node>,
        body: u32,
        at: Span,
    },
    And(Boxed<Node>, Boxed<Node>, Span),
    Or(Boxed<Node>, Boxed<Node>, Span),
    Not(Boxed<Node>, Span),
    /// A condition and its two bodies. A modifier and a ternary are one too.
    If(Boxed<Node>, Items<Node>, Items<Node>, Span),
    While(Boxed<Node>, Items<Node>, Span),
    Return(Option<Boxed<Node>>, Span),
    Break(Span),
    Next(Span),
}

/// A method of a class or of the top level. Its place is that of its name.
#[derive(Drop)]
pub struct Method {
    pub name: NameId,
    pub params: Items<Param>,
    pub body: Items<Node>,
    pub at: Span,
}

/// A class. Its place is that of its name.
#[derive(Drop)]
pub struct Class {
    pub name: NameId,
    pub methods: Items<Method>,
    pub at: Span,
}

/// A script: its names, its classes and top-level methods, the blocks of its threads, and the statements of its top level,
/// each kind in the order of the text.
#[derive(Drop)]
pub struct Program {
    pub names: Names,
    pub classes: Items<Class>,
    pub functions: Items<Method>,
    pub bodies: Items<Block>,
    pub main: Items<Node>,
}
