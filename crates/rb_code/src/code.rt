// The nodes of the resolved tree.

use rb_builtin::Builtin;
use rb_model::SharedText;
use rb_render::Form;
use rb_tree::{AssignOp, Boxed, Items, NameId, Param, Span};

/// The classes that are built in and have `new`.
#[derive(Clone, Copy, Debug, PartialEq, Eq)]
pub enum BuiltinClass {
    Array,
    Hash,
    Mutex,
}

/// The block of a call. Its own locals lie in the slots from `from` on, its parameters first, within the frame of the method round it.
#[cycle(code)]
#[derive(Drop)]
pub struct CodeBlock {
    pub params: Items<Param>,
    /// The first slot of its own.
    pub from: u32,
    /// How many locals are its own.
    pub count: u32,
    pub body: Items<Code>,
    pub at: Span,
}

/// A part of a text: bytes as they are, or code whose value is put in.
#[cycle(code)]
#[derive(Drop)]
pub enum CodePiece {
    Text(SharedText),
    Code(Code),
}

/// A node of the resolved tree. A name stands beside each number that was found for it.
#[cycle(code)]
#[derive(Drop)]
pub enum Code {
    Nil(Span),
    False(Span),
    True(Span),
    SelfRef(Span),
    Int(i64, Span),
    /// A symbol.
    Sym(NameId, Span),
    /// A text.
    Str(Items<CodePiece>, Span),
    /// The literal of an array, and that of a hash, whose keys and values stand by turns.
    Array(Items<Code>, Span),
    Hash(Items<Code>, Span),
    /// A local, by its slot.
    Local(u32, NameId, Span),
    SetLocal(u32, NameId, Boxed<Code>, Span),
    /// An instance variable of `self` that is read, and one that is written.
    Field(NameId, Span),
    SetField(NameId, Boxed<Code>, Span),
    Global(NameId, Span),
    SetGlobal(NameId, Boxed<Code>, Span),
    /// An assignment with an operator to a local, to an instance variable, to an element, and to an attribute. That to an attribute has
    /// the number of the built-in method that reads it, and the name of the methods that write it, where there is such a name.
    UpdateLocal(u32, NameId, AssignOp, Boxed<Code>, Span),
    UpdateField(NameId, AssignOp, Boxed<Code>, Span),
    UpdateGlobal(NameId, AssignOp, Boxed<Code>, Span),
    UpdateElement(Boxed<Code>, Boxed<Code>, AssignOp, Boxed<Code>, Span),
    UpdateAttribute(
        Option<Builtin>,
        Option<NameId>,
        NameId,
        Boxed<Code>,
        AssignOp,
        Boxed<Code>,
        Span,
    ),
    /// An assignment by the call of a method.
    Store(Option<Builtin>, Boxed<Code>, NameId, Items<Code>, Span),
    /// A call with one argument and without a block.
    Operate(Option<Builtin>, NameId, Boxed<Code>, Boxed<Code>, Span),
    /// A call with a receiver, without a block.
    Send(Option<Builtin>, NameId, Boxed<Code>, Items<Code>, Span),
    /// A call with a receiver and a block.
    Walk(Option<Builtin>, NameId, Boxed<Code>, Items<Code>, Boxed<CodeBlock>, Span),
    /// A call of a top-level method, by its number.
    Function(u32, NameId, Items<Code>, Span),
    /// A call without receiver of a name that no top-level method has and none that prints.
    Own(NameId, Items<Code>, Span),
    /// A new object of the class of this number, whose method `initialize`, where it has one, is the one of this number among its methods.
    New(u32, Option<u32>, NameId, Items<Code>, Span),
    /// A new array, hash or mutex.
    NewBuiltin(BuiltinClass, NameId, Items<Code>, Span),
    /// The start of a thread whose body has this number, with the slots of the locals that the body captures, in the order of their first use.
    Start(Items<Code>, u32, Items<u32>, Span),
    /// A call of `puts`, `print` or `p`.
    Print(Form, NameId, Items<Code>, Span),
    And(Boxed<Code>, Boxed<Code>, Span),
    Or(Boxed<Code>, Boxed<Code>, Span),
    Not(Boxed<Code>, Span),
    If(Boxed<Code>, Items<Code>, Items<Code>, Span),
    While(Boxed<Code>, Items<Code>, Span),
    Return(Option<Boxed<Code>>, Span),
    Break(Span),
    Next(Span),
}
