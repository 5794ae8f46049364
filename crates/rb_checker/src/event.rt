// What the rules of names see of a text, in its order.

use rb_tree::{NameId, Span};

/// What stands round a part of the text.
#[derive(Clone, Copy, Debug, PartialEq, Eq)]
pub enum Around {
    Loop,
    /// The block of a call, which has a scope of its own.
    Block,
    /// The block of a thread, which has a scope of its own.
    Thread,
    /// The right side of an assignment to a local.
    Value(NameId),
}

/// Something that a rule speaks of.
#[derive(Clone, Copy, Debug, PartialEq, Eq)]
pub enum Sight {
    /// Something begins that stands round what follows, up to its end.
    Begins(Around),
    Ends,
    /// A call without receiver.
    Calls(NameId),
    /// An object of a class is made.
    Makes(NameId),
    /// A thread is started, whose body has this number: its arguments follow, and then its body, which begins at the same place.
    Starts(u32),
    SelfRef,
    Field(NameId),
    Global(NameId),
    /// `break` or `next`.
    Leaves,
    Returns,
    /// A local is assigned.
    Assigns(NameId),
    /// A local is read.
    Reads(NameId),
    /// A parameter, which is assigned by a call.
    Param(NameId),
}

/// A sight at its place.
#[derive(Clone, Copy, Debug, PartialEq, Eq)]
pub struct Event {
    pub sight: Sight,
    pub at: Span,
}
