// Places in a script and numbers of names.

/// A part of the source, in bytes: from its first byte up to, and without, `to`.
#[derive(Clone, Copy, Debug, PartialEq, Eq)]
pub struct Span {
    pub from: u32,
    pub to: u32,
}

/// The number of a name, which `Names` gives in the order of first use, from 0.
#[derive(Clone, Copy, Debug, PartialEq, Eq)]
pub struct NameId(pub u32);
