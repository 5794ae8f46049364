// The steps from a shape to the next.

ghost use Rattle.std.specs.Prelude.{◌≡◌, ◌++◌};
ghost use Rattle.std.specs.Hash as fed;
ghost use Rattle.std.specs.Cmp.Rules.{hashing};
ghost use Rattle.std.proofs.Common.{rules};
ghost use Rattle.shape_core.specs.Parts.{number_of, name_of};

use rb_tree::NameId;
use std::hash::{Hash, Hasher};

/// What a place holds: integers alone, or any value.
#[derive(Clone, Copy, Debug, PartialEq, Eq, Hash)]
pub enum Kind {
    IntLoc,
    AnyLoc,
}

/// A step from a shape to the next: a name more, a name that moves to a place for any value, or from now on several threads.
#[derive(Clone, Copy, Debug, PartialEq, Eq)]
pub enum Edge {
    Add(NameId, Kind),
    Widen(NameId),
    Share,
}

impl Edge {
    /// Which of the edges this is, apart from its name.
    fn number(&self) -> u8
        ensures { result ≡ number_of self.now }
    {
        match self {
            Edge::Add(_, Kind::IntLoc) => 0,
            Edge::Add(_, Kind::AnyLoc) => 1,
            Edge::Widen(_) => 2,
            Edge::Share => 3,
        }
    }

    /// The number of the name, and 0 where the edge has none.
    fn name(&self) -> u32
        ensures { result ≡ name_of self.now }
    {
        match self {
            Edge::Add(name, _) | Edge::Widen(name) => name.0,
            Edge::Share => 0,
        }
    }
}

impl Hash for Edge {
    ghost hash_input = { λ e. fed.u8 (number_of e) ++ fed.u32 (name_of e) };

    ghost respects_eq = { Prim.search (hashing, rules) };

    fn hash<H: Hasher>(&self, state: &mut H) {
        self.number().hash(state);
        self.name().hash(state);
    }
}
