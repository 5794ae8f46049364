// What each step on the used word, on own words and on words that never change tells.

use crate::holder::Known;
use atomic_table::Play;
use std::marker::{Brand, PhantomData};

/// The call for which words are wanted, if they are for one, and how many.
pub trait Wanting {
    ghost use Rattle.std.specs.Prelude.{ℕ, Option};
    ghost use Rattle.heap_core.specs.Room.{Asking};

    ghost asking: { Option Asking };

    ghost wanted: { ℕ };
}

impl Wanting for Brand {
    ghost use Rattle.std.specs.Prelude.{None};

    ghost asking = { None };

    ghost wanted = { 0 };
}

/// The used word is loaded. Where there is no room, the call is refused.
pub struct Look<J> {
    wanting: PhantomData<J>,
}

impl<K, J: Wanting> Play<K, Known> for Look<J> {
    ghost use Rattle.heap_core.specs.Room.{Looks};

    ghost then = { λ _ m n m'. Looks J.asking J.wanted m n m' };
}

/// The used word is exchanged: the words between are the pass's own.
pub struct TakeWords;

impl<K> Play<K, Known> for TakeWords {
    ghost use Rattle.heap_core.specs.Room.{Takes};

    ghost then = { Takes };
}

/// An own word is loaded.
pub struct OwnLoad;

impl<K> Play<K, Known> for OwnLoad {
    ghost use Rattle.heap_core.specs.Room.{OwnLoads};

    ghost then = { OwnLoads };
}

/// An own word is stored.
pub struct OwnStore;

impl<K> Play<K, Known> for OwnStore {
    ghost use Rattle.heap_core.specs.Room.{OwnStores};

    ghost then = { OwnStores };
}

/// A word is loaded that never changes.
pub struct FixedLoad;

impl<K> Play<K, Known> for FixedLoad {
    ghost use Rattle.heap_core.specs.Passes.{FixedLoads};

    ghost then = { FixedLoads };
}

/// A word is loaded that is own or never changes.
pub struct StillLoad;

impl<K> Play<K, Known> for StillLoad {
    ghost use Rattle.heap_core.specs.Passes.{StillLoads};

    ghost then = { StillLoads };
}
