// What the steps on the words of a shape tell.

use crate::telling::Tells;

/// The parent word or a link word of a shape is looked at. The pass learns blocks.
pub struct LookShape;

impl Tells for LookShape {
    ghost use Rattle.heap_core.specs.Growing.{LooksShape};

    ghost tells = { LooksShape };
}

/// A shape is made by the store of its place at a link word.
pub struct MakeShape;

impl Tells for MakeShape {
    ghost use Rattle.heap_core.specs.Growing.{MakesShape};

    ghost tells = { MakesShape };
}
