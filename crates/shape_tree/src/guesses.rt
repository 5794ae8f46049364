// Guesses of the shapes that are asked for next.

use shape_core::ShapeId;

/// For how many classes there is a guess at once.
const CLASSES: usize = 16;

/// For how many parents.
const PARENTS: usize = 64;

/// The shape that was found last for a class, and for a parent. Whoever takes a guess has to look whether it is right.
#[derive(Drop)]
pub struct Guesses {
    roots: [ShapeId; CLASSES],
    children: [ShapeId; PARENTS],
}

impl Guesses {
    /// Guesses that are not worth much.
    pub fn new() -> Guesses {
        Guesses {
            roots: [ShapeId(0); CLASSES],
            children: [ShapeId(0); PARENTS],
        }
    }

    /// The guess for the root of a class.
    #[inline(always)]
    pub fn root(&self, class: u32) -> ShapeId {
        self.roots[class as usize % CLASSES]
    }

    /// The guess for a child.
    #[inline(always)]
    pub fn child(&self, parent: ShapeId) -> ShapeId {
        self.children[parent.0 as usize % PARENTS]
    }

    /// Remembers the root of a class.
    pub fn tell_root(&mut self, class: u32, root: ShapeId) {
        self.roots[class as usize % CLASSES] = root;
    }

    /// Remembers a child.
    pub fn tell_child(&mut self, parent: ShapeId, child: ShapeId) {
        self.children[parent.0 as usize % PARENTS] = child;
    }
}
