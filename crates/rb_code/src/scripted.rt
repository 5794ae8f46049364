// Resolved methods, classes and scripts.

ghost use Rattle.std.specs.Prelude.{◌≡◌};
ghost use Rattle.std.specs.Option.{option_copied};
ghost use Rattle.rb_code.specs.Dispatch as spec;

use crate::code::Code;
use rb_tree::{Items, NameId, Param, Span};

/// A method. Its locals, with those of all its blocks, lie in a frame of `size` slots, its parameters first.
#[derive(Drop)]
pub struct CodeMethod {
    pub name: NameId,
    pub params: Items<Param>,
    pub size: u32,
    /// How many arguments may wait behind the frame at once, for which a row needs slots.
    pub waits: u32,
    pub body: Items<Code>,
    pub at: Span,
}

/// A class with its methods.
#[derive(Drop)]
pub struct CodeClass {
    pub name: NameId,
    pub methods: Items<CodeMethod>,
    pub at: Span,
}

/// The body of a thread. Its locals, with those of all its blocks, lie in a frame of `size` slots: its parameters first, then those that it
/// captures.
#[derive(Drop)]
pub struct CodeBody {
    pub params: Items<Param>,
    /// The names that are captured, in the order of their first use.
    pub captured: Items<NameId>,
    pub size: u32,
    /// How many arguments may wait behind the frame at once.
    pub waits: u32,
    pub body: Items<Code>,
    pub at: Span,
}

/// A method of a class that a name finds: the number of the class, and that of the method among those of the class.
#[derive(Clone, Copy, Debug, PartialEq, Eq)]
pub struct Found {
    pub class: u32,
    pub method: u32,
}

/// A script: its top-level methods, its classes, the bodies of its threads, and its top level with the size of that frame.
#[derive(Drop)]
pub struct CodeScript {
    pub functions: Items<CodeMethod>,
    pub classes: Items<CodeClass>,
    /// By their numbers.
    pub bodies: Items<CodeBody>,
    /// By the number of a name: the methods of classes that it finds. Where there are no classes there is nothing in it.
    pub dispatch: Items<Items<Found>>,
    pub main: Items<Code>,
    pub main_size: u32,
    /// How many arguments of the top level may wait behind its frame at once.
    pub main_waits: u32,
}

/// Which method of a class is among those found.
#[inline]
fn method_in(found: &[Found], class: u32) -> Option<u32>
    ensures { result ≡ spec.method_in class found.now }
{
    'found: for one in found {
        if one.class == class {
            return Some(one.method);
        }
    }
    None
}

impl CodeScript {
    /// The method of this number among those of a class.
    #[inline]
    pub fn method_at(&self, class: u32, method: u32) -> Option<&CodeMethod>
        ensures { option_copied result ≡ spec.method_at self.now class method }
    {
        let class = self.classes.get(class as usize)?;
        class.methods.get(method as usize)
    }

    /// The method that a name finds in a class. Few classes have a method of one name, so they are looked through.
    #[inline(always)]
    pub fn method_of(&self, name: NameId, class: u32) -> Option<&CodeMethod>
        ensures { option_copied result ≡ spec.method_by self.now name class }
    {
        let found = self.dispatch.get(name.0 as usize)?;
        let method = method_in(found.as_slice(), class)?;
        self.method_at(class, method)
    }
}
