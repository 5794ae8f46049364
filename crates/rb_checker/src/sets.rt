// Sets of names, in which a name is found at once.

ghost use Rattle.std.specs.Prelude.{◌≡◌, ◌||◌, ◌==◌, nat_eq, map, IfOk, OnOk};
ghost use Rattle.std.specs.HashSet.{contains};
ghost use Rattle.rb_checker.specs.Names.{is_among};
ghost use Rattle.rb_checker.specs.Sets.{Holds};
ghost use Rattle.rb_tree.specs.declared.span.NameId.{NameId as Id};
ghost use Rattle.rb_tree.specs.declared.node.Method.{Method as Function};
ghost use Rattle.rb_tree.specs.declared.node.Class.{Class as Kind};

use rb_tree::{Class, Method, NameId};
use std::alloc::{AllocError, Global};
use std::collections::HashSet;

/// Whether a name is in a set.
pub(crate) fn has(set: &HashSet<u32>, name: NameId) -> bool
    ensures { result ≡ contains nat_eq set.now name.0 }
{
    set.contains(&name.0)
}

/// Adds a name, where it is not there.
pub(crate) fn add(set: &mut HashSet<u32>, name: NameId) -> Result<(), AllocError>
    ensures { OnOk result ((other : Id) → contains nat_eq set.new other.0 ≡ (name.0 == other.0 || contains nat_eq set.old other.0)) }
{
    if let Err(_) = set.insert(name.0) {
        return Err(AllocError);
    }
    Ok(())
}

/// The names of methods.
pub(crate) fn names_of(alloc: Global, methods: &[Method]) -> Result<HashSet<u32>, AllocError>
    ensures { IfOk result (λ set. Holds set (map (λ (m : Function). m.name) methods.now)) }
{
    let mut set = HashSet::new(alloc);
    'methods: for method in methods {
        add(&mut set, method.name)?;
    }
    Ok(set)
}

/// The names of classes.
pub(crate) fn class_names(alloc: Global, classes: &[Class]) -> Result<HashSet<u32>, AllocError>
    ensures { IfOk result (λ set. Holds set (map (λ (c : Kind). c.name) classes.now)) }
{
    let mut set = HashSet::new(alloc);
    'classes: for class in classes {
        add(&mut set, class.name)?;
    }
    Ok(set)
}
