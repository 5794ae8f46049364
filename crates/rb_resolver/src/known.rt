// What is known of a program before its nodes are resolved.

ghost use Rattle.std.specs.Prelude.{◌≡◌, None, map, nat_eq, slice_get, unwrap_or, IfOk, OnOk};
ghost use Rattle.std.specs.HashMap as hash;
ghost use Rattle.rb_resolver.specs.Known as spec;
ghost use Rattle.rb_tree.specs.declared.node.Class.{Class as Kind};
ghost use Rattle.rb_tree.specs.declared.span.NameId.{NameId as Id};

use rb_checker::{ScopeNames, ThreadNames};
use rb_render::name_text;
use rb_tree::{Class, Items, Method, NameId, Names};
use std::alloc::{AllocError, Global};
use std::collections::HashMap;

/// What is known of a program: the numbers of its top-level methods and of its classes by their names, the number of `initialize` in each
/// class, and the names of its scopes and of the bodies of its threads.
#[derive(Drop)]
pub(crate) struct Known {
    pub alloc: Global,
    pub functions: HashMap<u32, u32>,
    pub classes: HashMap<u32, u32>,
    pub firsts: Items<Option<u32>>,
    pub scopes: ScopeNames,
    pub threads: ThreadNames,
}

impl Known {
    /// The number of the top-level method of a name, where there is one.
    pub(crate) fn function(&self, name: NameId) -> Option<u32>
        ensures { result ≡ hash.get nat_eq self.now.functions name.0 }
    {
        self.functions.get(&name.0).copied()
    }

    /// The number of the class of a name, where there is one.
    pub(crate) fn class(&self, name: NameId) -> Option<u32>
        ensures { result ≡ hash.get nat_eq self.now.classes name.0 }
    {
        self.classes.get(&name.0).copied()
    }

    /// The number of the method `initialize` of a class, where it has one.
    pub(crate) fn first(&self, class: u32) -> Option<u32>
        ensures { result ≡ unwrap_or (slice_get self.now.firsts class) None }
    {
        match self.firsts.get(class as usize) {
            Some(first) => *first,
            None => None,
        }
    }
}

/// Notes the number of a method or a class, where none is noted of that name.
fn note_number(numbers: &mut HashMap<u32, u32>, name: NameId, number: u32) -> Result<(), AllocError>
    ensures { OnOk result ((other : Id) → hash.get nat_eq numbers.new other.0 ≡ spec.number_behind (hash.get nat_eq numbers.old other.0) name other number) }
{
    if numbers.contains_key(&name.0) {
        return Ok(());
    }
    numbers.insert(name.0, number)?;
    Ok(())
}

/// The numbers of top-level methods by their names: of two methods of one name that of the first.
pub(crate) fn numbers_of(alloc: Global, methods: &[Method]) -> Result<HashMap<u32, u32>, AllocError>
    ensures { IfOk result (λ functions. (name : Id) → hash.get nat_eq functions name.0 ≡ spec.number_of name methods.now) }
{
    let mut functions = HashMap::new(alloc);
    let mut number: u32 = 0;
    'methods: for method in methods {
        note_number(&mut functions, method.name, number)?;
        let Some(next) = number.checked_add(1) else {
            return Err(AllocError);
        };
        number = next;
    }
    Ok(functions)
}

/// The numbers of classes by their names: of two classes of one name that of the first.
pub(crate) fn numbers_of_classes(
    alloc: Global,
    all: &[Class],
) -> Result<HashMap<u32, u32>, AllocError>
    ensures { IfOk result (λ classes. (name : Id) → hash.get nat_eq classes name.0 ≡ spec.class_of name all.now) }
{
    let mut classes = HashMap::new(alloc);
    let mut number: u32 = 0;
    'classes: for class in all {
        note_number(&mut classes, class.name, number)?;
        let Some(next) = number.checked_add(1) else {
            return Err(AllocError);
        };
        number = next;
    }
    Ok(classes)
}

/// The number of the method `initialize` among those of a class.
fn first_of(names: &Names, methods: &[Method]) -> Result<Option<u32>, AllocError>
    ensures { IfOk result (λ first. first ≡ spec.first_in names.now methods.now) }
{
    'methods: for (i, method) in methods.iter().enumerate() {
        let Ok(number) = u32::try_from(i) else {
            return Err(AllocError);
        };
        if name_text(names, method.name) == b"initialize".as_slice() {
            return Ok(Some(number));
        }
    }
    Ok(None)
}

/// The number of the method `initialize` in each class.
pub(crate) fn firsts_of(
    alloc: Global,
    names: &Names,
    classes: &[Class],
) -> Result<Items<Option<u32>>, AllocError>
    ensures { IfOk result (λ firsts. firsts ≡ map (λ (k : Kind). spec.first_in names.now k.methods) classes.now) }
{
    let mut firsts = Items::new(alloc);
    'classes: for class in classes {
        let first = first_of(names, class.methods.as_slice())?;
        firsts.push(first)?;
    }
    Ok(firsts)
}
