// The methods of classes that each name finds.

ghost use Rattle.std.specs.Prelude.{◌≡◌, ◌==◌, ◌++◌, ◌∷◌, [], ℕ, true, replicate, if◌then◌else◌, ◌<◌, length, IfErr, IfOk, OnOk};
ghost use Rattle.rb_resolver.specs.Rows as spec;
ghost use Rattle.rb_resolver.specs.declared.fault.ResolveFault.TheVariants.{Memory};
ghost use Rattle.rb_tree.specs.Texts.{AreDifferent};

use crate::fault::ResolveFault;
use rb_code::Found;
use rb_render::name_text;
use rb_tree::{Class, Items, Method, NameId, Names, Span};
use std::alloc::{AllocError, Global};

/// Whether a method of a class may have a name of this text: it is not empty, and that of no operator and no brackets.
fn is_plain(text: &[u8]) -> bool
    ensures { result ≡ spec.is_plain text.now }
{
    match text {
        _ if text.is_empty() => false,
        _ if text == b"+".as_slice() => false,
        _ if text == b"-".as_slice() => false,
        _ if text == b"*".as_slice() => false,
        _ if text == b"/".as_slice() => false,
        _ if text == b"%".as_slice() => false,
        _ if text == b"[]".as_slice() => false,
        _ if text == b"[]=".as_slice() => false,
        _ => true,
    }
}

/// Rows with nothing in them.
fn empty_rows(alloc: Global, count: usize) -> Result<Vec<Items<Found>>, AllocError>
    ensures { IfOk result (λ rows. rows.items ≡ replicate count []) }
{
    let mut rows = Vec::with_capacity(alloc, count)?;
    'rows: for _ in 0..count {
        rows.push(Items::new(alloc))?;
    }
    Ok(rows)
}

/// Adds what a name finds, behind what it finds so far.
fn add_found(
    rows: &mut Vec<Items<Found>>,
    name: NameId,
    found: Found,
    at: Span,
) -> Result<(), ResolveFault>
    ensures built { name.0 < length rows.old.items → IfErr result (λ e. e ≡ Memory) }
    ensures size { length rows.new.items ≡ length rows.old.items }
    ensures rows { OnOk result ((n : ℕ) → spec.row_at rows.new.items n ≡ spec.row_at rows.old.items n ++ (if name.0 == n then found ∷ [] else [])) }
{
    let Some(row) = rows.get_mut(name.0 as usize) else {
        return Err(ResolveFault::NotBuilt(at));
    };
    row.push(found)?;
    Ok(())
}

/// Adds the methods of a class, by their names.
fn add_methods(
    rows: &mut Vec<Items<Found>>,
    names: &Names,
    class: u32,
    methods: &[Method],
) -> Result<(), ResolveFault>
    ensures built { length rows.old.items ≡ length names.now → spec.have_words names.now methods.now ≡ true → IfErr result (λ e. e ≡ Memory) }
    ensures size { length rows.new.items ≡ length rows.old.items }
    ensures rows { OnOk result ((n : ℕ) → spec.row_at rows.new.items n ≡ spec.row_at rows.old.items n ++ spec.found_in class n 0 methods.now) }
    ensures plain { OnOk result (spec.are_plain names.now methods.now ≡ true) }
{
    'methods: for (i, method) in methods.iter().enumerate() {
        let Ok(number) = u32::try_from(i) else {
            return Err(ResolveFault::Memory);
        };
        if !is_plain(name_text(names, method.name)) {
            return Err(ResolveFault::NotBuilt(method.at));
        }
        let found = Found {
            class,
            method: number,
        };
        add_found(rows, method.name, found, method.at)?;
    }
    Ok(())
}

/// The methods of classes that each name finds, by the number of the name; of two methods of one name in one class the first comes first.
/// Where there are no classes there are no rows.
///
/// # Errors
/// `NotBuilt` at a method whose name is none or that of an operator, which no script that was parsed has; `Memory`.
pub(crate) fn dispatch_of(
    alloc: Global,
    names: &Names,
    classes: &[Class],
) -> Result<Items<Items<Found>>, ResolveFault>
    ensures built { spec.all_have_words names.now classes.now ≡ true → IfErr result (λ e. e ≡ Memory) }
    ensures rows { IfOk result (λ rows. (n : ℕ) → spec.row_at rows n ≡ spec.found_in_all n 0 classes.now) }
    ensures plain { OnOk result (spec.all_plain names.now classes.now ≡ true) }
    ensures different { AreDifferent names.now }
{
    let count = names.len();
    if let [] = classes {
        return Ok(Items::new(alloc));
    }
    let mut rows = empty_rows(alloc, count)?;
    'classes: for (i, class) in classes.iter().enumerate() {
        let Ok(number) = u32::try_from(i) else {
            return Err(ResolveFault::Memory);
        };
        add_methods(&mut rows, names, number, class.methods.as_slice())?;
    }
    Ok(Items::from_vec(rows))
}
