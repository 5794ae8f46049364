// The methods of the classes of a script, as calls find them.

ghost use Rattle.std.specs.Prelude.{◌≡◌, IfSome, IfOk};
ghost use Rattle.std.specs.List.{AllByRecursion};
ghost use Rattle.std.specs.Option.{option_copied};
ghost use Rattle.rb_code.specs.Dispatch as spec;
ghost use Rattle.rb_walk.specs.Dispatch.{AreKnown, IsKnown, IsReadBy};

use crate::target::read_by;
use rb_code::{CodeMethod, CodeScript, Found};
use rb_tree::{NameId, Span};
use std::alloc::{AllocError, Global};
use std::marker::Model;

/// How many methods of one name have an entry. Where more classes have one, calls look for the others in the script itself.
const MOST: usize = 8;

/// A method that a name finds in a class, and what it reads, where it does nothing else.
#[derive(Clone, Copy)]
pub struct Known<'p> {
    name: NameId,
    class: u32,
    method: &'p CodeMethod,
    reads: Option<(NameId, Span)>,
}

/// A script with a table of the methods of its classes. Contracts see the script.
#[derive(Drop)]
pub struct Methods<'p> {
    script: &'p CodeScript,
    /// By the number of a name.
    rows: Vec<Vec<Known<'p>>>,
}

impl<'p> Model for Methods<'p> {
    ghost use Rattle.rb_code.specs.declared.scripted.CodeScript.{CodeScript};
    ghost use Rattle.rb_code.specs.contracts.code.Code as code;
    ghost use Rattle.std.specs.Coded.{codes};
    ghost use Rattle.rb_walk.specs.Dispatch.{AreKnown};

    ghost Value = { CodeScript };

    ghost coded = { Prim.hlevel (codes, code.the_row.coded) };

    ghost view = { λ m. m.script.now };

    ghost invariant = { λ m. AreKnown m.script.now m.rows.items };
}

/// The method that a name finds in a class, with what it reads.
fn known_of<'p>(script: &'p CodeScript, name: NameId, class: u32) -> Option<Known<'p>>
    ensures { IfSome result (IsKnown script.now) }
{
    let method = script.method_of(name, class)?;
    Some(Known {
        name,
        class,
        method,
        reads: read_by(method),
    })
}

/// The methods that a name finds in the first of these classes, `MOST` of them at most.
fn row_of<'p>(
    alloc: Global,
    script: &'p CodeScript,
    name: NameId,
    founds: &[Found],
) -> Result<Vec<Known<'p>>, AllocError>
    ensures { IfOk result (λ row. AllByRecursion (IsKnown script.now) row.items) }
{
    let mut row = Vec::new(alloc);
    'founds: for found in founds.iter().take(MOST) {
        let Some(known) = known_of(script, name, found.class) else {
            continue;
        };
        row.push(known)?;
    }
    Ok(row)
}

/// The rows of the table of a script.
fn rows_of<'p>(alloc: Global, script: &'p CodeScript) -> Result<Vec<Vec<Known<'p>>>, AllocError>
    ensures { IfOk result (λ rows. AreKnown script.now rows.items) }
{
    let mut rows = Vec::new(alloc);
    'rows: for (i, founds) in script.dispatch.as_slice().iter().enumerate() {
        let Ok(number) = u32::try_from(i) else {
            break;
        };
        rows.push(row_of(alloc, script, NameId(number), founds.as_slice())?)?;
    }
    Ok(rows)
}

impl<'p> Methods<'p> {
    /// The table of a script. Where memory is short there is nothing in it, and each call looks in the script itself.
    pub fn of(alloc: Global, script: &'p CodeScript) -> Methods<'p>
        ensures { result ≡ script.now }
    {
        let rows = match rows_of(alloc, script) {
            Ok(rows) => rows,
            Err(_) => Vec::new(alloc),
        };
        Methods { script, rows }
    }

    /// The script.
    #[inline(always)]
    pub fn script(&self) -> &'p CodeScript
        ensures { result.now ≡ self.now }
    {
        self.script
    }

    /// The entry of a name and a class.
    #[inline(always)]
    fn known(&self, name: NameId, class: u32) -> Option<&Known<'p>>
        ensures known { IfSome result (λ k. IsKnown self.now k.now) }
        ensures name { IfSome result (λ k. k.now.name ≡ name) }
        ensures class { IfSome result (λ k. k.now.class ≡ class) }
    {
        let row = self.rows.get(name.0 as usize)?;
        'row: for known in row.as_slice() {
            if known.class == class && known.name == name {
                return Some(known);
            }
        }
        None
    }

    /// The method that a name finds in a class.
    #[inline(always)]
    pub fn method_of(&self, name: NameId, class: u32) -> Option<&'p CodeMethod>
        ensures { option_copied result ≡ spec.method_by self.now name class }
    {
        match self.known(name, class) {
            Some(known) => Some(known.method),
            None => self.method_beyond(name, class),
        }
    }

    /// The method that a name finds in a class, where the table has none.
    #[inline(never)]
    fn method_beyond(&self, name: NameId, class: u32) -> Option<&'p CodeMethod>
        ensures { option_copied result ≡ spec.method_by self.now name class }
    {
        self.script.method_of(name, class)
    }

    /// What the method reads that a name finds in a class, where it does nothing else and the table has it.
    #[inline(always)]
    pub fn reads(&self, name: NameId, class: u32) -> Option<(NameId, Span)>
        ensures { IfSome result (λ read. IsReadBy self.now name class read.0 read.1) }
    {
        self.known(name, class)?.reads
    }
}
