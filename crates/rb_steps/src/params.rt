// Parameters, and the symbols of an `attr` line.

ghost use Rattle.std.specs.Prelude.{◌≡◌, ◌≤◌, ℕ, Bool, map, length, OnOk, OnErr, Err};
ghost use Rattle.rb_grammar.specs.Phrase as p;
ghost use Rattle.rb_grammar.specs.Scope.{with_params};
ghost use Rattle.rb_cursor.specs.Word.{word_by, AreWords};
ghost use Rattle.rb_cursor.specs.State.{Came, answer_at};
ghost use Rattle.rb_steps.specs.Within.{WentOverBars, WentOverOne, WentOverSome, WentOverHead, WentIntoBlock, WentIntoMethod};

use crate::names::word_of;
use crate::nesting::open_at;
use crate::sets::{accept_glued, expect_identifier};
use rb_cursor::{Class, Cursor, ParseFault, Word};
use rb_tree::{Items, Span};
use std::alloc::Global;

/// Makes parameters locals of the innermost scope.
pub fn add_params(cursor: &mut Cursor<'_>, params: &[Word<'_>]) -> Result<(), ParseFault>
    ensures ok { OnOk result (cursor.new ≡ record cursor.old { scope = with_params (map word_by params.now) cursor.old.scope }) }
    ensures memory { OnErr result (result ≡ Err ParseFault.Memory) }
{
    'params: for param in params {
        cursor.add_local(param.text)?;
    }
    Ok(())
}

/// The parameters of a block between their bars, with what the scopes come to. Where memory is wanted, nothing is said of
/// the cursor.
pub fn begin_block<'t>(
    alloc: Global,
    cursor: &mut Cursor<'t>,
) -> Result<Items<Word<'t>>, ParseFault>
    ensures went { (levels : ℕ) (in_braces : Bool) (at : Span) → WentIntoBlock levels in_braces at cursor.old cursor.new result }
    ensures shorter { OnOk result (length cursor.new.rest ≤ length cursor.old.rest) }
{
    cursor.enter_block()?;
    let params = bar_params(alloc, cursor)?;
    add_params(cursor, params.as_slice())?;
    Ok(params)
}

/// The parameters of a block between their bars, or none where there is no bar.
fn bar_params<'t>(alloc: Global, cursor: &mut Cursor<'t>) -> Result<Items<Word<'t>>, ParseFault>
    ensures went { WentOverBars cursor.old cursor.new result }
    ensures shorter { length cursor.new.rest ≤ length cursor.old.rest }
{
    let mut words = Items::new(alloc);
    let Some(_) = cursor.accept(Class::Bar) else {
        return Ok(words);
    };
    let first = cursor.name()?;
    words.push(first)?;
    'more: while let Some(_) = cursor.accept(Class::Comma) {
        let next = cursor.name()?;
        words.push(next)?;
    }
    cursor.expect(Class::Bar)?;
    Ok(words)
}

/// The name of a method and its parameters.
#[derive(Drop)]
pub struct MethodHead<'t> {
    pub name: Word<'t>,
    /// Whether a `=` belongs to the name.
    pub is_setter: bool,
    pub params: Items<Word<'t>>,
}

/// The name and the parameters of a method, with what the scopes come to. So many things may be open inside.
pub fn begin_method<'t>(
    alloc: Global,
    cursor: &mut Cursor<'t>,
    levels: u32,
) -> Result<MethodHead<'t>, ParseFault>
    ensures went { WentIntoMethod levels cursor.old cursor.new result }
{
    let name = expect_identifier(cursor)?;
    cursor.enter_method()?;
    let head = head_of(alloc, cursor, levels, name)?;
    add_params(cursor, head.params.as_slice())?;
    Ok(head)
}

/// What belongs to the name of a method: its `=`, and its parameters.
fn head_of<'t>(
    alloc: Global,
    cursor: &mut Cursor<'t>,
    levels: u32,
    name: Word<'t>,
) -> Result<MethodHead<'t>, ParseFault>
    ensures went { WentOverHead levels name.entry cursor.old cursor.new result }
    ensures shorter { length cursor.new.rest ≤ length cursor.old.rest }
{
    if let Some(_) = accept_glued(cursor, Class::Assign) {
        let params = one_param(alloc, cursor, levels)?;
        return Ok(MethodHead {
            name,
            is_setter: true,
            params,
        });
    }
    let params = params(alloc, cursor, levels)?;
    Ok(MethodHead {
        name,
        is_setter: false,
        params,
    })
}

/// The one parameter of a method that writes an attribute, in its brackets.
fn one_param<'t>(
    alloc: Global,
    cursor: &mut Cursor<'t>,
    levels: u32,
) -> Result<Items<Word<'t>>, ParseFault>
    ensures went { WentOverOne levels cursor.old cursor.new result }
    ensures shorter { length cursor.new.rest ≤ length cursor.old.rest }
{
    let open = cursor.expect(Class::OpenParen)?;
    open_at(levels, open.at)?;
    let word = cursor.one_param()?;
    let mut params = Items::new(alloc);
    params.push(word)?;
    Ok(params)
}

/// The parameters of a method in their brackets, or none where there are no brackets.
fn params<'t>(
    alloc: Global,
    cursor: &mut Cursor<'t>,
    levels: u32,
) -> Result<Items<Word<'t>>, ParseFault>
    ensures went { WentOverSome levels cursor.old cursor.new result }
    ensures shorter { length cursor.new.rest ≤ length cursor.old.rest }
{
    let Some(open) = cursor.accept(Class::OpenParen) else {
        return Ok(Items::new(alloc));
    };
    open_at(levels, open.at)?;
    cursor.params(alloc)
}

/// The symbols of an `attr` line.
pub fn symbols<'t>(alloc: Global, cursor: &mut Cursor<'t>) -> Result<Items<Word<'t>>, ParseFault>
    ensures came { (levels : ℕ) → Came AreWords cursor.new (answer_at levels p.symbols cursor.old) result }
{
    let mut words = Items::new(alloc);
    let first = cursor.expect(Class::Symbol)?;
    words.push(word_of(first))?;
    'more: while let Some(_) = cursor.accept(Class::Comma) {
        let next = cursor.expect(Class::Symbol)?;
        words.push(word_of(next))?;
    }
    Ok(words)
}
