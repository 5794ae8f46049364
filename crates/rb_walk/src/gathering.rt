// Values that are gathered for new arrays and hashes.

ghost use Rattle.std.specs.Prelude.{◌≡◌, ℕ, true, false, List, map, None, IfSome, IfOk, OnOk};
ghost use Rattle.rb_model.specs.Values.{Value as Val, To, plain};
ghost use Rattle.rb_model.specs.Doing.{pair};
ghost use Rattle.rb_machine.specs.Turns.{holding, walked};
ghost use Rattle.rb_machine.specs.Drafts.{is_collection};
ghost use Rattle.rb_machine.specs.Laws.{has_bad_key};
ghost use Rattle.rb_builtin.specs.Deeds.{thing_of};
ghost use Rattle.rb_walk.specs.Gathering.{paired_up, parts_in};
ghost use Rattle.rb_walk.specs.Walks.{walking};

use crate::leaf::is_true;
use rb_builtin::{Pass, Purpose};
use rb_model::{Ref, Sort, Value};
use std::alloc::{AllocError, Global};

/// A value, where it is an array or a hash.
pub fn collection_of(value: &Value) -> Option<Ref>
    ensures some { IfSome result (λ thing. plain value.now ≡ To (thing_of thing)) }
    ensures read { IfSome result (λ thing. is_collection (To (thing_of thing)) ≡ true) }
    ensures none { result ≡ None → is_collection (plain value.now) ≡ false }
{
    let Value::Ref(thing) = value else {
        return None;
    };
    match thing.sort {
        Sort::List | Sort::Pairs => Some(*thing),
        _ => None,
    }
}

/// Whether a value is an array or a hash.
pub fn is_collection(value: &Value) -> bool
    ensures { result ≡ is_collection (plain value.now) }
{
    collection_of(value).is_some()
}

/// The same values.
pub fn copies(alloc: Global, values: &[Value]) -> Result<Vec<Value>, AllocError>
    ensures { IfOk result (λ copies. map plain copies.items ≡ map plain values.now) }
{
    let mut copies = Vec::with_capacity(alloc, values.len())?;
    'values: for value in values {
        copies.push(value.share()?)?;
    }
    Ok(copies)
}

/// Keys and values by turns, as pairs.
pub fn pairs_in(alloc: Global, values: &[Value]) -> Result<Vec<(Value, Value)>, AllocError>
    ensures { IfOk result (λ pairs. map pair pairs.items ≡ paired_up (map plain values.now)) }
{
    let mut pairs = Vec::with_capacity(alloc, values.len() / 2)?;
    let mut rest = values;
    'pairs: while let [key, value, more @ ..] = rest {
        pairs.push((key.share()?, value.share()?))?;
        rest = more;
    }
    Ok(pairs)
}

/// Whether an array or a hash is among the keys.
pub fn has_bad_key(pairs: &[(Value, Value)]) -> bool
    ensures { result ≡ has_bad_key (map pair pairs.now) }
{
    'pairs: for pair in pairs {
        if is_collection(&pair.0) {
            return true;
        }
    }
    false
}

/// The keys of pairs, or the values.
pub fn parts_of(
    alloc: Global,
    pairs: Vec<(Value, Value)>,
    purpose: Purpose,
) -> Result<Vec<Value>, AllocError>
    ensures { IfOk result (λ values. map plain values.items ≡ parts_in purpose (map pair pairs.items)) }
{
    let mut values = Vec::with_capacity(alloc, pairs.len())?;
    'pairs: for (key, value) in pairs {
        values.push(match purpose {
            Purpose::Keys => key,
            Purpose::Values => value,
        })?;
    }
    Ok(values)
}

/// What a walk keeps of an element until its iteration is over: the element where it may be one of those that are selected.
#[inline(always)]
pub fn held(pass: Pass, element: &Value) -> Result<Value, AllocError>
    ensures { IfOk result (λ held. (made : List Val) (last : Val) → holding (plain element.now) (walking pass made last) ≡ walking pass made (plain held)) }
{
    match pass {
        Pass::Each | Pass::WithIndex | Pass::Map => Ok(Value::Nil),
        Pass::Select => element.share(),
    }
}

/// Puts to what a walk made so far what an iteration makes that gave this value: the value, or the element where that is true.
#[inline(always)]
pub fn gather(
    pass: Pass,
    made: &mut Vec<Value>,
    given: Value,
    element: Value,
) -> Result<(), AllocError>
    ensures { OnOk result (walking pass (map plain made.new.items) (plain element) ≡ walked (plain given) (walking pass (map plain made.old.items) (plain element))) }
{
    match pass {
        Pass::Each | Pass::WithIndex => Ok(()),
        Pass::Map => {
            made.push(given)?;
            Ok(())
        }
        Pass::Select => {
            if !is_true(&given) {
                return Ok(());
            }
            made.push(element)?;
            Ok(())
        }
    }
}
