// What values answer to calls of methods.

ghost use Rattle.std.specs.Prelude.{◌≡◌, ℕ, true, false, List, [], ◌∷◌, Option, Some, None, IfOk, map, neg_ℤ};
ghost use Rattle.std.specs.Option.{option_map};
ghost use Rattle.std.specs.Borrow.{Bor};
ghost use Rattle.rb_model.specs.Values.{Nil, Int, Str, To, plain, truth, same};
ghost use Rattle.rb_model.specs.Acts as acts;
ghost use Rattle.rb_model.specs.Doing.{doing};
ghost use Rattle.rb_machine.specs.Methods.{Raises};
ghost use Rattle.rb_machine.specs.Methods as table;
ghost use Rattle.rb_machine.specs.Texts.{shown, inspected};
ghost use Rattle.rb_machine.specs.Drafts.{is_collection};
ghost use Rattle.rb_builtin.specs.Names as numbers;
ghost use Rattle.rb_builtin.specs.Integers as integers;
ghost use Rattle.rb_builtin.specs.Deeds as spec;

use crate::builtin::Builtin;
use crate::integer::{IntegerAnswer, integer_operation};
use rb_model::{Act, Fault, Ref, SharedText, Sort, Value};
use rb_render::{MAX_BYTES, add_inspected, add_shown};
use rb_tree::Program;
use std::alloc::{AllocError, Global};

/// A walk with a block.
#[derive(Clone, Copy, Debug, PartialEq, Eq)]
pub enum Loop {
    /// Over 0, 1 and so on below a number, which is the answer.
    Times(i64),
    /// From a number, which is the answer, up to another.
    Upto(i64, i64),
}

/// A walk over the elements of an array with a block, by what it answers.
#[derive(Clone, Copy, Debug, PartialEq, Eq)]
pub enum Pass {
    /// The array.
    Each,
    /// The array; the block is given the index too.
    WithIndex,
    /// An array of what the block gives.
    Map,
    /// An array of the elements for which the block gives a true value.
    Select,
}

/// What a hash is read for.
#[derive(Clone, Copy, Debug, PartialEq, Eq)]
pub enum Purpose {
    /// An array of its keys.
    Keys,
    /// An array of its values.
    Values,
}

/// What a call answers behind the reply of a thing.
#[derive(Clone, Copy, Debug, PartialEq, Eq)]
pub enum Behind {
    /// The reply.
    Reply,
    /// The thing that was asked.
    Receiver,
    /// Whether the reply is zero.
    IsZero,
}

/// What a value answers to the call of a method.
#[derive(Drop)]
pub enum Deed {
    /// A value.
    Give(Value),
    /// A fault, at the place of the call.
    Raise(Fault),
    /// The block is called in turns.
    Walk(Loop),
    /// The block is called with the elements of an array.
    WalkOver(Ref, Pass),
    /// Something is asked of a thing.
    Ask(Ref, Act, Behind),
    /// A hash is read by one copy.
    Read(Ref, Purpose),
    /// The block is called with the pairs of one copy of a hash.
    WalkPairs(Ref),
    /// The inspected form of an array or a hash.
    Inspect(Ref),
    /// The block is called once, while a mutex is owned.
    Synchronize(Ref),
}

/// How many parameters a block may have.
#[derive(Clone, Copy, Debug, PartialEq, Eq)]
enum Takes {
    UpTo(u32),
    NoneOrTwo,
}

/// Whether a block may have so many parameters.
fn may_have(takes: Takes, params: u32) -> bool
    ensures { result ≡ spec.may_have takes params }
{
    match takes {
        Takes::UpTo(most) => params <= most,
        Takes::NoneOrTwo => params == 0 || params == 2,
    }
}

/// Why a method that takes no block cannot be called so.
fn misfit(args: &[Value], arity: usize, block: Option<u32>) -> Option<Fault>
    ensures { result ≡ spec.misfit (map plain args.now) arity None block }
{
    match block {
        Some(_) => Some(Fault::NoMethod),
        None if args.len() != arity => Some(Fault::ArgumentCount),
        None => None,
    }
}

/// Why a method with a block cannot be called so.
fn misfit_with_block(
    args: &[Value],
    arity: usize,
    takes: Takes,
    block: Option<u32>,
) -> Option<Fault>
    ensures { result ≡ spec.misfit (map plain args.now) arity (Some (spec.may_have takes)) block }
{
    match block {
        None => Some(Fault::ArgumentCount),
        Some(params) if !may_have(takes, params) => Some(Fault::ArgumentCount),
        Some(_) if args.len() != arity => Some(Fault::ArgumentCount),
        Some(_) => None,
    }
}

/// The truth value of a test.
fn truth_of(holds: bool) -> Deed
    ensures { spec.answer_of result ≡ table.Gives (truth holds) }
{
    if holds {
        Deed::Give(Value::True)
    } else {
        Deed::Give(Value::False)
    }
}

/// A fault, or else a deed.
fn unless(fault: Option<Fault>, deed: Deed) -> Deed
    ensures { spec.answer_of result ≡ spec.by_misfit fault (spec.answer_of deed) }
{
    match fault {
        Some(fault) => Deed::Raise(fault),
        None => deed,
    }
}

/// What an operation on two integers gives.
fn given(answer: IntegerAnswer) -> Deed
    ensures { spec.answer_of result ≡ integers.answer_of answer }
{
    match answer {
        IntegerAnswer::Int(n) => Deed::Give(Value::Int(n)),
        IntegerAnswer::False => Deed::Give(Value::False),
        IntegerAnswer::True => Deed::Give(Value::True),
        IntegerAnswer::Overflow => Deed::Raise(Fault::IntegerOverflow),
        IntegerAnswer::ByZero => Deed::Raise(Fault::ZeroDivision),
        IntegerAnswer::NoOperation => Deed::Raise(Fault::NoMethod),
    }
}

/// The one argument, where it is an integer.
fn only_integer(args: &[Value]) -> Option<i64>
    ensures { result ≡ spec.only_integer (map plain args.now) }
{
    let [Value::Int(n)] = args else {
        return None;
    };
    Some(*n)
}

/// An operation on an integer and an argument.
#[tactic(auto, using(crate::proofs::Table::on_integers_is))]
fn operated(method: Builtin, m: i64, args: &[Value]) -> Deed
    ensures { spec.answer_of result ≡ table.on_integers (integers.operated method) (Int m) (map plain args.now) }
{
    match only_integer(args) {
        Some(n) => given(integer_operation(method, m, n)),
        None => Deed::Raise(Fault::TypeMismatch),
    }
}

/// The walk from an integer up to an argument.
fn walk_up(m: i64, args: &[Value]) -> Deed
    ensures { spec.answer_of result ≡ table.on_integers table.upto (Int m) (map plain args.now) }
{
    match args {
        [Value::Int(n)] => Deed::Walk(Loop::Upto(m, *n)),
        _ => Deed::Raise(Fault::TypeMismatch),
    }
}

/// An integer with the other sign.
fn negated(m: i64) -> Deed
    ensures { spec.answer_of result ≡ table.integer (neg_ℤ m) }
{
    match m.checked_neg() {
        Some(n) => Deed::Give(Value::Int(n)),
        None => Deed::Raise(Fault::IntegerOverflow),
    }
}

/// Whether a method is an operation on two integers.
fn is_operator(method: Builtin) -> bool
    ensures { result ≡ spec.is_operator method }
{
    match method {
        Builtin::Plus
        | Builtin::Minus
        | Builtin::Times
        | Builtin::Over
        | Builtin::Modulo
        | Builtin::Less
        | Builtin::AtMost
        | Builtin::More
        | Builtin::AtLeast => true,
        _ => false,
    }
}

/// What an integer answers to a method of integers.
fn integer_deed(m: i64, method: Builtin, args: &[Value], block: Option<u32>) -> Deed
    ensures { spec.answer_of result ≡ spec.integer_answer m method (map plain args.now) block }
{
    if is_operator(method) {
        return unless(misfit(args, 1, block), operated(method, m, args));
    }
    match method {
        Builtin::TimesLoop => unless(
            misfit_with_block(args, 0, Takes::UpTo(1), block),
            Deed::Walk(Loop::Times(m)),
        ),
        Builtin::Upto => unless(
            misfit_with_block(args, 1, Takes::UpTo(1), block),
            walk_up(m, args),
        ),
        Builtin::Negate => unless(misfit(args, 0, block), negated(m)),
        _ => Deed::Raise(Fault::NoMethod),
    }
}

/// A text as a value, where it is not too long.
fn text(alloc: Global, bytes: Vec<u8>) -> Result<Deed, AllocError>
    ensures { IfOk result (λ d. spec.answer_of d ≡ table.text bytes.items) }
{
    if bytes.len() > MAX_BYTES {
        return Ok(Deed::Raise(Fault::TextTooLong));
    }
    Ok(Deed::Give(Value::Str(SharedText::from_vec(alloc, bytes)?)))
}

/// The one argument, where it is a text.
fn only_text(args: &[Value]) -> Option<&SharedText>
    ensures { option_map (λ (b : Bor (List ℕ)). b.now) result ≡ spec.only_text (map plain args.now) }
{
    let [Value::Str(text)] = args else {
        return None;
    };
    Some(text)
}

/// A text, and an argument that is one behind it.
#[tactic(auto, using(crate::proofs::Table::joined_is))]
fn joined(alloc: Global, first: &SharedText, args: &[Value]) -> Result<Deed, AllocError>
    ensures { IfOk result (λ d. spec.answer_of d ≡ table.joined (Str first.now) (map plain args.now)) }
{
    let Some(second) = only_text(args) else {
        return Ok(Deed::Raise(Fault::TypeMismatch));
    };
    let first = first.as_slice();
    let second = second.as_slice();
    if first.len() > MAX_BYTES || second.len() > MAX_BYTES - first.len() {
        return Ok(Deed::Raise(Fault::TextTooLong));
    }
    let mut bytes = Vec::with_capacity(alloc, first.len() + second.len())?;
    bytes.extend_from_slice(first)?;
    bytes.extend_from_slice(second)?;
    text(alloc, bytes)
}

/// What a text answers to a method of texts.
fn text_deed(
    alloc: Global,
    receiver: &SharedText,
    method: Builtin,
    args: &[Value],
    block: Option<u32>,
) -> Result<Deed, AllocError>
    ensures { IfOk result (λ d. spec.answer_of d ≡ spec.text_answer receiver.now method (map plain args.now) block) }
{
    match method {
        Builtin::Plus => match misfit(args, 1, block) {
            Some(fault) => Ok(Deed::Raise(fault)),
            None => joined(alloc, receiver, args),
        },
        Builtin::Length => {
            let count = Deed::Give(Value::Int(receiver.characters()));
            Ok(unless(misfit(args, 0, block), count))
        }
        _ => Ok(Deed::Raise(Fault::NoMethod)),
    }
}

/// Whether two values may be compared: two arrays, and two hashes, may not unless they are one.
fn may_compare(a: &Value, b: &Value) -> bool
    ensures { result ≡ table.may_compare (plain a.now) (plain b.now) }
{
    let (Value::Ref(r), Value::Ref(s)) = (a, b) else {
        return true;
    };
    match (r.sort, s.sort) {
        (Sort::List, Sort::List) | (Sort::Pairs, Sort::Pairs) => false,
        _ => true,
    }
}

/// Whether a value is the argument.
fn equal(receiver: &Value, args: &[Value]) -> Deed
    ensures { spec.answer_of result ≡ table.equal (plain receiver.now) (map plain args.now) }
{
    let [other] = args else {
        return Deed::Raise(Fault::ArgumentCount);
    };
    let is_equal = *receiver == *other;
    if is_equal || may_compare(receiver, other) {
        truth_of(is_equal)
    } else {
        Deed::Raise(Fault::NoMethod)
    }
}

/// Whether a value is an array or a hash.
fn is_collection(value: &Value) -> bool
    ensures { result ≡ is_collection (plain value.now) }
{
    match value {
        Value::Ref(thing) => match thing.sort {
            Sort::List | Sort::Pairs => true,
            _ => false,
        },
        _ => false,
    }
}

/// The inspected form of an array or a hash.
fn inspects(value: &Value) -> Option<Deed>
    ensures { spec.IsTold (plain value.now) (option_map spec.answer_of result) }
{
    match value {
        Value::Ref(thing) if is_collection(value) => Some(Deed::Inspect(*thing)),
        _ => None,
    }
}

/// The text of a value. That of a text is itself, and no bytes are copied.
fn shown(alloc: Global, program: &Program, receiver: &Value) -> Result<Deed, AllocError>
    ensures { IfOk result (λ d. spec.answer_of d ≡ table.told (plain receiver.now) (shown program.now (plain receiver.now))) }
{
    if let Some(deed) = inspects(receiver) {
        return Ok(deed);
    }
    let Value::Str(bytes) = receiver else {
        let mut out = Vec::new(alloc);
        add_shown(alloc, &mut out, program, receiver)?;
        return text(alloc, out);
    };
    if bytes.as_slice().len() > MAX_BYTES {
        return Ok(Deed::Raise(Fault::TextTooLong));
    }
    Ok(Deed::Give(Value::Str(bytes.share()?)))
}

/// The inspected form of a value.
fn inspected(alloc: Global, program: &Program, receiver: &Value) -> Result<Deed, AllocError>
    ensures { IfOk result (λ d. spec.answer_of d ≡ table.told (plain receiver.now) (inspected program.now (plain receiver.now))) }
{
    if let Some(deed) = inspects(receiver) {
        return Ok(deed);
    }
    let mut out = Vec::new(alloc);
    add_inspected(alloc, &mut out, program, receiver)?;
    text(alloc, out)
}

/// Whether a value is nil.
fn is_nil(value: &Value) -> bool
    ensures { result ≡ same (plain value.now) Nil }
{
    match value {
        Value::Nil => true,
        _ => false,
    }
}

/// A question whose reply is the answer.
fn asks(thing: Ref, act: Act) -> Deed
    ensures { spec.answer_of result ≡ table.Asks (spec.thing_of thing) (doing act) None }
{
    Deed::Ask(thing, act, Behind::Reply)
}

/// The element at an index that is an integer.
fn element_at(array: Ref, args: &[Value]) -> Deed
    ensures { spec.answer_of result ≡ table.at_index acts.At (spec.thing_of array) (map plain args.now) }
{
    match args {
        [Value::Int(index)] => asks(array, Act::At(*index)),
        _ => Deed::Raise(Fault::TypeMismatch),
    }
}

/// The element at an index that is an integer is taken out.
fn deleted_at(array: Ref, args: &[Value]) -> Deed
    ensures { spec.answer_of result ≡ table.at_index acts.DeleteAt (spec.thing_of array) (map plain args.now) }
{
    match args {
        [Value::Int(index)] => asks(array, Act::DeleteAt(*index)),
        _ => Deed::Raise(Fault::TypeMismatch),
    }
}

/// An element gets a value, by an index that is an integer.
fn put_at(array: Ref, args: &[Value]) -> Result<Deed, AllocError>
    ensures { IfOk result (λ d. spec.answer_of d ≡ table.put_index (spec.thing_of array) (map plain args.now)) }
{
    match args {
        [Value::Int(index), value] => Ok(asks(array, Act::Put(*index, value.share()?))),
        _ => Ok(Deed::Raise(Fault::TypeMismatch)),
    }
}

/// An element comes behind the others.
fn pushed(array: Ref, args: &[Value]) -> Result<Deed, AllocError>
    ensures { IfOk result (λ d. spec.answer_of d ≡ table.adds acts.Push (spec.thing_of array) (map plain args.now)) }
{
    let [value] = args else {
        return Ok(Deed::Raise(Fault::ArgumentCount));
    };
    let act = Act::Push(value.share()?);
    Ok(Deed::Ask(array, act, Behind::Receiver))
}

/// An element comes before the others.
fn unshifted(array: Ref, args: &[Value]) -> Result<Deed, AllocError>
    ensures { IfOk result (λ d. spec.answer_of d ≡ table.adds acts.Unshift (spec.thing_of array) (map plain args.now)) }
{
    let [value] = args else {
        return Ok(Deed::Raise(Fault::ArgumentCount));
    };
    let act = Act::Unshift(value.share()?);
    Ok(Deed::Ask(array, act, Behind::Receiver))
}

/// What arrays and hashes answer to the methods that they share.
fn collection_deed(thing: Ref, method: Builtin, args: &[Value], block: Option<u32>) -> Deed
    ensures { spec.answer_of result ≡ spec.collection_answer (spec.thing_of thing) method (map plain args.now) block }
{
    match method {
        Builtin::Length | Builtin::Size => unless(misfit(args, 0, block), asks(thing, Act::Len)),
        Builtin::IsEmpty => unless(
            misfit(args, 0, block),
            Deed::Ask(thing, Act::Len, Behind::IsZero),
        ),
        Builtin::Clear => unless(
            misfit(args, 0, block),
            Deed::Ask(thing, Act::Clear, Behind::Receiver),
        ),
        _ => Deed::Raise(Fault::NoMethod),
    }
}

/// What an array answers to a method without a block that takes no memory.
fn element_deed(array: Ref, method: Builtin, args: &[Value], block: Option<u32>) -> Deed
    ensures { spec.is_writer method ≡ false → spec.answer_of result ≡ spec.array_answer (spec.thing_of array) method (map plain args.now) block }
{
    match method {
        Builtin::Index => unless(misfit(args, 1, block), element_at(array, args)),
        Builtin::DeleteAt => unless(misfit(args, 1, block), deleted_at(array, args)),
        Builtin::Pop => unless(misfit(args, 0, block), asks(array, Act::Pop)),
        Builtin::Shift => unless(misfit(args, 0, block), asks(array, Act::Shift)),
        Builtin::First => unless(misfit(args, 0, block), asks(array, Act::At(0))),
        Builtin::Last => unless(misfit(args, 0, block), asks(array, Act::At(-1))),
        _ => collection_deed(array, method, args, block),
    }
}

/// What an array answers to a method without a block.
fn array_deed(
    array: Ref,
    method: Builtin,
    args: &[Value],
    block: Option<u32>,
) -> Result<Deed, AllocError>
    ensures { IfOk result (λ d. spec.answer_of d ≡ spec.array_answer (spec.thing_of array) method (map plain args.now) block) }
{
    match method {
        Builtin::SetIndex => match misfit(args, 2, block) {
            Some(fault) => Ok(Deed::Raise(fault)),
            None => put_at(array, args),
        },
        Builtin::Append | Builtin::Push => match misfit(args, 1, block) {
            Some(fault) => Ok(Deed::Raise(fault)),
            None => pushed(array, args),
        },
        Builtin::Unshift => match misfit(args, 1, block) {
            Some(fault) => Ok(Deed::Raise(fault)),
            None => unshifted(array, args),
        },
        _ => Ok(element_deed(array, method, args, block)),
    }
}

/// The walk over an array that a method with a block is, and how many parameters the block has at most.
fn pass_of(method: Builtin) -> Option<(Pass, u32)>
    ensures { result ≡ spec.pass_of method }
{
    match method {
        Builtin::Each => Some((Pass::Each, 1)),
        Builtin::EachWithIndex => Some((Pass::WithIndex, 2)),
        Builtin::Map => Some((Pass::Map, 1)),
        Builtin::Select => Some((Pass::Select, 1)),
        _ => None,
    }
}

/// What an array answers to a method.
#[tactic(auto, using(crate::proofs::Table::walk_is))]
fn walk_deed(
    array: Ref,
    method: Builtin,
    args: &[Value],
    block: Option<u32>,
) -> Result<Deed, AllocError>
    ensures { IfOk result (λ d. spec.answer_of d ≡ spec.walk_answer (spec.thing_of array) method (map plain args.now) block) }
{
    match pass_of(method) {
        Some((pass, most)) => Ok(unless(
            misfit_with_block(args, 0, Takes::UpTo(most), block),
            Deed::WalkOver(array, pass),
        )),
        None => array_deed(array, method, args, block),
    }
}

/// The value of a key.
fn value_of(hash: Ref, args: &[Value]) -> Result<Deed, AllocError>
    ensures { IfOk result (λ d. spec.answer_of d ≡ table.by_key acts.KGet (spec.thing_of hash) (map plain args.now)) }
{
    let [key] = args else {
        return Ok(Deed::Raise(Fault::ArgumentCount));
    };
    if is_collection(key) {
        return Ok(Deed::Raise(Fault::BadKey));
    }
    Ok(asks(hash, Act::KGet(key.share()?)))
}

/// Whether there is a key.
fn has_key(hash: Ref, args: &[Value]) -> Result<Deed, AllocError>
    ensures { IfOk result (λ d. spec.answer_of d ≡ table.by_key acts.KHas (spec.thing_of hash) (map plain args.now)) }
{
    let [key] = args else {
        return Ok(Deed::Raise(Fault::ArgumentCount));
    };
    if is_collection(key) {
        return Ok(Deed::Raise(Fault::BadKey));
    }
    Ok(asks(hash, Act::KHas(key.share()?)))
}

/// The pair of a key is taken out.
fn deleted(hash: Ref, args: &[Value]) -> Result<Deed, AllocError>
    ensures { IfOk result (λ d. spec.answer_of d ≡ table.by_key acts.KDelete (spec.thing_of hash) (map plain args.now)) }
{
    let [key] = args else {
        return Ok(Deed::Raise(Fault::ArgumentCount));
    };
    if is_collection(key) {
        return Ok(Deed::Raise(Fault::BadKey));
    }
    Ok(asks(hash, Act::KDelete(key.share()?)))
}

/// A key gets a value.
fn put_key(hash: Ref, args: &[Value]) -> Result<Deed, AllocError>
    ensures { IfOk result (λ d. spec.answer_of d ≡ table.put_key (spec.thing_of hash) (map plain args.now)) }
{
    let [key, value] = args else {
        return Ok(Deed::Raise(Fault::ArgumentCount));
    };
    if is_collection(key) {
        return Ok(Deed::Raise(Fault::BadKey));
    }
    Ok(asks(hash, Act::KPut(key.share()?, value.share()?)))
}

/// What a hash answers to a method that asks for a key.
fn key_deed(
    hash: Ref,
    method: Builtin,
    args: &[Value],
    block: Option<u32>,
) -> Result<Deed, AllocError>
    ensures { IfOk result (λ d. spec.is_by_key method ≡ true → spec.answer_of d ≡ spec.hash_answer (spec.thing_of hash) method (map plain args.now) block) }
{
    let arity = if method == Builtin::SetIndex { 2 } else { 1 };
    if let Some(fault) = misfit(args, arity, block) {
        return Ok(Deed::Raise(fault));
    }
    match method {
        Builtin::Index => value_of(hash, args),
        Builtin::SetIndex => put_key(hash, args),
        Builtin::Delete => deleted(hash, args),
        _ => has_key(hash, args),
    }
}

/// What a hash answers to a method.
fn hash_deed(
    hash: Ref,
    method: Builtin,
    args: &[Value],
    block: Option<u32>,
) -> Result<Deed, AllocError>
    ensures { IfOk result (λ d. spec.answer_of d ≡ spec.hash_answer (spec.thing_of hash) method (map plain args.now) block) }
{
    match method {
        Builtin::Index | Builtin::SetIndex | Builtin::Delete | Builtin::HasKey => {
            key_deed(hash, method, args, block)
        }
        Builtin::Keys => Ok(unless(misfit(args, 0, block), Deed::Read(hash, Purpose::Keys))),
        Builtin::Values => Ok(unless(misfit(args, 0, block), Deed::Read(hash, Purpose::Values))),
        Builtin::Each | Builtin::EachPair => Ok(unless(
            misfit_with_block(args, 0, Takes::NoneOrTwo, block),
            Deed::WalkPairs(hash),
        )),
        _ => Ok(collection_deed(hash, method, args, block)),
    }
}

/// What a mutex answers to a method.
fn mutex_deed(mutex: Ref, method: Builtin, args: &[Value], block: Option<u32>) -> Deed
    ensures { spec.answer_of result ≡ spec.mutex_answer (spec.thing_of mutex) method (map plain args.now) block }
{
    match method {
        Builtin::Lock => unless(
            misfit(args, 0, block),
            Deed::Ask(mutex, Act::Lock, Behind::Receiver),
        ),
        Builtin::Unlock => unless(
            misfit(args, 0, block),
            Deed::Ask(mutex, Act::Unlock, Behind::Receiver),
        ),
        Builtin::Synchronize => unless(
            misfit_with_block(args, 0, Takes::UpTo(0), block),
            Deed::Synchronize(mutex),
        ),
        _ => Deed::Raise(Fault::NoMethod),
    }
}

/// What a thread answers to a method.
fn thread_deed(thread: Ref, method: Builtin, args: &[Value], block: Option<u32>) -> Deed
    ensures { spec.answer_of result ≡ spec.thread_answer (spec.thing_of thread) method (map plain args.now) block }
{
    match method {
        Builtin::Join => unless(
            misfit(args, 0, block),
            Deed::Ask(thread, Act::Join, Behind::Receiver),
        ),
        Builtin::Value => unless(misfit(args, 0, block), asks(thread, Act::Join)),
        _ => Deed::Raise(Fault::NoMethod),
    }
}

/// What a value answers to a method that only some values have.
fn own_deed(
    alloc: Global,
    receiver: &Value,
    method: Builtin,
    args: &[Value],
    block: Option<u32>,
) -> Result<Deed, AllocError>
    ensures { IfOk result (λ d. spec.answer_of d ≡ spec.own_answer (plain receiver.now) method (map plain args.now) block) }
{
    match receiver {
        Value::Int(m) => Ok(integer_deed(*m, method, args, block)),
        Value::Str(text) => text_deed(alloc, text, method, args, block),
        Value::Ref(thing) if thing.sort == Sort::List => walk_deed(*thing, method, args, block),
        Value::Ref(thing) if thing.sort == Sort::Pairs => hash_deed(*thing, method, args, block),
        Value::Ref(thing) if thing.sort == Sort::Mutex => {
            Ok(mutex_deed(*thing, method, args, block))
        }
        Value::Ref(thing) if thing.sort == Sort::Thread => {
            Ok(thread_deed(*thing, method, args, block))
        }
        _ => Ok(Deed::Raise(Fault::NoMethod)),
    }
}

/// What a value answers to a method.
fn deed_by_number(
    alloc: Global,
    program: &Program,
    receiver: &Value,
    method: Builtin,
    args: &[Value],
    block: Option<u32>,
) -> Result<Deed, AllocError>
    ensures { IfOk result (λ d. spec.answer_of d ≡ spec.answer_by_number program.now (plain receiver.now) method (map plain args.now) block) }
{
    match method {
        Builtin::Equal => Ok(unless(misfit(args, 1, block), equal(receiver, args))),
        Builtin::IsNil => Ok(unless(misfit(args, 0, block), truth_of(is_nil(receiver)))),
        Builtin::ToS => match misfit(args, 0, block) {
            Some(fault) => Ok(Deed::Raise(fault)),
            None => shown(alloc, program, receiver),
        },
        Builtin::Inspect => match misfit(args, 0, block) {
            Some(fault) => Ok(Deed::Raise(fault)),
            None => inspected(alloc, program, receiver),
        },
        _ => own_deed(alloc, receiver, method, args, block),
    }
}

/// What a value answers to the call of a method, whose number `builtin_of` gives for its name, with arguments and, where a block is
/// given, the count of its parameters. It is what the table of methods says.
pub fn deed_of(
    alloc: Global,
    program: &Program,
    receiver: &Value,
    method: Option<Builtin>,
    args: &[Value],
    block: Option<u32>,
) -> Result<Deed, AllocError>
    ensures { IfOk result (λ d. (name : List ℕ) → numbers.builtin_of name ≡ method
        → spec.answer_of d ≡ table.deed program.now (plain receiver.now) name (map plain args.now) block) }
{
    match method {
        Some(method) => deed_by_number(alloc, program, receiver, method, args, block),
        None => Ok(Deed::Raise(Fault::NoMethod)),
    }
}
