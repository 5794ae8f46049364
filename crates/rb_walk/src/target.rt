// The method of a class that a call finds.

ghost use Rattle.std.specs.Prelude.{◌≡◌, ◌<◌, IfSome, Some, None, true};
ghost use Rattle.std.specs.List.{AllByRecursion};
ghost use Rattle.rb_model.specs.Values.{plain};
ghost use Rattle.rb_code.specs.declared.scripted.CodeScript.{CodeScript};
ghost use Rattle.rb_walk.specs.Methods.{IsTarget, HasNone, HasNoMethods, IsWriter, HasNoWriter};
ghost use Rattle.rb_walk.specs.Readers.{Adds, AssignsField, AssignsParameter, OnlyAssigns, Reads, IsReader, Writes};
ghost use Rattle.rb_walk.specs.Answers.{IsHeld};
ghost use Rattle.rb_walk.specs.Carries.{me_of};

use crate::dispatch::Methods;
use crate::leaf::local_at;
use rb_code::{Code, CodeMethod};
use rb_model::{Ref, Sort, Value};
use rb_tree::{AssignOp, NameId, Span};

/// A method of the class of an object.
#[derive(Clone, Copy)]
pub struct Target<'p> {
    pub object: Ref,
    pub method: &'p CodeMethod,
}

/// The method of its class that a name finds for a value.
#[inline(always)]
pub fn target_of<'p>(script: &Methods<'p>, receiver: &Value, name: NameId) -> Option<Target<'p>>
    ensures some { IfSome result (λ t. IsTarget script.now (plain receiver.now) name t.object t.method.now) }
    ensures none { result ≡ None → HasNone script.now (plain receiver.now) name }
{
    let Value::Ref(object) = receiver else {
        return None;
    };
    let Sort::Object(class) = object.sort else {
        return None;
    };
    let method = script.method_of(name, class)?;
    Some(Target {
        object: *object,
        method,
    })
}

/// The method of its class that a name finds for the object that a local has.
#[inline(always)]
pub fn local_target<'p>(
    script: &Methods<'p>,
    code: &Code,
    name: NameId,
    room: &[Value],
) -> Option<Target<'p>>
    ensures held { IfSome result (λ t. IsHeld code.now room.now (me_of (Some t.object))) }
    ensures target { IfSome result (λ t. IsTarget script.now (me_of (Some t.object)) name t.object t.method.now) }
{
    let target = target_of(script, local_at(code, room)?, name)?;
    Some(target)
}

/// The array or the hash that a local has. No name finds a method of a class for it.
#[inline(always)]
pub fn local_collection(code: &Code, room: &[Value]) -> Option<Ref>
    ensures held { IfSome result (λ thing. IsHeld code.now room.now (me_of (Some thing))) }
    ensures alone { IfSome result (λ thing. (script : CodeScript) (name : NameId) → HasNone script (me_of (Some thing)) name) }
    ensures unnamed { IfSome result (λ thing. HasNoMethods (me_of (Some thing))) }
{
    let Value::Ref(thing) = local_at(code, room)? else {
        return None;
    };
    match thing.sort {
        Sort::List | Sort::Pairs => Some(*thing),
        _ => None,
    }
}

/// The method of its class that the name of a writer finds for a value, where there is such a name.
#[inline(always)]
pub fn writer_of<'p>(
    script: &Methods<'p>,
    receiver: &Value,
    writer: Option<NameId>,
) -> Option<Target<'p>>
    ensures some { IfSome result (λ t. IsWriter script.now (plain receiver.now) writer t.object t.method.now) }
    ensures none { result ≡ None → HasNoWriter script.now (plain receiver.now) writer }
{
    target_of(script, receiver, writer?)
}

/// What a method of an object reads that does nothing else, as `attr_reader` makes it: an instance variable, at this place.
#[derive(Clone, Copy)]
pub struct Reader {
    pub object: Ref,
    pub field: NameId,
    pub at: Span,
}

/// What a method reads, where it does nothing else.
#[inline(always)]
pub fn read_by(method: &CodeMethod) -> Option<(NameId, Span)>
    ensures { IfSome result (λ read. Reads method.now read.0 read.1) }
{
    if !method.params.is_empty() {
        return None;
    }
    let [only] = method.body.as_slice() else {
        return None;
    };
    match only {
        Code::Field(field, at) => Some((*field, *at)),
        _ => None,
    }
}

/// What the method reads that a name finds for a value, where it does nothing else.
#[inline(always)]
pub fn reader_of(script: &Methods<'_>, receiver: &Value, name: NameId) -> Option<Reader>
    ensures { IfSome result (λ reader. IsReader script.now (plain receiver.now) name reader.object reader.field reader.at) }
{
    let Value::Ref(object) = receiver else {
        return None;
    };
    let Sort::Object(class) = object.sort else {
        return None;
    };
    let (field, at) = script.reads(name, class)?;
    Some(Reader {
        object: *object,
        field,
        at,
    })
}

/// What a method with one parameter gives it to, where it does nothing else, as `attr_writer` makes it: an instance variable, at this place.
#[inline(always)]
pub fn written_by(method: &CodeMethod) -> Option<(NameId, Span)>
    ensures { IfSome result (λ written. Writes method.now written.0 written.1) }
{
    if method.params.len() != 1 {
        return None;
    }
    let [only] = method.body.as_slice() else {
        return None;
    };
    let Code::SetField(field, value, at) = only else {
        return None;
    };
    let Code::Local(slot, _, _) = value.get() else {
        return None;
    };
    if *slot != 0 {
        return None;
    }
    Some((*field, *at))
}

/// What a method with one parameter adds it to, where it does nothing else: an instance variable, at this place.
#[inline(always)]
pub fn added_by(method: &CodeMethod) -> Option<(NameId, Span)>
    ensures { IfSome result (λ added. Adds method.now added.0 added.1) }
{
    if method.params.len() != 1 {
        return None;
    }
    let [only] = method.body.as_slice() else {
        return None;
    };
    let Code::UpdateField(field, op, value, at) = only else {
        return None;
    };
    let AssignOp::Plus = op else {
        return None;
    };
    let Code::Local(slot, _, _) = value.get() else {
        return None;
    };
    if *slot != 0 {
        return None;
    }
    Some((*field, *at))
}

/// What a statement gives to an instance variable: the value of a local.
#[derive(Clone, Copy)]
pub struct Assignment {
    pub field: NameId,
    pub slot: u32,
    pub at: Span,
}

/// What a statement gives to an instance variable, where that is one of so many parameters and nothing else is done.
#[inline(always)]
pub fn assigned_by(code: &Code, count: usize) -> Option<Assignment>
    ensures some { IfSome result (λ a. AssignsField code.now a.field a.slot a.at) }
    ensures below { IfSome result (λ a. a.slot < count) }
    ensures none { result ≡ None → AssignsParameter count code.now → ⊥ }
{
    let Code::SetField(field, value, at) = code else {
        return None;
    };
    let Code::Local(slot, _, _) = value.get() else {
        return None;
    };
    if *slot as usize >= count {
        return None;
    }
    Some(Assignment {
        field: *field,
        slot: *slot,
        at: *at,
    })
}

/// Whether a method has so many parameters and only gives them to instance variables.
#[inline(always)]
pub fn only_assigns(method: &CodeMethod, count: usize) -> bool
    ensures { result ≡ true → OnlyAssigns count method.now }
{
    method.params.len() == count && all_assign(method.body.as_slice(), count)
}

/// Whether each statement only gives one of so many parameters to an instance variable.
#[inline(always)]
fn all_assign(body: &[Code], count: usize) -> bool
    ensures { result ≡ true → AllByRecursion (AssignsParameter count) body.now }
{
    'body: for code in body {
        if assigned_by(code, count).is_none() {
            return false;
        }
    }
    true
}
