// The rules that hang on where an event stands.

ghost use Rattle.std.specs.Prelude.{◌≡◌, ◌++◌, [], ◌∷◌, List, ℕ, Some, map, reverse, IfOk, OnOk, slice_get};
ghost use Rattle.std.specs.Option.{option_map};
ghost use Rattle.std.specs.Borrow.{Bor};
ghost use Rattle.rb_tree.specs.declared.span.NameId.{NameId as Id};
ghost use Rattle.rb_checker.specs.Fault.{first_of};
ghost use Rattle.rb_checker.specs.Names as given;
ghost use Rattle.rb_checker.specs.Around as spec;
ghost use Rattle.rb_checker.specs.Rules as rule;
ghost use Rattle.rb_checker.specs.Sets.{Holds};
ghost use Rattle.rb_checker.specs.Owners.{IsOwner};

use crate::event::{Around, Event, Sight};
use crate::fault::CheckFault;
use crate::first::first_of_two;
use crate::sets::has;
use rb_tree::{NameId, Names, Span};
use std::alloc::{AllocError, Global};
use std::collections::HashSet;

/// The name of the class of locks.
const MUTEX_NAME: &[u8] = b"Mutex";
/// The name of the class of threads.
const THREAD_NAME: &[u8] = b"Thread";
/// The names of classes of which no script makes objects by `new`.
const QUEUE_NAME: &[u8] = b"Queue";

const OBJECT_NAME: &[u8] = b"Object";

const STRING_NAME: &[u8] = b"String";

const INTEGER_NAME: &[u8] = b"Integer";

const SYMBOL_NAME: &[u8] = b"Symbol";

/// Whether a loop or a block stands round, with no thread between. The innermost stands last.
fn repeats(round: &[(Around, Span)]) -> bool
    ensures { result ≡ spec.repeats (reverse round.now) }
{
    let [outer @ .., (innermost, _)] = round else {
        return false;
    };
    match innermost {
        Around::Loop | Around::Block => true,
        Around::Thread => false,
        Around::Value(_) => repeats(outer),
    }
}

/// Whether no thread stands round.
fn in_no_thread(round: &[(Around, Span)]) -> bool
    ensures { result ≡ spec.in_no_thread (reverse round.now) }
{
    let [outer @ .., (innermost, _)] = round else {
        return true;
    };
    match innermost {
        Around::Thread => false,
        _ => in_no_thread(outer),
    }
}

/// What begins or ends with an event, as what stands round those behind it.
pub(crate) fn go_behind(round: &mut Vec<(Around, Span)>, event: &Event) -> Result<(), AllocError>
    ensures { OnOk result (reverse round.new.items ≡ spec.behind (reverse round.old.items) event.now.sight event.now.at) }
{
    match event.sight {
        Sight::Begins(around) => round.push((around, event.at))?,
        Sight::Ends => {
            round.pop();
        }
        _ => {}
    }
    Ok(())
}

/// Where a text stands.
#[derive(Clone, Copy)]
pub(crate) struct Owner<'p> {
    /// The methods of the class around it, where it stands in one.
    pub methods: Option<&'p HashSet<u32>>,
    pub in_method: bool,
}

/// The names that the rules of a script go by.
#[derive(Clone, Copy)]
pub(crate) struct Given<'p> {
    pub names: &'p Names,
    pub functions: &'p HashSet<u32>,
    pub classes: &'p HashSet<u32>,
}

/// Whether this is the name of a method that every script has.
fn is_built_in_method(text: &[u8]) -> bool
    ensures { result ≡ given.text_among (Some text.now) given.built_in_methods }
{
    matches!(text, b"puts" | b"print" | b"p")
}

/// Whether this is the name of a class of collections.
fn is_collection(text: &[u8]) -> bool
    ensures { result ≡ given.text_among (Some text.now) given.collections }
{
    matches!(text, b"Array" | b"Hash")
}

/// Whether this is the name of a class of threads or of what they share.
fn is_thread_class(text: &[u8]) -> bool
    ensures { result ≡ given.text_among (Some text.now) given.thread_classes }
{
    text == MUTEX_NAME || text == THREAD_NAME
}

/// Whether this is the name of a class that is there, of which no script makes objects by `new`.
pub(crate) fn is_value_class(text: &[u8]) -> bool
    ensures { result ≡ given.text_among (Some text.now) given.value_classes }
{
    text == QUEUE_NAME
        || text == OBJECT_NAME
        || text == STRING_NAME
        || text == INTEGER_NAME
        || text == SYMBOL_NAME
}

/// Whether this is the name of a class that a script may make objects of without defining it.
pub(crate) fn is_built_in_class(text: &[u8]) -> bool
    ensures { result ≡ given.text_among (Some text.now) given.built_in_classes }
{
    is_collection(text) || is_thread_class(text)
}

/// The text of a name of the script.
pub(crate) fn text_of(names: &Names, name: NameId) -> Option<&[u8]>
    ensures { option_map (λ (b : Bor (List ℕ)). b.now) result ≡ slice_get names.now name.0 }
{
    if (name.0 as usize) < names.len() {
        Some(names.text(name))
    } else {
        None
    }
}

impl<'p> Given<'p> {
    /// Whether a call without receiver finds a method.
    fn finds_method(self, owner: Owner<'_>, name: NameId) -> bool
        ensures { (functions classes : List Id) (o : rule.Owner) → Holds self.entry.functions.now functions → IsOwner owner.entry o → result ≡ rule.finds_method self.entry.names.now functions classes o name }
    {
        if let Some(methods) = owner.methods
            && has(methods, name)
        {
            return true;
        }
        if has(self.functions, name) {
            return true;
        }
        match text_of(self.names, name) {
            Some(text) => is_built_in_method(text),
            None => false,
        }
    }

    /// Whether there is a class of this name.
    fn finds_class(self, class: NameId) -> bool
        ensures { (functions classes : List Id) → Holds self.entry.classes.now classes → result ≡ rule.finds_class self.entry.names.now functions classes class }
    {
        if has(self.classes, class) {
            return true;
        }
        match text_of(self.names, class) {
            Some(text) => is_built_in_class(text),
            None => false,
        }
    }
}

/// A fault where a rule is broken.
fn unless(holds: bool, fault: CheckFault) -> Option<CheckFault>
    ensures { result ≡ first_of (rule.unless holds fault) }
{
    if holds { None } else { Some(fault) }
}

impl<'p> Given<'p> {
    /// The rule that an event breaks. What stands round it is given, the innermost last.
    fn broken_by(
        self,
        owner: Owner<'_>,
        round: &[(Around, Span)],
        event: &Event,
    ) -> Option<CheckFault>
        ensures { (functions classes : List Id) (o : rule.Owner) → Holds self.entry.functions.now functions → Holds self.entry.classes.now classes → IsOwner owner.entry o
            → result ≡ first_of (rule.broken_by self.entry.names.now functions classes o (reverse round.now) event.now.sight event.now.at) }
    {
        let at = event.at;
        match event.sight {
            Sight::Calls(name) => {
                unless(self.finds_method(owner, name), CheckFault::UnknownName(at))
            }
            Sight::Makes(class) => unless(self.finds_class(class), CheckFault::UnknownClass(at)),
            Sight::SelfRef | Sight::Field(_) => {
                unless(owner.methods.is_some(), CheckFault::SelfOutside(at))
            }
            Sight::Leaves => unless(repeats(round), CheckFault::BreakOutside(at)),
            Sight::Returns => {
                let may_return = owner.in_method && in_no_thread(round);
                unless(may_return, CheckFault::BreakOutside(at))
            }
            _ => None,
        }
    }

    /// The first rule that the events of a text break.
    pub(crate) fn broken(
        self,
        alloc: Global,
        owner: Owner<'_>,
        events: &[Event],
    ) -> Result<Option<CheckFault>, AllocError>
        ensures { IfOk result (λ found. (functions classes : List Id) (o : rule.Owner) → Holds self.entry.functions.now functions → Holds self.entry.classes.now classes → IsOwner owner.entry o
            → found ≡ first_of (rule.broken self.entry.names.now functions classes o events.now)) }
    {
        let mut round = Vec::new(alloc);
        let mut found = None;
        'events: for event in events {
            found = first_of_two(found, self.broken_by(owner, round.as_slice(), event));
            go_behind(&mut round, event)?;
        }
        Ok(found)
    }
}
