// Why a source has no run.

ghost use Rattle.std.specs.Prelude.{◌≡◌, Some, None};
ghost use Rattle.rb_prog.specs.Refusals as spec;

use rb_checker::CheckFault;
use rb_lexer::LexFault;
use rb_parser::ParseFault;

/// Why a source has no run.
#[derive(Clone, Copy, Debug, PartialEq, Eq)]
pub enum Refusal {
    /// It has no tokens.
    Unread(LexFault),
    /// Its tokens spell no program.
    Unparsed(ParseFault),
    /// Its program breaks a rule of names.
    Broken(CheckFault),
}

/// What is told of a refusal: its number, its name, and a byte of the source.
#[derive(Clone, Copy)]
pub(crate) struct Row {
    pub(crate) number: u32,
    pub(crate) name: &'static str,
    pub(crate) place: Option<u32>,
}

/// A refusal that tells a byte of the source.
fn at(number: u32, name: &'static str, place: u32) -> Row
    ensures number { result.number ≡ number }
    ensures name { result.name.now ≡ name.now }
    ensures place { result.place ≡ Some place }
{
    Row {
        number,
        name,
        place: Some(place),
    }
}

/// A refusal that tells no byte.
fn nowhere(number: u32, name: &'static str) -> Row
    ensures number { result.number ≡ number }
    ensures name { result.name.now ≡ name.now }
    ensures place { result.place ≡ None }
{
    Row {
        number,
        name,
        place: None,
    }
}

/// What is told of a source without tokens.
fn unread_row(fault: LexFault) -> Row
    ensures number { result.number ≡ spec.number (Refusal.Unread fault) }
    ensures name { result.name.now ≡ spec.name (Refusal.Unread fault) }
    ensures place { result.place ≡ spec.place (Refusal.Unread fault) }
{
    match fault {
        LexFault::NotUtf8(place) => at(1, "NotUtf8", place),
        LexFault::BadCharacter(place) => at(2, "BadCharacter", place),
        LexFault::UnclosedText(place) => at(3, "UnclosedText", place),
        LexFault::BadEscape(place) => at(4, "BadEscape", place),
        LexFault::IntegerTooWide(place) => at(5, "IntegerTooWide", place),
        LexFault::TooLarge => nowhere(6, "TooLarge"),
        LexFault::Memory => nowhere(0, "Memory"),
    }
}

/// What is told of tokens that spell no program.
fn unparsed_row(fault: ParseFault) -> Row
    ensures number { result.number ≡ spec.number (Refusal.Unparsed fault) }
    ensures name { result.name.now ≡ spec.name (Refusal.Unparsed fault) }
    ensures place { result.place ≡ spec.place (Refusal.Unparsed fault) }
{
    match fault {
        ParseFault::Syntax(place) => at(7, "Syntax", place),
        ParseFault::TooNested(place) => at(8, "TooNested", place),
        ParseFault::Memory => nowhere(0, "Memory"),
    }
}

/// What is told of a program that breaks a rule of names.
fn broken_row(fault: CheckFault) -> Row
    ensures number { result.number ≡ spec.number (Refusal.Broken fault) }
    ensures name { result.name.now ≡ spec.name (Refusal.Broken fault) }
    ensures place { result.place ≡ spec.place (Refusal.Broken fault) }
{
    match fault {
        CheckFault::UnknownName(span) => at(9, "UnknownName", span.from),
        CheckFault::UnknownClass(span) => at(10, "UnknownClass", span.from),
        CheckFault::TwiceDefined(span) => at(11, "TwiceDefined", span.from),
        CheckFault::UnsettledCapture(span) => at(12, "UnsettledCapture", span.from),
        CheckFault::TooManyFields(span) => at(13, "TooManyFields", span.from),
        CheckFault::TooManyClasses(span) => at(14, "TooManyClasses", span.from),
        CheckFault::BreakOutside(span) => at(15, "BreakOutside", span.from),
        CheckFault::SelfOutside(span) => at(16, "SelfOutside", span.from),
    }
}

/// What is told of a refusal.
pub(crate) fn row_of(refusal: Refusal) -> Row
    ensures number { result.number ≡ spec.number refusal }
    ensures name { result.name.now ≡ spec.name refusal }
    ensures place { result.place ≡ spec.place refusal }
{
    match refusal {
        Refusal::Unread(fault) => unread_row(fault),
        Refusal::Unparsed(fault) => unparsed_row(fault),
        Refusal::Broken(fault) => broken_row(fault),
    }
}
