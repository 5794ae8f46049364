// From a source to a program that is run, or to its refusal.

ghost use Rattle.std.specs.Prelude.{◌≡◌, true, IfOk};
ghost use Rattle.rb_accepted.specs.Coded.{has_code};
ghost use Rattle.rb_prog.specs.Accepting.{Judges, AcceptsOf, unread, unparsed, broken};

use crate::refusal::Refusal;
use rb_checker::{CheckError, check};
use rb_lexer::{LexFault, lex};
use rb_parser::{ParseFault, parse};
use rb_tree::Program;
use std::alloc::Global;

/// Why a source has no program that is run.
#[derive(Clone, Copy, Debug, PartialEq, Eq)]
pub(crate) enum Unaccepted {
    Refused(Refusal),
    Memory,
}

/// Why a source without tokens is not accepted.
fn unread(fault: LexFault) -> Unaccepted
    ensures { result ≡ unread fault }
{
    match fault {
        LexFault::Memory => Unaccepted::Memory,
        _ => Unaccepted::Refused(Refusal::Unread(fault)),
    }
}

/// Why tokens that spell no program are not accepted.
fn unparsed(fault: ParseFault) -> Unaccepted
    ensures { result ≡ unparsed fault }
{
    match fault {
        ParseFault::Memory => Unaccepted::Memory,
        _ => Unaccepted::Refused(Refusal::Unparsed(fault)),
    }
}

/// Why a program that the check does not pass is not accepted.
fn broken(error: CheckError) -> Unaccepted
    ensures { result ≡ broken error }
{
    match error {
        CheckError::Fault(fault) => Unaccepted::Refused(Refusal::Broken(fault)),
        CheckError::Memory => Unaccepted::Memory,
    }
}

/// A program, where it keeps the rules of names.
fn judged(alloc: Global, program: Program) -> Result<Program, Unaccepted>
    ensures { Judges program result }
{
    match check(alloc, &program) {
        Ok(()) => Ok(program),
        Err(error) => Err(broken(error)),
    }
}

/// The program of a source that is run. It has code, as each program has that is spelled and keeps the rules of names.
pub(crate) fn accept(alloc: Global, source: &[u8]) -> Result<Program, Unaccepted>
    ensures accepts { AcceptsOf source.now result }
    ensures coded { IfOk result (λ program. has_code program ≡ true) }
{
    let tokens = match lex(alloc, source) {
        Ok(tokens) => tokens,
        Err(fault) => return Err(unread(fault)),
    };
    match parse(alloc, tokens.as_slice()) {
        Ok(program) => judged(alloc, program),
        Err(fault) => Err(unparsed(fault)),
    }
}
