// The words behind the command, as clap reads them: the FILE, and the values of options as texts.

ghost use Rattle.std.specs.Prelude.{◌≡◌, ◌≢◌, None, List, ℕ, Option, IfOk, map, option_map, string_bytes};
ghost use Rattle.std.specs.Borrow.{Bor};
ghost use Rattle.rb_command.specs.Line as spec;
ghost use Rattle.rb_command.specs.Seen.{line_seen};
ghost use Rattle.clap.specs.Words.{app_of, found_of, kind_of, rows_of};
ghost use Rattle.rb_command.specs.Reader as wanted;
ghost use Rattle.rb_command.specs.Rows.{line_in};

use crate::hyphens::any_has_one_hyphen;
use clap::error::ErrorKind;
use clap::{Arg, ArgAction, ArgMatches, Error};
use std::alloc::{AllocError, Global};

/// What the words say, before the numbers are read.
#[derive(Clone, Copy)]
pub struct Line<'w> {
    pub file: &'w str,
    pub steps: Option<&'w str>,
    pub heap_words: Option<&'w str>,
}

/// The line that the words behind the command say; none where they are no words of the program.
pub fn line_of<'w>(alloc: Global, words: &'w [String]) -> Result<Option<Line<'w>>, AllocError>
    ensures { IfOk result (λ line. option_map line_seen line ≡ spec.line_of (map string_bytes words.now)) }
{
    // For clap `-` is a FILE.
    if any_has_one_hyphen(words) {
        return Ok(None);
    }
    match reader(alloc)?.try_get_matches_from(words) {
        Ok(matches) => Ok(found_line(&matches)),
        Err(error) => refused(&error),
    }
}

/// What clap is to read: a FILE, and two options that each take a value.
fn reader<'w>(alloc: Global) -> Result<clap::Command<'w>, AllocError>
    ensures { IfOk result (λ command. app_of command ≡ wanted.reader) }
{
    let file = Arg::new(alloc, "file")
        .required(true)
        .action(ArgAction::Set);
    let steps = Arg::new(alloc, "steps")
        .long("steps")
        .action(ArgAction::Set);
    let heap_words = Arg::new(alloc, "heap-words")
        .long("heap-words")
        .action(ArgAction::Set);
    clap::Command::new(alloc, "run")
        .no_binary_name(true)
        .disable_help_flag(true)
        .arg(file)?
        .arg(steps)?
        .arg(heap_words)
}

/// The line, of what clap found.
fn found_line<'w>(matches: &ArgMatches<'w>) -> Option<Line<'w>>
    ensures { option_map line_seen result ≡ line_in (rows_of (found_of matches.now)) }
{
    let file = matches.get_str("file")?;
    Some(Line {
        file,
        steps: matches.get_str("steps"),
        heap_words: matches.get_str("heap-words"),
    })
}

/// That clap refused the words, unless memory ran out.
fn refused<'w>(error: &Error) -> Result<Option<Line<'w>>, AllocError>
    ensures nothing { IfOk result (λ line. line ≡ None) }
    ensures cause { IfOk result (λ line. kind_of error.now ≢ ErrorKind.OutOfMemory) }
{
    match error.kind() {
        ErrorKind::OutOfMemory => Err(AllocError),
        _ => Ok(None),
    }
}
