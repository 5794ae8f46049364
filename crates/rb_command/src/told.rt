// The words behind `work`: two options, and no FILE.

ghost use Rattle.std.specs.Prelude.{◌≡◌, None, List, ℕ, map, option_map, string_bytes};
ghost use Rattle.std.specs.Borrow.{Bor};
ghost use Rattle.rb_command.specs.Words as spec;
ghost use Rattle.rb_command.specs.Seen.{part_seen, front_seen, work_seen};

use crate::numbers::number_in;

/// What `work` is told: the number that its script begins at, and how many places the array of that has.
#[derive(Clone, Copy)]
pub struct WorkWords {
    pub number: u64,
    pub size: u64,
}

/// The two numbers that `work` is told.
#[derive(Clone, Copy)]
enum Part {
    Number,
    Size,
}

/// An option in front of the words, with its value, and the words behind both.
#[derive(Clone, Copy)]
struct Front<'w> {
    part: Part,
    value: u64,
    rest: &'w [String],
}

/// What stands in a word before the first `=`, and what stands behind it.
fn name_and_value(word: &str) -> (&str, Option<&str>)
    ensures name { result.0.now ≡ spec.name_part word.now }
    ensures value { option_map (λ (value : Bor (List ℕ)). value.now) result.1 ≡ spec.value_part word.now }
{
    match word.split_once('=') {
        Some((name, value)) => (name, Some(value)),
        None => (word, None),
    }
}

/// The part of this name.
fn part_named(name: &str) -> Option<Part>
    ensures { option_map part_seen result ≡ spec.part_named name.now }
{
    match name {
        "--number" => Some(Part::Number),
        "--size" => Some(Part::Size),
        _ => None,
    }
}

/// The number of a part, where it is in its range.
fn number_for(part: Part, word: &str) -> Option<u64>
    ensures { result ≡ spec.number_in (spec.least_part (part_seen part)) (spec.most_part (part_seen part)) word.now }
{
    match part {
        Part::Number => number_in(0, 2_147_483_647, word),
        Part::Size => number_in(1, 100_000, word),
    }
}

/// An option with this value.
fn front_with<'w>(part: Part, word: &str, rest: &'w [String]) -> Option<Front<'w>>
    ensures { option_map front_seen result ≡ spec.front_with (part_seen part) word.now (map string_bytes rest.now) }
{
    let value = number_for(part, word)?;
    Some(Front { part, value, rest })
}

/// An option whose value is the next word.
fn front_before<'w>(part: Part, words: &'w [String]) -> Option<Front<'w>>
    ensures { option_map front_seen result ≡ spec.front_by (part_seen part) None (map string_bytes words.now) }
{
    let [word, rest @ ..] = words else {
        return None;
    };
    front_with(part, word.as_str(), rest)
}

/// The option in front of the words.
fn front_of<'w>(words: &'w [String]) -> Option<Front<'w>>
    ensures { option_map front_seen result ≡ spec.front_of (map string_bytes words.now) }
{
    let [word, rest @ ..] = words else {
        return None;
    };
    let (name, value) = name_and_value(word.as_str());
    let part = part_named(name)?;
    match value {
        Some(value) => front_with(part, value, rest),
        None => front_before(part, rest),
    }
}

/// Whether no word is left, but for one `--`.
fn nothing_left(words: &[String]) -> bool
    ensures { result ≡ spec.nothing_left (map string_bytes words.now) }
{
    match words {
        [] => true,
        [word] => word.as_str() == "--",
        _ => false,
    }
}

/// Both parts, whichever stands first.
fn work_of(first: Front<'_>, second: Front<'_>) -> Option<WorkWords>
    ensures { option_map work_seen result ≡ spec.work_of (part_seen first.entry.part) first.entry.value (part_seen second.entry.part) second.entry.value }
{
    match (first.part, second.part) {
        (Part::Number, Part::Size) => Some(WorkWords {
            number: first.value,
            size: second.value,
        }),
        (Part::Size, Part::Number) => Some(WorkWords {
            number: second.value,
            size: first.value,
        }),
        (Part::Number, Part::Number) => None,
        (Part::Size, Part::Size) => None,
    }
}

/// What the words behind `work` tell; none where they are no words of the program.
pub fn work_told(words: &[String]) -> Option<WorkWords>
    ensures { option_map work_seen result ≡ spec.work_in (map string_bytes words.now) }
{
    let first = front_of(words)?;
    let second = front_of(first.rest)?;
    if !nothing_left(second.rest) {
        return None;
    }
    work_of(first, second)
}
