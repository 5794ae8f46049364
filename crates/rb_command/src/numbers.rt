// The numbers that options take.

ghost use Rattle.std.specs.Prelude.{◌≡◌, List, ℕ, option_map};
ghost use Rattle.std.specs.Borrow.{Bor};
ghost use Rattle.std.specs.Char.{is_ascii_digit};
ghost use Rattle.std.specs.List.{list_all};
ghost use Rattle.rb_command.specs.Words as spec;
ghost use Rattle.rb_command.specs.Line as line;

/// The most digits that a number may have.
const MOST_DIGITS: usize = 19;

/// Which numbers an option takes, and which stands where it is not given.
#[derive(Clone, Copy)]
pub struct Setting {
    pub least: u64,
    pub most: u64,
    pub default: u64,
}

/// The steps that a thread may make.
pub const STEPS: Setting = Setting {
    least: 1,
    most: 1_000_000_000_000,
    default: 100_000_000,
};

/// The words of the shared heap.
pub const HEAP_WORDS: Setting = Setting {
    least: 4_096,
    most: 134_217_728,
    default: 1_048_576,
};

/// Whether all bytes are digits.
fn are_digits(word: &[u8]) -> bool
    ensures { result ≡ list_all is_ascii_digit word.now }
{
    word.iter().all(|byte| byte.is_ascii_digit())
}

/// Whether the word is 1 to 19 digits.
fn is_numeral(word: &[u8]) -> bool
    ensures { result ≡ spec.is_numeral word.now }
{
    1 <= word.len() && word.len() <= MOST_DIGITS && are_digits(word)
}

/// The number that the word writes, where it is in the range.
pub fn number_in(least: u64, most: u64, word: &str) -> Option<u64>
    ensures { result ≡ spec.number_in least most word.now }
{
    if !is_numeral(word.as_bytes()) {
        return None;
    }
    match word.parse::<u64>() {
        Ok(number) => within(least, most, number),
        Err(_) => None,
    }
}

/// The number, where it is in the range.
fn within(least: u64, most: u64, number: u64) -> Option<u64>
    ensures { result ≡ spec.within least most number }
{
    if least <= number && number <= most {
        Some(number)
    } else {
        None
    }
}

/// The number that an option is given, or what stands where it is not given.
pub fn chosen(setting: Setting, word: Option<&str>) -> Option<u64>
    ensures { result ≡ line.chosen setting.least setting.most setting.default (option_map (λ (w : Bor (List ℕ)). w.now) word.entry) }
{
    match word {
        Some(word) => number_in(setting.least, setting.most, word),
        None => Some(setting.default),
    }
}
