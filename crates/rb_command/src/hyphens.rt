// Words with one hyphen, which no option has.

ghost use Rattle.std.specs.Prelude.{◌≡◌, map, string_bytes};
ghost use Rattle.rb_command.specs.Line as spec;

/// Whether the word is `-`, or begins with one hyphen alone.
fn has_one_hyphen(word: &[u8]) -> bool
    ensures { result ≡ spec.has_one_hyphen word.now }
{
    match word {
        [b'-'] => true,
        [b'-', next, ..] => *next != b'-',
        _ => false,
    }
}

/// Whether such a word stands before the first `--`.
pub fn any_has_one_hyphen(words: &[String]) -> bool
    ensures { result ≡ spec.any_has_one_hyphen (map string_bytes words.now) }
{
    'words: for word in words {
        if word.as_str() == "--" {
            return false;
        }
        if has_one_hyphen(word.as_bytes()) {
            return true;
        }
    }
    false
}
