// Eight bytes a word, the first the lowest.

ghost use Rattle.std.specs.Prelude.{◌≡◌, ◌≤◌, ◌<◌, ◌*◌, ◌++◌, IfOk, length};
ghost use Rattle.heap_core.specs.Spelling.{byte_word, of_bytes};
ghost use Rattle.block_kinds.specs.Bytes.{bytes_in};

use std::alloc::AllocError;

/// The word of the eight bytes from number 8 k on, or of those that are left.
pub(crate) fn word_at(bytes: &[u8], k: usize) -> u64
    requires within { 8 * k < length bytes.now }
    ensures { result ≡ byte_word bytes.now k }
{
    let rest = &bytes[8 * k..];
    number_of(&rest[..rest.len().min(8)])
}

// The bytes as a number.
fn number_of(bytes: &[u8]) -> u64
    requires few { length bytes.now ≤ 8 }
    ensures { result ≡ of_bytes bytes.now }
{
    match bytes.split_first() {
        Some((first, rest)) => number_of(rest) * 256 + u64::from(*first),
        None => 0,
    }
}

/// Appends the first bytes of a word.
pub(crate) fn append_bytes(bytes: &mut Vec<u8>, word: u64, count: u64) -> Result<(), AllocError>
    requires few { count ≤ 8 }
    ensures appended { IfOk result (λ _. bytes.new.items ≡ bytes.old.items ++ bytes_in count word) }
{
    let mut left = word;
    'bytes: for _ in 0..count {
        bytes.push((left % 256) as u8)?;
        left /= 256;
    }
    Ok(())
}
