// Texts of values.

ghost use Rattle.std.specs.Prelude.{◌≡◌, IfOk, pos};
ghost use Rattle.rb_model.specs.Characters as spec;
ghost use Rattle.rb_model.specs.Characters.{characters};

use std::alloc::{AllocError, Global};
use std::marker::Model;
use std::sync::Arc;

/// Bytes, with the count of their characters.
#[derive(Drop)]
struct Counted {
    bytes: Vec<u8>,
    characters: i64,
}

/// An immutable text that many values may own at once. Contracts see it as its bytes. The characters are counted once, when it
/// is made.
#[derive(Drop)]
pub struct SharedText {
    inner: Arc<Counted>,
}

impl Model for SharedText {
    ghost use Rattle.std.specs.Prelude.{◌≡◌, List, ℕ, pos};
    ghost use Rattle.std.specs.Coded.{coded_list, coded_ℕ};
    ghost use Rattle.rb_model.specs.Characters.{characters};

    ghost Value = { List ℕ };

    ghost coded = { coded_list coded_ℕ };

    ghost view = { λ t. t.inner.value.bytes.items };

    ghost invariant = { λ t. t.inner.value.characters ≡ pos (characters t.inner.value.bytes.items) };
}

/// How many characters a text has.
fn count(bytes: &[u8]) -> u64
    ensures { result ≡ characters bytes.now }
{
    let mut found = 0u64;
    'bytes: for byte in bytes {
        if !is_inside(*byte) {
            found += 1;
        }
    }
    found
}

/// Whether a byte stands inside a character, behind its first byte.
fn is_inside(byte: u8) -> bool
    ensures { result ≡ spec.is_inside byte }
{
    (0x80..0xC0).contains(&byte)
}

impl SharedText {
    /// The text of these bytes.
    pub fn from_vec(alloc: Global, bytes: Vec<u8>) -> Result<SharedText, AllocError>
        ensures { IfOk result (λ text. text ≡ bytes.items) }
    {
        // More than can be counted are more than fit into memory.
        let Ok(characters) = i64::try_from(count(bytes.as_slice())) else {
            return Err(AllocError);
        };
        Ok(SharedText {
            inner: Arc::new(alloc, Counted { bytes, characters })?,
        })
    }

    /// The text of a copy of these bytes.
    pub fn from_slice(alloc: Global, bytes: &[u8]) -> Result<SharedText, AllocError>
        ensures { IfOk result (λ text. text ≡ bytes.now) }
    {
        SharedText::from_vec(alloc, Vec::from_slice(alloc, bytes)?)
    }

    /// Its bytes.
    pub fn as_slice(&self) -> &[u8]
        ensures { result.now ≡ self.now }
    {
        self.inner.bytes.as_slice()
    }

    /// How many characters it has.
    pub fn characters(&self) -> i64
        ensures { result ≡ pos (characters self.now) }
    {
        self.inner.characters
    }

    /// The same text, with one more owner. Where as many own it as can be counted, that is want of memory.
    pub fn share(&self) -> Result<SharedText, AllocError>
        ensures { IfOk result (λ text. text ≡ self.now) }
    {
        Ok(SharedText {
            inner: self.inner.clone()?,
        })
    }
}
