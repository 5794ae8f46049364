//! Places that hold any value, as tagged words.

ghost use Rattle.std.specs.Prelude.{◌≡◌, ◌≢◌, ◌<◌, ◌^◌, ◌%◌, ◌↔◌, IsTrue, IfSome, IfNone};
ghost use Rattle.typed_location.specs.Word.{word_of, Fits, tagged as tagged_word};
ghost use Rattle.typed_location.specs.declared.general_place.Any.{Any};

const TAG_BITS: u32 = 3;

const TAG_MASK: u64 = 7;

const TAG_FIXED: u64 = 0;

const TAG_SMALL: u64 = 1;

const TAG_SYM: u64 = 2;

const TAG_TEXT: u64 = 3;

const TAG_BOXED: u64 = 4;

const TAG_THING: u64 = 5;

const NIL: u64 = 0;

const FALSE: u64 = 1;

const TRUE: u64 = 2;

/// What a general word stands for: a value that is in the word itself, or the address of one.
#[derive(Clone, Copy, PartialEq, Eq, Debug)]
pub enum Any {
    Nil,
    False,
    True,
    /// An integer in the word itself.
    Small(i64),
    /// A symbol, by its number.
    Sym(u32),
    /// The address of a text block.
    Text(u64),
    /// The address of a boxed integer.
    Boxed(u64),
    /// The address of a thing.
    Thing(u64),
}

/// Whether a general word has room for the address.
pub fn is_address(address: u64) -> bool
    ensures { IsTrue result ↔ (address < 2 ^ 61) }
{
    address >> (u64::BITS - TAG_BITS) == 0
}

/// The general word of a value.
pub fn to_any_word(value: Any) -> u64
    requires { Fits value }
    ensures { result ≡ word_of value }
{
    match value {
        Any::Nil => tagged(TAG_FIXED, NIL),
        Any::False => tagged(TAG_FIXED, FALSE),
        Any::True => tagged(TAG_FIXED, TRUE),
        Any::Small(n) => tagged(TAG_SMALL, n.cast_unsigned()),
        Any::Sym(number) => tagged(TAG_SYM, u64::from(number)),
        Any::Text(address) => tagged(TAG_TEXT, address),
        Any::Boxed(address) => tagged(TAG_BOXED, address),
        Any::Thing(address) => tagged(TAG_THING, address),
    }
}

/// The value whose general word this is, if there is one.
#[inline(always)]
pub fn from_any_word(word: u64) -> Option<Any>
    ensures found { IfSome result (λ v. Fits v × (word_of v ≡ word)) }
    ensures none { IfNone result ((v : Any) → Fits v → word_of v ≢ word) }
{
    let payload = word >> TAG_BITS;
    match word & TAG_MASK {
        TAG_FIXED => fixed(payload),
        TAG_SMALL => Some(Any::Small(word.cast_signed() >> TAG_BITS)),
        TAG_SYM => u32::try_from(payload).ok().map(Any::Sym),
        TAG_TEXT => Some(Any::Text(payload)),
        TAG_BOXED => Some(Any::Boxed(payload)),
        TAG_THING => Some(Any::Thing(payload)),
        _ => None,
    }
}

// The word with this tag and payload; bits of the payload beyond 61 are lost.
fn tagged(tag: u64, payload: u64) -> u64
    requires { tag < 8 }
    ensures { result ≡ tagged_word tag (payload % 2 ^ 61) }
{
    payload << TAG_BITS | tag
}

// The value with this payload under the tag of nil and the truth values.
#[inline(always)]
fn fixed(payload: u64) -> Option<Any>
    ensures found { IfSome result (λ v. word_of v ≡ tagged_word 0 payload) }
    ensures none { IfNone result (2 < payload) }
{
    match payload {
        NIL => Some(Any::Nil),
        FALSE => Some(Any::False),
        TRUE => Some(Any::True),
        _ => None,
    }
}
