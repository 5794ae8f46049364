//! The laws of the words.

ghost use Rattle.typed_location.specs.Laws as law;

/// No two values that fit have one general word, so reading a word gives back the value that was written.
pub fn one_word()
    ensures { law.HasOneWord }
{}

/// The general word of a value that fits has 64 bits.
pub fn words_fit()
    ensures { law.HasRoom }
{}

/// No two integers have one word of an integer place.
pub fn one_int_word()
    ensures { law.HasOneIntWord }
{}
