//! The words of typed locations: what one word of 64 bits holds, in a place for integers alone and in a place for any value.
#![tactic(auto)]

mod element;
mod flag;
mod general_place;
mod integer_place;
mod laws;
#[cfg(test)]
mod tests;

pub use element::Item;
pub use flag::Flag;
pub use general_place::{Any, from_any_word, is_address, to_any_word};
pub use integer_place::{SMALL_MAX, SMALL_MIN, from_int_word, is_small, to_int_word};
pub use laws::{one_int_word, one_word, words_fit};
