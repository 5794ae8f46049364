//! The values that a byte has room for.

/// Nil or a truth value, as a container can store it in a byte.
#[derive(Clone, Copy, PartialEq, Eq, Debug)]
pub enum Flag {
    Nil,
    False,
    True,
}
