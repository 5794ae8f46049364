// Values that fit into registers.

/// An immediate value, as Ruby calls those that no memory is behind: nil, a truth value or an integer. `Other` stands for any value
/// else, and for none.
#[derive(Clone, Copy, Debug, PartialEq, Eq)]
pub enum Immediate {
    Nil,
    False,
    True,
    Int(i64),
    Other,
}
