// Why a script stops with a fault.

ghost use Rattle.std.specs.Prelude.{◌≡◌};
ghost use Rattle.rb_model.specs.Faults.{fault_name};

use std::fmt;

/// A fault of a script, by its name. At one call they are tested in the order in which they stand here.
#[derive(Clone, Copy, Debug, PartialEq, Eq)]
pub enum Fault {
    /// The receiver has no such method.
    NoMethod,
    /// The method takes another number of arguments, or another block.
    ArgumentCount,
    /// An argument is of the wrong class.
    TypeMismatch,
    /// An array or a hash as the key of a hash.
    BadKey,
    ZeroDivision,
    /// A result outside 64 bits.
    IntegerOverflow,
    /// An index before the first element.
    IndexTooSmall,
    /// More than 16,777,216 elements or pairs.
    ArrayTooLong,
    /// More than 16,777,216 bytes in one text.
    TextTooLong,
    /// More than 1,000 nodes under evaluation at once.
    TooDeep,
    /// A thread that waits for its own end.
    JoinSelf,
    /// A mutex that the caller holds already.
    LockOwned,
    /// A mutex that the caller does not hold.
    UnlockForeign,
    /// More threads than there are slots.
    ThreadLimit,
}

impl Fault {
    /// The name of the fault.
    pub fn name(self) -> &'static str
        ensures { result.now ≡ fault_name self }
    {
        match self {
            Fault::NoMethod => "NoMethod",
            Fault::ArgumentCount => "ArgumentCount",
            Fault::TypeMismatch => "TypeMismatch",
            Fault::BadKey => "BadKey",
            Fault::ZeroDivision => "ZeroDivision",
            Fault::IntegerOverflow => "IntegerOverflow",
            Fault::IndexTooSmall => "IndexTooSmall",
            Fault::ArrayTooLong => "ArrayTooLong",
            Fault::TextTooLong => "TextTooLong",
            Fault::TooDeep => "TooDeep",
            Fault::JoinSelf => "JoinSelf",
            Fault::LockOwned => "LockOwned",
            Fault::UnlockForeign => "UnlockForeign",
            Fault::ThreadLimit => "ThreadLimit",
        }
    }
}

impl fmt::Display for Fault {
    fn fmt<W: fmt::Write>(&self, f: &mut fmt::Formatter<W>) -> fmt::Result {
        f.write_str(self.name())
    }
}
