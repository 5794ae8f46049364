// The names of built-in methods.

ghost use Rattle.std.specs.Prelude.{◌≡◌};
ghost use Rattle.rb_builtin.specs.Names as spec;

/// A built-in method, by its name. Which values have it, the table says.
#[derive(Clone, Copy, Debug, PartialEq, Eq)]
pub enum Builtin {
    /// `==`
    Equal,
    /// `nil?`
    IsNil,
    /// `to_s`
    ToS,
    /// `inspect`
    Inspect,
    /// `+`
    Plus,
    /// `-`
    Minus,
    /// `*`
    Times,
    /// `/`
    Over,
    /// `%`
    Modulo,
    /// `-@`
    Negate,
    /// `<`
    Less,
    /// `<=`
    AtMost,
    /// `>`
    More,
    /// `>=`
    AtLeast,
    /// `times`
    TimesLoop,
    /// `upto`
    Upto,
    /// `length`
    Length,
    /// `[]`
    Index,
    /// `[]=`
    SetIndex,
    /// `<<`
    Append,
    /// `push`
    Push,
    /// `unshift`
    Unshift,
    /// `pop`
    Pop,
    /// `shift`
    Shift,
    /// `delete_at`
    DeleteAt,
    /// `first`
    First,
    /// `last`
    Last,
    /// `size`
    Size,
    /// `empty?`
    IsEmpty,
    /// `clear`
    Clear,
    /// `each`
    Each,
    /// `each_with_index`
    EachWithIndex,
    /// `map`
    Map,
    /// `select`
    Select,
    /// `delete`
    Delete,
    /// `key?`
    HasKey,
    /// `keys`
    Keys,
    /// `values`
    Values,
    /// `each_pair`
    EachPair,
    /// `lock`
    Lock,
    /// `unlock`
    Unlock,
    /// `synchronize`
    Synchronize,
    /// `join`
    Join,
    /// `value`
    Value,
}

/// The built-in method of this name that needs no other thread, where there is one.
fn plain_builtin_of(name: &[u8]) -> Option<Builtin>
    ensures { result ≡ spec.plain_builtin_of name.now }
{
    match name {
        _ if name == b"==".as_slice() => Some(Builtin::Equal),
        _ if name == b"nil?".as_slice() => Some(Builtin::IsNil),
        _ if name == b"to_s".as_slice() => Some(Builtin::ToS),
        _ if name == b"inspect".as_slice() => Some(Builtin::Inspect),
        _ if name == b"+".as_slice() => Some(Builtin::Plus),
        _ if name == b"-".as_slice() => Some(Builtin::Minus),
        _ if name == b"*".as_slice() => Some(Builtin::Times),
        _ if name == b"/".as_slice() => Some(Builtin::Over),
        _ if name == b"%".as_slice() => Some(Builtin::Modulo),
        _ if name == b"-@".as_slice() => Some(Builtin::Negate),
        _ if name == b"<".as_slice() => Some(Builtin::Less),
        _ if name == b"<=".as_slice() => Some(Builtin::AtMost),
        _ if name == b">".as_slice() => Some(Builtin::More),
        _ if name == b">=".as_slice() => Some(Builtin::AtLeast),
        _ if name == b"times".as_slice() => Some(Builtin::TimesLoop),
        _ if name == b"upto".as_slice() => Some(Builtin::Upto),
        _ if name == b"length".as_slice() => Some(Builtin::Length),
        _ if name == b"[]".as_slice() => Some(Builtin::Index),
        _ if name == b"[]=".as_slice() => Some(Builtin::SetIndex),
        _ if name == b"<<".as_slice() => Some(Builtin::Append),
        _ if name == b"push".as_slice() => Some(Builtin::Push),
        _ if name == b"unshift".as_slice() => Some(Builtin::Unshift),
        _ if name == b"pop".as_slice() => Some(Builtin::Pop),
        _ if name == b"shift".as_slice() => Some(Builtin::Shift),
        _ if name == b"delete_at".as_slice() => Some(Builtin::DeleteAt),
        _ if name == b"first".as_slice() => Some(Builtin::First),
        _ if name == b"last".as_slice() => Some(Builtin::Last),
        _ if name == b"size".as_slice() => Some(Builtin::Size),
        _ if name == b"empty?".as_slice() => Some(Builtin::IsEmpty),
        _ if name == b"clear".as_slice() => Some(Builtin::Clear),
        _ if name == b"each".as_slice() => Some(Builtin::Each),
        _ if name == b"each_with_index".as_slice() => Some(Builtin::EachWithIndex),
        _ if name == b"map".as_slice() => Some(Builtin::Map),
        _ if name == b"select".as_slice() => Some(Builtin::Select),
        _ if name == b"delete".as_slice() => Some(Builtin::Delete),
        _ if name == b"key?".as_slice() => Some(Builtin::HasKey),
        _ if name == b"keys".as_slice() => Some(Builtin::Keys),
        _ if name == b"values".as_slice() => Some(Builtin::Values),
        _ if name == b"each_pair".as_slice() => Some(Builtin::EachPair),
        _ => None,
    }
}

/// The built-in method of this name, where there is one: first those of mutexes and threads, which may wait for another thread.
pub fn builtin_of(name: &[u8]) -> Option<Builtin>
    ensures { result ≡ spec.builtin_of name.now }
{
    match name {
        _ if name == b"lock".as_slice() => Some(Builtin::Lock),
        _ if name == b"unlock".as_slice() => Some(Builtin::Unlock),
        _ if name == b"synchronize".as_slice() => Some(Builtin::Synchronize),
        _ if name == b"join".as_slice() => Some(Builtin::Join),
        _ if name == b"value".as_slice() => Some(Builtin::Value),
        _ => plain_builtin_of(name),
    }
}
