// What operands begin with.

ghost use Rattle.std.specs.Prelude.{◌≡◌};
ghost use Rattle.rb_cursor.specs.Class.{class_by};
ghost use Rattle.rb_steps.specs.Begins.{beginning_of};

use rb_cursor::Class;

/// What an operand is, by the class of its first token.
#[derive(Clone, Copy)]
pub enum Beginning {
    /// One token alone.
    Leaf,
    Text,
    Name,
    New,
    Array,
    Hash,
    Group,
    Choice,
    Loop,
    /// No operand.
    Nothing,
}

/// What an operand is that begins with a token of a class.
pub fn beginning_of(class: Class) -> Beginning
    ensures { result ≡ beginning_of (class_by class) }
{
    match class {
        Class::Int => Beginning::Leaf,
        Class::Symbol => Beginning::Leaf,
        Class::NilWord => Beginning::Leaf,
        Class::TrueWord => Beginning::Leaf,
        Class::FalseWord => Beginning::Leaf,
        Class::SelfWord => Beginning::Leaf,
        Class::Field => Beginning::Leaf,
        Class::Global => Beginning::Leaf,
        Class::TextOpen => Beginning::Text,
        Class::Word => Beginning::Name,
        Class::Marked => Beginning::Name,
        Class::Attribute => Beginning::Name,
        Class::New => Beginning::Name,
        Class::Constant => Beginning::New,
        Class::OpenBracket => Beginning::Array,
        Class::OpenBrace => Beginning::Hash,
        Class::OpenParen => Beginning::Group,
        Class::IfWord => Beginning::Choice,
        Class::UnlessWord => Beginning::Choice,
        Class::WhileWord => Beginning::Loop,
        Class::UntilWord => Beginning::Loop,
        _ => Beginning::Nothing,
    }
}
