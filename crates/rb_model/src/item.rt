// Values as items of a list that may store raw integers, and nil and truth values in a byte each.

use crate::value::Value;
use std::alloc::AllocError;
use typed_location::{Flag, Item};

impl Item for Value {
    ghost use Rattle.std.specs.Prelude.{ℤ};
    ghost use Rattle.rb_model.specs.declared.value.Value.TheVariants.{Int};
    ghost use Rattle.rb_model.specs.Values.{is_text, plain};
    ghost use Rattle.rb_model.specs.Integers.{integer_in, known_integer, only_integer};
    ghost use Rattle.rb_model.specs.Flags.{flag_in, value_of, only_value_of};

    ghost int = { Int };

    ghost integer = { integer_in };

    ghost flag = { value_of };

    ghost flag_of = { flag_in };

    ghost counted = { λ v. is_text (plain v) };

    ghost known = { known_integer };

    ghost only = { only_integer };

    ghost only_flag = { only_value_of };

    fn as_int(&self) -> Option<i64> {
        match self {
            Value::Int(n) => Some(*n),
            _ => None,
        }
    }

    #[inline(always)]
    fn of_int(n: i64) -> Value {
        Value::Int(n)
    }

    fn as_flag(&self) -> Option<Flag> {
        match self {
            Value::Nil => Some(Flag::Nil),
            Value::False => Some(Flag::False),
            Value::True => Some(Flag::True),
            _ => None,
        }
    }

    #[inline(always)]
    fn of_flag(value: Flag) -> Value {
        match value {
            Flag::Nil => Value::Nil,
            Flag::False => Value::False,
            Flag::True => Value::True,
        }
    }

    fn copy(&self) -> Result<Value, AllocError> {
        self.share()
    }
}
