//! The methods that values have: found by a number that is made once for a name, and answered as the table of the reference machine
//! says.
#![tactic(auto)]

mod builtin;
mod deed;
mod integer;

pub use builtin::{Builtin, builtin_of};
pub use deed::{Behind, Deed, Loop, Pass, Purpose, deed_of};
pub use integer::{IntegerAnswer, integer_operation, is_operation};
