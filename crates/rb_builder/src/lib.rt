//! Trees as a parser makes them: nodes with their heights and with what their text says, the names that its tokens give and
//! the bodies of its threads. A parser walks twice over the tokens. On the first walk the names and the blocks of threads
//! are gathered, on the second, which has their numbers, nodes are made.
#![tactic(auto)]

mod assign;
mod attribute;
mod block;
mod builder;
mod calls;
mod control;
mod grown;
mod grown_target;
mod leaves;
mod literal;
mod numbers;
mod operand;
mod said;
mod script;
mod word;

pub use block::{GrownBlock, GrownParams};
pub use builder::Builder;
pub use grown::{Grown, Row};
pub use leaves::Constant;
pub use literal::{PairRow, PieceRow};
pub use numbers::Numbers;
pub use operand::{Head, Operand, Part, Target};
pub use said::Said;
pub use script::{GrownClass, GrownItems, GrownMembers, GrownMethod};
pub use word::Given;
