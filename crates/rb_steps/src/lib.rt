//! Steps over the tokens of a script that make no trees: operators, marks, line ends, parameters, and what opens.
#![tactic(auto)]

mod beginning;
mod lines;
mod names;
mod nesting;
mod operator;
mod params;
mod sets;

pub use beginning::{Beginning, beginning_of};
pub use lines::{skip_lines, take_then};
pub use names::{integer_of, is_thread, takes_block, word_of};
pub use nesting::open_at;
pub use operator::{Tier, accept_operator, operator_follows, operator_of, operator_word};
pub use params::{MethodHead, begin_block, begin_method, symbols};
pub use sets::{
    accept_allowed, accept_glued, accept_modifier, closing, expect_choice, expect_class,
    expect_identifier, expect_loop, expect_loop_body, is_assignment_mark, is_statement, is_value,
};
