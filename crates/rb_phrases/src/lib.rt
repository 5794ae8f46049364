//! The phrases of the grammar, as a parser reads them: a method for each, on the tokens that are left.
#![tactic(auto)]

mod arms;
mod call;
mod control;
mod expression;
mod leaf;
mod literal;
mod operand;
mod parser;
mod script;
mod statement;

pub use parser::Parser;
