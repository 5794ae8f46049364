//! The tokens of a script.
#![tactic(auto)]

mod characters;
mod fault;
mod front;
mod integers;
mod keywords;
mod lexer;
mod marks;
mod mode;
mod newline;
mod part;
mod reader;
mod stack;
mod token;
mod turn;
mod words;

pub use fault::LexFault;
pub use lexer::lex;
pub use token::{Keyword, Mark, Token, TokenKind};
