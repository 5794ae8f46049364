//! The resolved tree, which the walk runs on: locals by their slots, methods by their numbers, those of receivers by a table. Each node
//! says which node of the syntax tree it stands for.
#![tactic(auto)]

mod code;
mod scripted;

pub use code::{BuiltinClass, Code, CodeBlock, CodePiece};
pub use scripted::{CodeBody, CodeClass, CodeMethod, CodeScript, Found};
