//! What the threads of a script read of it.
#![tactic(auto)]

use rb_code::CodeScript;
use rb_tree::Program;

/// The two trees of a script, which any thread may read.
#[derive(Clone, Copy)]
pub struct Shared<'a> {
    pub program: &'a Program,
    pub code: &'a CodeScript,
}
