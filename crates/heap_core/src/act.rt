// The call that a step is for.

use rb_model::{Call, Moved};

/// The call for which words are taken or a step makes an entry: its step, and the things that move with it. Where its reply is a string, the
/// address of that string's block.
#[derive(Clone, Copy)]
pub struct Act<'a> {
    pub step: u64,
    pub call: &'a Call,
    pub moved: &'a Moved,
    pub text: Option<u64>,
}
