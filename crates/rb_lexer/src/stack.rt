// The modes in which reading stands.

ghost use Rattle.std.specs.Prelude.{◌≡◌, ℕ, [], ◌∷◌, OnOk, IfOk, IfErr, Bool, length, ◌+◌, ◌≤◌};
ghost use Rattle.rb_lexer.specs.Turns.{IsTurn, IsStack, after, spaced_in};
ghost use Rattle.rb_lexer.specs.Stack.{modes_of};
ghost use Rattle.rb_lexer.specs.Tokens.{max_source};
ghost use Rattle.rb_lexer.specs.declared.mode.Mode.TheVariants.{Code};

use crate::fault::LexFault;
use crate::mode::Mode;
use crate::turn::{Change, Turn, code_turn, text_turn};
use std::alloc::{AllocError, Global};

/// The modes, the innermost apart from those below it.
#[derive(Drop)]
pub(crate) struct Modes {
    innermost: Mode,
    below: Vec<Mode>,
}

impl Modes {
    /// Code that stands in no text.
    pub(crate) fn new(alloc: Global) -> Modes
        ensures { modes_of result ≡ Code 0 ∷ [] }
    {
        Modes {
            innermost: Mode::Code(0),
            below: Vec::new(alloc),
        }
    }

    /// The turn at the front of bytes.
    pub(crate) fn turn(&self, alloc: Global, at: usize, bytes: &[u8]) -> Result<Turn, AllocError>
        requires stack { IsStack at (modes_of self.now) }
        requires small { at + length bytes.now ≤ max_source }
        ensures { IfOk result (λ turn. (spaced : Bool) → IsTurn (modes_of self.now) at spaced bytes.now turn) }
    {
        let below = self.below.as_slice();
        match self.innermost {
            Mode::Code(braces) => code_turn(alloc, braces, below, at, bytes),
            Mode::Text(quote, opened) => text_turn(alloc, quote, opened, below, at, bytes),
        }
    }

    /// Whether white space before a token counts here. In a text it belongs to the text.
    pub(crate) fn spaced(&self, spaced: bool) -> bool
        ensures { result ≡ spaced_in (modes_of self.now) spaced }
    {
        match self.innermost {
            Mode::Code(_) => spaced,
            Mode::Text(..) => false,
        }
    }

    /// Follows what a turn does to the modes.
    pub(crate) fn follow(&mut self, change: Change) -> Result<(), LexFault>
        requires { after change (modes_of self.old) ≡ [] → ⊥ }
        ensures ok { OnOk result (modes_of self.new ≡ after change (modes_of self.old)) }
        ensures memory { IfErr result (λ fault. fault ≡ LexFault.Memory) }
    {
        match change {
            Change::Become(mode) => self.innermost = mode,
            Change::Enter(mode) => {
                self.below.push(self.innermost)?;
                self.innermost = mode;
            }
            Change::Leave => match self.below.pop() {
                Some(mode) => self.innermost = mode,
                None => unreachable!(),
            },
        }
        Ok(())
    }
}
