// Which identifiers are locals.

ghost use Rattle.std.specs.Prelude.{◌≡◌, [], ◌∷◌, ◌++◌, ◌<◌, true, false, length, OnOk, IfOk, OnErr, List, ℕ};
ghost use Rattle.rb_tree.specs.Texts.{with_text};
ghost use Rattle.rb_grammar.specs.Scope as spec;
ghost use Rattle.rb_cursor.specs.Scopes.{scopes_within};

use crate::fault::ParseFault;
use rb_tree::{Items, Names};
use std::alloc::Global;
use std::marker::Model;

/// The locals of one scope. That of a method sees no other, that of a block sees those round it.
#[derive(Drop)]
pub struct Frame {
    is_method: bool,
    names: Names,
}

/// The scopes at a place in the text. Contracts see them with the innermost first.
#[derive(Drop)]
pub struct Scopes {
    alloc: Global,
    /// The innermost is the last.
    frames: Items<Frame>,
}

impl Model for Scopes {
    ghost use Rattle.std.specs.Prelude.{[], List};
    ghost use Rattle.rb_grammar.specs.Scope.{Scope};
    ghost use Rattle.rb_cursor.specs.Scopes.{scopes_within};

    ghost Value = { Scope };

    ghost view = { λ s. scopes_within [] s.frames };
}

impl Scopes {
    /// No scope.
    pub fn new(alloc: Global) -> Scopes
        ensures { result ≡ [] }
    {
        Scopes {
            alloc,
            frames: Items::new(alloc),
        }
    }

    /// Whether a name is a local here.
    pub fn is_local(&self, text: &[u8]) -> bool
        ensures { result ≡ spec.is_local text.now self.now }
    {
        is_local_within(self.frames.as_slice(), text)
    }

    /// Begins the scope of a method.
    #[tactic(auto, using(crate::proofs::ScopeLemmas::scope_steps))]
    pub fn enter_method(&mut self) -> Result<(), ParseFault>
        ensures ok { OnOk result (self.new ≡ spec.enter_method self.old) }
        ensures memory { OnErr result (result ≡ Err ParseFault.Memory) }
    {
        self.frames.push(Frame {
            is_method: true,
            names: Names::new(self.alloc),
        })?;
        Ok(())
    }

    /// Begins the scope of a block.
    #[tactic(auto, using(crate::proofs::ScopeLemmas::scope_steps))]
    pub fn enter_block(&mut self) -> Result<(), ParseFault>
        ensures ok { OnOk result (self.new ≡ spec.enter_block self.old) }
        ensures memory { OnErr result (result ≡ Err ParseFault.Memory) }
    {
        self.frames.push(Frame {
            is_method: false,
            names: Names::new(self.alloc),
        })?;
        Ok(())
    }

    /// Ends the innermost scope.
    #[tactic(auto, using(crate::proofs::ScopeLemmas::scope_steps))]
    pub fn leave(&mut self)
        ensures { self.new ≡ spec.leave self.old }
    {
        self.frames.pop();
    }

    /// Makes a name a local of the innermost scope. `Memory` also where that scope has as many names as can be numbered.
    #[tactic(auto, using(crate::proofs::ScopeLemmas::scope_steps))]
    pub fn add(&mut self, text: &[u8]) -> Result<(), ParseFault>
        ensures ok { OnOk result (self.new ≡ spec.with_local text.now self.old) }
        ensures memory { OnErr result (result ≡ Err ParseFault.Memory) }
    {
        if let Some(mut inner) = self.frames.pop() {
            inner.add(text)?;
            self.frames.push(inner)?;
        }
        Ok(())
    }
}

impl Frame {
    fn add(&mut self, text: &[u8]) -> Result<(), ParseFault>
        ensures kind { self.new.is_method ≡ self.old.is_method }
        ensures ok { OnOk result (self.new.names ≡ with_text self.old.names text.now) }
        ensures memory { OnErr result (result ≡ Err ParseFault.Memory) }
    {
        if self.names.len() >= 4_294_967_295 {
            return Err(ParseFault::Memory);
        }
        self.names.add(text)?;
        Ok(())
    }
}

/// Whether a name is a local in these scopes, of which the last is the innermost.
#[tactic(auto, using(crate::proofs::ScopeLemmas::scope_steps))]
fn is_local_within(frames: &[Frame], text: &[u8]) -> bool
    ensures { result ≡ spec.is_local text.now (scopes_within [] frames.now) }
{
    let Some((inner, outer)) = frames.split_last() else {
        return false;
    };
    if inner.names.find(text).is_some() {
        return true;
    }
    !inner.is_method && is_local_within(outer, text)
}
