// What the text of trees says beside their nodes.

ghost use Rattle.std.specs.Prelude.{◌≡◌, [], ◌++◌, ◌∷◌, OnOk, OnErr, Err};
ghost use Rattle.rb_builder.specs.Said.{Joined};
ghost use Rattle.rb_cursor.specs.declared.fault.ParseFault.TheVariants.{Memory};

use crate::word::Given;
use rb_cursor::ParseFault;
use rb_tree::{Block, Items};
use std::alloc::Global;

/// The names that tokens give, the places of the blocks of threads, and the bodies of threads, each in the order of the
/// text. The first walk keeps the names and the places, the second the bodies.
#[derive(Drop)]
pub struct Said<'t> {
    pub words: Items<Given<'t>>,
    pub threads: Items<u32>,
    pub bodies: Items<Block>,
}

impl<'t> Said<'t> {
    /// Nothing.
    pub fn new(alloc: Global) -> Said<'t>
        ensures words { result.words ≡ [] }
        ensures threads { result.threads ≡ [] }
        ensures bodies { result.bodies ≡ [] }
    {
        Said {
            words: Items::new(alloc),
            threads: Items::new(alloc),
            bodies: Items::new(alloc),
        }
    }

    /// Adds what another text says, which stands behind.
    pub fn join(&mut self, more: Said<'t>) -> Result<(), ParseFault>
        ensures ok { OnOk result (Joined self.old more.entry self.new) }
        ensures memory { OnErr result (result ≡ Err Memory) }
    {
        let Said {
            words,
            threads,
            bodies,
        } = more;
        self.words.append(words)?;
        self.threads.append(threads)?;
        self.bodies.append(bodies)?;
        Ok(())
    }
}
