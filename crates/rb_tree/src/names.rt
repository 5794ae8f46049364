// The names of a script.

ghost use Rattle.std.specs.Prelude.{◌≡◌, ◌<◌, ℕ, [], Some, None, length, slice_get, OnOk, OnErr, IfOk};
ghost use Rattle.rb_tree.specs.Texts.{number_of, with_text, AreDifferent};

use crate::span::NameId;
use indexmap::IndexSet;
use std::alloc::{AllocError, Global};
use std::marker::Model;

/// The different names of a script, each with a number. Contracts see them as the list of their texts, of which no two are
/// the same: what reads the names says so.
#[derive(Drop)]
pub struct Names {
    alloc: Global,
    texts: IndexSet<Vec<u8>>,
}

impl Model for Names {
    ghost use Rattle.std.specs.Prelude.{List, ℕ, map, ◌≤◌, length};
    ghost use Rattle.rb_tree.specs.Texts.{AreDifferent};

    ghost Value = { List (List ℕ) };

    ghost view = { λ n. map (λ t. t.items) n.texts.keys };

    // The number of every name fits a `NameId`, and no text is there twice.
    ghost invariant = { λ n. (length n.texts.keys ≤ 4294967295) × AreDifferent (map (λ t. t.items) n.texts.keys) };
}

impl Names {
    /// No names. Later ones are kept in memory that `alloc` gives.
    pub fn new(alloc: Global) -> Names
        ensures { result ≡ [] }
    {
        Names {
            alloc,
            texts: IndexSet::new(alloc),
        }
    }

    /// How many names there are.
    pub fn len(&self) -> usize
        ensures len { result ≡ length self.now }
        ensures different { AreDifferent self.now }
    {
        self.texts.len()
    }

    /// The text of a name.
    pub fn text(&self, id: NameId) -> &[u8]
        requires { id.0 < length self.now }
        ensures text { slice_get self.now id.0 ≡ Some result.now }
        // It is the text of no other name.
        ensures number { number_of result.now self.now ≡ Some id }
        ensures different { AreDifferent self.now }
    {
        self.texts[id.0 as usize].as_slice()
    }

    /// The name of this text, where there is one.
    pub fn find(&self, text: &[u8]) -> Option<NameId>
        ensures found { result ≡ number_of text.now self.now }
        ensures different { AreDifferent self.now }
    {
        let at = self.texts.get_index_of(text)?;
        Some(NameId(at as u32))
    }

    /// The name of this text, which is added at the end where it is not there.
    pub fn add(&mut self, text: &[u8]) -> Result<NameId, AllocError>
        requires { length self.old < 4294967295 }
        ensures id { IfOk result (λ id. Some id ≡ number_of text.now self.new) }
        ensures added { OnOk result (self.new ≡ with_text self.old text.now) }
        ensures err { OnErr result (self.new ≡ self.old) }
        ensures different { AreDifferent self.new }
    {
        if let Some(at) = self.texts.get_index_of(text) {
            return Ok(NameId(at as u32));
        }
        let copy = Vec::from_slice(self.alloc, text)?;
        let (at, _) = self.texts.insert_full(copy)?;
        Ok(NameId(at as u32))
    }
}
