// What trees are made with.

ghost use Rattle.std.specs.Prelude.{◌≡◌, [], ◌∷◌, ◌++◌, List, OnOk, OnErr, IfOk, Err};
ghost use Rattle.rb_cursor.specs.declared.fault.ParseFault.TheVariants.{Memory};
ghost use Rattle.rb_grammar.specs.Tree as tree;
ghost use Rattle.rb_builder.specs.Walk.{Walk};
ghost use Rattle.rb_builder.specs.Said.{IsSaid, text_given};
ghost use Rattle.rb_builder.specs.Grown.{IsTree, IsRow, Builds, IsBranch, Keeps, Made};
ghost use Rattle.rb_builder.specs.Builder.{walk_of};
ghost use Rattle.rb_builder.specs.Numbers.{numbers_of};

use crate::grown::{Grown, Row};
use crate::numbers::Numbers;
use crate::said::Said;
use crate::word::Given;
use rb_cursor::ParseFault;
use rb_tree::{Boxed, Items, NameId, Node, Span};
use std::alloc::Global;

/// How high a node may be.
const MAX_HEIGHT: u32 = 64;

/// Makes trees, with numbers where it has them. Without numbers it gathers names and threads, and its nodes are of no use.
#[derive(Clone, Copy)]
pub struct Builder<'n> {
    pub(crate) alloc: Global,
    pub(crate) numbers: Option<&'n Numbers>,
}

impl<'n> Builder<'n> {
    /// For the first walk.
    pub fn gathering(alloc: Global) -> Builder<'n>
        ensures { walk_of result ≡ Walk.gathering }
    {
        Builder {
            alloc,
            numbers: None,
        }
    }

    /// For the second walk.
    pub fn numbering(alloc: Global, numbers: &'n Numbers) -> Builder<'n>
        ensures { walk_of result ≡ Walk.numbering (numbers_of numbers.now) }
    {
        Builder {
            alloc,
            numbers: Some(numbers),
        }
    }

    /// A tree whose highest child is so high.
    pub(crate) fn branch<'t>(
        &self,
        at: Span,
        highest: u32,
        said: Said<'t>,
        node: Node,
    ) -> Result<Grown<'t>, ParseFault>
        ensures { (w : Walk) (a : tree.Tree) → IsBranch w at highest said.entry node a → Builds w a result }
    {
        if highest >= MAX_HEIGHT {
            return Err(ParseFault::TooNested(at.from));
        }
        let node = Boxed::new(self.alloc, node)?;
        Ok(Grown {
            at,
            height: highest + 1,
            node,
            said,
        })
    }

    /// Adds a name that a token gives, on the first walk.
    pub(crate) fn gather<'t>(&self, said: &mut Said<'t>, given: Given<'t>) -> Result<(), ParseFault>
        ensures ok { OnOk result ((names : List tree.Word) (threads : List tree.Thread) (w : tree.Word) → w.text ≡ text_given given.entry → IsSaid (walk_of self.now) said.old names threads → IsSaid (walk_of self.now) said.new (names ++ w ∷ []) threads) }
        ensures memory { OnErr result (result ≡ Err Memory) }
    {
        if self.numbers.is_none() {
            said.words.push(given)?;
        }
        Ok(())
    }

    /// Adds what is made behind the rest, on the second walk.
    pub(crate) fn keep<T: Drop>(&self, items: &mut Items<T>, item: T) -> Result<(), ParseFault>
        ensures ok { OnOk result (Keeps (walk_of self.now) item items.old items.new) }
        ensures memory { OnErr result (result ≡ Err Memory) }
    {
        if self.numbers.is_some() {
            items.push(item)?;
        }
        Ok(())
    }

    /// The number of a name that a token gives, where there are numbers.
    pub(crate) fn number(&self, given: Given<'_>) -> Result<NameId, ParseFault>
        ensures ok { IfOk result (λ id. Made (walk_of self.now) id (λ n. n.name (text_given given.entry))) }
        ensures memory { OnErr result (result ≡ Err Memory) }
    {
        match self.numbers {
            None => Ok(NameId(0)),
            Some(numbers) => numbers.given(given),
        }
    }

    /// The number of a name, where there are numbers.
    pub(crate) fn name(&self, text: &[u8]) -> NameId
        ensures { Made (walk_of self.now) result (λ n. n.name text.now) }
    {
        match self.numbers {
            None => NameId(0),
            Some(numbers) => numbers.name(text),
        }
    }

    /// The number of the body of the thread whose block stands at a place, where there are numbers.
    pub(crate) fn body(&self, at: Span) -> u32
        ensures { Made (walk_of self.now) result (λ n. n.body at) }
    {
        match self.numbers {
            None => 0,
            Some(numbers) => numbers.body(at),
        }
    }

    /// What a text says that gives one name.
    pub(crate) fn giving<'t>(&self, given: Given<'t>) -> Result<Said<'t>, ParseFault>
        ensures ok { IfOk result (λ said. (w : tree.Word) → w.text ≡ text_given given.entry → IsSaid (walk_of self.now) said (w ∷ []) []) }
        ensures memory { OnErr result (result ≡ Err Memory) }
    {
        let mut said = Said::new(self.alloc);
        self.gather(&mut said, given)?;
        Ok(said)
    }

    /// No trees.
    pub fn row<'t>(&self) -> Row<'t>
        ensures { IsRow (walk_of self.now) result [] }
    {
        Row {
            height: 0,
            nodes: Items::new(self.alloc),
            said: Said::new(self.alloc),
        }
    }

    /// Adds a tree behind others.
    pub fn push<'t>(&self, row: &mut Row<'t>, grown: Grown<'t>) -> Result<(), ParseFault>
        ensures ok { OnOk result ((trees : List tree.Tree) (a : tree.Tree) → IsRow (walk_of self.now) row.old trees → IsTree (walk_of self.now) grown.entry a → IsRow (walk_of self.now) row.new (trees ++ a ∷ [])) }
        ensures memory { OnErr result (result ≡ Err Memory) }
    {
        let Grown {
            height,
            node,
            said,
            ..
        } = grown;
        row.height = row.height.max(height);
        self.keep(&mut row.nodes, node.into_inner())?;
        row.said.join(said)?;
        Ok(())
    }

    /// One tree alone.
    pub fn only<'t>(&self, grown: Grown<'t>) -> Result<Row<'t>, ParseFault>
        ensures ok { IfOk result (λ row. (a : tree.Tree) → IsTree (walk_of self.now) grown.entry a → IsRow (walk_of self.now) row (a ∷ [])) }
        ensures memory { OnErr result (result ≡ Err Memory) }
    {
        let mut row = self.row();
        self.push(&mut row, grown)?;
        Ok(row)
    }
}
