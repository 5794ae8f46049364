// Texts, arrays and hashes.

ghost use Rattle.std.specs.Prelude.{◌≡◌, [], ◌∷◌, ◌++◌, List, OnOk, OnErr, Err};
ghost use Rattle.rb_cursor.specs.declared.fault.ParseFault.TheVariants.{Memory};
ghost use Rattle.rb_grammar.specs.Tree as tree;
ghost use Rattle.rb_builder.specs.Grown.{IsTree, IsRow, Builds};
ghost use Rattle.rb_builder.specs.Literal.{ArePieces, ArePairs};
ghost use Rattle.rb_builder.specs.Builder.{walk_of};

use crate::builder::Builder;
use crate::grown::{Grown, Row};
use crate::said::Said;
use rb_cursor::ParseFault;
use rb_tree::{Items, Node, Piece, Span};

/// The pieces of a text, with the height of the highest code among them and what it says.
#[derive(Drop)]
pub struct PieceRow<'t> {
    pub height: u32,
    pub pieces: Items<Piece>,
    pub said: Said<'t>,
}

/// The pairs of a hash, with the height of the highest node among them and what they say.
#[derive(Drop)]
pub struct PairRow<'t> {
    pub height: u32,
    pub pairs: Items<(Node, Node)>,
    pub said: Said<'t>,
}

impl<'n> Builder<'n> {
    /// No pieces.
    pub fn pieces<'t>(&self) -> PieceRow<'t>
        ensures { ArePieces (walk_of self.now) result [] }
    {
        PieceRow {
            height: 0,
            pieces: Items::new(self.alloc),
            said: Said::new(self.alloc),
        }
    }

    /// Adds bytes behind other pieces.
    pub fn push_bytes(&self, row: &mut PieceRow<'_>, text: &[u8]) -> Result<(), ParseFault>
        ensures ok { OnOk result ((trees : List tree.PieceTree) → ArePieces (walk_of self.now) row.old trees → ArePieces (walk_of self.now) row.new (trees ++ tree.bytes text.now ∷ [])) }
        ensures memory { OnErr result (result ≡ Err Memory) }
    {
        if self.numbers.is_some() {
            let text = Items::from_slice(self.alloc, text)?;
            row.pieces.push(Piece::Text(text))?;
        }
        Ok(())
    }

    /// Adds code behind other pieces.
    pub fn push_code<'t>(&self, row: &mut PieceRow<'t>, grown: Grown<'t>) -> Result<(), ParseFault>
        ensures ok { OnOk result ((trees : List tree.PieceTree) (a : tree.Tree) → ArePieces (walk_of self.now) row.old trees → IsTree (walk_of self.now) grown.entry a → ArePieces (walk_of self.now) row.new (trees ++ tree.code a ∷ [])) }
        ensures memory { OnErr result (result ≡ Err Memory) }
    {
        let Grown {
            height,
            node,
            said,
            ..
        } = grown;
        row.height = row.height.max(height);
        self.keep(&mut row.pieces, Piece::Code(node.into_inner()))?;
        row.said.join(said)?;
        Ok(())
    }

    /// A text.
    pub fn string<'t>(&self, at: Span, pieces: PieceRow<'t>) -> Result<Grown<'t>, ParseFault>
        ensures { (trees : List tree.PieceTree) → ArePieces (walk_of self.now) pieces.entry trees → Builds (walk_of self.now) (tree.string at trees) result }
    {
        let PieceRow {
            height,
            pieces,
            said,
        } = pieces;
        self.branch(at, height, said, Node::Str(pieces, at))
    }

    /// `[a, b]`
    pub fn array<'t>(&self, at: Span, items: Row<'t>) -> Result<Grown<'t>, ParseFault>
        ensures { (trees : List tree.Tree) → IsRow (walk_of self.now) items.entry trees → Builds (walk_of self.now) (tree.array at trees) result }
    {
        let Row {
            height,
            nodes,
            said,
        } = items;
        self.branch(at, height, said, Node::Array(nodes, at))
    }

    /// No pairs.
    pub fn pairs<'t>(&self) -> PairRow<'t>
        ensures { ArePairs (walk_of self.now) result [] }
    {
        PairRow {
            height: 0,
            pairs: Items::new(self.alloc),
            said: Said::new(self.alloc),
        }
    }

    /// Adds a pair behind others.
    pub fn push_pair<'t>(
        &self,
        row: &mut PairRow<'t>,
        key: Grown<'t>,
        value: Grown<'t>,
    ) -> Result<(), ParseFault>
        ensures ok { OnOk result ((trees : List (tree.Tree × tree.Tree)) (a b : tree.Tree) → ArePairs (walk_of self.now) row.old trees → IsTree (walk_of self.now) key.entry a → IsTree (walk_of self.now) value.entry b → ArePairs (walk_of self.now) row.new (trees ++ (a, b) ∷ [])) }
        ensures memory { OnErr result (result ≡ Err Memory) }
    {
        let Grown {
            height,
            node: key,
            said,
            ..
        } = key;
        let Grown {
            height: other,
            node: value,
            said: behind,
            ..
        } = value;
        let pair = height.max(other);
        row.height = row.height.max(pair);
        self.keep(&mut row.pairs, (key.into_inner(), value.into_inner()))?;
        row.said.join(said)?;
        row.said.join(behind)?;
        Ok(())
    }

    /// `{a => b}`
    pub fn hash<'t>(&self, at: Span, pairs: PairRow<'t>) -> Result<Grown<'t>, ParseFault>
        ensures { (trees : List (tree.Tree × tree.Tree)) → ArePairs (walk_of self.now) pairs.entry trees → Builds (walk_of self.now) (tree.hash at trees) result }
    {
        let PairRow {
            height,
            pairs,
            said,
        } = pairs;
        self.branch(at, height, said, Node::Hash(pairs, at))
    }
}
