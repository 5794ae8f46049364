// Parameters, blocks, and what has a block.

ghost use Rattle.std.specs.Prelude.{◌≡◌, [], ◌∷◌, ◌++◌, List, map, Some, OnOk, OnErr, IfOk, Err};
ghost use Rattle.rb_cursor.specs.declared.fault.ParseFault.TheVariants.{Memory};
ghost use Rattle.rb_tree.specs.declared.node.Node.TheVariants as node;
ghost use Rattle.rb_grammar.specs.Tree as tree;
ghost use Rattle.rb_cursor.specs.Word.{word_by};
ghost use Rattle.rb_builder.specs.Said.{IsSaid};
ghost use Rattle.rb_builder.specs.Grown.{IsTree, IsRow, Builds, Made};
ghost use Rattle.rb_builder.specs.Block.{AreParams, IsBlock, SaysCall};
ghost use Rattle.rb_builder.specs.Builder.{walk_of};

use crate::builder::Builder;
use crate::grown::{Grown, Row};
use crate::said::Said;
use crate::word::Given;
use rb_cursor::{ParseFault, Word};
use rb_tree::{Block, Boxed, Items, NameId, Node, Param, Span};

/// The parameters of a method or a block with what their text says.
#[derive(Drop)]
pub struct GrownParams<'t> {
    pub params: Items<Param>,
    pub said: Said<'t>,
}

/// A block with its place, the height of the highest node in its body and what its text says.
#[derive(Drop)]
pub struct GrownBlock<'t> {
    pub at: Span,
    pub height: u32,
    pub block: Block,
    pub said: Said<'t>,
}

impl<'n> Builder<'n> {
    /// Parameters.
    pub(crate) fn params<'t>(&self, words: &[Word<'t>]) -> Result<GrownParams<'t>, ParseFault>
        ensures ok { IfOk result (λ p. AreParams (walk_of self.now) p (map word_by words.now)) }
        ensures memory { OnErr result (result ≡ Err Memory) }
    {
        let mut params = GrownParams {
            params: Items::new(self.alloc),
            said: Said::new(self.alloc),
        };
        'words: for word in words {
            self.push_param(&mut params, *word)?;
        }
        Ok(params)
    }

    /// Adds a parameter behind others.
    fn push_param<'t>(&self, params: &mut GrownParams<'t>, word: Word<'t>) -> Result<(), ParseFault>
        ensures ok { OnOk result ((ws : List tree.Word) → AreParams (walk_of self.now) params.old ws → AreParams (walk_of self.now) params.new (ws ++ word_by word.entry ∷ [])) }
        ensures memory { OnErr result (result ≡ Err Memory) }
    {
        self.gather(&mut params.said, Given::Plain(word.text))?;
        let name = self.number(Given::Plain(word.text))?;
        let param = Param { name, at: word.at };
        self.keep(&mut params.params, param)?;
        Ok(())
    }

    /// A block, at its opening `{` or `do`.
    pub fn block<'t>(
        &self,
        at: Span,
        params: &[Word<'t>],
        body: Row<'t>,
    ) -> Result<GrownBlock<'t>, ParseFault>
        ensures ok { IfOk result (λ b. (trees : List tree.Tree) → IsRow (walk_of self.now) body.entry trees → IsBlock (walk_of self.now) b (record { at = at; params = map word_by params.now; body = trees })) }
        ensures memory { OnErr result (result ≡ Err Memory) }
    {
        let GrownParams { params, mut said } = self.params(params)?;
        let Row {
            height,
            nodes,
            said: behind,
        } = body;
        said.join(behind)?;
        let block = Block {
            params,
            body: nodes,
            at,
        };
        Ok(GrownBlock {
            at,
            height,
            block,
            said,
        })
    }

    /// A call of a receiver with a block.
    pub fn call_with_block<'t>(
        &self,
        receiver: Grown<'t>,
        word: Word<'t>,
        args: Row<'t>,
        block: GrownBlock<'t>,
    ) -> Result<Grown<'t>, ParseFault>
        ensures { (a : tree.Tree) (trees : List tree.Tree) (b : tree.BlockTree) → IsTree (walk_of self.now) receiver.entry a → IsRow (walk_of self.now) args.entry trees → IsBlock (walk_of self.now) block.entry b → Builds (walk_of self.now) (tree.call_with_block a (word_by word.entry) trees b) result }
    {
        let Grown {
            height,
            node: receiver,
            said,
            ..
        } = receiver;
        let Row {
            height: other,
            nodes,
            said: behind,
        } = args;
        let GrownBlock {
            height: inside,
            block,
            said: last,
            ..
        } = block;
        let rest = other.max(inside);
        let highest = height.max(rest);
        let said = self.saying_call(said, word, behind, last)?;
        let name = self.name(word.text);
        let node = self.node_with_block(receiver, name, nodes, block, word.at)?;
        self.branch(word.at, highest, said, node)
    }

    /// What a receiver says, the name of its call, and what the arguments and the block say.
    fn saying_call<'t>(
        &self,
        mut said: Said<'t>,
        word: Word<'t>,
        args: Said<'t>,
        block: Said<'t>,
    ) -> Result<Said<'t>, ParseFault>
        ensures ok { IfOk result (λ s. (a : tree.Tree) (trees : List tree.Tree) (b : tree.BlockTree) → IsSaid (walk_of self.now) said.entry a.names a.threads → IsSaid (walk_of self.now) args.entry (tree.names_of trees) (tree.threads_of trees) → IsSaid (walk_of self.now) block.entry (tree.block_names b) (tree.threads_of b.body) → SaysCall (walk_of self.now) s a (word_by word.entry) trees b) }
        ensures memory { OnErr result (result ≡ Err Memory) }
    {
        self.gather(&mut said, Given::Plain(word.text))?;
        said.join(args)?;
        said.join(block)?;
        Ok(said)
    }

    /// The node of a call with a block.
    fn node_with_block(
        &self,
        receiver: Boxed<Node>,
        name: NameId,
        args: Items<Node>,
        block: Block,
        at: Span,
    ) -> Result<Node, ParseFault>
        ensures ok { IfOk result (λ made. made ≡ node.Call (Some receiver) name args (Some block) at) }
        ensures memory { OnErr result (result ≡ Err Memory) }
    {
        let block = Boxed::new(self.alloc, block)?;
        Ok(Node::Call {
            receiver: Some(receiver),
            name,
            args,
            block: Some(block),
            at,
        })
    }

    /// `Thread.new`, at its `new`. Its block is the body of a thread.
    pub fn thread<'t>(
        &self,
        at: Span,
        args: Row<'t>,
        block: GrownBlock<'t>,
    ) -> Result<Grown<'t>, ParseFault>
        ensures { (trees : List tree.Tree) (b : tree.BlockTree) → IsRow (walk_of self.now) args.entry trees → IsBlock (walk_of self.now) block.entry b → Builds (walk_of self.now) (tree.thread_new at trees b) result }
    {
        let Row {
            height,
            nodes,
            mut said,
        } = args;
        let GrownBlock {
            at: place,
            block,
            said: behind,
            ..
        } = block;
        self.push_thread(&mut said, place, block)?;
        said.join(behind)?;
        let body = self.body(place);
        let node = Node::ThreadNew {
            args: nodes,
            body,
            at,
        };
        self.branch(at, height, said, node)
    }

    /// Adds a thread: the place of its block on the first walk, its body on the second.
    fn push_thread<'t>(&self, said: &mut Said<'t>, at: Span, block: Block) -> Result<(), ParseFault>
        ensures ok { OnOk result ((names : List tree.Word) (threads : List tree.Thread) (t : tree.Thread) → t.at ≡ at → Made (walk_of self.now) block t.block → IsSaid (walk_of self.now) said.old names threads → IsSaid (walk_of self.now) said.new names (threads ++ t ∷ [])) }
        ensures memory { OnErr result (result ≡ Err Memory) }
    {
        if self.numbers.is_none() {
            said.threads.push(at.from)?;
            return Ok(());
        }
        said.bodies.push(block)?;
        Ok(())
    }
}
