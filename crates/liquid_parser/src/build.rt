//! Building the list of nodes with a stack of open blocks: where a body ends is written into its
//! block's node as it ends.

ghost use Rattle.std.specs.Prelude.{◌≡◌, ◌<◌, ◌-◌, IfSome, List, [], length, map, slice_get, Some};
ghost use Rattle.std.specs.Prelude.{OnOk, true};
ghost use Rattle.liquid_parser.specs.inside.Building.{Begins, Closes, EndsFirst};
ghost use Rattle.liquid_parser.specs.inside.Building.{Finishes, IsBuilding, IsBuilt, IsFirst};
ghost use Rattle.liquid_parser.specs.inside.Building.{IsMemory, IsPrepared, IsSound, IsStack};
ghost use Rattle.liquid_parser.specs.inside.Building.{AdvancesTo, is_full, statement_view};
ghost use Rattle.liquid_parser.specs.inside.Building.{of_bodies};
ghost use Rattle.liquid_parser.specs.inside.Building.{context_at, opening, takes_else, takes_when};
ghost use Rattle.liquid_parser.specs.inside.Building.{alone, text_added};
ghost use Rattle.liquid_parser.specs.Faults.{FaultsAt};
ghost use Rattle.liquid_syntax.specs.Flats.{flat_of};
ghost use Rattle.liquid_core.specs.ExpressionView.{expression_view};
ghost use Rattle.liquid_parser.specs.OpenBlocks.{Level, at_end, close, statement_step, to_begin};
ghost use Rattle.liquid_parser.specs.OpenBlocks.{to_closed};
ghost use Rattle.liquid_parser.specs.OpenBlocks.{to_else, to_elsif, to_when, with_node};
ghost use Rattle.liquid_evaluation.specs.ChainView.{chain_filter_view};
ghost use Rattle.liquid_evaluation.specs.Tree.{Nodes, filtered, no_nodes};
ghost use Rattle.liquid_parser.specs.declared.build.Stage.TheVariants as stages;

use crate::body_ends::{add_arm, end_body, end_last};
use crate::faults::{missing_end, no_body, too_nested};
use liquid_core::Expression;
use liquid_language::{Block, BlockContext};
use liquid_lexer::ParseError;
use liquid_syntax::{ChainFilter, Node, Position, Template};
use std::alloc::Global;

/// Which body of a block is being read.
#[derive(Clone, Copy, Debug, PartialEq, Eq)]
pub enum Stage {
    /// The first body, before an else list.
    First,
    /// The last body that the block can have.
    Last,
    /// What stands before the first `when` or `else` of a `case`; its nodes are dropped.
    CaseHead,
    /// The body of a `when`.
    WhenBody,
}

/// What a piece is, where it stands. A node with bodies doesn't know yet where they end.
#[derive(Drop)]
pub enum Statement {
    /// A node without bodies.
    Leaf(Node),
    /// A node without bodies, whose text goes through the filters.
    Through(Vec<ChainFilter>, Node),
    /// A block whose body isn't read, as a whole.
    Verbatim(Node),
    /// The start of a block.
    Begins(Block, Stage, Node),
    /// `elsif`, as the `if` that it is in the else list.
    Elsif(Node),
    /// `when`, with its values.
    When(Vec<Expression>),
    /// `else`
    Else,
    /// The end of the innermost block.
    End,
}

/// A block that is open.
#[derive(Clone, Copy)]
pub struct Open {
    /// The index of its node.
    pub node_index: usize,
    pub block: Block,
    pub stage: Stage,
    /// Whether an `elsif` opened it, so that it ends with the block around it.
    pub chained: bool,
}

/// Nodes, and the blocks that are open after them.
#[derive(Drop)]
pub struct Builder {
    pub nodes: Vec<Node>,
    /// The innermost last.
    pub blocks: Vec<Open>,
    /// How deep the blocks nest, to which an `elsif` adds nothing.
    pub depth: usize,
}

/// How deep blocks may nest.
const MAX_DEPTH: usize = 200;

impl Builder {
    pub fn new(alloc: Global) -> Builder
        ensures { IsBuilding result [] no_nodes }
    {
        Builder {
            nodes: Vec::new(alloc),
            blocks: Vec::new(alloc),
            depth: 0,
        }
    }

    /// Where the next piece stands.
    pub fn context(&self) -> BlockContext
        ensures { result ≡
            context_at (slice_get self.now.blocks.items
            (length self.now.blocks.items - 1)) }
    {
        match self.blocks.last() {
            None => BlockContext::Outside,
            Some(open) => match open.stage {
                Stage::First | Stage::CaseHead | Stage::WhenBody => BlockContext::InBody(
                    open.block,
                ),
                Stage::Last => BlockContext::InLast(open.block),
            },
        }
    }

    /// Whether the blocks nest as deep as they may, so that no other may begin.
    pub fn is_full(&self) -> bool
        ensures { result ≡ is_full self.now }
    {
        self.depth >= MAX_DEPTH
    }

    fn leaf(&mut self, node: Node) -> Result<(), ParseError>
        requires { (flat_of node).ends ≡ [] }
        ensures stack { (ls : List Level) (cur : Nodes) → IsBuilding self.old ls cur →
            AdvancesTo (Some (ls, with_node cur ((flat_of node).head []))) self.new result }
        ensures fails { IsMemory result }
    {
        self.nodes.push(node)?;
        Ok(())
    }

    /// A node without bodies, as the body of a node whose text goes through the filters.
    fn through(&mut self, filters: Vec<ChainFilter>, node: Node) -> Result<(), ParseError>
        requires { (flat_of node).ends ≡ [] }
        ensures stack { (ls : List Level) (cur : Nodes) → IsBuilding self.old ls cur →
            AdvancesTo (Some (
              ls,
              with_node cur (filtered (map chain_filter_view filters.items)
                  (alone ((flat_of node).head []))),
            )) self.new result }
        ensures fails { IsMemory result }
    {
        let before = self.nodes.len();
        self.nodes.push(Node::Filtered(filters, before + 2))?;
        self.nodes.push(node)?;
        Ok(())
    }

    /// A text; an empty one is no node.
    pub fn text(&mut self, alloc: Global, text: &str) -> Result<(), ParseError>
        ensures { (ls : List Level) (cur : Nodes) → IsBuilding self.old ls cur →
            AdvancesTo (Some (ls, text_added text.now cur)) self.new result }
    {
        if text.is_empty() {
            return Ok(());
        }
        self.leaf(Node::Text(String::from_str(alloc, text)?))
    }

    /// Opens a block after the nodes.
    fn open(
        &mut self,
        block: Block,
        stage: Stage,
        chained: bool,
        node: Node,
    ) -> Result<(), ParseError>
        ensures depth { OnOk result (self.new.depth ≡ self.old.depth) }
        ensures stack { IsPrepared stage node → OnOk result ((ls : List Level) (cur : Nodes) →
            IsStack self.old ls cur → Begins block stage chained node ls cur self.new) }
        ensures fails { IsMemory result }
    {
        let node_index = self.nodes.len();
        self.nodes.push(node)?;
        self.blocks.push(Open {
            node_index,
            block,
            stage,
            chained,
        })?;
        Ok(())
    }

    /// The end of a body that an `else` may end, and the start of the last. The piece begins
    /// `remaining` bytes before the end of the source.
    fn otherwise(&mut self, remaining: usize) -> Result<(), ParseError>
        requires { IsBuilt self.old }
        ensures stack { (ls : List Level) (cur : Nodes) → IsBuilding self.old ls cur →
            AdvancesTo (to_else ls cur) self.new result }
        ensures place { FaultsAt remaining result }
    {
        match self.blocks.pop() {
            None => Err(ParseError::Fault(no_body(remaining))),
            Some(open) => {
                if !takes_else(open.stage) {
                    return Err(ParseError::Fault(no_body(remaining)));
                }
                end_body(&mut self.nodes, open);
                self.blocks.push(Open {
                    node_index: open.node_index,
                    block: open.block,
                    stage: Stage::Last,
                    chained: open.chained,
                })?;
                Ok(())
            }
        }
    }

    /// `when`: the body of the one before it ends, or the head of the `case`, and its own begins.
    fn when(&mut self, values: Vec<Expression>, remaining: usize) -> Result<(), ParseError>
        requires { IsBuilt self.old }
        ensures stack { (ls : List Level) (cur : Nodes) → IsBuilding self.old ls cur →
            AdvancesTo (to_when (map expression_view values.items) ls cur) self.new result }
        ensures place { FaultsAt remaining result }
    {
        match self.blocks.pop() {
            None => Err(ParseError::Fault(no_body(remaining))),
            Some(open) => {
                if !takes_when(open.stage) {
                    return Err(ParseError::Fault(no_body(remaining)));
                }
                end_body(&mut self.nodes, open);
                add_arm(&mut self.nodes[open.node_index], values)?;
                self.blocks.push(Open {
                    node_index: open.node_index,
                    block: open.block,
                    stage: Stage::WhenBody,
                    chained: open.chained,
                })?;
                Ok(())
            }
        }
    }

    /// The innermost block, where its first body is being read.
    fn first_block(&self) -> Option<Block>
        ensures { (ls : List Level) (cur : Nodes) → IsStack self.now ls cur → IsFirst ls result }
    {
        let open = self.blocks.last()?;
        match open.stage {
            Stage::First => Some(open.block),
            Stage::Last | Stage::CaseHead | Stage::WhenBody => None,
        }
    }

    /// The end of a first body, and the start of the last. It answers the block that they are
    /// bodies of.
    fn end_first(&mut self, remaining: usize) -> Result<Block, ParseError>
        requires { IsBuilt self.old }
        ensures stack { (ls : List Level) (cur : Nodes) → IsBuilding self.old ls cur →
            EndsFirst ls cur self.new result }
        ensures place { FaultsAt remaining result }
    {
        let Some(block) = self.first_block() else {
            return Err(ParseError::Fault(no_body(remaining)));
        };
        self.otherwise(remaining)?;
        Ok(block)
    }

    /// `elsif`: the last body begins, and in it a block that ends with the one around it.
    fn elsif(&mut self, node: Node, remaining: usize) -> Result<(), ParseError>
        requires { IsBuilt self.old }
        ensures stack { IsPrepared stages.First node → (ls : List Level) (cur : Nodes) →
            IsBuilding self.old ls cur →
            AdvancesTo (to_elsif (of_bodies (flat_of node)) ls cur) self.new result }
        ensures place { FaultsAt remaining result }
    {
        match self.end_first(remaining) {
            Ok(block) => self.open(block, Stage::First, true, node),
            Err(error) => {
                drop(node);
                Err(error)
            }
        }
    }

    /// The end of the innermost block: whether an `elsif` opened it.
    fn close_one(&mut self) -> Option<bool>
        requires { (ls : List Level) × (cur : Nodes) × IsStack self.old ls cur }
        ensures closes { (ls : List Level) (cur : Nodes) → IsStack self.old ls cur →
            Closes ls cur self.new result }
        ensures depth { self.new.depth ≡ self.old.depth }
        ensures shorter { IfSome result (λ _. length self.new.blocks.items <
            length self.old.blocks.items) }
    {
        let open = self.blocks.pop()?;
        end_body(&mut self.nodes, open);
        let end = self.nodes.len();
        end_last(&mut self.nodes[open.node_index], end);
        Some(open.chained)
    }

    /// The end of a block. Where an `elsif` opened it, the block around it ends too.
    fn close(&mut self, remaining: usize) -> Result<(), ParseError>
        requires { IsBuilt self.old }
        ensures stack { (ls : List Level) (cur : Nodes) → IsBuilding self.old ls cur →
            AdvancesTo (close true ls cur) self.new result }
        ensures place { FaultsAt remaining result }
    {
        let mut chained = true;
        'chain: while chained {
            match self.close_one() {
                Some(around) => chained = around,
                None => return Err(ParseError::Fault(no_body(remaining))),
            }
        }
        self.depth -= 1;
        Ok(())
    }

    /// A block whose body isn't read, where the blocks around it aren't too deep already.
    fn verbatim(&mut self, node: Node, remaining: usize) -> Result<(), ParseError>
        requires { (flat_of node).ends ≡ [] }
        ensures stack { (ls : List Level) (cur : Nodes) → IsBuilding self.old ls cur →
            AdvancesTo (to_closed ((flat_of node).head []) ls cur) self.new result }
        ensures place { FaultsAt remaining result }
    {
        // the node goes in before the depth is looked at: a fault ends the reading anyhow, and a
        // node that is dropped on a way out takes the prover longer than all else here
        self.leaf(node)?;
        if self.is_full() {
            return Err(too_nested(remaining));
        }
        Ok(())
    }

    /// The start of a block, where the blocks around it aren't too deep already.
    fn begin(
        &mut self,
        block: Block,
        stage: Stage,
        node: Node,
        remaining: usize,
    ) -> Result<(), ParseError>
        ensures stack { IsPrepared stage node → (ls : List Level) (cur : Nodes) →
            IsBuilding self.old ls cur →
            AdvancesTo (to_begin (opening block stage node) ls cur) self.new result }
        ensures place { FaultsAt remaining result }
    {
        // here too the node goes in first
        self.open(block, stage, false, node)?;
        if self.is_full() {
            return Err(too_nested(remaining));
        }
        self.depth += 1;
        Ok(())
    }

    /// Adds the next piece, which begins `remaining` bytes before the end of the source.
    pub fn add(&mut self, statement: Statement, remaining: usize) -> Result<(), ParseError>
        requires built { IsBuilt self.old }
        requires sound { IsSound statement }
        ensures stack { (ls : List Level) (cur : Nodes) → IsBuilding self.old ls cur →
            AdvancesTo (statement_step (statement_view statement) ls cur) self.new result }
        ensures place { FaultsAt remaining result }
    {
        match statement {
            Statement::Leaf(node) => self.leaf(node),
            Statement::Through(filters, node) => self.through(filters, node),
            Statement::Verbatim(node) => self.verbatim(node, remaining),
            Statement::Begins(block, stage, node) => self.begin(block, stage, node, remaining),
            Statement::Elsif(node) => self.elsif(node, remaining),
            Statement::When(values) => self.when(values, remaining),
            Statement::Else => self.otherwise(remaining),
            Statement::End => self.close(remaining),
        }
    }

    /// The template, where no block is open. The positions are those of the nodes.
    pub fn finish(self, positions: Vec<Position>) -> Result<Template, ParseError>
        requires { IsBuilt self }
        ensures { (ls : List Level) (cur : Nodes) → IsBuilding self ls cur →
            Finishes (at_end ls cur) result }
    {
        match self.blocks.last() {
            None => Ok(Template::of_nodes(self.nodes, positions)),
            Some(open) => Err(ParseError::Fault(missing_end(open.block))),
        }
    }
}

/// Whether an `else` may end the body.
fn takes_else(stage: Stage) -> bool
    ensures { result ≡ takes_else stage }
{
    match stage {
        Stage::First => true,
        Stage::Last => false,
        Stage::CaseHead => true,
        Stage::WhenBody => true,
    }
}

/// Whether a `when` may end the body.
fn takes_when(stage: Stage) -> bool
    ensures { result ≡ takes_when stage }
{
    match stage {
        Stage::First => false,
        Stage::Last => false,
        Stage::CaseHead => true,
        Stage::WhenBody => true,
    }
}
