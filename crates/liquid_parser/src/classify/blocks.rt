//! The start of a block and the words between its bodies, by their items.
ghost use Rattle.std.specs.Prelude.{◌≡◌, length};
ghost use Rattle.liquid_lexer.specs.Tokens.{tokens_view};
ghost use Rattle.liquid_parser.specs.Faults.{FaultsAs, FaultsAt};
ghost use Rattle.liquid_language.specs.declared.block.Block.TheVariants as BlockOf;
ghost use Rattle.liquid_parser.specs.declared.build.Stage.TheVariants as StageOf;
ghost use Rattle.liquid_parser.specs.inside.Classifies.{block_start, Classifies, ReadsBlock};
ghost use Rattle.liquid_parser.specs.inside.Classifies.{ReadsTwo};
ghost use Rattle.liquid_parser.specs.Classification.{block_statement, capture_of, case_for};
ghost use Rattle.liquid_parser.specs.Classification.{control_statement, for_of, if_of, many_or};
ghost use Rattle.liquid_parser.specs.Classification.{one_or, rows_of, unless_of};

use super::tags::{BareTag, read_bare, read_word};
use crate::build::{Stage, Statement};
use crate::chain_items::expected_before;
use crate::condition_items::read_condition;
use crate::loop_items::{LoopTag, read_loop};
use crate::value_items::{Separators, read_values};
use liquid_language::{Block, BlockKind, Control};
use liquid_lexer::{Expectation, FaultKind, Item, ParseError, is_over, next_value};
use liquid_syntax::{BodyEnds, For, Node, TableRow};
use std::alloc::Global;
use std::collections::VecDeque;

/// The statement of a block that begins.
pub(super) fn read_block(
    alloc: Global,
    kind: BlockKind,
    items: VecDeque<Item<'_>>,
    at: &str,
) -> Result<Statement, ParseError>
    ensures statement { Classifies (block_statement (tokens_view items.entry.items) kind) result }
    ensures kind { FaultsAs FaultKind.Expected result }
    ensures place { FaultsAt (length at.now) result }
{
    match kind {
        BlockKind::If => begins(Block::If, Stage::First, read_if(alloc, items, at)),
        BlockKind::Unless => begins(Block::Unless, Stage::First, read_unless(alloc, items, at)),
        BlockKind::Capture => begins(Block::Capture, Stage::Last, read_capture(items, at)),
        BlockKind::Case => begins(Block::Case, Stage::CaseHead, read_case(alloc, items, at)),
        BlockKind::IfChanged => read_bare(BareTag::IfChanged, items, at),
        BlockKind::For => begins(Block::For, Stage::First, read_for(alloc, items, at)),
        BlockKind::TableRow => {
            begins(
                Block::TableRow,
                Stage::Last,
                read_table_row(alloc, items, at),
            )
        }
        BlockKind::Raw | BlockKind::Comment => Err(expected_before(at, items, Expectation::Closer)),
    }
}

/// The statement of a block that begins with this node, if the node was read.
fn begins(
    block: Block,
    stage: Stage,
    read: Result<Node, ParseError>,
) -> Result<Statement, ParseError>
    ensures { result ≡ block_start block stage read }
{
    match read {
        Ok(node) => Ok(Statement::Begins(block, stage, node)),
        Err(error) => Err(error),
    }
}

/// The statement of a word between the begin and the end of a block.
pub(super) fn read_control(
    alloc: Global,
    control: Control,
    items: VecDeque<Item<'_>>,
    at: &str,
) -> Result<Statement, ParseError>
    ensures statement { Classifies (control_statement (tokens_view items.entry.items) control)
        result }
    ensures kind { FaultsAs FaultKind.Expected result }
    ensures place { FaultsAt (length at.now) result }
{
    match control {
        Control::Elsif => {
            let node = read_if(alloc, items, at)?;
            Ok(Statement::Elsif(node))
        }
        Control::Else => Ok(Statement::Else),
        Control::BareElse => read_bare(BareTag::Else, items, at),
        Control::When => {
            let values = read_values(alloc, items, Separators::CommasOr, at)?;
            Ok(Statement::When(values))
        }
    }
}

/// The node of an `if` or an `elsif`: a condition, before its bodies are read.
fn read_if(alloc: Global, items: VecDeque<Item<'_>>, at: &str) -> Result<Node, ParseError>
    ensures node { ReadsTwo (if_of (tokens_view items.entry.items)) result }
    ensures kind { FaultsAs FaultKind.Expected result }
    ensures place { FaultsAt (length at.now) result }
{
    let condition = read_condition(alloc, items, at)?;
    Ok(Node::If(condition, BodyEnds::open()))
}

/// The node of an `unless`, before its bodies are read.
fn read_unless(alloc: Global, items: VecDeque<Item<'_>>, at: &str) -> Result<Node, ParseError>
    ensures node { ReadsTwo (unless_of (tokens_view items.entry.items)) result }
    ensures kind { FaultsAs FaultKind.Expected result }
    ensures place { FaultsAt (length at.now) result }
{
    let condition = read_condition(alloc, items, at)?;
    Ok(Node::Unless(condition, BodyEnds::open()))
}

/// The node of a `for`, before its bodies are read.
fn read_for(alloc: Global, items: VecDeque<Item<'_>>, at: &str) -> Result<Node, ParseError>
    ensures node { ReadsTwo (for_of (tokens_view items.entry.items)) result }
    ensures kind { FaultsAs FaultKind.Expected result }
    ensures place { FaultsAt (length at.now) result }
{
    let read = read_loop(items, LoopTag::Each, at)?;
    let head = For {
        variable: read.variable,
        source: read.source,
        window: read.window,
    };
    let head = Box::new(alloc, head)?;
    Ok(Node::For(head, BodyEnds::open()))
}

/// The node of a `tablerow`, before its body is read.
fn read_table_row(alloc: Global, items: VecDeque<Item<'_>>, at: &str) -> Result<Node, ParseError>
    ensures node { ReadsBlock BlockOf.TableRow StageOf.Last
        (one_or BlockOf.TableRow (rows_of (tokens_view items.entry.items))) result }
    ensures kind { FaultsAs FaultKind.Expected result }
    ensures place { FaultsAt (length at.now) result }
{
    let read = read_loop(items, LoopTag::Rows, at)?;
    let head = TableRow {
        variable: read.variable,
        source: read.source,
        window: read.window,
        cols: read.cols,
    };
    let head = Box::new(alloc, head)?;
    Ok(Node::TableRow(head, 0))
}

/// The node of a `capture`, before its body is read.
fn read_capture(items: VecDeque<Item<'_>>, at: &str) -> Result<Node, ParseError>
    ensures node { ReadsBlock BlockOf.Capture StageOf.Last
        (one_or BlockOf.Capture (capture_of (tokens_view items.entry.items))) result }
    ensures kind { FaultsAs FaultKind.Expected result }
    ensures place { FaultsAt (length at.now) result }
{
    let name = read_word(items, at)?;
    Ok(Node::Capture(name, 0))
}

/// The node of a `case`, before its `when` parts are read.
fn read_case(alloc: Global, items: VecDeque<Item<'_>>, at: &str) -> Result<Node, ParseError>
    ensures node { ReadsBlock BlockOf.Case StageOf.CaseHead
        (many_or BlockOf.Case (case_for (tokens_view items.entry.items))) result }
    ensures kind { FaultsAs FaultKind.Expected result }
    ensures place { FaultsAt (length at.now) result }
{
    let mut items = items;
    let Some(target) = next_value(&mut items) else {
        return Err(expected_before(at, items, Expectation::Value));
    };
    if is_over(&items) {
        return Ok(Node::Case(target, Vec::new(alloc), 0));
    }
    Err(expected_before(at, items, Expectation::Closer))
}
