//! Tags and blocks of a host: a tag is an output of the call that it stands for, and the text of a
//! block goes through its call.
ghost use Rattle.std.specs.Prelude.{◌≡◌, [], ◌∷◌, ◌++◌, IfErr, IfOk, OnOk, length, map};
ghost use Rattle.liquid_core.specs.ExpressionView.{expression_view};
ghost use Rattle.liquid_evaluation.specs.ChainView.{chain_filter_view};
ghost use Rattle.liquid_language.specs.Registered.{registered_in};
ghost use Rattle.liquid_language.specs.declared.block.Block.TheVariants as blocks;
ghost use Rattle.liquid_lexer.specs.Readers.{Parses};
ghost use Rattle.liquid_lexer.specs.Tokens.{tokens_view};
ghost use Rattle.liquid_parser.specs.Classification.{leaf_or, one_or};
ghost use Rattle.liquid_parser.specs.Faults.{FaultsAt};
ghost use Rattle.liquid_parser.specs.HostTags.{host_block_of, host_call_of, host_tag_of};
ghost use Rattle.liquid_parser.specs.inside.Classifies.{Classifies};

use super::unknown_tag;
use crate::build::{Stage, Statement};
use crate::chain_items::accepted;
use crate::value_items::{Separators, read_any_values};
use liquid_core::Expression;
use liquid_evaluation::{ChainFilter, FilterChain};
use liquid_language::{Block, FilterRegistry, Language};
use liquid_lexer::{Item, ParseError};
use liquid_syntax::Node;
use std::alloc::Global;
use std::collections::VecDeque;

/// The statement of the host's tag with the number.
pub(super) fn read_host_tag(
    alloc: Global,
    language: &Language,
    number: usize,
    items: VecDeque<Item<'_>>,
    at: &str,
) -> Result<Statement, ParseError>
    ensures statement { Classifies
        (leaf_or (host_tag_of language.now number (tokens_view items.entry.items))) result }
    ensures place { FaultsAt (length at.now) result }
{
    let Some(call) = language.host_tags.call(number) else {
        return Err(unknown_tag(at));
    };
    let callee = Callee {
        filter: call.filter.as_str(),
        given: call.given.as_slice(),
    };
    let filter = read_call(alloc, &language.filters, callee, items, at)?;
    let filters = alone(alloc, filter)?;
    let Ok(entry) = call.input.copy(alloc) else {
        return Err(ParseError::Memory);
    };
    Ok(Statement::Leaf(Node::Output(FilterChain { entry, filters })))
}

/// The statement of the host's block with the number.
pub(super) fn read_host_block(
    alloc: Global,
    language: &Language,
    number: usize,
    items: VecDeque<Item<'_>>,
    at: &str,
) -> Result<Statement, ParseError>
    ensures statement { Classifies (one_or (blocks.Host number)
        (host_block_of language.now number (tokens_view items.entry.items))) result }
    ensures place { FaultsAt (length at.now) result }
{
    let Some(block) = language.host_tags.block(number) else {
        return Err(unknown_tag(at));
    };
    let callee = Callee {
        filter: block.filter.as_str(),
        given: block.given.as_slice(),
    };
    let filter = read_call(alloc, &language.filters, callee, items, at)?;
    let filters = alone(alloc, filter)?;
    Ok(Statement::Begins(Block::Host(number), Stage::Last, Node::Filtered(filters, 0)))
}

/// The filter that a tag or a block calls, and what is given with it.
#[derive(Clone, Copy)]
struct Callee<'l> {
    filter: &'l str,
    given: &'l [Expression],
}

/// The filter with the values that all the items are, which are required, and those that are given
/// with it.
fn read_call(
    alloc: Global,
    filters: &FilterRegistry,
    callee: Callee<'_>,
    items: VecDeque<Item<'_>>,
    at: &str,
) -> Result<ChainFilter, ParseError>
    ensures call { Parses chain_filter_view result (host_call_of (registered_in filters.now)
        callee.entry.filter.now (map expression_view callee.entry.given.now)
        (tokens_view items.entry.items)) }
    ensures place { FaultsAt (length at.now) result }
{
    let mut arguments = read_any_values(alloc, items, Separators::OptionalCommas, at)?;
    let required = arguments.len();
    add_copies(alloc, &mut arguments, callee.given)?;
    let name = String::from_str(alloc, callee.filter)?;
    let mut filter = accepted(filters, name, arguments, at)?;
    filter.required = required;
    Ok(filter)
}

/// Adds copies of the expressions.
fn add_copies(
    alloc: Global,
    expressions: &mut Vec<Expression>,
    given: &[Expression],
) -> Result<(), ParseError>
    ensures added { OnOk result (map expression_view expressions.new.items ≡
        map expression_view expressions.old.items ++ map expression_view given.now) }
    ensures memory { IfErr result (λ e. e ≡ ParseError.Memory) }
{
    for expression in given {
        let Ok(copy) = expression.copy(alloc) else {
            return Err(ParseError::Memory);
        };
        expressions.push(copy)?;
    }
    Ok(())
}

/// A list of the filter alone.
pub(super) fn alone(alloc: Global, filter: ChainFilter) -> Result<Vec<ChainFilter>, ParseError>
    ensures filters { IfOk result (λ filters. filters.items ≡ filter ∷ []) }
    ensures memory { IfErr result (λ e. e ≡ ParseError.Memory) }
{
    let mut filters = Vec::with_capacity(alloc, 1)?;
    filters.push(filter)?;
    Ok(filters)
}
