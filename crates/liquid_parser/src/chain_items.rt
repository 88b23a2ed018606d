//! Chains, read from the items of a piece.
ghost use Rattle.std.specs.Prelude.{◌≤◌, IfErr, length, map, string_bytes};
ghost use Rattle.liquid_core.specs.ExpressionView.{expression_view};
ghost use Rattle.liquid_model.specs.Maps.{listed};
ghost use Rattle.liquid_parser.specs.inside.Called.{Calls, TakesFilter};
ghost use Rattle.liquid_parser.specs.ChainReading.{accepted_call, call_fault, filters_of, chain_of};
ghost use Rattle.liquid_parser.specs.Chains.{Filters};
ghost use Rattle.liquid_parser.specs.Faults.{FaultsAs, FaultsAt};
ghost use Rattle.liquid_evaluation.specs.ChainView.{chain_view, chain_filter_view};
ghost use Rattle.liquid_language.specs.Registered.{registered_in};
ghost use Rattle.liquid_lexer.specs.Readers.{Parses, IsOfKind, IsAt};
ghost use Rattle.liquid_lexer.specs.Tokens.{tokens_view};

use liquid_core::Expression;
use liquid_evaluation::{ChainFilter, FilterChain, StoredFilter};
use liquid_language::{FilterRegistry, RegisteredFilter};
use liquid_lexer::{
    Expectation, Fault, FaultKind, Item, ParseError, Symbol, is_over, next_value, next_word, skip,
};
use liquid_model::push_first;
use std::alloc::Global;
use std::collections::VecDeque;

/// A chain of all the items: a value, and any number of filters after it. `at` is the source from
/// the piece on.
#[tactic(auto, unfolding(crate::specs::ChainReading::chain_of))]
pub fn read_chain(
    alloc: Global,
    filters: &FilterRegistry,
    items: VecDeque<Item<'_>>,
    at: &str,
) -> Result<FilterChain, ParseError>
    ensures chain { Parses chain_view result (chain_of (registered_in filters.now)
        (tokens_view items.entry.items)) }
    ensures place { FaultsAt (length at.now) result }
{
    let mut items = items;
    let Some(entry) = next_value(&mut items) else {
        return Err(expected_before(at, items, Expectation::Value));
    };
    let filters = read_filters(alloc, filters, &mut items, at)?;
    Ok(FilterChain { entry, filters })
}

/// The filters that all the items are.
fn read_filters(
    alloc: Global,
    known: &FilterRegistry,
    items: &mut VecDeque<Item<'_>>,
    at: &str,
) -> Result<Vec<ChainFilter>, ParseError>
    ensures filters { Parses (λ fs. map chain_filter_view fs.items) result
        (filters_of (registered_in known.now)
        (tokens_view items.old.items)) }
    ensures place { FaultsAt (length at.now) result }
{
    let mut filters = Vec::new(alloc);
    'filters: while !is_over(items) {
        if !skip(items, Symbol::Bar) {
            return Err(expected(at, items.len(), Expectation::FilterOrCloser));
        }
        push_first(&mut filters, read_filter(alloc, known, items, at)?)?;
    }
    Ok(filters)
}

/// The filter at the front, after its `|`: its name, and the arguments that it is given.
fn read_filter(
    alloc: Global,
    known: &FilterRegistry,
    items: &mut VecDeque<Item<'_>>,
    at: &str,
) -> Result<ChainFilter, ParseError>
    ensures taken { TakesFilter (registered_in known.now) (tokens_view items.old.items)
        (tokens_view items.new.items) result }
    ensures shorter { length items.new.items ≤ length items.old.items }
    ensures place { FaultsAt (length at.now) result }
{
    let Some(name) = next_word(items) else {
        return Err(expected(at, items.len(), Expectation::FilterName));
    };
    let arguments = read_arguments(alloc, items, at)?;
    accepted(known, name, arguments, at)
}

/// The filter of the name with these arguments, each of which is required. `UnknownFilter` where
/// none is registered, and `FilterArguments` where it doesn't take their number.
pub(crate) fn accepted(
    known: &FilterRegistry,
    name: String,
    arguments: Vec<Expression>,
    at: &str,
) -> Result<ChainFilter, ParseError>
    ensures call { Parses chain_filter_view result
        (accepted_call (string_bytes name)
        (listed (registered_in known.now) (string_bytes name))
        (map expression_view arguments.items)) }
    ensures kind { IfErr result (λ e.
        IsOfKind (call_fault (listed (registered_in known.now) (string_bytes name))) e) }
    ensures place { IfErr result (λ e. IsAt (length at.now) e) }
{
    let Some(filter) = known.get(name.as_str()) else {
        return Err(ParseError::Fault(Fault::new(
            FaultKind::UnknownFilter,
            at,
            Expectation::RegisteredFilter,
        )));
    };
    if !filter.accepts(arguments.len()) {
        return Err(ParseError::Fault(Fault::new(
            FaultKind::FilterArguments,
            at,
            Expectation::ArgumentCount,
        )));
    }
    let required = arguments.len();
    match filter {
        RegisteredFilter::Kind(kind) => Ok(ChainFilter {
            filter: StoredFilter::Kind(kind),
            arguments,
            required,
        }),
        RegisteredFilter::Host { .. } => Ok(ChainFilter {
            filter: StoredFilter::Host(name),
            arguments,
            required,
        }),
    }
}

/// The arguments after a filter's name.
fn read_arguments(
    alloc: Global,
    items: &mut VecDeque<Item<'_>>,
    at: &str,
) -> Result<Vec<Expression>, ParseError>
    ensures called { (known : Filters) →
        Calls known (tokens_view items.old.items) (tokens_view items.new.items)
        result }
    ensures shorter { length items.new.items ≤ length items.old.items }
    ensures kind { FaultsAs FaultKind.Expected result }
    ensures place { FaultsAt (length at.now) result }
{
    if !skip(items, Symbol::Colon) {
        return Ok(Vec::new(alloc));
    }
    let mut arguments = Vec::with_capacity(alloc, 1)?;
    'arguments: loop {
        let Some(argument) = next_value(items) else {
            return Err(expected(at, items.len(), Expectation::Argument));
        };
        arguments.push(argument)?;
        if !skip(items, Symbol::Comma) {
            return Ok(arguments);
        }
    }
}

/// An `Expected` fault in the piece, at the item with `items_remaining` items of it from there on.
pub fn expected(at: &str, items_remaining: usize, wanted: Expectation) -> ParseError
    ensures kind { IsOfKind FaultKind.Expected result }
    ensures place { IsAt (length at.now) result }
{
    ParseError::Fault(Fault {
        kind: FaultKind::Expected,
        remaining: at.len(),
        expected: wanted,
        items_remaining,
    })
}

/// An `Expected` fault in the piece, at the first of these items, which are the rest of it.
pub(crate) fn expected_before(
    at: &str,
    items: VecDeque<Item<'_>>,
    wanted: Expectation,
) -> ParseError
    ensures kind { IsOfKind FaultKind.Expected result }
    ensures place { IsAt (length at.now) result }
{
    expected(at, items.len(), wanted)
}
