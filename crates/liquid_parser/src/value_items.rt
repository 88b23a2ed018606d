//! Values with something between each two, read from the items of a piece.
ghost use Rattle.std.specs.Prelude.{◌≡◌, ◌<◌, ◌∷◌, IfSome, length, map, option_map};
ghost use Rattle.liquid_core.specs.ExpressionView.{expression_view};
ghost use Rattle.liquid_lexer.specs.Readers.{Parses};
ghost use Rattle.liquid_lexer.specs.Tokens.{tokens_view};
ghost use Rattle.liquid_parser.specs.Faults.{FaultsAs, FaultsAt};
ghost use Rattle.liquid_parser.specs.inside.ValueAnswers.{SkipsSeparator};
ghost use Rattle.liquid_parser.specs.ValueLists.{any_values_of, ends_values, further_first};
ghost use Rattle.liquid_parser.specs.ValueLists.{further_of, values_of};

use crate::chain_items::expected_before;
use liquid_core::Expression;
use liquid_lexer::{Expectation, FaultKind, Item, ParseError, Symbol, next_value, skip, skip_word};
use std::alloc::Global;
use std::collections::VecDeque;

/// What stands between the values of a tag.
#[derive(Clone, Copy, Debug, PartialEq, Eq)]
pub enum Separators {
    /// A `,`, and one of them may follow the last value.
    Commas,
    /// A `,` or the word `or`.
    CommasOr,
    /// A `,` or nothing.
    OptionalCommas,
}

/// Takes the separator off the front, and answers whether one stood there or none is needed.
fn skip_separator(items: &mut VecDeque<Item<'_>>, separators: Separators) -> bool
    ensures { SkipsSeparator separators items.old.items items.new.items result }
{
    match separators {
        Separators::Commas => skip(items, Symbol::Comma),
        Separators::CommasOr => skip(items, Symbol::Comma) || skip_word(items, "or"),
        Separators::OptionalCommas => {
            skip(items, Symbol::Comma);
            true
        }
    }
}

/// Takes a separator and the value after it off the front, if they stand there.
fn next_further(items: &mut VecDeque<Item<'_>>, separators: Separators) -> Option<Expression>
    ensures value { option_map (λ x. (expression_view x, tokens_view items.new.items)) result ≡
        further_first separators (tokens_view items.old.items) }
    ensures shorter { IfSome result (λ _. length items.new.items < length items.old.items) }
{
    if !skip_separator(items, separators) {
        return None;
    }
    next_value(items)
}

/// Whether the items are a single `,`, or none at all.
pub(crate) fn is_last_comma(items: &VecDeque<Item<'_>>) -> bool
    ensures { result ≡ ends_values Separators.Commas (tokens_view items.now.items) }
{
    match items.front() {
        None => true,
        Some(Item::Symbol(Symbol::Comma)) => items.len() == 1,
        Some(_) => false,
    }
}

/// Whether the values end where the items are.
fn ends_values(items: &VecDeque<Item<'_>>, separators: Separators) -> bool
    ensures { result ≡ ends_values separators (tokens_view items.now.items) }
{
    match separators {
        Separators::Commas => is_last_comma(items),
        Separators::CommasOr | Separators::OptionalCommas => items.is_empty(),
    }
}

/// What must follow a value.
fn further_wanted(separators: Separators) -> Expectation {
    match separators {
        Separators::Commas => Expectation::FurtherValue,
        Separators::CommasOr => Expectation::FurtherAlternative,
        Separators::OptionalCommas => Expectation::Value,
    }
}

/// The values that all the items are: one or more.
pub fn read_values(
    alloc: Global,
    items: VecDeque<Item<'_>>,
    separators: Separators,
    at: &str,
) -> Result<Vec<Expression>, ParseError>
    ensures values { Parses (λ xs. map expression_view xs.items) result
        (values_of separators (tokens_view items.entry.items)) }
    ensures kind { FaultsAs FaultKind.Expected result }
    ensures place { FaultsAt (length at.now) result }
{
    let mut items = items;
    let Some(first) = next_value(&mut items) else {
        return Err(expected_before(at, items, Expectation::Value));
    };
    read_further(alloc, first, items, separators, at)
}

/// The values that all the items are, if there are any.
pub(crate) fn read_any_values(
    alloc: Global,
    items: VecDeque<Item<'_>>,
    separators: Separators,
    at: &str,
) -> Result<Vec<Expression>, ParseError>
    ensures values { Parses (λ xs. map expression_view xs.items) result
        (any_values_of separators (tokens_view items.entry.items)) }
    ensures kind { FaultsAs FaultKind.Expected result }
    ensures place { FaultsAt (length at.now) result }
{
    if items.is_empty() {
        return Ok(Vec::new(alloc));
    }
    read_values(alloc, items, separators, at)
}

/// The first value, and those that all the items are after it, each with a separator before it.
pub fn read_further(
    alloc: Global,
    first: Expression,
    items: VecDeque<Item<'_>>,
    separators: Separators,
    at: &str,
) -> Result<Vec<Expression>, ParseError>
    ensures values { Parses (λ xs. map expression_view xs.items) result
        (option_map (λ xs. expression_view first ∷ xs)
        (further_of separators (tokens_view items.entry.items))) }
    ensures kind { FaultsAs FaultKind.Expected result }
    ensures place { FaultsAt (length at.now) result }
{
    let mut items = items;
    let mut values = Vec::with_capacity(alloc, 1)?;
    values.push(first)?;
    'values: while !ends_values(&items, separators) {
        let Some(value) = next_further(&mut items, separators) else {
            return Err(expected_before(at, items, further_wanted(separators)));
        };
        values.push(value)?;
    }
    Ok(values)
}
