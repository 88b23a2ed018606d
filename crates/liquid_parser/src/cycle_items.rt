//! The items of `cycle`, read from those of a piece.
ghost use Rattle.std.specs.Prelude.{◌≡◌, length};
ghost use Rattle.std.specs.Option.{option_map};
ghost use Rattle.liquid_core.specs.ExpressionView.{expression_view};
ghost use Rattle.liquid_lexer.specs.Readers.{Parses};
ghost use Rattle.liquid_lexer.specs.Tokens.{tokens_view};
ghost use Rattle.liquid_parser.specs.Cycles.{grouped_of, grouped_view, is_cycle_name, named_of};
ghost use Rattle.liquid_parser.specs.Cycles.{with_group};
ghost use Rattle.liquid_parser.specs.Faults.{FaultsAs, FaultsAt};

use crate::chain_items::{expected, expected_before};
use crate::group::{named_group, values_group};
use crate::value_items::{Separators, read_any_values, read_further};
use liquid_core::Expression;
use liquid_lexer::{Expectation, FaultKind, Item, ParseError, Symbol, next_value, skip};
use std::alloc::Global;
use std::collections::VecDeque;

/// The group and the values that all the items say: values, or a name, a `:` and values, which may
/// all be missing there.
/// `Expected` where they are no such thing.
pub fn read_cycle(
    alloc: Global,
    items: VecDeque<Item<'_>>,
    at: &str,
) -> Result<(String, Vec<Expression>), ParseError>
    ensures cycle { Parses grouped_view result (grouped_of (tokens_view items.entry.items)) }
    ensures kind { FaultsAs FaultKind.Expected result }
    ensures place { FaultsAt (length at.now) result }
{
    let mut items = items;
    let Some(first) = next_value(&mut items) else {
        return Err(expected_before(at, items, Expectation::Value));
    };
    if skip(&mut items, Symbol::Colon) {
        return read_named(alloc, first, items, at);
    }
    let values = read_further(alloc, first, items, Separators::Commas, at)?;
    let group = values_group(alloc, &values)?;
    Ok((group, values))
}

/// The group and the values, where all the items follow a name and its `:`.
fn read_named(
    alloc: Global,
    name: Expression,
    items: VecDeque<Item<'_>>,
    at: &str,
) -> Result<(String, Vec<Expression>), ParseError>
    ensures cycle { Parses grouped_view result
        (option_map with_group
        (named_of (expression_view name) (tokens_view items.entry.items))) }
    ensures kind { FaultsAs FaultKind.Expected result }
    ensures place { FaultsAt (length at.now) result }
{
    if !is_name(&name) {
        let from_name = items.len().saturating_add(2);
        return Err(expected(at, from_name, Expectation::GroupName));
    }
    let values = read_any_values(alloc, items, Separators::Commas, at)?;
    let group = named_group(alloc, &name, &values)?;
    Ok((group, values))
}

/// Whether the value may name a group: an identifier or a literal.
fn is_name(value: &Expression) -> bool
    ensures { result ≡ is_cycle_name (expression_view value.now) }
{
    match value {
        Expression::Literal(_) => true,
        Expression::Variable(variable) => variable.indexes.is_empty(),
    }
}
