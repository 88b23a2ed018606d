//! Conditions, read from the items of a piece.
ghost use Rattle.std.specs.Prelude.{◌≡◌, ◌≤◌, length};
ghost use Rattle.liquid_parser.specs.inside.ConditionAnswers.{TakesOperator, TakesAtom};
ghost use Rattle.liquid_parser.specs.inside.ConditionAnswers.{TakesConjunction};
ghost use Rattle.liquid_parser.specs.ConditionReading.{symbol_operator, operator_of, condition_of};
ghost use Rattle.liquid_evaluation.specs.ConditionView.{condition_view};
ghost use Rattle.liquid_parser.specs.Faults.{FaultsAs, FaultsAt};
ghost use Rattle.liquid_lexer.specs.PieceView.{item_view};
ghost use Rattle.liquid_lexer.specs.Readers.{Parses};
ghost use Rattle.liquid_lexer.specs.Tokens.{tokens_view, token_of};

use crate::chain_items::{expected, expected_before};
use liquid_evaluation::{Atom, ComparisonOperator, Condition};
use liquid_lexer::{
    Expectation, FaultKind, Item, ParseError, Symbol, is_over, is_word, next_value, skip_word,
};
use std::alloc::Global;
use std::collections::VecDeque;

/// A condition of all the items: conjunctions joined by `or`. `Expected` where they are none. `at`
/// is the source from the piece on.
pub fn read_condition(
    alloc: Global,
    items: VecDeque<Item<'_>>,
    at: &str,
) -> Result<Condition, ParseError>
    ensures condition { Parses condition_view result
        (condition_of (tokens_view items.entry.items)) }
    ensures kind { FaultsAs FaultKind.Expected result }
    ensures place { FaultsAt (length at.now) result }
{
    let mut items = items;
    let mut conjunctions = Vec::with_capacity(alloc, 1)?;
    'conjunctions: loop {
        let conjunction = read_conjunction(alloc, &mut items, at)?;
        conjunctions.push(conjunction)?;
        if is_over(&items) {
            return Ok(Condition { conjunctions });
        }
        if !skip_word(&mut items, "or") {
            return Err(expected_before(at, items, Expectation::ConnectiveOrCloser));
        }
    }
}

/// The atoms at the front that are joined by `and`.
fn read_conjunction(
    alloc: Global,
    items: &mut VecDeque<Item<'_>>,
    at: &str,
) -> Result<Vec<Atom>, ParseError>
    ensures taken { TakesConjunction (tokens_view items.old.items) (tokens_view items.new.items)
        result }
    ensures shorter { length items.new.items ≤ length items.old.items }
    ensures kind { FaultsAs FaultKind.Expected result }
    ensures place { FaultsAt (length at.now) result }
{
    let mut atoms = Vec::with_capacity(alloc, 1)?;
    'atoms: loop {
        let atom = read_atom(items, at)?;
        atoms.push(atom)?;
        if !skip_word(items, "and") {
            return Ok(atoms);
        }
    }
}

/// The value at the front, or the comparison of two.
fn read_atom(items: &mut VecDeque<Item<'_>>, at: &str) -> Result<Atom, ParseError>
    ensures taken { TakesAtom (tokens_view items.old.items) (tokens_view items.new.items) result }
    ensures shorter { length items.new.items ≤ length items.old.items }
    ensures kind { FaultsAs FaultKind.Expected result }
    ensures place { FaultsAt (length at.now) result }
{
    let Some(left) = next_value(items) else {
        return Err(expected(at, items.len(), Expectation::Value));
    };
    let Some(operator) = next_operator(items) else {
        return Ok(Atom::Bare(left));
    };
    let Some(right) = next_value(items) else {
        return Err(expected(at, items.len(), Expectation::ComparedValue));
    };
    Ok(Atom::Compared(left, operator, right))
}

/// Takes the operator at the front, if one stands there.
fn next_operator(items: &mut VecDeque<Item<'_>>) -> Option<ComparisonOperator>
    ensures { TakesOperator items.old.items items.new.items result }
{
    let operator = operator_of(items.front()?)?;
    drop(items.pop_front());
    Some(operator)
}

/// The operator that an item is, if it is one.
fn operator_of(item: &Item<'_>) -> Option<ComparisonOperator>
    ensures { result ≡ operator_of (token_of (item_view item.now)) }
{
    match item {
        Item::Symbol(symbol) => symbol_operator(*symbol),
        Item::Range(_, _) => None,
        Item::Value(_, _) => {
            if is_word(item, "contains") {
                Some(ComparisonOperator::Contains)
            } else {
                None
            }
        }
    }
}

/// The operator that a symbol is, if it is one.
fn symbol_operator(symbol: Symbol) -> Option<ComparisonOperator>
    ensures { result ≡ symbol_operator symbol }
{
    match symbol {
        Symbol::Equals => Some(ComparisonOperator::Equals),
        Symbol::NotEquals | Symbol::LessOrGreater => Some(ComparisonOperator::NotEquals),
        Symbol::LessThan => Some(ComparisonOperator::LessThan),
        Symbol::GreaterThan => Some(ComparisonOperator::GreaterThan),
        Symbol::LessThanEquals => Some(ComparisonOperator::LessThanEquals),
        Symbol::GreaterThanEquals => Some(ComparisonOperator::GreaterThanEquals),
        Symbol::Assign | Symbol::Colon | Symbol::Comma | Symbol::Bar => None,
    }
}
