//! Items, and what stands between an opener and a closer.
ghost use Rattle.std.specs.Prelude.{◌≡◌, ◌≤◌, length};
ghost use Rattle.std.specs.Option.{option_map};
ghost use Rattle.liquid_lexer.specs.Items.{mark};
ghost use Rattle.liquid_lexer.specs.ItemReading.{range_at, lexed_item, bare_closer_at, closer_at};
ghost use Rattle.liquid_lexer.specs.ItemReading.{items_at};
ghost use Rattle.liquid_lexer.specs.Readers.{Parses};
ghost use Rattle.liquid_lexer.specs.PieceView.{item_view, lexed_items_view};

use crate::cut::before;
use crate::expectation::Expectation;
use crate::fault::{Fault, FaultKind, ParseError};
use crate::symbol::{Symbol, read_symbol};
use crate::value::{read_value, unexpected};
use liquid_core::Expression;
use liquid_model::{past_byte, past_white};
use std::alloc::Global;
use std::collections::VecDeque;

/// One thing between an opener and a closer.
#[derive(Drop)]
pub enum Item<'s> {
    /// A value, with its spelling in the source.
    Value(Expression, &'s str),
    /// A range `(first..last)`.
    Range(Expression, Expression),
    /// A symbol.
    Symbol(Symbol),
}

/// What opens and closes a piece.
#[derive(Clone, Copy, Debug, PartialEq, Eq)]
pub enum Delimiter {
    /// `{{` and `}}`
    Output,
    /// `{%` and `%}`
    Tag,
}

/// How deep brackets may nest in a value.
const MAX_BRACKETS: usize = 200;

/// The range after its `(`.
#[tactic(auto, unfolding(crate::specs::ItemReading::range_at))]
fn read_range(alloc: Global, text: &str) -> Result<(Item, &str), ParseError>
    ensures { Parses (λ x. (item_view x.0, x.1.now)) result (range_at text.now) }
{
    let (first, rest) = read_value(alloc, past_white(text), MAX_BRACKETS)?;
    let rest = past_white(rest);
    let Some(dot) = past_byte(rest, b'.') else {
        return Err(ParseError::Fault(unexpected(rest, Expectation::Dots)));
    };
    let Some(after) = past_byte(dot, b'.') else {
        return Err(ParseError::Fault(unexpected(rest, Expectation::Dots)));
    };
    let (last, rest) = read_value(alloc, past_white(after), MAX_BRACKETS)?;
    let rest = past_white(rest);
    let Some(after) = past_byte(rest, b')') else {
        return Err(ParseError::Fault(unexpected(rest, Expectation::ClosingParenthesis)));
    };
    Ok((Item::Range(first, last), after))
}

/// The item at the front, and what follows it.
#[tactic(auto, unfolding(crate::specs::ItemReading::lexed_item))]
pub(crate) fn read_item<'s>(alloc: Global, text: &'s str) -> Result<(Item<'s>, &'s str), ParseError>
    ensures { Parses (λ x. (item_view x.0, x.1.now)) result (lexed_item text.now) }
{
    if let Some((symbol, rest)) = read_symbol(text) {
        return Ok((Item::Symbol(symbol), rest));
    }
    if let Some(inside) = past_byte(text, b'(') {
        return read_range(alloc, inside);
    }
    let (value, rest) = read_value(alloc, text, MAX_BRACKETS)?;
    Ok((Item::Value(value, before(text, rest)), rest))
}

fn mark(kind: Delimiter) -> u8
    ensures value { result ≡ mark kind }
    ensures low { result ≤ 127 }
{
    match kind {
        Delimiter::Output => b'}',
        Delimiter::Tag => b'%',
    }
}

fn bare_closer(text: &str, kind: Delimiter) -> Option<&str>
    ensures { option_map (λ x. x.now) result ≡ bare_closer_at kind text.now }
{
    past_byte(past_byte(text, mark(kind))?, b'}')
}

/// The closer at the front: whether it has a dash, and what follows it.
#[tactic(auto, unfolding(crate::specs::ItemReading::closer_at))]
pub fn closer(text: &str, kind: Delimiter) -> Option<(bool, &str)>
    ensures { option_map (λ x. (x.0, x.1.now)) result ≡ closer_at kind text.now }
{
    match past_byte(text, b'-') {
        Some(rest) => Some((true, bare_closer(rest, kind)?)),
        None => Some((false, bare_closer(text, kind)?)),
    }
}

/// The fault of a source that ends where an item or the closer is wanted.
pub(crate) fn unclosed() -> Fault
    ensures kind { result.kind ≡ FaultKind.Unclosed }
    ensures place { result.remaining ≡ 0 }
{
    Fault::new(FaultKind::Unclosed, "", Expectation::ItemOrCloser)
}

/// The items up to the first closer that stands in an item's place, whether it has a dash, and what
/// follows it.
pub fn read_items<'s>(
    alloc: Global,
    text: &'s str,
    kind: Delimiter,
) -> Result<(VecDeque<Item<'s>>, bool, &'s str), ParseError>
    ensures { Parses (λ x. (lexed_items_view x.0.items, x.1, x.2.now)) result
        (items_at kind (length text.now) text.now) }
{
    let mut items = VecDeque::new(alloc);
    let mut rest = text;
    'items: loop {
        let from = past_white(rest);
        if let Some((dash, after)) = closer(from, kind) {
            return Ok((items, dash, after));
        }
        if from.is_empty() {
            return Err(ParseError::Fault(unclosed()));
        }
        let (item, after) = read_item(alloc, from)?;
        items.push_back(item)?;
        rest = after;
    }
}
