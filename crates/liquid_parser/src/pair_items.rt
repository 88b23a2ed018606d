//! Pairs of a name and a value, read from the items of a piece.
ghost use Rattle.std.specs.Prelude.{◌≡◌, ◌<◌, ◌++◌, IfSome, length, option_map};
ghost use Rattle.liquid_lexer.specs.Readers.{Parses};
ghost use Rattle.liquid_lexer.specs.Tokens.{tokens_view};
ghost use Rattle.liquid_parser.specs.Bound.{ends_pairs, is_separated, mark_of, one_first};
ghost use Rattle.liquid_parser.specs.Bound.{pair_first, bound_pairs};
ghost use Rattle.liquid_parser.specs.Faults.{FaultsAs, FaultsAt};
ghost use Rattle.liquid_syntax.specs.Flats.{binding_view, bindings_view};

use crate::chain_items::expected_before;
use crate::value_items::is_last_comma;
use liquid_lexer::{Expectation, FaultKind, Item, ParseError, Symbol, next_value, next_word, skip};
use liquid_syntax::Binding;
use std::collections::VecDeque;

/// How the pairs of a tag are written.
#[derive(Clone, Copy, Debug, PartialEq, Eq)]
pub enum PairStyle {
    /// `, name: value`, as after the first pair of an `include`. One item of any kind may stand
    /// after the last of them.
    Include,
    /// `name=value`, as in Jekyll's `include`.
    JekyllInclude,
    /// `, name: value`, as in a `render`. One more `,` may follow the last of them.
    Render,
}

/// The symbol between a name and its value.
fn mark_of(style: PairStyle) -> Symbol
    ensures { result ≡ mark_of style }
{
    match style {
        PairStyle::Include => Symbol::Colon,
        PairStyle::JekyllInclude => Symbol::Assign,
        PairStyle::Render => Symbol::Colon,
    }
}

/// Whether a `,` stands before each pair.
fn is_separated(style: PairStyle) -> bool
    ensures { result ≡ is_separated style }
{
    match style {
        PairStyle::Include => true,
        PairStyle::JekyllInclude => false,
        PairStyle::Render => true,
    }
}

/// What a pair is to look like.
fn pair_wanted(style: PairStyle) -> Expectation {
    match style {
        PairStyle::Include | PairStyle::Render => Expectation::FurtherPair,
        PairStyle::JekyllInclude => Expectation::JekyllPair,
    }
}

/// Takes a name, the symbol and a value off the front, if they stand there.
pub(crate) fn next_pair(items: &mut VecDeque<Item<'_>>, symbol: Symbol) -> Option<Binding>
    ensures value { option_map (λ p. (binding_view p, tokens_view items.new.items)) result ≡
        pair_first symbol (tokens_view items.old.items) }
    ensures shorter { IfSome result (λ _. length items.new.items < length items.old.items) }
{
    let name = next_word(items)?;
    if !skip(items, symbol) {
        return None;
    }
    let value = next_value(items)?;
    Some(Binding { name, value })
}

/// Takes one of the pairs off the front, if it stands there.
fn next_of(items: &mut VecDeque<Item<'_>>, style: PairStyle) -> Option<Binding>
    ensures value { option_map (λ p. (binding_view p, tokens_view items.new.items)) result ≡
        one_first style (tokens_view items.old.items) }
    ensures shorter { IfSome result (λ _. length items.new.items < length items.old.items) }
{
    if is_separated(style) {
        if !skip(items, Symbol::Comma) {
            return None;
        }
    }
    next_pair(items, mark_of(style))
}

/// Whether the pairs end where the items are.
fn ends_pairs(items: &VecDeque<Item<'_>>, style: PairStyle) -> bool
    ensures { result ≡ ends_pairs style (tokens_view items.now.items) }
{
    match style {
        PairStyle::Include => items.len() <= 1,
        PairStyle::JekyllInclude => items.is_empty(),
        PairStyle::Render => is_last_comma(items),
    }
}

/// The pairs that all the items are, after those that stand before them.
pub(crate) fn read_pairs(
    first: Vec<Binding>,
    items: VecDeque<Item<'_>>,
    style: PairStyle,
    at: &str,
) -> Result<Vec<Binding>, ParseError>
    ensures pairs { Parses (λ ps. bindings_view ps.items) result
        (option_map (λ ps. bindings_view first.items ++ ps)
        (bound_pairs style (tokens_view items.entry.items))) }
    ensures kind { FaultsAs FaultKind.Expected result }
    ensures place { FaultsAt (length at.now) result }
{
    let mut items = items;
    let mut pairs = first;
    'pairs: while !ends_pairs(&items, style) {
        let Some(pair) = next_of(&mut items, style) else {
            return Err(expected_before(at, items, pair_wanted(style)));
        };
        pairs.push(pair)?;
    }
    Ok(pairs)
}
