//! Where an item of a piece stands in the source, which is asked for only where a fault of a run is
//! reported: the piece is read once more.
use crate::positions::{Position, rest_from};
use crate::when_place::from_when;
use liquid_lexer::{Item, PlacedItem, PlacedPiece, Style, Symbol, closer, is_word, placed_piece};
use std::alloc::{AllocError, Global};

/// Which item of an output or a tag a fault of a run is about.
#[derive(Clone, Copy, Debug, PartialEq, Eq, Drop)]
pub enum PieceItem {
    /// None of them alone: the output or the tag as a whole.
    Whole,
    /// The item at this index, after the name of a tag.
    At(usize),
    /// The first value of the range at this index.
    First(usize),
    /// The last value of the range at this index.
    Last(usize),
    /// The name of the filter at this index of the chain.
    Filter(usize),
    /// The argument at the second index, of the filter at the first one.
    Argument(usize, usize),
    /// The value at this index of a `cycle`.
    CycleValue(usize),
    /// The value at the second index, of the `when` at the first one of a `case`.
    WhenValue(usize, usize),
    /// The value of the pair at this index, after its `:` or `=`, or after `with`.
    Pair(usize),
    /// The value of the last `limit:`, `offset:` or `cols:`.
    Part(&'static str),
}

/// The place of an item of the output or the tag that begins at a place of the source; where it has
/// no such item, the place of the output or the tag.
///
/// It is refused where there is no room to read the items.
pub fn item_position(
    alloc: Global,
    source: &str,
    piece: Position,
    item: PieceItem,
) -> Result<Position, AllocError> {
    let text = rest_from(source, piece);
    let passed = match from_found(alloc, text, item)? {
        Some(from) => text.len().saturating_sub(from.len()),
        None => 0,
    };
    Ok(piece.after(text.get(..passed).unwrap_or("")))
}

/// The source from an item of the piece with which it begins, or of a `when` of that `case`.
fn from_found(alloc: Global, source: &str, item: PieceItem) -> Result<Option<&str>, AllocError> {
    match item {
        PieceItem::WhenValue(index, value) => {
            let Some(when) = from_when(alloc, source, index)? else {
                return Ok(None);
            };
            let placed = placed_piece(alloc, when, Style::Items)?;
            Ok(from_index(&placed.items, Some(value.saturating_mul(2))))
        }
        PieceItem::Last(index) => {
            let placed = placed(alloc, source)?;
            last_of_range(alloc, &placed.items, index)
        }
        _ => Ok(from_item(&placed(alloc, source)?.items, item)),
    }
}

/// The items of the piece with which the source begins. Its language isn't known here: a tag that
/// can't be read as items begins with a path, or else has a text.
fn placed(alloc: Global, source: &str) -> Result<PlacedPiece<'_>, AllocError> {
    let placed = placed_piece(alloc, source, Style::Items)?;
    if closer(placed.rest, placed.kind).is_some() {
        return Ok(placed);
    }
    let placed = placed_piece(alloc, source, Style::PathFirst)?;
    if closer(placed.rest, placed.kind).is_some() {
        return Ok(placed);
    }
    placed_piece(alloc, source, Style::Text)
}

/// The source from an item on, where the piece has it.
fn from_item<'s>(items: &Vec<PlacedItem<'s>>, item: PieceItem) -> Option<&'s str> {
    match item {
        PieceItem::Whole | PieceItem::Last(_) | PieceItem::WhenValue(_, _) => None,
        PieceItem::At(index) => from_index(items, Some(index)),
        PieceItem::First(index) => Some(inside_of(from_index(items, Some(index))?)),
        PieceItem::Filter(index) => from_index(items, after_bar(items, index, 1)),
        PieceItem::Argument(index, argument) => {
            let items_after = argument.saturating_mul(2).saturating_add(3);
            from_index(items, after_bar(items, index, items_after))
        }
        PieceItem::CycleValue(index) => from_index(items, Some(cycle_value(items, index))),
        PieceItem::Pair(index) => from_index(items, pair_value(items, index)),
        PieceItem::Part(word) => from_index(items, after_part(items, word)),
    }
}

/// The source from the last value of a range on.
fn last_of_range<'s>(
    alloc: Global,
    items: &Vec<PlacedItem<'s>>,
    index: usize,
) -> Result<Option<&'s str>, AllocError> {
    let Some(range) = from_index(items, Some(index)) else {
        return Ok(None);
    };
    // what can't be read as an item follows the first value
    let first = placed_piece(alloc, inside_of(range), Style::Items)?;
    let rest = first.rest;
    match rest.strip_prefix("..") {
        Some(after) => Ok(Some(after.trim_start())),
        None => Ok(None),
    }
}

/// What a range has after its `(`.
fn inside_of(range: &str) -> &str {
    range.strip_prefix('(').unwrap_or(range).trim_start()
}

fn from_index<'s>(items: &Vec<PlacedItem<'s>>, index: Option<usize>) -> Option<&'s str> {
    Some(items.get(index?)?.from)
}

/// The index of the item that is `items_after` items after the bar of the filter at an index of
/// the chain.
fn after_bar(items: &Vec<PlacedItem<'_>>, filter: usize, items_after: usize) -> Option<usize> {
    let mut left = filter;
    for (index, placed) in items.iter().enumerate() {
        if is_symbol(&placed.item, Symbol::Bar) {
            if left == 0 {
                return Some(index.saturating_add(items_after));
            }
            left = left.saturating_sub(1);
        }
    }
    None
}

/// The index of a value of a `cycle`, which may have a name and a `:` before its values.
fn cycle_value(items: &Vec<PlacedItem<'_>>, value: usize) -> usize {
    let first = if is_symbol_at(items, 1, Symbol::Colon) {
        2
    } else {
        0
    };
    value.saturating_mul(2).saturating_add(first)
}

/// The index of the value of a pair. After the name of a partial `with` and the first value may
/// stand.
fn pair_value(items: &Vec<PlacedItem<'_>>, pair: usize) -> Option<usize> {
    let has_with = match items.get(1) {
        Some(placed) => is_word(&placed.item, "with"),
        None => false,
    };
    if !has_with || is_symbol_at(items, 2, Symbol::Colon) {
        return after_pair_mark(items, pair);
    }
    match pair {
        0 => Some(2),
        _ => after_pair_mark(items, pair.saturating_sub(1)),
    }
}

fn is_symbol_at(items: &Vec<PlacedItem<'_>>, index: usize, symbol: Symbol) -> bool {
    match items.get(index) {
        Some(placed) => is_symbol(&placed.item, symbol),
        None => false,
    }
}

/// The index after the `:` or `=` of the pair at an index.
fn after_pair_mark(items: &Vec<PlacedItem<'_>>, pair: usize) -> Option<usize> {
    let mut left = pair;
    for (index, placed) in items.iter().enumerate() {
        if is_symbol(&placed.item, Symbol::Colon) || is_symbol(&placed.item, Symbol::Assign) {
            if left == 0 {
                return Some(index.saturating_add(1));
            }
            left = left.saturating_sub(1);
        }
    }
    None
}

/// The index after the last `word` with a `:` behind it, and after that `:`.
fn after_part(items: &Vec<PlacedItem<'_>>, word: &str) -> Option<usize> {
    let mut found = None;
    let mut after_word = false;
    for (index, placed) in items.iter().enumerate() {
        if after_word && is_symbol(&placed.item, Symbol::Colon) {
            found = Some(index.saturating_add(1));
        }
        after_word = is_word(&placed.item, word);
    }
    found
}

fn is_symbol(item: &Item<'_>, symbol: Symbol) -> bool {
    match item {
        Item::Symbol(found) => *found == symbol,
        Item::Value(_, _) | Item::Range(_, _) => false,
    }
}
