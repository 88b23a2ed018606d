//! What stands after a tag's name, by the style in which the name's tags are read.
ghost use Rattle.std.specs.Prelude.{◌≡◌, IfOk};
ghost use Rattle.liquid_lexer.specs.PieceView.{item_view, lexed_items_view};
ghost use Rattle.liquid_lexer.specs.Readers.{Parses};
ghost use Rattle.liquid_lexer.specs.StyleReading.{path_and_rest, styled_at, text_and_rest};
ghost use Rattle.liquid_lexer.specs.Styles.{begins_path_separator, closes_bare, closes_tag};
ghost use Rattle.liquid_lexer.specs.Styles.{in_path, in_tag_text, is_path_mark};
ghost use Rattle.liquid_lexer.specs.Styles.{is_path_separator, text_item};
ghost use Rattle.liquid_model.specs.Front.{run_len};
ghost use Rattle.liquid_model.specs.Words.{passes};

use crate::cut::stripped;
use crate::fault::ParseError;
use crate::item::{Delimiter, Item, closer, read_items, unclosed};
use liquid_core::Expression;
use liquid_model::{Value, in_word, past_white};
use std::alloc::{AllocError, Global};
use std::collections::VecDeque;

/// How what stands after a tag's name is read.
#[derive(Clone, Copy, Debug, PartialEq, Eq)]
pub enum Style {
    /// As items.
    Items,
    /// A path without quotes is a text literal, and items follow it; where no path stands, as
    /// items. A path has ASCII letters, digits and `_-./()+~#@`, and no two of `.` and `/` in a
    /// row.
    PathFirst,
    /// All up to the first closer is one text literal, without the whitespace at its ends; none
    /// where that is empty. Quotes don't keep a closer from ending it.
    Text,
}

fn is_path_separator(byte: u8) -> bool
    ensures { result ≡ is_path_separator byte }
{
    byte == b'.' || byte == b'/'
}

fn begins_path_separator(bytes: &[u8]) -> bool
    ensures { result ≡ begins_path_separator bytes.now }
{
    match bytes {
        [] => false,
        [byte, ..] => is_path_separator(*byte),
    }
}

/// Whether a path may have the byte, besides those of a word.
fn is_path_mark(byte: u8) -> bool
    ensures { result ≡ is_path_mark byte }
{
    is_path_separator(byte)
        || byte == b'('
        || byte == b')'
        || byte == b'+'
        || byte == b'~'
        || byte == b'#'
        || byte == b'@'
}

/// Whether a path goes on over the byte.
#[tactic(auto, unfolding(crate::specs::Styles::in_path))]
fn in_path(byte: u8, after: &[u8]) -> bool
    ensures { result ≡ in_path byte after.now }
{
    in_word(byte, after)
        || (is_path_mark(byte) && !(is_path_separator(byte) && begins_path_separator(after)))
}

/// How many bytes a path has at the front.
fn path_len(bytes: &[u8]) -> usize
    ensures { result ≡ run_len in_path bytes.now }
{
    let mut n = 0;
    while n < bytes.len() && in_path(bytes[n], &bytes[n + 1..]) {
        n += 1;
    }
    n
}

/// The path at the front, and what follows it.
#[tactic(auto, using(crate::proofs::StyleCuts::path_cut))]
fn path_and_rest(text: &str) -> (&str, &str)
    ensures { (result.0.now, result.1.now) ≡ path_and_rest text.now }
{
    let bytes = text.as_bytes();
    text.split_at(path_len(bytes))
}

/// Whether a path stands at the front.
fn opens_path(bytes: &[u8]) -> bool
    ensures { result ≡ passes in_path bytes.now }
{
    match bytes {
        [] => false,
        [byte, after @ ..] => in_path(*byte, after),
    }
}

fn closes_bare(bytes: &[u8]) -> bool
    ensures { result ≡ closes_bare bytes.now }
{
    matches!(bytes, [b'%', b'}', ..])
}

/// Whether a closer of a tag begins at the byte.
fn closes_tag(byte: u8, after: &[u8]) -> bool
    ensures { result ≡ closes_tag byte after.now }
{
    match byte {
        b'%' => matches!(after, [b'}', ..]),
        b'-' => closes_bare(after),
        _ => false,
    }
}

/// Whether a text goes on over the byte.
#[tactic(auto, unfolding(crate::specs::Styles::in_tag_text))]
fn in_tag_text(byte: u8, after: &[u8]) -> bool
    ensures { result ≡ in_tag_text byte after.now }
{
    !closes_tag(byte, after)
}

/// How many bytes stand before the first closer, or before the end where there is none.
fn text_len(bytes: &[u8]) -> usize
    ensures { result ≡ run_len in_tag_text bytes.now }
{
    let mut n = 0;
    while n < bytes.len() && in_tag_text(bytes[n], &bytes[n + 1..]) {
        n += 1;
    }
    n
}

/// The text at the front without the whitespace at its end, and what follows it.
#[tactic(auto, using(crate::proofs::StyleCuts::text_cut))]
fn text_and_rest(text: &str) -> (&str, &str)
    ensures { (result.0.now, result.1.now) ≡ text_and_rest text.now }
{
    let bytes = text.as_bytes();
    let (inside, next) = text.split_at(text_len(bytes));
    (stripped(false, inside, true), next)
}

/// A text literal that is spelled without quotes.
pub(crate) fn text_item(alloc: Global, text: &str) -> Result<Item<'_>, AllocError>
    ensures { IfOk result (λ i. item_view i ≡ text_item text.now) }
{
    let literal = Expression::Literal(Value::Text(String::from_str(alloc, text)?));
    Ok(Item::Value(literal, text))
}

/// A path and then items, where a path stands; else items.
#[tactic(auto, unfolding(crate::specs::StyleReading::styled_at))]
fn read_path_first<'s>(
    alloc: Global,
    text: &'s str,
) -> Result<(VecDeque<Item<'s>>, bool, &'s str), ParseError>
    ensures { Parses (λ x. (lexed_items_view x.0.items, x.1, x.2.now)) result
        (styled_at Style.PathFirst text.now) }
{
    let from = past_white(text);
    if !opens_path(from.as_bytes()) {
        return read_items(alloc, text, Delimiter::Tag);
    }
    let (path, next) = path_and_rest(from);
    let path = text_item(alloc, path)?;
    let (mut items, dash, rest) = read_items(alloc, next, Delimiter::Tag)?;
    items.push_front(path)?;
    Ok((items, dash, rest))
}

/// One text up to the first closer.
#[tactic(auto, unfolding(crate::specs::StyleReading::styled_at))]
fn read_text<'s>(
    alloc: Global,
    text: &'s str,
) -> Result<(VecDeque<Item<'s>>, bool, &'s str), ParseError>
    ensures { Parses (λ x. (lexed_items_view x.0.items, x.1, x.2.now)) result
        (styled_at Style.Text text.now) }
{
    let (inside, next) = text_and_rest(past_white(text));
    let Some((dash, rest)) = closer(next, Delimiter::Tag) else {
        return Err(ParseError::Fault(unclosed()));
    };
    let mut items = VecDeque::new(alloc);
    if !inside.is_empty() {
        items.push_back(text_item(alloc, inside)?)?;
    }
    Ok((items, dash, rest))
}

/// What stands after a tag's name, up to its closer: the items, whether the closer has a dash, and
/// what follows it.
#[tactic(auto, unfolding(crate::specs::StyleReading::styled_at))]
pub(crate) fn read_styled<'s>(
    alloc: Global,
    text: &'s str,
    style: Style,
) -> Result<(VecDeque<Item<'s>>, bool, &'s str), ParseError>
    ensures { Parses (λ x. (lexed_items_view x.0.items, x.1, x.2.now)) result
        (styled_at style text.now) }
{
    match style {
        Style::Items => read_items(alloc, text, Delimiter::Tag),
        Style::PathFirst => read_path_first(alloc, text),
        Style::Text => read_text(alloc, text),
    }
}

/// The path or the text at the front of what stands after a tag's name, where its style has one,
/// and what follows it.
pub(crate) fn placed_front(text: &str, style: Style) -> Option<(&str, &str)> {
    let from = past_white(text);
    match style {
        Style::Items => None,
        Style::PathFirst => {
            if !opens_path(from.as_bytes()) {
                return None;
            }
            Some(path_and_rest(from))
        }
        Style::Text => {
            let (inside, next) = text_and_rest(from);
            if inside.is_empty() {
                return None;
            }
            Some((inside, next))
        }
    }
}
