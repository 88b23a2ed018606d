//! Outputs in the values of attributes that aren't escaped.
ghost use Rattle.std.specs.Prelude.{◌≡◌, ◌≤◌, IfErr, IfOk, length};

use crate::html_place::HtmlPlace;
use crate::pieces::past_piece;
use crate::warnings::MOST_WARNINGS;
use liquid_core::{ErrorKind, Expression, Location, Result};
use liquid_language::Language;
use liquid_lexer::{Item, ParseError, Piece, Style, Symbol, read_markup, text_before};
use liquid_model::{location, past_byte};
use std::alloc::{AllocError, Global};
use std::collections::VecDeque;

/// Where an output stands in the value of an HTML attribute, and neither its filters nor the
/// language escape what is written there: a quote in it ends the value. What is a literal, or of a
/// loop's own object, is passed over. The source is read as HTML from its start on, as if its tags
/// wrote nothing and its outputs parts of words. These are the first `MOST_WARNINGS` places.
///
/// The answer is `Memory` where a growth was refused, and no other kind.
pub fn unescaped_attributes(
    alloc: Global,
    source: &str,
    language: &Language,
) -> Result<Vec<Location>>
    ensures few { IfOk result (λ places. length places.items ≤ 100) }
    ensures memory { IfErr result (λ e. e.kind ≡ ErrorKind.Memory) }
{
    let mut places = Vec::new(alloc);
    let mut html = HtmlPlace::Text;
    let mut rest = source;
    // each piece takes a byte at least
    'pieces: for _ in 0..source.len() {
        let (front, at) = text_before(rest);
        html = html.after(front);
        let Some(inside) = past_byte(at, b'{') else {
            break;
        };
        let written = written_by(alloc, inside, language.escapes_html)?;
        if html.is_in_attribute() && matches!(written, Written::Anything) {
            places.push(location(source, at.len()))?;
        }
        if !matches!(written, Written::Nothing) {
            html = html.after_output();
        }
        if places.len() >= MOST_WARNINGS {
            break;
        }
        rest = match past_piece(alloc, language, inside)? {
            Some(after) => after,
            None => inside,
        };
    }
    Ok(places)
}

/// What a piece writes.
#[derive(Clone, Copy)]
enum Written {
    /// It is a tag, or can't be read.
    Nothing,
    /// An output in which nothing ends a value.
    Part,
    /// An output of whatever the data has.
    Anything,
}

/// What the piece after a `{` writes, in a language that escapes or doesn't.
fn written_by(
    alloc: Global,
    inside: &str,
    escapes: bool,
) -> std::result::Result<Written, AllocError> {
    match read_markup(alloc, inside, Style::Items) {
        Ok((markup, _)) => match &markup.piece {
            Piece::Output(items) if is_safe(items, escapes) => Ok(Written::Part),
            Piece::Output(_) => Ok(Written::Anything),
            Piece::Tag(_, _) | Piece::Raw(_, _) | Piece::Comment(_) => Ok(Written::Nothing),
        },
        Err(ParseError::Fault(_)) => Ok(Written::Nothing),
        Err(ParseError::Memory) => Err(AllocError),
    }
}

/// Whether nothing in what an output writes ends a value.
fn is_safe(items: &VecDeque<Item<'_>>, escapes: bool) -> bool {
    (escapes && !ends_raw(items)) || !is_open(items) || has_escape(items)
}

/// Whether an output ends with `| raw`.
fn ends_raw(items: &VecDeque<Item<'_>>) -> bool {
    match items.len().checked_sub(2) {
        Some(bar) => {
            matches!(items.get(bar), Some(Item::Symbol(Symbol::Bar)))
                && matches!(items.back(), Some(Item::Value(_, "raw")))
        }
        None => false,
    }
}

/// Whether an output begins with a variable that isn't the object of a loop.
fn is_open(items: &VecDeque<Item<'_>>) -> bool {
    match items.front() {
        Some(Item::Value(Expression::Variable(variable), _)) => {
            !matches!(variable.name.as_str(), "forloop" | "tablerow")
        }
        _ => false,
    }
}

/// Whether one of the filters of an output leaves nothing in it that ends a value.
fn has_escape(items: &VecDeque<Item<'_>>) -> bool {
    let mut is_after_bar = false;
    for item in items {
        if let Item::Value(_, name) = item {
            if is_after_bar && escapes(name) {
                return true;
            }
        }
        is_after_bar = matches!(item, Item::Symbol(Symbol::Bar));
    }
    false
}

/// Whether what a filter of this name answers is a part of a value as it stands.
fn escapes(name: &str) -> bool {
    matches!(
        name,
        "escape"
            | "escape_once"
            | "xml_escape"
            | "url_encode"
            | "cgi_escape"
            | "uri_escape"
            | "slugify"
            | "handle"
            | "handleize"
            | "size"
    )
}
