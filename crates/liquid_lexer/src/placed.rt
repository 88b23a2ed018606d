//! The items of one piece with their places, which is asked for only where a fault is reported.
use crate::fault::ParseError;
use crate::item::{Delimiter, Item, closer, read_item};
use crate::mark::skip_dash;
use crate::piece::opener;
use crate::style::{Style, placed_front, text_item};
use liquid_model::{past_byte, past_white, word};
use std::alloc::{AllocError, Global};

/// An item, and where it stands.
#[derive(Drop)]
pub struct PlacedItem<'s> {
    pub item: Item<'s>,
    /// The item as it stands in the source.
    pub spelling: &'s str,
    /// The source from the item on.
    pub from: &'s str,
}

/// A piece as far as its items can be read.
#[derive(Drop)]
pub struct PlacedPiece<'s> {
    pub kind: Delimiter,
    /// The name of a tag; other pieces have an empty one.
    pub name: &'s str,
    pub items: Vec<PlacedItem<'s>>,
    /// The source from the closer on, or from what can't be read.
    pub rest: &'s str,
}

/// The items of the piece with which the text begins, up to its closer or to what can't be read,
/// each with its place; those of a tag in the style.
pub fn placed_piece<'s>(
    alloc: Global,
    text: &'s str,
    style: Style,
) -> Result<PlacedPiece<'s>, AllocError> {
    let (kind, inside) = past_byte(text, b'{')
        .and_then(opener)
        .unwrap_or((Delimiter::Output, text));
    let (_, inside) = skip_dash(inside);
    let (name, inside) = match kind {
        Delimiter::Output => ("", inside),
        Delimiter::Tag => word(past_white(inside)).unwrap_or(("", inside)),
    };
    let (items, inside) = match kind {
        Delimiter::Output => (Vec::new(alloc), inside),
        Delimiter::Tag => first_item(alloc, inside, style)?,
    };
    let (items, rest) = placed_items(alloc, items, inside, kind)?;
    Ok(PlacedPiece {
        kind,
        name,
        items,
        rest,
    })
}

/// The path or the text with which a tag's items begin in the style, where one stands there, and
/// what follows it.
fn first_item<'s>(
    alloc: Global,
    text: &'s str,
    style: Style,
) -> Result<(Vec<PlacedItem<'s>>, &'s str), AllocError> {
    let mut items = Vec::new(alloc);
    let Some((front, after)) = placed_front(text, style) else {
        return Ok((items, text));
    };
    let item = text_item(alloc, front)?;
    items.push(PlacedItem {
        item,
        spelling: front,
        from: past_white(text),
    })?;
    Ok((items, after))
}

/// The items after those that were read.
fn placed_items<'s>(
    alloc: Global,
    items: Vec<PlacedItem<'s>>,
    text: &'s str,
    kind: Delimiter,
) -> Result<(Vec<PlacedItem<'s>>, &'s str), AllocError> {
    let mut items = items;
    let mut rest = past_white(text);
    // each item takes a byte at least
    for _ in 0..text.len() {
        if closer(rest, kind).is_some() {
            return Ok((items, rest));
        }
        match read_item(alloc, rest) {
            Ok((item, after)) => {
                let spelling = front_before(rest, after);
                items.push(PlacedItem {
                    item,
                    spelling,
                    from: rest,
                })?;
                rest = past_white(after);
            }
            Err(ParseError::Fault(_)) => return Ok((items, rest)),
            Err(ParseError::Memory) => return Err(AllocError),
        }
    }
    Ok((items, rest))
}

/// What a text has before its rest.
pub fn front_before<'s>(text: &'s str, rest: &str) -> &'s str {
    text.get(..text.len().saturating_sub(rest.len()))
        .unwrap_or(text)
}
