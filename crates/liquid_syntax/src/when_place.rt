//! Where a `when` of a `case` stands in the source, which is asked for only where a fault of a run
//! is reported: the pieces from the `case` on are read once more.
use liquid_lexer::{
    Body, Markup, ParseError, Piece, Style, bare_name, read_body, read_markup, text_before,
};
use liquid_model::past_byte;
use std::alloc::{AllocError, Global};

/// All styles, the strictest first.
const STYLES: &[Style] = &[Style::Items, Style::PathFirst, Style::Text];

/// What a piece is for a `case` around it.
#[derive(Clone, Copy, Drop)]
enum CasePart {
    Begins,
    When,
    Ends,
    Other,
}

/// The source from the `when` at `index` on, of the `case` with which the source begins; `None`
/// where that `when` isn't found.
pub(crate) fn from_when<'s>(
    alloc: Global,
    source: &'s str,
    index: usize,
) -> Result<Option<&'s str>, AllocError> {
    let mut rest = source;
    let mut depth: usize = 0;
    let mut left = index;
    // each piece takes a byte at least
    for _ in 0..source.len() {
        let (_, from) = text_before(rest);
        let Some((part, after)) = past_piece(alloc, from)? else {
            return Ok(None);
        };
        match part {
            CasePart::Begins => depth = depth.saturating_add(1),
            CasePart::Ends => depth = depth.saturating_sub(1),
            CasePart::When if depth == 1 && left == 0 => return Ok(Some(from)),
            CasePart::When if depth == 1 => left = left.saturating_sub(1),
            CasePart::When | CasePart::Other => {}
        }
        rest = after;
    }
    Ok(None)
}

/// What the piece at the start of the text is, and what follows it, after its body where that
/// isn't read.
fn past_piece(alloc: Global, text: &str) -> Result<Option<(CasePart, &str)>, AllocError> {
    let Some(inside) = past_byte(text, b'{') else {
        return Ok(None);
    };
    let Some((markup, after)) = markup_of(alloc, inside)? else {
        return Ok(None);
    };
    let part = part_of(&markup.piece);
    let body = body_of(&markup.piece);
    match read_body(body, markup, after) {
        Ok((_, after)) => Ok(Some((part, after))),
        Err(ParseError::Fault(_)) => Ok(None),
        Err(ParseError::Memory) => Err(AllocError),
    }
}

/// The piece after a `{`, where it can be read. Its language isn't known here: a tag that can't be
/// read as items begins with a path, or else has a text.
fn markup_of<'s>(
    alloc: Global,
    inside: &'s str,
) -> Result<Option<(Markup<'s>, &'s str)>, AllocError> {
    for style in STYLES {
        match read_markup(alloc, inside, *style) {
            Ok(read) => return Ok(Some(read)),
            Err(ParseError::Fault(_)) => {}
            Err(ParseError::Memory) => return Err(AllocError),
        }
    }
    Ok(None)
}

fn part_of(piece: &Piece<'_>) -> CasePart {
    match piece {
        Piece::Tag("case", _) => CasePart::Begins,
        Piece::Tag("when", _) => CasePart::When,
        Piece::Tag("endcase", _) => CasePart::Ends,
        _ => CasePart::Other,
    }
}

/// Which body follows the piece, where that body isn't read.
fn body_of(piece: &Piece<'_>) -> Option<Body> {
    match bare_name(piece) {
        Some("raw") => Some(Body::Raw),
        Some("comment") => Some(Body::Comment),
        _ => None,
    }
}
