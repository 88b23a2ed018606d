//! The piece of a source that a fault is in, and the source with blanks over it.
ghost use Rattle.std.specs.Prelude.{◌≡◌, ◌++◌, IfOk, string_bytes};
ghost use Rattle.liquid_model.specs.Answer.{IsValueOrMemory};
ghost use Rattle.liquid_check.specs.Blanks.{blank_for, blanked};

use liquid_core::{Location, Result};
use liquid_language::Language;
use liquid_lexer::text_before;
use liquid_model::past_byte;
use liquid_warnings::past_piece;
use std::alloc::{AllocError, Global};

/// A source, cut in three.
#[derive(Clone, Copy)]
pub(crate) struct Part<'s> {
    pub(crate) front: &'s str,
    pub(crate) piece: &'s str,
    pub(crate) after: &'s str,
}

/// Where a piece stands in its source: it begins `from` bytes before the end of the source, and
/// ends `past` bytes before it.
#[derive(Clone, Copy)]
struct Extent {
    from: usize,
    past: usize,
}

/// The piece of a source that holds a place: up to its closer, or up to the end of a body after it
/// that isn't read. Of a piece that can't be read it is the opener alone, and where no piece holds
/// the place, the whole source.
pub(crate) fn part_at<'s>(
    alloc: Global,
    source: &'s str,
    language: &Language,
    location: &Location,
) -> std::result::Result<Part<'s>, AllocError>
    ensures { IfOk result (λ p. source.now ≡ p.front.now ++ (p.piece.now ++ p.after.now)) }
{
    let remaining = remaining_at(source, location);
    let extent = extent_at(alloc, source, language, remaining)?;
    Ok(cut_out(
        source,
        source.len().saturating_sub(extent.from),
        extent.from.saturating_sub(extent.past),
    ))
}

/// A source, cut in three: its first `start` bytes, the `count` bytes after them, and the rest.
fn cut_out<'s>(source: &'s str, start: usize, count: usize) -> Part<'s>
    ensures { source.now ≡ result.front.now ++ (result.piece.now ++ result.after.now) }
{
    let (front, rest) = cut(source, start);
    let (piece, after) = cut(rest, count);
    Part {
        front,
        piece,
        after,
    }
}

/// A text, cut after its first `count` bytes, or before its first one where no character ends
/// there.
fn cut<'s>(text: &'s str, count: usize) -> (&'s str, &'s str)
    ensures { text.now ≡ result.0.now ++ result.1.now }
{
    match text.split_at_checked(count) {
        Some((front, after)) => (front, after),
        None => ("", text),
    }
}

/// How many bytes of a source are left from a place on. A mark of the byte order at its start is no
/// column.
fn remaining_at(source: &str, location: &Location) -> usize {
    let mut rest = source.strip_prefix('\u{feff}').unwrap_or(source);
    for _ in 1..location.line {
        rest = match rest.split_once('\n') {
            Some((_, below)) => below,
            None => "",
        };
    }
    let mut characters = rest.chars();
    for _ in 1..location.column {
        characters.next();
    }
    characters.as_str().len()
}

/// The extent of the piece that holds the place `remaining` bytes before the end of the source.
fn extent_at(
    alloc: Global,
    source: &str,
    language: &Language,
    remaining: usize,
) -> std::result::Result<Extent, AllocError> {
    let mut rest = source;
    // each piece takes a byte at least
    for _ in 0..source.len() {
        let (_, at) = text_before(rest);
        let Some(inside) = past_byte(at, b'{') else {
            break;
        };
        let past = match past_piece(alloc, language, inside)? {
            Some(after) if after.len() >= remaining => {
                rest = after;
                continue;
            }
            Some(after) => after.len(),
            None => at.len().saturating_sub(2),
        };
        return Ok(Extent {
            from: at.len(),
            past,
        });
    }
    Ok(Extent {
        from: source.len(),
        past: 0,
    })
}

impl Part<'_> {
    /// The source with a blank in place of each `{` of the piece, so that the piece is text. Every
    /// other character stands where it stood.
    pub(crate) fn with_blanks(&self, alloc: Global) -> Result<String>
        ensures { IsValueOrMemory string_bytes result
            (self.now.front.now ++ (blanked self.now.piece.now ++ self.now.after.now)) }
    {
        let mut text = String::from_str(alloc, self.front)?;
        let piece = blanked(alloc, self.piece)?;
        text.push_str(piece.as_str())?;
        text.push_str(self.after)?;
        Ok(text)
    }
}

/// A text with a blank in place of each `{`.
fn blanked(alloc: Global, text: &str) -> Result<String>
    ensures { IsValueOrMemory string_bytes result (blanked text.now) }
{
    let mut out = String::with_capacity(alloc, text.len())?;
    let mut rest = text.chars();
    while let Some(letter) = rest.next() {
        out.push(blank_for(letter))?;
    }
    Ok(out)
}

/// A blank for a `{`.
fn blank_for(letter: char) -> char
    ensures { result ≡ blank_for letter }
{
    if letter == '{' { ' ' } else { letter }
}
