//! The message of a refused source: where its fault stands, what is found there, and what to write
//! instead. The source is read once more for that, and only then.
#![tactic(auto)]

ghost use Rattle.std.specs.Prelude.{◌≤◌, IfOk, length};

mod blocks;
mod characters;
mod filters;
mod foreign_syntax;
mod malformed_piece;
mod misplaced_items;
mod names;
mod numbers;
mod outline;
mod parentheses;
mod paths;
mod phrasing;
mod similar;
mod wanted;

use crate::blocks::{missing_end, unknown_tag};
use crate::filters::{miscounted, unknown_filter};
use crate::malformed_piece::malformed;
use crate::misplaced_items::misplaced;
use crate::outline::{Outline, outline_at};
use crate::phrasing::{Phrasing, message_of};
use liquid_language::{Language, style_after};
use liquid_lexer::{Fault, FaultKind, PlacedPiece, Style, placed_piece};
use liquid_model::past_byte;
use std::alloc::{AllocError, Global};

/// What the message says of a fault.
#[derive(Drop)]
pub struct Explanation {
    /// How many bytes of the source remain from the place on that it is about.
    pub remaining: usize,
    pub message: String,
}

/// What the message says of the fault that a source has in a language. The place that it is about
/// lies in the source; which place that is, and the words, are tested.
///
/// `AllocError` where a growth was refused, and nowhere else.
pub fn explanation_of(
    alloc: Global,
    source: &str,
    language: &Language,
    fault: Fault,
) -> Result<Explanation, AllocError>
    ensures place { IfOk result (λ e. e.remaining ≤ length source.now) }
{
    let outline = outline_at(alloc, source, language, fault.remaining)?;
    let piece = placed_piece(alloc, outline.at, style_at(language, outline.at))?;
    let phrasing = phrasing_of(alloc, language, &fault, &outline, &piece)?;
    let message = message_of(alloc, source, &phrasing)?;
    Ok(Explanation {
        remaining: phrasing.from.len().min(source.len()),
        message,
    })
}

/// The style in which the piece with which a text begins is read.
fn style_at(language: &Language, text: &str) -> Style {
    match past_byte(text, b'{') {
        Some(inside) => style_after(language, inside),
        None => Style::Items,
    }
}

/// What the message says of a fault in a piece.
fn phrasing_of<'s>(
    alloc: Global,
    language: &'s Language,
    fault: &Fault,
    outline: &Outline<'s>,
    piece: &PlacedPiece<'s>,
) -> Result<Phrasing<'s>, AllocError> {
    match fault.kind {
        FaultKind::UnknownTag => unknown_tag(alloc, language, outline, piece),
        FaultKind::UnknownFilter => unknown_filter(alloc, language, piece, outline.at),
        FaultKind::FilterArguments => miscounted(alloc, language, piece, outline.at),
        FaultKind::MissingEnd => Ok(missing_end(language, fault, outline, piece.name)),
        FaultKind::TooNested => Ok(too_nested(outline.from)),
        FaultKind::Expected if fault.remaining == outline.at.len() => {
            Ok(misplaced(language, fault, piece))
        }
        FaultKind::Unclosed
        | FaultKind::BadItem
        | FaultKind::NumberLiteral
        | FaultKind::FloatLiteral
        | FaultKind::StateWord
        | FaultKind::Expected => Ok(malformed(language, fault, outline, piece)),
    }
}

/// Of brackets or blocks, whichever begin there.
fn too_nested(from: &str) -> Phrasing<'_> {
    let words = if from.starts_with("[") {
        "brackets nest at most 200 deep"
    } else {
        "blocks nest at most 200 deep"
    };
    Phrasing::plain(from, words)
}
