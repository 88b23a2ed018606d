//! What stands after `else`, and isn't read.
ghost use Rattle.std.specs.Prelude.{◌≡◌, ◌≤◌, IfErr, IfOk, length};
ghost use Rattle.liquid_warnings.specs.Otherwise.{has_items};

use crate::pieces::past_piece;
use crate::warnings::MOST_WARNINGS;
use liquid_core::{ErrorKind, Location, Result};
use liquid_language::Language;
use liquid_lexer::{ParseError, Piece, Style, read_markup, text_before};
use liquid_model::{location, past_byte};
use std::alloc::{AllocError, Global};

/// Where an `else` has something after it, as in `{% else if x %}`: an `if` and an `unless` pass
/// over that, so their `else` runs whatever it says. These are the first `MOST_WARNINGS` places.
///
/// The answer is `Memory` where a growth was refused, and no other kind.
pub fn else_items(alloc: Global, source: &str, language: &Language) -> Result<Vec<Location>>
    ensures few { IfOk result (λ places. length places.items ≤ 100) }
    ensures memory { IfErr result (λ e. e.kind ≡ ErrorKind.Memory) }
{
    let mut places = Vec::new(alloc);
    let mut rest = source;
    // each piece takes a byte at least
    'pieces: for _ in 0..source.len() {
        let (_, at) = text_before(rest);
        let Some(inside) = past_byte(at, b'{') else {
            break;
        };
        if has_items(alloc, inside)? {
            places.push(location(source, at.len()))?;
        }
        if places.len() >= MOST_WARNINGS {
            break;
        }
        rest = match past_piece(alloc, language, inside)? {
            Some(after) => after,
            None => inside,
        };
    }
    Ok(places)
}

/// Whether the piece after a `{` is an `else` with items.
fn has_items(alloc: Global, inside: &str) -> std::result::Result<bool, AllocError>
    ensures { IfOk result (λ b. b ≡ has_items inside.now) }
{
    match read_markup(alloc, inside, Style::Items) {
        Ok((markup, _)) => match &markup.piece {
            Piece::Tag(name, items) => Ok(*name == "else" && !items.is_empty()),
            Piece::Output(_) | Piece::Raw(_, _) | Piece::Comment(_) => Ok(false),
        },
        Err(ParseError::Fault(_)) => Ok(false),
        Err(ParseError::Memory) => Err(AllocError),
    }
}
