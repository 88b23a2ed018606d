//! What follows a piece of a source.
ghost use Rattle.std.specs.Prelude.{◌≡◌, IfOk, option_map};
ghost use Rattle.liquid_warnings.specs.PastPieces.{past_piece};

use liquid_language::{BlockContext, Language, body_after, markup_after};
use liquid_lexer::{ParseError, read_body};
use std::alloc::{AllocError, Global};

/// What follows the output or the tag after a `{`, and its body where that isn't read; nothing
/// where it can't be read. A body without its end is all that follows.
///
/// `AllocError` where a growth was refused, and nowhere else.
pub fn past_piece<'s>(
    alloc: Global,
    language: &Language,
    inside: &'s str,
) -> Result<Option<&'s str>, AllocError>
    ensures { IfOk result (λ after. option_map (λ text. text.now) after
        ≡ past_piece language.now inside.now) }
{
    let (markup, after) = match markup_after(alloc, language, inside) {
        Ok(read) => read,
        Err(ParseError::Fault(_)) => return Ok(None),
        Err(ParseError::Memory) => return Err(AllocError),
    };
    let body = body_after(language, BlockContext::Outside, &markup.piece);
    match read_body(body, markup, after) {
        Ok((_, after)) => Ok(Some(after)),
        Err(ParseError::Fault(_)) => Ok(Some("")),
        Err(ParseError::Memory) => Err(AllocError),
    }
}
