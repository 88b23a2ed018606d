//! Faults of tags' names and of blocks.
use crate::misplaced_items::spelling_at;
use crate::names::meant_tag;
use crate::outline::{Opener, Otherwise, Outline};
use crate::phrasing::Phrasing;
use crate::similar::most_similar;
use crate::wanted::words_of;
use liquid_core::{SimilarName, more_similar};
use liquid_language::{Block, Language, begins_with_end, end_tag};
use liquid_lexer::{Fault, PlacedPiece};
use std::alloc::{AllocError, Global};

/// Of a tag whose name isn't known where it stands: an end or a control word in the wrong place, or
/// a name that no tag has.
pub(crate) fn unknown_tag<'s>(
    alloc: Global,
    language: &'s Language,
    outline: &Outline<'s>,
    piece: &PlacedPiece<'s>,
) -> Result<Phrasing<'s>, AllocError> {
    let name = piece.name;
    if begins_with_end(name) {
        return Ok(wrong_end(language, outline, name));
    }
    if is_control(name) {
        return Ok(wrong_control(language, outline, name));
    }
    unknown_name(alloc, language, outline.at, piece)
}

fn is_control(name: &str) -> bool {
    matches!(name, "else" | "elsif" | "when")
}

/// Of a source that ends in a block, at the tag that begins it. The name is that of the piece which
/// the fault is in, if it is in one:
/// then that piece begins a verbatim body.
pub(crate) fn missing_end<'s>(
    language: &'s Language,
    fault: &Fault,
    outline: &Outline<'s>,
    name: &'s str,
) -> Phrasing<'s> {
    if !outline.at.is_empty() {
        let words = "`{% … %}` has no `{% ¤ %}`";
        return Phrasing::quoting(outline.at, words, name, words_of(fault.expected).words);
    }
    match outline.open.last() {
        Some(opener) => block_without_end(language, opener),
        None => {
            let words = "the source ends where `{% ¤ %}` is wanted";
            Phrasing::quoting("", words, words_of(fault.expected).words, "")
        }
    }
}

fn block_without_end<'s>(language: &'s Language, opener: &Opener<'s>) -> Phrasing<'s> {
    let words = "`{% … %}` has no `{% ¤ %}`";
    let end = end_tag(language, opener.block);
    Phrasing::quoting(opener.from, words, opener.name, end)
}

/// An end of another block than the innermost, or of none.
fn wrong_end<'s>(language: &'s Language, outline: &Outline<'s>, name: &'s str) -> Phrasing<'s> {
    match outline.open.last() {
        Some(opener) => {
            let words = "found `{% … %}` where `{% ¤ %}` is wanted, the end of the `{% … %}` of §";
            let end = end_tag(language, opener.block);
            Phrasing {
                third: opener.name,
                other: opener.from,
                ..Phrasing::quoting(outline.at, words, name, end)
            }
        }
        None => {
            let words = "found `{% … %}`, and no block is open here that ends";
            Phrasing::quoting(outline.at, words, name, "")
        }
    }
}

/// A control word that the innermost block doesn't know, or knows no longer, or that stands in no
/// block.
fn wrong_control<'s>(language: &'s Language, outline: &Outline<'s>, name: &'s str) -> Phrasing<'s> {
    let Some(opener) = outline.open.last() else {
        let words = "found `{% ¤ %}`, and no block is open here";
        return Phrasing::quoting(outline.at, words, name, "");
    };
    match (opener.block, opener.otherwise) {
        (Block::If | Block::Unless | Block::Case | Block::For, Some(otherwise)) => {
            after_else(outline.at, otherwise, name)
        }
        _ => strange_control(language, outline.at, opener, name),
    }
}

/// A control word that its block doesn't know.
fn strange_control<'s>(
    language: &'s Language,
    at: &'s str,
    opener: &Opener<'s>,
    name: &'s str,
) -> Phrasing<'s> {
    let words = if name == "elsif" && matches!(opener.block, Block::Unless) {
        "found `{% ¤ %}`, which the `{% … %}` of § can't have; it may have one `{% else %}`"
    } else {
        "found `{% ¤ %}`, which the `{% … %}` of § can't have; is its `{% ¤ %}` missing?"
    };
    Phrasing {
        third: end_tag(language, opener.block),
        other: opener.from,
        ..Phrasing::quoting(at, words, name, opener.name)
    }
}

/// A control word in the last body of its block.
fn after_else<'s>(at: &'s str, otherwise: Otherwise<'s>, name: &'s str) -> Phrasing<'s> {
    let then = if otherwise.has_items {
        "; write `elsif` in place of `else if`"
    } else {
        ""
    };
    let words = "found `{% ¤ %}` after the `else` of §, which comes last";
    Phrasing {
        then,
        other: otherwise.from,
        ..Phrasing::quoting(at, words, name, "")
    }
}

/// A name that no tag has here.
fn unknown_name<'s>(
    alloc: Global,
    language: &'s Language,
    at: &'s str,
    piece: &PlacedPiece<'s>,
) -> Result<Phrasing<'s>, AllocError> {
    let name = piece.name;
    if let Some(words) = meant_tag(name) {
        return Ok(Phrasing::plain(at, words));
    }
    let similar = similar_tag(alloc, language, name)?;
    Ok(match similar {
        Some(similar) => {
            let words = "no tag is named `…`; did you mean `…`?";
            Phrasing::quoting(at, words, name, similar.name)
        }
        None if spelling_at(&piece.items, 0) == "=" => {
            let words = "no tag is named `…`; a name is set by `{% assign … = .. %}`";
            Phrasing::quoting(at, words, name, name)
        }
        None if piece.items.is_empty() => {
            let words = "no tag is named `…`; a value is shown by `{{ … }}`";
            Phrasing::quoting(at, words, name, name)
        }
        None => Phrasing::quoting(at, "no tag is named `…`", name, ""),
    })
}

/// The most similar name of a tag, a block or a control word.
fn similar_tag<'n>(
    alloc: Global,
    language: &'n Language,
    name: &str,
) -> Result<Option<SimilarName<'n>>, AllocError> {
    let similar = most_similar(alloc, language.tags.names(), name, None)?;
    let similar = most_similar(alloc, language.blocks.names(), name, similar)?;
    let similar = most_similar(alloc, language.host_tags.names(), name, similar)?;
    let similar = more_similar(alloc, "else", name, similar)?;
    more_similar(alloc, "elsif", name, similar)
}
