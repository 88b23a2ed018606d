//! Faults of a path without quotes, with which a tag begins.
use crate::foreign_syntax::ErrorSite;
use crate::malformed_piece::first_word;
use crate::misplaced_items::is_adjacent;
use crate::phrasing::Phrasing;
use liquid_language::{Language, style_of};
use liquid_lexer::{PlacedPiece, Style};

/// Of an item that directly follows the path of a tag. A `,` has words of its own.
pub(crate) fn after_path<'s>(
    language: &Language,
    site: &ErrorSite<'s>,
    piece: &PlacedPiece<'s>,
) -> Option<Phrasing<'s>> {
    if site.count == 0 || site.found == "," {
        return None;
    }
    in_path(language, site, piece)
}

/// Of what can't stand in the path of a tag, or directly after it.
pub(crate) fn in_path<'s>(
    language: &Language,
    site: &ErrorSite<'s>,
    piece: &PlacedPiece<'s>,
) -> Option<Phrasing<'s>> {
    let has_path = matches!(style_of(language, piece.name), Style::PathFirst);
    let is_in_path = match site.count {
        0 => true,
        1 => is_adjacent(site, &piece.items),
        _ => false,
    };
    if !has_path || !is_in_path {
        return None;
    }
    if site.rest.starts_with("{{") {
        let words =
            "the path of an `include` is not computed; `{% render name %}` takes a name that is";
        return Some(Phrasing::plain(site.rest, words));
    }
    let words =
        "found `…`; a path has ASCII letters, digits, `_-./()+~#@`, no two of `.` and `/` in a row";
    Some(Phrasing::quoting(site.rest, words, first_word(site.rest, site.kind), ""))
}
