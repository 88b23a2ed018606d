//! Numbers that aren't whole.
use crate::characters::{ends_value, is_digit, is_sign};
use crate::foreign_syntax::{ErrorSite, PieceContext, context_of};
use crate::phrasing::Phrasing;
use liquid_lexer::{PlacedPiece, front_before};

/// Of a number with a fraction: what it is in a smaller unit, where it can be computed with. It
/// needs the `before` in front of it to be a text that is a number.
pub(crate) fn no_whole<'s>(
    from: &'s str,
    before: &'static str,
    piece: &PlacedPiece<'s>,
) -> Phrasing<'s> {
    let number = number_front(from);
    let Some((smaller, unit)) = in_smaller_unit(number) else {
        let words =
            "`…` is no whole number, and templates have no others; as a text, `'¤…'`, it can be shown and rounded";
        return Phrasing {
            third: number,
            ..Phrasing::quoting(from, words, number, before)
        };
    };
    let words = match (unit, last_filter(piece)) {
        (1, Some("divided_by")) => {
            "`…` has a fraction, and templates have whole numbers alone; write `¹`, which drops \
            the rest, and `modulo: ¹` for that"
        }
        (1, _) => "`…` has a fraction, and templates have whole numbers alone; write `¹`",
        _ => words_of_fraction(piece),
    };
    Phrasing {
        third: number,
        numbers: (smaller, unit),
        ..Phrasing::quoting(from, words, number, before)
    }
}

/// What the message says of a number with a fraction that isn't zero, by what it is for.
fn words_of_fraction(piece: &PlacedPiece<'_>) -> &'static str {
    match (last_filter(piece), context_of(piece)) {
        (Some("times"), _) => {
            "`…` is no whole number, and templates have no others; write `times: ¹ | divided_by: ²`"
        }
        (Some("divided_by"), _) => {
            "`…` is no whole number, and templates have no others; write `times: ² | divided_by: ¹`"
        }
        (Some("plus" | "minus" | "modulo" | "at_least" | "at_most"), _)
        | (None, PieceContext::Condition) => {
            "`…` is no whole number, and templates have no others; count in a smaller unit, of which ² make 1, and write `¹`"
        }
        (Some("append" | "prepend" | "default" | "replace"), _)
        | (None, PieceContext::Output | PieceContext::Assign) => {
            "`…` is no whole number, and templates have no others; as a text, `'¤…'`, it can be shown and rounded, and to compute count in a smaller unit, of which ² make 1, and write `¹`"
        }
        _ => "`…` is no whole number, and a whole one is wanted here",
    }
}

/// The name of the last filter of a piece.
fn last_filter<'s>(piece: &PlacedPiece<'s>) -> Option<&'s str> {
    let mut name = None;
    let mut is_bar = false;
    for placed in &piece.items {
        if is_bar {
            name = Some(placed.spelling);
        }
        is_bar = placed.spelling == "|";
    }
    name
}

/// A number without its point and the zeros at its end, and how many of that unit are one; for no
/// number with more than 15 digits or a sign.
fn in_smaller_unit(number: &str) -> Option<(usize, usize)> {
    let (whole, fraction) = number.split_once(".")?;
    let fraction = fraction.trim_end_matches('0');
    if whole.len().saturating_add(fraction.len()) > 15 {
        return None;
    }
    let mut smaller: usize = 0;
    for c in whole.chars().chain(fraction.chars()) {
        let digit = c.to_digit(10)?;
        smaller = smaller.saturating_mul(10).saturating_add(digit as usize);
    }
    let mut unit: usize = 1;
    for _ in fraction.chars() {
        unit = unit.saturating_mul(10);
    }
    Some((smaller, unit))
}

/// The number at the front, with its fraction.
pub(crate) fn number_front(text: &str) -> &str {
    let unsigned = text.trim_start_matches(is_sign);
    let after = unsigned.trim_start_matches(is_digit);
    let after = match after.strip_prefix(".") {
        Some(fraction) => fraction.trim_start_matches(is_digit),
        None => after,
    };
    front_before(text, after)
}

/// Of a number with a `,` and digits directly after it, where that is the first argument of the
/// filter with whose name the source begins.
pub(crate) fn comma_in_argument(from: &str) -> Option<Phrasing<'_>> {
    let (_, arguments) = from.split_once(':')?;
    let number = arguments.trim_start();
    let after = number.trim_start_matches(is_digit);
    let fraction = after.strip_prefix(",")?;
    if after.len() == number.len() || !fraction.starts_with(is_digit) {
        return None;
    }
    let rest = fraction.trim_start_matches(is_digit);
    let words = "`…` is no whole number, and templates have no others; count in a smaller unit";
    Some(Phrasing::quoting(number, words, front_before(number, rest), ""))
}

/// Whether a number begins by a `.`, after no value that this could be a step of.
pub(crate) fn is_fraction(site: &ErrorSite<'_>) -> bool {
    match site.rest.strip_prefix(".") {
        Some(after) if site.at_item => {
            after.starts_with(is_digit) && !site.before.ends_with(ends_value)
        }
        _ => false,
    }
}
