//! Parentheses that hold no range: calls, lists and conditions of other languages.
use crate::characters::{is_digit, is_letter};
use crate::filters::{foreign_filter_hint, meant_here};
use crate::foreign_syntax::{ErrorSite, PieceContext};
use crate::misplaced_items::spelling_before;
use crate::phrasing::Phrasing;
use liquid_language::Language;
use liquid_lexer::{PlacedPiece, front_before};

/// What is meant by parentheses that hold no range.
pub(crate) fn in_parentheses<'s>(
    language: &Language,
    site: &ErrorSite<'s>,
    piece: &PlacedPiece<'s>,
) -> Option<Phrasing<'s>> {
    if !piece.rest.starts_with("(") || site.at_item || site.rest.starts_with("%}") {
        return None;
    }
    let bar = spelling_before(&piece.items, site.count.saturating_sub(1));
    if bar == "|" && site.count > 1 {
        return Some(called_filter(language, site, piece.rest));
    }
    if is_call(site, piece) {
        return Some(called(language, site, piece.rest));
    }
    let is_name = matches!(site.context, PieceContext::Loop) && site.count == 0;
    if !is_name && is_list(piece.rest) {
        let words = if let PieceContext::Loop = site.context {
            "a range is written `(1..5)`; a list can't be written in a template, `'a,b' | split: ','` makes one"
        } else {
            "a list can't be written in a template; `'a,b' | split: ','` makes one"
        };
        return Some(Phrasing::plain(piece.rest, words));
    }
    Some(Phrasing::plain(piece.rest, no_range(site)?))
}

/// Of a filter with parentheses after its name.
fn called_filter<'s>(language: &Language, site: &ErrorSite<'s>, opening: &'s str) -> Phrasing<'s> {
    if language.filters.get(site.before).is_none() {
        if let Some(phrasing) = foreign_filter_hint(&language.filters, site.before, opening) {
            return phrasing;
        }
    }
    let words = if is_empty(site, opening) {
        "`…()` is written `…`, without parentheses"
    } else {
        "arguments follow a `:`: write `…: ..` for `…(..)`"
    };
    Phrasing::quoting(opening, words, site.before, site.before)
}

/// Whether the parentheses are empty.
fn is_empty(site: &ErrorSite<'_>, opening: &str) -> bool {
    front_before(opening, site.rest) == "(" && site.rest.starts_with(")")
}

/// Whether the parentheses follow a name directly, as in a call.
fn is_call(site: &ErrorSite<'_>, piece: &PlacedPiece<'_>) -> bool {
    let is_word = matches!(
        site.before,
        "in" | "range" | "not" | "and" | "or" | "if" | "contains"
    );
    match piece.items.last() {
        Some(last) => {
            let end = last.from.len().saturating_sub(last.spelling.len());
            end == piece.rest.len() && !is_word && site.before.starts_with(is_letter)
        }
        None => false,
    }
}

/// Whether parentheses hold values with a `,` between them.
fn is_list(opening: &str) -> bool {
    match opening.split_once(')') {
        Some((inside, _)) => inside.contains(',') && !inside.contains(" and "),
        None => false,
    }
}

/// Of a name with parentheses after it.
fn called<'s>(language: &Language, site: &ErrorSite<'s>, opening: &'s str) -> Phrasing<'s> {
    if let PieceContext::Condition = site.context {
        let words =
            "a condition has no calls; write `a contains 'text'`, or `assign` the value before it";
        return Phrasing::plain(opening, words);
    }
    match site.before.rsplit_once('.') {
        Some((front, step)) => called_step(language, front, step, opening),
        None if opening.trim_start_matches('(').starts_with(is_digit) => {
            let words =
                "`…(..)` isn't known: a place in a list is written `…[0]`, and a filter, as `a | size`, stands for a call";
            Phrasing::quoting(opening, words, site.before, site.before)
        }
        None => {
            let words =
                "`…(..)` isn't known: a filter, as `a | size`, stands for a call, and parentheses hold a range, as `(1..5)`";
            Phrasing::quoting(opening, words, site.before, "")
        }
    }
}

/// Of a step that is called, after what it is a step of.
fn called_step<'s>(
    language: &Language,
    front: &'s str,
    step: &'s str,
    opening: &'s str,
) -> Phrasing<'s> {
    if language.filters.get(step).is_some() {
        let words = if opening.starts_with("()") {
            "a filter follows a `|`: write `… | …`"
        } else {
            "a filter follows a `|`, and its arguments a `:`: write `… | …: ..`"
        };
        return Phrasing::quoting(opening, words, front, step);
    }
    if let Some(filter) = meant_here(&language.filters, step) {
        let words = if opening.starts_with("()") {
            "write `… | ¤`"
        } else {
            "write `… | ¤: ..`"
        };
        return Phrasing::quoting(opening, words, front, filter);
    }
    match step {
        "get" => {
            let words = "write `….name` or `…['name']` for a part of `…`";
            Phrasing {
                third: front,
                ..Phrasing::quoting(opening, words, front, front)
            }
        }
        "items" | "each" | "entries" | "keys" | "values" => {
            let words =
                "a `for` goes over a map itself and gives pairs: `pair[0]` is the key, `pair[1]` the value";
            Phrasing::plain(opening, words)
        }
        _ => {
            let words = "`….…()` isn't known; a filter, as `a | size`, stands for a call";
            Phrasing::quoting(opening, words, front, step)
        }
    }
}

/// What the message says of parentheses that hold no range, where nothing is called.
fn no_range(site: &ErrorSite<'_>) -> Option<&'static str> {
    match site.context {
        PieceContext::Condition => {
            Some("a condition has no parentheses; put one `{% if %}` inside another")
        }
        PieceContext::Loop if site.count == 0 => {
            Some("a loop has one name and no parentheses around it, as `{% for i in list %}`")
        }
        PieceContext::Loop if site.rest.starts_with("reversed") => {
            Some("`reversed` stands after the range, as `(1..5) reversed`")
        }
        PieceContext::Loop => Some("a range has two ends and two dots between them, as `(1..5)`"),
        _ if site.rest.starts_with("}}") => None,
        _ => Some(
            "parentheses hold a range alone, as `(1..5)`; a filter, as `a | size`, stands for a call",
        ),
    }
}
