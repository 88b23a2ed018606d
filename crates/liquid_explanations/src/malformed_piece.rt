//! Faults of pieces that can't be read: of what stands where an item can't begin or go on, and of a
//! source that ends inside one.
use crate::characters::{is_digit, is_letter, is_letter_beyond, is_quote};
use crate::foreign_syntax::{ErrorSite, PieceContext, advice, context_of};
use crate::misplaced_items::{closer_of, closer_word, is_tag, not_wanted, spelling_before};
use crate::names::meant_tag;
use crate::numbers::{is_fraction, no_whole, number_front};
use crate::outline::Outline;
use crate::parentheses::in_parentheses;
use crate::paths::in_path;
use crate::phrasing::Phrasing;
use liquid_language::Language;
use liquid_lexer::{Delimiter, Expectation, Fault, FaultKind, PlacedPiece, front_before};

/// The words that are values, and no names.
static LITERALS: [&str; 4] = ["nil", "null", "true", "false"];

/// Of a piece that can't be read.
pub(crate) fn malformed<'s>(
    language: &Language,
    fault: &Fault,
    outline: &Outline<'s>,
    piece: &PlacedPiece<'s>,
) -> Phrasing<'s> {
    if let FaultKind::Unclosed = fault.kind {
        return unclosed(outline, piece);
    }
    if let Some(words) = foreign_tag(language, piece) {
        return Phrasing::plain(outline.at, words);
    }
    if !is_tag(language, piece.name) && !piece.name.is_empty() && piece.rest.starts_with(".") {
        let words = if piece.rest.starts_with(".each") {
            "a loop is written `{% for item in list %}`"
        } else {
            "no tag is named `…`; a value is shown by `{{ … }}`"
        };
        return Phrasing::quoting(outline.at, words, piece.name, piece.name);
    }
    malformed_item(language, fault, outline, piece)
}

/// What the message says of a tag that another language has, and whose items this one can't read.
fn foreign_tag(language: &Language, piece: &PlacedPiece<'_>) -> Option<&'static str> {
    if is_tag(language, piece.name) {
        return None;
    }
    meant_tag(piece.name)
}

/// Of an item that can't be read.
fn malformed_item<'s>(
    language: &Language,
    fault: &Fault,
    outline: &Outline<'s>,
    piece: &PlacedPiece<'s>,
) -> Phrasing<'s> {
    let from = outline.from;
    match fault.kind {
        FaultKind::NumberLiteral => {
            let words =
                "`…` is beyond the whole numbers of 64 bits, from -9223372036854775808 to 9223372036854775807";
            Phrasing::quoting(from, words, number_front(from), "")
        }
        FaultKind::FloatLiteral => no_whole(from, "", piece),
        FaultKind::StateWord => {
            let words = "`empty` and `blank` aren't known; compare with `''`, or `.size` with 0";
            Phrasing::plain(from, words)
        }
        _ => bad_item(language, fault, outline, piece),
    }
}

/// Of a source that ends inside a piece, which is reported at its opener, or inside a text, which
/// is reported at its quote.
fn unclosed<'s>(outline: &Outline<'s>, piece: &PlacedPiece<'s>) -> Phrasing<'s> {
    match outline.from.get(..1) {
        Some(quote) => unclosed_text(outline, quote, piece),
        None => {
            let words = "this `¤` has no `¤`";
            Phrasing::quoting(
                outline.at,
                words,
                opener_word(piece.kind),
                closer_word(piece.kind),
            )
        }
    }
}

/// Of a source that ends inside a text.
fn unclosed_text<'s>(
    outline: &Outline<'s>,
    quote: &'s str,
    piece: &PlacedPiece<'_>,
) -> Phrasing<'s> {
    let front = front_before(outline.at, outline.from);
    let words = if escapes_quote(piece) {
        "the text that begins here has no closing `¤`; `\\` escapes nothing, and a text stands between two `'` or two `\"`"
    } else if front.ends_with(is_letter) {
        "the text that begins here has no closing `¤`; one with a `'` in it stands between two `\"`"
    } else {
        "the text that begins here has no closing `¤`"
    };
    Phrasing::quoting(outline.from, words, quote, "")
}

/// Whether a text of the piece ends by a `\` before its quote.
fn escapes_quote(piece: &PlacedPiece<'_>) -> bool {
    for placed in &piece.items {
        if placed.spelling.ends_with("\\'") || placed.spelling.ends_with("\\\"") {
            return true;
        }
    }
    false
}

/// Of a `BadItem`, or of a tag without a name.
fn bad_item<'s>(
    language: &Language,
    fault: &Fault,
    outline: &Outline<'s>,
    piece: &PlacedPiece<'s>,
) -> Phrasing<'s> {
    let site = site_of(fault, outline.from, piece);
    if let Some(phrasing) = in_path(language, &site, piece) {
        return phrasing;
    }
    if let Some(phrasing) = in_parentheses(language, &site, piece) {
        return phrasing;
    }
    if let Some(phrasing) = in_value(&site, outline.at, piece) {
        return phrasing;
    }
    if let Some(phrasing) = after_text(&site, piece) {
        return phrasing;
    }
    if site.before == "<" && site.rest.starts_with("/") {
        return before_html(&site, outline.at);
    }
    match advice(&site) {
        Some(words) => Phrasing::plain(site.rest, words),
        None => with_opener(found_there(&site), outline.at, site.kind),
    }
}

/// Of a piece in which a text holds the closer, so that the piece goes on after it.
fn after_text<'s>(site: &ErrorSite<'s>, piece: &PlacedPiece<'s>) -> Option<Phrasing<'s>> {
    let closer = closer_word(site.kind);
    for placed in &piece.items {
        if placed.spelling.starts_with(is_quote) && placed.spelling.contains(closer) {
            let words = "found `…`; the text of § holds `¤`: is its closing quote missing?";
            return Some(Phrasing {
                other: placed.from,
                ..Phrasing::quoting(site.rest, words, first_word(site.rest, site.kind), closer)
            });
        }
    }
    None
}

/// Of an end of HTML before the closer.
fn before_html<'s>(site: &ErrorSite<'s>, at: &'s str) -> Phrasing<'s> {
    let words = "`</` is of HTML, and the `¤` of § has no `¤`";
    Phrasing {
        other: at,
        ..Phrasing::quoting(
            site.rest,
            words,
            opener_word(site.kind),
            closer_word(site.kind),
        )
    }
}

/// Where the piece can't be read.
fn site_of<'s>(fault: &Fault, from: &'s str, piece: &PlacedPiece<'s>) -> ErrorSite<'s> {
    let count = piece.items.len();
    ErrorSite {
        kind: piece.kind,
        context: context_of(piece),
        expected: fault.expected,
        before: spelling_before(&piece.items, count),
        first: spelling_before(&piece.items, 1),
        found: closer_of(from, piece.kind),
        rest: from,
        count,
        at_item: from.len() >= piece.rest.len(),
    }
}

/// What the message says of the end of the source, or of the value that the fault is in, at the end
/// of what was read of the piece, which begins at the other place.
fn in_value<'s>(
    site: &ErrorSite<'s>,
    at: &'s str,
    piece: &PlacedPiece<'s>,
) -> Option<Phrasing<'s>> {
    if matches!(site.rest.trim_end(), "-" | ".") {
        return Some(at_end(site, at));
    }
    let front = front_before(piece.rest, site.rest);
    if let Expectation::LiteralWithoutStep = site.expected {
        return Some(step_of_literal(site.rest, front));
    }
    if site.rest.starts_with("]") && front.trim_end().ends_with("[") {
        let words = "a place or a key is wanted in the brackets, as `a[0]` or `a['b']`";
        return Some(Phrasing::plain(site.rest, words));
    }
    if is_fraction(site) {
        return Some(no_whole(site.rest, "0", piece));
    }
    in_brackets(site, front)
}

/// What the message says of a fault in brackets, after what was read of the value.
fn in_brackets<'s>(site: &ErrorSite<'s>, front: &str) -> Option<Phrasing<'s>> {
    if matches!(site.expected, Expectation::ClosingBracket) && site.rest.starts_with(":") {
        let words = "a part of a list is taken by a filter, as `a | slice: 0, 2`";
        return Some(Phrasing::plain(site.rest, words));
    }
    let after = site.rest.trim_start_matches(is_digit).strip_prefix(".")?;
    if front.ends_with("[") && after.starts_with(is_letter) {
        let words = "a `]` is missing after the place, as in `a[0].b`";
        return Some(Phrasing::plain(site.rest, words));
    }
    None
}

/// Of a piece that the end of the source cuts off.
fn at_end<'s>(site: &ErrorSite<'s>, at: &'s str) -> Phrasing<'s> {
    let words = "the source ends here, and the `¤` of § has no `¤`";
    Phrasing {
        other: at,
        ..Phrasing::quoting(
            site.rest,
            words,
            opener_word(site.kind),
            closer_word(site.kind),
        )
    }
}

/// Of a step after a literal, with which the front ends.
fn step_of_literal<'s>(from: &'s str, front: &str) -> Phrasing<'s> {
    let step = from.get(..1).unwrap_or("");
    let words = "`¤` is a value without parts; a name is wanted before `¤`";
    Phrasing::quoting(from, words, literal_at_end(front), step)
}

/// The literal that a text ends with.
fn literal_at_end(text: &str) -> &'static str {
    for word in &LITERALS {
        if text.ends_with(*word) {
            return *word;
        }
    }
    "nil"
}

/// `found X where W is wanted`
fn found_there<'s>(site: &ErrorSite<'s>) -> Phrasing<'s> {
    let found = first_word(site.rest, site.kind);
    if begins_beyond(site.rest) {
        let words =
            "found `…`; a name has the letters a to z, digits, `_` and `-`, and others as in `a['é']`";
        return Phrasing::quoting(site.rest, words, found, "");
    }
    let is_value = matches!(site.expected, Expectation::Value);
    if is_value && site.found.is_empty() && site.count > 0 {
        return Phrasing::quoting(site.rest, "found `…`, which means nothing here", found, "");
    }
    if matches!(site.context, PieceContext::Assign) && site.count == 0 && site.at_item {
        let words = "found `…`; a name begins with a letter or `_`";
        return Phrasing::quoting(site.rest, words, found, "");
    }
    if let Expectation::WholeNumber = site.expected {
        let words = "found `…` where a whole number is wanted, which has digits alone";
        return Phrasing::quoting(site.rest, words, found, "");
    }
    not_wanted(site, found)
}

/// Adds where the piece opens that may lack its closer, if that is on another line.
fn with_opener<'s>(phrasing: Phrasing<'s>, at: &'s str, kind: Delimiter) -> Phrasing<'s> {
    if !front_before(at, phrasing.from).contains('\n') {
        return phrasing;
    }
    let then = match kind {
        Delimiter::Output => "; is the `{{` of § closed?",
        Delimiter::Tag => "; is the `{%` of § closed?",
    };
    Phrasing {
        then,
        other: at,
        ..phrasing
    }
}

/// Whether a letter beyond ASCII stands at the front, also after a `.`.
fn begins_beyond(text: &str) -> bool {
    text.strip_prefix(".")
        .unwrap_or(text)
        .starts_with(is_letter_beyond)
}

/// The text up to white space or a closer.
pub(crate) fn first_word(text: &str, kind: Delimiter) -> &str {
    let closer = closer_of(text, kind);
    if !closer.is_empty() {
        return closer;
    }
    let word = text.split_whitespace().next().unwrap_or("");
    let end = match word.find(closer_word(kind)) {
        Some(0) | None => word.len(),
        Some(end) => end,
    };
    word.get(..end).unwrap_or(word)
}

fn opener_word(kind: Delimiter) -> &'static str {
    match kind {
        Delimiter::Output => "{{",
        Delimiter::Tag => "{%",
    }
}
