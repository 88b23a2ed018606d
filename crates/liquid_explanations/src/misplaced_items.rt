//! Faults of items that aren't allowed where they stand.
use crate::characters::{begins_value, is_digit, is_letter, is_quote};
use crate::foreign_syntax::{ErrorSite, PieceContext, advice, context_of};
use crate::paths::after_path;
use crate::phrasing::Phrasing;
use crate::wanted::words_of;
use liquid_language::Language;
use liquid_lexer::{Delimiter, Expectation, Fault, PlacedItem, PlacedPiece, front_before};

/// Of an item that isn't allowed, or of a closer before which one is wanted.
pub(crate) fn misplaced<'s>(
    language: &Language,
    fault: &Fault,
    piece: &PlacedPiece<'s>,
) -> Phrasing<'s> {
    let site = site_of(fault, piece);
    if let Some(phrasing) = meant(language, &site, &piece.items) {
        return phrasing;
    }
    if let Some(phrasing) = unquoted_file(&site, &piece.items) {
        return phrasing;
    }
    if let Some(phrasing) = after_path(language, &site, piece) {
        return phrasing;
    }
    match advice(&site) {
        Some(words) => Phrasing::plain(site.rest, words),
        None => match after_first(language, &site) {
            Some(phrasing) => phrasing,
            None => not_wanted(&site, site.found),
        },
    }
}

/// Where the item stands, or the closer.
fn site_of<'s>(fault: &Fault, piece: &PlacedPiece<'s>) -> ErrorSite<'s> {
    let count = piece.items.len().saturating_sub(fault.items_remaining);
    let (rest, found) = match piece.items.get(count) {
        Some(placed) => (placed.from, placed.spelling),
        None => (piece.rest, closer_of(piece.rest, piece.kind)),
    };
    ErrorSite {
        kind: piece.kind,
        context: context_of(piece),
        expected: fault.expected,
        before: spelling_before(&piece.items, count),
        first: spelling_before(&piece.items, 1),
        found,
        rest,
        count,
        at_item: true,
    }
}

/// `found X where W is wanted`
pub(crate) fn not_wanted<'s>(site: &ErrorSite<'s>, found: &'s str) -> Phrasing<'s> {
    let wanted = words_of(site.expected);
    let words = match site.kind {
        _ if !wanted.ends_in_closer => "found `…` where ¤ is wanted",
        Delimiter::Output => "found `…` where ¤`}}` is wanted",
        Delimiter::Tag => "found `…` where ¤`%}` is wanted",
    };
    Phrasing::quoting(site.rest, words, found, wanted.words)
}

/// What the words of a chain or of an output show to be meant.
fn meant<'s>(
    language: &Language,
    site: &ErrorSite<'s>,
    items: &[PlacedItem<'s>],
) -> Option<Phrasing<'s>> {
    if let Some(phrasing) = decimal_comma(site, items) {
        return Some(phrasing);
    }
    match site.expected {
        Expectation::FilterOrCloser => after_value(language, site, items),
        Expectation::FilterName => in_place_of_filter(language, site, items),
        Expectation::FurtherPair => in_place_of_pair(site),
        Expectation::VariableName if !site.found.is_empty() => Some(Phrasing::quoting(
            site.rest,
            words_of_name(site.found),
            site.found,
            "",
        )),
        Expectation::EqualsSign if site.count == 1 && site.found.starts_with(is_letter) => {
            let words = "a name is one word: write `…_…`";
            Some(Phrasing::quoting(site.rest, words, site.before, site.found))
        }
        _ => None,
    }
}

/// What the message says of what stands in the place of a variable's name.
fn words_of_name(found: &str) -> &'static str {
    if found.starts_with(is_quote) {
        "found `…` where the name of a variable is wanted, which has no quotes"
    } else if found.contains(['.', '[']) {
        "found `…` where the name of a variable is wanted, which has no parts"
    } else {
        "found `…` where the name of a variable is wanted"
    }
}

/// What is meant by a number with a `,` and another one directly after it.
fn decimal_comma<'s>(site: &ErrorSite<'s>, items: &[PlacedItem<'s>]) -> Option<Phrasing<'s>> {
    let is_number = site.before.starts_with(is_digit) && site.before.ends_with(is_digit);
    if site.found != "," || !is_number || !site.rest.get(1..)?.starts_with(is_digit) {
        return None;
    }
    let number = items.get(site.count.checked_sub(1)?)?;
    let words = "`…,…` is no whole number, and templates have no others; count in a smaller unit";
    let fraction = spelling_at(items, site.count.saturating_add(1));
    Some(Phrasing::quoting(number.from, words, site.before, fraction))
}

/// What is meant by the name of a file without quotes, in an `include` or a `render`.
fn unquoted_file<'s>(site: &ErrorSite<'s>, items: &[PlacedItem<'s>]) -> Option<Phrasing<'s>> {
    let name = items.first()?;
    let is_file = name.spelling.ends_with(".html") || name.spelling.ends_with(".liquid");
    let is_partial = matches!(site.context, PieceContext::Partial);
    // Jekyll's `include` takes it without quotes
    if !is_partial || !is_file || matches!(site.expected, Expectation::JekyllPair) {
        return None;
    }
    let words = "the name of a partial stands in quotes: write `'…'`";
    Some(Phrasing::quoting(name.from, words, name.spelling, ""))
}

/// What is meant by what stands in the place of a filter's name.
fn in_place_of_filter<'s>(
    language: &Language,
    site: &ErrorSite<'s>,
    items: &[PlacedItem<'s>],
) -> Option<Phrasing<'s>> {
    let next = spelling_at(items, site.count.saturating_add(1));
    if site.found == "|" && language.filters.get(next).is_some() {
        let words = "`||` is written `|`: write `| …`";
        return Some(Phrasing::quoting(site.rest, words, next, ""));
    }
    let (filter, step) = site.found.split_once('.')?;
    language.filters.get(filter)?;
    let words =
        "a filter's name has no parts; `{% assign x = a | ¤ %}` keeps the value, and then `x.…` is its part";
    Some(Phrasing::quoting(site.rest, words, filter, step))
}

/// The intended meaning of what stands where a filter or the closer is expected.
fn after_value<'s>(
    language: &Language,
    site: &ErrorSite<'s>,
    items: &[PlacedItem<'s>],
) -> Option<Phrasing<'s>> {
    if is_adjacent(site, items) {
        if let Some(phrasing) = directly_after(site) {
            return Some(phrasing);
        }
    }
    if language.filters.get(site.found).is_some() {
        let words = "a filter follows a `|`: write `| …`";
        return Some(Phrasing::quoting(site.rest, words, site.found, ""));
    }
    match site.count {
        0 => None,
        1 => tag_in_output(language, site),
        _ => in_arguments(site, spelling_before(items, site.count.saturating_sub(1))),
    }
}

/// What is meant by the name of a tag at the front of an output.
fn tag_in_output<'s>(language: &Language, site: &ErrorSite<'s>) -> Option<Phrasing<'s>> {
    if !matches!(site.context, PieceContext::Output) || !is_tag(language, site.before) {
        return None;
    }
    let words = "`…` begins a tag: write `{% … .. %}`";
    Some(Phrasing::quoting(site.rest, words, site.before, site.before))
}

/// What is meant by a second value in an output.
fn after_first<'s>(language: &Language, site: &ErrorSite<'s>) -> Option<Phrasing<'s>> {
    let is_second = matches!(site.context, PieceContext::Output) && site.count == 1;
    if !is_second || !site.found.starts_with(begins_value) {
        return None;
    }
    let is_name = site.found.starts_with(is_letter);
    let words = match site.before {
        "len" => "`len a` is written `a.size`",
        "index" | "lookup" => "`… a 0` is written `a[0]`, and of a map `a['b']`",
        "template" | "block" => "a partial is taken in by `{% render 'name' %}`",
        "define" => "`define` isn't known; a partial stands in a file of its own",
        "printf" => "`printf` isn't known; `append` and `prepend` join texts",
        before if before.starts_with(is_digit) && site.found.starts_with(is_digit) => {
            "a number has no white space in it: write `…¤`"
        }
        before if language.filters.get(before).is_some() => {
            "a filter follows its value and a `|`: write `{{ a | … }}`"
        }
        before if before.starts_with(is_letter) && is_name && has_more(site) => {
            let words = "a filter follows its value and a `|`, as `{{ … | ¤: .. }}`";
            return Some(Phrasing::quoting(site.rest, words, site.found, before));
        }
        before if before.starts_with(is_letter) && is_name => {
            "a name is one word, and a part of one is written `….…`"
        }
        _ => "an output shows one value; write `{{ a }}{{ b }}`",
    };
    Some(Phrasing::quoting(site.rest, words, site.before, site.found))
}

/// Whether one more value follows the one at the fault.
fn has_more(site: &ErrorSite<'_>) -> bool {
    match site.rest.strip_prefix(site.found) {
        Some(after) => after.trim_start().starts_with(begins_value),
        None => false,
    }
}

/// What is meant by what stands where a pair is wanted, after the name of a partial.
fn in_place_of_pair<'s>(site: &ErrorSite<'s>) -> Option<Phrasing<'s>> {
    if site.found.starts_with(is_quote) && site.before == "," {
        let words = "the name of a pair stands without quotes, as `name: value`";
        return Some(Phrasing::plain(site.rest, words));
    }
    let is_closer = site.found.ends_with("%}") || site.found == ",";
    if !is_closer || !site.before.starts_with(is_letter) || site.count < 3 {
        return None;
    }
    let words = "a value is passed under a name, as `name: …`";
    Some(Phrasing::quoting(site.rest, words, site.before, ""))
}

/// What is meant by what stands where the arguments of a filter may; the bar stands two items
/// before it.
fn in_arguments<'s>(site: &ErrorSite<'s>, bar: &str) -> Option<Phrasing<'s>> {
    if site.rest.starts_with("=>") {
        return None;
    }
    if let Some(words) = sign_in_arguments(bar, site) {
        return Some(Phrasing::plain(site.rest, words));
    }
    if !site.found.starts_with(begins_value) || joins_values(site.found) {
        return None;
    }
    let words = one_more_argument(bar)?;
    Some(Phrasing::quoting(site.rest, words, site.before, site.found))
}

/// What the message says of a sign after a filter or an argument of one.
fn sign_in_arguments(bar: &str, site: &ErrorSite<'_>) -> Option<&'static str> {
    match (site.found, bar) {
        ("=" | "==", ":" | ",") if site.before.starts_with(is_quote) => Some(
            "arguments of a filter have a `,` between them, as `'a', 'b'`",
        ),
        ("with" | "by" | "to", ":" | ",") => Some(
            "arguments of a filter have a `,` between them, as `'a', 'b'`",
        ),
        (":", _) | ("=", ":" | ",") => Some(
            "arguments of a filter have no names; write the value alone, as `truncate: 5`",
        ),
        (",", "|") => Some("filters follow one another by `|`, as `a | strip | upcase`"),
        _ => None,
    }
}

/// Whether a word stands between two values in a condition or a choice.
fn joins_values(word: &str) -> bool {
    matches!(word, "if" | "or" | "and" | "in" | "contains" | "then")
}

/// What the message says of a value after a filter's name (`|` stands before that) or after an
/// argument.
fn one_more_argument(bar: &str) -> Option<&'static str> {
    match bar {
        "|" => Some("arguments follow a `:`: write `…: …`"),
        ":" | "," => Some("arguments have a `,` between them: write `…, …`"),
        _ => None,
    }
}

/// What is meant by what directly follows a value.
fn directly_after<'s>(site: &ErrorSite<'s>) -> Option<Phrasing<'s>> {
    if site.before.ends_with(']') && site.found.starts_with(is_letter) {
        let words = "a `.` is missing: write `….…`";
        return Some(Phrasing::quoting(site.rest, words, site.before, site.found));
    }
    if site.before.ends_with(is_quote) && site.found.starts_with(is_quote) {
        let words =
            "a text with a `'` in it stands between two `\"`, and one with a `\"` between two `'`";
        return Some(Phrasing::plain(site.rest, words));
    }
    if site.count == 1 && site.found == ":" && !site.rest.starts_with("::") {
        let words = "found `:`; a part is written `a.b`, and arguments follow a filter's name";
        return Some(Phrasing::plain(site.rest, words));
    }
    None
}

/// Whether the item at the site directly follows the one before it.
pub(crate) fn is_adjacent(site: &ErrorSite<'_>, items: &[PlacedItem<'_>]) -> bool {
    match items.get(site.count.saturating_sub(1)) {
        Some(last) => last.from.len().saturating_sub(last.spelling.len()) == site.rest.len(),
        None => false,
    }
}

/// Whether a tag, a block, an end or a control word has the name.
pub(crate) fn is_tag(language: &Language, name: &str) -> bool {
    language.tags.get(name).is_some()
        || language.blocks.get(name).is_some()
        || language.host_tags.get(name).is_some()
}

/// The spelling of the item of the index, or none.
pub(crate) fn spelling_at<'s>(items: &[PlacedItem<'s>], index: usize) -> &'s str {
    match items.get(index) {
        Some(placed) => placed.spelling,
        None => "",
    }
}

/// The spelling of the item before the index, or `^` where none stands there.
pub(crate) fn spelling_before<'s>(items: &[PlacedItem<'s>], index: usize) -> &'s str {
    match index.checked_sub(1) {
        Some(before) => spelling_at(items, before),
        None => "^",
    }
}

/// The closer at the front, or an empty text.
pub(crate) fn closer_of(text: &str, kind: Delimiter) -> &str {
    let inside = text.strip_prefix("-").unwrap_or(text);
    match inside.strip_prefix(closer_word(kind)) {
        Some(after) => front_before(text, after),
        None => "",
    }
}

pub(crate) fn closer_word(kind: Delimiter) -> &'static str {
    match kind {
        Delimiter::Output => "}}",
        Delimiter::Tag => "%}",
    }
}
