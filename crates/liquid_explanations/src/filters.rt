//! Faults of filters: of one that isn't known, and of one with more or fewer arguments than it
//! takes.
use crate::names::{kind_of_filter, lacking_filter, meant_filter};
use crate::numbers::comma_in_argument;
use crate::phrasing::Phrasing;
use crate::similar::most_similar;
use liquid_language::{FilterRegistry, HostKind, Language, RegisteredFilter};
use liquid_lexer::{Item, PlacedItem, PlacedPiece, Symbol};
use std::alloc::{AllocError, Global};

/// No filter that exists takes more arguments.
const MOST_ARGUMENTS: usize = 8;

/// A filter of a chain.
#[derive(Clone, Copy)]
struct WrittenFilter<'s> {
    name: &'s str,
    /// The source from its name on.
    from: &'s str,
    arguments: usize,
    /// Whether a `:` follows its name.
    has_colon: bool,
    /// Whether a `:` follows an argument.
    names_arguments: bool,
}

/// Of the first filter that isn't registered.
pub(crate) fn unknown_filter<'s>(
    alloc: Global,
    language: &'s Language,
    piece: &PlacedPiece<'s>,
    at: &'s str,
) -> Result<Phrasing<'s>, AllocError> {
    if let Some(filter) = host_filter(language, piece.name) {
        let words = "`…` calls the filter `…`, which isn't registered";
        return Ok(Phrasing::quoting(at, words, piece.name, filter));
    }
    let calls = calls(alloc, &piece.items)?;
    match unregistered(&language.filters, &calls) {
        Some(call) => unknown_name(alloc, &language.filters, &call),
        None => Ok(Phrasing::plain(at, "a filter isn't known")),
    }
}

/// Of a filter that isn't registered: what it is called here, or the most similar name.
fn unknown_name<'s>(
    alloc: Global,
    filters: &'s FilterRegistry,
    call: &WrittenFilter<'s>,
) -> Result<Phrasing<'s>, AllocError> {
    match foreign_filter_hint(filters, call.name, call.from) {
        Some(phrasing) => Ok(phrasing),
        None => similar_filter(alloc, filters, call),
    }
}

/// Of a filter of another language, at the source from its name on.
pub(crate) fn foreign_filter_hint<'s>(
    filters: &FilterRegistry,
    name: &'s str,
    from: &'s str,
) -> Option<Phrasing<'s>> {
    if let Some(meant) = meant_here(filters, name) {
        let words = "no filter is named `…`; write `¤`";
        return Some(Phrasing::quoting(from, words, name, meant));
    }
    let phrasing = lacking_filter(name)?;
    Some(Phrasing::quoting(from, "no filter is named `…`; ¤", name, phrasing))
}

/// The filter that is meant by a name of another language, where it is registered.
pub(crate) fn meant_here(filters: &FilterRegistry, name: &str) -> Option<&'static str> {
    match meant_filter(name) {
        Some(meant) if filters.get(meant).is_some() => Some(meant),
        _ => None,
    }
}

/// Of a filter whose name no other language has either.
fn similar_filter<'s>(
    alloc: Global,
    filters: &'s FilterRegistry,
    call: &WrittenFilter<'s>,
) -> Result<Phrasing<'s>, AllocError> {
    let similar = most_similar(alloc, filters.names(), call.name, None)?;
    Ok(match similar {
        Some(similar) => {
            let words = "no filter is named `…`; did you mean `…`?";
            Phrasing::quoting(call.from, words, call.name, similar.name)
        }
        None => match kind_of_filter(call.name) {
            Some(words) => Phrasing::quoting(
                call.from,
                "no filter is named `…`; ¤",
                call.name,
                words,
            ),
            None => Phrasing::quoting(call.from, "no filter is named `…`", call.name, ""),
        },
    })
}

/// Of the first filter that doesn't take the number of its arguments.
pub(crate) fn miscounted<'s>(
    alloc: Global,
    language: &Language,
    piece: &PlacedPiece<'s>,
    at: &'s str,
) -> Result<Phrasing<'s>, AllocError> {
    let calls = match host_filter(language, piece.name) {
        Some(filter) => return Ok(miscounted_values(&language.filters, filter, piece, at)),
        None => calls(alloc, &piece.items)?,
    };
    Ok(match refused(&language.filters, &calls) {
        Some((call, filter)) => match comma_in_argument(call.from) {
            Some(phrasing) if call.arguments == 2 => phrasing,
            _ => miscount(&call, bounds(filter)),
        },
        None => Phrasing::plain(at, "a filter takes another number of arguments"),
    })
}

/// Of a host's tag or block whose filter doesn't take the number of its values.
fn miscounted_values<'s>(
    filters: &FilterRegistry,
    filter: &str,
    piece: &PlacedPiece<'s>,
    at: &'s str,
) -> Phrasing<'s> {
    let tag = WrittenFilter {
        name: piece.name,
        from: at,
        arguments: value_count(&piece.items),
        has_colon: true,
        names_arguments: false,
    };
    match filters.get(filter) {
        Some(filter) => miscount(&tag, bounds(filter)),
        None => Phrasing::plain(at, "a tag takes another number of values"),
    }
}

fn value_count(items: &[PlacedItem<'_>]) -> usize {
    let mut count: usize = 0;
    for placed in items {
        if matches!(placed.item, Item::Value(_, _)) {
            count = count.saturating_add(1);
        }
    }
    count
}

/// The filter that a tag's or a block's name stands for, if it is a host's.
fn host_filter<'l>(language: &'l Language, name: &str) -> Option<&'l str> {
    match language.host_tags.get(name)? {
        HostKind::Tag(number) => Some(language.host_tags.call(number)?.filter.as_str()),
        HostKind::Block(number) => Some(language.host_tags.block(number)?.filter.as_str()),
    }
}

/// Of a filter that takes a least and a greatest number of arguments, and other ones are given, or
/// without a `:`.
fn miscount<'s>(call: &WrittenFilter<'s>, (least, most): (usize, usize)) -> Phrasing<'s> {
    let count = argument_count(call);
    let bound = if count > most { most } else { least };
    let noun = if bound == 1 { "argument" } else { "arguments" };
    let words = words_of_bounds(least, most, count);
    Phrasing {
        numbers: (bound, call.arguments),
        then: words_of_given(call),
        ..Phrasing::quoting(call.from, words, call.name, noun)
    }
}

/// The words for how many arguments a filter takes: at least `least` and at most `most`, but not
/// `count`.
fn words_of_bounds(least: usize, most: usize, count: usize) -> &'static str {
    if most == 0 {
        "`…` takes no argument"
    } else if least == most {
        "`…` takes ¹ ¤"
    } else if count > most {
        "`…` takes at most ¹ ¤"
    } else {
        "`…` takes at least ¹ ¤"
    }
}

/// The words for the arguments that a filter is given.
fn words_of_given(call: &WrittenFilter<'_>) -> &'static str {
    if !call.has_colon && call.arguments > 0 {
        return ", after a `:`";
    }
    match (call.name, call.arguments) {
        ("first", 1) => return ", and 1 is given; `slice: 0, 3` takes the first three",
        ("last", 1) => return ", and 1 is given; `slice: -3, 3` takes the last three",
        _ => {}
    }
    match (call.arguments, call.names_arguments) {
        (0, false) => ", and none is given",
        (1, false) => ", and 1 is given",
        (_, false) => ", and ² are given",
        (0, true) => ", and none is given; arguments have no names here",
        (1, true) => ", and 1 is given; arguments have no names here",
        (_, true) => ", and ² are given; arguments have no names here",
    }
}

/// How many arguments a filter is given: none without a `:`.
fn argument_count(call: &WrittenFilter<'_>) -> usize {
    if call.has_colon { call.arguments } else { 0 }
}

/// The least and the greatest number of arguments that a filter takes.
fn bounds(filter: RegisteredFilter) -> (usize, usize) {
    if let RegisteredFilter::Host { least, most } = filter {
        return (least, most);
    }
    let mut least = MOST_ARGUMENTS;
    let mut most = 0;
    for count in 0..=MOST_ARGUMENTS {
        if filter.accepts(count) {
            least = least.min(count);
            most = count;
        }
    }
    (least, most)
}

/// The first call of a filter that no registered one has the name of.
fn unregistered<'s>(
    filters: &FilterRegistry,
    calls: &[WrittenFilter<'s>],
) -> Option<WrittenFilter<'s>> {
    for call in calls {
        if filters.get(call.name).is_none() {
            return Some(*call);
        }
    }
    None
}

/// The first call whose filter doesn't accept its number of arguments, and that filter.
fn refused<'s>(
    filters: &FilterRegistry,
    calls: &[WrittenFilter<'s>],
) -> Option<(WrittenFilter<'s>, RegisteredFilter)> {
    for call in calls {
        if let Some(filter) = filters.get(call.name) {
            if !filter.accepts(argument_count(call)) {
                return Some((*call, filter));
            }
        }
    }
    None
}

/// The filters of a chain, in order. The values after a name count as its arguments, also where
/// the `:` is missing, up to the value of an argument with a name.
fn calls<'s>(
    alloc: Global,
    items: &[PlacedItem<'s>],
) -> Result<Vec<WrittenFilter<'s>>, AllocError> {
    let mut calls = Vec::new(alloc);
    let mut is_name = false;
    for placed in items {
        match &placed.item {
            Item::Symbol(Symbol::Bar) => is_name = true,
            Item::Value(_, _) if is_name => {
                calls.push(WrittenFilter {
                    name: placed.spelling,
                    from: placed.from,
                    arguments: 0,
                    has_colon: false,
                    names_arguments: false,
                })?;
                is_name = false;
            }
            Item::Value(_, _) => count_argument(&mut calls),
            Item::Symbol(Symbol::Colon) => see_colon(&mut calls),
            Item::Symbol(_) | Item::Range(_, _) => {}
        }
    }
    Ok(calls)
}

fn count_argument(calls: &mut Vec<WrittenFilter<'_>>) {
    if let Some(call) = calls.last_mut() {
        if !call.names_arguments {
            call.arguments = call.arguments.saturating_add(1);
        }
    }
}

fn see_colon(calls: &mut Vec<WrittenFilter<'_>>) {
    if let Some(call) = calls.last_mut() {
        if call.has_colon {
            call.names_arguments = true;
        }
        call.has_colon = true;
    }
}
