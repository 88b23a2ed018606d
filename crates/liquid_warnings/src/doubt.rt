//! How data differs from what the template needs.
ghost use Rattle.std.specs.Prelude.{◌≡◌, is_some, map, option_map};
ghost use Rattle.liquid_model.specs.Answer.{IsValueOrMemory};
ghost use Rattle.liquid_model.specs.View.{view, items_view, pairs_view};
ghost use Rattle.liquid_filters.specs.DateSpelling.{read};
ghost use Rattle.liquid_warnings.specs.DoubtViews.{doubt_view};
ghost use Rattle.liquid_warnings.specs.Doubts.{asks_values, amount_within, count_of, date_doubt};
ghost use Rattle.liquid_warnings.specs.Doubts.{doubt_of, first_doubt, is_empty_or_date};
ghost use Rattle.liquid_warnings.specs.Doubts.{has_digit, is_zero_of, items_doubt, looks_false};
ghost use Rattle.liquid_warnings.specs.Doubts.{number_doubt, number_word_doubt, truth_word_doubt};
ghost use Rattle.liquid_warnings.specs.Doubts.{passes_end, says_no, span_doubt, tested_doubt};
ghost use Rattle.liquid_warnings.specs.Doubts.{begins_with_map, defaulted_doubt, keyed_doubt};
ghost use Rattle.liquid_warnings.specs.Doubts.{shown_doubt, word_doubt};
ghost use Rattle.liquid_warnings.specs.Doubts.{sized_doubt, truth_doubt, unlisted_doubt};
ghost use Rattle.liquid_warnings.specs.Doubts.{value_doubt};

use crate::data_path::{DataPath, Lack, lacking, values_at};
use liquid_filters::read_date;
use liquid_model::{Object, Result, Value};
use std::alloc::Global;

/// What is wanted of the values at a path.
#[derive(Clone, Copy, Drop)]
pub enum Want {
    /// That they are there.
    Present,
    /// Nothing that has to be there: a filter gets nil in its place.
    Perhaps,
    /// Nothing that has to be there: a condition tests it, which `false` and nil alone fail.
    Tested,
    /// That they are there: `contains` looks into them.
    Searched,
    /// That they are there: `contains` looks for them.
    Contained,
    /// Dates, which are printed.
    Date,
    /// Numbers: they are compared with one.
    Number,
    /// Truth values: they are compared with one.
    Truth,
    /// No numbers: they are compared with a text that spells one.
    NumberWord,
    /// No truth values: they are compared with a text that spells one.
    TruthWord,
    /// No lists and no maps: they are compared with a text.
    Word,
    /// No maps: an output shows them as they are.
    Shown,
    /// Nothing that has to be there, and no `false`: `default` gets them.
    Defaulted,
    /// Nothing that has to be there, and no lists: they are asked for a key that none has.
    Keyed,
    /// Nothing that has to be there, and nothing with a `size`, which a condition tests.
    Sized,
    /// Lists or maps, which a loop goes over.
    Items(Span),
}

/// Which items a loop asks for, as far as that is known.
#[derive(Clone, Copy, Drop)]
pub struct Span {
    /// How many of the first are left out.
    pub offset: Option<i64>,
    /// How many at most.
    pub limit: Option<i64>,
}

/// How data differs from what the template needs.
#[derive(Clone, Copy)]
pub enum Doubt<'d> {
    /// A map on the way lacks a key.
    Lacks(Lack<'d>),
    /// A loop goes over what is no list, no map and not nil.
    NoList(&'d Value),
    /// A loop leaves out items and then asks for more than are left of a list or a map, which has
    /// this many in all.
    PastEnd(usize),
    /// What is printed as a date is another text.
    NoDate(&'d str),
    /// What is compared with a number is a text with a digit: it is never equal, less or greater.
    NumberText(&'d str),
    /// What is compared with a truth value is a text, which is never equal.
    TruthText(&'d str),
    /// What is compared with a text is a list, a map, or the number or the truth value that the
    /// text spells: they are never equal.
    NoText(&'d Value),
    /// What a condition tests looks false, and isn't.
    AlwaysTrue(&'d Value),
    /// What is compared with a number is a truth value, a list or a map.
    NoNumber(&'d Value),
    /// What is compared with a truth value is a number.
    NoTruth(&'d Value),
    /// What an output shows is a map, or a list that begins with one.
    WholeMap,
    /// What is asked for a key is a list.
    NoKey,
    /// What a condition tests is the number of a list's items or of a text's characters.
    TestedSize,
    /// What `default` gets is `false`, which it replaces.
    FalseDefault,
    /// What is printed as a date is a number.
    NumberDate,
}

/// The first doubt about the values at a path in data: a map on the way lacks a key, or one of the
/// values isn't as it is wanted.
///
/// The answer is `Memory` where a growth was refused, and no other kind.
pub fn doubt_of<'d>(
    alloc: Global,
    data: &'d Object,
    path: &DataPath,
    want: Want,
) -> Result<Option<Doubt<'d>>>
    ensures { IsValueOrMemory (λ o. option_map doubt_view o) result
        (doubt_of want path.now (pairs_view «data».now.entries)) }
{
    if let Some(lack) = lacking(data, path) {
        return Ok(Some(Doubt::Lacks(lack)));
    }
    if !asks_values(want) {
        return Ok(None);
    }
    let values = values_at(alloc, data, path)?;
    Ok(first_doubt(want, &values))
}

/// Whether more is wanted of the values than that they are there.
fn asks_values(want: Want) -> bool
    ensures { result ≡ asks_values want }
{
    !matches!(
        want,
        Want::Present | Want::Perhaps | Want::Searched | Want::Contained
    )
}

fn first_doubt<'d>(want: Want, values: &[&'d Value]) -> Option<Doubt<'d>>
    ensures { option_map doubt_view result
        ≡ first_doubt want (map (λ r. view r.now) values.now) }
{
    for value in values {
        if let Some(doubt) = value_doubt(want, *value) {
            return Some(doubt);
        }
    }
    None
}

fn value_doubt<'d>(want: Want, value: &'d Value) -> Option<Doubt<'d>>
    ensures { option_map doubt_view result ≡ value_doubt want (view value.now) }
{
    match want {
        Want::Present | Want::Perhaps | Want::Searched | Want::Contained => None,
        Want::Date => date_doubt(value),
        Want::Number => number_doubt(value),
        Want::Truth => truth_doubt(value),
        Want::NumberWord => number_word_doubt(value),
        Want::TruthWord => truth_word_doubt(value),
        Want::Tested => tested_doubt(value),
        Want::Word => word_doubt(value),
        Want::Shown => shown_doubt(value),
        Want::Defaulted => defaulted_doubt(value),
        Want::Keyed => keyed_doubt(value),
        Want::Sized => sized_doubt(value),
        Want::Items(span) => items_doubt(span, value),
    }
}

fn items_doubt<'d>(span: Span, value: &'d Value) -> Option<Doubt<'d>>
    ensures { option_map doubt_view result ≡ items_doubt span (view value.now) }
{
    match count_of(value) {
        Some(count) => span_doubt(span, count),
        None => unlisted_doubt(value),
    }
}

/// How many items a list or a map has.
fn count_of(value: &Value) -> Option<usize>
    ensures { result ≡ count_of (view value.now) }
{
    match value {
        Value::Array(items) => Some(items.len()),
        Value::Object(pairs) => Some(pairs.len()),
        Value::Nil | Value::Bool(_) | Value::Integer(_) | Value::Text(_) => None,
    }
}

fn unlisted_doubt<'d>(value: &'d Value) -> Option<Doubt<'d>>
    ensures { option_map doubt_view result ≡ unlisted_doubt (view value.now) }
{
    match value {
        Value::Nil => None,
        Value::Bool(_) | Value::Integer(_) | Value::Text(_) | Value::Array(_) | Value::Object(_) =>
            Some(Doubt::NoList(value)),
    }
}

fn span_doubt<'d>(span: Span, count: usize) -> Option<Doubt<'d>>
    ensures { option_map doubt_view result ≡ span_doubt span count }
{
    if passes_end(span, count) {
        return Some(Doubt::PastEnd(count));
    }
    None
}

fn passes_end(span: Span, count: usize) -> bool
    ensures { result ≡ passes_end span.offset span.limit count }
{
    match (span.offset, span.limit) {
        (Some(offset), Some(limit)) => at_most(limit, count) > count - at_most(offset, count),
        _ => false,
    }
}

/// So much of a count, at most all; a negative number is huge.
fn at_most(number: i64, count: usize) -> usize
    ensures { result ≡ amount_within number count }
{
    match usize::try_from(number) {
        Ok(number) => number.min(count),
        Err(_) => count,
    }
}

fn date_doubt<'d>(value: &'d Value) -> Option<Doubt<'d>>
    ensures { option_map doubt_view result ≡ date_doubt (view value.now) }
{
    match value {
        Value::Text(text) if !is_empty_or_date(text.as_str()) => Some(Doubt::NoDate(text.as_str())),
        Value::Integer(_) => Some(Doubt::NumberDate),
        _ => None,
    }
}

fn number_doubt<'d>(value: &'d Value) -> Option<Doubt<'d>>
    ensures { option_map doubt_view result ≡ number_doubt (view value.now) }
{
    match value {
        Value::Text(text) if has_digit(text.as_str()) => Some(Doubt::NumberText(text.as_str())),
        Value::Bool(_) | Value::Array(_) | Value::Object(_) => Some(Doubt::NoNumber(value)),
        Value::Nil | Value::Integer(_) | Value::Text(_) => None,
    }
}

fn has_digit(text: &str) -> bool
    ensures { result ≡ has_digit text.now }
{
    text.bytes().any(|byte| byte.is_ascii_digit())
}

fn truth_doubt<'d>(value: &'d Value) -> Option<Doubt<'d>>
    ensures { option_map doubt_view result ≡ truth_doubt (view value.now) }
{
    match value {
        Value::Text(text) => Some(Doubt::TruthText(text.as_str())),
        Value::Integer(_) => Some(Doubt::NoTruth(value)),
        _ => None,
    }
}

fn word_doubt<'d>(value: &'d Value) -> Option<Doubt<'d>>
    ensures { option_map doubt_view result ≡ word_doubt (view value.now) }
{
    match value {
        Value::Array(_) | Value::Object(_) => Some(Doubt::NoText(value)),
        _ => None,
    }
}

fn number_word_doubt<'d>(value: &'d Value) -> Option<Doubt<'d>>
    ensures { option_map doubt_view result ≡ number_word_doubt (view value.now) }
{
    match value {
        Value::Integer(_) => Some(Doubt::NoText(value)),
        _ => word_doubt(value),
    }
}

fn truth_word_doubt<'d>(value: &'d Value) -> Option<Doubt<'d>>
    ensures { option_map doubt_view result ≡ truth_word_doubt (view value.now) }
{
    match value {
        Value::Bool(_) => Some(Doubt::NoText(value)),
        _ => word_doubt(value),
    }
}

fn tested_doubt<'d>(value: &'d Value) -> Option<Doubt<'d>>
    ensures { option_map doubt_view result ≡ tested_doubt (view value.now) }
{
    if looks_false(value) {
        return Some(Doubt::AlwaysTrue(value));
    }
    None
}

/// Whether a value looks false and holds in a condition: it is empty, 0, or a word that says no.
fn looks_false(value: &Value) -> bool
    ensures { result ≡ looks_false (view value.now) }
{
    match value {
        Value::Text(text) => says_no(text.as_str()),
        Value::Integer(number) => *number == 0,
        Value::Nil | Value::Bool(_) | Value::Array(_) | Value::Object(_) => {
            is_zero_of(count_of(value))
        }
    }
}

/// Whether a count is 0, where there is one.
fn is_zero_of(count: Option<usize>) -> bool
    ensures { result ≡ is_zero_of count }
{
    match count {
        Some(count) => count == 0,
        None => false,
    }
}

fn says_no(text: &str) -> bool
    ensures { result ≡ says_no text.now }
{
    matches!(
        text,
        "" | "0" | "n" | "N" | "no" | "No" | "NO" | "false" | "False" | "FALSE" | "off"
    )
}

fn shown_doubt<'d>(value: &'d Value) -> Option<Doubt<'d>>
    ensures { option_map doubt_view result ≡ shown_doubt (view value.now) }
{
    match value {
        Value::Object(_) => Some(Doubt::WholeMap),
        Value::Array(items) => {
            if begins_with_map(items) {
                Some(Doubt::WholeMap)
            } else {
                None
            }
        }
        _ => None,
    }
}

fn begins_with_map(items: &[Value]) -> bool
    ensures { result ≡ begins_with_map (items_view items.now) }
{
    match items {
        [first, ..] => matches!(first, Value::Object(_)),
        [] => false,
    }
}

fn keyed_doubt<'d>(value: &'d Value) -> Option<Doubt<'d>>
    ensures { option_map doubt_view result ≡ keyed_doubt (view value.now) }
{
    match value {
        Value::Array(_) => Some(Doubt::NoKey),
        _ => None,
    }
}

fn defaulted_doubt<'d>(value: &'d Value) -> Option<Doubt<'d>>
    ensures { option_map doubt_view result ≡ defaulted_doubt (view value.now) }
{
    match value {
        Value::Bool(false) => Some(Doubt::FalseDefault),
        _ => None,
    }
}

fn sized_doubt<'d>(value: &'d Value) -> Option<Doubt<'d>>
    ensures { option_map doubt_view result ≡ sized_doubt (view value.now) }
{
    match value {
        Value::Array(_) | Value::Text(_) => Some(Doubt::TestedSize),
        _ => None,
    }
}

fn is_empty_or_date(text: &str) -> bool
    ensures { result ≡ is_empty_or_date text.now }
{
    text.is_empty() || is_date(text)
}

fn is_date(text: &str) -> bool
    ensures { result ≡ is_some (read text.now) }
{
    matches!(read_date(text), Ok(Some(_)))
}
