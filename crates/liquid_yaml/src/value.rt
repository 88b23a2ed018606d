//! The scalars that stand on one line.
ghost use Rattle.std.specs.Prelude.{◌≡◌, ◌≤◌, option_map, true};
ghost use Rattle.std.specs.List.{list_all};
ghost use Rattle.liquid_model.specs.Answer.{IsValueOrMemory};
ghost use Rattle.liquid_model.specs.View.{view};
ghost use Rattle.liquid_yaml.specs.Values as spec;

use crate::quoting::{quoted_text, quoting_len};
use crate::scan::{first_part, is_ended, is_rest, plain_len, trimmed};
use liquid_model::{Result, Value, whole_of};
use std::alloc::Global;

/// A text in quotes, a word, a whole number or a plain text, and perhaps a comment.
#[tactic(auto, using(liquid_model::proofs::Cuts::past_first))]
pub(crate) fn scalar_of(alloc: Global, may_note: bool, text: &str) -> Result<Option<Value>>
    ensures { IsValueOrMemory (λ o. option_map view o) result (spec.scalar_at may_note text.now) }
{
    match text.as_bytes() {
        [] => Ok(None),
        [quote @ (b'"' | b'\''), ..] => quoted(alloc, may_note, *quote, &text[1..]),
        _ => plain(alloc, may_note, text),
    }
}

// ---- texts in quotes

fn closes_quote(may_note: bool, quote: u8, bytes: &[u8]) -> bool
    ensures { result ≡ spec.closes_quote may_note quote bytes.now }
{
    match bytes {
        [] => false,
        [first, after @ ..] => *first == quote && is_rest(may_note, after),
    }
}

/// What stands after a quote, where that is a text and the same quote.
#[tactic(auto, using(crate::proofs::Cuts::quoting_cut))]
pub(crate) fn quoted(alloc: Global, may_note: bool, quote: u8, text: &str) -> Result<Option<Value>>
    requires { quote ≤ 127 }
    ensures { IsValueOrMemory (λ o. option_map view o) result
        (spec.quoted_scalar may_note quote text.now) }
{
    let (inside, rest) = text.split_at(quoting_len(quote, text.as_bytes()));
    if !closes_quote(may_note, quote, rest.as_bytes()) {
        return Ok(None);
    }
    Ok(quoted_text(alloc, quote, inside)?.map(|text| Value::Text(text)))
}

// ---- plain texts

/// Whether a byte is one of the signs with which YAML begins something else than a text.
fn is_indicator(byte: u8) -> bool
    ensures { result ≡ spec.is_indicator byte }
{
    (byte >= 33 && byte <= 44 && !(byte == b'$' || byte == b'(' || byte == b')' || byte == b'+'))
        || byte == b':'
        || (byte >= b'>' && byte <= b'@')
        || byte == b'['
        || byte == b']'
        || byte == b'`'
        || (byte >= b'{' && byte <= b'}')
}

fn opens_plain(byte: u8, after: &[u8]) -> bool
    ensures { result ≡ spec.opens_plain byte after.now }
{
    byte != b' ' && !is_indicator(byte) && !(byte == b'-' && is_ended(after))
}

fn begins_plain(bytes: &[u8]) -> bool
    ensures { result ≡ spec.begins_plain bytes.now }
{
    match bytes {
        [] => false,
        [first, after @ ..] => opens_plain(*first, after),
    }
}

/// Whether a text is plain up to its end, without a comment.
pub(crate) fn is_all_plain(text: &str) -> bool
    ensures { result ≡ spec.is_all_plain text.now }
{
    begins_plain(text.as_bytes()) && plain_len(text.as_bytes()) == text.len()
}

/// Whether a text is plain, and nothing but a comment follows.
pub(crate) fn is_plain_scalar(text: &str) -> bool
    ensures { result ≡ spec.is_plain_scalar true text.now }
{
    begins_plain(text.as_bytes()) && is_rest(true, &text.as_bytes()[plain_len(text.as_bytes())..])
}

/// A plain text without a comment after it.
#[tactic(auto, using(crate::proofs::Cuts::plain_cut))]
pub(crate) fn plain_text(text: &str) -> &str
    ensures { result.now ≡ spec.plain_text text.now }
{
    trimmed(&text[..plain_len(text.as_bytes())])
}

#[tactic(auto, using(crate::proofs::Cuts::plain_cut))]
pub(crate) fn plain(alloc: Global, may_note: bool, text: &str) -> Result<Option<Value>>
    ensures { IsValueOrMemory (λ o. option_map view o) result (spec.plain_at may_note text.now) }
{
    let (inside, rest) = text.split_at(plain_len(text.as_bytes()));
    if !begins_plain(text.as_bytes()) || !is_rest(may_note, rest.as_bytes()) {
        return Ok(None);
    }
    plain_value(alloc, trimmed(inside))
}

fn plain_value(alloc: Global, text: &str) -> Result<Option<Value>>
    ensures { IsValueOrMemory (λ o. option_map view o) result (spec.plain_value text.now) }
{
    if is_null_word(text) {
        return Ok(Some(Value::Nil));
    }
    if is_true_word(text) {
        return Ok(Some(Value::Bool(true)));
    }
    if is_false_word(text) {
        return Ok(Some(Value::Bool(false)));
    }
    if is_numeric(text) {
        return numeric_value(alloc, text);
    }
    if is_no_number(text) {
        return Ok(None);
    }
    Ok(Some(Value::Text(String::from_str(alloc, text)?)))
}

fn is_null_word(text: &str) -> bool
    ensures { result ≡ spec.is_null_word text.now }
{
    matches!(text, "~" | "null" | "Null" | "NULL")
}

fn is_true_word(text: &str) -> bool
    ensures { result ≡ spec.is_true_word text.now }
{
    matches!(
        text,
        "true" | "True" | "TRUE" | "yes" | "Yes" | "YES" | "on" | "On" | "ON"
    )
}

fn is_false_word(text: &str) -> bool
    ensures { result ≡ spec.is_false_word text.now }
{
    matches!(
        text,
        "false" | "False" | "FALSE" | "no" | "No" | "NO" | "off" | "Off" | "OFF"
    )
}

/// Whether YAML reads the text as no text, but as nil or a truth value.
pub(crate) fn is_word(text: &str) -> bool
    ensures { result ≡ spec.is_yaml_word text.now }
{
    is_null_word(text) || is_true_word(text) || is_false_word(text)
}

// ---- what looks like a number

fn opens_number(byte: u8) -> bool
    ensures { result ≡ spec.opens_number byte }
{
    byte.is_ascii_digit() || byte == b'-' || byte == b'+' || byte == b'.'
}

fn is_in_number(byte: u8) -> bool
    ensures { result ≡ spec.in_number byte }
{
    (byte >= b'+' && byte <= b'.')
        || (byte >= b'0' && byte <= b':')
        || byte == b' '
        || byte == b'T'
        || byte == b'Z'
        || byte == b'_'
        || byte == b'x'
        || byte == b'o'
        || (byte >= b'A' && byte <= b'F')
        || (byte >= b'a' && byte <= b'f')
}

pub(crate) fn is_numeric(text: &str) -> bool
    ensures { result ≡ spec.looks_numeric text.now }
{
    match text.as_bytes() {
        [] => false,
        [first, ..] => opens_number(*first) && are_in_number(text),
    }
}

fn are_in_number(text: &str) -> bool
    ensures { result ≡ list_all spec.in_number text.now }
{
    text.bytes().all(|byte| is_in_number(byte))
}

fn is_no_number(text: &str) -> bool
    ensures { result ≡ spec.is_no_number text.now }
{
    matches!(text, ".inf" | ".nan" | "-.inf" | "+.inf")
}

fn is_octal(bytes: &[u8]) -> bool
    ensures { result ≡ spec.is_octal bytes.now }
{
    bytes.len() > 1 && bytes[0] == b'0'
}

fn begins_year(bytes: &[u8]) -> bool
    ensures { result ≡ spec.begins_year bytes.now }
{
    match bytes {
        [a, b, c, d, b'-', ..] => {
            a.is_ascii_digit() && b.is_ascii_digit() && c.is_ascii_digit() && d.is_ascii_digit()
        }
        _ => false,
    }
}

fn unsigned(bytes: &[u8]) -> &[u8]
    ensures { result.now ≡ spec.unsigned bytes.now }
{
    match bytes {
        [b'-' | b'+', rest @ ..] => rest,
        _ => bytes,
    }
}

/// Whether a text has two dots, as a version has, so that it is no number.
fn has_two_dots(text: &str) -> bool
    ensures { result ≡ spec.has_two_dots text.now }
{
    match first_part(text, '.') {
        (_, Some(rest)) => has_dot(rest),
        (_, None) => false,
    }
}

fn has_dot(text: &str) -> bool
    ensures { result ≡ spec.has_dot text.now }
{
    match first_part(text, '.') {
        (_, Some(_)) => true,
        (_, None) => false,
    }
}

/// The value of what looks like a number: a whole one, or a day, an instant or a version as its
/// text.
fn numeric_value(alloc: Global, text: &str) -> Result<Option<Value>>
    ensures { IsValueOrMemory (λ o. option_map view o) result (spec.numeric_value text.now) }
{
    if begins_year(text.as_bytes()) || has_two_dots(text) {
        return Ok(Some(Value::Text(String::from_str(alloc, text)?)));
    }
    if is_octal(unsigned(text.as_bytes())) {
        return Ok(None);
    }
    match whole_of(text) {
        Some(number) => Ok(Some(Value::Integer(number))),
        None => Ok(None),
    }
}
