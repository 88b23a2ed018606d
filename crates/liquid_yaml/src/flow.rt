//! Lists in brackets and maps in braces, on one line, and the values of a line.
ghost use Rattle.std.specs.Prelude.{◌≡◌, false, option_map};
ghost use Rattle.std.specs.List.{list_all};
ghost use Rattle.liquid_model.specs.Answer.{IsValueOrMemory};
ghost use Rattle.liquid_model.specs.Data.{array, object, no_pairs};
ghost use Rattle.liquid_model.specs.View.{view, items_view, pairs_view};
ghost use Rattle.liquid_yaml.specs.Flows as spec;

use crate::flow_parts::{closed_flow, first_flow_part, opens_flow, trimmed_around};
use crate::line::member_of;
use crate::scan::without_spaces;
use crate::value::{plain, quoted, scalar_of};
use liquid_model::{Object, Result, Value, store};
use std::alloc::Global;

/// How deep lists and maps stand in others.
const DEEPEST: usize = 32;

/// The value that a text of a line spells, or none where it spells none that is read here: a
/// scalar, a list in brackets or a map in braces, and perhaps a comment. The answer is `Memory`
/// where a growth was refused, and no other kind.
pub(crate) fn value_of(alloc: Global, text: &str) -> Result<Option<Value>>
    ensures { IsValueOrMemory (λ o. option_map view o) result (spec.line_value text.now) }
{
    match text.as_bytes() {
        [] => Ok(None),
        [first, ..] if opens_flow(*first) => flow_value(alloc, DEEPEST, true, text),
        _ => scalar_of(alloc, true, text),
    }
}

/// A list, a map, or a scalar in one of these; lists and maps stand at most so deep in others.
#[cycle(flow_value)]
fn flow_value(alloc: Global, depth: usize, may_note: bool, text: &str) -> Result<Option<Value>>
    ensures { IsValueOrMemory (λ o. option_map view o) result
        (spec.flow_value depth may_note text.now) }
{
    if depth == 0 {
        return Ok(None);
    }
    flow_within(alloc, depth - 1, may_note, text)
}

/// The same, with lists and maps at most so deep within it.
#[cycle(flow_value)]
#[tactic(auto, using(liquid_model::proofs::Cuts::past_first))]
fn flow_within(alloc: Global, depth: usize, may_note: bool, text: &str) -> Result<Option<Value>>
    ensures { IsValueOrMemory (λ o. option_map view o) result
        (spec.flow_with (spec.flow_value depth false) may_note text.now) }
{
    match text.as_bytes() {
        [] => Ok(None),
        [b'[', ..] => match closed_flow(may_note, b']', &text[1..]) {
            Some(inside) => flow_list(alloc, depth, inside),
            None => Ok(None),
        },
        [b'{', ..] => match closed_flow(may_note, b'}', &text[1..]) {
            Some(inside) => flow_map(alloc, depth, inside),
            None => Ok(None),
        },
        _ => flow_scalar(alloc, text),
    }
}

/// The values between the commas of a text.
#[cycle(flow_value)]
fn flow_list(alloc: Global, depth: usize, text: &str) -> Result<Option<Value>>
    ensures { IsValueOrMemory (λ o. option_map view o) result
        (option_map array (spec.flow_items (spec.flow_value depth false) text.now)) }
{
    let mut values = Vec::new(alloc);
    let mut left = parts_of(text);
    while let Some(text) = left {
        let (part, rest) = first_flow_part(text);
        match flow_value(alloc, depth, false, trimmed_around(part))? {
            Some(value) => values.push(value)?,
            None => return Ok(None),
        }
        left = rest;
    }
    Ok(Some(Value::Array(values)))
}

/// The members between the commas of a text.
#[cycle(flow_value)]
fn flow_map(alloc: Global, depth: usize, text: &str) -> Result<Option<Value>>
    ensures { IsValueOrMemory (λ o. option_map view o) result
        (option_map object (spec.flow_members (spec.flow_value depth false) text.now)) }
{
    let mut members = Object::new(alloc);
    let mut left = parts_of(text);
    while let Some(text) = left {
        let (part, rest) = first_flow_part(text);
        let Some(member) = member_of(true, 0, trimmed_around(part)) else {
            return Ok(None);
        };
        match flow_value(alloc, depth, false, member.value)? {
            Some(value) => store(&mut members, String::from_str(alloc, member.key)?, value)?,
            None => return Ok(None),
        }
        left = rest;
    }
    Ok(Some(Value::Object(members)))
}

/// A text that has parts: spaces alone have none.
fn parts_of(text: &str) -> Option<&str>
    ensures { option_map (λ s. s.now) result ≡ spec.text_with_parts text.now }
{
    if without_spaces(text).is_empty() {
        None
    } else {
        Some(text)
    }
}

fn is_flow_plain(text: &str) -> bool
    ensures { result ≡ list_all spec.is_flow_plain text.now }
{
    text.bytes()
        .all(|byte| !matches!(byte, b'[' | b'{' | b']' | b'}' | b','))
}

/// A scalar in a list or map.
#[tactic(auto, using(liquid_model::proofs::Cuts::past_first))]
fn flow_scalar(alloc: Global, text: &str) -> Result<Option<Value>>
    ensures { IsValueOrMemory (λ o. option_map view o) result (spec.flow_scalar_at text.now) }
{
    match text.as_bytes() {
        [quote @ (b'"' | b'\''), ..] => quoted(alloc, false, *quote, &text[1..]),
        _ if is_flow_plain(text) => plain(alloc, false, text),
        _ => Ok(None),
    }
}
