//! Paths of properties: a word followed by any of `.word` and `[literal]`.
ghost use Rattle.std.specs.Prelude.{map};
ghost use Rattle.liquid_model.specs.Answer.{IsValueOrMemory};
ghost use Rattle.liquid_model.specs.View.{view};
ghost use Rattle.liquid_filters.specs.Path.{bracketed_at, path_member, path};
ghost use Rattle.liquid_filters.specs.Path.{path_step};
ghost use Rattle.liquid_filters.specs.Path.{with_steps};
ghost use Rattle.liquid_model.specs.Front.{literal_at};
ghost use Rattle.liquid_filters.specs.inside.PathView.{path_view, step_view};

use liquid_model::{Result, Value, past_byte, quoted, whole_number, word};
use std::alloc::Global;

/// The steps of a path, or none where the text is no path.
#[tactic(auto, unfolding(crate::specs::Path::path))]
pub(crate) fn read_path(alloc: Global, text: &str) -> Result<Option<Vec<Value>>>
    ensures { IsValueOrMemory path_view result (path text.now) }
{
    let Some((name, rest)) = word(text) else {
        return Ok(None);
    };
    let mut steps = Vec::new(alloc);
    steps.push(Value::Text(String::from_str(alloc, name)?))?;
    read_steps(alloc, steps, rest)
}

/// The steps, followed by those of the rest.
fn read_steps(alloc: Global, mut steps: Vec<Value>, text: &str) -> Result<Option<Vec<Value>>>
    ensures { IsValueOrMemory path_view result (with_steps (map view steps.items) text.now) }
{
    let mut rest = text;
    'steps: while !rest.is_empty() {
        let Some((step, after)) = read_step(alloc, rest)? else {
            return Ok(None);
        };
        steps.push(step)?;
        rest = after;
    }
    Ok(Some(steps))
}

/// One step, and what follows it.
#[tactic(auto, unfolding(crate::specs::Path::path_step))]
fn read_step(alloc: Global, text: &str) -> Result<Option<(Value, &str)>>
    ensures { IsValueOrMemory step_view result (path_step text.now) }
{
    if let Some(inside) = past_byte(text, b'[') {
        return read_bracketed(alloc, inside);
    }
    match past_byte(text, b'.') {
        Some(from) => read_member(alloc, from),
        None => Ok(None),
    }
}

/// The word after a `.`.
#[tactic(auto, unfolding(crate::specs::Path::path_member))]
fn read_member(alloc: Global, text: &str) -> Result<Option<(Value, &str)>>
    ensures { IsValueOrMemory step_view result (path_member text.now) }
{
    match word(text) {
        Some((name, rest)) => Ok(Some((Value::Text(String::from_str(alloc, name)?), rest))),
        None => Ok(None),
    }
}

/// The literal after a `[`, up to its `]`.
#[tactic(auto, unfolding(crate::specs::Path::bracketed_at))]
fn read_bracketed(alloc: Global, text: &str) -> Result<Option<(Value, &str)>>
    ensures { IsValueOrMemory step_view result (bracketed_at text.now) }
{
    let Some((value, rest)) = read_literal(alloc, text)? else {
        return Ok(None);
    };
    match past_byte(rest, b']') {
        Some(after) => Ok(Some((value, after))),
        None => Ok(None),
    }
}

/// A text in quotes, or a whole number.
#[tactic(auto, unfolding(liquid_model::specs::Front::literal_at))]
fn read_literal(alloc: Global, text: &str) -> Result<Option<(Value, &str)>>
    ensures { IsValueOrMemory step_view result (literal_at text.now) }
{
    if let Some((inside, rest)) = quoted(text) {
        return Ok(Some((Value::Text(String::from_str(alloc, inside)?), rest)));
    }
    match whole_number(text) {
        Some((n, rest)) => Ok(Some((Value::Integer(n), rest))),
        None => Ok(None),
    }
}
