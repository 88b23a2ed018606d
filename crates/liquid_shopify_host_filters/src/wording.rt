//! The filters that make a text of the words of their input.
ghost use Rattle.std.specs.Prelude.{string_bytes};
ghost use Rattle.liquid_model.specs.Answer.{Answers};
ghost use Rattle.liquid_model.specs.View.{view};
ghost use Rattle.liquid_shopify_host_filters.specs.Wordings.{camelize_answer, handle_answer};
ghost use Rattle.liquid_shopify_host_filters.specs.Wordings.{squish_answer};

use crate::words::{Wording, worded};
use liquid_model::{Result, Value, text_of};
use std::alloc::Global;

/// `handle` and `handleize`: the words of the input's text in lower case, with a hyphen between
/// them.
pub(crate) fn handle_answer(alloc: Global, input: &Value) -> Result<Value>
    ensures { Answers view result (handle_answer (view input.now)) }
{
    let text = text_of(alloc, input)?;
    Ok(Value::Text(worded(alloc, Wording::Handle, text.as_str())?))
}

/// `camelize`: the words of the input's text with a capital each, joined.
pub(crate) fn camelize_answer(alloc: Global, input: &Value) -> Result<Value>
    ensures { Answers view result (camelize_answer (view input.now)) }
{
    let text = text_of(alloc, input)?;
    Ok(Value::Text(worded(alloc, Wording::Camel, text.as_str())?))
}

/// `squish`: the words of the input's text with a space between them. Nil stays nil.
pub(crate) fn squish_answer(alloc: Global, input: &Value) -> Result<Value>
    ensures { Answers view result (squish_answer (view input.now)) }
{
    if matches!(input, Value::Nil) {
        return Ok(Value::Nil);
    }
    let text = text_of(alloc, input)?;
    Ok(Value::Text(worded(alloc, Wording::Squish, text.as_str())?))
}
