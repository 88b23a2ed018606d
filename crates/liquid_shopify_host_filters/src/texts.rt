//! The filters that replace the last occurrence of a text.
ghost use Rattle.std.specs.Prelude.{map, string_bytes};
ghost use Rattle.liquid_model.specs.Answer.{Answers, IsValueOrMemory};
ghost use Rattle.liquid_model.specs.View.{view};
ghost use Rattle.liquid_shopify_host_filters.specs.Last.{remove_last_answer, replace_last_answer};
ghost use Rattle.liquid_shopify_host_filters.specs.Last.{replaced_last};

use liquid_filters::text_or;
use liquid_model::{Result, Value, text_of};
use std::alloc::Global;

/// `replace_last`: the input's text with the last occurrence of the first argument's text replaced
/// by the second's. The empty text occurs at the end.
pub(crate) fn replace_last_answer(alloc: Global, input: &Value, args: &[Value]) -> Result<Value>
    ensures { Answers view result (replace_last_answer (view input.now) (map view args.now)) }
{
    let text = text_of(alloc, input)?;
    let search = text_or(alloc, args, 0, "")?;
    let replacement = text_or(alloc, args, 1, "")?;
    Ok(Value::Text(replaced_last(alloc, text.as_str(), search.as_str(), replacement.as_str())?))
}

/// `remove_last`: the input's text without the last occurrence of the argument's text.
pub(crate) fn remove_last_answer(alloc: Global, input: &Value, args: &[Value]) -> Result<Value>
    ensures { Answers view result (remove_last_answer (view input.now) (map view args.now)) }
{
    let text = text_of(alloc, input)?;
    let search = text_or(alloc, args, 0, "")?;
    Ok(Value::Text(replaced_last(alloc, text.as_str(), search.as_str(), "")?))
}

/// The text with the last occurrence of another replaced.
fn replaced_last(alloc: Global, text: &str, search: &str, replacement: &str) -> Result<String>
    ensures { IsValueOrMemory (λ s. string_bytes s) result
        (replaced_last search.now replacement.now text.now) }
{
    match text.rsplit_once(search) {
        Some((before, after)) => Ok(format!(in alloc; "{before}{replacement}{after}")?),
        None => Ok(String::from_str(alloc, text)?),
    }
}
