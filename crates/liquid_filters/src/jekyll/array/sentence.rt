//! The filter that makes a sentence of a list.
ghost use Rattle.std.specs.Prelude.{◌++◌, map, nat_le, string_bytes};
ghost use Rattle.liquid_model.specs.Answer.{Answers, IsValueOrMemory};
ghost use Rattle.liquid_model.specs.Data.{text_of};
ghost use Rattle.liquid_model.specs.Lists.{list_of};
ghost use Rattle.liquid_model.specs.View.{view, items_view};
ghost use Rattle.liquid_filters.specs.Sentence.{array_to_sentence_string_answer};
ghost use Rattle.liquid_filters.specs.Sentence.{next_text, sentence, sentence_by};

use liquid_model::{Filter, Result, Value, invalid_input, text_of};
use std::alloc::Global;

/// `array_to_sentence_string`: the texts of a list's items with `, ` between them, and the
/// argument's text, or `and`, and a space before the last of several.
#[derive(Clone, Copy, Drop)]
pub struct ArrayToSentenceString;

impl Filter for ArrayToSentenceString {
    ghost counts = { λ _ n. nat_le n 1 };

    ghost answer = { λ _. array_to_sentence_string_answer };

    fn accepts(&self, count: usize) -> bool {
        count <= 1
    }

    /// `InvalidInput` where the input is no list.
    fn evaluate(&self, alloc: Global, input: &Value, args: &[Value]) -> Result<Value> {
        match args.first() {
            None => sentence_of(alloc, input, "and"),
            Some(connector) => sentence_of(alloc, input, text_of(alloc, connector)?.as_str()),
        }
    }
}

fn sentence_of(alloc: Global, input: &Value, connector: &str) -> Result<Value>
    ensures { Answers view result (sentence_by connector.now (view input.now)) }
{
    match input {
        Value::Array(items) => Ok(Value::Text(sentence(alloc, items, connector)?)),
        _ => Err(invalid_input(alloc, "a list", input)),
    }
}

fn sentence(alloc: Global, items: &[Value], connector: &str) -> Result<String>
    ensures { IsValueOrMemory (λ s. string_bytes s) result
        (sentence connector.now (map text_of (list_of (items_view items.now)))) }
{
    let mut out = String::new(alloc);
    let Some((first, rest)) = items.split_first() else {
        return Ok(out);
    };
    first.append_text(&mut out)?;
    let mut left = rest;
    'items: while let Some((item, after)) = left.split_first() {
        push_next(&mut out, item, connector, after.is_empty())?;
        left = after;
    }
    Ok(out)
}

/// Appends an item that isn't the first.
fn push_next(out: &mut String, item: &Value, connector: &str, is_last: bool) -> Result<()>
    ensures { IsValueOrMemory (λ _. string_bytes out.new) result (string_bytes out.old ++
        next_text connector.now is_last (text_of (view item.now))) }
{
    out.push_str(", ")?;
    if is_last {
        out.push_str(connector)?;
        out.push_str(" ")?;
    }
    item.append_text(out)
}
