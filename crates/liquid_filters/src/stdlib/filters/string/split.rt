//! The filter that divides a text.
ghost use Rattle.std.specs.Prelude.{◌<◌, length, map, nat_eq, IsTrue};
ghost use Rattle.liquid_model.specs.Answer.{IsValueOrMemory, Answers};
ghost use Rattle.liquid_model.specs.Data.{text as text_datum};
ghost use Rattle.liquid_model.specs.View.{view};
ghost use Rattle.liquid_model.specs.Satisfies.{Satisfies};
ghost use Rattle.liquid_filters.specs.Pieces.{pieces, single_characters};
ghost use Rattle.liquid_filters.specs.Split.{divided, split_answer};
ghost use Rattle.liquid_filters.specs.TextLaws.{SplitsText};

use crate::argument::text_or;
use liquid_model::{Filter, Result, Value, text_of};
use std::alloc::Global;

/// `split`: the pieces of the input's text between the occurrences of the argument's, from left to
/// right. By the empty text it is an empty piece, each character and an empty piece; the empty text
/// itself gives the empty list.
#[derive(Clone, Copy, Drop)]
pub struct Split;

impl Filter for Split {
    ghost counts = { λ _ n. nat_eq n 1 };

    ghost answer = { λ _. split_answer };

    fn accepts(&self, count: usize) -> bool {
        count == 1
    }

    fn evaluate(&self, alloc: Global, input: &Value, args: &[Value]) -> Result<Value>
        requires { IsTrue (nat_eq (length args.now) 1) }
        ensures answer { Answers view result (split_answer (view input.now) (map view args.now)) }
        ensures relation { Satisfies (SplitsText (view input.now) (map view args.now)) result }
    {
        split_answer(alloc, input, args)
    }
}

fn split_answer(alloc: Global, input: &Value, args: &[Value]) -> Result<Value>
    requires { IsTrue (nat_eq (length args.now) 1) }
    ensures { Answers view result (split_answer (view input.now) (map view args.now)) }
{
    let separator = text_or(alloc, args, 0, "")?;
    let text = text_of(alloc, input)?;
    Ok(Value::Array(divided(alloc, text.as_str(), separator.as_str())?))
}

fn divided(alloc: Global, text: &str, separator: &str) -> Result<Vec<Value>>
    ensures { IsValueOrMemory (λ v. map view v.items) result
        (map (λ t. text_datum t) (divided separator.now text.now)) }
{
    if text.is_empty() {
        Ok(Vec::new(alloc))
    } else if separator.is_empty() {
        single_characters(alloc, text)
    } else {
        pieces(alloc, text, separator)
    }
}

/// The pieces between the occurrences of a text that isn't empty.
fn pieces(alloc: Global, text: &str, separator: &str) -> Result<Vec<Value>>
    requires { 0 < length separator.now }
    ensures { IsValueOrMemory (λ v. map view v.items) result
        (map (λ t. text_datum t) (pieces separator.now 0 text.now)) }
{
    let mut found = Vec::new(alloc);
    let mut rest = text;
    while let Some((before, after)) = rest.split_once(separator) {
        found.push(Value::Text(String::from_str(alloc, before)?))?;
        rest = after;
    }
    found.push(Value::Text(String::from_str(alloc, rest)?))?;
    Ok(found)
}

/// An empty piece, each character, an empty piece.
fn single_characters(alloc: Global, text: &str) -> Result<Vec<Value>>
    ensures { IsValueOrMemory (λ v. map view v.items) result
        (map (λ t. text_datum t) (single_characters text.now)) }
{
    let mut found = Vec::new(alloc);
    let start = Value::Text(String::new(alloc));
    found.push(start)?;
    let mut rest = text.chars();
    while let Some(letter) = rest.next() {
        let mut piece = String::new(alloc);
        piece.push(letter)?;
        found.push(Value::Text(piece))?;
    }
    let end = Value::Text(String::new(alloc));
    found.push(end)?;
    Ok(found)
}
