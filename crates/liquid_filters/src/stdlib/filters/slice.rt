//! The filter that takes a part of a list or a text.
ghost use Rattle.std.specs.Prelude.{◌&&◌, ◌≡◌, ◌≤◌, IfSome, length, map, nat_le, IsTrue};
ghost use Rattle.liquid_model.specs.Answer.{IsValueOrMemory, Answers};
ghost use Rattle.liquid_model.specs.View.{view};
ghost use Rattle.liquid_model.specs.Satisfies.{Satisfies};
ghost use Rattle.liquid_filters.specs.TextPlaces.{start};
ghost use Rattle.liquid_filters.specs.Slice.{items_part, part, slice_answer, text_part};
ghost use Rattle.liquid_filters.specs.TextLaws.{SlicesInput};

use crate::argument::whole_or;
use crate::text_parts::{after_characters, first_characters};
use liquid_model::{Error, ErrorKind, Filter, Result, Value, text_of};
use std::alloc::Global;

/// `slice`: the items of a list, or the characters of another value's text, from an offset on, as
/// many as the length says, or 1. The offset is among as many places as the list has items or the
/// text bytes; one below 0 counts from the end, and one that stays below 0 gives the empty list or
/// text.
#[derive(Clone, Copy, Drop)]
pub struct Slice;

impl Filter for Slice {
    ghost counts = { λ _ n. nat_le 1 n && nat_le n 2 };

    ghost answer = { λ _. slice_answer };

    fn accepts(&self, count: usize) -> bool {
        count == 1 || count == 2
    }

    /// `InvalidArgument` where an argument has no whole number, or the length is below 1.
    fn evaluate(&self, alloc: Global, input: &Value, args: &[Value]) -> Result<Value>
        requires { IsTrue (nat_le 1 (length args.now) && nat_le (length args.now) 2) }
        ensures answer { Answers view result (slice_answer (view input.now) (map view args.now)) }
        ensures relation { Satisfies (SlicesInput (view input.now) (map view args.now)) result }
    {
        slice_answer(alloc, input, args)
    }
}

fn slice_answer(alloc: Global, input: &Value, args: &[Value]) -> Result<Value>
    requires { IsTrue (nat_le 1 (length args.now) && nat_le (length args.now) 2) }
    ensures { Answers view result (slice_answer (view input.now) (map view args.now)) }
{
    let offset = whole_or(alloc, args, 0, 0)?;
    let length = whole_or(alloc, args, 1, 1)?;
    if length < 1 {
        return Err(Error::new(
            alloc,
            ErrorKind::InvalidArgument,
            "the length must be at least 1, and this is less",
        ));
    }
    part(alloc, input, offset, length as usize)
}

fn part(alloc: Global, input: &Value, offset: i64, count: usize) -> Result<Value>
    ensures { IsValueOrMemory view result (part offset count (view input.now)) }
{
    match input {
        Value::Array(items) => Ok(Value::Array(items_part(alloc, items, offset, count)?)),
        _ => {
            let text = text_of(alloc, input)?;
            let kept = text_part(text.as_str(), offset, count);
            Ok(Value::Text(String::from_str(alloc, kept)?))
        }
    }
}

/// Where a part begins among `places` places: at `offset`, which counts from the end where it is
/// negative, and at the end at most. `None` where that is before the first place.
fn start(places: usize, offset: i64) -> Option<usize>
    ensures place { result ≡ start places offset }
    ensures within { IfSome result (λ from. from ≤ places) }
{
    if offset >= 0 {
        Some(places.min(offset as usize))
    } else {
        places.checked_sub(offset.unsigned_abs() as usize)
    }
}

fn items_part(alloc: Global, items: &[Value], offset: i64, count: usize) -> Result<Vec<Value>>
    ensures { IsValueOrMemory (λ v. map view v.items) result
        (items_part offset count (map view items.now)) }
{
    match start(items.len(), offset) {
        Some(from) => {
            let rest = &items[from..];
            copied(alloc, &rest[..count.min(rest.len())])
        }
        None => Ok(Vec::new(alloc)),
    }
}

fn copied(alloc: Global, items: &[Value]) -> Result<Vec<Value>>
    ensures { IsValueOrMemory (λ v. map view v.items) result (map view items.now) }
{
    let mut copies = Vec::with_capacity(alloc, items.len())?;
    for item in items {
        copies.push(item.copy(alloc)?)?;
    }
    Ok(copies)
}

fn text_part(text: &str, offset: i64, count: usize) -> &str
    ensures { result.now ≡ text_part offset count text.now }
{
    match start(text.len(), offset) {
        Some(from) => first_characters(after_characters(text, from), count.min(text.len() - from)),
        None => "",
    }
}
