//! Filters that join texts, and that replace parts of them.
ghost use Rattle.std.specs.Prelude.{◌&&◌, nat_eq, nat_le, string_bytes, IsTrue, length, map};
ghost use Rattle.liquid_model.specs.Answer.{IsValueOrMemory, Answers};
ghost use Rattle.liquid_filters.specs.Operate.{append_answer, prepend_answer, remove_answer};
ghost use Rattle.liquid_filters.specs.Operate.{remove_first_answer, replace_answer};
ghost use Rattle.liquid_filters.specs.Operate.{replace_first_answer, replaced, replaced_first};
ghost use Rattle.liquid_model.specs.View.{view};
ghost use Rattle.liquid_model.specs.Satisfies.{Satisfies};
ghost use Rattle.liquid_filters.specs.TextLaws.{RemovesAll, RemovesOne, ReplacesAll, ReplacesOne};

use crate::argument::text_or;
use crate::text_parts::joined;
use liquid_model::{Filter, Result, Value, text_of};
use std::alloc::Global;

/// `append`: the input's text, then the argument's.
#[derive(Clone, Copy, Drop)]
pub struct Append;

impl Filter for Append {
    ghost counts = { λ _ n. nat_eq n 1 };

    ghost answer = { λ _. append_answer };

    fn accepts(&self, count: usize) -> bool {
        count == 1
    }

    fn evaluate(&self, alloc: Global, input: &Value, args: &[Value]) -> Result<Value> {
        let last = text_or(alloc, args, 0, "")?;
        let first = text_of(alloc, input)?;
        Ok(Value::Text(joined(alloc, first.as_str(), last.as_str())?))
    }
}

/// `prepend`: the argument's text, then the input's.
#[derive(Clone, Copy, Drop)]
pub struct Prepend;

impl Filter for Prepend {
    ghost counts = { λ _ n. nat_eq n 1 };

    ghost answer = { λ _. prepend_answer };

    fn accepts(&self, count: usize) -> bool {
        count == 1
    }

    fn evaluate(&self, alloc: Global, input: &Value, args: &[Value]) -> Result<Value> {
        let first = text_or(alloc, args, 0, "")?;
        let last = text_of(alloc, input)?;
        Ok(Value::Text(joined(alloc, first.as_str(), last.as_str())?))
    }
}

/// `replace`: the input's text with each occurrence of the first argument's text, from left to
/// right and without overlap, replaced by the second's, or by nothing. The empty text occurs before
/// each character and at the end.
#[derive(Clone, Copy, Drop)]
pub struct Replace;

impl Filter for Replace {
    ghost counts = { λ _ n. nat_le 1 n && nat_le n 2 };

    ghost answer = { λ _. replace_answer };

    fn accepts(&self, count: usize) -> bool {
        count == 1 || count == 2
    }

    fn evaluate(&self, alloc: Global, input: &Value, args: &[Value]) -> Result<Value>
        requires { IsTrue (nat_le 1 (length args.now) && nat_le (length args.now) 2) }
        ensures answer { Answers view result (replace_answer (view input.now) (map view args.now)) }
        ensures relation { Satisfies (ReplacesAll (view input.now) (map view args.now)) result }
    {
        replace_answer(alloc, input, args)
    }
}

fn replace_answer(alloc: Global, input: &Value, args: &[Value]) -> Result<Value>
    requires { IsTrue (nat_le 1 (length args.now) && nat_le (length args.now) 2) }
    ensures { Answers view result (replace_answer (view input.now) (map view args.now)) }
{
    let search = text_or(alloc, args, 0, "")?;
    let replacement = text_or(alloc, args, 1, "")?;
    let text = text_of(alloc, input)?;
    Ok(Value::Text(replaced(alloc, text.as_str(), search.as_str(), replacement.as_str())?))
}

/// `replace_first`: the input's text with the first occurrence of the first argument's text
/// replaced by the second's, or by nothing. The empty text occurs at the start.
#[derive(Clone, Copy, Drop)]
pub struct ReplaceFirst;

impl Filter for ReplaceFirst {
    ghost counts = { λ _ n. nat_le 1 n && nat_le n 2 };

    ghost answer = { λ _. replace_first_answer };

    fn accepts(&self, count: usize) -> bool {
        count == 1 || count == 2
    }

    fn evaluate(&self, alloc: Global, input: &Value, args: &[Value]) -> Result<Value>
        requires { IsTrue (nat_le 1 (length args.now) && nat_le (length args.now) 2) }
        ensures answer { Answers view result (replace_first_answer (view input.now)
            (map view args.now)) }
        ensures relation { Satisfies (ReplacesOne (view input.now) (map view args.now)) result }
    {
        replace_first_answer(alloc, input, args)
    }
}

fn replace_first_answer(alloc: Global, input: &Value, args: &[Value]) -> Result<Value>
    requires { IsTrue (nat_le 1 (length args.now) && nat_le (length args.now) 2) }
    ensures { Answers view result (replace_first_answer (view input.now) (map view args.now)) }
{
    let search = text_or(alloc, args, 0, "")?;
    let replacement = text_or(alloc, args, 1, "")?;
    let text = text_of(alloc, input)?;
    Ok(Value::Text(replaced_first(alloc, text.as_str(), search.as_str(), replacement.as_str())?))
}

/// `remove`: the input's text without the occurrences of the argument's text.
#[derive(Clone, Copy, Drop)]
pub struct Remove;

impl Filter for Remove {
    ghost counts = { λ _ n. nat_eq n 1 };

    ghost answer = { λ _. remove_answer };

    fn accepts(&self, count: usize) -> bool {
        count == 1
    }

    fn evaluate(&self, alloc: Global, input: &Value, args: &[Value]) -> Result<Value>
        requires { IsTrue (nat_eq (length args.now) 1) }
        ensures answer { Answers view result (remove_answer (view input.now) (map view args.now)) }
        ensures relation { Satisfies (RemovesAll (view input.now) (map view args.now)) result }
    {
        remove_answer(alloc, input, args)
    }
}

fn remove_answer(alloc: Global, input: &Value, args: &[Value]) -> Result<Value>
    requires { IsTrue (nat_eq (length args.now) 1) }
    ensures { Answers view result (remove_answer (view input.now) (map view args.now)) }
{
    let search = text_or(alloc, args, 0, "")?;
    let text = text_of(alloc, input)?;
    Ok(Value::Text(replaced(alloc, text.as_str(), search.as_str(), "")?))
}

/// `remove_first`: the input's text without the first occurrence of the argument's text.
#[derive(Clone, Copy, Drop)]
pub struct RemoveFirst;

impl Filter for RemoveFirst {
    ghost counts = { λ _ n. nat_eq n 1 };

    ghost answer = { λ _. remove_first_answer };

    fn accepts(&self, count: usize) -> bool {
        count == 1
    }

    fn evaluate(&self, alloc: Global, input: &Value, args: &[Value]) -> Result<Value>
        requires { IsTrue (nat_eq (length args.now) 1) }
        ensures answer { Answers view result (remove_first_answer (view input.now)
            (map view args.now)) }
        ensures relation { Satisfies (RemovesOne (view input.now) (map view args.now)) result }
    {
        remove_first_answer(alloc, input, args)
    }
}

fn remove_first_answer(alloc: Global, input: &Value, args: &[Value]) -> Result<Value>
    requires { IsTrue (nat_eq (length args.now) 1) }
    ensures { Answers view result (remove_first_answer (view input.now) (map view args.now)) }
{
    let search = text_or(alloc, args, 0, "")?;
    let text = text_of(alloc, input)?;
    Ok(Value::Text(replaced_first(alloc, text.as_str(), search.as_str(), "")?))
}

/// The text with each occurrence of another replaced. `Memory` alone where it can't be made.
pub fn replaced(alloc: Global, text: &str, search: &str, replacement: &str) -> Result<String>
    ensures { IsValueOrMemory (λ s. string_bytes s) result
        (replaced search.now replacement.now text.now) }
{
    Ok(text.replace(alloc, search, replacement)?)
}

/// The text with the first occurrence of another replaced.
fn replaced_first(alloc: Global, text: &str, search: &str, replacement: &str) -> Result<String>
    ensures { IsValueOrMemory (λ s. string_bytes s) result
        (replaced_first search.now replacement.now text.now) }
{
    Ok(text.replacen(alloc, search, replacement, 1)?)
}
