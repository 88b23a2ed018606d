//! Filters that cut white space, which is Unicode's White_Space, and newlines.
ghost use Rattle.std.specs.Prelude.{◌++◌, nat_eq, string_bytes, IsTrue, length, map};
ghost use Rattle.liquid_model.specs.Answer.{IsValueOrMemory, Answers};
ghost use Rattle.liquid_filters.specs.Strip.{lstrip_answer, rstrip_answer, strip_answer};
ghost use Rattle.liquid_filters.specs.Strip.{strip_newlines_answer, without_newlines};
ghost use Rattle.liquid_filters.specs.Strip.{without_returns};
ghost use Rattle.liquid_model.specs.View.{view};
ghost use Rattle.liquid_model.specs.Satisfies.{Satisfies};
ghost use Rattle.liquid_filters.specs.TextLaws.{StripsLines, StripsText, StripsTextAtEnd};
ghost use Rattle.liquid_filters.specs.TextLaws.{StripsTextAtStart};

use liquid_model::{Filter, Result, Value, text_of};
use std::alloc::Global;

/// `strip`: the input's text without the white space at both ends.
#[derive(Clone, Copy, Drop)]
pub struct Strip;

impl Filter for Strip {
    ghost counts = { λ _ n. nat_eq n 0 };

    ghost answer = { λ _. strip_answer };

    fn accepts(&self, count: usize) -> bool {
        count == 0
    }

    fn evaluate(&self, alloc: Global, input: &Value, args: &[Value]) -> Result<Value>
        requires { IsTrue (nat_eq (length args.now) 0) }
        ensures answer { Answers view result (strip_answer (view input.now) (map view args.now)) }
        ensures relation { Satisfies (StripsText (view input.now) (map view args.now)) result }
    {
        strip_answer(alloc, input, args)
    }
}

fn strip_answer(alloc: Global, input: &Value, _args: &[Value]) -> Result<Value>
    requires { IsTrue (nat_eq (length _args.now) 0) }
    ensures { Answers view result (strip_answer (view input.now) (map view _args.now)) }
{
    let text = text_of(alloc, input)?;
    Ok(Value::Text(String::from_str(alloc, text.as_str().trim())?))
}

/// `lstrip`: the input's text without the white space at its start.
#[derive(Clone, Copy, Drop)]
pub struct Lstrip;

impl Filter for Lstrip {
    ghost counts = { λ _ n. nat_eq n 0 };

    ghost answer = { λ _. lstrip_answer };

    fn accepts(&self, count: usize) -> bool {
        count == 0
    }

    fn evaluate(&self, alloc: Global, input: &Value, args: &[Value]) -> Result<Value>
        requires { IsTrue (nat_eq (length args.now) 0) }
        ensures answer { Answers view result (lstrip_answer (view input.now) (map view args.now)) }
        ensures relation { Satisfies (StripsTextAtStart (view input.now)
            (map view args.now)) result }
    {
        lstrip_answer(alloc, input, args)
    }
}

fn lstrip_answer(alloc: Global, input: &Value, _args: &[Value]) -> Result<Value>
    requires { IsTrue (nat_eq (length _args.now) 0) }
    ensures { Answers view result (lstrip_answer (view input.now) (map view _args.now)) }
{
    let text = text_of(alloc, input)?;
    Ok(Value::Text(String::from_str(alloc, text.as_str().trim_start())?))
}

/// `rstrip`: the input's text without the white space at its end.
#[derive(Clone, Copy, Drop)]
pub struct Rstrip;

impl Filter for Rstrip {
    ghost counts = { λ _ n. nat_eq n 0 };

    ghost answer = { λ _. rstrip_answer };

    fn accepts(&self, count: usize) -> bool {
        count == 0
    }

    fn evaluate(&self, alloc: Global, input: &Value, args: &[Value]) -> Result<Value>
        requires { IsTrue (nat_eq (length args.now) 0) }
        ensures answer { Answers view result (rstrip_answer (view input.now) (map view args.now)) }
        ensures relation { Satisfies (StripsTextAtEnd (view input.now) (map view args.now)) result }
    {
        rstrip_answer(alloc, input, args)
    }
}

fn rstrip_answer(alloc: Global, input: &Value, _args: &[Value]) -> Result<Value>
    requires { IsTrue (nat_eq (length _args.now) 0) }
    ensures { Answers view result (rstrip_answer (view input.now) (map view _args.now)) }
{
    let text = text_of(alloc, input)?;
    Ok(Value::Text(String::from_str(alloc, text.as_str().trim_end())?))
}

/// `strip_newlines`: the input's text without its LFs and CRs.
#[derive(Clone, Copy, Drop)]
pub struct StripNewlines;

impl Filter for StripNewlines {
    ghost counts = { λ _ n. nat_eq n 0 };

    ghost answer = { λ _. strip_newlines_answer };

    fn accepts(&self, count: usize) -> bool {
        count == 0
    }

    fn evaluate(&self, alloc: Global, input: &Value, args: &[Value]) -> Result<Value>
        requires { IsTrue (nat_eq (length args.now) 0) }
        ensures answer { Answers view result (strip_newlines_answer (view input.now)
            (map view args.now)) }
        ensures relation { Satisfies (StripsLines (view input.now) (map view args.now)) result }
    {
        strip_newlines_answer(alloc, input, args)
    }
}

fn strip_newlines_answer(alloc: Global, input: &Value, _args: &[Value]) -> Result<Value>
    requires { IsTrue (nat_eq (length _args.now) 0) }
    ensures { Answers view result (strip_newlines_answer (view input.now) (map view _args.now)) }
{
    let text = text_of(alloc, input)?;
    Ok(Value::Text(without_newlines(alloc, text.as_str())?))
}

fn without_newlines(alloc: Global, text: &str) -> Result<String>
    ensures { IsValueOrMemory (λ s. string_bytes s) result (without_newlines text.now) }
{
    let mut out = String::with_capacity(alloc, text.len())?;
    let mut rest = text;
    while let Some((line, after)) = rest.split_once('\n') {
        push_without_returns(&mut out, line)?;
        rest = after;
    }
    push_without_returns(&mut out, rest)?;
    Ok(out)
}

/// Appends a text without its CRs. What stays is copied in runs.
fn push_without_returns(out: &mut String, text: &str) -> Result<()>
    ensures { IsValueOrMemory (λ _. string_bytes out.new) result (string_bytes out.old ++
        without_returns text.now) }
{
    let mut rest = text;
    while let Some((before, after)) = rest.split_once('\r') {
        out.push_str(before)?;
        rest = after;
    }
    Ok(out.push_str(rest)?)
}
