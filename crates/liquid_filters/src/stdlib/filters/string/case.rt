//! Filters that change the case of letters, `A` to `Z` and `a` to `z` alone.
ghost use Rattle.std.specs.Prelude.{nat_eq, string_bytes, IsTrue, length, map};
ghost use Rattle.liquid_model.specs.Answer.{IsValueOrMemory, Answers};
ghost use Rattle.liquid_filters.specs.Case.{capitalize_answer, capitalized, downcase_answer};
ghost use Rattle.liquid_filters.specs.Case.{upcase_answer};
ghost use Rattle.liquid_model.specs.View.{view};
ghost use Rattle.liquid_model.specs.Satisfies.{Satisfies};
ghost use Rattle.liquid_filters.specs.TextLaws.{CapitalizesText, Downcases, Upcases};

use liquid_model::{Filter, Result, Value, text_of};
use std::alloc::Global;

/// `downcase`: the input's text with `A` to `Z` as `a` to `z`.
#[derive(Clone, Copy, Drop)]
pub struct Downcase;

impl Filter for Downcase {
    ghost counts = { λ _ n. nat_eq n 0 };

    ghost answer = { λ _. downcase_answer };

    fn accepts(&self, count: usize) -> bool {
        count == 0
    }

    fn evaluate(&self, alloc: Global, input: &Value, args: &[Value]) -> Result<Value>
        requires { IsTrue (nat_eq (length args.now) 0) }
        ensures answer { Answers view result
            (downcase_answer (view input.now) (map view args.now)) }
        ensures relation { Satisfies (Downcases (view input.now) (map view args.now)) result }
    {
        downcase_answer(alloc, input, args)
    }
}

fn downcase_answer(alloc: Global, input: &Value, _args: &[Value]) -> Result<Value>
    requires { IsTrue (nat_eq (length _args.now) 0) }
    ensures { Answers view result (downcase_answer (view input.now) (map view _args.now)) }
{
    let text = text_of(alloc, input)?;
    Ok(Value::Text(text.as_str().to_ascii_lowercase(alloc)?))
}

/// `upcase`: the input's text with `a` to `z` as `A` to `Z`.
#[derive(Clone, Copy, Drop)]
pub struct Upcase;

impl Filter for Upcase {
    ghost counts = { λ _ n. nat_eq n 0 };

    ghost answer = { λ _. upcase_answer };

    fn accepts(&self, count: usize) -> bool {
        count == 0
    }

    fn evaluate(&self, alloc: Global, input: &Value, args: &[Value]) -> Result<Value>
        requires { IsTrue (nat_eq (length args.now) 0) }
        ensures answer { Answers view result (upcase_answer (view input.now) (map view args.now)) }
        ensures relation { Satisfies (Upcases (view input.now) (map view args.now)) result }
    {
        upcase_answer(alloc, input, args)
    }
}

fn upcase_answer(alloc: Global, input: &Value, _args: &[Value]) -> Result<Value>
    requires { IsTrue (nat_eq (length _args.now) 0) }
    ensures { Answers view result (upcase_answer (view input.now) (map view _args.now)) }
{
    let text = text_of(alloc, input)?;
    Ok(Value::Text(text.as_str().to_ascii_uppercase(alloc)?))
}

/// `capitalize`: the input's text with its first character in upper case, where that is `a` to `z`.
#[derive(Clone, Copy, Drop)]
pub struct Capitalize;

impl Filter for Capitalize {
    ghost counts = { λ _ n. nat_eq n 0 };

    ghost answer = { λ _. capitalize_answer };

    fn accepts(&self, count: usize) -> bool {
        count == 0
    }

    fn evaluate(&self, alloc: Global, input: &Value, args: &[Value]) -> Result<Value>
        requires { IsTrue (nat_eq (length args.now) 0) }
        ensures answer { Answers view result (capitalize_answer (view input.now)
            (map view args.now)) }
        ensures relation { Satisfies (CapitalizesText (view input.now) (map view args.now)) result }
    {
        capitalize_answer(alloc, input, args)
    }
}

fn capitalize_answer(alloc: Global, input: &Value, _args: &[Value]) -> Result<Value>
    requires { IsTrue (nat_eq (length _args.now) 0) }
    ensures { Answers view result (capitalize_answer (view input.now) (map view _args.now)) }
{
    let text = text_of(alloc, input)?;
    Ok(Value::Text(capitalized(alloc, text.as_str())?))
}

fn capitalized(alloc: Global, text: &str) -> Result<String>
    ensures { IsValueOrMemory (λ s. string_bytes s) result (capitalized text.now) }
{
    let mut rest = text.chars();
    let mut out = String::with_capacity(alloc, text.len())?;
    match rest.next() {
        Some(first) => {
            out.push(first.to_ascii_uppercase())?;
            out.push_str(rest.as_str())?;
            Ok(out)
        }
        None => Ok(out),
    }
}
