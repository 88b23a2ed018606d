//! The filter that breaks lines.
ghost use Rattle.std.specs.Prelude.{nat_eq, string_bytes, IsTrue, length, map};
ghost use Rattle.liquid_model.specs.Answer.{IsValueOrMemory, Answers};
ghost use Rattle.liquid_filters.specs.LineBreaks.{broken, newline_to_br_answer};
ghost use Rattle.liquid_model.specs.View.{view};
ghost use Rattle.liquid_model.specs.Satisfies.{Satisfies};
ghost use Rattle.liquid_filters.specs.HtmlLaws.{BreaksLines};

use crate::stdlib::filters::replaced::push_replaced;
use liquid_model::{Filter, Result, Value, text_of};
use std::alloc::Global;

/// `newline_to_br`: the input's text with `<br />` before each LF.
#[derive(Clone, Copy, Drop)]
pub struct NewlineToBr;

impl Filter for NewlineToBr {
    ghost counts = { λ _ n. nat_eq n 0 };

    ghost answer = { λ _. newline_to_br_answer };

    fn accepts(&self, count: usize) -> bool {
        count == 0
    }

    fn evaluate(&self, alloc: Global, input: &Value, args: &[Value]) -> Result<Value>
        requires { IsTrue (nat_eq (length args.now) 0) }
        ensures answer { Answers view result (newline_to_br_answer (view input.now)
            (map view args.now)) }
        ensures relation { Satisfies (BreaksLines (view input.now)) result }
    {
        newline_to_br_answer(alloc, input, args)
    }
}

fn newline_to_br_answer(alloc: Global, input: &Value, _args: &[Value]) -> Result<Value>
    requires { IsTrue (nat_eq (length _args.now) 0) }
    ensures { Answers view result (newline_to_br_answer (view input.now) (map view _args.now)) }
{
    let text = text_of(alloc, input)?;
    Ok(Value::Text(broken(alloc, text.as_str())?))
}

fn broken(alloc: Global, text: &str) -> Result<String>
    ensures { IsValueOrMemory (λ s. string_bytes s) result (broken text.now) }
{
    let mut out = String::with_capacity(alloc, text.len())?;
    push_replaced(&mut out, text, &[('\n', "<br />\n")])?;
    Ok(out)
}
