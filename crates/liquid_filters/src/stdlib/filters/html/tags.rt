//! The filter that cuts tags.
ghost use Rattle.std.specs.Prelude.{nat_eq, IsTrue, length, map};
ghost use Rattle.liquid_model.specs.Answer.{Answers};
ghost use Rattle.liquid_filters.specs.Tags.{strip_html_answer};
ghost use Rattle.liquid_model.specs.View.{view};
ghost use Rattle.liquid_model.specs.Satisfies.{Satisfies};
ghost use Rattle.liquid_filters.specs.HtmlLaws.{StripsTags};

use super::marks::without_tags;
use liquid_model::{Filter, Result, Value, text_of};
use std::alloc::Global;

/// `strip_html`: the input's text without scripts, then without styles, comments and tags, each
/// from its opener to the end of the first closer after it. An opener without a closer after it
/// stays.
#[derive(Clone, Copy, Drop)]
pub struct StripHtml;

impl Filter for StripHtml {
    ghost counts = { λ _ n. nat_eq n 0 };

    ghost answer = { λ _. strip_html_answer };

    fn accepts(&self, count: usize) -> bool {
        count == 0
    }

    fn evaluate(&self, alloc: Global, input: &Value, args: &[Value]) -> Result<Value>
        requires { IsTrue (nat_eq (length args.now) 0) }
        ensures answer { Answers view result (strip_html_answer (view input.now)
            (map view args.now)) }
        ensures relation { Satisfies (StripsTags (view input.now)) result }
    {
        strip_html_answer(alloc, input, args)
    }
}

fn strip_html_answer(alloc: Global, input: &Value, _args: &[Value]) -> Result<Value>
    requires { IsTrue (nat_eq (length _args.now) 0) }
    ensures { Answers view result (strip_html_answer (view input.now) (map view _args.now)) }
{
    let text = text_of(alloc, input)?;
    Ok(Value::Text(without_tags(alloc, text.as_str())?))
}
