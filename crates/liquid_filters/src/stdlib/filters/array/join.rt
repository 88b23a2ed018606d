//! The filter that joins a list into a text.
ghost use Rattle.std.specs.Prelude.{map, nat_le, string_bytes, IsTrue, length};
ghost use Rattle.liquid_model.specs.Answer.{Answers, IsValueOrMemory};
ghost use Rattle.liquid_model.specs.Data.{text_of};
ghost use Rattle.liquid_model.specs.Lists.{list_of};
ghost use Rattle.liquid_model.specs.View.{view, items_view};
ghost use Rattle.liquid_model.specs.Joined.{joined};
ghost use Rattle.liquid_model.specs.Satisfies.{Satisfies};
ghost use Rattle.liquid_filters.specs.ListLaws.{Joins};
ghost use Rattle.liquid_filters.specs.Joined.{join_answer, join_by};

use liquid_model::{Filter, Result, Value, invalid_input, text_of};
use std::alloc::Global;
use std::fmt::Write;

/// `join`: the texts of a list's items with a separator between them, a space where none is given.
#[derive(Clone, Copy, Drop)]
pub struct Join;

impl Filter for Join {
    ghost counts = { λ _ n. nat_le n 1 };

    ghost answer = { λ _. join_answer };

    fn accepts(&self, count: usize) -> bool {
        count <= 1
    }

    /// `InvalidInput` where the input is no list.
    fn evaluate(&self, alloc: Global, input: &Value, args: &[Value]) -> Result<Value>
        requires { IsTrue (nat_le (length args.now) 1) }
        ensures answer { Answers view result (join_answer (view input.now) (map view args.now)) }
        ensures relation { Satisfies (Joins (view input.now) (map view args.now)) result }
    {
        join_answer(alloc, input, args)
    }
}

fn join_answer(alloc: Global, input: &Value, args: &[Value]) -> Result<Value>
    requires { IsTrue (nat_le (length args.now) 1) }
    ensures { Answers view result (join_answer (view input.now) (map view args.now)) }
{
    match args.first() {
        None => joined_list(alloc, input, " "),
        Some(separator) => joined_list(alloc, input, text_of(alloc, separator)?.as_str()),
    }
}

fn joined_list(alloc: Global, input: &Value, separator: &str) -> Result<Value>
    ensures { Answers view result (join_by separator.now (view input.now)) }
{
    match input {
        Value::Array(items) => Ok(Value::Text(joined(alloc, items, separator)?)),
        _ => Err(invalid_input(alloc, "a list", input)),
    }
}

fn joined(alloc: Global, items: &[Value], separator: &str) -> Result<String>
    ensures { IsValueOrMemory (λ s. string_bytes s) result
        (joined separator.now (map text_of (list_of (items_view items.now)))) }
{
    let mut out = String::new(alloc);
    match items.split_first() {
        None => Ok(out),
        Some((first, rest)) => {
            first.append_text(&mut out)?;
            for item in rest {
                out.push_str(separator)?;
                item.append_text(&mut out)?;
            }
            Ok(out)
        }
    }
}
