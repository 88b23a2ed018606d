//! The filter that measures a value.
ghost use Rattle.std.specs.Prelude.{◌≡◌, IsOk, IsTrue, length, map, nat_eq};
ghost use Rattle.liquid_model.specs.Answer.{Answers};
ghost use Rattle.liquid_model.specs.Data.{text_of, number};
ghost use Rattle.liquid_model.specs.Find.{counted};
ghost use Rattle.liquid_model.specs.View.{view};
ghost use Rattle.liquid_filters.specs.Size.{size_answer, size_of};

use itoa::Buffer;
use liquid_model::{Filter, Result, Value};
use std::alloc::Global;

/// `size`: the bytes of a scalar's text, the items of a list, the pairs of a map, and 0 for nil.
#[derive(Clone, Copy, Drop)]
pub struct Size;

impl Filter for Size {
    ghost counts = { λ _ n. nat_eq n 0 };

    ghost answer = { λ _. size_answer };

    fn accepts(&self, count: usize) -> bool {
        count == 0
    }

    /// Takes no memory.
    fn evaluate(&self, _alloc: Global, input: &Value, _args: &[Value]) -> Result<Value>
        requires { IsTrue (nat_eq (length _args.now) 0) }
        ensures answer { Answers view result (size_answer (view input.now) (map view _args.now)) }
        ensures no_memory { IsOk result }
    {
        Ok(number(len(input)))
    }
}

fn len(value: &Value) -> usize
    ensures { result ≡ size_of (view value.now) }
{
    match value {
        Value::Nil => 0,
        Value::Bool(true) => 4,
        Value::Bool(false) => 5,
        Value::Integer(n) => digits(*n),
        Value::Text(text) => text.len(),
        Value::Array(items) => items.len(),
        Value::Object(pairs) => pairs.len(),
    }
}

/// The bytes of a number's text.
fn digits(n: i64) -> usize
    ensures { result ≡ length (text_of (number n)) }
{
    Buffer::new().format(n).len()
}

/// A size as a number, at most the greatest there is.
fn number(n: usize) -> Value
    ensures { view result ≡ counted n }
{
    Value::Integer(n.min(9223372036854775807) as i64)
}
