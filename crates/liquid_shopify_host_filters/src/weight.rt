//! The filter that writes weights.
ghost use Rattle.std.specs.Prelude.{◌≡◌, ◌++◌, string_bytes};
ghost use Rattle.liquid_model.specs.Answer.{Answers, IsValueOrMemory};
ghost use Rattle.liquid_model.specs.View.{view};
ghost use Rattle.liquid_shopify_host_filters.specs.Weights.{thousandths, weight, weight_answer};

use itoa::Buffer;
use liquid_model::{Result, Value, invalid_input};
use std::alloc::Global;

/// `weight_with_unit`: a weight of whole grams in kilograms. `InvalidInput` where the input has no
/// whole number.
pub(crate) fn weight_answer(alloc: Global, input: &Value) -> Result<Value>
    ensures { Answers view result (weight_answer (view input.now)) }
{
    match input.to_integer() {
        Some(grams) => Ok(Value::Text(weight(alloc, grams)?)),
        None => Err(invalid_input(alloc, "a whole number of grams", input)),
    }
}

/// A weight in kilograms, with as many decimals as it has, but one at least.
fn weight(alloc: Global, grams: i64) -> Result<String>
    ensures { IsValueOrMemory (λ s. string_bytes s) result (weight grams) }
{
    let left = grams.unsigned_abs();
    let mut out = String::new(alloc);
    out.push_str(if grams < 0 { "-" } else { "" })?;
    out.push_str(Buffer::new().format(left / 1000))?;
    out.push_str(".")?;
    push_thousandths(&mut out, left % 1000)?;
    out.push_str(" kg")?;
    Ok(out)
}

/// Appends thousandths as decimals: one, two or three, as many as are wanted.
fn push_thousandths(out: &mut String, number: u64) -> Result<()>
    ensures { IsValueOrMemory (λ _. string_bytes out.new) result
        (string_bytes out.old ++ thousandths number) }
{
    out.push_str(Buffer::new().format(number / 100))?;
    if number % 100 != 0 {
        out.push_str(Buffer::new().format(number / 10 % 10))?;
    }
    if number % 10 != 0 {
        out.push_str(Buffer::new().format(number % 10))?;
    }
    Ok(())
}
