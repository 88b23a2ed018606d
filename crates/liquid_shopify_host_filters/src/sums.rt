//! The filter `sum`.
ghost use Rattle.std.specs.Prelude.{◌≡◌, map, option_map, pos};
ghost use Rattle.liquid_model.specs.Answer.{Answers};
ghost use Rattle.liquid_model.specs.Lists.{list_of};
ghost use Rattle.liquid_model.specs.View.{view, items_view};
ghost use Rattle.liquid_shopify_host_filters.specs.Sums.{sum_with_term, sum_answer, summand};
ghost use Rattle.liquid_shopify_host_filters.specs.Sums.{summand_of};
ghost use Rattle.liquid_shopify_host_filters.specs.Sums.{total};
ghost use Rattle.liquid_decimals.specs.Sums.{term};

use liquid_filters::{property, sequence};
use liquid_model::{Error, ErrorKind, Result, Value, invalid_input, text_of};
use std::alloc::Global;

/// `sum`: the sum of a list's whole numbers, or of those that its maps have under the argument.
/// Nil, truth values and maps count as 0. A text that is no whole number, or a list in the list, is
/// `InvalidInput`, and a sum beyond 64 bits on the way `NumberRange`.
pub(crate) fn sum_answer(alloc: Global, input: &Value, args: &[Value]) -> Result<Value>
    ensures { Answers view result (sum_answer (view input.now) (map view args.now)) }
{
    let items = sequence(input);
    let sum = match args.first() {
        Some(name) => total(alloc, items, Some(text_of(alloc, name)?.as_str()))?,
        None => total(alloc, items, None)?,
    };
    Ok(Value::Integer(sum))
}

fn total(alloc: Global, items: &[Value], name: Option<&str>) -> Result<i64>
    ensures { Answers (λ n. n) result (total (option_map (λ s. s.now) name.entry) (pos 0)
        (list_of (items_view items.now))) }
{
    let mut sum = 0i64;
    for item in items {
        sum = added(alloc, sum, term(item, name))?;
    }
    Ok(sum)
}

/// What of an item is added: the item, or its property.
fn term<'a>(item: &'a Value, name: Option<&str>) -> Option<&'a Value>
    ensures { option_map (λ v. view v.now) result ≡ term (option_map (λ s. s.now) name.entry)
        (view item.now) }
{
    match name {
        Some(name) => property(item, name),
        None => Some(item),
    }
}

/// A sum with one more term.
fn added(alloc: Global, sum: i64, term: Option<&Value>) -> Result<i64>
    ensures { Answers (λ n. n) result (sum_with_term sum
        (option_map (λ v. view v.now) term.entry)) }
{
    let number = summand(alloc, term)?;
    match sum.checked_add(number) {
        Some(total) => Ok(total),
        None => Err(Error::new(alloc, ErrorKind::NumberRange, "the sum is beyond 64 bits")),
    }
}

/// What a term adds: nothing where there is none.
fn summand(alloc: Global, term: Option<&Value>) -> Result<i64>
    ensures { Answers (λ n. n) result (summand (option_map (λ v. view v.now) term.entry)) }
{
    match term {
        Some(value) => whole(alloc, value),
        None => Ok(0),
    }
}

/// The whole number of a value, where nil, truth values and maps count as 0.
fn whole(alloc: Global, value: &Value) -> Result<i64>
    ensures { Answers (λ n. n) result (summand_of (view value.now)) }
{
    match value {
        Value::Nil | Value::Bool(_) | Value::Object(_) => Ok(0),
        _ => match value.to_integer() {
            Some(number) => Ok(number),
            None => Err(invalid_input(alloc, "a list of whole numbers", value)),
        },
    }
}
