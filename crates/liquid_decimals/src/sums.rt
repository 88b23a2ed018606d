//! The sum of a list.
ghost use Rattle.std.specs.Prelude.{map, option_map};
ghost use Rattle.liquid_model.specs.Answer.{Answers};
ghost use Rattle.liquid_model.specs.Lists.{list_of};
ghost use Rattle.liquid_model.specs.View.{view, items_view};
ghost use Rattle.liquid_decimals.specs.Decimals.{decimal_view};
ghost use Rattle.liquid_decimals.specs.Sums.{decimal_total, sum_of, sum_with, term};
ghost use Rattle.liquid_decimals.specs.Sums.{zero};

use crate::arithmetic::{Operation, operated};
use crate::decimal::Decimal;
use crate::reading::input_decimal;
use liquid_filters::{property, sequence};
use liquid_model::{Result, Value, invalid_input, text_of};
use std::alloc::Global;

/// The sum of a list's decimals, or of those that its maps have under the argument. `InvalidInput`
/// where one isn't there, and `NumberRange` where a sum on the way is too long.
pub(crate) fn sum_of(alloc: Global, input: &Value, args: &[Value]) -> Result<Decimal>
    ensures { Answers decimal_view result (sum_of (view input.now) (map view args.now)) }
{
    let items = sequence(input);
    match args.first() {
        Some(name) => total(alloc, items, Some(text_of(alloc, name)?.as_str())),
        None => total(alloc, items, None),
    }
}

fn total(alloc: Global, items: &[Value], name: Option<&str>) -> Result<Decimal>
    ensures { Answers decimal_view result (decimal_total (option_map (λ s. s.now) name.entry) zero
        (list_of (items_view items.now))) }
{
    let mut sum = Decimal {
        units: 0,
        places: 0,
    };
    for item in items {
        sum = sum_with(alloc, sum, item, name)?;
    }
    Ok(sum)
}

/// A sum with one more term: an item, or its property.
fn sum_with(alloc: Global, sum: Decimal, item: &Value, name: Option<&str>) -> Result<Decimal>
    ensures { Answers decimal_view result (sum_with (decimal_view sum)
        (term (option_map (λ s. s.now) name.entry) (view item.now))) }
{
    let term = match name {
        Some(name) => property(item, name),
        None => Some(item),
    };
    match term {
        Some(value) => operated(alloc, Operation::Plus, sum, input_decimal(alloc, value)?),
        None => Err(invalid_input(alloc, "a list of maps that have the property", item)),
    }
}
