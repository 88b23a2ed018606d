//! Which values are decimals.
ghost use Rattle.std.specs.Prelude.{option_map};
ghost use Rattle.liquid_model.specs.Answer.{Answers};
ghost use Rattle.liquid_model.specs.View.{view};
ghost use Rattle.liquid_model.specs.declared.error.ErrorKind.TheVariants.{InvalidArgument};
ghost use Rattle.liquid_model.specs.declared.error.ErrorKind.TheVariants.{InvalidInput};
ghost use Rattle.liquid_decimals.specs.Decimals.{decimal_view};
ghost use Rattle.liquid_decimals.specs.Readings.{decimal_in, decimal_or, of_digits};
ghost use Rattle.liquid_decimals.specs.Readings.{places_or_fault};

use crate::bounds::{MOST_PLACES, beyond, power, sized};
use crate::decimal::Decimal;
use liquid_filters::DecimalText;
use liquid_model::{Result, Value, invalid_argument, invalid_input, whole_argument};
use std::alloc::Global;

/// The decimal of an input, else `InvalidInput`, or `NumberRange` of one that is too long.
pub(crate) fn input_decimal(alloc: Global, value: &Value) -> Result<Decimal>
    ensures { Answers decimal_view result (decimal_or InvalidInput (view value.now)) }
{
    match decimal_in(alloc, value)? {
        Some(decimal) => Ok(decimal),
        None => Err(invalid_input(alloc, "a decimal", value)),
    }
}

/// The decimal of an argument, else `InvalidArgument`, or `NumberRange` of one that is too long.
pub(crate) fn argument_decimal(alloc: Global, value: &Value) -> Result<Decimal>
    ensures { Answers decimal_view result (decimal_or InvalidArgument (view value.now)) }
{
    match decimal_in(alloc, value)? {
        Some(decimal) => Ok(decimal),
        None => Err(invalid_argument(alloc, "a decimal", value)),
    }
}

/// A number of places, from 0 to 18, else `InvalidArgument`.
pub(crate) fn places_argument(alloc: Global, value: &Value) -> Result<u32>
    ensures { Answers (λ n. n) result (places_or_fault (view value.now)) }
{
    match u32::try_from(whole_argument(alloc, value)?) {
        Ok(places) if places <= MOST_PLACES => Ok(places),
        _ => Err(invalid_argument(alloc, "a number of places, from 0 to 18", value)),
    }
}

/// The decimal that a value is, where it is one.
fn decimal_in(alloc: Global, value: &Value) -> Result<Option<Decimal>>
    ensures { Answers (option_map decimal_view) result (decimal_in (view value.now)) }
{
    match value {
        Value::Integer(number) => Ok(Some(Decimal {
            units: *number,
            places: 0,
        })),
        Value::Text(text) => match DecimalText::read(text.as_str()) {
            Some(parts) => Ok(Some(of_digits(alloc, parts)?)),
            None => Ok(None),
        },
        _ => Ok(None),
    }
}

/// The decimal of the digits before and after a point.
fn of_digits(alloc: Global, parts: DecimalText<'_>) -> Result<Decimal>
    ensures { Answers decimal_view result
        (of_digits parts.entry.negative parts.entry.whole.now parts.entry.fraction.now) }
{
    let Some(whole) = parts.whole_size() else {
        return Err(beyond(alloc));
    };
    let Some(fraction) = parts.fraction_size() else {
        return Err(beyond(alloc));
    };
    let places = parts.fraction.len();
    if places > 18 {
        return Err(beyond(alloc));
    }
    let places = places as u32;
    let size = u128::from(whole) * u128::from(power(places)) + u128::from(fraction);
    sized(alloc, parts.negative, size, places)
}
