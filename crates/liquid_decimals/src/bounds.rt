//! What is within the bounds of decimals.
ghost use Rattle.std.specs.Prelude.{◌≡◌, ◌<◌, ◌≤◌, ◌*◌, ◌^◌, unsigned_abs};
ghost use Rattle.liquid_model.specs.Answer.{Answers};
ghost use Rattle.liquid_model.specs.ErrorKinds.{IsKindOrMemory};
ghost use Rattle.liquid_model.specs.declared.error.ErrorKind.TheVariants.{NumberRange};
ghost use Rattle.liquid_filters.specs.Rounding.{signed};
ghost use Rattle.liquid_decimals.specs.Decimals.{bounded, decimal_view, units_at};

use crate::decimal::Decimal;
use liquid_model::{Error, ErrorKind, Result};
use std::alloc::Global;

/// How many places a decimal has at most.
pub(crate) const MOST_PLACES: u32 = 18;

/// Ten to a power.
pub(crate) fn power(exponent: u32) -> u64
    requires { exponent ≤ 18 }
    ensures value { result ≡ 10 ^ exponent }
    ensures positive { 0 < result }
    ensures bound { result ≤ 10 ^ 18 }
{
    10_u64.pow(exponent)
}

/// The units where the decimal is written with these places.
pub(crate) fn units_at(decimal: Decimal, places: u32) -> i128
    requires more { decimal.places ≤ places }
    requires few { places ≤ 18 }
    ensures value { result ≡ units_at places (decimal_view decimal) }
    ensures bound { unsigned_abs result ≤ 2 ^ 63 * 10 ^ 18 }
{
    i128::from(decimal.units) * i128::from(power(places - decimal.places))
}

/// The decimal of units of this size and sign.
pub(crate) fn sized(alloc: Global, negative: bool, size: u128, places: u32) -> Result<Decimal>
    ensures { Answers decimal_view result (bounded (signed negative size) places) }
{
    if size > 0x8000_0000_0000_0000 {
        return Err(beyond(alloc));
    }
    let units = size as i128;
    bounded(alloc, if negative { -units } else { units }, places)
}

/// The decimal of these units and places, where they are within its bounds.
pub(crate) fn bounded(alloc: Global, units: i128, places: u32) -> Result<Decimal>
    ensures { Answers decimal_view result (bounded units places) }
{
    match i64::try_from(units) {
        Ok(units) if places <= MOST_PLACES => Ok(Decimal { units, places }),
        _ => Err(beyond(alloc)),
    }
}

/// The fault of what is too long for a decimal.
pub(crate) fn beyond(alloc: Global) -> Error
    ensures { IsKindOrMemory NumberRange result.kind }
{
    Error::new(
        alloc,
        ErrorKind::NumberRange,
        "a decimal has at most 18 places, and without its point it is within 64 bits",
    )
}
