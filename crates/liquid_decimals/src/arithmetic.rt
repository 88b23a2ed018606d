//! What is computed from decimals.
ghost use Rattle.std.specs.Prelude.{◌≡◌, ◌≢◌, ◌≤◌, ◌<◌, ◌^◌, ◌*◌, pos};
ghost use Rattle.liquid_model.specs.Answer.{Answers};
ghost use Rattle.liquid_filters.specs.Rounding.{nearest};
ghost use Rattle.liquid_decimals.specs.Decimals.{compared, decimal_divided, decimal_rounded};
ghost use Rattle.liquid_decimals.specs.Decimals.{decimal_view, operated, quotient};

use crate::bounds::{beyond, bounded, sized, units_at};
use crate::decimal::Decimal;
use liquid_model::{Error, ErrorKind, Result};
use std::alloc::Global;

/// What two decimals are put together by.
#[derive(Clone, Copy, Drop)]
pub(crate) enum Operation {
    /// The sum, with the places of the one that has more.
    Plus,
    /// The difference, with the places of the one that has more.
    Minus,
    /// The product, with the places of both.
    Times,
    /// The greater of the two.
    AtLeast,
    /// The lesser of the two.
    AtMost,
}

/// What an operation makes of two decimals, exactly; `NumberRange` where that is too long.
pub(crate) fn operated(
    alloc: Global,
    operation: Operation,
    a: Decimal,
    b: Decimal,
) -> Result<Decimal>
    ensures { Answers decimal_view result (operated operation (decimal_view a) (decimal_view b)) }
{
    let places = a.places.max(b.places);
    let left = units_at(a, places);
    let right = units_at(b, places);
    match operation {
        Operation::Plus => bounded(alloc, left + right, places),
        Operation::Minus => bounded(alloc, left - right, places),
        Operation::Times => bounded(
            alloc,
            i128::from(a.units) * i128::from(b.units),
            a.places + b.places,
        ),
        Operation::AtLeast => Ok(if left < right { b } else { a }),
        Operation::AtMost => Ok(if right < left { b } else { a }),
    }
}

/// -1 where the first is less, 0 where both are the same, and else 1.
pub(crate) fn compared(a: Decimal, b: Decimal) -> i64
    ensures { result ≡ compared (decimal_view a) (decimal_view b) }
{
    let places = a.places.max(b.places);
    let left = units_at(a, places);
    let right = units_at(b, places);
    if left < right {
        -1
    } else if right < left {
        1
    } else {
        0
    }
}

/// The quotient with these places, from a half of the last place on away from zero.
/// `DivideByZero` where the divisor is 0, and `NumberRange` where the quotient is too long.
pub(crate) fn divided(alloc: Global, places: u32, a: Decimal, b: Decimal) -> Result<Decimal>
    requires { places ≤ 18 }
    ensures { Answers decimal_view result
        (decimal_divided places (decimal_view a) (decimal_view b)) }
{
    if b.units == 0 {
        return Err(Error::new(alloc, ErrorKind::DivideByZero, "the divisor must not be 0"));
    }
    quotient(alloc, places, a, b)
}

/// The decimal with these places, from a half of the last place on away from zero.
pub(crate) fn rounded_to(alloc: Global, places: u32, a: Decimal) -> Result<Decimal>
    requires { places ≤ 18 }
    ensures { Answers decimal_view result (decimal_rounded places (decimal_view a)) }
{
    divided(
        alloc,
        places,
        a,
        Decimal {
            units: 1,
            places: 0,
        },
    )
}

fn quotient(alloc: Global, places: u32, a: Decimal, b: Decimal) -> Result<Decimal>
    requires few { places ≤ 18 }
    requires nonzero { b.units ≢ pos 0 }
    ensures { Answers decimal_view result (quotient places (decimal_view a) (decimal_view b)) }
{
    let more = b.places + places;
    let divisor = u128::from(b.units.unsigned_abs()) * wide_power(a.places.saturating_sub(more));
    let factor = wide_power(more.saturating_sub(a.places));
    match u128::from(a.units.unsigned_abs()).checked_mul(factor) {
        Some(dividend) => sized(
            alloc,
            (a.units < 0) != (b.units < 0),
            nearest(dividend, divisor),
            places,
        ),
        None => Err(beyond(alloc)),
    }
}

fn wide_power(exponent: u32) -> u128
    requires { exponent ≤ 36 }
    ensures value { result ≡ 10 ^ exponent }
    ensures bound { exponent ≤ 18 → result ≤ 10 ^ 18 }
{
    10_u128.pow(exponent)
}

/// The quotient to the nearest whole number, from a half on up.
fn nearest(dividend: u128, divisor: u128) -> u128
    requires nonzero { 0 < divisor }
    requires small { divisor ≤ 2 ^ 63 * 10 ^ 18 }
    ensures { result ≡ nearest dividend divisor }
{
    let whole = dividend / divisor;
    if dividend % divisor * 2 < divisor {
        whole
    } else {
        whole + 1
    }
}
