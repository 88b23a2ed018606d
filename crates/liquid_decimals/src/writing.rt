//! Decimals as texts.
ghost use Rattle.std.specs.Prelude.{◌≤◌, ◌++◌, string_bytes};
ghost use Rattle.liquid_model.specs.Answer.{IsValueOrMemory};
ghost use Rattle.liquid_decimals.specs.Decimals.{decimal_view};
ghost use Rattle.liquid_decimals.specs.Written.{fraction_text, grouped_text};

use crate::bounds::power;
use crate::decimal::Decimal;
use crate::groups::push_grouped;
use itoa::Buffer;
use liquid_model::Result;
use std::alloc::Global;

/// The text of a decimal, with separators between the thousands and a point of its own.
pub(crate) fn grouped_text(
    alloc: Global,
    decimal: Decimal,
    thousands: &str,
    point: &str,
) -> Result<String>
    ensures { IsValueOrMemory (λ s. string_bytes s) result
        (grouped_text thousands.now point.now (decimal_view decimal)) }
{
    let size = decimal.units.unsigned_abs();
    let mut out = String::new(alloc);
    out.push_str(if decimal.units < 0 { "-" } else { "" })?;
    let whole = size / power(decimal.places);
    push_grouped(&mut out, Buffer::new().format(whole), thousands)?;
    push_fraction(&mut out, point, decimal.places, size)?;
    Ok(out)
}

/// Appends the last digits of a number, with the point before them where there are any.
fn push_fraction(out: &mut String, point: &str, places: u32, number: u64) -> Result<()>
    requires { places ≤ 18 }
    ensures { IsValueOrMemory (λ _. string_bytes out.new) result
        (string_bytes out.old ++ fraction_text point.now places number) }
{
    if places == 0 {
        return Ok(());
    }
    out.push_str(point)?;
    let mut left = places;
    while left > 0 {
        left -= 1;
        let digit = number / power(left) % 10;
        out.push(char::from(b'0' + digit as u8))?;
    }
    Ok(())
}
