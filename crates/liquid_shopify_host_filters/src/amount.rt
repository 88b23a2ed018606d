//! Amounts of money as texts.
ghost use Rattle.std.specs.Prelude.{◌≡◌, ◌++◌, ◌≤◌, ◌^◌, option_map, string_bytes};
ghost use Rattle.liquid_model.specs.Answer.{IsValueOrMemory};
ghost use Rattle.liquid_shopify_host_filters.specs.Amounts.{amount_of, amount_sign, cents_text};
ghost use Rattle.liquid_shopify_host_filters.specs.Amounts.{two_decimal_digits};
ghost use Rattle.liquid_shopify_host_filters.specs.Amounts.{units_of, whole_amount};

use crate::money::MoneyStyle;
use itoa::Buffer;
use liquid_decimals::push_grouped;
use liquid_model::Result;
use std::alloc::Global;

/// An amount of cents in a style.
pub(crate) fn amount(alloc: Global, style: MoneyStyle, cents: i64) -> Result<String>
    ensures { IsValueOrMemory (λ s. string_bytes s) result (amount_of style cents) }
{
    let left = cents.unsigned_abs();
    let point = style.point();
    let mut out = String::new(alloc);
    out.push_str(sign(point, cents))?;
    push_grouped(
        &mut out,
        Buffer::new().format(units_of(point, left)),
        style.thousands(),
    )?;
    push_cents(&mut out, point, left % 100)?;
    Ok(out)
}

/// The whole units of an amount of cents, without what follows the point.
pub(crate) fn whole_amount(alloc: Global, style: MoneyStyle, cents: i64) -> Result<String>
    ensures { IsValueOrMemory (λ s. string_bytes s) result (whole_amount style cents) }
{
    let left = cents.unsigned_abs();
    let mut out = String::new(alloc);
    out.push_str(if cents < 0 { "-" } else { "" })?;
    push_grouped(
        &mut out,
        Buffer::new().format(left / 100),
        style.thousands(),
    )?;
    Ok(out)
}

/// The sign of what is written: none where that is rounded to 0.
fn sign(point: Option<&'static str>, cents: i64) -> &'static str
    ensures { result.now ≡ amount_sign (option_map (λ p. p.now) point.entry) cents }
{
    match point {
        Some(_) if cents < 0 => "-",
        None if cents <= -50 => "-",
        _ => "",
    }
}

/// The units of an amount: rounded, half of one up, where no cents are written.
fn units_of(point: Option<&'static str>, left: u64) -> u64
    requires { left ≤ 2 ^ 63 }
    ensures { result ≡ units_of (option_map (λ p. p.now) point.entry) left }
{
    match point {
        Some(_) => left / 100,
        None => (left + 50) / 100,
    }
}

/// Appends the cents with the point before them, where they are written.
fn push_cents(out: &mut String, point: Option<&'static str>, cents: u64) -> Result<()>
    ensures { IsValueOrMemory (λ _. string_bytes out.new) result
        (string_bytes out.old ++ cents_text (option_map (λ p. p.now) point.entry) cents) }
{
    match point {
        Some(point) => {
            out.push_str(point)?;
            push_two_digits(out, cents)
        }
        None => Ok(()),
    }
}

fn push_two_digits(out: &mut String, number: u64) -> Result<()>
    ensures { IsValueOrMemory (λ _. string_bytes out.new) result
        (string_bytes out.old ++ two_decimal_digits number) }
{
    out.push_str(Buffer::new().format(number / 10))?;
    Ok(out.push_str(Buffer::new().format(number % 10))?)
}
