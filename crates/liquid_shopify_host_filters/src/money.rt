//! The filters that write amounts of money.
ghost use Rattle.std.specs.Prelude.{◌≡◌, option_map};
ghost use Rattle.liquid_model.specs.Answer.{Answers, IsValueOrMemory};
ghost use Rattle.liquid_model.specs.Data.{text};
ghost use Rattle.liquid_model.specs.View.{view};
ghost use Rattle.liquid_shopify_host_filters.specs.Money.{amount_answer, cents_of, in_format};
ghost use Rattle.liquid_shopify_host_filters.specs.Money.{money, money_answer, trimmed};
ghost use Rattle.liquid_shopify_host_filters.specs.Money.{trimmed_answer};
ghost use Rattle.liquid_shopify_host_filters.specs.Styles.{point, style_named, thousands};

use crate::amount::{amount, whole_amount};
use liquid_model::{Result, Value, invalid_input};
use std::alloc::Global;

/// How an amount is written, by the name of the placeholder that stands for it in a shop's
/// settings.
#[derive(Clone, Copy, Drop)]
pub enum MoneyStyle {
    /// `amount`: `1,134.65`.
    Amount,
    /// `amount_no_decimals`: `1,135`.
    AmountNoDecimals,
    /// `amount_with_comma_separator`: `1.134,65`.
    AmountWithCommaSeparator,
    /// `amount_no_decimals_with_comma_separator`: `1.135`.
    AmountNoDecimalsWithCommaSeparator,
    /// `amount_with_apostrophe_separator`: `1'134.65`.
    AmountWithApostropheSeparator,
    /// `amount_no_decimals_with_space_separator`: `1 135`.
    AmountNoDecimalsWithSpaceSeparator,
    /// `amount_with_space_separator`: `1 134,65`.
    AmountWithSpaceSeparator,
    /// `amount_with_period_and_space_separator`: `1 134.65`.
    AmountWithPeriodAndSpaceSeparator,
}

impl MoneyStyle {
    /// The style of the placeholder of this name, if it is one.
    pub fn named(name: &str) -> Option<MoneyStyle>
        ensures { result ≡ style_named name.now }
    {
        match name {
            "amount" => Some(MoneyStyle::Amount),
            "amount_no_decimals" => Some(MoneyStyle::AmountNoDecimals),
            "amount_with_comma_separator" => Some(MoneyStyle::AmountWithCommaSeparator),
            "amount_no_decimals_with_comma_separator" => {
                Some(MoneyStyle::AmountNoDecimalsWithCommaSeparator)
            }
            "amount_with_apostrophe_separator" => Some(MoneyStyle::AmountWithApostropheSeparator),
            "amount_no_decimals_with_space_separator" => {
                Some(MoneyStyle::AmountNoDecimalsWithSpaceSeparator)
            }
            "amount_with_space_separator" => Some(MoneyStyle::AmountWithSpaceSeparator),
            "amount_with_period_and_space_separator" => {
                Some(MoneyStyle::AmountWithPeriodAndSpaceSeparator)
            }
            _ => None,
        }
    }

    /// What stands between groups of three digits.
    pub(crate) fn thousands(self) -> &'static str
        ensures { result.now ≡ thousands self }
    {
        match self {
            MoneyStyle::Amount | MoneyStyle::AmountNoDecimals => ",",
            MoneyStyle::AmountWithCommaSeparator | MoneyStyle::AmountNoDecimalsWithCommaSeparator =>
                ".",
            MoneyStyle::AmountWithApostropheSeparator => "'",
            MoneyStyle::AmountNoDecimalsWithSpaceSeparator
            | MoneyStyle::AmountWithSpaceSeparator
            | MoneyStyle::AmountWithPeriodAndSpaceSeparator => " ",
        }
    }

    /// What stands before the cents, where they are written.
    pub(crate) fn point(self) -> Option<&'static str>
        ensures { option_map (λ p. p.now) result ≡ point self }
    {
        match self {
            MoneyStyle::Amount
            | MoneyStyle::AmountWithApostropheSeparator
            | MoneyStyle::AmountWithPeriodAndSpaceSeparator => Some("."),
            MoneyStyle::AmountWithCommaSeparator | MoneyStyle::AmountWithSpaceSeparator => {
                Some(",")
            }
            MoneyStyle::AmountNoDecimals
            | MoneyStyle::AmountNoDecimalsWithCommaSeparator
            | MoneyStyle::AmountNoDecimalsWithSpaceSeparator => None,
        }
    }
}

/// How an amount with its currency is written: `$ {{amount}} USD` is `$ `, the style `Amount` and
/// ` USD`.
#[derive(Drop)]
pub struct MoneyFormat {
    /// What stands before the amount.
    pub before: String,
    /// How the amount itself is written.
    pub style: MoneyStyle,
    /// What stands after the amount.
    pub after: String,
}

/// `money`, and `money_with_currency` with another format: an amount of whole cents. Nil gives the
/// empty text, and any other input without a whole number is `InvalidInput`.
pub(crate) fn money_answer(alloc: Global, format: &MoneyFormat, input: &Value) -> Result<Value>
    ensures { Answers view result (money_answer format.now (view input.now)) }
{
    match cents_of(alloc, input)? {
        Some(cents) => money(alloc, format, cents),
        None => Ok(Value::Text(String::new(alloc))),
    }
}

/// `money_without_currency`: the amount alone, in the shop's style.
pub(crate) fn amount_answer(alloc: Global, format: &MoneyFormat, input: &Value) -> Result<Value>
    ensures { Answers view result (amount_answer format.now (view input.now)) }
{
    match cents_of(alloc, input)? {
        Some(cents) => Ok(Value::Text(amount(alloc, format.style, cents)?)),
        None => Ok(Value::Text(String::new(alloc))),
    }
}

/// `money_without_trailing_zeros`: as `money`, but an amount of whole units has no cents after it.
pub(crate) fn trimmed_answer(alloc: Global, format: &MoneyFormat, input: &Value) -> Result<Value>
    ensures { Answers view result (trimmed_answer format.now (view input.now)) }
{
    match cents_of(alloc, input)? {
        Some(cents) => trimmed(alloc, format, cents),
        None => Ok(Value::Text(String::new(alloc))),
    }
}

/// The cents of the input, and none for nil.
fn cents_of(alloc: Global, input: &Value) -> Result<Option<i64>>
    ensures { Answers (λ o. o) result (cents_of (view input.now)) }
{
    if matches!(input, Value::Nil) {
        return Ok(None);
    }
    match input.to_integer() {
        Some(cents) => Ok(Some(cents)),
        None => Err(invalid_input(alloc, "a whole number of cents", input)),
    }
}

fn money(alloc: Global, format: &MoneyFormat, cents: i64) -> Result<Value>
    ensures { IsValueOrMemory view result (text (money format.now cents)) }
{
    let shown = amount(alloc, format.style, cents)?;
    in_format(alloc, format, shown.as_str())
}

fn trimmed(alloc: Global, format: &MoneyFormat, cents: i64) -> Result<Value>
    ensures { IsValueOrMemory view result (text (trimmed format.now cents)) }
{
    if cents.unsigned_abs() % 100 != 0 {
        return money(alloc, format, cents);
    }
    let shown = whole_amount(alloc, format.style, cents)?;
    in_format(alloc, format, shown.as_str())
}

/// An amount with what stands before and after it.
fn in_format(alloc: Global, format: &MoneyFormat, shown: &str) -> Result<Value>
    ensures { IsValueOrMemory view result (text (in_format format.now shown.now)) }
{
    let before = format.before.as_str();
    let after = format.after.as_str();
    Ok(Value::Text(format!(in alloc; "{before}{shown}{after}")?))
}
