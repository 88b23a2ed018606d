//! The whole numbers that a filter over numbers computes with.
ghost use Rattle.std.specs.Prelude.{false, ◌≡◌, ◌&&◌};
ghost use Rattle.liquid_model.specs.Answer.{Answers, TakesNoMemory};
ghost use Rattle.liquid_model.specs.ErrorKinds.{IsKindOrMemory};
ghost use Rattle.liquid_model.specs.View.{view};
ghost use Rattle.liquid_model.specs.declared.error.ErrorKind.TheVariants.{Float};
ghost use Rattle.liquid_filters.specs.Decimals.{is_decimal_text};
ghost use Rattle.liquid_filters.specs.Numbers.{operands, is_numeric, is_zero, or_range};
ghost use Rattle.liquid_filters.specs.Numbers.{unlike};

use super::decimal::Decimal;
use liquid_model::{
    Error, ErrorKind, FoundValue, Quoted, Result, Value, invalid_argument, invalid_input,
};
use std::alloc::Global;

/// Whether the value is a decimal text.
pub fn is_decimal_text(value: &Value) -> bool
    ensures { result ≡ is_decimal_text (view value.now) }
{
    match value {
        Value::Text(text) => Decimal::read(text.as_str()).is_some(),
        _ => false,
    }
}

fn is_numeric(value: &Value) -> bool
    ensures { result ≡ is_numeric (view value.now) }
{
    value.to_integer().is_some() || is_decimal_text(value)
}

/// The whole numbers of the input and the operand. The first that applies: `InvalidInput` where the
/// input is no scalar, `InvalidArgument` where the operand is none, `DivideByZero` where a divisor
/// is the whole number 0, `Float` where one is a decimal text and the other that or a whole number,
/// and else `InvalidArgument`.
pub fn operands(alloc: Global, input: &Value, operand: &Value, divides: bool) -> Result<(i64, i64)>
    ensures answer { Answers (λ p. p) result
        (operands divides (view input.now) (view operand.now)) }
    ensures no_memory { TakesNoMemory result
        (operands divides (view input.now) (view operand.now)) }
{
    if !input.is_scalar() {
        return Err(invalid_input(alloc, "a number", input));
    }
    if !operand.is_scalar() {
        return Err(invalid_argument(alloc, "a number", operand));
    }
    let second = operand.to_integer();
    if divides_by_zero(divides, second) {
        return Err(Error::new(alloc, ErrorKind::DivideByZero, "the divisor must not be 0"));
    }
    match input.to_integer().zip(second) {
        Some(both) => Ok(both),
        None => Err(unlike(alloc, input, operand)),
    }
}

fn divides_by_zero(divides: bool, operand: Option<i64>) -> bool
    ensures { result ≡ (divides && is_zero operand) }
{
    divides && matches!(operand, Some(0))
}

/// Why two scalars that haven't both a whole number are refused.
fn unlike(alloc: Global, input: &Value, operand: &Value) -> Error
    ensures { IsKindOrMemory (unlike (view input.now) (view operand.now)) result.kind }
{
    if is_numeric(input) && is_numeric(operand) {
        let decimal = if is_decimal_text(input) {
            input
        } else {
            operand
        };
        return decimal_refused(alloc, decimal);
    }
    if is_numeric(input) {
        return invalid_argument(alloc, "a whole number", operand);
    }
    let found = FoundValue { value: input };
    Error::formatted(
        alloc,
        ErrorKind::InvalidArgument,
        format_args!("the input must be a number, not {found}"),
    )
}

/// A decimal text, with which no filter computes but those that round.
pub fn decimal_refused(alloc: Global, decimal: &Value) -> Error
    ensures { IsKindOrMemory Float result.kind }
{
    let text = match decimal {
        Value::Text(text) => text.as_str(),
        _ => "",
    };
    let quoted = Quoted { text };
    Error::formatted(
        alloc,
        ErrorKind::Float,
        format_args!(
            "`{quoted}` is a decimal number, and a whole one is wanted; count in a smaller unit, as cents, or make it whole by `round`"
        ),
    )
}

/// The number that was computed, or `NumberRange` where it is beyond 64 bits.
pub fn within_range(alloc: Global, number: Option<i64>) -> Result<Value>
    ensures answer { Answers view result (or_range number) }
    ensures no_memory { TakesNoMemory result (or_range number) }
{
    match number {
        Some(n) => Ok(Value::Integer(n)),
        None => Err(Error::new(
            alloc,
            ErrorKind::NumberRange,
            "the result must be within 64 bits, from -9223372036854775808 to 9223372036854775807",
        )),
    }
}
