//! Decimal texts brought to whole numbers.
ghost use Rattle.std.specs.Prelude.{IsTrue, ◌||◌, length, map, nat_eq};
ghost use Rattle.liquid_model.specs.Answer.{Answers, TakesNoMemory};
ghost use Rattle.liquid_model.specs.ErrorKinds.{IsKindOrMemory};
ghost use Rattle.liquid_model.specs.View.{view};
ghost use Rattle.liquid_model.specs.Whole.{whole};
ghost use Rattle.liquid_model.specs.Satisfies.{Satisfies};
ghost use Rattle.liquid_model.specs.declared.error.ErrorKind.TheVariants.{Float};
ghost use Rattle.liquid_filters.specs.Numbers.{of_none};
ghost use Rattle.liquid_filters.specs.declared.stdlib.filters.math.decimal.Rounding.TheVariants.{Up};
ghost use Rattle.liquid_filters.specs.declared.stdlib.filters.math.decimal.Rounding.TheVariants.{Down};
ghost use Rattle.liquid_filters.specs.Rounding.{round, rounded, rounded_by, rounded_to};
ghost use Rattle.liquid_filters.specs.RoundingLaws.{IsRounded, Rounds};

use super::decimal::{Decimal, Rounding};
use super::operands::{is_decimal_text, within_range};
use liquid_model::{
    Error, ErrorKind, Filter, Quoted, Result, Value, invalid_input, whole_argument,
};
use std::alloc::Global;

/// The most places to which `round` is asked to round.
const MOST_PLACES: i64 = 2147483647;

/// `round`: a decimal text brought to the nearest whole number, and from a half on away from 0; a
/// whole number stays.
#[derive(Clone, Copy, Drop)]
pub struct Round;

impl Filter for Round {
    ghost counts = { λ _ n. nat_eq n 0 || nat_eq n 1 };

    ghost answer = { λ _. round };

    fn accepts(&self, count: usize) -> bool {
        count == 0 || count == 1
    }

    /// The argument is the number of places after the point, 0 without it or below it; more are not
    /// computed.
    /// Faults: `InvalidArgument` where the argument has no whole number, `InvalidInput` where it is
    /// above 2147483647 or the input is neither a whole number nor a decimal text, `Float` where
    /// the input is a decimal text and places are asked for, and `NumberRange` where the result is
    /// beyond 64 bits.
    fn evaluate(&self, alloc: Global, input: &Value, args: &[Value]) -> Result<Value>
        requires { IsTrue (nat_eq (length args.now) 0 || nat_eq (length args.now) 1) }
        ensures answer { Answers view result (round (view input.now) (map view args.now)) }
        ensures relation { Satisfies (Rounds (map view args.now) (view input.now)) result }
        ensures no_memory { TakesNoMemory result (round (view input.now) (map view args.now)) }
    {
        round_answer(alloc, input, args)
    }
}

fn round_answer(alloc: Global, input: &Value, args: &[Value]) -> Result<Value>
    requires { IsTrue (nat_eq (length args.now) 0 || nat_eq (length args.now) 1) }
    ensures answer { Answers view result (round (view input.now) (map view args.now)) }
    ensures no_memory { TakesNoMemory result (round (view input.now) (map view args.now)) }
{
    match args.first() {
        Some(places) => rounded_by(alloc, input, places),
        None => rounded(alloc, input, Rounding::Nearest),
    }
}

/// The input brought to the places that the argument says.
fn rounded_by(alloc: Global, input: &Value, places: &Value) -> Result<Value>
    ensures answer { Answers view result (rounded_by (view input.now) (view places.now)) }
    ensures no_memory { TakesNoMemory result (rounded_by (view input.now) (view places.now)) }
{
    let places = whole_argument(alloc, places)?;
    rounded_to(alloc, input, places)
}

/// `ceil`: a decimal text brought to the least whole number that isn't below; a whole number stays.
#[derive(Clone, Copy, Drop)]
pub struct Ceil;

impl Filter for Ceil {
    ghost counts = { λ _ n. nat_eq n 0 };

    ghost answer = { λ _. of_none (rounded Up) };

    fn accepts(&self, count: usize) -> bool {
        count == 0
    }

    /// Faults: `InvalidInput` where the input is neither a whole number nor a decimal text, and
    /// `NumberRange` where the result is beyond 64 bits.
    fn evaluate(&self, alloc: Global, input: &Value, args: &[Value]) -> Result<Value>
        requires { IsTrue (nat_eq (length args.now) 0) }
        ensures answer { Answers view result (of_none (rounded Up) (view input.now)
            (map view args.now)) }
        ensures relation { Satisfies (IsRounded Up (whole (view input.now))
            (view input.now)) result }
        ensures no_memory { TakesNoMemory result (of_none (rounded Up) (view input.now)
            (map view args.now)) }
    {
        ceil_answer(alloc, input, args)
    }
}

fn ceil_answer(alloc: Global, input: &Value, _args: &[Value]) -> Result<Value>
    requires { IsTrue (nat_eq (length _args.now) 0) }
    ensures answer { Answers view result (of_none (rounded Up) (view input.now)
        (map view _args.now)) }
    ensures no_memory { TakesNoMemory result (of_none (rounded Up) (view input.now)
        (map view _args.now)) }
{
    rounded(alloc, input, Rounding::Up)
}

/// `floor`: a decimal text brought to the greatest whole number that isn't above; a whole number
/// stays.
#[derive(Clone, Copy, Drop)]
pub struct Floor;

impl Filter for Floor {
    ghost counts = { λ _ n. nat_eq n 0 };

    ghost answer = { λ _. of_none (rounded Down) };

    fn accepts(&self, count: usize) -> bool {
        count == 0
    }

    /// Faults: `InvalidInput` where the input is neither a whole number nor a decimal text, and
    /// `NumberRange` where the result is beyond 64 bits.
    fn evaluate(&self, alloc: Global, input: &Value, args: &[Value]) -> Result<Value>
        requires { IsTrue (nat_eq (length args.now) 0) }
        ensures answer { Answers view result (of_none (rounded Down) (view input.now)
            (map view args.now)) }
        ensures relation { Satisfies (IsRounded Down (whole (view input.now))
            (view input.now)) result }
        ensures no_memory { TakesNoMemory result (of_none (rounded Down) (view input.now)
            (map view args.now)) }
    {
        floor_answer(alloc, input, args)
    }
}

fn floor_answer(alloc: Global, input: &Value, _args: &[Value]) -> Result<Value>
    requires { IsTrue (nat_eq (length _args.now) 0) }
    ensures answer { Answers view result (of_none (rounded Down) (view input.now)
        (map view _args.now)) }
    ensures no_memory { TakesNoMemory result (of_none (rounded Down) (view input.now)
        (map view _args.now)) }
{
    rounded(alloc, input, Rounding::Down)
}

/// The input brought to a whole number.
fn rounded(alloc: Global, input: &Value, how: Rounding) -> Result<Value>
    ensures answer { Answers view result (rounded how (view input.now)) }
    ensures no_memory { TakesNoMemory result (rounded how (view input.now)) }
{
    if let Some(number) = input.to_integer() {
        return Ok(Value::Integer(number));
    }
    if let Value::Text(text) = input {
        if let Some(decimal) = Decimal::read(text.as_str()) {
            return within_range(alloc, decimal.rounded(how));
        }
    }
    Err(invalid_input(alloc, "a whole or decimal number", input))
}

/// The input brought to a whole number, where no places after the point are asked for.
fn rounded_to(alloc: Global, input: &Value, places: i64) -> Result<Value>
    ensures answer { Answers view result (rounded_to places (view input.now)) }
    ensures no_memory { TakesNoMemory result (rounded_to places (view input.now)) }
{
    if places <= 0 {
        return rounded(alloc, input, Rounding::Nearest);
    }
    if places > MOST_PLACES {
        return Err(Error::formatted(
            alloc,
            ErrorKind::InvalidInput,
            format_args!("the places must be at most {MOST_PLACES}, not {places}"),
        ));
    }
    if let Some(number) = input.to_integer() {
        return Ok(Value::Integer(number));
    }
    if is_decimal_text(input) {
        return Err(places_refused(alloc, input));
    }
    Err(invalid_input(alloc, "a whole or decimal number", input))
}

/// A decimal text of which places are to be kept.
fn places_refused(alloc: Global, decimal: &Value) -> Error
    ensures { IsKindOrMemory Float result.kind }
{
    let text = match decimal {
        Value::Text(text) => text.as_str(),
        _ => "",
    };
    let quoted = Quoted { text };
    Error::formatted(
        alloc,
        ErrorKind::Float,
        format_args!(
            "`{quoted}` is rounded to a whole number alone; leave the places out, or count in a \
            smaller unit, as cents"
        ),
    )
}
