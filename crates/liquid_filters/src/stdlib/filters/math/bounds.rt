//! The greater and the lesser of two numbers, and the absolute value of one.
ghost use Rattle.std.specs.Prelude.{IsTrue, false, length, map, nat_eq};
ghost use Rattle.liquid_model.specs.Answer.{Answers, TakesNoMemory};
ghost use Rattle.liquid_model.specs.Data.{scalar};
ghost use Rattle.liquid_model.specs.View.{view};
ghost use Rattle.liquid_model.specs.Whole.{whole};
ghost use Rattle.liquid_model.specs.Satisfies.{Satisfies};
ghost use Rattle.liquid_filters.specs.Decimals.{is_decimal_text};
ghost use Rattle.liquid_filters.specs.NumberLaws.{AbsoluteOf, IsGreater, IsLesser};
ghost use Rattle.liquid_filters.specs.NumberLaws.{StepsWith};
ghost use Rattle.liquid_filters.specs.Numbers.{of_none, of_one, at_least, at_most, abs};

use super::operands::{decimal_refused, is_decimal_text, operands, within_range};
use liquid_model::{Filter, Result, Value, invalid_input};
use std::alloc::Global;

/// `at_least`: the greater of two whole numbers.
#[derive(Clone, Copy, Drop)]
pub struct AtLeast;

impl Filter for AtLeast {
    ghost counts = { λ _ n. nat_eq n 1 };

    ghost answer = { λ _. of_one at_least };

    fn accepts(&self, count: usize) -> bool {
        count == 1
    }

    /// Faults: those of two operands.
    fn evaluate(&self, alloc: Global, input: &Value, args: &[Value]) -> Result<Value>
        requires { IsTrue (nat_eq (length args.now) 1) }
        ensures answer { Answers view result
            (of_one at_least (view input.now) (map view args.now)) }
        ensures relation { Satisfies (StepsWith IsGreater false (view input.now)
            (map view args.now)) result }
        ensures no_memory { TakesNoMemory result
            (of_one at_least (view input.now) (map view args.now)) }
    {
        at_least_answer(alloc, input, args)
    }
}

fn at_least_answer(alloc: Global, input: &Value, args: &[Value]) -> Result<Value>
    requires { IsTrue (nat_eq (length args.now) 1) }
    ensures answer { Answers view result (of_one at_least (view input.now) (map view args.now)) }
    ensures no_memory { TakesNoMemory result
        (of_one at_least (view input.now) (map view args.now)) }
{
    greater(alloc, input, &args[0])
}

fn greater(alloc: Global, input: &Value, operand: &Value) -> Result<Value>
    ensures answer { Answers view result (at_least (view input.now) (view operand.now)) }
    ensures no_memory { TakesNoMemory result (at_least (view input.now) (view operand.now)) }
{
    let (a, b) = operands(alloc, input, operand, false)?;
    Ok(Value::Integer(a.max(b)))
}

/// `at_most`: the lesser of two whole numbers.
#[derive(Clone, Copy, Drop)]
pub struct AtMost;

impl Filter for AtMost {
    ghost counts = { λ _ n. nat_eq n 1 };

    ghost answer = { λ _. of_one at_most };

    fn accepts(&self, count: usize) -> bool {
        count == 1
    }

    /// Faults: those of two operands.
    fn evaluate(&self, alloc: Global, input: &Value, args: &[Value]) -> Result<Value>
        requires { IsTrue (nat_eq (length args.now) 1) }
        ensures answer { Answers view result (of_one at_most (view input.now) (map view args.now)) }
        ensures relation { Satisfies (StepsWith IsLesser false (view input.now) (map view args.now))
            result }
        ensures no_memory { TakesNoMemory result
            (of_one at_most (view input.now) (map view args.now)) }
    {
        at_most_answer(alloc, input, args)
    }
}

fn at_most_answer(alloc: Global, input: &Value, args: &[Value]) -> Result<Value>
    requires { IsTrue (nat_eq (length args.now) 1) }
    ensures answer { Answers view result (of_one at_most (view input.now) (map view args.now)) }
    ensures no_memory { TakesNoMemory result (of_one at_most (view input.now) (map view args.now)) }
{
    lesser(alloc, input, &args[0])
}

fn lesser(alloc: Global, input: &Value, operand: &Value) -> Result<Value>
    ensures answer { Answers view result (at_most (view input.now) (view operand.now)) }
    ensures no_memory { TakesNoMemory result (at_most (view input.now) (view operand.now)) }
{
    let (a, b) = operands(alloc, input, operand, false)?;
    Ok(Value::Integer(a.min(b)))
}

/// `abs`: the absolute value of a whole number.
#[derive(Clone, Copy, Drop)]
pub struct Abs;

impl Filter for Abs {
    ghost counts = { λ _ n. nat_eq n 0 };

    ghost answer = { λ _. of_none abs };

    fn accepts(&self, count: usize) -> bool {
        count == 0
    }

    /// Faults: `InvalidInput` where the input is no scalar, `NumberRange` at the least number,
    /// `Float` where the input is a decimal text, and else `InvalidInput`.
    fn evaluate(&self, alloc: Global, input: &Value, args: &[Value]) -> Result<Value>
        requires { IsTrue (nat_eq (length args.now) 0) }
        ensures answer { Answers view result (of_none abs (view input.now) (map view args.now)) }
        ensures relation { Satisfies (AbsoluteOf (scalar (view input.now)) (whole (view input.now))
            (is_decimal_text (view input.now))) result }
        ensures no_memory { TakesNoMemory result
            (of_none abs (view input.now) (map view args.now)) }
    {
        abs_answer(alloc, input, args)
    }
}

fn abs_answer(alloc: Global, input: &Value, _args: &[Value]) -> Result<Value>
    requires { IsTrue (nat_eq (length _args.now) 0) }
    ensures answer { Answers view result (of_none abs (view input.now) (map view _args.now)) }
    ensures no_memory { TakesNoMemory result (of_none abs (view input.now) (map view _args.now)) }
{
    if !input.is_scalar() {
        return Err(invalid_input(alloc, "a number", input));
    }
    match input.to_integer() {
        Some(number) => within_range(alloc, number.checked_abs()),
        None => {
            if is_decimal_text(input) {
                return Err(decimal_refused(alloc, input));
            }
            Err(invalid_input(alloc, "a whole number", input))
        }
    }
}
