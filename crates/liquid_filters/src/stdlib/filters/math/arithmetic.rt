//! Sums, differences, products, quotients and remainders.
ghost use Rattle.std.specs.Prelude.{◌≡◌, ◌≢◌, IsTrue, false, length, map, nat_eq, pos, int_div};
ghost use Rattle.std.specs.Prelude.{true};
ghost use Rattle.liquid_model.specs.Answer.{Answers, TakesNoMemory};
ghost use Rattle.liquid_model.specs.View.{view};
ghost use Rattle.liquid_model.specs.Satisfies.{Satisfies};
ghost use Rattle.liquid_filters.specs.Decimals.{if_fits};
ghost use Rattle.liquid_filters.specs.NumberLaws.{IsDifference, IsProduct, IsQuotient};
ghost use Rattle.liquid_filters.specs.NumberLaws.{IsRemainder, IsSum, StepsWith};
ghost use Rattle.liquid_filters.specs.Numbers.{of_one, plus, minus, times, divided_by};
ghost use Rattle.liquid_filters.specs.Numbers.{modulo};

use super::operands::{operands, within_range};
use liquid_model::{Filter, Result, Value};
use std::alloc::Global;

/// `plus`: the sum of two whole numbers.
#[derive(Clone, Copy, Drop)]
pub struct Plus;

impl Filter for Plus {
    ghost counts = { λ _ n. nat_eq n 1 };

    ghost answer = { λ _. of_one plus };

    fn accepts(&self, count: usize) -> bool {
        count == 1
    }

    /// Faults: those of two operands, and `NumberRange` where the sum is beyond 64 bits.
    fn evaluate(&self, alloc: Global, input: &Value, args: &[Value]) -> Result<Value>
        requires { IsTrue (nat_eq (length args.now) 1) }
        ensures answer { Answers view result (of_one plus (view input.now) (map view args.now)) }
        ensures relation { Satisfies (StepsWith IsSum false (view input.now) (map view args.now))
            result }
        ensures no_memory { TakesNoMemory result
            (of_one plus (view input.now) (map view args.now)) }
    {
        plus_answer(alloc, input, args)
    }
}

fn plus_answer(alloc: Global, input: &Value, args: &[Value]) -> Result<Value>
    requires { IsTrue (nat_eq (length args.now) 1) }
    ensures answer { Answers view result (of_one plus (view input.now) (map view args.now)) }
    ensures no_memory { TakesNoMemory result (of_one plus (view input.now) (map view args.now)) }
{
    sum(alloc, input, &args[0])
}

fn sum(alloc: Global, input: &Value, operand: &Value) -> Result<Value>
    ensures answer { Answers view result (plus (view input.now) (view operand.now)) }
    ensures no_memory { TakesNoMemory result (plus (view input.now) (view operand.now)) }
{
    let (a, b) = operands(alloc, input, operand, false)?;
    within_range(alloc, a.checked_add(b))
}

/// `minus`: the whole number less the other.
#[derive(Clone, Copy, Drop)]
pub struct Minus;

impl Filter for Minus {
    ghost counts = { λ _ n. nat_eq n 1 };

    ghost answer = { λ _. of_one minus };

    fn accepts(&self, count: usize) -> bool {
        count == 1
    }

    /// Faults: those of two operands, and `NumberRange` where the difference is beyond 64 bits.
    fn evaluate(&self, alloc: Global, input: &Value, args: &[Value]) -> Result<Value>
        requires { IsTrue (nat_eq (length args.now) 1) }
        ensures answer { Answers view result (of_one minus (view input.now) (map view args.now)) }
        ensures relation { Satisfies (StepsWith IsDifference false (view input.now)
            (map view args.now)) result }
        ensures no_memory { TakesNoMemory result
            (of_one minus (view input.now) (map view args.now)) }
    {
        minus_answer(alloc, input, args)
    }
}

fn minus_answer(alloc: Global, input: &Value, args: &[Value]) -> Result<Value>
    requires { IsTrue (nat_eq (length args.now) 1) }
    ensures answer { Answers view result (of_one minus (view input.now) (map view args.now)) }
    ensures no_memory { TakesNoMemory result (of_one minus (view input.now) (map view args.now)) }
{
    difference(alloc, input, &args[0])
}

fn difference(alloc: Global, input: &Value, operand: &Value) -> Result<Value>
    ensures answer { Answers view result (minus (view input.now) (view operand.now)) }
    ensures no_memory { TakesNoMemory result (minus (view input.now) (view operand.now)) }
{
    let (a, b) = operands(alloc, input, operand, false)?;
    within_range(alloc, a.checked_sub(b))
}

/// `times`: the product of two whole numbers.
#[derive(Clone, Copy, Drop)]
pub struct Times;

impl Filter for Times {
    ghost counts = { λ _ n. nat_eq n 1 };

    ghost answer = { λ _. of_one times };

    fn accepts(&self, count: usize) -> bool {
        count == 1
    }

    /// Faults: those of two operands, and `NumberRange` where the product is beyond 64 bits.
    fn evaluate(&self, alloc: Global, input: &Value, args: &[Value]) -> Result<Value>
        requires { IsTrue (nat_eq (length args.now) 1) }
        ensures answer { Answers view result (of_one times (view input.now) (map view args.now)) }
        ensures relation { Satisfies (StepsWith IsProduct false (view input.now)
            (map view args.now)) result }
        ensures no_memory { TakesNoMemory result
            (of_one times (view input.now) (map view args.now)) }
    {
        times_answer(alloc, input, args)
    }
}

fn times_answer(alloc: Global, input: &Value, args: &[Value]) -> Result<Value>
    requires { IsTrue (nat_eq (length args.now) 1) }
    ensures answer { Answers view result (of_one times (view input.now) (map view args.now)) }
    ensures no_memory { TakesNoMemory result (of_one times (view input.now) (map view args.now)) }
{
    product(alloc, input, &args[0])
}

fn product(alloc: Global, input: &Value, operand: &Value) -> Result<Value>
    ensures answer { Answers view result (times (view input.now) (view operand.now)) }
    ensures no_memory { TakesNoMemory result (times (view input.now) (view operand.now)) }
{
    let (a, b) = operands(alloc, input, operand, false)?;
    within_range(alloc, a.checked_mul(b))
}

/// `divided_by`: the quotient of two whole numbers, cut off towards 0.
#[derive(Clone, Copy, Drop)]
pub struct DividedBy;

impl Filter for DividedBy {
    ghost counts = { λ _ n. nat_eq n 1 };

    ghost answer = { λ _. of_one divided_by };

    fn accepts(&self, count: usize) -> bool {
        count == 1
    }

    /// Faults: those of two operands, `DivideByZero` where the divisor is the whole number 0, and
    /// `NumberRange` where the least number is divided by -1.
    fn evaluate(&self, alloc: Global, input: &Value, args: &[Value]) -> Result<Value>
        requires { IsTrue (nat_eq (length args.now) 1) }
        ensures answer { Answers view result (of_one divided_by (view input.now)
            (map view args.now)) }
        ensures relation { Satisfies (StepsWith IsQuotient true (view input.now)
            (map view args.now)) result }
        ensures no_memory { TakesNoMemory result (of_one divided_by (view input.now)
            (map view args.now)) }
    {
        divided_by_answer(alloc, input, args)
    }
}

fn divided_by_answer(alloc: Global, input: &Value, args: &[Value]) -> Result<Value>
    requires { IsTrue (nat_eq (length args.now) 1) }
    ensures answer { Answers view result (of_one divided_by (view input.now) (map view args.now)) }
    ensures no_memory { TakesNoMemory result (of_one divided_by (view input.now)
        (map view args.now)) }
{
    division(alloc, input, &args[0])
}

fn division(alloc: Global, input: &Value, operand: &Value) -> Result<Value>
    ensures answer { Answers view result (divided_by (view input.now) (view operand.now)) }
    ensures no_memory { TakesNoMemory result (divided_by (view input.now) (view operand.now)) }
{
    let (a, b) = operands(alloc, input, operand, true)?;
    within_range(alloc, quotient(a, b))
}

/// `modulo`: the remainder of a quotient that is cut off towards 0; it has the input's sign.
#[derive(Clone, Copy, Drop)]
pub struct Modulo;

impl Filter for Modulo {
    ghost counts = { λ _ n. nat_eq n 1 };

    ghost answer = { λ _. of_one modulo };

    fn accepts(&self, count: usize) -> bool {
        count == 1
    }

    /// Faults: those of two operands, and `DivideByZero` where the divisor is the whole number 0.
    fn evaluate(&self, alloc: Global, input: &Value, args: &[Value]) -> Result<Value>
        requires { IsTrue (nat_eq (length args.now) 1) }
        ensures answer { Answers view result (of_one modulo (view input.now) (map view args.now)) }
        ensures relation { Satisfies (StepsWith IsRemainder true (view input.now)
            (map view args.now)) result }
        ensures no_memory { TakesNoMemory result
            (of_one modulo (view input.now) (map view args.now)) }
    {
        modulo_answer(alloc, input, args)
    }
}

fn modulo_answer(alloc: Global, input: &Value, args: &[Value]) -> Result<Value>
    requires { IsTrue (nat_eq (length args.now) 1) }
    ensures answer { Answers view result (of_one modulo (view input.now) (map view args.now)) }
    ensures no_memory { TakesNoMemory result (of_one modulo (view input.now) (map view args.now)) }
{
    remainder(alloc, input, &args[0])
}

fn remainder(alloc: Global, input: &Value, operand: &Value) -> Result<Value>
    ensures answer { Answers view result (modulo (view input.now) (view operand.now)) }
    ensures no_memory { TakesNoMemory result (modulo (view input.now) (view operand.now)) }
{
    let (a, b) = operands(alloc, input, operand, true)?;
    // The least number by -1 leaves 0, though their quotient is beyond 64 bits.
    Ok(Value::Integer(a.wrapping_rem(b)))
}

/// The quotient, cut off towards 0, or none where it is beyond 64 bits.
fn quotient(a: i64, b: i64) -> Option<i64>
    requires { b ≢ pos 0 }
    ensures { result ≡ if_fits (int_div a b) }
{
    match a.checked_div(b) {
        Some(quotient) => Some(quotient),
        None => None,
    }
}
