//! The filters over decimals.
ghost use Rattle.std.specs.Prelude.{◌≡◌, map};
ghost use Rattle.liquid_model.specs.Answer.{Answers, IsValueOrMemory};
ghost use Rattle.liquid_model.specs.Data.{text};
ghost use Rattle.liquid_model.specs.View.{view};
ghost use Rattle.liquid_decimals.specs.Answers.{compare_answer, decimal_answer, divided_answer};
ghost use Rattle.liquid_decimals.specs.Answers.{format_answer, of_two, round_answer};
ghost use Rattle.liquid_decimals.specs.Decimals.{decimal_view};
ghost use Rattle.liquid_decimals.specs.Kinds.{decimal_filter_name, least_decimal_arguments};
ghost use Rattle.liquid_decimals.specs.Kinds.{most_decimal_arguments, takes_decimal_arguments};
ghost use Rattle.liquid_decimals.specs.Written.{decimal_text};

use crate::arithmetic::{Operation, compared, divided, operated, rounded_to};
use crate::decimal::Decimal;
use crate::reading::{argument_decimal, input_decimal, places_argument};
use crate::sums::sum_of;
use crate::writing::grouped_text;
use liquid_filters::text_or;
use liquid_model::{Filter, Result, Value};
use std::alloc::Global;

/// A filter over decimals.
///
/// A decimal is a whole number, or a text as `-19.99`, with at most 18 places and, without its
/// point, within 64 bits. The answer is the text of one, but for `decimal_compare`. What isn't a
/// decimal is `InvalidInput` or `InvalidArgument`, and `NumberRange` where one, or the answer, is
/// too long.
#[derive(Clone, Copy, Drop)]
pub enum DecimalFilter {
    /// `decimal_at_least`: the greater of two.
    AtLeast,
    /// `decimal_at_most`: the lesser of two.
    AtMost,
    /// `decimal_compare`: -1 where the input is less, 0 where both are the same, and else 1.
    Compare,
    /// `decimal_divided_by`: a quotient with a number of places. `DivideByZero` where the divisor
    /// is 0.
    DividedBy,
    /// `decimal_format`: with a number of places, a comma between the thousands and a point, or
    /// with other texts in place of these two.
    Format,
    /// `decimal_minus`: a difference.
    Minus,
    /// `decimal_plus`: a sum.
    Plus,
    /// `decimal_round`: with a number of places.
    Round,
    /// `decimal_sum`: the sum of a list, or of what its maps have under the argument.
    Sum,
    /// `decimal_times`: a product.
    Times,
}

/// All filters over decimals, in the order of their names.
pub const DECIMAL_FILTERS: [DecimalFilter; 10] = [
    DecimalFilter::AtLeast,
    DecimalFilter::AtMost,
    DecimalFilter::Compare,
    DecimalFilter::DividedBy,
    DecimalFilter::Format,
    DecimalFilter::Minus,
    DecimalFilter::Plus,
    DecimalFilter::Round,
    DecimalFilter::Sum,
    DecimalFilter::Times,
];

impl DecimalFilter {
    /// The name by which templates call the filter.
    pub fn name(self) -> &'static str
        ensures { result.now ≡ decimal_filter_name self }
    {
        match self {
            DecimalFilter::AtLeast => "decimal_at_least",
            DecimalFilter::AtMost => "decimal_at_most",
            DecimalFilter::Compare => "decimal_compare",
            DecimalFilter::DividedBy => "decimal_divided_by",
            DecimalFilter::Format => "decimal_format",
            DecimalFilter::Minus => "decimal_minus",
            DecimalFilter::Plus => "decimal_plus",
            DecimalFilter::Round => "decimal_round",
            DecimalFilter::Sum => "decimal_sum",
            DecimalFilter::Times => "decimal_times",
        }
    }

    /// How many arguments it takes at least.
    pub fn least(self) -> usize
        ensures { result ≡ least_decimal_arguments self }
    {
        match self {
            DecimalFilter::DividedBy => 2,
            DecimalFilter::Sum => 0,
            _ => 1,
        }
    }

    /// How many arguments it takes at most.
    pub fn most(self) -> usize
        ensures { result ≡ most_decimal_arguments self }
    {
        match self {
            DecimalFilter::DividedBy => 2,
            DecimalFilter::Format => 3,
            _ => 1,
        }
    }
}

impl Filter for DecimalFilter {
    ghost counts = { λ f n. takes_decimal_arguments f n };

    ghost answer = { λ f. decimal_answer f };

    fn accepts(&self, count: usize) -> bool {
        self.least() <= count && count <= self.most()
    }

    fn evaluate(&self, alloc: Global, input: &Value, args: &[Value]) -> Result<Value> {
        match *self {
            DecimalFilter::AtLeast => of_two(alloc, Operation::AtLeast, input, &args[0]),
            DecimalFilter::AtMost => of_two(alloc, Operation::AtMost, input, &args[0]),
            DecimalFilter::Compare => compare_answer(alloc, input, &args[0]),
            DecimalFilter::DividedBy => divided_answer(alloc, input, &args[0], &args[1]),
            DecimalFilter::Format => format_answer(alloc, input, &args[0], &args[1..]),
            DecimalFilter::Minus => of_two(alloc, Operation::Minus, input, &args[0]),
            DecimalFilter::Plus => of_two(alloc, Operation::Plus, input, &args[0]),
            DecimalFilter::Round => round_answer(alloc, input, &args[0]),
            DecimalFilter::Sum => written(alloc, sum_of(alloc, input, args)?),
            DecimalFilter::Times => of_two(alloc, Operation::Times, input, &args[0]),
        }
    }
}

/// A decimal as its text, without separators.
fn written(alloc: Global, decimal: Decimal) -> Result<Value>
    ensures { IsValueOrMemory view result (text (decimal_text (decimal_view decimal))) }
{
    Ok(Value::Text(grouped_text(alloc, decimal, "", ".")?))
}

fn of_two(alloc: Global, operation: Operation, input: &Value, other: &Value) -> Result<Value>
    ensures { Answers view result (of_two operation (view input.now) (view other.now)) }
{
    let a = input_decimal(alloc, input)?;
    let b = argument_decimal(alloc, other)?;
    written(alloc, operated(alloc, operation, a, b)?)
}

fn compare_answer(alloc: Global, input: &Value, other: &Value) -> Result<Value>
    ensures { Answers view result (compare_answer (view input.now) (view other.now)) }
{
    let a = input_decimal(alloc, input)?;
    let b = argument_decimal(alloc, other)?;
    Ok(Value::Integer(compared(a, b)))
}

fn divided_answer(alloc: Global, input: &Value, other: &Value, places: &Value) -> Result<Value>
    ensures { Answers view result
        (divided_answer (view input.now) (view other.now) (view places.now)) }
{
    let a = input_decimal(alloc, input)?;
    let b = argument_decimal(alloc, other)?;
    let places = places_argument(alloc, places)?;
    written(alloc, divided(alloc, places, a, b)?)
}

fn round_answer(alloc: Global, input: &Value, places: &Value) -> Result<Value>
    ensures { Answers view result (round_answer (view input.now) (view places.now)) }
{
    let a = input_decimal(alloc, input)?;
    let places = places_argument(alloc, places)?;
    written(alloc, rounded_to(alloc, places, a)?)
}

fn format_answer(
    alloc: Global,
    input: &Value,
    places: &Value,
    separators: &[Value],
) -> Result<Value>
    ensures { Answers view result
        (format_answer (view input.now) (view places.now) (map view separators.now)) }
{
    let a = input_decimal(alloc, input)?;
    let places = places_argument(alloc, places)?;
    let decimal = rounded_to(alloc, places, a)?;
    let thousands = text_or(alloc, separators, 0, ",")?;
    let point = text_or(alloc, separators, 1, ".")?;
    let text = grouped_text(alloc, decimal, thousands.as_str(), point.as_str())?;
    Ok(Value::Text(text))
}
