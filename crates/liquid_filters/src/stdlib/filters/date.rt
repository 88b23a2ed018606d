//! The filter that prints a date.
ghost use Rattle.std.specs.Prelude.{nat_eq};
ghost use Rattle.liquid_model.specs.Answer.{Answers};
ghost use Rattle.liquid_model.specs.View.{view};
ghost use Rattle.liquid_filters.specs.Dates.{date_answer, dated};

use crate::print::print_value;
use crate::read::date_of;
use liquid_model::{Filter, Result, Value, text_of};
use std::alloc::Global;

/// `date`: the input printed by a pattern of strftime, at the offset that the date is written with;
/// the input itself where it is no date, or where the pattern is empty.
#[derive(Clone, Copy, Drop)]
pub struct Date;

impl Filter for Date {
    ghost counts = { λ _ n. nat_eq n 1 };

    ghost answer = { λ _. date_answer };

    fn accepts(&self, count: usize) -> bool {
        count == 1
    }

    /// `DateFormat` where the input is a date and the pattern is refused.
    fn evaluate(&self, alloc: Global, input: &Value, args: &[Value]) -> Result<Value> {
        let pattern = text_of(alloc, &args[0])?;
        dated(alloc, input, pattern.as_str())
    }
}

fn dated(alloc: Global, input: &Value, pattern: &str) -> Result<Value>
    ensures { Answers view result (dated (view input.now) pattern.now) }
{
    if pattern.is_empty() {
        return input.copy(alloc);
    }
    match date_of(input) {
        Some(date) => print_value(alloc, &date, pattern),
        None => input.copy(alloc),
    }
}
