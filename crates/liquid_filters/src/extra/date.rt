//! The filter that prints a date at another offset.
ghost use Rattle.std.specs.Prelude.{◌≡◌, ◌*ℤ◌, pos, nat_eq, true, Some, [], ◌∷◌};
ghost use Rattle.liquid_model.specs.Answer.{Answers};
ghost use Rattle.liquid_model.specs.View.{view};
ghost use Rattle.liquid_filters.specs.Clock.{instant};
ghost use Rattle.liquid_filters.specs.Dates.{as_text, date_in_tz_answer, date_of, in_zone};
ghost use Rattle.liquid_filters.specs.Dates.{is_zone};
ghost use Rattle.liquid_filters.specs.Instant.{clock_at};
ghost use Rattle.liquid_filters.specs.Printed.{printed};
ghost use Rattle.liquid_filters.specs.DateSpelling.{zoned_clock};

use crate::print::print_value;
use crate::read::date_of;
use jiff::Zoned;
use jiff::tz::{Offset, TimeZone};
use liquid_model::{
    Error, ErrorKind, Filter, Result, Value, invalid_input, text_of, whole_argument,
};
use std::alloc::Global;

/// `date_in_tz`: the input printed by a pattern of strftime, at an offset that is given in hours.
#[derive(Clone, Copy, Drop)]
pub struct DateInTz;

impl Filter for DateInTz {
    ghost counts = { λ _ n. nat_eq n 2 };

    ghost answer = { λ _. date_in_tz_answer };

    fn accepts(&self, count: usize) -> bool {
        count == 2
    }

    /// `InvalidArgument` where the hours are no whole number, then `InvalidInput` where the input
    /// is no date, then `TimezoneRange` where the hours aren't from -23 to 23, then `DateFormat`
    /// where the pattern is refused.
    fn evaluate(&self, alloc: Global, input: &Value, args: &[Value]) -> Result<Value> {
        shifted(alloc, input, &args[0], &args[1])
    }
}

fn shifted(alloc: Global, input: &Value, pattern: &Value, hours: &Value) -> Result<Value>
    ensures { Answers view result
        (date_in_tz_answer (view input.now) (view pattern.now ∷ view hours.now ∷ [])) }
{
    let pattern = text_of(alloc, pattern)?;
    let hours = whole_argument(alloc, hours)?;
    in_zone(alloc, input, pattern.as_str(), hours)
}

fn in_zone(alloc: Global, input: &Value, pattern: &str, hours: i64) -> Result<Value>
    ensures { Answers view result (in_zone (date_of (view input.now)) pattern.now hours) }
{
    match date_of(input) {
        Some(date) => print_in_zone(alloc, &date, pattern, hours),
        None => Err(invalid_input(alloc, "a date as 2016-06-13 12:00:00 +0000", input)),
    }
}

fn print_in_zone(alloc: Global, date: &Zoned<'_>, pattern: &str, hours: i64) -> Result<Value>
    ensures { Answers view result (in_zone (Some (zoned_clock date.now)) pattern.now hours) }
{
    if is_zone(hours) {
        print_moved(alloc, date, pattern, hours)
    } else {
        Err(Error::new(
            alloc,
            ErrorKind::TimezoneRange,
            "the hours of a zone must be from -23 to 23",
        ))
    }
}

fn is_zone(hours: i64) -> bool
    ensures { result ≡ is_zone hours }
{
    -23 <= hours && hours <= 23
}

fn print_moved(alloc: Global, date: &Zoned<'_>, pattern: &str, hours: i64) -> Result<Value>
    requires { is_zone hours ≡ true }
    ensures { Answers view result
        (as_text (printed (clock_at (instant (zoned_clock date.now)) (hours *ℤ pos 3600))
        pattern.now)) }
{
    let there = moved(date, hours);
    print_value(alloc, &there, pattern)
}

/// The same instant at an offset of whole hours.
fn moved(date: &Zoned<'_>, hours: i64) -> Zoned<'static>
    requires { is_zone hours ≡ true }
    ensures { zoned_clock result ≡ clock_at (instant (zoned_clock date.now)) (hours *ℤ pos 3600) }
{
    let offset = Offset::from_hours(hours as i8).unwrap();
    date.timestamp().to_zoned(TimeZone::fixed(offset))
}
