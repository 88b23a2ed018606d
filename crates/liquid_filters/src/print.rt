//! Printing a date by a pattern of strftime.
ghost use Rattle.std.specs.Prelude.{◌≡◌, ◌+ℤ◌, pos, option_map, string_bytes};
ghost use Rattle.jiff_core.specs.DateTime.{civil_nanos};
ghost use Rattle.jiff_core.specs.Timestamp.{nanos_of_seconds};
ghost use Rattle.jiff_strtime.specs.Text.{parts_of};
ghost use Rattle.liquid_model.specs.Answer.{Answers};
ghost use Rattle.liquid_model.specs.ErrorKinds.{IsKindOrMemory};
ghost use Rattle.liquid_model.specs.View.{view};
ghost use Rattle.liquid_model.specs.declared.error.ErrorKind.TheVariants.{DateFormat};
ghost use Rattle.liquid_filters.specs.Clock.{clock_of, parts, week, week_year, zone_name};
ghost use Rattle.liquid_filters.specs.Clock.{zone_text};
ghost use Rattle.liquid_filters.specs.Dates.{as_text};
ghost use Rattle.liquid_filters.specs.Printed.{is_short, printed};
ghost use Rattle.liquid_filters.specs.DateSpelling.{zoned_clock};

use jiff::Zoned;
use jiff_core::civil::{DateTime, ISOWeekDate};
use jiff_core::error::Part;
use jiff_core::{Offset, Timestamp};
use jiff_strtime::{BrokenDownTime, Config, Meridiem};
use jiff_tz::TimeZone;
use liquid_model::{Error, ErrorKind, Quoted, Result, Value};
use std::alloc::Global;

/// The text of a date, at its offset, by a pattern: `DateFormat` where the pattern is refused.
pub(crate) fn print_value(alloc: Global, date: &Zoned<'_>, pattern: &str) -> Result<Value>
    ensures { Answers view result (as_text (printed (zoned_clock date.now) pattern.now)) }
{
    Ok(Value::Text(print(alloc, date, pattern)?))
}

fn print(alloc: Global, date: &Zoned<'_>, pattern: &str) -> Result<String>
    ensures { Answers (λ s. string_bytes s) result (printed (zoned_clock date.now) pattern.now) }
{
    let plain = date.to_plain();
    let info = TimeZone::Fixed(plain.offset).to_offset_info(plain.timestamp);
    let (abbreviation, name) = if plain.offset.seconds == 0 {
        ("UTC", Some("UTC"))
    } else {
        (info.abbreviation.as_str(), None)
    };
    let parts = filled(
        plain.datetime,
        plain.offset,
        plain.timestamp,
        abbreviation,
        name,
    );
    print_parts(alloc, plain.datetime, plain.offset, &parts, pattern)
}

/// Every part that a pattern can ask for, so that jiff looks up none.
fn filled<'t>(
    datetime: DateTime,
    offset: Offset,
    timestamp: Timestamp,
    abbreviation: &'t str,
    name: Option<&'t str>,
) -> BrokenDownTime<'t>
    requires instant { civil_nanos datetime ≡
        timestamp.nanosecond +ℤ nanos_of_seconds offset.seconds }
    requires abbreviation { abbreviation.now ≡ zone_text offset.seconds }
    requires name { option_map (λ s. s.now) name ≡ zone_name offset.seconds }
    ensures { parts_of result ≡ parts (clock_of datetime offset.seconds) }
{
    let weekday = datetime.date.weekday();
    let place = datetime.date.day_of_year();
    let iso = week_date(datetime);
    BrokenDownTime {
        year: Some(datetime.date.year),
        month: Some(datetime.date.month),
        day: Some(datetime.date.day),
        day_of_year: Some(place),
        iso_week_year: Some(iso.year),
        iso_week: Some(iso.week),
        week_sun: Some(((place + 6 - (weekday.index() as u16 + 1) % 7) / 7) as u8),
        week_mon: Some(((place + 6 - weekday.index() as u16) / 7) as u8),
        hour: Some(datetime.time.hour),
        minute: Some(datetime.time.minute),
        second: Some(datetime.time.second),
        subsec: Some(datetime.time.subsec_nanosecond),
        offset: Some(offset),
        weekday: Some(weekday),
        meridiem: Some(Meridiem::from_hour(datetime.time.hour)),
        timestamp: Some(timestamp),
        tz_abbreviation: Some(abbreviation),
        iana: name,
    }
}

/// The year and the week of a date by ISO 8601.
fn week_date(datetime: DateTime) -> ISOWeekDate
    ensures year { result.year ≡ week_year (clock_of datetime (pos 0)) }
    ensures week { result.week ≡ week (clock_of datetime (pos 0)) }
{
    ISOWeekDate::from_date(datetime.date)
}

/// The text of a pattern over parts that hold all that it can ask for.
fn print_parts(
    alloc: Global,
    datetime: DateTime,
    offset: Offset,
    filled: &BrokenDownTime<'_>,
    pattern: &str,
) -> Result<String>
    requires { parts_of filled.now ≡ parts (clock_of datetime offset.seconds) }
    ensures { Answers (λ s. string_bytes s) result
        (printed (clock_of datetime offset.seconds) pattern.now) }
{
    match jiff_strtime::to_string(alloc, Config::new(), pattern.as_bytes(), filled) {
        Ok(text) => Ok(text),
        Err(error) => {
            if is_short(&error) {
                Err(memory_error())
            } else {
                Err(refused(alloc, pattern))
            }
        }
    }
}

/// Whether memory ran out. The parts hold the instant, so that jiff never lacks it, though its
/// contract leaves that open.
fn is_short(error: &jiff_core::Error) -> bool
    ensures { result ≡ is_short error.now }
{
    matches!(
        *error,
        jiff_core::Error::OutOfMemory | jiff_core::Error::Missing(Part::Instant)
    )
}

fn memory_error() -> Error
    ensures { result.kind ≡ ErrorKind.Memory }
{
    Error {
        kind: ErrorKind::Memory,
        message: None,
        location: None,
    }
}

fn refused(alloc: Global, pattern: &str) -> Error
    ensures { IsKindOrMemory DateFormat result.kind }
{
    let quoted = Quoted { text: pattern };
    Error::formatted(
        alloc,
        ErrorKind::DateFormat,
        format_args!(
            "the pattern `{quoted}` has a directive that isn't known; a percent sign is written `%%`"
        ),
    )
}
