//! The reader of dates.
ghost use Rattle.std.specs.Prelude.{◌≡◌, ◌≤◌, ◌≤ℤ◌, true, pos, option_map, IsOk, IfOk, IfSome};
ghost use Rattle.jiff_core.specs.Calendar.{days_in_month};
ghost use Rattle.liquid_model.specs.View.{view};
ghost use Rattle.liquid_filters.specs.Clock.{clock_of};
ghost use Rattle.liquid_filters.specs.Dates as dates;
ghost use Rattle.liquid_filters.specs.DateSpelling as spec;

use crate::spelling::{Day, Offset, Spelled, Time, read_spelled};
use jiff::tz::{Offset as FixedOffset, TimeZone};
use jiff::{Timestamp, Zoned};
use jiff_core::civil;
use liquid_model::{Result, Value};

/// The date that a text is, or none where it is no date: the whole text in one of the two
/// spellings, as `13 Jun 2016 02:30:00 +0300` or `2016-06-13 02:30:00 +0300`, in the years 0001 to
/// 9998, at offsets up to 23 hours and 59 minutes, and a day that the calendar has. It is in the
/// zone that has this offset at every instant, which for an offset of 0 is UTC. It takes no memory
/// and is never refused.
pub fn read_date(text: &str) -> Result<Option<Zoned<'static>>>
    ensures value { IfOk result (λ o. option_map spec.zoned_clock o ≡ spec.read text.now) }
    ensures zone { IfOk result (λ o. IfSome o spec.IsAtFixedOffset) }
    ensures no_memory { IsOk result }
{
    Ok(zoned_date(text.as_bytes()))
}

/// The date that a value is: texts alone are dates.
pub(crate) fn date_of(value: &Value) -> Option<Zoned<'static>>
    ensures { option_map spec.zoned_clock result ≡ dates.date_of (view value.now) }
{
    match value {
        Value::Text(text) => zoned_date(text.as_str().as_bytes()),
        _ => None,
    }
}

#[tactic(auto, unfolding(crate::specs::DateSpelling::read))]
fn zoned_date(text: &[u8]) -> Option<Zoned<'static>>
    ensures value { option_map spec.zoned_clock result ≡ spec.read text.now }
    ensures zone { IfSome result spec.IsAtFixedOffset }
{
    let spelled = read_spelled(text)?;
    if exists(spelled) {
        Some(zoned_of(spelled))
    } else {
        None
    }
}

/// Whether the calendar has the day, in the years that are dates, and a clock shows the time.
fn exists(x: Spelled) -> bool
    ensures { result ≡ spec.exists (spec.whole_view x) }
{
    1 <= x.date.year
        && x.date.year <= 9998
        && 1 <= x.date.month
        && x.date.month <= 12
        && 1 <= x.date.day
        && x.date.day <= civil::days_in_month(x.date.year as i16, x.date.month)
        && x.time.hour <= 23
        && x.time.minute <= 59
        && x.time.second <= 59
        && x.offset.hours <= 23
        && x.offset.minutes <= 59
}

/// The instant that a clock at the offset shows so.
fn zoned_of(x: Spelled) -> Zoned<'static>
    requires { spec.exists (spec.whole_view x) ≡ true }
    ensures value { spec.zoned_clock result ≡ spec.clock (spec.whole_view x) }
    ensures zone { spec.IsAtFixedOffset result }
{
    let datetime = civil::DateTime {
        date: civil_date(x.date),
        time: civil_time(x.time),
    };
    instant_at(datetime, civil_offset(x.offset))
}

fn civil_date(x: Day) -> civil::Date
    requires year { (1 ≤ x.year) × (x.year ≤ 9998) }
    requires month { (1 ≤ x.month) × (x.month ≤ 12) }
    requires day { (1 ≤ x.day) × (x.day ≤ days_in_month (pos x.year) x.month) }
    ensures { (result.year ≡ pos x.year) × (result.month ≡ x.month) × (result.day ≡ x.day) }
{
    civil::Date {
        year: x.year as i16,
        month: x.month,
        day: x.day,
    }
}

fn civil_time(x: Time) -> civil::Time
    requires { (x.hour ≤ 23) × (x.minute ≤ 59) × (x.second ≤ 59) }
    ensures { (result.hour ≡ x.hour) × (result.minute ≡ x.minute) × (result.second ≡ x.second) ×
        (result.subsec_nanosecond ≡ 0) }
{
    civil::Time {
        hour: x.hour,
        minute: x.minute,
        second: x.second,
        subsec_nanosecond: 0,
    }
}

fn civil_offset(x: Offset) -> jiff_core::Offset
    requires { (x.hours ≤ 23) × (x.minutes ≤ 59) }
    ensures { result.seconds ≡ spec.offset_seconds (spec.offset_of x) }
{
    let ahead = x.hours as i32 * 3600 + x.minutes as i32 * 60;
    if x.is_west {
        return jiff_core::Offset { seconds: -ahead };
    }
    jiff_core::Offset { seconds: ahead }
}

/// The instant at which a clock with this offset shows the datetime.
fn instant_at(datetime: civil::DateTime, offset: jiff_core::Offset) -> Zoned<'static>
    requires { (pos 1 ≤ℤ datetime.date.year) × (datetime.date.year ≤ℤ pos 9998) }
    ensures value { spec.zoned_clock result ≡ clock_of datetime offset.seconds }
    ensures zone { spec.IsAtFixedOffset result }
{
    let timestamp = offset.to_timestamp(datetime).unwrap();
    Timestamp::from_plain(timestamp).to_zoned(TimeZone::fixed(FixedOffset::from_plain(offset)))
}
