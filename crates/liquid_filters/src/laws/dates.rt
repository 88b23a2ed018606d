//! What is proved of dates beyond the filters' answers: each clause is a law, and the functions do
//! nothing.
ghost use Rattle.liquid_filters.specs.DateLaws.{ClockOfInstant, DateInTzIsOne, DateIsOne};
ghost use Rattle.liquid_filters.specs.DateLaws.{InstantOfClock, NamedIsRead, PlainIsRead};
ghost use Rattle.liquid_filters.specs.DateLaws.{ReadIsWritten, ShortIsRead};
ghost use Rattle.liquid_filters.specs.Own.{ShowsOwn};

use jiff_core::Offset;
use jiff_core::civil::DateTime;

/// Which texts write a date.
///
/// - A date that exists is read where it is written by numbers, as `2016-06-13 02:30:00 +0300`.
/// - A date that exists is read where its month is written by letters, as `13 Jun 2016 02:30:00
///   +0300`.
/// - The same where its day is written by one digit, as `1 Jun 2016 02:30:00 +0300`.
/// - A text that is read is a date that exists, written in one of these ways: no other text is a
///   date.
pub fn spelling_laws()
    ensures plain_is_read { PlainIsRead }
    ensures named_is_read { NamedIsRead }
    ensures short_is_read { ShortIsRead }
    ensures read_is_written { ReadIsWritten }
{}

/// What is printed is what strftime prints of the parts that jiff itself fills, for every pattern.
#[tactic(auto, using(crate::proofs::Own::own_is))]
pub fn shows_own(datetime: DateTime, offset: Offset, pattern: &str)
    ensures { ShowsOwn datetime offset.seconds pattern.now }
{}

/// Clocks and instants at an offset.
///
/// - At an offset no two clocks show the same instant: the clock of a clock's instant is that
///   clock.
/// - At each offset and each instant of the calendar's years there is a clock that shows the
///   instant.
pub fn calendar_laws()
    ensures clock_of_instant { ClockOfInstant }
    ensures instant_of_clock { InstantOfClock }
{}

/// What each filter answers, and that nothing else is its answer.
///
/// - `date`: the clock of the date that the input writes, printed by the pattern.
/// - `date_in_tz`: the clock that shows the date's instant at the offset that the hours give,
///   printed by the pattern.
pub fn date_laws()
    ensures date_is_one { DateIsOne }
    ensures date_in_tz_is_one { DateInTzIsOne }
{}
