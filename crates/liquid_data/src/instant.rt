//! Texts of ISO 8601, in the spelling that the filter `date` reads.
ghost use Rattle.std.specs.Prelude.{◌≡◌, ◌<◌, ◌++◌, ◌∷◌, string_bytes, option_map};
ghost use Rattle.std.specs.Char.{is_ascii_digit};
ghost use Rattle.std.specs.List.{list_all};
ghost use Rattle.liquid_model.specs.Answer.{IsValueOrMemory};
ghost use Rattle.liquid_data.specs.Instants as spec;
ghost use Rattle.liquid_data.specs.Instants.{cut_view};

use liquid_filters::read_date;
use liquid_model::Result;
use std::alloc::Global;

/// The spelling that the filter `date` reads, of a text that is a day or an instant of ISO 8601,
/// also with a space in place of the `T`, one before the offset, or `UTC` in place of one: the
/// same day, clock and offset. A fraction of a second is cut off; without seconds it is the
/// beginning of the minute, without a time the beginning of the day, and without an offset UTC.
/// None where the text is no such day or instant. The answer is `Memory` where a growth was
/// refused, and no other kind.
pub fn date_spelling(alloc: Global, text: &str) -> Result<Option<String>>
    ensures { IsValueOrMemory (λ o. option_map string_bytes o) result
        (spec.date_spelling text.now) }
{
    let Some(spelling) = spelled(alloc, text)? else {
        return Ok(None);
    };
    match read_date(spelling.as_str())? {
        Some(_) => Ok(Some(spelling)),
        None => Ok(None),
    }
}

/// The spelling of a text whose day has the form of one, whatever the calendar and the clock say.
fn spelled(alloc: Global, text: &str) -> Result<Option<String>>
    ensures { IsValueOrMemory (λ o. option_map string_bytes o) result
        (spec.respelled_instant text.now) }
{
    let (day, clock) = day_and_clock(text);
    if !is_day(day) {
        return Ok(None);
    }
    let mut spelling = String::from_str(alloc, day)?;
    spelling.push_str(" ")?;
    push_clock(&mut spelling, clock)?;
    Ok(Some(spelling))
}

/// A day and the time after it, which a `T` or a space parts, or the beginning of the day.
fn day_and_clock(text: &str) -> (&str, &str)
    ensures { (result.0.now, result.1.now) ≡ spec.day_and_clock text.now }
{
    match cut(text, 'T') {
        Some((day, clock)) if is_day(day) => (day, clock),
        _ => match cut(text, ' ') {
            Some(parts) => parts,
            None => (text, "00:00:00"),
        },
    }
}

/// Appends a time and an offset.
fn push_clock(out: &mut String, clock: &str) -> Result<()>
    ensures { IsValueOrMemory (λ _. string_bytes out.new) result
        (string_bytes out.old ++ spec.zoned_clock_text clock.now) }
{
    if let Some((time, rest)) = cut(clock, 'Z') {
        push_zoned(out, without_space(time), " +0000", rest)
    } else if let Some((time, offset)) = cut(clock, '+') {
        push_zoned(out, without_space(time), " +", offset)
    } else if let Some((time, offset)) = cut(clock, '-') {
        push_zoned(out, without_space(time), " -", offset)
    } else {
        push_universal(out, clock)
    }
}

/// Appends a time with `UTC` or without a zone, and the offset of both.
fn push_universal(out: &mut String, clock: &str) -> Result<()>
    ensures { IsValueOrMemory (λ _. string_bytes out.new) result
        (string_bytes out.old ++ spec.clock_universal clock.now
        (spec.split_at_byte 85 clock.now)) }
{
    match cut(clock, 'U') {
        Some((time, rest)) if rest == "TC" => push_zoned(out, without_space(time), " +0000", ""),
        _ => push_zoned(out, clock, " +0000", ""),
    }
}

/// Appends a time, a sign, and an offset without its colon.
fn push_zoned(out: &mut String, time: &str, sign: &str, offset: &str) -> Result<()>
    ensures { IsValueOrMemory (λ _. string_bytes out.new) result
        (string_bytes out.old ++ spec.zoned time.now sign.now offset.now) }
{
    let (front, back) = whole_seconds(time);
    out.push_str(front)?;
    out.push_str(back)?;
    out.push_str(sign)?;
    let (hours, minutes) = without_colon(offset);
    out.push_str(hours)?;
    out.push_str(minutes)?;
    Ok(())
}

/// A time without its fraction of a second, and the seconds that it lacks.
fn whole_seconds(time: &str) -> (&str, &'static str)
    ensures { (result.0.now, result.1.now) ≡ spec.whole_seconds time.now }
{
    if time.len() == 5 {
        return (time, ":00");
    }
    match cut(time, '.') {
        Some((whole, fraction)) if whole.len() == 8 && is_digits(fraction) => (whole, ""),
        _ => (time, ""),
    }
}

/// A time without the one space before its zone.
fn without_space(time: &str) -> &str
    ensures { result.now ≡ spec.without_space time.now }
{
    match cut(time, ' ') {
        Some((front, rest)) if rest.is_empty() => front,
        _ => time,
    }
}

/// An offset before its colon, after two digits, and after it.
fn without_colon(offset: &str) -> (&str, &str)
    ensures { (result.0.now, result.1.now) ≡ spec.without_colon offset.now }
{
    match cut(offset, ':') {
        Some((hours, minutes)) if hours.len() == 2 => (hours, minutes),
        _ => (offset, ""),
    }
}

/// Whether a text has the length of a day by numbers, and a `-` after its year.
fn is_day(text: &str) -> bool
    ensures { result ≡ spec.is_day text.now }
{
    text.len() == 10 && text.as_bytes()[4] == b'-'
}

/// Whether there is a digit, and nothing but digits.
fn is_digits(text: &str) -> bool
    ensures { result ≡ spec.is_digits text.now }
{
    !text.is_empty() && all_digits(text)
}

fn all_digits(text: &str) -> bool
    ensures { result ≡ list_all is_ascii_digit text.now }
{
    text.bytes().all(|byte| byte.is_ascii_digit())
}

/// The text before the first of these signs, and the text after it.
fn cut(text: &str, sign: char) -> Option<(&str, &str)>
    requires { sign < 128 }
    ensures { cut_view result ≡ spec.split_at_byte sign text.now }
{
    text.split_once(sign)
}
