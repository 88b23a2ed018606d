//! How a date is spelled, read byte by byte.
ghost use Rattle.std.specs.Prelude.{◌≡◌, ◌<◌, ◌≤◌, option_map, IfSome};
ghost use Rattle.liquid_filters.specs.DateSpelling as spec;
ghost use Rattle.liquid_filters.specs.DateSpelling.{date_part_view};

/// The text after this byte, where it stands at the front.
fn past(byte: u8, text: &[u8]) -> Option<&[u8]>
    ensures { option_map (λ r. r.now) result ≡ spec.past_date_byte byte text.now }
{
    match text {
        [first, rest @ ..] if *first == byte => Some(rest),
        _ => None,
    }
}

/// A digit, and the text after it.
fn digit(text: &[u8]) -> Option<(u8, &[u8])>
    ensures value { date_part_view result ≡ spec.digit text.now }
    ensures bound { IfSome result (λ p. p.0 < 10) }
{
    match text {
        [first, rest @ ..] if first.is_ascii_digit() => Some((*first - b'0', rest)),
        _ => None,
    }
}

/// Two digits.
#[tactic(auto, unfolding(crate::specs::DateSpelling::two))]
fn two(text: &[u8]) -> Option<(u8, &[u8])>
    ensures value { date_part_view result ≡ spec.two text.now }
    ensures bound { IfSome result (λ p. p.0 < 100) }
{
    let (a, text) = digit(text)?;
    let (b, text) = digit(text)?;
    Some((a * 10 + b, text))
}

/// Four digits.
#[tactic(auto, unfolding(crate::specs::DateSpelling::four))]
fn four(text: &[u8]) -> Option<(u16, &[u8])>
    ensures value { date_part_view result ≡ spec.four text.now }
    ensures bound { IfSome result (λ p. p.0 < 10000) }
{
    let (a, text) = two(text)?;
    let (b, text) = two(text)?;
    Some((a as u16 * 100 + b as u16, text))
}

/// One digit or two, as many as there are.
#[tactic(auto, unfolding(crate::specs::DateSpelling::one_or_two))]
fn one_or_two(text: &[u8]) -> Option<(u8, &[u8])>
    ensures value { date_part_view result ≡ spec.one_or_two text.now }
    ensures bound { IfSome result (λ p. p.0 < 100) }
{
    let (a, text) = digit(text)?;
    match digit(text) {
        Some((b, text)) => Some((a * 10 + b, text)),
        None => Some((a, text)),
    }
}

/// The number of a month by its three letters, or 0.
fn month_number(a: u8, b: u8, c: u8) -> u8
    ensures value { result ≡ spec.month_number a b c }
    ensures bound { result ≤ 12 }
{
    match (a, b, c) {
        (b'J', b'a', b'n') => 1,
        (b'F', b'e', b'b') => 2,
        (b'M', b'a', b'r') => 3,
        (b'A', b'p', b'r') => 4,
        (b'M', b'a', b'y') => 5,
        (b'J', b'u', b'n') => 6,
        (b'J', b'u', b'l') => 7,
        (b'A', b'u', b'g') => 8,
        (b'S', b'e', b'p') => 9,
        (b'O', b'c', b't') => 10,
        (b'N', b'o', b'v') => 11,
        (b'D', b'e', b'c') => 12,
        _ => 0,
    }
}

/// A number that is the number of a month, with the text after it.
fn known_month(number: u8, text: &[u8]) -> Option<(u8, &[u8])>
    requires { number ≤ 12 }
    ensures value { date_part_view result ≡ spec.known_month number text.now }
    ensures bound { IfSome result (λ p. p.0 ≤ 12) }
{
    if number == 0 {
        None
    } else {
        Some((number, text))
    }
}

/// A byte, and the text after it.
fn byte(text: &[u8]) -> Option<(u8, &[u8])>
    ensures { date_part_view result ≡ spec.byte text.now }
{
    match text {
        [first, rest @ ..] => Some((*first, rest)),
        _ => None,
    }
}

/// A month by its three letters.
#[tactic(auto, unfolding(crate::specs::DateSpelling::month))]
fn month(text: &[u8]) -> Option<(u8, &[u8])>
    ensures value { date_part_view result ≡ spec.month text.now }
    ensures bound { IfSome result (λ p. p.0 ≤ 12) }
{
    let (a, text) = byte(text)?;
    let (b, text) = byte(text)?;
    let (c, text) = byte(text)?;
    known_month(month_number(a, b, c), text)
}

/// A day as it is written.
#[derive(Clone, Copy)]
pub(crate) struct Day {
    pub year: u16,
    pub month: u8,
    pub day: u8,
}

/// A time as it is written.
#[derive(Clone, Copy)]
pub(crate) struct Time {
    pub hour: u8,
    pub minute: u8,
    pub second: u8,
}

/// An offset as it is written.
#[derive(Clone, Copy)]
pub(crate) struct Offset {
    pub is_west: bool,
    pub hours: u8,
    pub minutes: u8,
}

/// The numbers of a date, a time and an offset as they are written.
#[derive(Clone, Copy)]
pub(crate) struct Spelled {
    pub date: Day,
    pub time: Time,
    pub offset: Offset,
}

/// A day, a month by its letters and a year, with a space between each and the next.
#[tactic(auto, unfolding(crate::specs::DateSpelling::named_day))]
fn named_day(text: &[u8]) -> Option<(Day, &[u8])>
    ensures value { spec.day_view result ≡ spec.named_day text.now }
    ensures bound { IfSome result (λ p. spec.IsDay p.0) }
{
    let (day, text) = one_or_two(text)?;
    let text = past(b' ', text)?;
    let (month, text) = month(text)?;
    let text = past(b' ', text)?;
    let (year, text) = four(text)?;
    Some((Day { year, month, day }, text))
}

/// A year, a month and a day by numbers, with a `-` between each and the next.
#[tactic(auto, unfolding(crate::specs::DateSpelling::plain_day))]
fn plain_day(text: &[u8]) -> Option<(Day, &[u8])>
    ensures value { spec.day_view result ≡ spec.plain_day text.now }
    ensures bound { IfSome result (λ p. spec.IsDay p.0) }
{
    let (year, text) = four(text)?;
    let text = past(b'-', text)?;
    let (month, text) = two(text)?;
    let text = past(b'-', text)?;
    let (day, text) = two(text)?;
    Some((Day { year, month, day }, text))
}

/// A time.
#[tactic(auto, unfolding(crate::specs::DateSpelling::time))]
fn read_time(text: &[u8]) -> Option<(Time, &[u8])>
    ensures value { spec.time_view result ≡ spec.time text.now }
    ensures bound { IfSome result (λ p. spec.IsTimed p.0) }
{
    let (hour, text) = two(text)?;
    let text = past(b':', text)?;
    let (minute, text) = two(text)?;
    let text = past(b':', text)?;
    let (second, text) = two(text)?;
    Some((
        Time {
            hour,
            minute,
            second,
        },
        text,
    ))
}

/// Whether the sign is a minus.
fn sign(text: &[u8]) -> Option<(bool, &[u8])>
    ensures { date_part_view result ≡ spec.sign text.now }
{
    match text {
        [b'+', rest @ ..] => Some((false, rest)),
        [b'-', rest @ ..] => Some((true, rest)),
        _ => None,
    }
}

/// A sign, hours and minutes.
#[tactic(auto, unfolding(crate::specs::DateSpelling::offset))]
fn read_offset(text: &[u8]) -> Option<(Offset, &[u8])>
    ensures value { spec.offset_view result ≡ spec.offset text.now }
    ensures bound { IfSome result (λ p. spec.IsOffset p.0) }
{
    let (is_west, text) = sign(text)?;
    let (hours, text) = two(text)?;
    let (minutes, text) = two(text)?;
    Some((
        Offset {
            is_west,
            hours,
            minutes,
        },
        text,
    ))
}

/// A day in one of the two spellings.
fn read_day(text: &[u8]) -> Option<(Day, &[u8])>
    ensures value { spec.day_view result ≡ spec.or_else (spec.named_day text.now)
        (spec.plain_day text.now) }
    ensures bound { IfSome result (λ p. spec.IsDay p.0) }
{
    match named_day(text) {
        Some(found) => Some(found),
        None => plain_day(text),
    }
}

/// What was found, where nothing follows it.
fn only(found: Spelled, text: &[u8]) -> Option<Spelled>
    ensures { option_map spec.whole_view result ≡ spec.end text.now (spec.whole_view found) }
{
    match text {
        [] => Some(found),
        _ => None,
    }
}

/// The numbers of the whole text, where it spells a date, a time and an offset.
#[tactic(auto, unfolding(crate::specs::DateSpelling::read_spelled_date))]
pub(crate) fn read_spelled(text: &[u8]) -> Option<Spelled>
    ensures { option_map spec.whole_view result ≡ spec.read_spelled_date text.now }
{
    let (date, text) = read_day(text)?;
    let text = past(b' ', text)?;
    let (time, text) = read_time(text)?;
    let text = past(b' ', text)?;
    let (offset, text) = read_offset(text)?;
    only(Spelled { date, time, offset }, text)
}
