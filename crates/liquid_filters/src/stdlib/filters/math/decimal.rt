//! Decimal texts: an optional sign, digits, and optionally a point and more digits.
ghost use Rattle.std.specs.Prelude.{◌≡◌, ◌<◌, ◌≤◌, ◌^◌, ◌==◌, IsTrue, MatchOption, Some, None};
ghost use Rattle.std.specs.Prelude.{false, not};
ghost use Rattle.std.specs.Char.{is_ascii_digit};
ghost use Rattle.std.specs.List.{list_all, list_any};
ghost use Rattle.std.specs.Str.{all_ascii_digits};
ghost use Rattle.std.specs.Str.Parse.{without_leading_sign, digits_value};
ghost use Rattle.liquid_filters.specs.Decimals.{is_decimal, is_numeral, if_fits, IsReadFrom};
ghost use Rattle.liquid_filters.specs.Rounding.{goes_away, signed, size};

/// How a decimal text is brought to a whole number.
#[derive(Clone, Copy)]
pub enum Rounding {
    /// To the nearest one, and from a half on away from 0.
    Nearest,
    /// To the least one that isn't below.
    Up,
    /// To the greatest one that isn't above.
    Down,
}

/// A decimal text that was read: whether it is signed by a minus, and its digits before and after
/// the point.
#[derive(Clone, Copy)]
pub struct Decimal<'a> {
    /// Whether a minus stands in front.
    pub negative: bool,
    /// The digits before the point.
    pub whole: &'a str,
    /// The digits after the point, or none.
    pub fraction: &'a str,
    ghost whole_numeral: { IsTrue (is_numeral whole.now) },
    ghost fraction_digits: { IsTrue (all_ascii_digits fraction.now) },
}

impl<'a> Decimal<'a> {
    /// The parts of a decimal text, or none where the text is no such.
    pub fn read(text: &'a str) -> Option<Decimal<'a>>
        ensures { MatchOption result (is_decimal text.now ≡ false)
            (λ d. IsReadFrom text.now d.negative d.whole.now d.fraction.now) }
    {
        let negative = text.starts_with('-');
        let digits = unsigned(text);
        match digits.split_once('.') {
            Some((whole, fraction)) => {
                if is_numeral(whole) && is_numeral(fraction) {
                    return Some(Decimal {
                        negative,
                        whole,
                        fraction,
                    });
                }
                None
            }
            None => {
                if is_numeral(digits) {
                    return Some(Decimal {
                        negative,
                        whole: digits,
                        fraction: "",
                    });
                }
                None
            }
        }
    }

    /// The number that the digits before the point write, or none beyond 2 to the power of 63.
    pub fn whole_size(self) -> Option<u64>
        ensures { MatchOption result (2 ^ 63 < digits_value 10 self.entry.whole.now)
            (λ n. (n ≡ digits_value 10 self.entry.whole.now) × (n ≤ 2 ^ 63)) }
    {
        size_of(self.whole)
    }

    /// The number that the digits after the point write, 0 where there are none, or none beyond 2
    /// to the power of 63.
    pub fn fraction_size(self) -> Option<u64>
        ensures { MatchOption result (2 ^ 63 < digits_value 10 self.entry.fraction.now)
            (λ n. (n ≡ digits_value 10 self.entry.fraction.now) × (n ≤ 2 ^ 63)) }
    {
        if self.fraction.is_empty() {
            return Some(0);
        }
        size_of(self.fraction)
    }

    /// The whole number to which the decimal is brought, or none beyond 64 bits. The digits are
    /// looked at once.
    pub fn rounded(self, how: Rounding) -> Option<i64>
        ensures { result ≡ if_fits
            (signed self.entry.negative
            (size how self.entry.negative self.entry.whole.now self.entry.fraction.now)) }
    {
        match size_of(self.whole) {
            Some(size) => {
                let more = u64::from(goes_away(how, self.negative, self.fraction));
                signed(self.negative, size + more)
            }
            None => None,
        }
    }
}

fn is_numeral(text: &str) -> bool
    ensures { result ≡ is_numeral text.now }
{
    !text.is_empty() && all_digits(text)
}

fn all_digits(text: &str) -> bool
    ensures { result ≡ list_all is_ascii_digit text.now }
{
    text.bytes().all(|byte| byte.is_ascii_digit())
}

/// The text without a sign at its start.
fn unsigned(text: &str) -> &str
    ensures { result.now ≡ without_leading_sign text.now }
{
    if let Some(rest) = text.strip_prefix('-') {
        return rest;
    }
    if let Some(rest) = text.strip_prefix('+') {
        return rest;
    }
    text
}

/// Whether the size of the answer is one more than the digits before the point say.
fn goes_away(how: Rounding, negative: bool, fraction: &str) -> bool
    ensures { result ≡ goes_away how negative fraction.now }
{
    match how {
        Rounding::Nearest => match fraction.as_bytes().first() {
            Some(first) => *first >= b'5',
            None => false,
        },
        Rounding::Up => !negative && has_nonzero(fraction),
        Rounding::Down => negative && has_nonzero(fraction),
    }
}

fn has_nonzero(digits: &str) -> bool
    ensures { result ≡ list_any (λ b. not (b == 48)) digits.now }
{
    digits.bytes().any(|byte| byte != b'0')
}

/// The number of this size and sign, or none beyond 64 bits.
fn signed(negative: bool, size: u64) -> Option<i64>
    ensures { result ≡ if_fits (signed negative size) }
{
    if size < 0x8000_0000_0000_0000 {
        let number = size as i64;
        Some(if negative { -number } else { number })
    } else if negative && size == 0x8000_0000_0000_0000 {
        Some(i64::MIN)
    } else {
        None
    }
}

/// The number that the digits write, or none beyond 2 to the power of 63.
fn size_of(digits: &str) -> Option<u64>
    requires { IsTrue (is_numeral digits.now) }
    ensures { MatchOption result (2 ^ 63 < digits_value 10 digits.now)
        (λ n. (n ≡ digits_value 10 digits.now) × (n ≤ 2 ^ 63)) }
{
    match digits.parse::<u64>() {
        Ok(number) if number <= 0x8000_0000_0000_0000 => Some(number),
        _ => None,
    }
}
