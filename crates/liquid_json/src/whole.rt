//! The whole numbers of JSON.
ghost use Rattle.std.specs.Prelude.{◌≡◌, ◌<◌, ◌==◌, length, slice_index, true, false};
ghost use Rattle.std.specs.Prelude.{IsTrue, option_and_then};
ghost use Rattle.serde_json.specs.Find.{as_i64};
ghost use Rattle.serde_json.specs.Read.{number_from};
ghost use Rattle.liquid_json.specs.Json.{integer_of_json_number};

use fast_float::Numeral;

/// The whole number that a number of JSON writes, where it is one of 64 bits. `-0` is none.
#[inline(always)]
pub fn integer_of(text: &str) -> Option<i64>
    ensures { result ≡ integer_of_json_number text.now }
{
    let bytes = text.as_bytes();
    if has_minus(bytes) {
        below_zero(&Numeral::scan(&bytes[1..]))
    } else {
        from_zero(&Numeral::scan(bytes))
    }
}

#[inline(always)]
fn has_minus(bytes: &[u8]) -> bool
    ensures value { result ≡ (slice_index bytes.now 0 == 45) }
    ensures len { IsTrue result → 0 < length bytes.now }
{
    !bytes.is_empty() && bytes[0] == b'-'
}

#[inline(always)]
fn from_zero(numeral: &Numeral<'_>) -> Option<i64>
    ensures { result ≡ option_and_then as_i64 (number_from false numeral.now) }
{
    match numeral.to_u64() {
        Some(n) => if n <= i64::MAX as u64 {
            Some(n as i64)
        } else {
            None
        },
        None => None,
    }
}

#[inline(always)]
fn below_zero(numeral: &Numeral<'_>) -> Option<i64>
    ensures { result ≡ option_and_then as_i64 (number_from true numeral.now) }
{
    match numeral.to_i64(true) {
        Some(n) => if n < 0 { Some(n) } else { None },
        None => None,
    }
}
