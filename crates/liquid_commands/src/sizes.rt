//! Sizes, in bytes or in larger units.
ghost use Rattle.std.specs.Prelude.{◌≡◌};
ghost use Rattle.std.specs.Str.Parse.{without_leading_plus};
ghost use Rattle.liquid_commands.specs.Sizes.{IsSize, digits_before, unit_at_end, unit_bytes};
ghost use Rattle.liquid_commands.specs.Sizes.{unit_letters};

use crate::inputs::WordFault;
use crate::words::ends_in;
use clap::ArgMatches;

/// What a size counts.
#[derive(Clone, Copy, Debug, PartialEq, Eq, Drop)]
pub enum Unit {
    Byte,
    Kilobyte,
    Megabyte,
    Gigabyte,
    Kibibyte,
    Mebibyte,
    Gibibyte,
}

impl Unit {
    /// How the unit is written after a number.
    fn letters(self) -> &'static str
        ensures { result.now ≡ unit_letters self }
    {
        match self {
            Unit::Byte => "",
            Unit::Kilobyte => "kB",
            Unit::Megabyte => "MB",
            Unit::Gigabyte => "GB",
            Unit::Kibibyte => "KiB",
            Unit::Mebibyte => "MiB",
            Unit::Gibibyte => "GiB",
        }
    }

    /// How many bytes it is.
    fn bytes(self) -> u64
        ensures { result ≡ unit_bytes self }
    {
        match self {
            Unit::Byte => 1,
            Unit::Kilobyte => 1_000,
            Unit::Megabyte => 1_000_000,
            Unit::Gigabyte => 1_000_000_000,
            Unit::Kibibyte => 1_024,
            Unit::Mebibyte => 1_048_576,
            Unit::Gibibyte => 1_073_741_824,
        }
    }
}

/// The unit that a size ends with.
fn unit_at_end(word: &str) -> Unit
    ensures { result ≡ unit_at_end word.now }
{
    if ends_in(word, "kB") {
        Unit::Kilobyte
    } else if ends_in(word, "MB") {
        Unit::Megabyte
    } else if ends_in(word, "GB") {
        Unit::Gigabyte
    } else if ends_in(word, "KiB") {
        Unit::Kibibyte
    } else if ends_in(word, "MiB") {
        Unit::Mebibyte
    } else if ends_in(word, "GiB") {
        Unit::Gibibyte
    } else {
        Unit::Byte
    }
}

/// What stands before the unit.
fn digits_before(unit: Unit, word: &str) -> &str
    ensures { result.now ≡ digits_before unit word.now }
{
    match word.strip_suffix(unit.letters()) {
        Some(digits) => digits,
        None => word,
    }
}

/// How many bytes a size writes: a number of them, or of kB, MB and GB, which are powers of 1000,
/// or of KiB, MiB and GiB, powers of 1024. None where it is no size, or past 64 bits. It takes no
/// memory.
pub fn size_in_bytes(word: &str) -> Option<u64>
    ensures { IsSize (unit_bytes (unit_at_end word.now))
        (without_leading_plus (digits_before (unit_at_end word.now) word.now)) result }
{
    let unit = unit_at_end(word);
    match digits_before(unit, word).parse::<u64>() {
        Ok(count) => count.checked_mul(unit.bytes()),
        Err(_) => None,
    }
}

/// The size after `--max-bytes`, where one is given.
pub(crate) fn max_bytes_in(given: &ArgMatches<'_>) -> Result<Option<u64>, WordFault> {
    let Some(word) = given.get_str("max-bytes") else {
        return Ok(None);
    };
    match size_in_bytes(word) {
        Some(bytes) => Ok(Some(bytes)),
        None => Err(WordFault::Wrong(
            "--max-bytes wants a number of bytes, as 65536, 64KiB or 10MB",
        )),
    }
}
