//! How much there is to merge.
ghost use Rattle.std.specs.Prelude.{◌≡◌};
ghost use Rattle.bikleinu.specs.Extents.{IsProgress, percent_done, seconds_left};
ghost use Rattle.bikleinu.specs.declared.extent.Extent.TheVariants.{Records, Unknown};

use liquid_commands::MergeCall;
use std::fmt;
use std::fs::File;
use std::io::Seek;

/// How much there is to merge, where it is known.
#[derive(Drop)]
pub enum Extent {
    Unknown,
    /// So many records, unless they end before.
    Records(u64),
    /// The bytes of a regular file, and the file, which is read elsewhere by the same position.
    Bytes(File, u64),
}

impl Extent {
    /// That of records which no file has: those that are asked for.
    pub fn of(call: &MergeCall<'_>) -> Extent
        ensures all { call.now.count ≡ 18446744073709551615 → result ≡ Unknown }
        ensures some { (call.now.count ≡ 18446744073709551615 → ⊥) →
            result ≡ Records call.now.count }
    {
        match call.count {
            u64::MAX => Extent::Unknown,
            count => Extent::Records(count),
        }
    }

    /// That of the records of a file: those that are asked for, or else its bytes where it is a
    /// regular one.
    pub fn of_file(call: &MergeCall<'_>, file: &File) -> Extent
        ensures some { (call.now.count ≡ 18446744073709551615 → ⊥) →
            result ≡ Records call.now.count }
    {
        match Extent::of(call) {
            Extent::Unknown if call.progress => Extent::bytes_of(file),
            extent => extent,
        }
    }

    fn bytes_of(file: &File) -> Extent {
        let (Ok(metadata), Ok(same)) = (file.metadata(), file.try_clone()) else {
            return Extent::Unknown;
        };
        if metadata.is_file() {
            Extent::Bytes(same, metadata.len())
        } else {
            Extent::Unknown
        }
    }

    /// How far a merge of so many records in so many seconds is, where it is known how far it goes.
    pub fn reached(&mut self, records: u64, seconds: u64) -> Option<Reached>
        ensures { IsProgress self.old records seconds result }
    {
        let (done, whole, unit) = match self {
            Extent::Unknown => return None,
            Extent::Records(count) => (records, *count, Unit::Records),
            Extent::Bytes(file, size) => (file.stream_position().ok()?, *size, Unit::File),
        };
        Some(Reached {
            done,
            whole,
            unit,
            seconds_left: seconds_left(seconds, done, whole),
        })
    }
}

#[derive(Clone, Copy, Drop)]
enum Unit {
    Records,
    File,
}

/// How far a merge is. It is printed as `37 % of the file, 5 seconds left`.
#[derive(Drop)]
pub struct Reached {
    done: u64,
    whole: u64,
    unit: Unit,
    seconds_left: u64,
}

impl fmt::Display for Reached {
    fn fmt<W: fmt::Write>(&self, f: &mut fmt::Formatter<W>) -> fmt::Result {
        let (done, whole, left) = (self.done, self.whole, self.seconds_left);
        let percent = percent_done(done, whole);
        match self.unit {
            Unit::Records => write!(f, "{done} of {whole} records, {left} seconds left"),
            Unit::File => write!(f, "{percent} % of the file, {left} seconds left"),
        }
    }
}

/// How many hundredths are done, rounded down.
fn percent_done(done: u64, whole: u64) -> u64
    ensures { result ≡ percent_done done whole }
{
    done.saturating_mul(100) / whole.max(1)
}

/// How many seconds the rest takes, if each part of it takes as long as those that are done.
fn seconds_left(passed: u64, done: u64, whole: u64) -> u64
    ensures { result ≡ seconds_left passed done whole }
{
    passed.saturating_mul(whole.saturating_sub(done)) / done.max(1)
}
