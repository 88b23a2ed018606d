//! What is printed of a record that has no page.
ghost use Rattle.std.specs.Prelude.{◌≡◌};
ghost use Rattle.bikleinu.specs.Reports.{ends_merge, is_forbidden, lacks_permission};
ghost use Rattle.bikleinu.specs.Reports.{takes_no_file};

use liquid_commands::{Sources, print_excerpt};
use liquid_core::Error;
use liquid_data::{ListFault, RecordFault, RowFault};
use liquid_files::{DiskFault, ShownFault, refuses_every_file, system_words, unwritten_words};
use liquid_lib::LimitReached;
use liquid_records::{Failure, Why};
use std::{fmt, io};

/// Why a record has no page, or none in a file.
pub enum Report {
    /// Its line isn't UTF-8.
    NotUtf8,
    /// Its row is no record.
    NoRow(RowFault),
    /// Its list has a fault there.
    NoItem(ListFault),
    /// There is no page.
    NoPage(Why),
    /// The page is in no file.
    NoFile(Failure),
    /// Memory ran out for it.
    Fault(Error),
}

/// Drops what it holds. Written by hand, so that each early return drops the value by one call
/// to prove.
impl Drop for Report {
    fn drop(self) {
        match self {
            Report::NotUtf8 | Report::NoRow(_) | Report::NoItem(_) | Report::NoPage(_) => {}
            Report::NoFile(_) | Report::Fault(_) => {}
        }
    }
}

impl From<RecordFault> for Report {
    fn from(fault: RecordFault) -> Report {
        match fault {
            RecordFault::NotUtf8 => Report::NotUtf8,
            RecordFault::NoRow(fault) => Report::NoRow(fault),
            RecordFault::NoItem(fault) => Report::NoItem(fault),
            RecordFault::NoData(fault) => Report::NoPage(Why::NoData(fault)),
        }
    }
}

impl Report {
    /// Whether no further page can be written: the disk that refused this one refuses every file.
    pub fn ends_merge(&self) -> bool
        ensures { result ≡ ends_merge self.now }
    {
        match self {
            Report::NoFile(Failure::Unwritten(_, fault)) => takes_no_file(fault),
            _ => false,
        }
    }

    /// Whether its file was refused for want of permission.
    pub fn is_forbidden(&self) -> bool
        ensures { result ≡ is_forbidden self.now }
    {
        match self {
            Report::NoFile(Failure::Unwritten(_, fault)) => lacks_permission(fault),
            _ => false,
        }
    }

    /// Why there is no page, where that is so.
    pub fn why(&self) -> Option<&Why> {
        match self {
            Report::NoPage(why) | Report::NoFile(Failure::NoPage(why)) => Some(why),
            _ => None,
        }
    }

    /// Whether the page or its name ends by a fault.
    pub fn is_page_fault(&self) -> bool {
        matches!(self.why(), Some(Why::Faulted(_) | Why::Unnamed(_)))
    }

    /// Prints it in one line on standard error, and the line of the text that a fault is in. What
    /// that refuses is lost.
    pub fn print(&self, rt: &HostRuntime, sources: &Sources, number: u64, text: &str) {
        let _ = eprintln!(rt; "error: record {number}: {self}");
        match self.why() {
            Some(Why::NoData(fault)) => print_excerpt(rt, fault, Some(text)),
            Some(Why::Faulted(fault)) => sources.print_excerpt_of(rt, fault),
            _ => {}
        }
    }
}

/// Whether the disk takes no file at all.
fn takes_no_file(fault: &DiskFault) -> bool
    ensures { result ≡ takes_no_file fault.now }
{
    match fault {
        DiskFault::Refused(kind) => refuses_every_file(*kind),
        _ => false,
    }
}

/// Whether the user may not write the file.
fn lacks_permission(fault: &DiskFault) -> bool
    ensures { result ≡ lacks_permission fault.now }
{
    match fault {
        DiskFault::Refused(kind) => matches!(kind, io::ErrorKind::PermissionDenied),
        _ => false,
    }
}

/// What follows the number of the record.
impl fmt::Display for Report {
    fn fmt<W: fmt::Write>(&self, f: &mut fmt::Formatter<W>) -> fmt::Result {
        if let Some(Why::Limited(reached)) = self.why() {
            return f.write_str(limit_words(*reached));
        }
        match self {
            Report::NotUtf8 => f.write_str("its line isn't UTF-8; save the file as UTF-8"),
            Report::NoRow(fault) => write!(f, "{fault}"),
            Report::NoItem(fault) => write!(f, "{fault}"),
            Report::NoPage(why) => write!(f, "{why}"),
            Report::Fault(fault) => {
                let fault = ShownFault { fault };
                write!(f, "{fault}")
            }
            Report::NoFile(failure) => match failure {
                Failure::Unwritten(_, fault) => write_unwritten(f, failure, fault),
                _ => write!(f, "{failure}"),
            },
        }
    }
}

/// What is said of a page that a limit ended.
fn limit_words(reached: LimitReached) -> &'static str {
    match reached {
        LimitReached::Bytes => "its page takes more than --max-bytes allows",
        LimitReached::Turns => "its page runs more than --max-turns allows",
    }
}

/// A page whose file isn't written: why the system refuses it, unless the failure says why.
fn write_unwritten<W: fmt::Write>(
    f: &mut fmt::Formatter<W>,
    failure: &Failure,
    fault: &DiskFault,
) -> fmt::Result {
    let words = match fault {
        DiskFault::Refused(kind) => unwritten_words(*kind),
        DiskFault::Memory => system_words(io::ErrorKind::OutOfMemory),
        DiskFault::Protected(_) => return write!(f, "{failure}"),
    };
    write!(f, "{failure}: {words}")
}
