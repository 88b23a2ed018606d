//! The message about a record without a page.
ghost use Rattle.std.specs.Prelude.{Some};
ghost use Rattle.liquid_records.specs.Messages.{failure_text, why_text};

use crate::job::Why;
use crate::merge::Failure;
use liquid_core::Quoted;
use liquid_engine::LimitReached;
use liquid_files::DiskFault;
use std::fmt;

/// What follows the number of the record.
impl fmt::Display for Why {
    ghost output = { λ why. Some (why_text why) };

    fn fmt<W: fmt::Write>(&self, f: &mut fmt::Formatter<W>) -> fmt::Result {
        match self {
            Why::NoData(fault) => write!(f, "{fault}"),
            Why::Faulted(fault) => write!(f, "{fault}"),
            Why::Limited(LimitReached::Bytes) => {
                f.write_str("its page takes more than its limit allows")
            }
            Why::Limited(LimitReached::Turns) => {
                f.write_str("its page takes more turns than its limit allows")
            }
            Why::Unnamed(fault) => write!(f, "the name of its file: {fault}"),
            Why::BadName(name) => {
                let name = Quoted {
                    text: name.as_str(),
                };
                write!(
                    f,
                    "the name of its file is `{name}`: it may not begin with a slash, and each part between slashes needs more than dots"
                )
            }
        }
    }
}

/// What follows the number of the record.
impl fmt::Display for Failure {
    ghost output = { λ failure. Some (failure_text failure) };

    fn fmt<W: fmt::Write>(&self, f: &mut fmt::Formatter<W>) -> fmt::Result {
        match self {
            Failure::NoPage(why) => write!(f, "{why}"),
            Failure::Again(name, before) => {
                let name = Quoted {
                    text: name.as_str(),
                };
                write!(
                    f,
                    "the file `{name}` is that of record {before}: give each record another name"
                )
            }
            Failure::Unwritten(name, DiskFault::Protected(why)) => {
                let name = Quoted {
                    text: name.as_str(),
                };
                write!(f, "the file `{name}` can't be written: {why}")
            }
            Failure::Unwritten(name, _) => {
                let name = Quoted {
                    text: name.as_str(),
                };
                write!(f, "the file `{name}` can't be written")
            }
        }
    }
}
