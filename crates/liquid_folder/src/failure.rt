//! Why the program fails, and the status that it exits with.
ghost use Rattle.std.specs.Prelude.{◌≡◌};
ghost use Rattle.liquid_folder.specs.Stops.{failure_status};

use crate::stop::FolderStop;
use liquid_model::Error;
use std::fmt;

/// How the program is called.
const USAGE: &str = "usage: liquid_folder [--missing fault|nil] FOLDER DATA OUT";

/// Why the program fails. Only a wrong call has a status of its own: no round has it.
#[derive(Drop)]
pub enum Failure {
    /// The words are no call.
    Usage,
    /// It stopped before its input ended.
    Stopped(FolderStop),
}

impl Failure {
    /// The status that the program exits with.
    pub fn status(&self) -> u8
        ensures { result ≡ failure_status self.now }
    {
        match self {
            Failure::Usage => 2,
            Failure::Stopped(_) => 1,
        }
    }
}

/// What goes to standard error.
impl fmt::Display for Failure {
    fn fmt<W: fmt::Write>(&self, f: &mut fmt::Formatter<W>) -> fmt::Result {
        match self {
            Failure::Usage => f.write_str(USAGE),
            Failure::Stopped(stop) => write!(f, "{stop}"),
        }
    }
}

impl From<FolderStop> for Failure {
    fn from(stop: FolderStop) -> Failure {
        Failure::Stopped(stop)
    }
}

impl From<Error> for Failure {
    fn from(fault: Error) -> Failure {
        Failure::Stopped(FolderStop::from(fault))
    }
}
