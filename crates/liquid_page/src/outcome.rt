//! How a call of the program ends.
ghost use Rattle.std.specs.Prelude.{◌≡◌, Some, MatchResult};
ghost use Rattle.liquid_page.specs.Outcomes.{IsOutOfMemory, outcome_line, outcome_status};
ghost use Rattle.liquid_page.specs.declared.outcome.Outcome.TheVariants.{Done, Fault};

use liquid_files::ShownPath;
use liquid_model::{Error, Result};
use std::alloc::{AllocError, AllocFailed};
use std::fmt;

/// How a call of the program ended.
#[derive(Drop)]
pub enum Outcome {
    /// The page is written.
    Done,
    /// The words are no call.
    Usage,
    /// The file of this name can't be read, or isn't UTF-8.
    Unreadable(String),
    /// The page ended by a fault.
    Fault(Error),
}

impl Outcome {
    /// The status that the program ends with.
    pub fn status(&self) -> u8
        ensures { result ≡ outcome_status self.now }
    {
        match self {
            Outcome::Done => 0,
            Outcome::Unreadable(_) | Outcome::Fault(_) => 1,
            Outcome::Usage => 2,
        }
    }
}

/// What goes to standard error: nothing where the page is written.
impl fmt::Display for Outcome {
    ghost output = { λ outcome. Some (outcome_line outcome) };

    fn fmt<W: fmt::Write>(&self, f: &mut fmt::Formatter<W>) -> fmt::Result {
        match self {
            Outcome::Done => Ok(()),
            Outcome::Usage => f.write_str("usage: liquid_page TEMPLATE DATA [NAME=FILE ..]"),
            Outcome::Unreadable(file) => {
                let path = ShownPath {
                    path: file.as_str(),
                };
                write!(f, "error: Read: {path}")
            }
            Outcome::Fault(fault) => write!(f, "error: {fault}"),
        }
    }
}

/// How a call ended whose page was written, or ended by a fault.
impl From<Result<()>> for Outcome {
    ghost from_gives = { λ answer outcome.
        MatchResult answer (λ _. outcome ≡ Done) (λ fault. outcome ≡ Fault fault) };

    fn from(answer: Result<()>) -> Outcome {
        match answer {
            Ok(()) => Outcome::Done,
            Err(fault) => Outcome::Fault(fault),
        }
    }
}

impl From<Error> for Outcome {
    ghost from_gives = { λ fault outcome. outcome ≡ Fault fault };

    fn from(fault: Error) -> Outcome {
        Outcome::Fault(fault)
    }
}

impl From<AllocError> for Outcome {
    ghost from_gives = { λ _ outcome. IsOutOfMemory outcome };

    fn from(refused: AllocError) -> Outcome {
        Outcome::Fault(Error::from(refused))
    }
}

impl<T: Drop> From<AllocFailed<T>> for Outcome {
    ghost from_gives = { λ _ outcome. IsOutOfMemory outcome };

    fn from(refused: AllocFailed<T>) -> Outcome {
        Outcome::Fault(Error::from(refused))
    }
}
