//! Why a file has no text, as the second line of what the program prints tells it.
ghost use Rattle.std.specs.Prelude.{◌≡◌};
ghost use Rattle.liquid_files.specs.Reasons.{reason_of};

use crate::foreign::{Foreign, foreign_of, foreign_words};
use std::string::FromUtf8Error;
use std::{fmt, io};

/// What stood in the way of a file's text.
#[derive(Clone, Copy, Debug, Drop)]
pub enum Reason {
    Missing,
    Folder,
    NoRight,
    /// A byte that is no part of UTF-8, at this line and column, in characters and from 1.
    NotUtf8 { line: usize, column: usize },
    /// It is no text.
    Foreign(Foreign),
    Other(io::ErrorKind),
}

impl Reason {
    /// What the bytes are, or the place of the first that is no part of UTF-8. It takes no memory.
    pub fn of_bytes(refused: &FromUtf8Error) -> Reason {
        let whole = refused.as_bytes();
        if let Some(foreign) = foreign_of(whole) {
            return Reason::Foreign(foreign);
        }
        let front = whole
            .get(..refused.utf8_error().valid_up_to())
            .unwrap_or(whole);
        let text = str::from_utf8(front).unwrap_or("");
        let last = text.rsplit('\n').next().unwrap_or("");
        Reason::NotUtf8 {
            line: text.split('\n').count(),
            column: last.chars().count().saturating_add(1),
        }
    }
}

impl From<io::ErrorKind> for Reason {
    ghost from_gives = { λ kind reason. reason ≡ reason_of kind };

    fn from(kind: io::ErrorKind) -> Reason {
        match kind {
            io::ErrorKind::NotFound => Reason::Missing,
            io::ErrorKind::IsADirectory => Reason::Folder,
            io::ErrorKind::PermissionDenied => Reason::NoRight,
            kind => Reason::Other(kind),
        }
    }
}

impl fmt::Display for Reason {
    fn fmt<W: fmt::Write>(&self, f: &mut fmt::Formatter<W>) -> fmt::Result {
        match self {
            Reason::Missing => f.write_str("there is no such file"),
            Reason::Folder => f.write_str("it is a folder, and no file"),
            Reason::NoRight => f.write_str("you have no right to read it"),
            Reason::NotUtf8 { line, column } => {
                write!(
                    f,
                    "the file isn't UTF-8: line {line}, column {column}; save it as UTF-8"
                )
            }
            Reason::Foreign(foreign) => f.write_str(foreign_words(*foreign)),
            Reason::Other(kind) => write!(f, "{kind}"),
        }
    }
}
