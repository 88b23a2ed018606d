//! Why the program ends before its input does.
ghost use Rattle.std.specs.Prelude.{◌≡◌, string_bytes};
ghost use Rattle.std.specs.declared.io.ErrorKind.TheVariants.{OutOfMemory};
ghost use Rattle.liquid_folder.specs.Stops.{HasReason, IsInput, IsInside, IsMissing, IsUnreadable};
ghost use Rattle.liquid_folder.specs.Stops.{IsBadData, IsMemoryStop};

use liquid_files::{Excerpt, Reason, ShownFault, ShownPath, system_words};
use liquid_model::{Error, ErrorKind};
use std::alloc::{AllocError, AllocFailed, Global};
use std::{fmt, io};

/// Why the program ends before its input does.
#[derive(Drop)]
pub enum FolderStop {
    /// The folder of this path isn't there.
    Missing(String),
    /// The file or folder of this path can't be read or made, and why, where that is known.
    Unreadable(String, Option<Reason>),
    /// The pages would be written into the folder of this path, where templates are.
    Inside(String),
    /// The data at this path, of this text, has a fault.
    BadData(String, String, Error),
    /// A fault that belongs to no text: memory ran out.
    Fault(Error),
    /// Standard input can't be read.
    Input(io::ErrorKind),
    /// Standard output can't be written.
    Output(io::ErrorKind),
}

impl FolderStop {
    /// A path that can't be read.
    pub fn unreadable(alloc: Global, path: &str, reason: Option<Reason>) -> FolderStop
        ensures path { IsUnreadable path.now result }
        ensures reason { HasReason reason result }
    {
        match String::from_str(alloc, path) {
            Ok(path) => FolderStop::Unreadable(path, reason),
            Err(refused) => FolderStop::from(refused),
        }
    }

    /// A folder that the system refuses to read, for this kind of reason.
    pub fn unreadable_by(alloc: Global, path: &str, kind: io::ErrorKind) -> FolderStop
        ensures path { IsUnreadable path.now result }
        ensures memory { kind ≡ OutOfMemory → IsMemoryStop result }
    {
        match kind {
            io::ErrorKind::OutOfMemory => FolderStop::from(AllocError),
            kind => FolderStop::unreadable(alloc, path, Some(Reason::from(kind))),
        }
    }

    /// Standard input that can't be read, for this kind of reason.
    pub fn input(kind: io::ErrorKind) -> FolderStop
        ensures kind { IsInput kind result }
        ensures memory { kind ≡ OutOfMemory → IsMemoryStop result }
    {
        match kind {
            io::ErrorKind::OutOfMemory => FolderStop::from(AllocError),
            kind => FolderStop::Input(kind),
        }
    }

    /// A folder that isn't there.
    pub fn missing(alloc: Global, path: &str) -> FolderStop
        ensures { IsMissing path.now result }
    {
        match String::from_str(alloc, path) {
            Ok(path) => FolderStop::Missing(path),
            Err(refused) => FolderStop::from(refused),
        }
    }

    /// Data of this text that has a fault.
    pub fn bad_data(alloc: Global, path: &str, text: String, fault: Error) -> FolderStop
        ensures { IsBadData path.now (string_bytes text) fault result }
    {
        if let ErrorKind::Memory = fault.kind {
            return FolderStop::from(AllocError);
        }
        match String::from_str(alloc, path) {
            Ok(path) => FolderStop::BadData(path, text, fault),
            Err(refused) => FolderStop::from(refused),
        }
    }

    /// Pages that would be written into this folder of templates.
    pub fn inside(alloc: Global, path: &str) -> FolderStop
        ensures { IsInside path.now result }
    {
        match String::from_str(alloc, path) {
            Ok(path) => FolderStop::Inside(path),
            Err(refused) => FolderStop::from(refused),
        }
    }
}

fn shown(path: &String) -> ShownPath<'_> {
    ShownPath {
        path: path.as_str(),
    }
}

/// What goes to standard error.
impl fmt::Display for FolderStop {
    fn fmt<W: fmt::Write>(&self, f: &mut fmt::Formatter<W>) -> fmt::Result {
        match self {
            FolderStop::Missing(path) => write_missing(f, path),
            FolderStop::Unreadable(path, reason) => write_unreadable(f, path, *reason),
            FolderStop::Inside(path) => write_inside(f, path),
            FolderStop::BadData(path, text, fault) => write_bad_data(f, path, text, fault),
            FolderStop::Fault(fault) => write!(f, "error: {}", ShownFault { fault }),
            FolderStop::Input(kind) => write_stream(f, "standard input", *kind),
            FolderStop::Output(kind) => write_stream(f, "standard output", *kind),
        }
    }
}

fn write_missing<W: fmt::Write>(f: &mut fmt::Formatter<W>, path: &String) -> fmt::Result {
    let path = shown(path);
    write!(f, "error: Read: {path}\n  there is no such folder")
}

fn write_unreadable<W: fmt::Write>(
    f: &mut fmt::Formatter<W>,
    path: &String,
    reason: Option<Reason>,
) -> fmt::Result {
    let path = shown(path);
    write!(f, "error: Read: {path}")?;
    match reason {
        Some(reason) => write!(f, "\n  {reason}"),
        None => Ok(()),
    }
}

fn write_bad_data<W: fmt::Write>(
    f: &mut fmt::Formatter<W>,
    path: &String,
    text: &String,
    fault: &Error,
) -> fmt::Result {
    let path = shown(path);
    write!(f, "error: {path}: {fault}")?;
    if let Some(location) = &fault.location {
        if let Some(excerpt) = Excerpt::new(text.as_str(), location) {
            write!(f, "\n{excerpt}")?;
        }
    }
    Ok(())
}

fn write_inside<W: fmt::Write>(f: &mut fmt::Formatter<W>, path: &String) -> fmt::Result {
    let path = shown(path);
    write!(
        f,
        "error: OUT lies in {path}, where templates are; name another folder"
    )
}

fn write_stream<W: fmt::Write>(
    f: &mut fmt::Formatter<W>,
    name: &str,
    kind: io::ErrorKind,
) -> fmt::Result {
    let words = system_words(kind);
    write!(f, "error: {name}: {words}")
}

impl From<Error> for FolderStop {
    fn from(fault: Error) -> FolderStop {
        FolderStop::Fault(fault)
    }
}

impl From<AllocError> for FolderStop {
    ghost from_gives = { λ _ stop. IsMemoryStop stop };

    fn from(refused: AllocError) -> FolderStop {
        FolderStop::Fault(Error::from(refused))
    }
}

impl<T: Drop> From<AllocFailed<T>> for FolderStop {
    ghost from_gives = { λ _ stop. IsMemoryStop stop };

    fn from(refused: AllocFailed<T>) -> FolderStop {
        FolderStop::Fault(Error::from(refused))
    }
}
