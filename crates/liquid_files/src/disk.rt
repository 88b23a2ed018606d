//! Where the texts of files are.
ghost use Rattle.std.specs.Prelude.{◌≡◌, None, Option, IfSome};
ghost use Rattle.liquid_files.specs.Files.{Files, IsFound, IsPut, IsSet, gone};
ghost use Rattle.liquid_files.specs.declared.disk.DiskFault.TheVariants.{Memory};

use crate::system::Occupant;
use std::alloc::{AllocError, AllocFailed};
use std::io;

/// Why a file isn't read or written.
#[derive(Debug, Drop)]
pub enum DiskFault {
    /// No memory was to be had.
    Memory,
    /// The system refuses it for this reason. A file whose bytes are no text is `InvalidData`.
    Refused(io::ErrorKind),
    /// It is one of those that are never written.
    Protected(Protected),
}

/// Why a file is never written.
#[derive(Debug, Drop)]
pub enum Protected {
    /// Its name is one of a part, a page that isn't whole yet.
    Part,
    /// A part of its name begins with a dot, and whoever named the pages wrote none there.
    Hidden,
    /// Something stands there that is no file of its own.
    Occupied(Occupant),
    /// The call reads it.
    Source,
    /// It is the file of an earlier page, at this other path.
    Page(String),
    /// Its folder leads out of the folder of the pages.
    Outside,
}

impl From<AllocError> for DiskFault {
    ghost from_gives = { λ _ fault. fault ≡ Memory };

    fn from(_refused: AllocError) -> DiskFault {
        DiskFault::Memory
    }
}

impl<T: Drop> From<AllocFailed<T>> for DiskFault {
    ghost from_gives = { λ _ fault. fault ≡ Memory };

    fn from(_refused: AllocFailed<T>) -> DiskFault {
        DiskFault::Memory
    }
}

impl From<io::Error> for DiskFault {
    fn from(refused: io::Error) -> DiskFault {
        match refused.kind() {
            io::ErrorKind::OutOfMemory => DiskFault::Memory,
            kind => DiskFault::Refused(kind),
        }
    }
}

/// Files by their paths.
pub trait Disk {
    // What stands at each path, where it is known.
    ghost files: { Self → Option Files } = { λ _. None };

    /// The text of the file at a path, or none where there is no file.
    fn read(&self, path: &str) -> std::result::Result<Option<String>, DiskFault>
        ensures { IfSome (files self.now) (λ f. IsFound (f path.now) result) };

    /// Puts a text into the file at a path, in place of what it held. No other file changes; and
    /// none does if it is refused.
    fn write(&mut self, path: &str, text: &str) -> std::result::Result<(), DiskFault>
        ensures { IfSome (files self.old) (λ f. IsPut path.now text.now f result
            (files self.new)) };

    /// Puts what the file at one path holds, any bytes, into the file at another, in place of what
    /// that held. No other file changes; and none does if it is refused.
    fn copy(&mut self, from: &str, path: &str) -> std::result::Result<(), DiskFault>
        ensures { IfSome (files self.old) (λ f. IsSet path.now (f from.now) f result
            (files self.new)) };

    /// Takes away the file at a path. No other file changes; and none does if it is refused, as
    /// where there is no file.
    fn remove(&mut self, path: &str) -> std::result::Result<(), DiskFault>
        ensures { IfSome (files self.old) (λ f. IsSet path.now gone f result
            (files self.new)) };
}
