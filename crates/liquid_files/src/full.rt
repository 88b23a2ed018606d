//! A disk that takes no more files.
ghost use Rattle.std.specs.Prelude.{◌≡◌};
ghost use Rattle.liquid_files.specs.Full.{refuses_every_file};

use std::io;

/// Whether a write failed because the disk takes no file at all, so that the next one fails too:
/// the disk, or the user's share of it, is full, or it can only be read. It takes no memory.
pub fn refuses_every_file(kind: io::ErrorKind) -> bool
    ensures { result ≡ refuses_every_file kind }
{
    matches!(
        kind,
        io::ErrorKind::StorageFull
            | io::ErrorKind::QuotaExceeded
            | io::ErrorKind::ReadOnlyFilesystem
    )
}
