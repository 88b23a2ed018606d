//! What is wrong with a file, in the words of other tools.
ghost use Rattle.std.specs.Prelude.{◌≡◌, option_map};
ghost use Rattle.liquid_files.specs.SystemWords.{reason_words, system_words, unwritten_words};

use crate::foreign::foreign_words;
use crate::unreadable::Reason;
use std::io;

/// What the system says of a call that fails, as other tools write it. A kind that has no words of
/// its own is an `Input/output error`, and memory that ran out is `out of memory`, as of a fault.
/// It takes no memory.
pub fn system_words(kind: io::ErrorKind) -> &'static str
    ensures { result.now ≡ system_words kind }
{
    match kind {
        io::ErrorKind::NotFound => "No such file or directory",
        io::ErrorKind::PermissionDenied => "Permission denied",
        io::ErrorKind::AlreadyExists => "File exists",
        io::ErrorKind::IsADirectory => "Is a directory",
        io::ErrorKind::NotADirectory => "Not a directory",
        io::ErrorKind::StorageFull => "No space left on device",
        io::ErrorKind::QuotaExceeded => "Disk quota exceeded",
        io::ErrorKind::FileTooLarge => "File too large",
        io::ErrorKind::ReadOnlyFilesystem => "Read-only file system",
        io::ErrorKind::FilesystemLoop => "Too many levels of symbolic links",
        io::ErrorKind::InvalidFilename => "File name too long",
        io::ErrorKind::InvalidInput => "Invalid argument",
        io::ErrorKind::ExecutableFileBusy => "Text file busy",
        io::ErrorKind::BrokenPipe => "Broken pipe",
        io::ErrorKind::OutOfMemory => "out of memory",
        _ => "Input/output error",
    }
}

/// What is said of a file that can't be written: what the system says, but where it misses
/// something, that this is the folder, since the file needn't be there. It takes no memory.
pub fn unwritten_words(kind: io::ErrorKind) -> &'static str
    ensures { result.now ≡ unwritten_words kind }
{
    match kind {
        io::ErrorKind::NotFound => "its folder isn't there; make it first",
        kind => system_words(kind),
    }
}

/// What other tools say of a file without a text; none where its bytes are no text, of which the
/// place is to be shown. It takes no memory.
pub fn reason_words(reason: Reason) -> Option<&'static str>
    ensures { option_map (λ words. words.now) result ≡ reason_words reason }
{
    match reason {
        Reason::Missing => Some("No such file or directory"),
        Reason::Folder => Some("Is a directory"),
        Reason::NoRight => Some("Permission denied"),
        Reason::NotUtf8 { line: _, column: _ } => None,
        Reason::Foreign(foreign) => Some(foreign_words(foreign)),
        Reason::Other(kind) => Some(system_words(kind)),
    }
}
