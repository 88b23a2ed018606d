//! Which file or folder a path leads to.
use liquid_files::lies_in;
use std::alloc::AllocError;
use std::os::unix::fs::MetadataExt;
use std::{fs, io};

/// What makes a file one, whatever names it has.
#[derive(Drop, PartialEq, Eq, PartialOrd, Ord)]
pub(crate) enum FileId {
    /// Its device, and its number there.
    Node(u64, u64),
    /// Its path, where the system finds no file at it, as at `-`.
    Path(String),
}

/// The file that a path leads to.
pub(crate) fn file_id(rt: &HostRuntime, path: &str) -> Result<FileId, AllocError> {
    if path == "-" {
        return Ok(FileId::Path(String::from_str(rt.alloc(), path)?));
    }
    match fs::metadata(rt, path) {
        Ok(found) => Ok(FileId::Node(found.dev(), found.ino())),
        Err(_) => Ok(FileId::Path(String::from_str(rt.alloc(), path)?)),
    }
}

/// Whether a folder is inside one of others, and isn't one of them.
pub(crate) fn is_inside(
    rt: &HostRuntime,
    folder: &str,
    others: &[&str],
) -> Result<bool, AllocError> {
    let folder = real_path(rt, folder)?;
    for other in others {
        let other = real_path(rt, other)?;
        if folder != other && lies_in(folder.as_str(), other.as_str()) {
            return Ok(true);
        }
    }
    Ok(false)
}

/// The path without links and `..`, where the system finds it, and else as it is.
fn real_path(rt: &HostRuntime, path: &str) -> Result<String, AllocError> {
    match fs::canonicalize(rt, path) {
        Ok(found) => Ok(found.into_string()),
        Err(refused) if refused.kind() == io::ErrorKind::OutOfMemory => Err(AllocError),
        Err(_) => String::from_str(rt.alloc(), path),
    }
}
