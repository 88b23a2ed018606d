//! Which folders a call may name: its templates have to be there, and the pages go elsewhere.
use crate::paths::lies_in;
use crate::stop::FolderStop;
use crate::words::FolderCall;
use liquid_files::is_folder;
use liquid_site::Folder;
use std::alloc::AllocError;
use std::{fs, io};

/// Refuses a FOLDER that isn't there or has no `pages`, and an OUT that is one of the folders of
/// templates or lies in one. It writes nothing.
pub fn check_folders(
    rt: &HostRuntime,
    call: &FolderCall<'_>,
    folder: &Folder,
) -> Result<(), FolderStop> {
    for path in [call.folder, folder.pages.as_str()] {
        if !is_folder(rt, path) {
            return Err(FolderStop::missing(rt.alloc(), path));
        }
    }
    let out = real_path(rt, call.out)?;
    for path in [folder.pages.as_str(), folder.partials.as_str()] {
        let templates = real_path(rt, path)?;
        if lies_in(out.as_str(), templates.as_str()) {
            return Err(FolderStop::inside(rt.alloc(), path));
        }
    }
    Ok(())
}

/// Where a path leads, from the root of the system and without links, also where not all of it is
/// there yet.
fn real_path(rt: &HostRuntime, path: &str) -> Result<String, FolderStop> {
    if let Some(found) = found_path(rt, path)? {
        return Ok(found);
    }
    for (at, _) in path.rmatch_indices('/') {
        let front = path.get(..at).unwrap_or("");
        let rest = path.get(at..).unwrap_or("");
        let from = if front.is_empty() { "/" } else { front };
        if let Some(found) = found_path(rt, from)? {
            return joined(found, rest);
        }
    }
    match found_path(rt, ".")? {
        Some(found) => joined(found, path),
        None => Ok(String::from_str(rt.alloc(), path)?),
    }
}

/// Where a path leads that is there, or none.
fn found_path(rt: &HostRuntime, path: &str) -> Result<Option<String>, FolderStop> {
    match fs::canonicalize(rt, path) {
        Ok(found) => Ok(Some(found.into_string())),
        Err(refused) if refused.kind() == io::ErrorKind::OutOfMemory => {
            Err(FolderStop::from(AllocError))
        }
        Err(_) => Ok(None),
    }
}

/// The path of a folder with these names after it, which aren't there yet: a `..` takes one back.
fn joined(folder: String, names: &str) -> Result<String, FolderStop> {
    let mut path = folder;
    for name in names.split('/') {
        match name {
            "" | "." => {}
            ".." => {
                let end = path.rfind('/').unwrap_or(0);
                path.truncate(end);
            }
            _ => {
                path.push('/')?;
                path.push_str(name)?;
            }
        }
    }
    Ok(path)
}
