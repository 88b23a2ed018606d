//! Which changed files of a site are read.
use crate::stop::FolderStop;
use liquid_files::{Entry, LeftOut, LeftOutLine, entry_at, has_byte_zero};
use liquid_site::{Changed, Folder};
use std::alloc::AllocError;
use std::{fs, io, mem};

/// Removes from the changes what may not be read, and prints a line on standard error for each. If
/// that can't be written, the line is lost.
pub fn leave_out(
    rt: &HostRuntime,
    folder: &Folder,
    changes: &mut Vec<Changed>,
) -> Result<(), FolderStop> {
    for changed in mem::replace(changes, Vec::new(rt.alloc())) {
        if may_be_read(rt, folder, &changed)? {
            changes.push(changed)?;
        }
    }
    Ok(())
}

/// Whether a changed file of the site may be read: neither a pipe nor a device, no link that leads
/// out of its folder or nowhere, and without a byte 0. Prints what may not be read on standard
/// error. What isn't there is left to the round.
fn may_be_read(rt: &HostRuntime, folder: &Folder, changed: &Changed) -> Result<bool, FolderStop> {
    let (inside, name) = match changed {
        Changed::Data => return Ok(true),
        Changed::Page(name) => (folder.pages.as_str(), name),
        Changed::Partial(name) => (folder.partials.as_str(), name),
    };
    let mut path = String::from_str(rt.alloc(), inside)?;
    path.push_str(name.as_str())?;
    match left_out(rt, inside, path.as_str())? {
        Some(why) => {
            tell_left_out(rt, path.as_str(), why);
            Ok(false)
        }
        None => Ok(true),
    }
}

/// Why the entry at a path of the folder isn't read, where it isn't.
fn left_out(rt: &HostRuntime, folder: &str, path: &str) -> Result<Option<LeftOut>, FolderStop> {
    match entry_at(rt, folder, path) {
        Ok(Entry::LeftOut(why)) => Ok(Some(why)),
        Ok(Entry::File) => Ok(is_no_text(rt, path)?.then_some(LeftOut::NoText)),
        Ok(Entry::Hidden | Entry::Folder | Entry::LinkToFolder | Entry::Gone) => Ok(None),
        Err(refused) => Err(FolderStop::unreadable_by(rt.alloc(), path, refused.kind())),
    }
}

/// Whether a file has a byte 0. One that can't be read is left to the round.
fn is_no_text(rt: &HostRuntime, path: &str) -> Result<bool, FolderStop> {
    match fs::read(rt, path) {
        Ok(bytes) => Ok(has_byte_zero(&bytes)),
        Err(refused) if refused.kind() == io::ErrorKind::OutOfMemory => {
            Err(FolderStop::from(AllocError))
        }
        Err(_) => Ok(false),
    }
}

/// Tells what is left out, and why.
pub fn tell_left_out(rt: &HostRuntime, path: &str, why: LeftOut) {
    let line = LeftOutLine { path, why };
    let _ = eprintln!(rt; "{line}");
}
