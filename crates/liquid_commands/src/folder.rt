//! The files of a folder, and what is left out of it.
ghost use Rattle.std.specs.Prelude.{◌≡◌, ◌++◌, IfOk, string_bytes};

use crate::stop::Stop;
use liquid_files::{Entry, LeftOut, LeftOutLine, Reason, joined_path, listed_entry};
use std::alloc::{AllocError, Global};
use std::fs::DirEntry;
use std::{fs, io};

/// What is found below a folder.
#[derive(Drop)]
pub struct Found {
    /// The paths of its files, from the folder on, in their order.
    pub files: Vec<String>,
    /// The paths of what is left out, and why, in their order. Of names that aren't UTF-8 the path
    /// is that of their folder.
    pub left_out: Vec<(String, LeftOut)>,
}

/// Prints the line of what is left out. What standard error refuses is lost.
pub fn print_left_out(rt: &HostRuntime, path: &str, why: LeftOut) {
    let line = LeftOutLine { path, why };
    let _ = eprintln!(rt; "{line}");
}

/// What is found below a folder: regular files, itself or by links that stay below it. What has a
/// name that begins with a dot is passed over, and so is a link to a folder below it. Nothing is
/// opened but folders.
pub fn files_below(rt: &HostRuntime, folder: &str) -> Result<Found, Stop> {
    let mut walk = Walk::new(rt, folder)?;
    for _ in 0..u64::MAX {
        let Some(inner) = walk.folders.pop() else {
            break;
        };
        walk.read(inner.as_str())?;
    }
    walk.found.files.sort_unstable();
    walk.found.left_out.sort_unstable();
    walk.found.left_out.dedup();
    Ok(walk.found)
}

/// A walk through the folders below one.
#[derive(Drop)]
struct Walk<'r, 'f> {
    rt: &'r HostRuntime,
    folder: &'f str,
    found: Found,
    /// The folders that are still to be read, by their paths from the first one on: each is empty
    /// or ends in a slash.
    folders: Vec<String>,
}

impl<'r, 'f> Walk<'r, 'f> {
    /// A walk that is to read the folder first.
    fn new(rt: &'r HostRuntime, folder: &'f str) -> Result<Walk<'r, 'f>, Stop> {
        let mut folders = Vec::new(rt.alloc());
        folders.push(String::new(rt.alloc()))?;
        let found = Found {
            files: Vec::new(rt.alloc()),
            left_out: Vec::new(rt.alloc()),
        };
        Ok(Walk {
            rt,
            folder,
            found,
            folders,
        })
    }

    /// Adds what stands in one folder.
    fn read(&mut self, inner: &str) -> Result<(), Stop> {
        let path = joined_path(self.rt.alloc(), self.folder, inner)?;
        let path = match path.as_str().strip_suffix('/') {
            Some(path) if !path.is_empty() => path,
            _ => self.folder,
        };
        let entries = match fs::read_dir(self.rt, path) {
            Ok(entries) => entries,
            Err(refused) => return Err(Stop::no_folder(self.rt.alloc(), path, refused.kind())),
        };
        for entry in entries {
            self.add(path, inner, entry)?;
        }
        Ok(())
    }

    /// Adds one entry of the folder at a path. A name that isn't UTF-8 is left out.
    fn add(&mut self, path: &str, inner: &str, entry: io::Result<DirEntry>) -> Result<(), Stop> {
        match entry {
            Ok(entry) => self.add_named(inner, &entry),
            Err(refused) if refused.kind() == io::ErrorKind::InvalidFilename => {
                self.leave_out(path, LeftOut::Unnamed)
            }
            Err(refused) => Err(Stop::no_folder(self.rt.alloc(), path, refused.kind())),
        }
    }

    /// Adds an entry by its name, unless that begins with a dot.
    fn add_named(&mut self, inner: &str, entry: &DirEntry) -> Result<(), Stop> {
        let path = entry.path().as_str();
        match listed_entry(self.rt, self.folder, entry) {
            Ok(Entry::File) => {
                let file = inner_path(self.rt.alloc(), inner, entry.file_name(), "")?;
                Ok(self.found.files.push(file)?)
            }
            Ok(Entry::Folder) => {
                let folder = inner_path(self.rt.alloc(), inner, entry.file_name(), "/")?;
                Ok(self.folders.push(folder)?)
            }
            Ok(Entry::Hidden | Entry::LinkToFolder | Entry::Gone) => Ok(()),
            Ok(Entry::LeftOut(why)) => self.leave_out(path, why),
            Err(refused) => {
                let reason = Reason::from(refused.kind());
                Err(Stop::unreadable(self.rt.alloc(), path, reason))
            }
        }
    }

    fn leave_out(&mut self, path: &str, why: LeftOut) -> Result<(), Stop> {
        let path = String::from_str(self.rt.alloc(), path)?;
        Ok(self.found.left_out.push((path, why))?)
    }
}

/// The path of an entry from the first folder on, with this after it.
fn inner_path(alloc: Global, inner: &str, name: &str, end: &str) -> Result<String, AllocError>
    ensures { IfOk result (λ path. string_bytes path ≡ inner.now ++ (name.now ++ end.now)) }
{
    let mut path = String::from_str(alloc, inner)?;
    path.push_str(name)?;
    path.push_str(end)?;
    Ok(path)
}
