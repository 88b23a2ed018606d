//! The files of a site: all of them, and the one that a line names.
ghost use Rattle.std.specs.Prelude.{◌≡◌, [], IfOk, string_bytes};
ghost use Rattle.liquid_folder.specs.Lines.{IsLineOf};

use crate::paths::{file_in, is_left_out, is_same};
use crate::readable::tell_left_out;
use crate::stop::FolderStop;
use crate::words::FolderCall;
use liquid_files::{Entry, LeftOut, entry_at};
use liquid_model::Result;
use liquid_site::{Changed, Folder};
use std::alloc::Global;
use std::fs::DirEntry;
use std::{fs, io};

/// The folder of a site: pages in `FOLDER/pages`, partials in `FOLDER/partials`, pages written into
/// OUT.
pub fn folder_of(alloc: Global, call: &FolderCall<'_>) -> Result<Folder>
    ensures data { IfOk result (λ folder. string_bytes folder.«data» ≡ call.now.«data».now) }
{
    Ok(Folder {
        pages: inside(alloc, call.folder, "/pages/")?,
        partials: inside(alloc, call.folder, "/partials/")?,
        data: String::from_str(alloc, call.data)?,
        out: inside(alloc, call.out, "/")?,
    })
}

fn inside(alloc: Global, folder: &str, rest: &str) -> Result<String> {
    let mut path = String::from_str(alloc, folder.strip_suffix('/').unwrap_or(folder))?;
    path.push_str(rest)?;
    Ok(path)
}

/// What a line asks for.
#[derive(Drop)]
pub enum Line {
    /// A round.
    Round,
    /// A look at this file in the next round.
    File(Changed),
    /// A look at a file that is left out, and so nothing.
    LeftOut,
    /// A look at what is no file of the site.
    NoFile,
}

/// What a line asks for, which is empty or the path of a file.
pub fn line_of(alloc: Global, folder: &Folder, line: &str) -> Result<Line>
    ensures asked { IfOk result (IsLineOf folder.now line.now) }
    ensures round { line.now ≡ [] → IfOk result (λ asked. asked ≡ Line.Round) }
{
    if line.is_empty() {
        return Ok(Line::Round);
    }
    if line.ends_with('/') {
        return Ok(Line::NoFile);
    }
    if is_same(line, folder.data.as_str()) {
        return Ok(Line::File(Changed::Data));
    }
    let page = file_in(folder.pages.as_str(), line);
    let partial = file_in(folder.partials.as_str(), line);
    match (page, partial) {
        (Some(name), _) | (None, Some(name)) if is_left_out(name) => Ok(Line::LeftOut),
        (Some(name), _) => Ok(Line::File(Changed::Page(String::from_str(alloc, name)?))),
        (None, Some(name)) => Ok(Line::File(Changed::Partial(String::from_str(alloc, name)?))),
        (None, None) => Ok(Line::NoFile),
    }
}

/// The files of a site that there are at first.
#[derive(Drop)]
pub struct Listing {
    /// Its partials, and then its pages, each in the order of their names.
    pub files: Vec<Changed>,
    /// Whether each name was read.
    pub is_whole: bool,
}

/// All files of the site but the data. A folder among them, and a name that can't be read, is left
/// out, and reported on standard error. If that can't be written, the report is lost.
pub fn all_files(rt: &HostRuntime, folder: &Folder) -> std::result::Result<Listing, FolderStop> {
    let mut files = Vec::new(rt.alloc());
    let partials = names_in(rt, folder.partials.as_str())?;
    for name in partials.names {
        files.push(Changed::Partial(name))?;
    }
    let pages = names_in(rt, folder.pages.as_str())?;
    for name in pages.names {
        files.push(Changed::Page(name))?;
    }
    Ok(Listing {
        files,
        is_whole: partials.is_whole && pages.is_whole,
    })
}

/// The names of the files in a folder.
#[derive(Drop)]
struct Names {
    /// In their order.
    names: Vec<String>,
    /// Whether each was read.
    is_whole: bool,
}

/// The names of the files in a folder. A folder that isn't there has none.
fn names_in(rt: &HostRuntime, path: &str) -> std::result::Result<Names, FolderStop> {
    let mut found = Names {
        names: Vec::new(rt.alloc()),
        is_whole: true,
    };
    let entries = match fs::read_dir(rt, path) {
        Ok(entries) => entries,
        Err(refused) => match refused.kind() {
            io::ErrorKind::NotFound => return Ok(found),
            kind => return Err(FolderStop::unreadable_by(rt.alloc(), path, kind)),
        },
    };
    for entry in entries {
        found.add(rt, path, entry)?;
    }
    found.names.sort_unstable();
    Ok(found)
}

impl Names {
    /// Adds the name of a file. One that isn't UTF-8 is reported on standard error.
    fn add(
        &mut self,
        rt: &HostRuntime,
        path: &str,
        entry: io::Result<DirEntry>,
    ) -> std::result::Result<(), FolderStop> {
        match entry {
            Ok(entry) if is_left_out(entry.file_name()) => {}
            Ok(entry) => if is_taken(rt, path, entry.path().as_str())? {
                self.names
                    .push(String::from_str(rt.alloc(), entry.file_name())?)?;
            },
            Err(refused) => {
                if refused.kind() != io::ErrorKind::InvalidFilename {
                    return Err(FolderStop::unreadable_by(rt.alloc(), path, refused.kind()));
                }
                let folder = path.strip_suffix('/').unwrap_or(path);
                tell_left_out(rt, folder, LeftOut::Unnamed);
                self.is_whole = false;
            }
        }
        Ok(())
    }
}

/// Whether what is found in a folder is to be looked at as a file of the site. A folder isn't, and
/// is reported.
fn is_taken(rt: &HostRuntime, folder: &str, path: &str) -> std::result::Result<bool, FolderStop> {
    match entry_at(rt, folder, path) {
        Ok(Entry::Folder | Entry::LinkToFolder) => {
            tell_left_out(rt, path, LeftOut::Folder);
            Ok(false)
        }
        Ok(_) => Ok(true),
        Err(refused) => Err(FolderStop::unreadable_by(rt.alloc(), path, refused.kind())),
    }
}
