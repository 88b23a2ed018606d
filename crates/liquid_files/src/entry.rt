//! What stands in a folder whose files are read.
ghost use Rattle.std.specs.Prelude.{◌≡◌, ◌↔◌, IsTrue, Ok};
ghost use Rattle.std.specs.Fs.{IsDir, IsFile, dir_entry_name};
ghost use Rattle.std.specs.Path.{PathStartsWith};
ghost use Rattle.liquid_files.specs.Entries.{folder_entry, has_byte_zero, is_hidden_name};

use crate::left_out::LeftOut;
use std::fs::{DirEntry, FileType};
use std::os::unix::fs::FileTypeExt;
use std::path::Path;
use std::{fs, io};

/// What an entry of a folder is to a program that reads the folder's files.
#[derive(Clone, Copy, Debug, PartialEq, Eq)]
pub enum Entry {
    /// Its name begins with a dot.
    Hidden,
    /// A regular file, whose real path lies below the folder.
    File,
    Folder,
    /// A link to a folder below the one that is read, where its files are found anyway.
    LinkToFolder,
    /// It isn't there any more.
    Gone,
    LeftOut(LeftOut),
}

/// What the system says of a path, after links.
#[derive(Clone, Copy, Debug, PartialEq, Eq)]
pub enum Target {
    /// A regular file.
    File,
    Folder,
    Pipe,
    Socket,
    /// A device, or whatever else there may be.
    Device,
    Nothing,
    /// The user has no right to look.
    Barred,
}

/// How an entry leads to what stands there.
#[derive(Clone, Copy, Debug, PartialEq, Eq)]
pub enum Way {
    /// It is no link.
    Itself,
    /// It is a link, and leads below the folder.
    Inside,
    /// It is a link, and leads elsewhere.
    Outside,
    /// It is a link to a path that isn't UTF-8.
    Unnamed,
}

/// What an entry that was listed is, for a program that reads the files below a folder. One that is
/// hidden isn't looked at.
///
/// What the system refuses to tell, as `entry_at` says.
pub fn listed_entry(rt: &HostRuntime, folder: &str, entry: &DirEntry) -> io::Result<Entry>
    ensures hidden { IsTrue (is_hidden_name (dir_entry_name entry.now)) → result ≡ Ok Entry.Hidden }
{
    if is_hidden_name(entry.file_name()) {
        return Ok(Entry::Hidden);
    }
    entry_at(rt, folder, entry.path().as_str())
}

/// What the entry at a path is, whatever its name, for a program that reads the files below a
/// folder. It is only looked at, and nothing is opened.
///
/// What the system refuses to tell, other than of a link that leads nowhere or that the user may
/// not follow.
pub fn entry_at(rt: &HostRuntime, folder: &str, path: &str) -> io::Result<Entry> {
    let itself = match fs::symlink_metadata(rt, path) {
        Ok(itself) => itself.file_type(),
        Err(refused) if refused.kind() == io::ErrorKind::NotFound => return Ok(Entry::Gone),
        Err(refused) => return Err(refused),
    };
    if itself.is_symlink() {
        linked_entry(rt, folder, path)
    } else {
        Ok(folder_entry(Way::Itself, target_of(itself)))
    }
}

/// What a link is.
fn linked_entry(rt: &HostRuntime, folder: &str, path: &str) -> io::Result<Entry> {
    match fs::metadata(rt, path) {
        Ok(target) => {
            let way = way_of(rt, folder, path)?;
            Ok(folder_entry(way, target_of(target.file_type())))
        }
        Err(refused) => Ok(folder_entry(Way::Inside, refused_target(refused)?)),
    }
}

/// What stands where a link leads that the system refuses to follow.
fn refused_target(refused: io::Error) -> io::Result<Target> {
    match refused.kind() {
        io::ErrorKind::NotFound
        | io::ErrorKind::NotADirectory
        | io::ErrorKind::FilesystemLoop
        | io::ErrorKind::InvalidFilename => Ok(Target::Nothing),
        io::ErrorKind::PermissionDenied => Ok(Target::Barred),
        _ => Err(refused),
    }
}

/// Where a link leads.
fn way_of(rt: &HostRuntime, folder: &str, path: &str) -> io::Result<Way> {
    let (folder, target) = match (fs::canonicalize(rt, folder), fs::canonicalize(rt, path)) {
        (Ok(folder), Ok(target)) => (folder, target),
        (Err(refused), _) | (_, Err(refused)) => {
            return match refused.kind() {
                io::ErrorKind::InvalidFilename => Ok(Way::Unnamed),
                _ => Err(refused),
            };
        }
    };
    if lies_in(target.as_str(), folder.as_str()) {
        Ok(Way::Inside)
    } else {
        Ok(Way::Outside)
    }
}

/// What an entry is that leads so to what stands there. It takes no memory.
pub fn folder_entry(way: Way, target: Target) -> Entry
    ensures { result ≡ folder_entry way target }
{
    match (way, target) {
        (Way::Itself, Target::Nothing) => Entry::Gone,
        (_, Target::Nothing) => Entry::LeftOut(LeftOut::LeadsNowhere),
        (_, Target::Barred) => Entry::LeftOut(LeftOut::Barred),
        (Way::Outside, _) => Entry::LeftOut(LeftOut::LeadsOut),
        (Way::Unnamed, _) => Entry::LeftOut(LeftOut::LeadsUnnamed),
        (_, Target::File) => Entry::File,
        (Way::Inside, Target::Folder) => Entry::LinkToFolder,
        (_, Target::Folder) => Entry::Folder,
        (_, Target::Pipe) => Entry::LeftOut(LeftOut::Pipe),
        (_, Target::Socket) => Entry::LeftOut(LeftOut::Socket),
        (_, Target::Device) => Entry::LeftOut(LeftOut::Device),
    }
}

/// What has this type. It takes no memory.
pub fn target_of(found: FileType) -> Target
    ensures file { result ≡ Target.File ↔ IsFile found }
    ensures folder { result ≡ Target.Folder ↔ IsDir found }
{
    if found.is_file() {
        Target::File
    } else if found.is_dir() {
        Target::Folder
    } else if found.is_fifo() {
        Target::Pipe
    } else if found.is_socket() {
        Target::Socket
    } else {
        Target::Device
    }
}

/// Whether a path leads to a folder.
pub fn is_folder(rt: &HostRuntime, path: &str) -> bool {
    match fs::metadata(rt, path) {
        Ok(found) => found.is_dir(),
        Err(_) => false,
    }
}

/// Whether a file of this name is hidden: it begins with a dot. It takes no memory.
pub fn is_hidden_name(name: &str) -> bool
    ensures { result ≡ is_hidden_name name.now }
{
    match name.as_bytes().first() {
        Some(byte) => *byte == b'.',
        None => false,
    }
}

/// Whether a file of these bytes is no text: one of them is 0. It takes no memory.
pub fn has_byte_zero(bytes: &[u8]) -> bool
    ensures { result ≡ has_byte_zero bytes.now }
{
    bytes.contains(&0)
}

/// Whether a path is that of the folder, or leads into it, step by step. It takes no memory.
pub fn lies_in(path: &str, folder: &str) -> bool
    ensures { IsTrue result ↔ PathStartsWith path.now folder.now }
{
    Path::new(path).starts_with(folder)
}
