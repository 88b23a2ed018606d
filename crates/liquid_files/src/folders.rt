//! The folders that pages go into.
ghost use Rattle.std.specs.Prelude.{◌≡◌};
ghost use Rattle.liquid_files.specs.Parts.{IsKept};
ghost use Rattle.liquid_files.specs.Stories.{Between};

use crate::disk::DiskFault;
use crate::parts::{folder_of, is_part_path};
use crate::system::{FileSystem, Standing};
use std::alloc::Global;
use std::collections::BTreeSet;
use std::io;
use std::path::Path;

/// Whether a folder lies below another one, links followed. Of a folder that isn't there, the
/// nearest one around it counts. Where there is no other one, each does.
pub(crate) fn is_inside<S: FileSystem>(
    alloc: Global,
    system: &S,
    folder: &str,
    root: Option<&String>,
) -> Result<bool, DiskFault> {
    let Some(root) = root else {
        return Ok(true);
    };
    let mut around = folder.trim_end_matches('/');
    for _ in 0..folder.len() {
        match system.real_path(alloc, shown(around, folder)) {
            Ok(real) => return Ok(Path::new(real.as_str()).starts_with(root.as_str())),
            Err(refused) if refused.kind() == io::ErrorKind::NotFound => {
                around = folder_of(around).trim_end_matches('/');
            }
            Err(refused) => return Err(DiskFault::from(refused)),
        }
    }
    Ok(Path::new(system.real_path(alloc, shown("", folder))?.as_str()).starts_with(root.as_str()))
}

/// Notes the folders around those that aren't there yet, so that their names are flushed.
pub(crate) fn note_new_folders<S: FileSystem>(
    alloc: Global,
    system: &S,
    around: &mut BTreeSet<String>,
    folder: &str,
) -> Result<(), DiskFault> {
    let mut path = folder.trim_end_matches('/');
    for _ in 0..folder.len() {
        if path.is_empty() || !is_missing(system, path) {
            break;
        }
        let outer = folder_of(path);
        around.insert(String::from_str(alloc, outer)?)?;
        path = outer.trim_end_matches('/');
    }
    Ok(())
}

/// Whether nothing is at a path, as far as the system knows.
fn is_missing<S: FileSystem>(system: &S, path: &str) -> bool {
    matches!(system.standing(path), Ok(Standing::Nothing))
}

/// The path of a folder without the slash after it: the root of the system, or the folder of the
/// process, has none otherwise.
fn shown<'p>(folder: &'p str, whole: &str) -> &'p str {
    if !folder.is_empty() {
        folder
    } else if whole.starts_with('/') {
        "/"
    } else {
        "."
    }
}

/// Makes a folder ready for pages: it is there, where it is to be made, and the parts of runs that
/// ended before their time are gone.
pub(crate) fn make_ready<S: FileSystem>(
    alloc: Global,
    system: &mut S,
    folder: &str,
    is_made: bool,
) -> Result<(), DiskFault>
    ensures { Between IsKept (S.story system.old) (S.story system.new) }
{
    let path = shown(folder.trim_end_matches('/'), folder);
    if is_made {
        system.make_folder(path)?;
    }
    // a folder that can't be listed may take pages all the same
    match system.left_parts(alloc, path) {
        Ok(parts) => remove_parts(system, &parts),
        Err(refused) if refused.kind() == io::ErrorKind::OutOfMemory => {
            return Err(DiskFault::Memory);
        }
        Err(_) => {}
    }
    Ok(())
}

/// Takes away parts.
fn remove_parts<S: FileSystem>(system: &mut S, parts: &[String])
    ensures { Between IsKept (S.story system.old) (S.story system.new) }
{
    for part in parts {
        remove_part(system, part.as_str());
    }
}

/// Takes away a file, if it is a part.
#[tactic(auto, using(crate::proofs::Told::part_taken_away))]
fn remove_part<S: FileSystem>(system: &mut S, path: &str)
    ensures { Between IsKept (S.story system.old) (S.story system.new) }
{
    if is_part_path(path) {
        let _ = system.remove(path);
    }
}

/// Makes sure that the names in folders are on the disk. The answer is why the first is refused.
pub(crate) fn flush_folders<S: FileSystem>(
    system: &mut S,
    folders: &BTreeSet<String>,
) -> io::Result<()>
    ensures { S.story system.new ≡ S.story system.old }
{
    for folder in folders.iter() {
        let path = shown(folder.as_str().trim_end_matches('/'), folder.as_str());
        system.flush_folder(path)?;
    }
    Ok(())
}
