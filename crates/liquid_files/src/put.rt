//! A page that takes its place whole.
ghost use Rattle.std.specs.Prelude.{◌≡◌, OnErr, OnOk, false, true};
ghost use Rattle.liquid_files.specs.Contents.{filled_with, is_of_pages};
ghost use Rattle.liquid_files.specs.Parts.{IsKept, TakesPlace, is_part_path, without_parts};
ghost use Rattle.liquid_files.specs.Stories.{Between};

use crate::system::{Content, FileId, FileSystem};
use std::alloc::Global;
use std::collections::BTreeMap;
use std::io;

/// A page to be written: its path, what it holds, and who may read and write it, where that is not
/// as for any new file.
#[derive(Clone, Copy)]
pub(crate) struct Draft<'t> {
    pub path: &'t str,
    pub content: Content<'t>,
    pub mode: Option<u32>,
}

/// The pages that were written: the path of each, by the file that it is in.
pub(crate) type WrittenPages = BTreeMap<FileId, String>;

/// Puts a page into its file: all of it, or the file holds what it held, at any moment. It is
/// written into a part first, which then takes the place of the file. Where that fails, the part is
/// taken away again; and it is `AlreadyExists`, and nothing else is tried, where something stands
/// in the place of the part.
pub(crate) fn put_whole<S: FileSystem>(
    alloc: Global,
    system: &mut S,
    pages: &mut WrittenPages,
    part: &str,
    draft: Draft<'_>,
) -> io::Result<()>
    requires part { is_part_path part.now ≡ true }
    requires page { is_part_path draft.path.now ≡ false }
    requires source { is_of_pages draft.content ≡ true }
    ensures placed { OnOk result (Between (TakesPlace draft.entry.path.now
        (filled_with draft.entry.content)) (S.story system.old) (S.story system.new)) }
    ensures kept { OnErr result (Between IsKept (S.story system.old) (S.story system.new)) }
{
    let path = String::from_str(alloc, draft.path)?;
    let id = new_part(system, part, draft.content, draft.mode)?;
    if let Err(refused) = pages.insert(id, path) {
        let _ = system.remove(part);
        return Err(io::Error::from(refused));
    }
    match system.rename(part, draft.path) {
        Ok(()) => Ok(()),
        Err(refused) => {
            drop(pages.remove(&id));
            let _ = system.remove(part);
            Err(refused)
        }
    }
}

/// Writes a content into a new part, so that it is on the disk. Where that fails there is no part.
fn new_part<S: FileSystem>(
    system: &mut S,
    part: &str,
    content: Content<'_>,
    mode: Option<u32>,
) -> io::Result<FileId>
    requires part { is_part_path part.now ≡ true }
    requires source { is_of_pages content ≡ true }
    ensures kept { Between IsKept (S.story system.old) (S.story system.new) }
    ensures held { OnOk result (Between
        (λ o n. n.now part.now ≡ filled_with content.entry (without_parts o.now))
        (S.story system.old) (S.story system.new)) }
{
    system.make(part, mode)?;
    match filled(system, part, content) {
        Ok(id) => Ok(id),
        Err(refused) => {
            let _ = system.remove(part);
            Err(refused)
        }
    }
}

/// Writes a content into the part that was made last.
fn filled<S: FileSystem>(system: &mut S, part: &str, content: Content<'_>) -> io::Result<FileId>
    requires part { is_part_path part.now ≡ true }
    requires source { is_of_pages content ≡ true }
    ensures kept { Between IsKept (S.story system.old) (S.story system.new) }
    ensures held { OnOk result (Between
        (λ o n. n.now part.now ≡ filled_with content.entry (without_parts o.now))
        (S.story system.old) (S.story system.new)) }
{
    system.fill(part, content)?;
    system.flush()
}
