//! A site that is built, in its folder.
ghost use Rattle.std.specs.Prelude.{◌≡◌, ◌++◌, IfSome, IsErr, OnErr, OnOk, map};
ghost use Rattle.liquid_files.specs.Files.{is_held};
ghost use Rattle.liquid_language.specs.Entries.{seen};
ghost use Rattle.liquid_site_round.specs.Settings.{AreSet};
ghost use Rattle.liquid_site_round.specs.SiteWriting.{SiteIsBegun, SiteIsWritten, built_file_view};
ghost use Rattle.liquid_site_round.specs.SiteWriting.{built_names, list_ahead, list_name};
ghost use Rattle.liquid_site_round.specs.SiteWriting.{site_settings};
ghost use Rattle.liquid_site_round.specs.WrittenNames.{list_text};
ghost use Rattle.liquid_site_round.specs.declared.writing.SiteStop.TheVariants.{Memory};
ghost use Rattle.liquid_site_round.specs.inside.Settled.{list_file, held_text};

use crate::list::{WrittenNames, list_of, list_of_built, names_listed};
use crate::place::{BuiltFiles, Places, joined, place_files, remove_files, write_file};
use liquid_files::{Disk, DiskFault};
use std::alloc::{AllocError, AllocFailed, Global};

/// The name of the list of what was written, in the folder that is written to.
const LIST_NAME: &str = ".bikleinu-site";

/// Why not all of a site was written.
#[derive(Debug, Drop)]
pub enum SiteStop {
    /// No memory was to be had.
    Memory,
    /// The disk refuses to write the file at this path, or to take it away.
    Refused(String, DiskFault),
    /// The list at this path can't be read.
    Unread(String, DiskFault),
    /// The list at this path has this line, which is no name of a file below the folder.
    BadList(String, String),
}

impl From<AllocError> for SiteStop {
    ghost from_gives = { λ _ stop. stop ≡ Memory };

    fn from(_refused: AllocError) -> SiteStop {
        SiteStop::Memory
    }
}

impl<T: Drop> From<AllocFailed<T>> for SiteStop {
    ghost from_gives = { λ _ stop. stop ≡ Memory };

    fn from(_refused: AllocFailed<T>) -> SiteStop {
        SiteStop::Memory
    }
}

/// The list of what was written before: its text, where it is there, and the names that this has.
#[derive(Clone, Copy)]
struct Before<'t> {
    held: &'t Option<String>,
    names: &'t [&'t str],
}

/// Puts each file that is built into its place, and takes away those that the list of what was
/// written before has and that aren't built. The list is written ahead of all, with both, and at
/// the end with what is built alone, so that whatever ends it the next call goes on.
///
/// Where the list can't be read, or has a line that is no name of a file below the folder, nothing
/// is written: `Unread`, `BadList`. It is `Refused` at the first file that the disk refuses, and
/// `Memory` where memory runs out; then the files in front are in their places.
pub fn write_site<D: Disk>(
    alloc: Global,
    places: Places<'_>,
    files: &BuiltFiles<'_>,
    disk: &mut D,
) -> Result<(), SiteStop>
    ensures written { IfSome (D.files disk.old) (λ f. OnOk result (SiteIsWritten
        places.entry.source.now places.entry.out.now (seen built_file_view files.now.entries)
        f (D.files disk.new))) }
    ensures begun { IfSome (D.files disk.old) (λ f. OnErr result (SiteIsBegun
        places.entry.source.now places.entry.out.now (seen built_file_view files.now.entries)
        f (D.files disk.new))) }
{
    let path = joined(alloc, places.out, LIST_NAME)?;
    match disk.read(path.as_str()) {
        Ok(held) => write_after(alloc, places, &held, files, disk),
        Err(DiskFault::Memory) => Err(SiteStop::Memory),
        Err(fault) => Err(SiteStop::Unread(path, fault)),
    }
}

/// The same, once the list is read: its text, where it is there.
fn write_after<D: Disk>(
    alloc: Global,
    places: Places<'_>,
    held: &Option<String>,
    files: &BuiltFiles<'_>,
    disk: &mut D,
) -> Result<(), SiteStop>
    requires { IfSome (D.files disk.old)
        (λ f. f (places.out.now ++ list_name) ≡ list_file held.now) }
    ensures written { IfSome (D.files disk.old) (λ f. OnOk result (SiteIsWritten
        places.entry.source.now places.entry.out.now (seen built_file_view files.now.entries)
        f (D.files disk.new))) }
    ensures begun { IfSome (D.files disk.old) (λ f. OnErr result (SiteIsBegun
        places.entry.source.now places.entry.out.now (seen built_file_view files.now.entries)
        f (D.files disk.new))) }
{
    match names_listed(alloc, held_text(held))? {
        WrittenNames::Names(names) => {
            let before = Before {
                held,
                names: names.as_slice(),
            };
            write_listed(alloc, places, before, files, disk)
        }
        WrittenNames::Refused(line) => bad_list(alloc, places.out, line),
    }
}

/// The text of a list that was read; without one the empty text.
fn held_text(held: &Option<String>) -> &str
    ensures { result.now ≡ held_text held.now }
{
    match held {
        Some(text) => text.as_str(),
        None => "",
    }
}

/// A list with a line that is no name.
fn bad_list(alloc: Global, out: &str, line: &str) -> Result<(), SiteStop>
    ensures { IsErr result }
{
    let path = joined(alloc, out, LIST_NAME)?;
    let line = String::from_str(alloc, line)?;
    Err(SiteStop::BadList(path, line))
}

/// The same, once the names of the list are read.
fn write_listed<D: Disk>(
    alloc: Global,
    places: Places<'_>,
    before: Before<'_>,
    files: &BuiltFiles<'_>,
    disk: &mut D,
) -> Result<(), SiteStop>
    requires { IfSome (D.files disk.old)
        (λ f. f (places.out.now ++ list_name) ≡ list_file before.held.now) }
    ensures { IfSome (D.files disk.old) (λ f. AreSet (site_settings places.entry.source.now
        places.entry.out.now (seen built_file_view files.now.entries)
        (map (λ n. n.now) before.entry.names.now) f) f result (D.files disk.new)) }
{
    let built = list_of_built(alloc, files)?;
    put_ahead(alloc, places.out, before, (built.as_str(), files), disk)?;
    remove_files(alloc, places.out, before.names, files, disk)?;
    place_files(alloc, places, files, disk)?;
    write_file(alloc, places.out, LIST_NAME, built.as_str(), disk)
}

/// Writes the list of all that was written and is built, where it isn't that of what is built.
fn put_ahead<D: Disk>(
    alloc: Global,
    out: &str,
    before: Before<'_>,
    built: (&str, &BuiltFiles<'_>),
    disk: &mut D,
) -> Result<(), SiteStop>
    requires held { IfSome (D.files disk.old)
        (λ f. f (out.now ++ list_name) ≡ list_file before.held.now) }
    requires built { built.0.now ≡ list_text (built_names (seen built_file_view
        built.1.now.entries)) }
    ensures { IfSome (D.files disk.old) (λ f. AreSet (list_ahead (out.now ++ list_name)
        (seen built_file_view built.entry.1.now.entries) (map (λ n. n.now) before.entry.names.now)
        f) f result (D.files disk.new)) }
{
    let (text, files) = built;
    if is_of(before.held, text) {
        return Ok(());
    }
    let ahead = list_of(alloc, before.names, files)?;
    write_file(alloc, out, LIST_NAME, ahead.as_str(), disk)
}

/// Whether the list that was read is there and has this text.
fn is_of(held: &Option<String>, text: &str) -> bool
    ensures { result ≡ is_held (list_file held.now) text.now }
{
    match held {
        Some(held) => held.as_str() == text,
        None => false,
    }
}
