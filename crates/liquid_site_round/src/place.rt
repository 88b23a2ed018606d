//! Files that take their places, and files that are taken away.
ghost use Rattle.std.specs.Prelude.{◌≡◌, ◌++◌, IfOk, IfSome, map, string_bytes};
ghost use Rattle.liquid_files.specs.Files.{IsSet, gone, holds, is_held};
ghost use Rattle.liquid_language.specs.Entries.{seen};
ghost use Rattle.liquid_site_round.specs.Settings.{AreSet};
ghost use Rattle.liquid_site_round.specs.SiteWriting.{built_file_view, file_built, placings};
ghost use Rattle.liquid_model.specs.Maps.{listed};
ghost use Rattle.liquid_site_round.specs.SiteWriting.{removal, removals};
ghost use Rattle.liquid_site_round.specs.inside.Settled.{is_gone, settled};

use crate::writing::SiteStop;
use liquid_files::{Disk, DiskFault};
use std::alloc::{AllocError, Global};
use std::collections::BTreeMap;

/// A file that is built.
#[derive(Clone, Copy)]
pub enum BuiltFile<'t> {
    /// As the file of its name is in the site's folder.
    AsItIs,
    /// With this text.
    Text(&'t str),
}

/// Files that are built, by their names below the folder that is written to.
pub type BuiltFiles<'t> = BTreeMap<String, BuiltFile<'t>>;

/// The folders of a site, each with a slash at its end.
#[derive(Clone, Copy)]
pub struct Places<'w> {
    /// Where its files are read.
    pub source: &'w str,
    /// Where it is written to.
    pub out: &'w str,
}

/// Puts each file that is built into its place, in the order of their names. Where that ends at one
/// that the disk refuses, or where memory runs out, those in front are in their places.
pub(crate) fn place_files<D: Disk>(
    alloc: Global,
    places: Places<'_>,
    files: &BuiltFiles<'_>,
    disk: &mut D,
) -> Result<(), SiteStop>
    ensures { IfSome (D.files disk.old) (λ f. AreSet (placings places.entry.source.now
        places.entry.out.now (seen built_file_view files.now.entries)) f result
        (D.files disk.new)) }
{
    for (name, file) in files.iter() {
        place_file(alloc, places, name.as_str(), *file, disk)?;
    }
    Ok(())
}

/// Puts a file into its place.
fn place_file<D: Disk>(
    alloc: Global,
    places: Places<'_>,
    name: &str,
    file: BuiltFile<'_>,
    disk: &mut D,
) -> Result<(), SiteStop>
    ensures { IfSome (D.files disk.old) (λ f. IsSet (places.entry.out.now ++ name.now)
        (file_built places.entry.source.now name.now (built_file_view file.entry) f) f result
        (D.files disk.new)) }
{
    match file {
        BuiltFile::AsItIs => copy_file(alloc, places, name, disk),
        BuiltFile::Text(text) => write_file(alloc, places.out, name, text, disk),
    }
}

/// Copies the file of a name in the site's folder.
fn copy_file<D: Disk>(
    alloc: Global,
    places: Places<'_>,
    name: &str,
    disk: &mut D,
) -> Result<(), SiteStop>
    ensures { IfSome (D.files disk.old) (λ f. IsSet (places.entry.out.now ++ name.now)
        (f (places.entry.source.now ++ name.now)) f result (D.files disk.new)) }
{
    let source = joined(alloc, places.source, name)?;
    let path = joined(alloc, places.out, name)?;
    let done = disk.copy(source.as_str(), path.as_str());
    settled(path, done)
}

/// Writes a text into the file of a name.
pub(crate) fn write_file<D: Disk>(
    alloc: Global,
    out: &str,
    name: &str,
    text: &str,
    disk: &mut D,
) -> Result<(), SiteStop>
    ensures { IfSome (D.files disk.old) (λ f. IsSet (out.now ++ name.now) (holds text.now) f result
        (D.files disk.new)) }
{
    let path = joined(alloc, out, name)?;
    let done = put_text(disk, path.as_str(), text);
    settled(path, done)
}

/// Takes away each of these files that isn't built. Where that ends at one that the disk refuses,
/// or where memory runs out, those in front are gone.
pub(crate) fn remove_files<D: Disk>(
    alloc: Global,
    out: &str,
    names: &[&str],
    files: &BuiltFiles<'_>,
    disk: &mut D,
) -> Result<(), SiteStop>
    ensures { IfSome (D.files disk.old) (λ f. AreSet (removals out.now
        (seen built_file_view files.now.entries) (map (λ n. n.now) names.now)) f result
        (D.files disk.new)) }
{
    for name in names {
        remove_unbuilt(alloc, out, name, files, disk)?;
    }
    Ok(())
}

/// Takes away a file that isn't built.
fn remove_unbuilt<D: Disk>(
    alloc: Global,
    out: &str,
    name: &&str,
    files: &BuiltFiles<'_>,
    disk: &mut D,
) -> Result<(), SiteStop>
    ensures { IfSome (D.files disk.old) (λ f. AreSet (removal out.now name.now.now
        (listed (seen built_file_view files.now.entries) name.now.now)) f result
        (D.files disk.new)) }
{
    if files.get(*name).is_some() {
        return Ok(());
    }
    remove_file(alloc, out, *name, disk)
}

/// Takes away a file, where one is there.
fn remove_file<D: Disk>(alloc: Global, out: &str, name: &str, disk: &mut D) -> Result<(), SiteStop>
    ensures { IfSome (D.files disk.old) (λ f. IsSet (out.now ++ name.now) gone f result
        (D.files disk.new)) }
{
    let path = joined(alloc, out, name)?;
    let done = take_away(disk, path.as_str());
    settled(path, done)
}

/// What was made of a file: it is set, or the disk refuses it.
fn settled(path: String, done: Result<(), DiskFault>) -> Result<(), SiteStop>
    ensures { result ≡ settled path done }
{
    match done {
        Ok(()) => Ok(()),
        Err(DiskFault::Memory) => Err(SiteStop::Memory),
        Err(fault) => Err(SiteStop::Refused(path, fault)),
    }
}

/// Takes away the file at a path, where one is there.
fn take_away<D: Disk>(disk: &mut D, path: &str) -> Result<(), DiskFault>
    ensures { IfSome (D.files disk.old) (λ f. IsSet path.now gone f result (D.files disk.new)) }
{
    if is_gone(disk, path)? {
        return Ok(());
    }
    disk.remove(path)
}

/// Whether no file is at a path, as far as that can be read.
fn is_gone<D: Disk>(disk: &D, path: &str) -> Result<bool, AllocError>
    ensures { IfSome (D.files disk.now) (λ f. IfOk result (λ b. b ≡ is_gone (f path.now))) }
{
    match disk.read(path) {
        Ok(None) => Ok(true),
        Err(DiskFault::Memory) => Err(AllocError),
        Ok(Some(_)) | Err(DiskFault::Refused(_) | DiskFault::Protected(_)) => Ok(false),
    }
}

/// Writes a text into the file at a path, unless it holds that already.
fn put_text<D: Disk>(disk: &mut D, path: &str, text: &str) -> Result<(), DiskFault>
    ensures { IfSome (D.files disk.old) (λ f. IsSet path.now (holds text.now) f result
        (D.files disk.new)) }
{
    if holds(disk, path, text)? {
        return Ok(());
    }
    disk.write(path, text)
}

/// Whether the file at a path holds this text.
fn holds<D: Disk>(disk: &D, path: &str, text: &str) -> Result<bool, AllocError>
    ensures { IfSome (D.files disk.now)
        (λ f. IfOk result (λ b. b ≡ is_held (f path.now) text.now)) }
{
    match disk.read(path) {
        Ok(Some(held)) => Ok(held.as_str() == text),
        Err(DiskFault::Memory) => Err(AllocError),
        Ok(None) | Err(DiskFault::Refused(_) | DiskFault::Protected(_)) => Ok(false),
    }
}

/// The path of a file in a folder.
pub(crate) fn joined(alloc: Global, folder: &str, name: &str) -> Result<String, AllocError>
    ensures { IfOk result (λ path. string_bytes path ≡ folder.now ++ name.now) }
{
    format!(in alloc; "{folder}{name}")
}
