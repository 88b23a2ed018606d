//! What a site takes of a file that changed.
ghost use Rattle.std.specs.Prelude.{◌≡◌, false, Some, IfOk, OnOk, IfErr, IfSome, option_map};
ghost use Rattle.std.specs.Prelude.{string_bytes};
ghost use Rattle.liquid_model.specs.Answer.{IsValueOrMemory};
ghost use Rattle.liquid_model.specs.ErrorKinds.{is_memory};
ghost use Rattle.liquid_core.specs.Held.{held};
ghost use Rattle.liquid_site.specs.SiteViews.{contents_of, language_of};
ghost use Rattle.liquid_site.specs.Steps.{set_page, remove_page, set_partial, remove_partial};
ghost use Rattle.liquid_site.specs.inside.Found.{file_state_view};
ghost use Rattle.liquid_site.specs.Paths.{changed_file_path};
ghost use Rattle.liquid_site.specs.Refusals.{RefusesTemplate, RefusesData, RefusesFile};
ghost use Rattle.liquid_site.specs.Taken.{TakesTemplate, TakesData, TakesFile};
ghost use Rattle.liquid_site.specs.inside.Changes.{TakesChange, RefusesChange};

use crate::folder::{Changed, Folder, path_of};
use crate::{Change, Site};
use liquid_core::{Error, ErrorKind, Object, Result};
use liquid_files::{Disk, DiskFault};
use liquid_json::data_from_json;
use std::alloc::{AllocError, Global};

/// Why a file is refused.
#[derive(Drop)]
pub enum RefusalReason {
    /// It can't be read, isn't UTF-8, or is the data's file and gone.
    Unreadable,
    /// Its text is no template, or no data.
    Fault(Error),
}

/// A file that is refused. The site holds what it held.
#[derive(Drop)]
pub struct RefusedFile {
    /// The file's path.
    pub path: String,
    /// Why it is refused.
    pub why: RefusalReason,
}

/// What stands at a path.
#[derive(Drop)]
pub(crate) enum FileState {
    /// No file.
    Gone,
    /// A file with this text.
    Text(String),
    /// A file that can't be read.
    Unreadable,
}

/// Takes what stands at the path of a changed file. A file that is gone takes its page or partial
/// with it. The answer is the file where it is refused.
pub(crate) fn take<D: Disk>(
    alloc: Global,
    site: &mut Site,
    folder: &Folder,
    changed: &Changed,
    disk: &D,
) -> Result<Option<RefusedFile>>
    ensures taken { IfSome (D.files disk.now)
        (λ f. OnOk result (TakesFile (language_of site.old) changed.now
        (f (changed_file_path folder.now changed.now)) (contents_of site.old)
        (contents_of site.new))) }
    ensures refused { IfSome (D.files disk.now)
        (λ f. IfOk result (λ r. RefusesFile (language_of site.old) changed.now
        (f (changed_file_path folder.now changed.now)) (option_map (λ refusal. refusal.why) r))) }
    ensures path { IfOk result (λ r. IfSome r (λ refusal. string_bytes refusal.path ≡
        changed_file_path folder.now changed.now)) }
    ensures language { language_of site.new ≡ language_of site.old }
    ensures memory { IfErr result (λ e. e.kind ≡ ErrorKind.Memory) }
{
    let path = path_of(alloc, folder, changed)?;
    let found = found_at(disk, path.as_str())?;
    match take_found(alloc, site, changed, found)? {
        Some(why) => Ok(Some(RefusedFile { path, why })),
        None => Ok(None),
    }
}

/// What stands at a path, or `Memory`.
fn found_at<D: Disk>(disk: &D, path: &str) -> Result<FileState>
    ensures found { IfSome (D.files disk.now) (λ f. IsValueOrMemory file_state_view result
        (f path.now)) }
    ensures memory { IfErr result (λ e. e.kind ≡ ErrorKind.Memory) }
{
    match disk.read(path) {
        Ok(Some(text)) => Ok(FileState::Text(text)),
        Ok(None) => Ok(FileState::Gone),
        Err(DiskFault::Memory) => Err(Error::from(AllocError)),
        Err(DiskFault::Refused(_) | DiskFault::Protected(_)) => Ok(FileState::Unreadable),
    }
}

/// Takes what was found.
fn take_found(
    alloc: Global,
    site: &mut Site,
    changed: &Changed,
    found: FileState,
) -> Result<Option<RefusalReason>>
    ensures taken { OnOk result (TakesFile (language_of site.old) changed.now
        (file_state_view found)
        (contents_of site.old) (contents_of site.new)) }
    ensures refused { IfOk result (RefusesFile (language_of site.old) changed.now
        (file_state_view found)) }
    ensures language { language_of site.new ≡ language_of site.old }
    ensures memory { IfErr result (λ e. e.kind ≡ ErrorKind.Memory) }
{
    match changed {
        Changed::Page(name) => take_page(alloc, site, name.as_str(), found),
        Changed::Partial(name) => take_partial(alloc, site, name.as_str(), found),
        Changed::Data => take_data(alloc, site, found),
    }
}

/// Sets a page, or removes it where its file is gone.
fn take_page(
    alloc: Global,
    site: &mut Site,
    name: &str,
    found: FileState,
) -> Result<Option<RefusalReason>>
    ensures taken { OnOk result (TakesTemplate (language_of site.old) (set_page name.now)
        (remove_page name.now)
        (file_state_view found) (contents_of site.old) (contents_of site.new)) }
    ensures refused { IfOk result (RefusesTemplate (language_of site.old) (file_state_view found)) }
    ensures language { language_of site.new ≡ language_of site.old }
    ensures memory { IfErr result (λ e. e.kind ≡ ErrorKind.Memory) }
{
    let own = String::from_str(alloc, name)?;
    match found {
        FileState::Text(text) => apply(site, Change::SetPage(own, text)),
        FileState::Gone => apply(site, Change::RemovePage(own)),
        FileState::Unreadable => Ok(Some(RefusalReason::Unreadable)),
    }
}

/// Sets a partial, or removes it where its file is gone.
fn take_partial(
    alloc: Global,
    site: &mut Site,
    name: &str,
    found: FileState,
) -> Result<Option<RefusalReason>>
    ensures taken { OnOk result (TakesTemplate (language_of site.old) (set_partial name.now)
        (remove_partial name.now) (file_state_view found) (contents_of site.old)
        (contents_of site.new)) }
    ensures refused { IfOk result (RefusesTemplate (language_of site.old) (file_state_view found)) }
    ensures language { language_of site.new ≡ language_of site.old }
    ensures memory { IfErr result (λ e. e.kind ≡ ErrorKind.Memory) }
{
    let own = String::from_str(alloc, name)?;
    match found {
        FileState::Text(text) => apply(site, Change::SetPartial(own, text)),
        FileState::Gone => apply(site, Change::RemovePartial(own)),
        FileState::Unreadable => Ok(Some(RefusalReason::Unreadable)),
    }
}

/// Applies a change. The answer is why its source is refused, where it is.
fn apply(site: &mut Site, change: Change) -> Result<Option<RefusalReason>>
    ensures taken { OnOk result (TakesChange change site.old site.new) }
    ensures refused { IfOk result (RefusesChange (language_of site.old) change) }
    ensures language { language_of site.new ≡ language_of site.old }
    ensures memory { IfErr result (λ e. e.kind ≡ ErrorKind.Memory) }
{
    match site.apply(change) {
        Ok(()) => Ok(None),
        Err(error) => refused(error),
    }
}

/// A fault of a file's text is a refusal of this file. Without memory there is no answer.
fn refused(error: Error) -> Result<Option<RefusalReason>>
    ensures fault { IfOk result (λ why. why ≡ Some (RefusalReason.Fault error)) }
    ensures not_memory { IfOk result (λ _. is_memory error.kind ≡ false) }
    ensures same { IfErr result (λ e. e ≡ error) }
    ensures memory { IfErr result (λ e. e.kind ≡ ErrorKind.Memory) }
{
    match error.kind {
        ErrorKind::Memory => Err(error),
        _ => Ok(Some(RefusalReason::Fault(error))),
    }
}

/// Takes the data of a file in the place of the site's.
fn take_data(alloc: Global, site: &mut Site, found: FileState) -> Result<Option<RefusalReason>>
    ensures taken { OnOk result (TakesData (file_state_view found) (contents_of site.old)
        (contents_of site.new)) }
    ensures refused { IfOk result (RefusesData (file_state_view found)) }
    ensures language { language_of site.new ≡ language_of site.old }
    ensures memory { IfErr result (λ e. e.kind ≡ ErrorKind.Memory) }
{
    let FileState::Text(text) = found else {
        return Ok(Some(RefusalReason::Unreadable));
    };
    match data_from_json(alloc, text.as_str()) {
        Ok(data) => {
            set_data(site, data)?;
            Ok(None)
        }
        Err(error) => refused(error),
    }
}

/// Gives a site this data in place of its own.
fn set_data(site: &mut Site, data: Object) -> Result<()>
    ensures contents { IsValueOrMemory (λ _. contents_of site.new) result
        (record (contents_of site.old) { «data» = held «data» }) }
    ensures language { language_of site.new ≡ language_of site.old }
{
    site.apply(Change::SetData(data))
}
