//! A round: what changed is taken, and pages that look otherwise are written.
ghost use Rattle.std.specs.Prelude.{◌≡◌, Some, IfSome, IfOk, IfErr, OnOk, string_bytes};
ghost use Rattle.liquid_site.specs.Contents.{pages_from_scratch};
ghost use Rattle.liquid_site.specs.SiteViews.{contents_of, language_of};
ghost use Rattle.liquid_site.specs.Refusals.{AreRefusals};
ghost use Rattle.liquid_site.specs.Taken.{AreTaken};
ghost use Rattle.liquid_site.specs.Written.{IsStop, all_written, count_from, KeepsOtherFiles};
ghost use Rattle.liquid_site.specs.Written.{TellsUnwritten};

use crate::Site;
use crate::folder::{Changed, Folder};
use crate::take::{RefusedFile, take};
use crate::written::write_pages;
use liquid_core::{ErrorKind, Result};
use liquid_files::Disk;
use std::alloc::Global;

/// What a round did.
#[derive(Drop)]
pub struct RoundOutcome {
    /// The files that were refused, in the order of the changes.
    pub refusals: Vec<RefusedFile>,
    /// How many pages were written, up to the greatest value; or the fault that ended the writing:
    /// `Write`, whose message names the page's file that can't be written, or `Memory`. The pages
    /// in front of that one are written.
    pub written: Result<u64>,
}

/// Takes the files that changed, one after another, and then writes each page whose file holds
/// another text.
///
/// A file that is gone takes its page or its partial with it. A file whose text is no template or
/// no data, or which can't be read, is refused and changes nothing, and so is the data's file where
/// it is gone. The file of a page that is gone stays.
/// Where a page's file can't be written, the outcome has that fault beside the refusals; the next
/// round writes the others. The answer is `Memory` where memory ran out before all changes were
/// taken: some of them may be, and no file is written.
pub fn round<D: Disk>(
    alloc: Global,
    site: &mut Site,
    folder: &Folder,
    changes: &[Changed],
    disk: &mut D,
) -> Result<RoundOutcome>
    ensures taken { IfSome (D.files disk.old) (λ f. OnOk result
        (AreTaken (language_of site.old) folder.now f changes.now
        (contents_of site.old) (contents_of site.new))) }
    ensures refusals { IfSome (D.files disk.old) (λ f. IfOk result (λ outcome.
        AreRefusals (language_of site.old) folder.now f changes.now outcome.refusals.items)) }
    ensures written { IfSome (D.files disk.old) (λ f. IfOk result (λ outcome. OnOk outcome.written
        (D.files disk.new ≡ Some (all_written (string_bytes folder.now.out)
        (pages_from_scratch (contents_of site.new)) f)))) }
    ensures count { IfSome (D.files disk.old) (λ f. IfOk result (λ outcome. IfOk outcome.written
        (λ n. n ≡ count_from 0 (string_bytes folder.now.out)
        (pages_from_scratch (contents_of site.new)) f))) }
    ensures unwritten { IfSome (D.files disk.old) (λ f. IfOk result (λ outcome.
        IfErr outcome.written (TellsUnwritten (string_bytes folder.now.out)
        (pages_from_scratch (contents_of site.new)) f (D.files disk.new)))) }
    ensures stop { IfOk result (λ outcome. IfErr outcome.written (λ e. IsStop e.kind)) }
    ensures others { IfSome (D.files disk.old) (λ f. KeepsOtherFiles (string_bytes folder.now.out)
        (pages_from_scratch (contents_of site.new)) f (D.files disk.new)) }
    ensures language { language_of site.new ≡ language_of site.old }
    ensures memory { IfErr result (λ e. e.kind ≡ ErrorKind.Memory) }
    ensures untouched { IfErr result (λ e. D.files disk.new ≡ D.files disk.old) }
{
    let refusals = take_all(alloc, site, folder, changes, disk)?;
    let written = write_pages(alloc, site.pages(), folder.out.as_str(), disk);
    Ok(RoundOutcome { refusals, written })
}

/// Takes the files that changed, one after another. The answer is those that are refused.
fn take_all<D: Disk>(
    alloc: Global,
    site: &mut Site,
    folder: &Folder,
    changes: &[Changed],
    disk: &D,
) -> Result<Vec<RefusedFile>>
    ensures taken { IfSome (D.files disk.now)
        (λ f. OnOk result (AreTaken (language_of site.old) folder.now f changes.now
        (contents_of site.old) (contents_of site.new))) }
    ensures refusals { IfSome (D.files disk.now)
        (λ f. IfOk result
        (λ refusals. AreRefusals (language_of site.old) folder.now f changes.now
        refusals.items)) }
    ensures language { language_of site.new ≡ language_of site.old }
    ensures memory { IfErr result (λ e. e.kind ≡ ErrorKind.Memory) }
{
    let mut refusals = Vec::new(alloc);
    for changed in changes {
        if let Some(refusal) = take(alloc, site, folder, changed, disk)? {
            refusals.push(refusal)?;
        }
    }
    Ok(refusals)
}
