//! The sources of a site from its files.
ghost use Rattle.std.specs.Prelude.{◌≡◌, ◌++◌, IfErr, IfOk, OnOk, map, option_map};
ghost use Rattle.liquid_model.specs.Answer.{IsValueOrMemory};
ghost use Rattle.liquid_site_build.specs.SiteFiles.{AreRead, empty_site, refused_by};
ghost use Rattle.liquid_site_build.specs.SourceViews.{sources_view};
ghost use Rattle.liquid_site_sources.specs.SourceFolders.{refused_source_view, site_file_view};
ghost use Rattle.liquid_site_sources.specs.SourceFolders.{site_form, source_fault_view};
ghost use Rattle.liquid_site_sources.specs.inside.TextPlaces.{IsNextFile};

use crate::folders::SiteFolders;
use crate::take::{Reading, RefusedSource, SiteFile, SourceFault, take};
use liquid_engine::RunSetting;
use liquid_model::{ErrorKind, Result};
use liquid_parser::Language;
use liquid_site_build::{SiteSources, SiteTexts};
use std::alloc::Global;

/// What a site is read as, and the files that are refused.
pub struct ReadSite {
    /// The sources.
    pub sources: SiteSources,
    /// The files that are refused, in the order in which files were given.
    pub refused: Vec<RefusedSource>,
}

/// Reads the files of a site, in this order, which is that of their paths: what each of them is
/// follows from its path. Text with front matter is a page or a document, and one without is
/// written as it is. A file that is refused is none of the site's. `Memory` where a growth was
/// refused, and no other kind.
pub fn sources_of(
    alloc: Global,
    setting: RunSetting,
    folders: &SiteFolders,
    language: &Language,
    files: &[SiteFile<'_>],
) -> Result<ReadSite>
    ensures read { IfOk result (λ site. AreRead setting (site_form folders.now) language.now
        (map site_file_view files.now) (sources_view site.sources)
        (map refused_source_view site.refused.items)) }
    ensures memory { IfErr result (λ e. e.kind ≡ ErrorKind.Memory) }
{
    let reading = Reading {
        alloc,
        folders,
        language,
    };
    let mut sources = empty_site(alloc, setting, folders)?;
    let mut refused = Vec::new(alloc);
    for file in files {
        take_next(&mut sources, &mut refused, reading, file)?;
    }
    Ok(ReadSite { sources, refused })
}

/// Takes one more file, and notes it where it is refused.
#[tactic(auto, using(crate::proofs::Readings::next_taken))]
fn take_next(
    sources: &mut SiteSources,
    refused: &mut Vec<RefusedSource>,
    reading: Reading<'_>,
    file: &SiteFile<'_>,
) -> Result<()>
    ensures adds { OnOk result (IsNextFile (site_form reading.entry.folders.now)
        reading.entry.language.now (site_file_view file.now) (sources_view sources.old)
        (sources_view sources.new) (map refused_source_view refused.old.items)
        (map refused_source_view refused.new.items)) }
    ensures memory { IfErr result (λ e. e.kind ≡ ErrorKind.Memory) }
{
    let why = take(sources, reading, *file)?;
    note(reading.alloc, refused, file.path, why)?;
    Ok(())
}

/// Notes that a file is refused, where it is.
#[tactic(auto, using(crate::proofs::Readings::refused_none, crate::proofs::Readings::refused_more))]
fn note(
    alloc: Global,
    refused: &mut Vec<RefusedSource>,
    path: &str,
    why: Option<SourceFault>,
) -> Result<()>
    ensures { IsValueOrMemory (λ _. map refused_source_view refused.new.items) result
        (map refused_source_view refused.old.items
        ++ refused_by path.now (option_map source_fault_view why)) }
{
    match why {
        None => Ok(()),
        Some(why) => {
            let path = String::from_str(alloc, path)?;
            refused.push(RefusedSource { path, why })?;
            Ok(())
        }
    }
}

/// The sources before any file: collections without documents.
fn empty_site(alloc: Global, setting: RunSetting, folders: &SiteFolders) -> Result<SiteSources>
    ensures { IsValueOrMemory sources_view result (empty_site setting (site_form folders.now)) }
{
    let mut sources = SiteSources::new(alloc, setting);
    for collection in &folders.collections {
        let name = String::from_str(alloc, collection.name.as_str())?;
        drop(sources.collections.insert(name, SiteTexts::new(alloc))?);
    }
    Ok(sources)
}
